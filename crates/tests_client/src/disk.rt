//! A disk in memory, with the file of a session and its draft.

use std::alloc::Global;
use std::cell::{Cell, RefCell};
use std::io;
use std::io::ErrorKind;

/// The file `s`, if it exists, and its draft `s.new`. The draft is lost at a rename unless it was
/// synced. Only `renames` renames work. If `is_locked`, the file can't be opened.
#[derive(Drop)]
pub(crate) struct Disk {
    pub(crate) alloc: Global,
    pub(crate) file: RefCell<Option<Vec<u8>>>,
    pub(crate) draft: RefCell<Vec<u8>>,
    pub(crate) is_synced: Cell<bool>,
    pub(crate) is_locked: Cell<bool>,
    pub(crate) renames: Cell<u32>,
}

impl Disk {
    /// A disk with this file.
    pub(crate) fn new(alloc: Global, file: Option<Vec<u8>>) -> Disk {
        Disk {
            alloc,
            file: RefCell::new(file),
            draft: RefCell::new(Vec::new(alloc)),
            is_synced: Cell::new(false),
            is_locked: Cell::new(false),
            renames: Cell::new(u32::MAX),
        }
    }
}

/// A reference to a disk.
#[derive(Clone, Copy)]
pub(crate) struct Lent<'a>(pub(crate) &'a Disk);

fn refused() -> io::Error {
    io::Error::from(ErrorKind::Unsupported)
}

fn in_use() -> io::Error {
    io::Error::from(ErrorKind::Other)
}

impl mq_client::Disk for Lent<'_> {
    fn read(&self, alloc: Global, name: &str) -> io::Result<Option<Vec<u8>>> {
        if name != "s" {
            return Err(refused());
        }
        if self.0.is_locked.get() {
            return Err(io::Error::from(ErrorKind::PermissionDenied));
        }
        let Ok(file) = self.0.file.try_borrow() else {
            return Err(in_use());
        };
        match &*file {
            Some(bytes) => {
                let mut copy = Vec::new(alloc);
                copy.extend_from_slice(bytes.as_slice())?;
                Ok(Some(copy))
            }
            None => Ok(None),
        }
    }

    fn write(&mut self, name: &str, like: &str, bytes: &[u8]) -> io::Result<()> {
        if name != "s.new" || like != "s" {
            return Err(refused());
        }
        self.0.is_synced.set(false);
        let mut draft = Vec::new(self.0.alloc);
        draft.extend_from_slice(bytes)?;
        match self.0.draft.try_replace(draft) {
            Ok(_) => Ok(()),
            Err(_) => Err(in_use()),
        }
    }

    fn sync(&mut self, name: &str) -> io::Result<()> {
        if name != "s.new" {
            return Err(refused());
        }
        self.0.is_synced.set(true);
        Ok(())
    }

    fn rename(&mut self, from: &str, to: &str) -> io::Result<()> {
        let left = self.0.renames.get();
        if left == 0 || from != "s.new" || to != "s" {
            return Err(refused());
        }
        self.0.renames.set(left - 1);
        let Ok(draft) = self.0.draft.try_replace(Vec::new(self.0.alloc)) else {
            return Err(in_use());
        };
        let bytes = if self.0.is_synced.get() {
            draft
        } else {
            Vec::new(self.0.alloc)
        };
        match self.0.file.try_replace(Some(bytes)) {
            Ok(_) => Ok(()),
            Err(_) => Err(in_use()),
        }
    }

    fn remove(&mut self, name: &str) -> io::Result<()> {
        if name != "s.new" {
            return Err(refused());
        }
        match self.0.draft.try_replace(Vec::new(self.0.alloc)) {
            Ok(_) => Ok(()),
            Err(_) => Err(in_use()),
        }
    }
}
