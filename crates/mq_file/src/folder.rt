//! The folder of a broker's files.

ghost use Rattle.std.specs.Prelude.{◌≡◌, ◌≢◌, ◌⊎◌, Ok, Err, Some, IfErr, IfOk, OnOk};
ghost use Rattle.mq_file.specs.Folders.{IsNotWritten};

use crate::error::{FolderError, check_lock, is_new, opened, read, written};
use crate::folder_record::FolderRecord;
use crate::named_files::{NamedFiles, switch};
use std::alloc::Global;
use std::fs::{DirBuilder, File, OpenOptions};
use std::io::{ErrorKind, Read, Write};
use std::marker::Model;
use std::os::unix::fs::{DirBuilderExt, OpenOptionsExt};
use std::rt::Files;
use std::{fs, io, mem};

/// A folder that no other process uses, as long as this value exists.
///
/// Contracts see it as the calls on its files, newest first, from which follows what a crash may
/// leave. Those of earlier processes are not known. The writes of a
/// [`JournalFile`](crate::JournalFile) are in its own record, and not in this one.
#[derive(Drop)]
pub struct Folder {
    folder: File,
    history: FolderRecord,
}

impl Model for Folder {
    ghost use Rattle.std.specs.Prelude.{List};
    ghost use Rattle.mq_file.specs.FolderHistory.{FolderCall};

    ghost Value = { List FolderCall };

    ghost view = { λ f. f.history.calls };
}

impl Folder {
    ghost use Rattle.mq_file.specs.Prelude.{files_after, AreApart, IsEitherPair, IsSwitched, Removed, Throughout};

    /// Opens and locks a folder. A missing one is created, durably, and only its user may read it.
    ///
    /// Errors:
    /// - `Folder` if it can't be created, opened or locked.
    /// - `Full` or `Unwritten` if the name of a new folder can't be made durable.
    /// - `InUse` if another process has it.
    /// - `Memory` if an allocation fails.
    pub fn open<R: Files<File = File>>(
        rt: &R,
        alloc: Global,
        path: &str,
    ) -> Result<Folder, FolderError>
        ensures { IfErr result (λ why. why ≢ FolderError.Unreadable) }
    {
        let created = DirBuilder::new().mode(0o700).create(rt, path);
        sync_parent(rt, alloc, path, is_new(created)?)?;
        let Ok(folder) = File::open(rt, path) else {
            return Err(FolderError::Folder);
        };
        check_lock(folder.try_lock())?;
        let history = FolderRecord::new();
        Ok(Folder { folder, history })
    }

    /// Makes the names of the folder durable. Returns `Full` or `Unwritten` if that fails.
    pub fn sync(&self) -> Result<(), FolderError>
        ensures { IfErr result IsNotWritten }
    {
        written(self.folder.sync_all())
    }

    /// Replaces a file of the folder by one with these bytes, and continues in another journal, as
    /// [`switch`] does. Only the user may read the new files. Returns `Full` or `Unwritten` if that
    /// fails.
    pub fn switch<R: Files<File = File>>(
        &mut self,
        rt: &R,
        next: &str,
        path: &str,
        bytes: &[u8],
        first: &str,
        second: &str,
    ) -> Result<(), FolderError>
        ensures ok { AreApart next.now path.now first.now second.now → OnOk result
            (IsSwitched path.now bytes.now first.now second.now (files_after self.old).now (files_after self.new).now) }
        ensures at_any_time { AreApart next.now path.now first.now second.now →
            Throughout (IsEitherPair path.now bytes.now first.now second.now) (Some (files_after self.old)) (Some (files_after self.new)) }
        ensures why { IfErr result IsNotWritten }
    {
        let history = mem::replace(&mut self.history, FolderRecord::new());
        let mut files = FolderFiles {
            rt,
            folder: &self.folder,
            history,
        };
        let switched = switch(&mut files, next, path, bytes, first, second);
        let FolderFiles { history, .. } = files;
        self.history = history;
        switched
    }

    /// Removes a file, if it exists. Returns `Full` or `Unwritten` if that fails.
    pub fn remove<R: Files<File = File>>(&mut self, rt: &R, path: &str) -> Result<(), FolderError>
        ensures ok { OnOk result (Removed path.now (files_after self.old).now (files_after self.new).now) }
        ensures why { IfErr result IsNotWritten }
    {
        let history = mem::replace(&mut self.history, FolderRecord::new());
        let mut files = FolderFiles {
            rt,
            folder: &self.folder,
            history,
        };
        let removed = files.remove(path);
        let FolderFiles { history, .. } = files;
        self.history = history;
        written(removed)
    }
}

const WROTE: u64 = 0;

const STUMBLED: u64 = 1;

const MOVED: u64 = 2;

const GONE: u64 = 3;

const SYNCED: u64 = 4;

const FAILED: u64 = 5;

// The files of a folder of the system. Contracts see them by the record of their calls. Whether
// they have what the calls report is not proved.
#[derive(Drop)]
struct FolderFiles<'a, R: Files<File = File>> {
    rt: &'a R,
    folder: &'a File,
    history: FolderRecord,
}

// Writes a whole file anew, durably.
fn write_file<R: Files<File = File>>(rt: &R, name: &str, bytes: &[u8]) -> io::Result<()> {
    let mut file = OpenOptions::new()
        .write(true)
        .create(true)
        .truncate(true)
        .mode(0o600)
        .open(rt, name)?;
    file.write_all(bytes)?;
    file.sync_all()
}

// Removes a file, if it exists.
fn remove_file<R: Files<File = File>>(rt: &R, name: &str) -> io::Result<()> {
    match fs::remove_file(rt, name) {
        Err(error) if error.kind() == ErrorKind::NotFound => Ok(()),
        removed => removed,
    }
}

impl<R: Files<File = File>> NamedFiles for FolderFiles<'_, R> {
    ghost use Rattle.mq_file.specs.Prelude.{files_after};

    ghost folder = { λ f. Some (files_after f.history.calls) };

    #[tactic(auto, using(crate::proofs::Folders::file_not_written))]
    fn write_new(&mut self, name: &str, bytes: &[u8]) -> io::Result<()> {
        match write_file(self.rt, name, bytes) {
            Ok(()) => {
                self.history.note(&[WROTE], name.as_bytes(), bytes);
                Ok(())
            }
            Err(error) => {
                self.history.note(&[STUMBLED], name.as_bytes(), &[]);
                Err(error)
            }
        }
    }

    #[tactic(auto, using(crate::proofs::Folders::file_moved, crate::proofs::Folders::nothing_done))]
    fn rename(&mut self, from: &str, to: &str) -> io::Result<()> {
        match fs::rename(self.rt, from, to) {
            Ok(()) => {
                self.history.note(&[MOVED], from.as_bytes(), to.as_bytes());
                Ok(())
            }
            Err(error) => {
                self.history.note(&[FAILED], &[], &[]);
                Err(error)
            }
        }
    }

    #[tactic(auto, using(crate::proofs::Folders::file_gone, crate::proofs::Folders::nothing_done))]
    fn remove(&mut self, name: &str) -> io::Result<()> {
        match remove_file(self.rt, name) {
            Ok(()) => {
                self.history.note(&[GONE], name.as_bytes(), &[]);
                Ok(())
            }
            Err(error) => {
                self.history.note(&[FAILED], &[], &[]);
                Err(error)
            }
        }
    }

    #[tactic(auto, using(crate::proofs::Folders::names_synced, crate::proofs::Folders::nothing_done))]
    fn sync(&mut self) -> io::Result<()> {
        match self.folder.sync_all() {
            Ok(()) => {
                self.history.note(&[SYNCED], &[], &[]);
                Ok(())
            }
            Err(error) => {
                self.history.note(&[FAILED], &[], &[]);
                Err(error)
            }
        }
    }
}

// Makes the name of a folder durable. That of an older folder may be so already, so a failure
// counts only for a new one.
fn sync_parent<R: Files<File = File>>(
    rt: &R,
    alloc: Global,
    path: &str,
    is_new: bool,
) -> Result<(), FolderError>
    ensures { IfErr result (λ why. (why ≡ FolderError.Memory) ⊎ IsNotWritten why) }
{
    let Ok(name) = format!(in alloc; "{path}/..") else {
        return Err(FolderError::Memory);
    };
    let synced = match File::open(rt, name.as_str()) {
        Ok(parent) => parent.sync_all(),
        Err(error) => Err(error),
    };
    if is_new { written(synced) } else { Ok(()) }
}

// Reads the rest of a file, and makes it durable.
fn read_synced(alloc: Global, file: &mut File) -> io::Result<Vec<u8>> {
    let mut bytes = Vec::new(alloc);
    file.read_to_end(&mut bytes)?;
    file.sync_all()?;
    Ok(bytes)
}

/// The bytes of a file, which are durable afterwards. `None` if it does not exist.
///
/// An earlier process may have ended before it synced the file.
///
/// Errors: `Memory` if an allocation fails, or else `Unreadable`.
pub fn read_file<R: Files<File = File>>(
    rt: &R,
    alloc: Global,
    path: &str,
) -> Result<Option<Vec<u8>>, FolderError>
    ensures { IfErr result (λ why. (why ≡ FolderError.Memory) ⊎ (why ≡ FolderError.Unreadable)) }
{
    let Some(mut file) = opened(File::open(rt, path))? else {
        return Ok(None);
    };
    let bytes = read(read_synced(alloc, &mut file))?;
    Ok(Some(bytes))
}

/// Whether a file exists. Returns `Unreadable` if that can't be found out.
pub fn has_file<R: Files>(rt: &R, path: &str) -> Result<bool, FolderError>
    ensures { IfErr result (λ why. why ≡ FolderError.Unreadable) }
{
    match fs::exists(rt, path) {
        Ok(exists) => Ok(exists),
        Err(_) => Err(FolderError::Unreadable),
    }
}
