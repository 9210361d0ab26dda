//! Disks: named files.

ghost use Rattle.std.specs.Prelude.{◌≡◌, ◌≢◌, ℕ, List, Option, None, Some, Ok, Err, MatchOption, IfOk, IfErr, IsTrue, OnErr, OnOk, ◌↔◌};
ghost use Rattle.mq_client.specs.Prelude.{error_kind, Contains, FileState, IsMissing, Moved, Stays, Synced, Touched, Wrote};

use std::alloc::Global;
use std::fs::{File, OpenFile, OpenOptions, Permissions};
use std::io::{ErrorKind, Read, Write};
use std::os::unix::fs::{OpenOptionsExt, PermissionsExt};
use std::rt::Files;
use std::{fs, io};

/// The bits of a mode that are permissions.
const PERMISSIONS: u32 = 0o777;

/// The permissions of a new file: its owner may read and write it.
pub(crate) const OWNER_ONLY: u32 = 0o600;

/// Named files, as far as a session needs them.
pub trait Disk {
    /// For each name, the contents that a crash may have left so far, in order, if they are known.
    ghost history: { Self → Option (List ℕ → List FileState) } = { λ _. None };

    /// Reads a whole file. Returns `None` if there is no file of this name.
    fn read(&self, alloc: Global, name: &str) -> io::Result<Option<Vec<u8>>>
        ensures { IfOk result (λ found. MatchOption found (IsMissing (history self.now) name.now)
            (λ bytes. Contains (history self.now) name.now bytes.items)) };

    /// Writes a whole file anew, with the permissions of the file `like`. If there is no such file,
    /// only the owner may read and write the new one.
    fn write(&mut self, name: &str, like: &str, bytes: &[u8]) -> io::Result<()>
        ensures ok { OnOk result (Wrote name.now bytes.now (history self.old) (history self.new)) }
        ensures err { OnErr result (Touched name.now (history self.old) (history self.new)) };

    /// Brings a file to the disk, so that a crash can't change it any more.
    fn sync(&mut self, name: &str) -> io::Result<()>
        ensures ok { OnOk result (Synced name.now (history self.old) (history self.new)) }
        ensures err { OnErr result (Touched name.now (history self.old) (history self.new)) };

    /// Replaces the file `to` by the file `from`, in one step.
    fn rename(&mut self, from: &str, to: &str) -> io::Result<()>
        ensures ok { OnOk result (Moved from.now to.now (history self.old) (history self.new)) }
        ensures err { OnErr result (Stays to.now (history self.old) (history self.new)) };

    /// Removes a file.
    fn remove(&mut self, name: &str) -> io::Result<()>
        ensures { Touched name.now (history self.old) (history self.new) };
}

/// The files of the system. No contract of the system says what a file has.
#[derive(Clone, Copy)]
pub struct SystemDisk<'a, R: Files>(pub &'a R);

// Whether a file was not opened because there is none of its name.
fn is_missing(error: &io::Error) -> bool
    ensures { IsTrue result ↔ (error_kind error.now ≡ ErrorKind.NotFound) }
{
    error.kind() == ErrorKind::NotFound
}

// Returns the opened file, or `None` if there is no file of the name. Other errors stay errors.
fn found<T: Drop>(opened: io::Result<T>) -> io::Result<Option<T>>
    ensures opened { IfOk opened (λ file. result ≡ Ok (Some file)) }
    ensures missing { IfErr opened (λ error. error_kind error ≡ ErrorKind.NotFound → result ≡ Ok None) }
    ensures failed { IfErr opened (λ error. error_kind error ≢ ErrorKind.NotFound → result ≡ Err error) }
{
    match opened {
        Ok(file) => Ok(Some(file)),
        Err(error) if is_missing(&error) => Ok(None),
        Err(error) => Err(error),
    }
}

// The permissions of a file, or those of a new one.
fn mode_like<R: Files>(files: &R, name: &str) -> io::Result<u32> {
    match found(fs::metadata(files, name))? {
        Some(like) => Ok(like.permissions().mode() & PERMISSIONS),
        None => Ok(OWNER_ONLY),
    }
}

impl<R: Files> Disk for SystemDisk<'_, R> {
    fn read(&self, alloc: Global, name: &str) -> io::Result<Option<Vec<u8>>> {
        let Some(mut file) = found(File::open(self.0, name))? else {
            return Ok(None);
        };
        let mut bytes = Vec::new(alloc);
        file.read_to_end(&mut bytes)?;
        Ok(Some(bytes))
    }

    fn write(&mut self, name: &str, like: &str, bytes: &[u8]) -> io::Result<()> {
        let mode = mode_like(self.0, like)?;
        let mut file = OpenOptions::new()
            .write(true)
            .create(true)
            .truncate(true)
            .mode(mode)
            .open(self.0, name)?;
        // The file may have existed, and the mask of the process may be narrower.
        file.set_permissions(Permissions::from_mode(mode))?;
        file.write_all(bytes)?;
        file.flush()
    }

    fn sync(&mut self, name: &str) -> io::Result<()> {
        let file = File::open(self.0, name)?;
        file.sync_all()
    }

    fn rename(&mut self, from: &str, to: &str) -> io::Result<()> {
        fs::rename(self.0, from, to)
    }

    fn remove(&mut self, name: &str) -> io::Result<()> {
        fs::remove_file(self.0, name)
    }
}
