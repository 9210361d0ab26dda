//! The lock of a session in a file.

ghost use Rattle.std.specs.Prelude.{◌≡◌, ◌≤◌, ◌++◌, ℕ, codes, string_bytes, IfOk, IfSome};
ghost use Rattle.mq_client.specs.Prelude.{IsNamedBy, Reaches, is_absolute};

use crate::disk::OWNER_ONLY;
use std::alloc::{AllocError, Global};
use std::fs::{File, OpenOptions, TryLockError};
use std::io::ErrorKind;
use std::marker::Model;
use std::os::unix::fs::{MetadataExt, OpenOptionsExt};
use std::rt::Files;
use std::{fs, io};

/// The maximum number of symbolic links that are followed.
const MOST_LINKS: u32 = 40;

/// The maximum number of lock files that other runs may remove while the lock is taken.
const MOST_TRIES: u32 = 1_000;

// Whether a name begins at the root.
fn is_absolute(name: &str) -> bool
    ensures { result ≡ is_absolute name.now }
{
    match name.as_bytes() {
        [first, ..] => *first == b'/',
        [] => false,
    }
}

// The name that a symbolic link gives: relative to the folder of the link, unless it is absolute.
fn beside(alloc: Global, link: &str, target: &str) -> Result<String, AllocError>
    ensures { IfOk result (λ name. IsNamedBy link.now target.now (string_bytes name)) }
{
    if is_absolute(target) {
        return String::from_str(alloc, target);
    }
    match link.rfind('/') {
        Some(at) => {
            let folder = &link[..at];
            format!(in alloc; "{folder}/{target}")
        }
        None => String::from_str(alloc, target),
    }
}

/// The name of the file that a name leads to through symbolic links. The file may be missing.
pub fn linked_name<R: Files>(rt: &R, alloc: Global, name: &str) -> io::Result<String>
    ensures { IfOk result (λ found. (links : ℕ)
        × (links ≤ 40) × Reaches links name.now (string_bytes found)) }
{
    let mut name = String::from_str(alloc, name)?;
    for nth in 0..MOST_LINKS {
        match rt.read_link(alloc, name.as_str()) {
            Ok(target) => name = beside(alloc, name.as_str(), target.as_str())?,
            Err(_) => return Ok(name),
        }
    }
    Err(io::Error::from(ErrorKind::FilesystemLoop))
}

/// The lock that a run holds on the session in a file.
///
/// The file itself is replaced at each save. So the lock is an advisory lock on a file of the same
/// name with `.lock` behind it, which exists only while a run holds it or after the run was killed.
#[derive(Drop)]
pub struct SessionLock<'a, R: Files<File = File>> {
    rt: &'a R,
    name: String,
    // No file if its folder is missing: nothing can be saved then.
    file: Option<File>,
}

impl<'a, R: Files<File = File>> Model for SessionLock<'a, R> {
    ghost use Rattle.std.specs.Prelude.{ℕ, List, string_bytes};

    // the name of the lock file
    ghost Value = { List ℕ };

    ghost view = { λ l. string_bytes l.name };
}

// Opens a lock file. Returns `None` if its folder is missing.
fn open<R: Files<File = File>>(rt: &R, name: &str) -> io::Result<Option<File>> {
    let opened = OpenOptions::new()
        .write(true)
        .create(true)
        .mode(OWNER_ONLY)
        .open(rt, name);
    match opened {
        Ok(file) => Ok(Some(file)),
        Err(error) if error.kind() == ErrorKind::NotFound => Ok(None),
        Err(error) => Err(error),
    }
}

// Whether the open file is still the one of this name.
fn is_named<R: Files>(rt: &R, file: &File, name: &str) -> io::Result<bool> {
    let held = file.metadata()?;
    match fs::metadata(rt, name) {
        Ok(found) => Ok(found.ino() == held.ino() && found.dev() == held.dev()),
        Err(error) => match error.kind() {
            ErrorKind::NotFound => Ok(false),
            _ => Err(error),
        },
    }
}

impl<'a, R: Files<File = File>> SessionLock<'a, R> {
    /// Takes the lock of the session in the file of this name. Returns `None` if another run holds
    /// it, and then changes nothing.
    pub fn take(rt: &'a R, alloc: Global, name: &str) -> io::Result<Option<SessionLock<'a, R>>>
        ensures { IfOk result (λ taken. IfSome taken (λ lock. lock ≡ name.now ++ codes ".lock")) }
    {
        let name = format!(in alloc; "{name}.lock")?;
        for _ in 0..MOST_TRIES {
            let Some(file) = open(rt, name.as_str())? else {
                return Ok(Some(SessionLock {
                    rt,
                    name,
                    file: None,
                }));
            };
            match file.try_lock() {
                Ok(()) => {}
                Err(TryLockError::WouldBlock) => return Ok(None),
                Err(TryLockError::Error(error)) => return Err(error),
            }
            if is_named(rt, &file, name.as_str())? {
                return Ok(Some(SessionLock {
                    rt,
                    name,
                    file: Some(file),
                }));
            }
        }
        Ok(None)
    }

    /// Removes the lock file, and releases the lock.
    pub fn release(self) {
        // A lock file that can't be removed is taken by the next run.
        let _ = fs::remove_file(self.rt, self.name.as_str());
        drop(self.file);
    }
}
