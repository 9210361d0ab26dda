//! Errors of a folder.

ghost use Rattle.std.specs.Prelude.{◌≡◌, ◌≢◌, true, false, Ok, Err, Some, None, IfErr, IfOk, IsOk, OnOk};
ghost use Rattle.mq_file.specs.Prelude.{error_kind, IsNotWritten, lock_error};

use std::fs::TryLockError;
use std::io;
use std::io::ErrorKind;
use thiserror::Error;

/// Why a call on a folder or its files failed.
#[derive(Clone, Copy, Debug, PartialEq, Eq, Error)]
pub enum FolderError {
    /// Another process has the folder.
    #[error("in use")]
    InUse,
    /// The folder can't be created or opened.
    #[error("the folder cannot be opened")]
    Folder,
    /// A file can't be read.
    #[error("a file of the journal cannot be read")]
    Unreadable,
    /// A file can't be written.
    #[error("a file of the journal cannot be written")]
    Unwritten,
    /// A file can't be written, because the disk is full.
    #[error("a file of the journal cannot be written: the disk is full")]
    Full,
    /// An allocation failed.
    #[error("out of memory")]
    Memory,
}

// Whether a folder was created. It was not if its name exists.
pub(crate) fn is_new(created: io::Result<()>) -> Result<bool, FolderError>
    ensures new { OnOk created (result ≡ Ok true) }
    ensures old { IfErr created (λ error. error_kind error ≡ ErrorKind.AlreadyExists → result ≡ Ok false) }
    ensures err { IfErr created (λ error. error_kind error ≢ ErrorKind.AlreadyExists → result ≡ Err FolderError.Folder) }
{
    match created {
        Ok(()) => Ok(true),
        Err(error) if error.kind() == ErrorKind::AlreadyExists => Ok(false),
        Err(_) => Err(FolderError::Folder),
    }
}

// Whether a lock was taken.
pub(crate) fn check_lock(taken: Result<(), TryLockError>) -> Result<(), FolderError>
    ensures ok { OnOk taken (IsOk result) }
    ensures err { IfErr taken (λ error. result ≡ Err (lock_error error)) }
    ensures why { IfErr result (λ why. why ≢ FolderError.Unreadable) }
{
    match taken {
        Ok(()) => Ok(()),
        Err(TryLockError::WouldBlock) => Err(FolderError::InUse),
        Err(TryLockError::Error(_)) => Err(FolderError::Folder),
    }
}

// A file that was opened. `None` if it does not exist: another failure does not mean so.
pub(crate) fn opened<F>(opened: io::Result<F>) -> Result<Option<F>, FolderError>
    ensures ok { IfOk opened (λ file. result ≡ Ok (Some file)) }
    ensures none { IfErr opened (λ error. error_kind error ≡ ErrorKind.NotFound → result ≡ Ok None) }
    ensures err { IfErr opened (λ error. error_kind error ≢ ErrorKind.NotFound → result ≡ Err FolderError.Unreadable) }
{
    match opened {
        Ok(file) => Ok(Some(file)),
        Err(error) if error.kind() == ErrorKind::NotFound => Ok(None),
        Err(_) => Err(FolderError::Unreadable),
    }
}

// The bytes that were read.
pub(crate) fn read(read: io::Result<Vec<u8>>) -> Result<Vec<u8>, FolderError>
    ensures ok { IfOk read (λ bytes. result ≡ Ok bytes) }
    ensures memory { IfErr read (λ error. error_kind error ≡ ErrorKind.OutOfMemory → result ≡ Err FolderError.Memory) }
    ensures err { IfErr read (λ error. error_kind error ≢ ErrorKind.OutOfMemory → result ≡ Err FolderError.Unreadable) }
{
    match read {
        Ok(bytes) => Ok(bytes),
        Err(error) if error.kind() == ErrorKind::OutOfMemory => Err(FolderError::Memory),
        Err(_) => Err(FolderError::Unreadable),
    }
}

// A call that writes.
pub(crate) fn written<T>(written: io::Result<T>) -> Result<T, FolderError>
    ensures ok { IfOk written (λ value. result ≡ Ok value) }
    ensures full { IfErr written (λ error. error_kind error ≡ ErrorKind.StorageFull → result ≡ Err FolderError.Full) }
    ensures err { IfErr written (λ error. error_kind error ≢ ErrorKind.StorageFull → result ≡ Err FolderError.Unwritten) }
    ensures why { IfErr result IsNotWritten }
{
    match written {
        Ok(value) => Ok(value),
        Err(error) if error.kind() == ErrorKind::StorageFull => Err(FolderError::Full),
        Err(_) => Err(FolderError::Unwritten),
    }
}
