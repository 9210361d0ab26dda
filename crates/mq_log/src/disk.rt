//! A file as the journal uses it, and the contents that a crash may leave.

ghost use Rattle.std.specs.Prelude.{◌≡◌, ◌≤◌, List, ℕ, length, IfOk, OnOk};
ghost use Rattle.mq_log.specs.Disk.{Only, Follows, Torn, Holds, Elapses, HasCause};

use std::alloc::{AllocError, AllocFailed, Global};
use thiserror::Error;

/// Why a call of a disk or a journal failed.
#[derive(Clone, Copy, Debug, PartialEq, Eq, Error)]
pub enum DiskError {
    /// An allocation failed.
    #[error("out of memory")]
    Memory,
    /// The disk failed.
    #[error("the disk failed")]
    Failed,
    /// The journal has reached its maximum length.
    #[error("the journal is full")]
    Full,
}

impl From<AllocError> for DiskError {
    ghost use Rattle.mq_log.specs.Prelude.{Memory};

    ghost from_gives = { λ _ e. e ≡ Memory };

    fn from(_: AllocError) -> Self {
        DiskError::Memory
    }
}

impl<T: Drop> From<AllocFailed<T>> for DiskError {
    ghost use Rattle.mq_log.specs.Prelude.{Memory};

    ghost from_gives = { λ _ e. e ≡ Memory };

    fn from(_: AllocFailed<T>) -> Self {
        DiskError::Memory
    }
}

/// One file on a device that can crash. The clauses are the model of a crash.
///
/// Synced bytes survive. Until the next sync, the range of a write may hold any bytes, and bytes
/// outside of it are unchanged. After an `Err`, only `may_leave` describes the file.
pub trait Disk {
    /// The bytes that a read returns.
    ghost seen: { Self → List ℕ };

    /// The contents that a crash at this time may leave.
    ghost may_leave: { Self → List ℕ → Type 0 };

    /// The present time, as a number that never decreases.
    ghost clock: { Self → ℕ };

    /// The contents that a crash at some time from the given one on could have left.
    ghost left_since: { Self → ℕ → List ℕ → Type 0 };

    /// The number of failures of the device up to now.
    ghost faults: { Self → ℕ };

    /// Reads the whole file.
    fn read(&mut self, alloc: Global) -> Result<Vec<u8>, DiskError>
        ensures bytes { IfOk result (λ bytes. bytes.items ≡ seen self.old) }
        ensures seen { seen self.new ≡ seen self.old }
        ensures crash { (content : List ℕ)
            → may_leave self.new content → may_leave self.old content }
        ensures time { Elapses (clock self.old) (clock self.new)
            (left_since self.old) (left_since self.new) (may_leave self.new) }
        ensures cause { HasCause (faults self.old) (faults self.new) result };

    /// Writes over the bytes from `at` on, and past the end of the file.
    fn write_at(&mut self, at: usize, bytes: &[u8]) -> Result<(), DiskError>
        requires { at ≤ length (seen self.old) }
        ensures written { OnOk result (Holds (seen self.old) at bytes.now (seen self.new)) }
        ensures crash { Follows (Torn at (length bytes.now))
            (may_leave self.old) (may_leave self.new) }
        ensures time { Elapses (clock self.old) (clock self.new)
            (left_since self.old) (left_since self.new) (may_leave self.new) }
        ensures cause { HasCause (faults self.old) (faults self.new) result };

    /// Makes all earlier writes durable.
    fn sync(&mut self) -> Result<(), DiskError>
        ensures durable { OnOk result (Only (seen self.old) (may_leave self.new)) }
        ensures seen { seen self.new ≡ seen self.old }
        ensures crash { (content : List ℕ)
            → may_leave self.new content → may_leave self.old content }
        ensures time { Elapses (clock self.old) (clock self.new)
            (left_since self.old) (left_since self.new) (may_leave self.new) }
        ensures cause { HasCause (faults self.old) (faults self.new) result };

    /// A crash now is a crash since any earlier time.
    ghost counts_now: { (file : Self) (time : ℕ) (content : List ℕ)
        → time ≤ clock file → may_leave file content → left_since file time content };

    /// A crash since the present time is a crash now.
    ghost only_now: { (file : Self) (content : List ℕ)
        → left_since file (clock file) content → may_leave file content };
}
