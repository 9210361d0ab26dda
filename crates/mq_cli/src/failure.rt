//! Why the program ends without a result.

ghost use Rattle.std.specs.Prelude.{◌≡◌, ◌≢◌, IfErr, IfOk};
ghost use Rattle.mq_cli.specs.Prelude.{error_kind, failure_status};

use std::alloc::AllocError;
use std::io;
use std::io::ErrorKind;
use thiserror::Error;

/// Why the program ends without a result.
#[derive(Clone, Copy, Debug, PartialEq, Eq, Error)]
pub enum Failure {
    /// An argument is not UTF-8.
    #[error("words not read: one is not UTF-8")]
    Words,
    /// Memory ran out.
    #[error("out of memory")]
    Memory,
    /// A write of the output failed.
    #[error("output failed")]
    Output,
    /// The reader of the output closed it.
    #[error("output closed")]
    Closed,
}

impl Failure {
    /// The exit status of the program: 2 for arguments, 3 for memory, 4 for the output.
    pub fn status(self) -> u8
        ensures { result ≡ failure_status self }
    {
        match self {
            Failure::Words => 2,
            Failure::Memory => 3,
            Failure::Output | Failure::Closed => 4,
        }
    }

    /// Why the arguments could not be read: out of memory, or one is not UTF-8.
    pub fn of_words(error: io::Error) -> Failure
        ensures memory { error_kind error ≡ ErrorKind.OutOfMemory → result ≡ Failure.Memory }
        ensures words { error_kind error ≢ ErrorKind.OutOfMemory → result ≡ Failure.Words }
    {
        match error.kind() {
            ErrorKind::OutOfMemory => Failure::Memory,
            _ => Failure::Words,
        }
    }
}

/// The exit status of the program: that of its result, or of its failure.
pub fn exit_status(done: &Result<u8, Failure>) -> u8
    ensures done { IfOk done.now (λ status. result ≡ status) }
    ensures failed { IfErr done.now (λ failure. result ≡ failure_status failure) }
{
    match done {
        Ok(status) => *status,
        Err(failure) => failure.status(),
    }
}

impl From<io::Error> for Failure {
    ghost use Rattle.mq_cli.specs.Prelude.{error_kind, IsOutputFailure};

    ghost from_gives = { λ error failure. IsOutputFailure (error_kind error) failure };

    fn from(error: io::Error) -> Failure {
        match error.kind() {
            ErrorKind::OutOfMemory => Failure::Memory,
            ErrorKind::BrokenPipe => Failure::Closed,
            _ => Failure::Output,
        }
    }
}

impl From<AllocError> for Failure {
    ghost use Rattle.std.specs.Prelude.{◌≡◌};
    ghost use Rattle.mq_cli.specs.declared.failure.Failure.TheVariants.{Memory};

    ghost from_gives = { λ _ failure. failure ≡ Memory };

    fn from(_e: AllocError) -> Failure {
        Failure::Memory
    }
}
