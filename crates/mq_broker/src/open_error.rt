//! Reasons why a broker can't be recovered.

ghost use Rattle.std.specs.Prelude.{◌≡◌};
ghost use Rattle.mq_broker.specs.Prelude.{open_status};

use mq_store::StoreError;
use thiserror::Error;

/// Why a broker was not recovered from its folder.
#[derive(Clone, Copy, Debug, PartialEq, Eq, Error)]
pub enum OpenError {
    /// The maximum remaining length is below 64, or above that of the standard (2.2.3).
    #[error("the maximum length of a packet must be 64 to 268435455 bytes")]
    PacketLimit,
    /// The folder of the journal can't be used.
    #[error("{0}")]
    Store(StoreError),
}

impl OpenError {
    /// The exit status of the program: 2 for an invalid option, 3 if an allocation failed,
    /// otherwise 1.
    pub fn status(self) -> u8
        ensures { result ≡ open_status self }
    {
        match self {
            OpenError::PacketLimit => 2,
            OpenError::Store(StoreError::Memory) => 3,
            OpenError::Store(_) => 1,
        }
    }
}
