//! Reasons of a broker to end.

ghost use Rattle.std.specs.Prelude.{◌≡◌, ◌≢◌};
ghost use Rattle.mq_broker.specs.Prelude.{error_kind, end_status, PacketLimit};

use mq_loop::CommitFailure;
use std::alloc::AllocError;
use std::io;
use std::io::ErrorKind;
use thiserror::Error;

/// Why a broker ended.
#[derive(Clone, Copy, Debug, PartialEq, Eq, Error)]
pub enum BrokerEnd {
    /// The maximum remaining length is below 64, or above that of the standard (2.2.3).
    #[error("the maximum length of a packet must be 64 to 268435455 bytes")]
    PacketLimit,
    /// The address is in use.
    #[error("the address is in use")]
    AddressInUse,
    /// The system does not allow the address.
    #[error("the system does not allow this address")]
    AddressRefused,
    /// The listener, or the wait for connections, failed.
    #[error("the listener failed")]
    Listener,
    /// The standard output failed.
    #[error("output failed")]
    Output,
    /// An allocation failed.
    #[error("out of memory")]
    Memory,
    /// The journal failed. No output of the events that it lacks was sent.
    #[error("the journal failed")]
    Journal,
}

impl BrokerEnd {
    /// The exit status of the program: 2 for an invalid option, 3 if an allocation failed, 4 if the
    /// output failed, otherwise 1.
    pub fn status(self) -> u8
        ensures { result ≡ end_status self }
    {
        match self {
            BrokerEnd::PacketLimit => 2,
            BrokerEnd::Memory => 3,
            BrokerEnd::Output => 4,
            BrokerEnd::AddressInUse
            | BrokerEnd::AddressRefused
            | BrokerEnd::Listener
            | BrokerEnd::Journal => 1,
        }
    }

    /// Why an address can't be listened on.
    pub(crate) fn of_bind(error: &io::Error) -> BrokerEnd
        ensures no_option { result ≢ PacketLimit }
        ensures in_use { error_kind error.now ≡ ErrorKind.AddrInUse → result ≡ BrokerEnd.AddressInUse }
        ensures memory { error_kind error.now ≡ ErrorKind.OutOfMemory → result ≡ BrokerEnd.Memory }
    {
        match error.kind() {
            ErrorKind::AddrInUse => BrokerEnd::AddressInUse,
            ErrorKind::OutOfMemory => BrokerEnd::Memory,
            _ => BrokerEnd::AddressRefused,
        }
    }

    /// Why a wait for connections failed.
    pub(crate) fn of_wait(error: &io::Error) -> BrokerEnd
        ensures no_option { result ≢ PacketLimit }
        ensures memory { error_kind error.now ≡ ErrorKind.OutOfMemory → result ≡ BrokerEnd.Memory }
        ensures listener { error_kind error.now ≢ ErrorKind.OutOfMemory → result ≡ BrokerEnd.Listener }
    {
        match error.kind() {
            ErrorKind::OutOfMemory => BrokerEnd::Memory,
            _ => BrokerEnd::Listener,
        }
    }
}

impl From<AllocError> for BrokerEnd {
    ghost use Rattle.std.specs.Prelude.{◌≡◌};
    ghost use Rattle.mq_broker.specs.Prelude.{Memory};

    ghost from_gives = { λ _ end. end ≡ Memory };

    fn from(_e: AllocError) -> BrokerEnd {
        BrokerEnd::Memory
    }
}

impl From<CommitFailure> for BrokerEnd {
    ghost use Rattle.std.specs.Prelude.{◌≡◌, ◌≢◌};
    ghost use Rattle.mq_broker.specs.Prelude.{end_of_commit, PacketLimit};

    ghost from_gives = { λ why end. (end ≡ end_of_commit why) × (end ≢ PacketLimit) };

    fn from(failure: CommitFailure) -> BrokerEnd {
        match failure {
            CommitFailure::Memory => BrokerEnd::Memory,
            CommitFailure::Storage | CommitFailure::Full => BrokerEnd::Journal,
        }
    }
}
