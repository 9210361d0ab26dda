//! Why a call is refused.

ghost use Rattle.std.specs.Prelude.{◌≡◌};
ghost use Rattle.mq_embedded.specs.Prelude.{publish_fault};

use mq_end::PublishRefusal;
use thiserror::Error;

/// Why a call is refused.
#[derive(Clone, Copy, Debug, Error)]
pub enum CallFault {
    /// An allocation failed.
    #[error("out of memory")]
    Memory,
    /// An argument is not valid: a text (1.5.3), a topic name or filter (4.7) or a number.
    #[error("an argument is not valid")]
    Argument,
    /// The caller's buffer is too small.
    #[error("the buffer is too small")]
    Room,
    /// The packet's remaining length is over the limit.
    #[error("the packet is over the limit")]
    TooLarge,
    /// There is no established connection.
    #[error("not connected")]
    NotConnected,
    /// No packet identifier is free.
    #[error("no packet identifier is free")]
    Full,
    /// Events wait to be taken.
    #[error("events are pending")]
    Events,
    /// The bytes are not a saved session.
    #[error("the bytes are not a saved session")]
    Session,
    /// The saved session belongs to another client.
    #[error("the session belongs to another client")]
    AnotherClient,
}

/// The fault of a refused publication or request.
pub(crate) fn publish_fault(refusal: PublishRefusal) -> CallFault
    ensures { result ≡ publish_fault refusal }
{
    match refusal {
        PublishRefusal::NotConnected | PublishRefusal::NoSession => CallFault::NotConnected,
        PublishRefusal::TooLarge => CallFault::TooLarge,
        PublishRefusal::Full => CallFault::Full,
        PublishRefusal::Memory => CallFault::Memory,
    }
}
