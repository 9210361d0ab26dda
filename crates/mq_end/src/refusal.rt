//! Why a call of an end's user is refused.

ghost use Rattle.std.specs.Prelude.{◌≡◌};
ghost use Rattle.mq_end.specs.Prelude.{refusal_code};

use thiserror::Error;

/// Why a call of an end's user is refused.
#[derive(Clone, Copy, Debug, PartialEq, Eq, Error)]
pub enum PublishRefusal {
    /// There is no established connection.
    #[error("not connected")]
    NotConnected,
    /// The server has no session for the client.
    #[error("the server has no session for the client")]
    NoSession,
    /// The packet's remaining length is over the end's own limit.
    #[error("the packet is over the limit")]
    TooLarge,
    /// The maximum number of identifiers is in use.
    #[error("no packet identifier is free")]
    Full,
    /// Memory ran out.
    #[error("out of memory")]
    Memory,
}

impl PublishRefusal {
    /// Its code, `P1` to `P5`.
    pub fn code(self) -> &'static str
        ensures { result.now ≡ refusal_code self }
    {
        match self {
            PublishRefusal::NotConnected => "P1",
            PublishRefusal::NoSession => "P2",
            PublishRefusal::TooLarge => "P3",
            PublishRefusal::Full => "P4",
            PublishRefusal::Memory => "P5",
        }
    }
}
