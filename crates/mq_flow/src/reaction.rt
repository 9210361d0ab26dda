//! The effect of an acknowledgement on the sender, and why a message is refused.

ghost use Rattle.std.specs.Prelude.{◌≡◌};
ghost use Rattle.mq_flow.specs.Prelude.{sender_code};

use mq_packet::PacketId;
use thiserror::Error;

/// The effect of an acknowledgement on the sender (4.3.2, 4.3.3).
#[derive(Clone, Copy, Debug, PartialEq, Eq)]
pub enum Reaction {
    /// The identifier is free.
    Freed,
    /// The message is acknowledged. A PUBREL with this identifier must be sent.
    Release(PacketId),
    /// Stray: it acknowledges nothing, and nothing changes.
    Stray,
}

/// Why a sender refuses a message, or gives no identifier.
#[derive(Clone, Copy, Debug, PartialEq, Eq, Error)]
pub enum Refusal {
    /// The maximum number of identifiers is in use.
    #[error("no packet identifier is free")]
    Full,
    /// Memory ran out.
    #[error("out of memory")]
    Memory,
}

impl Refusal {
    /// Its code, `S1` or `S2`.
    pub fn code(self) -> &'static str
        ensures { result.now ≡ sender_code self }
    {
        match self {
            Refusal::Full => "S1",
            Refusal::Memory => "S2",
        }
    }
}

/// Why a receiver refuses a message.
#[derive(Clone, Copy, Debug, PartialEq, Eq, Error)]
pub enum ReceiveRefusal {
    /// Memory ran out.
    #[error("out of memory")]
    Memory,
    /// As many identifiers are stored as the window has, and this one is not among them.
    #[error("the receiving window is full")]
    Window,
}
