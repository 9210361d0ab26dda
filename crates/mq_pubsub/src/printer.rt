//! Printers of messages.

ghost use Rattle.std.specs.Prelude.{◌≡◌, ◌∷◌, [], ℕ, List, None, Option, OnOk};
ghost use Rattle.mq_pubsub.specs.Prelude.{Shows};
ghost use Rattle.mq_packet.specs.declared.message.Message.{Message as Delivered};

use crate::error::RunError;
use mq_packet::{Message, PacketId};

/// An event of a run for its user.
#[derive(Clone, Copy, Debug, PartialEq, Eq)]
pub enum Notice {
    /// The server refused this subscription, counted from 0 (3.9.3).
    Refused(usize),
    /// The server lost the session, so the subscription is requested anew.
    SessionLost,
}

/// Prints messages. Calls may come in any order.
pub trait Printer {
    /// The messages that were printed and flushed, in order, if they are known.
    ghost shown: { Self → Option (List Delivered) } = { λ _. None };

    /// The packet identifiers that were printed with them, if they are known.
    ghost identifiers: { Self → Option (List (Option ℕ)) } = { λ _. None };

    /// Writes the line of a message, and flushes. `id` is the packet identifier that it came with,
    /// if any.
    fn print(&mut self, message: &Message, id: Option<PacketId>) -> Result<(), RunError>
        ensures shown { OnOk result (Shows (shown self.old) (shown self.new) (message.now ∷ [])) }
        ensures identifiers { OnOk result
            (Shows (identifiers self.old) (identifiers self.new) (id ∷ [])) };

    /// Reports an event.
    fn notice(&mut self, notice: Notice)
        ensures shown { shown self.new ≡ shown self.old }
        ensures identifiers { identifiers self.new ≡ identifiers self.old };
}
