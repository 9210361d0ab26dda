//! Sources of messages to publish.

ghost use Rattle.std.specs.Prelude.{◌≡◌, List, None, Option, true, IfOk};
ghost use Rattle.mq_pubsub.specs.Prelude.{Gives, is_end, messages_of};
ghost use Rattle.mq_packet.specs.declared.message.Message.{Message as Published};

use crate::error::RunError;
use mq_packet::Message;

/// An answer of a source.
#[derive(Debug, Drop)]
pub enum Next {
    /// The next message.
    Message(Message),
    /// No message now, maybe one later.
    Later,
    /// No message any more.
    End,
}

/// A source of messages to publish. It does not wait. A run calls `next` until it returns `End`,
/// and `report` in between.
pub trait Source {
    /// The messages that are to come, in order, if they are known.
    ghost coming: { Self → Option (List Published) } = { λ _. None };

    /// It has no message any more.
    ghost ended: { Self → Type 0 };

    /// The next message, if there is one now.
    fn next(&mut self) -> Result<Next, RunError>
        ensures gives { IfOk result
            (λ next. Gives (coming self.old) (coming self.new) (messages_of next)) }
        ensures ends { IfOk result (λ next. is_end next ≡ true → ended self.new) };

    /// Reports how many messages are acknowledged or written, of how many that were taken.
    fn report(&mut self, done: u64, taken: u64)
        ensures gives { coming self.new ≡ coming self.old }
        ensures ends { ended self.old → ended self.new };
}
