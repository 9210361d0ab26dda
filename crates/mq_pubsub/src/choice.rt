//! The messages that a subscriber prints.

ghost use Rattle.std.specs.Prelude.{◌≡◌};

use mq_packet::Message;
use mq_topic::{TopicFilter, matches};

/// The treatment of a delivered message.
#[derive(Clone, Copy, Debug, PartialEq, Eq)]
pub enum Verdict {
    /// It is printed.
    Print,
    /// It is not printed.
    Skip,
    /// It is not printed, and the run ends.
    End,
}

/// The messages that a subscriber prints.
#[derive(Clone, Copy, Debug)]
pub struct Choice<'a> {
    /// Retained messages are not printed.
    pub skips_retained: bool,
    /// The first message that is not retained ends the run.
    pub only_retained: bool,
    /// Messages whose topic matches one of these filters are not printed.
    pub excluded: &'a [TopicFilter],
}

impl Choice<'_> {
    ghost use Rattle.mq_pubsub.specs.Prelude.{excludes, verdict_of};

    // Whether a filter excludes a message.
    fn excludes(&self, message: &Message) -> bool
        ensures { result ≡ excludes self.now message.now }
    {
        self.excluded
            .iter()
            .any(|filter| matches(filter, &message.topic))
    }

    /// The treatment of a delivered message.
    pub fn verdict(&self, message: &Message) -> Verdict
        ensures { result ≡ verdict_of self.now message.now }
    {
        if self.only_retained && !message.retain {
            return Verdict::End;
        }
        if self.skips_retained && message.retain || self.excludes(message) {
            return Verdict::Skip;
        }
        Verdict::Print
    }
}
