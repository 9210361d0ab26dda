//! Words of lines.

ghost use Rattle.std.specs.Prelude.{Some};
ghost use Rattle.mq_replay.specs.Prelude.{handed_text, id_word};

use mq_packet::{Escaped, Message, PacketId};
use mq_schedule::BytesWord;
use std::fmt;

/// A packet identifier, or `-` for a message without one (2.3.1).
#[derive(Clone, Copy)]
pub(crate) struct IdWord(pub(crate) Option<PacketId>);

impl fmt::Display for IdWord {
    ghost output = { λ word. Some (id_word word.0) };

    fn fmt<W: fmt::Write>(&self, f: &mut fmt::Formatter<W>) -> fmt::Result {
        match self.0 {
            Some(id) => write!(f, "{}", id.get()),
            None => f.write_str("-"),
        }
    }
}

/// A delivered message (4.3): its QoS, topic and payload.
#[derive(Clone, Copy)]
pub(crate) struct HandedText<'a>(pub(crate) &'a Message);

impl fmt::Display for HandedText<'_> {
    ghost output = { λ text. Some (handed_text text.0.now) };

    fn fmt<W: fmt::Write>(&self, f: &mut fmt::Formatter<W>) -> fmt::Result {
        let qos = self.0.qos.number();
        let topic = Escaped(self.0.topic.as_str());
        let payload = BytesWord(self.0.payload.as_slice());
        write!(f, "got {qos} {topic} {payload}")
    }
}
