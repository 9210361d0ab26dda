//! The number of bytes of a message that a sender stores.

ghost use Rattle.std.specs.Prelude.{◌≡◌, ◌<◌, ◌^◌};
ghost use Rattle.mq_flow.specs.Prelude.{message_bytes};

use mq_packet::Message;

/// Returns the number of topic and payload bytes of a message (3.3.2.1, 3.3.3).
pub fn message_bytes(message: &Message) -> u64
    ensures value { result ≡ message_bytes message.now }
    ensures short { result < 2 ^ 29 }
{
    let topic = message.topic.as_str().len() as u64;
    topic + message.payload.as_slice().len() as u64
}
