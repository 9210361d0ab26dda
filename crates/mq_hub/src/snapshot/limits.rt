//! Size limits of messages in a snapshot (2.2.3).

ghost use Rattle.std.specs.Prelude.{◌+◌, ◌≤◌, length, IsTrue};
ghost use Rattle.mq_hub.specs.Prelude.{identifier_size, IsWillWithin, IsWithin};

use mq_decode::Limits;
use mq_packet::{Message, Will};
use mq_topic::{Qos, TopicName};

// Whether the PUBLISH of a message with these parts is within the limit.
fn fits(limits: Limits, topic: &TopicName, payload: &[u8], qos: Qos) -> bool
    ensures { IsTrue result → (2 + length topic.now) + (identifier_size qos + length payload.now) ≤ limits.most }
{
    let identifier = if qos == Qos::Q0 { 0 } else { 2 };
    let size = (2 + topic.as_str().len()) + (identifier + payload.len());
    size <= limits.max_packet() as usize
}

/// Whether a message is within the limit, as a PUBLISH.
pub(crate) fn is_within(limits: Limits, message: &Message) -> bool
    ensures { IsTrue result → IsWithin limits.most message.now }
{
    fits(
        limits,
        &message.topic,
        message.payload.as_slice(),
        message.qos,
    )
}

/// Whether the message of a will is within the limit, as a PUBLISH.
pub(crate) fn is_will_within(limits: Limits, will: &Option<Will>) -> bool
    ensures { IsTrue result → IsWillWithin limits.most will.now }
{
    match will {
        Some(will) => fits(limits, &will.topic, will.message.as_slice(), will.qos),
        None => true,
    }
}
