//! Application messages.

ghost use Rattle.std.specs.Prelude.{◌≡◌};

use crate::binary::Payload;
use crate::publish::MessageRef;
use mq_topic::{Qos, TopicName};
use std::alloc::AllocError;

/// An application message to publish (3.3). Clones share its bytes.
#[derive(Debug, Drop)]
pub struct Message {
    /// The topic to publish it to.
    pub topic: TopicName,
    /// The payload.
    pub payload: Payload,
    /// The quality of service to deliver it with.
    pub qos: Qos,
    /// RETAIN: the server stores it for future subscribers.
    pub retain: bool,
}

impl Message {
    /// Borrows the parts.
    pub fn as_parts(&self) -> MessageRef<'_>
        ensures topic { result.topic.now ≡ self.now.topic }
        ensures payload { result.payload.now ≡ self.now.payload }
        ensures qos { result.qos ≡ self.now.qos }
        ensures retain { result.retain ≡ self.now.retain }
    {
        MessageRef {
            topic: &self.topic,
            payload: &self.payload,
            qos: self.qos,
            retain: self.retain,
        }
    }
}

impl Clone for Message {
    ghost is_clone = { λ message copy. copy ≡ message };

    /// Returns another owner of the same bytes.
    fn clone(&self) -> Result<Message, AllocError> {
        Ok(Message {
            topic: self.topic.clone()?,
            payload: self.payload.clone()?,
            qos: self.qos,
            retain: self.retain,
        })
    }
}
