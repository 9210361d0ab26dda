//! Messages whose encoding is shared.

ghost use Rattle.std.specs.Prelude.{◌≡◌, true, IfSome};
ghost use Rattle.mq_end.specs.Prelude.{fits_delivery, Encodes};
ghost use Rattle.mq_packet.specs.declared.packet.Packet.TheVariants as packets;

use crate::block::Block;
use bytes::Bytes;
use mq_packet::{Delivery, Message, encode_publish_into};
use std::alloc::{AllocError, Global};
use std::marker::Model;

/// A message to publish, and the encoding of its PUBLISH if [`encode`](PreparedMessage::encode)
/// made one. Clones share topic, payload and encoding, so a message for many clients is encoded
/// once. Contracts see the message.
#[derive(Debug, Drop)]
pub struct PreparedMessage {
    message: Message,
    // In a box, since most messages have none.
    encoded: Option<Box<EncodedPublish>>,
}

/// The encoding of a PUBLISH with this delivery.
#[derive(Debug, Drop)]
struct EncodedPublish {
    delivery: Option<Delivery>,
    block: Block,
}

impl Model for PreparedMessage {
    ghost use Rattle.std.specs.Prelude.{IfSome};
    ghost use Rattle.mq_packet.specs.declared.message.Message.{Message};
    ghost use Rattle.mq_packet.specs.declared.packet.Packet.TheVariants as packets;
    ghost use Rattle.mq_packet.specs.Encoding.{Encodes};

    ghost Value = { Message };

    ghost view = { λ p. p.message };

    ghost invariant = { λ p. IfSome p.encoded
        (λ e. Encodes (packets.Publish (record { message = p.message; delivery = e.value.delivery })) e.value.block) };
}

// Returns the encoding of a PUBLISH (3.3). `None` if it is too large or an allocation fails.
fn encode_publish(alloc: Global, message: &Message, delivery: Option<Delivery>) -> Option<Vec<u8>>
    requires { fits_delivery message.now.qos delivery ≡ true }
    ensures { IfSome result
        (λ b. Encodes (packets.Publish (record { message = message.now; delivery = delivery })) b.items) }
{
    let mut buffer = Vec::new(alloc);
    match encode_publish_into(message, delivery, &mut buffer) {
        Ok(()) => Some(buffer),
        Err(_) => None,
    }
}

// Moves the encoding of a PUBLISH into a block.
fn in_block(
    alloc: Global,
    bytes: Vec<u8>,
    delivery: Option<Delivery>,
) -> Option<Box<EncodedPublish>>
    ensures { IfSome result (λ e. (e.value.delivery ≡ delivery) × (e.value.block ≡ bytes.items)) }
{
    let Ok(bytes) = Bytes::from_vec(bytes) else {
        return None;
    };
    let Ok(block) = Block::new(alloc, bytes) else {
        return None;
    };
    match Box::new(alloc, EncodedPublish { delivery, block }) {
        Ok(encoded) => Some(encoded),
        Err(_) => None,
    }
}

impl PreparedMessage {
    /// A message without an encoding.
    pub fn new(message: Message) -> PreparedMessage
        ensures { result ≡ message }
    {
        PreparedMessage {
            message,
            encoded: None,
        }
    }

    /// The message.
    pub fn message(&self) -> &Message
        ensures { result.now ≡ self.now }
    {
        &self.message
    }

    /// Consumes the value and returns the message.
    pub fn into_message(self) -> Message
        ensures { result ≡ self }
    {
        let PreparedMessage { message, .. } = self;
        message
    }

    /// Encodes the PUBLISH of the message (3.3), for this value and its later clones. It is used if
    /// a session publishes the message with this delivery, which must be given exactly for QoS 1
    /// and 2. If an allocation fails, there is no encoding.
    pub fn encode(&mut self, alloc: Global, delivery: Option<Delivery>)
        requires { fits_delivery self.old.qos delivery ≡ true }
        ensures { self.new ≡ self.old }
    {
        let sent = delivery;
        self.encoded = match encode_publish(alloc, &self.message, delivery) {
            Some(bytes) => in_block(alloc, bytes, sent),
            None => None,
        };
    }

    /// Returns the message, and its encoding if it was made for this delivery.
    pub(crate) fn into_parts(self, delivery: Option<Delivery>) -> (Message, Option<Block>)
        ensures message { result.0 ≡ self }
        ensures encoded { IfSome result.1
            (λ b. Encodes (packets.Publish (record { message = self; delivery = delivery })) b) }
    {
        let PreparedMessage { message, encoded } = self;
        let Some(encoded) = encoded else {
            return (message, None);
        };
        let encoded = Box::into_inner(encoded);
        if encoded.delivery != delivery {
            return (message, None);
        }
        let EncodedPublish { block, .. } = encoded;
        (message, Some(block))
    }
}

impl Clone for EncodedPublish {
    ghost is_clone = { λ encoded copy. copy ≡ encoded };

    fn clone(&self) -> Result<EncodedPublish, AllocError> {
        Ok(EncodedPublish {
            delivery: self.delivery,
            block: self.block.clone()?,
        })
    }
}

impl Clone for PreparedMessage {
    ghost is_clone = { λ prepared copy. copy ≡ prepared };

    /// Returns another owner of the same bytes.
    fn clone(&self) -> Result<PreparedMessage, AllocError> {
        Ok(PreparedMessage {
            message: self.message.clone()?,
            encoded: self.encoded.clone()?,
        })
    }
}
