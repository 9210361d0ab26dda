//! PUBLISH (3.3).

ghost use Rattle.std.specs.Prelude.{◌≡◌, true};
ghost use Rattle.mq_packet.specs.Publication.{fits_delivery};

use crate::binary::Payload;
use crate::id::PacketId;
use crate::message::Message;
use mq_topic::{Qos, TopicName};
use std::alloc::AllocError;
use std::marker::Model;

/// The fields that only a PUBLISH with QoS 1 or 2 has (3.3.1.1, 3.3.2.2).
#[derive(Clone, Copy, Debug, PartialEq, Eq)]
pub struct Delivery {
    /// The packet identifier.
    pub id: PacketId,
    /// DUP: this may be a retransmission.
    pub dup: bool,
}

/// PUBLISH (3.3): a message, and a delivery exactly if its QoS is 1 or 2.
#[derive(Debug, Drop)]
pub struct Publish {
    // The parts of the message, one by one: that keeps a packet small.
    topic: TopicName,
    payload: Payload,
    qos: Qos,
    retain: bool,
    delivery: Option<Delivery>,
}

impl Model for Publish {
    ghost use Rattle.std.specs.Prelude.{◌≡◌, true};
    ghost use Rattle.mq_packet.specs.Publication.{Publication, fits_delivery};

    ghost Value = { Publication };

    ghost view = { λ p. record {
      message = record { topic = p.topic; payload = p.payload; qos = p.qos; retain = p.retain };
      delivery = p.delivery;
    } };

    ghost invariant = { λ p. fits_delivery p.qos p.delivery ≡ true };
}

/// A borrowed message.
#[derive(Clone, Copy, Debug)]
pub struct MessageRef<'a> {
    /// The topic to publish it to.
    pub topic: &'a TopicName,
    /// The payload.
    pub payload: &'a Payload,
    /// The quality of service to deliver it with.
    pub qos: Qos,
    /// RETAIN: the server stores it for future subscribers.
    pub retain: bool,
}

impl Publish {
    /// A PUBLISH of `message`. `delivery` must be given exactly for QoS 1 and 2.
    pub fn new(message: Message, delivery: Option<Delivery>) -> Publish
        requires { fits_delivery message.qos delivery ≡ true }
        ensures message { result.message ≡ message }
        ensures delivery { result.delivery ≡ delivery }
    {
        let Message {
            topic,
            payload,
            qos,
            retain,
        } = message;
        Publish {
            topic,
            payload,
            qos,
            retain,
            delivery,
        }
    }

    /// The message.
    pub fn message(&self) -> MessageRef<'_>
        ensures topic { result.topic.now ≡ self.now.message.topic }
        ensures payload { result.payload.now ≡ self.now.message.payload }
        ensures qos { result.qos ≡ self.now.message.qos }
        ensures retain { result.retain ≡ self.now.message.retain }
        ensures fits { fits_delivery self.now.message.qos self.now.delivery ≡ true }
    {
        MessageRef {
            topic: &self.topic,
            payload: &self.payload,
            qos: self.qos,
            retain: self.retain,
        }
    }

    /// The packet identifier and DUP, or `None` for QoS 0.
    pub fn delivery(&self) -> Option<Delivery>
        ensures value { result ≡ self.now.delivery }
        ensures fits { fits_delivery self.now.message.qos self.now.delivery ≡ true }
    {
        self.delivery
    }

    /// Borrows the delivery.
    pub(crate) fn delivery_ref(&self) -> &Option<Delivery>
        ensures value { result.now ≡ self.now.delivery }
        ensures fits { fits_delivery self.now.message.qos self.now.delivery ≡ true }
    {
        &self.delivery
    }

    /// Consumes the PUBLISH and returns its message.
    pub fn into_message(self) -> Message
        ensures { result ≡ self.message }
    {
        let Publish {
            topic,
            payload,
            qos,
            retain,
            delivery: _,
        } = self;
        Message {
            topic,
            payload,
            qos,
            retain,
        }
    }
}

impl Clone for Publish {
    ghost is_clone = { λ publish copy. copy ≡ publish };

    /// Returns another owner of the same bytes.
    fn clone(&self) -> Result<Publish, AllocError> {
        Ok(Publish {
            topic: self.topic.clone()?,
            payload: self.payload.clone()?,
            qos: self.qos,
            retain: self.retain,
            delivery: self.delivery,
        })
    }
}
