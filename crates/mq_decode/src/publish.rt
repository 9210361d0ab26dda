//! PUBLISH (3.3).

ghost use Rattle.std.specs.Prelude.{◌≡◌, ◌+◌, ◌<◌, ◌≤◌, ◌^◌, true, length, drop, slice_range, IfOk, IfSome, IsSome};
ghost use Rattle.mq_topic.specs.Topic.{is_topic_name};
ghost use Rattle.mq_packet.specs.Publication.{fits_delivery};
ghost use Rattle.mq_decode.specs.Gives.{EndsWith};
ghost use Rattle.mq_decode.specs.Inside.Gives.{Same};
ghost use Rattle.mq_decode.specs.Bodies.{identified_at, delivery_at, publish_at};
ghost use Rattle.mq_decode.specs.Lent.{delivery_len, payload_start};

use crate::fault::BadField;
use crate::fields::{identifier, name};
use crate::kind::PublishFlags;
use bytes::Bytes;
use mq_packet::{Delivery, Message, Payload, Publish};
use mq_topic::{Qos, TopicName};
use mq_wire::TextRef;
use std::alloc::{AllocError, Global};
use std::marker::Model;

/// A PUBLISH that is borrowed from a buffer (3.3).
#[derive(Debug, Drop)]
pub struct PublishView<'a> {
    // From the topic name to the end of the payload.
    fields: &'a [u8],
    topic: TextRef<'a>,
    qos: Qos,
    retain: bool,
    delivery: Option<Delivery>,
}

impl<'a> Model for PublishView<'a> {
    ghost use Rattle.std.specs.Prelude.{drop};
    ghost use Rattle.mq_decode.specs.Lent.{LentPublish, LiesIn, payload_start};

    ghost Value = { LentPublish };

    ghost view = { λ p. record {
      fields = p.fields.now;
      publish = record {
        message = record {
          topic = p.topic;
          payload = drop (payload_start p.topic p.delivery) p.fields.now;
          qos = p.qos;
          retain = p.retain;
        };
        delivery = p.delivery;
      };
    } };

    ghost invariant = { λ p. LiesIn p.fields.now p.topic p.qos p.delivery };
}

impl<'a> PublishView<'a> {
    /// The topic to publish it to.
    pub fn topic(&self) -> &'a str
        ensures value { result.now ≡ self.now.publish.message.topic }
        ensures name { is_topic_name self.now.publish.message.topic ≡ true }
    {
        self.topic.as_str()
    }

    /// The payload.
    pub fn payload(&self) -> &'a [u8]
        ensures value { result.now ≡ self.now.publish.message.payload }
        ensures short { length self.now.publish.message.payload < 2 ^ 28 }
    {
        let start = payload_start(&self.topic, self.delivery);
        let (_, payload) = self.fields.split_at(start);
        payload
    }

    /// The quality of service to deliver it with.
    pub fn qos(&self) -> Qos
        ensures { result ≡ self.now.publish.message.qos }
    {
        self.qos
    }

    /// RETAIN: the server keeps it for later subscribers.
    pub fn retain(&self) -> bool
        ensures { result ≡ self.now.publish.message.retain }
    {
        self.retain
    }

    /// The packet identifier and DUP, `None` exactly with quality of service 0.
    pub fn delivery(&self) -> Option<Delivery>
        ensures value { result ≡ self.now.publish.delivery }
        ensures fits { fits_delivery self.now.publish.message.qos self.now.publish.delivery ≡ true }
    {
        self.delivery
    }

    /// The message of its own, with a copy of the fields: topic name and payload share one block.
    pub fn message(&self, alloc: Global) -> Result<Message, AllocError>
        ensures { IfOk result (λ m. m ≡ self.now.publish.message) }
    {
        self.message_over(Bytes::copy_from_slice(alloc, self.fields)?)
    }

    /// The owned PUBLISH. Topic name and payload share one block: `whole`, if that is the packet of
    /// these fields, or a copy of the fields.
    pub(crate) fn shared(&self, alloc: Global, whole: Option<&Bytes>) -> Result<Publish, AllocError>
        requires { IfSome whole (λ packet. EndsWith packet.now self.now.fields) }
        ensures { IfOk result (λ p. p ≡ self.now.publish) }
    {
        self.over(shared_fields(alloc, whole, self.fields)?)
    }

    /// A PUBLISH of its own, whose topic name and payload share the bytes of its packet, which the
    /// fields end. None is copied.
    pub(crate) fn sharing(&self, packet: Bytes) -> Result<Publish, AllocError>
        requires { EndsWith packet self.now.fields }
        ensures { IfOk result (λ p. p ≡ self.now.publish) }
    {
        let mut fields = packet;
        fields.advance(fields.len() - self.fields.len());
        self.over(fields)
    }

    // The PUBLISH of these fields, which are its own.
    fn over(&self, fields: Bytes) -> Result<Publish, AllocError>
        requires { fields ≡ self.now.fields }
        ensures { IfOk result (λ p. p ≡ self.now.publish) }
    {
        Ok(Publish::new(self.message_over(fields)?, self.delivery))
    }

    // The message of these fields, which are its own.
    #[inline(always)]
    fn message_over(&self, fields: Bytes) -> Result<Message, AllocError>
        requires { fields ≡ self.now.fields }
        ensures { IfOk result (λ m. m ≡ self.now.publish.message) }
    {
        let start = payload_start(&self.topic, self.delivery);
        let (topic, payload) = parts(fields, &self.topic, start)?;
        Ok(Message {
            topic,
            payload,
            qos: self.qos,
            retain: self.retain,
        })
    }
}

// The number of bytes before the payload.
fn payload_start(topic: &TextRef<'_>, delivery: Option<Delivery>) -> usize
    ensures { result ≡ payload_start topic.now delivery }
{
    let size = topic.as_str().len();
    match delivery {
        Some(_) => 2 + size + 2,
        None => 2 + size,
    }
}

// The owned fields: a part of the packet if `whole` is its buffer, otherwise a copy.
fn shared_fields(alloc: Global, whole: Option<&Bytes>, fields: &[u8]) -> Result<Bytes, AllocError>
    requires { IfSome whole (λ packet. EndsWith packet.now fields.now) }
    ensures { IfOk result (λ b. b ≡ fields.now) }
{
    match whole {
        Some(packet) => packet.slice(packet.len() - fields.len()..),
        None => Bytes::copy_from_slice(alloc, fields),
    }
}

// The topic name at the front of the fields, and the payload that ends them. Both share one block.
#[inline(always)]
fn parts(
    mut fields: Bytes,
    topic: &TextRef<'_>,
    start: usize,
) -> Result<(TopicName, Payload), AllocError>
    requires topic_in { 2 + length topic.now ≤ length fields }
    requires topic { slice_range fields 2 (2 + length topic.now) ≡ topic.now }
    requires name { is_topic_name topic.now ≡ true }
    requires payload_in { start ≤ length fields }
    requires small { length fields < 2 ^ 28 }
    ensures topic { IfOk result (λ x. x.0 ≡ topic.now) }
    ensures payload { IfOk result (λ x. x.1 ≡ drop start fields) }
{
    let end = 2 + topic.as_str().len();
    let name = topic.shared(fields.slice(2..end)?);
    fields.advance(start);
    Ok((TopicName::from_text(name), Payload::new(fields).unwrap()))
}

// The identifier of a quality of service over 0.
fn identified(dup: bool, bytes: &[u8]) -> Result<(Option<Delivery>, &[u8]), BadField>
    ensures read { Same (λ x. (x.0, x.1.now)) result (identified_at dup bytes.now) }
    ensures some { IfOk result (λ x. IsSome x.0) }
    ensures within { IfOk result (λ x. delivery_len x.0 ≤ length bytes.now) }
    ensures after { IfOk result (λ x. x.1.now ≡ drop (delivery_len x.0) bytes.now) }
{
    match identifier(bytes) {
        Ok((id, rest)) => Ok((Some(Delivery { id, dup }), rest)),
        Err(bad) => Err(bad),
    }
}

#[tactic(auto, unfolding(crate::specs::Bodies::delivery_at))]
fn delivery(flags: PublishFlags, bytes: &[u8]) -> Result<(Option<Delivery>, &[u8]), BadField>
    ensures read { Same (λ x. (x.0, x.1.now)) result (delivery_at flags bytes.now) }
    ensures fits { IfOk result (λ x. fits_delivery flags.qos x.0 ≡ true) }
    ensures within { IfOk result (λ x. delivery_len x.0 ≤ length bytes.now) }
    ensures after { IfOk result (λ x. x.1.now ≡ drop (delivery_len x.0) bytes.now) }
{
    match flags.qos {
        Qos::Q0 => Ok((None, bytes)),
        Qos::Q1 => identified(flags.dup, bytes),
        Qos::Q2 => identified(flags.dup, bytes),
    }
}

/// All fields of a PUBLISH.
#[inline(always)]
#[tactic(auto, unfolding(crate::specs::Bodies::publish_at))]
pub(crate) fn publish(flags: PublishFlags, bytes: &[u8]) -> Result<PublishView<'_>, BadField>
    requires { length bytes.now < 2 ^ 28 }
    ensures read { Same (λ p. p.publish) result (publish_at flags bytes.now) }
    ensures fields { IfOk result (λ p. p.fields ≡ bytes.now) }
{
    let (topic, rest) = match name(bytes) {
        Ok(field) => field,
        Err(bad) => return Err(bad),
    };
    let (delivery, _) = match delivery(flags, rest) {
        Ok(field) => field,
        Err(bad) => return Err(bad),
    };
    Ok(PublishView {
        fields: bytes,
        topic,
        qos: flags.qos,
        retain: flags.retain,
        delivery,
    })
}
