//! Copies of messages for subscribers (3.3.1.3, 3.3.5, 3.8.4).

ghost use Rattle.std.specs.Prelude.{◌≡◌, Some, IfOk};
ghost use Rattle.mq_tables.specs.Prelude.{option_to_list, lesser, copy, copy_by, is_hidden_name, will_message};

use mq_packet::{Message, Will};
use mq_topic::{Qos, TopicName};
use std::alloc::AllocError;

/// The lesser of two qualities of service (3.8.4).
pub fn lesser(first: Qos, second: Qos) -> Qos
    ensures { result ≡ lesser first second }
{
    match (first, second) {
        (Qos::Q0, _) | (_, Qos::Q0) => Qos::Q0,
        (Qos::Q2, Qos::Q2) => Qos::Q2,
        _ => Qos::Q1,
    }
}

/// Whether a topic name begins with `$`. Messages of such a name are neither retained nor delivered
/// (4.7.2).
pub fn is_hidden_name(name: &TopicName) -> bool
    ensures { result ≡ is_hidden_name name.now }
{
    name.as_str().as_bytes().first() == Some(&b'$')
}

/// Returns a copy of a message with the lesser quality of service (3.8.4) and this RETAIN flag
/// (3.3.1.3). It shares the bytes of topic and payload.
pub fn copy(message: &Message, qos: Qos, retain: bool) -> Result<Message, AllocError>
    ensures { IfOk result (λ m. m ≡ copy qos retain message.now) }
{
    let Message {
        topic,
        payload,
        qos: published,
        ..
    } = message;
    Ok(Message {
        topic: topic.clone()?,
        payload: payload.clone()?,
        qos: lesser(*published, qos),
        retain,
    })
}

/// Returns the copy of a message for a client, by the greatest quality of service of its matching
/// subscriptions (3.3.5). `None` if the client is not connected and the copy has quality of service
/// 0 (4.3.1).
pub fn copy_by(message: &Message, qos: Qos, is_up: bool) -> Result<Option<Message>, AllocError>
    ensures { IfOk result (λ m. option_to_list m ≡ copy_by is_up message.now (Some qos)) }
{
    if !is_up && lesser(message.qos, qos) == Qos::Q0 {
        return Ok(None);
    }
    let copied = copy(message, qos, false)?;
    Ok(Some(copied))
}

/// Returns the message of a will (3.1.2.5), which shares its bytes.
pub fn will_message(will: &Will) -> Result<Message, AllocError>
    ensures { IfOk result (λ m. m ≡ will_message will.now) }
{
    will.message()
}
