//! Messages and packets, made of words, and bytes in short.

ghost use Rattle.std.specs.Prelude.{◌≡◌, IfOk};

use crate::fields::bytes_of;
use crate::words::Words;
use crate::wrong::Wrong;
use bytes::Bytes;
use mq_decode::{Limits, PacketView, View, read_packet, view};
use mq_packet::{Message, Packet, Payload};
use mq_topic::{Qos, TopicName};
use std::alloc::{AllocError, Global};

/// Adds bytes as hexadecimal digits; of more than a hundred of them, their number and the
/// first ten.
pub(crate) fn add_short(text: &mut String, bytes: &[u8]) -> Result<(), AllocError> {
    let mut shown = bytes;
    if bytes.len() > 100 {
        write!(text, "{} ", bytes.len())?;
        shown = bytes.get(..10).unwrap_or(bytes);
    }
    for byte in shown {
        write!(text, "{byte:02x}")?;
    }
    Ok(())
}

pub(crate) fn add_word(text: &mut String, bytes: &[u8]) -> Result<(), AllocError> {
    if bytes.is_empty() {
        return text.push_str("-");
    }
    add_short(text, bytes)
}

/// The message with these parts.
pub(crate) fn message(
    alloc: Global,
    topic: &str,
    qos: Qos,
    payload: Vec<u8>,
) -> Result<Message, Wrong>
    ensures { IfOk result (λ message. message.qos ≡ qos) }
{
    let topic = TopicName::parse(alloc, topic).ok().ok_or(Wrong::Words)?;
    let payload = Payload::new(Bytes::from_vec(payload)?).ok_or(Wrong::Words)?;
    Ok(Message {
        topic,
        payload,
        qos,
        retain: false,
    })
}

pub(crate) fn packet_of(alloc: Global, words: &mut Words<'_>) -> Result<Packet, Wrong> {
    let limits = Limits::new(64).ok_or(Wrong::Words)?;
    let bytes = bytes_of(alloc, words)?;
    match read_packet(alloc, &mut bytes.as_slice(), limits) {
        Ok(Some(packet)) => Ok(packet),
        _ => Err(Wrong::Words),
    }
}

/// The packet at the front of bytes, borrowed from them.
pub(crate) fn view_of(bytes: &[u8]) -> Result<PacketView<'_>, Wrong> {
    let limits = Limits::new(64).ok_or(Wrong::Words)?;
    match view(bytes, limits) {
        View::Whole(packet, _) => Ok(packet),
        View::More | View::Fault(_) => Err(Wrong::Words),
    }
}
