//! Encoded packets, their parts, and their bounds.

use crate::fields::{add_hex, shared_of};
use crate::packets::{connect, delivery, message, packet, publish};
use crate::texts::parsed_in;
use crate::words::Words;
use crate::wrong::Wrong;
use bytes::Bytes;
use mq_packet::{
    Binary, Connect, EncodeError, Message, Packet, PacketId, Payload, Publish, RefusalCode,
    SubAckCode, WriteError, encode_into, encode_publish_into, encoded_len, write_packet,
};
use mq_topic::Qos;
use std::alloc::{AllocError, Global};
use std::io;
use std::io::{ErrorKind, Write};

// Adds the bytes behind the first one, which must be ff.
fn add_behind(alloc: Global, told: &mut String, out: &[u8]) -> Result<(), AllocError> {
    match out.split_first() {
        Some((0xff, added)) => add_hex(alloc, told, added),
        _ => told.push_str("another front"),
    }
}

// Adds the encoding of a packet behind a byte, and `encoded_len` if it differs.
fn add_encoded(alloc: Global, packet: &Packet, told: &mut String) -> Result<(), Wrong> {
    let mut out = vec![in alloc; 0xff]?;
    encode_into(packet, &mut out)?;
    add_behind(alloc, told, out.as_slice())?;
    let size = encoded_len(packet).ok_or(Wrong::Bytes)?;
    if out.len() - 1 != size as usize {
        write!(told, " of size {size}")?;
    }
    Ok(())
}

// `encode PACKET`: the bytes of a clone.
fn encode(alloc: Global, words: &mut Words<'_>, told: &mut String) -> Result<(), Wrong> {
    let packet = packet(alloc, words)?;
    let copy = packet.clone()?;
    add_encoded(alloc, &copy, told)
}

// `in-place QOS [ID DUP] TOPIC PAYLOAD`: the bytes of the PUBLISH of a borrowed message.
fn in_place(alloc: Global, words: &mut Words<'_>, told: &mut String) -> Result<(), Wrong> {
    let qos = words.qos()?;
    let delivery = delivery(words, qos)?;
    let message = message(alloc, words, qos)?;
    let mut out = vec![in alloc; 0xff]?;
    encode_publish_into(&message, delivery, &mut out)?;
    Ok(add_behind(alloc, told, out.as_slice())?)
}

fn add_payload_of_clone(alloc: Global, told: &mut String, publish: &Publish) -> Result<(), Wrong> {
    let copy = publish.clone()?;
    let message = copy.into_message();
    Ok(add_hex(alloc, told, message.payload.as_slice())?)
}

// `parts QOS [ID DUP] TOPIC PAYLOAD`: the delivery and the topic of a PUBLISH, and the payload of a
// clone's message.
fn parts(alloc: Global, words: &mut Words<'_>, told: &mut String) -> Result<(), Wrong> {
    let publish = publish(alloc, words)?;
    if let Some(delivery) = publish.delivery() {
        write!(told, "{} {} ", delivery.id.get(), delivery.dup)?;
    }
    write!(told, "{} ", publish.message().topic.as_str())?;
    add_payload_of_clone(alloc, told, &publish)
}

// Adds the fields of a CONNECT.
fn add_connect(told: &mut String, connect: &Connect) -> Result<(), AllocError> {
    let (id, clean) = (connect.client_id.as_str(), connect.clean_session);
    let (has_will, has_login) = (connect.will.is_some(), connect.login.is_some());
    let keep_alive = connect.keep_alive;
    write!(told, "{id} {clean} {keep_alive} {has_will} {has_login}")
}

// `boxed CONNECT`: the fields of a CONNECT in its box, and those of one out of a cloned box.
fn boxed(alloc: Global, words: &mut Words<'_>, told: &mut String) -> Result<(), Wrong> {
    let boxed = connect(alloc, words)?;
    add_connect(told, boxed.as_connect())?;
    told.push_str("; ")?;
    let connect = boxed.clone()?.into_connect();
    Ok(add_connect(told, &connect)?)
}

fn add_message(alloc: Global, told: &mut String, message: &Message) -> Result<(), AllocError> {
    let (qos, retain) = (message.qos, message.retain);
    write!(told, "{} {qos:?} {retain} ", message.topic.as_str())?;
    add_hex(alloc, told, message.payload.as_slice())
}

// `will CONNECT`: the message of its will.
fn will_message(alloc: Global, words: &mut Words<'_>, told: &mut String) -> Result<(), Wrong> {
    let connect = connect(alloc, words)?;
    match &connect.as_connect().will {
        Some(will) => {
            let message = will.message()?;
            Ok(add_message(alloc, told, &message)?)
        }
        None => Err(Wrong::Words),
    }
}

// `binary BYTES`: the length of a binary field and, if it is short, its bytes, borrowed and by
// value.
fn binary(alloc: Global, words: &mut Words<'_>, told: &mut String) -> Result<(), Wrong> {
    let Some(binary) = Binary::new(shared_of(alloc, words)?) else {
        return Ok(told.push_str("none")?);
    };
    write!(told, "{}", binary.as_slice().len())?;
    if binary.as_slice().len() > 100 {
        return Ok(());
    }
    told.push_str(" ")?;
    add_hex(alloc, told, binary.as_bytes().as_slice())?;
    told.push_str(" ")?;
    Ok(add_hex(alloc, told, binary.into_bytes().as_slice())?)
}

// `payload BYTES`: the bytes of a payload, borrowed and by value.
fn payload(alloc: Global, words: &mut Words<'_>, told: &mut String) -> Result<(), Wrong> {
    let payload = Payload::new(shared_of(alloc, words)?).ok_or(Wrong::Bytes)?;
    add_hex(alloc, told, payload.as_bytes().as_slice())?;
    told.push_str(" ")?;
    Ok(add_hex(alloc, told, payload.into_bytes().as_slice())?)
}

// Whether both encoders refuse a packet as too large, and the vector is unchanged.
fn is_too_large(alloc: Global, packet: &Packet) -> Result<bool, Wrong> {
    let mut out = vec![in alloc; 0xff]?;
    let encoded = encode_into(packet, &mut out) == Err(EncodeError::TooLarge);
    let written = write_packet(alloc, packet, &mut out).is_err();
    Ok(encoded && written && out.as_slice() == [0xff].as_slice())
}

// A PUBLISH to `a` with QoS 0.
fn publish_of(alloc: Global, payload: Payload) -> Result<Packet, Wrong> {
    let topic = parsed_in(alloc, "'a")?;
    let message = Message {
        topic,
        payload,
        qos: Qos::Q0,
        retain: false,
    };
    Ok(Packet::Publish(Publish::new(message, None)))
}

// Adds the size of a PUBLISH to `a` with this payload, or that it is too large and whether both
// encoders refuse it.
fn add_size(alloc: Global, bytes: Bytes, told: &mut String) -> Result<(), Wrong> {
    let Some(payload) = Payload::new(bytes) else {
        return Ok(told.push_str("no payload;")?);
    };
    let packet = publish_of(alloc, payload)?;
    match encoded_len(&packet) {
        Some(size) => Ok(write!(told, "{size};")?),
        None => Ok(write!(told, "too large {};", is_too_large(alloc, &packet)?)?),
    }
}

fn first(bytes: &Bytes, count: usize) -> Result<Bytes, Wrong> {
    if count > bytes.len() {
        return Err(Wrong::Words);
    }
    Ok(bytes.slice(..count)?)
}

// `zeros COUNT PART..`: the size of a PUBLISH for the first part of this number of zeros, for each
// part.
fn zeros(alloc: Global, words: &mut Words<'_>, told: &mut String) -> Result<(), Wrong> {
    let bytes = Bytes::from_vec(vec![in alloc; 0; words.number()?]?)?;
    for part in words.rest() {
        let payload = first(&bytes, Words::new(part).number()?)?;
        add_size(alloc, payload, told)?;
    }
    Ok(())
}

// A writer with limited room. It takes at most three bytes a call, is interrupted before each, and
// fails when it is full.
#[derive(Drop)]
struct Narrow {
    taken: Vec<u8>,
    room: usize,
    is_interrupted: bool,
}

impl Write for Narrow {
    fn write(&mut self, buf: &[u8]) -> io::Result<usize> {
        self.is_interrupted = !self.is_interrupted;
        if self.is_interrupted {
            return Err(io::Error::from(ErrorKind::Interrupted));
        }
        if self.room == 0 {
            return Err(io::Error::from(ErrorKind::BrokenPipe));
        }
        let count = buf.len().min(3).min(self.room);
        self.taken.extend_from_slice(&buf[..count])?;
        self.room -= count;
        Ok(count)
    }

    fn flush(&mut self) -> io::Result<()> {
        Ok(())
    }
}

fn add_written(
    alloc: Global,
    packet: &Packet,
    narrow: &mut Narrow,
    told: &mut String,
) -> Result<(), Wrong> {
    match write_packet(alloc, packet, narrow) {
        Ok(()) => told.push_str("written ")?,
        Err(WriteError::Io(error)) => write!(told, "{:?} ", error.kind())?,
        Err(WriteError::Encode(error)) => write!(told, "{error:?} ")?,
    }
    Ok(add_hex(alloc, told, narrow.taken.as_slice())?)
}

// `write ROOM PACKET`: the error of a writer with this room, and the bytes of the packet that it
// takes.
fn write(alloc: Global, words: &mut Words<'_>, told: &mut String) -> Result<(), Wrong> {
    let room = words.number()?;
    let packet = packet(alloc, words)?;
    let mut narrow = Narrow {
        taken: Vec::new(alloc),
        room,
        is_interrupted: false,
    };
    add_written(alloc, &packet, &mut narrow, told)
}

/// `refusal NUMBER`: the code of a refusal with it, and its number.
pub(crate) fn refusal(words: &mut Words<'_>, told: &mut String) -> Result<(), Wrong> {
    match RefusalCode::from_number(words.number()?) {
        Some(code) => Ok(write!(told, "{code:?} {}", code.number())?),
        None => Ok(told.push_str("none")?),
    }
}

/// `suback NUMBER`: the code of a SUBACK with it, and its number.
pub(crate) fn sub_ack_code(words: &mut Words<'_>, told: &mut String) -> Result<(), Wrong> {
    match SubAckCode::from_number(words.number()?) {
        Some(code) => Ok(write!(told, "{code:?} {}", code.number())?),
        None => Ok(told.push_str("none")?),
    }
}

/// `id NUMBER`: the identifier with it.
pub(crate) fn id(words: &mut Words<'_>, told: &mut String) -> Result<(), Wrong> {
    match PacketId::new(words.number()?) {
        Some(id) => Ok(write!(told, "{}", id.get())?),
        None => Ok(told.push_str("none")?),
    }
}

/// The acts of encoded packets.
pub(crate) fn tell(alloc: Global, words: &mut Words<'_>, told: &mut String) -> Result<(), Wrong> {
    match words.word()? {
        "encode" => encode(alloc, words, told),
        "in-place" => in_place(alloc, words, told),
        "parts" => parts(alloc, words, told),
        "boxed" => boxed(alloc, words, told),
        "will" => will_message(alloc, words, told),
        "binary" => binary(alloc, words, told),
        "payload" => payload(alloc, words, told),
        "zeros" => zeros(alloc, words, told),
        "write" => write(alloc, words, told),
        _ => Err(Wrong::Words),
    }
}
