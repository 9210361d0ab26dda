//! Packets, made of words.

ghost use Rattle.std.specs.Prelude.{◌≡◌, true, IfOk};
ghost use Rattle.mq_packet.specs.Publication.{fits_delivery};

use crate::fields::{binary_of, payload_of};
use crate::texts::{parsed_in, parsed_of};
use crate::words::Words;
use crate::wrong::Wrong;
use mq_packet::{
    BoxedConnect, ConnAck, Connect, Delivery, Login, Message, NonEmpty, Packet, Publish,
    RefusalCode, Request, SubAckCode, Will,
};
use mq_topic::{Qos, TopicFilter};
use std::alloc::Global;

// `will QOS RETAIN TOPIC MESSAGE`
fn some_will(alloc: Global, words: &mut Words<'_>) -> Result<Will, Wrong> {
    let (qos, retain) = (words.qos()?, words.bit()?);
    let topic = parsed_of(alloc, words)?;
    let message = binary_of(alloc, words)?;
    Ok(Will {
        topic,
        message,
        qos,
        retain,
    })
}

// A will, or `-`.
fn will(alloc: Global, words: &mut Words<'_>) -> Result<Option<Will>, Wrong> {
    match words.word()? {
        "will" => Ok(Some(some_will(alloc, words)?)),
        _ => Ok(None),
    }
}

// `login NAME PASSWORD`
fn some_login(alloc: Global, words: &mut Words<'_>) -> Result<Login, Wrong> {
    let name = parsed_of(alloc, words)?;
    let password = binary_of(alloc, words)?;
    Ok(Login {
        name,
        password: Some(password),
    })
}

// A login, or `-`.
fn login(alloc: Global, words: &mut Words<'_>) -> Result<Option<Login>, Wrong> {
    match words.word()? {
        "login" => Ok(Some(some_login(alloc, words)?)),
        _ => Ok(None),
    }
}

/// `CLEAN KEEP-ALIVE ID` and a will and a login, or `-` for none.
pub(crate) fn connect(alloc: Global, words: &mut Words<'_>) -> Result<BoxedConnect, Wrong> {
    let (clean_session, keep_alive) = (words.bit()?, words.number()?);
    let client_id = parsed_of(alloc, words)?;
    let will = will(alloc, words)?;
    let login = login(alloc, words)?;
    let connect = Connect {
        client_id,
        clean_session,
        keep_alive,
        will,
        login,
    };
    Ok(BoxedConnect::new(alloc, connect)?)
}

/// `ID DUP` for a quality of service of 1 or 2, nothing for 0.
pub(crate) fn delivery(words: &mut Words<'_>, qos: Qos) -> Result<Option<Delivery>, Wrong>
    ensures { IfOk result (λ delivery. fits_delivery qos delivery ≡ true) }
{
    let given = match qos {
        Qos::Q0 => None,
        Qos::Q1 | Qos::Q2 => Some(Delivery {
            id: words.id()?,
            dup: words.bit()?,
        }),
    };
    Ok(given)
}

/// `TOPIC PAYLOAD`
pub(crate) fn message(alloc: Global, words: &mut Words<'_>, qos: Qos) -> Result<Message, Wrong>
    ensures { IfOk result (λ message. message.qos ≡ qos) }
{
    let topic = parsed_of(alloc, words)?;
    let payload = payload_of(alloc, words)?;
    Ok(Message {
        topic,
        payload,
        qos,
        retain: false,
    })
}

/// `QOS [ID DUP] TOPIC PAYLOAD`
pub(crate) fn publish(alloc: Global, words: &mut Words<'_>) -> Result<Publish, Wrong> {
    let qos = words.qos()?;
    let delivery = delivery(words, qos)?;
    let message = message(alloc, words, qos)?;
    Ok(Publish::new(message, delivery))
}

fn list<T: Drop>(items: Vec<T>) -> Result<NonEmpty<T>, Wrong> {
    if items.is_empty() {
        return Err(Wrong::Words);
    }
    Ok(NonEmpty::from_vec(items))
}

// `FILTER:QOS`
fn request(alloc: Global, word: &str) -> Result<Request, Wrong> {
    let (filter, qos) = word.split_once(':').ok_or(Wrong::Words)?;
    let qos = Words::new(qos).qos()?;
    let filter = parsed_in(alloc, filter)?;
    Ok(Request { filter, qos })
}

fn requests(alloc: Global, words: &mut Words<'_>) -> Result<Vec<Request>, Wrong> {
    let mut requests = Vec::new(alloc);
    for word in words.rest() {
        requests.push(request(alloc, word)?)?;
    }
    Ok(requests)
}

fn filters(alloc: Global, words: &mut Words<'_>) -> Result<Vec<TopicFilter>, Wrong> {
    let mut filters = Vec::new(alloc);
    for word in words.rest() {
        filters.push(parsed_in(alloc, word)?)?;
    }
    Ok(filters)
}

fn code(word: &str) -> Result<SubAckCode, Wrong> {
    SubAckCode::from_number(Words::new(word).number()?).ok_or(Wrong::Words)
}

fn codes(alloc: Global, words: &mut Words<'_>) -> Result<Vec<SubAckCode>, Wrong> {
    let mut codes = Vec::new(alloc);
    for word in words.rest() {
        codes.push(code(word)?)?;
    }
    Ok(codes)
}

fn subscribe(alloc: Global, words: &mut Words<'_>) -> Result<Packet, Wrong> {
    let id = words.id()?;
    let requests = list(requests(alloc, words)?)?;
    Ok(Packet::Subscribe { id, requests })
}

fn unsubscribe(alloc: Global, words: &mut Words<'_>) -> Result<Packet, Wrong> {
    let id = words.id()?;
    let filters = list(filters(alloc, words)?)?;
    Ok(Packet::Unsubscribe { id, filters })
}

// The list of the codes is taken out and made again.
fn sub_ack(alloc: Global, words: &mut Words<'_>) -> Result<Packet, Wrong> {
    let id = words.id()?;
    let codes = list(codes(alloc, words)?)?;
    let codes = list(codes.into_vec())?;
    Ok(Packet::SubAck { id, codes })
}

// A packet without a list and a message.
fn short_packet(kind: &str, words: &mut Words<'_>) -> Result<Packet, Wrong> {
    Ok(match kind {
        "accepted" => Packet::ConnAck(ConnAck::Accepted {
            session_present: words.bit()?,
        }),
        "refused" => {
            let code = RefusalCode::from_number(words.number()?);
            Packet::ConnAck(ConnAck::Refused(code.ok_or(Wrong::Words)?))
        }
        "puback" => Packet::PubAck(words.id()?),
        "pubrec" => Packet::PubRec(words.id()?),
        "pubrel" => Packet::PubRel(words.id()?),
        "pubcomp" => Packet::PubComp(words.id()?),
        "unsuback" => Packet::UnsubAck(words.id()?),
        "pingreq" => Packet::PingReq,
        "pingresp" => Packet::PingResp,
        "disconnect" => Packet::Disconnect,
        _ => return Err(Wrong::Words),
    })
}

/// The packet of a word for its type and further words.
pub(crate) fn packet(alloc: Global, words: &mut Words<'_>) -> Result<Packet, Wrong> {
    match words.word()? {
        "connect" => Ok(Packet::Connect(connect(alloc, words)?)),
        "publish" => Ok(Packet::Publish(publish(alloc, words)?)),
        "subscribe" => subscribe(alloc, words),
        "suback" => sub_ack(alloc, words),
        "unsubscribe" => unsubscribe(alloc, words),
        kind => short_packet(kind, words),
    }
}
