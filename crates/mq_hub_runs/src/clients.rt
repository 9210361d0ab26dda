//! Packets of clients of a broker, made before the time is taken.

use anyhow::{Context, ensure};
use bytes::Bytes;
use mq_hub::{Conn, HubEvent};
use mq_packet::{
    BoxedConnect, Connect, Delivery, Message, NonEmpty, Packet, PacketId, Payload, Publish,
    Request, encode_into,
};
use mq_topic::{Qos, TopicFilter, TopicName};
use mq_wire::Text;
use std::alloc::Global;

/// How many messages a publisher sends at once.
pub(crate) const BATCH: u16 = 20;

/// Bytes of a payload of this size.
fn made_up_bytes(alloc: Global, size: usize) -> anyhow::Result<Bytes> {
    let mut bytes = Vec::with_capacity(alloc, size)?;
    for place in 0..size {
        bytes.push((place % 251) as u8)?;
    }
    Ok(Bytes::from_vec(bytes)?)
}

fn identifier(number: u16) -> anyhow::Result<PacketId> {
    PacketId::new(number).context("an identifier of 0")
}

fn put(bytes: &mut Vec<u8>, packet: Packet) -> anyhow::Result<()> {
    encode_into(&packet, bytes)?;
    Ok(())
}

/// Bytes that a client sends on a connection.
fn sent(conn: Conn, bytes: Vec<u8>) -> anyhow::Result<HubEvent> {
    Ok(HubEvent::Bytes(conn, Bytes::from_vec(bytes)?))
}

fn connect(alloc: Global, client: &str, clean_session: bool) -> anyhow::Result<Packet> {
    let connect = Connect {
        client_id: Text::new(alloc, client)?,
        clean_session,
        keep_alive: 0,
        will: None,
        login: None,
    };
    Ok(Packet::Connect(BoxedConnect::new(alloc, connect)?))
}

fn request(alloc: Global, filter: &str, qos: Qos) -> anyhow::Result<Request> {
    let filter = TopicFilter::parse(alloc, filter)?;
    Ok(Request { filter, qos })
}

fn subscribe(requests: Vec<Request>) -> anyhow::Result<Packet> {
    ensure!(!requests.is_empty(), "no filters");
    Ok(Packet::Subscribe {
        id: identifier(1)?,
        requests: NonEmpty::from_vec(requests),
    })
}

/// A client arrives; a clean session ends with the connection.
pub(crate) fn comes(
    alloc: Global,
    conn: Conn,
    client: &str,
    clean_session: bool,
) -> anyhow::Result<HubEvent> {
    let mut bytes = Vec::new(alloc);
    put(&mut bytes, connect(alloc, client, clean_session)?)?;
    sent(conn, bytes)
}

/// A client arrives, whose session ends with the connection, and subscribes to this filter.
pub(crate) fn subscribes(
    alloc: Global,
    conn: Conn,
    client: &str,
    filter: &str,
    qos: Qos,
) -> anyhow::Result<HubEvent> {
    let mut bytes = Vec::new(alloc);
    put(&mut bytes, connect(alloc, client, true)?)?;
    let requests = vec![in alloc; request(alloc, filter, qos)?]?;
    put(&mut bytes, subscribe(requests)?)?;
    sent(conn, bytes)
}

/// Ten filters that no message of a publisher matches, all of one client.
fn ten_requests(alloc: Global, client: u32) -> anyhow::Result<Vec<Request>> {
    let mut requests = Vec::with_capacity(alloc, 10)?;
    for number in 0..10 {
        let filter = format!(in alloc; "plant/{client}/line/{number}/temperature")?;
        requests.push(request(alloc, filter.as_str(), Qos::Q1)?)?;
    }
    Ok(requests)
}

/// A client arrives, whose session continues, and subscribes to ten filters of its own.
pub(crate) fn subscribes_to_ten(
    alloc: Global,
    conn: Conn,
    client: u32,
) -> anyhow::Result<HubEvent> {
    let name = format!(in alloc; "meter-{client}")?;
    let mut bytes = Vec::new(alloc);
    put(&mut bytes, connect(alloc, name.as_str(), false)?)?;
    put(&mut bytes, subscribe(ten_requests(alloc, client)?)?)?;
    sent(conn, bytes)
}

fn publish(alloc: Global, id: PacketId, qos: Qos, payload: Bytes) -> anyhow::Result<Packet> {
    let message = Message {
        topic: TopicName::parse(alloc, "greenhouse/4/north/temperature/c")?,
        payload: Payload::new(payload).context("a payload that is too long")?,
        qos,
        retain: false,
    };
    let delivery = match qos {
        Qos::Q0 => None,
        Qos::Q1 | Qos::Q2 => Some(Delivery { id, dup: false }),
    };
    Ok(Packet::Publish(Publish::new(message, delivery)))
}

/// A publisher sends messages of this quality of service and size; of 2 it releases their
/// identifiers at once.
pub(crate) fn publishes(
    alloc: Global,
    conn: Conn,
    qos: Qos,
    size: usize,
) -> anyhow::Result<HubEvent> {
    let mut bytes = Vec::new(alloc);
    for number in 1..=BATCH {
        let id = identifier(number)?;
        let payload = made_up_bytes(alloc, size)?;
        put(&mut bytes, publish(alloc, id, qos, payload)?)?;
        if qos == Qos::Q2 {
            put(&mut bytes, Packet::PubRel(id))?;
        }
    }
    sent(conn, bytes)
}

pub(crate) fn acknowledges(
    alloc: Global,
    conn: Conn,
    qos: Qos,
    last: u16,
    count: u16,
) -> anyhow::Result<HubEvent> {
    let mut bytes = Vec::new(alloc);
    let mut number = last;
    for _ in 0..count {
        number = number % u16::MAX + 1;
        let id = identifier(number)?;
        if qos == Qos::Q1 {
            put(&mut bytes, Packet::PubAck(id))?;
        } else {
            put(&mut bytes, Packet::PubRec(id))?;
            put(&mut bytes, Packet::PubComp(id))?;
        }
    }
    sent(conn, bytes)
}
