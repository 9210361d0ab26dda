//! The actions of a client over its connection.

ghost use Rattle.std.specs.Prelude.{◌≡◌, ◌≤◌, ◌++◌, true, length, IfOk, OnOk};
ghost use Rattle.mq_loopback.specs.Prelude.{flat_map, none_received, is_up, handed, AskedAll, AskedMore, Collected, IsNewClient, Published, Receives, Subscribed, asks_of, message_of};

use crate::client::{Collector, Publisher};
use crate::start_barrier::Start;
use mq_client::{ClientError, CollectGoal, NoSaver, Peer, begin};
use mq_decode::Limits;
use mq_end::{ClientConfig, ClientEnd, Happening};
use mq_packet::{Message, Payload};
use mq_stream::{Clock, Stream};
use mq_wire::Text;
use std::alloc::{AllocError, Global};

/// The greatest remaining length of packets that come or go (2.2.3).
const MOST_PACKET: u32 = 1_048_576;

/// The most packet identifiers in use of a session (2.3.1).
const CAPACITY: u16 = 100;

/// A collector's subscription was granted. Only [`subscribe`] makes one.
#[derive(Drop)]
pub(crate) struct Grant(());

/// A client end of this identifier, which never needs to keep its connection alive (3.1.2.10).
pub(crate) fn client_end(alloc: Global, name: &Text) -> Result<ClientEnd, AllocError>
    ensures { IfOk result (IsNewClient name.now) }
{
    let config = ClientConfig {
        id: name.clone()?,
        keep_alive: 0,
        will: None,
        login: None,
        limits: Limits::new(MOST_PACKET).unwrap(),
        capacity: CAPACITY,
        window: None,
    };
    Ok(ClientEnd::new(alloc, config))
}

// Appends the delivered messages to others.
fn keep_handed(messages: &mut Vec<Message>, happenings: Vec<Happening>) -> Result<(), AllocError>
    ensures { OnOk result (messages.new.items ≡ messages.old.items ++ flat_map handed happenings.items) }
{
    for happening in happenings {
        if let Happening::Handed(message) = happening {
            messages.push(message)?;
        }
    }
    Ok(())
}

/// Connects with a clean session and subscribes. Keeps messages that are delivered before the
/// SUBACK.
pub(crate) fn subscribe<S: Stream, C: Clock>(
    alloc: Global,
    peer: &mut Peer<S, C, NoSaver>,
    collector: &Collector,
    messages: &mut Vec<Message>,
) -> Result<Grant, ClientError>
    ensures { OnOk result
        (Subscribed peer.old peer.new collector.now messages.old.items messages.new.items) }
{
    let wish = CollectGoal {
        filter: &collector.filter,
        qos: collector.qos,
        count: collector.count,
    };
    let mut told = Vec::new(alloc);
    begin(alloc, peer, &wish, true, &mut told)?;
    keep_handed(messages, told)?;
    Ok(Grant(()))
}

// Keeps delivered messages until there are enough and all are released.
fn gather<S: Stream, C: Clock>(
    peer: &mut Peer<S, C, NoSaver>,
    count: usize,
    messages: &mut Vec<Message>,
) -> Result<(), ClientError>
    ensures receives { OnOk result (Receives peer.old peer.new messages.old.items messages.new.items) }
    ensures enough { OnOk result (count ≤ length messages.new.items) }
    ensures released { OnOk result (peer.new.client.link.end.received ≡ none_received) }
    ensures up { OnOk result (is_up peer.new.client.link.end.state ≡ true) }
{
    for _ in 0..u64::MAX {
        if messages.len() >= count && peer.is_released() && peer.is_up() {
            return Ok(());
        }
        let progress = peer.hear()?;
        keep_handed(messages, progress.happenings.into_vec()?)?;
        peer.answer(progress.closed)?;
    }
    Err(ClientError::Lost)
}

/// Keeps delivered messages until the requested number has come and all are released; then
/// disconnects.
pub(crate) fn collect<S: Stream, C: Clock>(
    peer: &mut Peer<S, C, NoSaver>,
    collector: &Collector,
    messages: &mut Vec<Message>,
) -> Result<(), ClientError>
    ensures collected { OnOk result
        (Collected peer.old peer.new messages.old.items messages.new.items) }
    ensures enough { OnOk result (collector.now.count ≤ length messages.new.items) }
{
    gather(peer, collector.count as usize, messages)?;
    peer.leave()
}

// The message of a payload.
fn message_of(publisher: &Publisher, payload: &Payload) -> Result<Message, AllocError>
    ensures { IfOk result (λ message. message ≡ message_of publisher.now payload.now) }
{
    Ok(Message {
        topic: publisher.topic.clone()?,
        payload: payload.clone()?,
        qos: publisher.qos,
        retain: false,
    })
}

// Publishes the payloads from `next` on, up to one that has to wait.
fn publish_more<S: Stream, C: Clock>(
    peer: &mut Peer<S, C, NoSaver>,
    publisher: &Publisher,
    next: &mut usize,
) -> Result<(), ClientError>
    ensures { AskedMore peer.old peer.new (asks_of publisher.now) next.old next.new }
{
    let payloads = publisher.payloads.as_slice();
    while *next < payloads.len() && peer.is_up() {
        let message = message_of(publisher, &payloads[*next])?;
        if !peer.publish(message)? {
            return Ok(());
        }
        *next += 1;
    }
    Ok(())
}

// Publishes all payloads, and waits until they are acknowledged.
fn publish_acknowledged<S: Stream, C: Clock>(
    peer: &mut Peer<S, C, NoSaver>,
    publisher: &Publisher,
) -> Result<(), ClientError>
    ensures { OnOk result (AskedAll peer.old peer.new (asks_of publisher.now)) }
{
    let count = publisher.payloads.as_slice().len();
    let mut next = 0;
    for _ in 0..u64::MAX {
        peer.listen()?;
        publish_more(peer, publisher, &mut next)?;
        peer.write()?;
        if next == count && peer.is_up() && peer.is_idle() {
            return Ok(());
        }
    }
    Err(ClientError::Lost)
}

/// Connects with a clean session, publishes the payloads in order, waits until all are
/// acknowledged, and leaves.
pub(crate) fn publish<S: Stream, C: Clock>(
    peer: &mut Peer<S, C, NoSaver>,
    publisher: &Publisher,
    _start: Start,
) -> Result<(), ClientError>
    ensures { OnOk result (Published peer.old peer.new publisher.now) }
{
    peer.open(true)?;
    publish_acknowledged(peer, publisher)?;
    peer.leave()
}
