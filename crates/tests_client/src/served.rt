//! A stream at a server end.

use crate::compare::expect_told;
use crate::script::{Steps, new_client, put, told};
use bytes::Bytes;
use mq_client::{CollectGoal, NoSaver, Peer, Publications, collect, publish};
use mq_decode::Limits;
use mq_end::{Happening, Progress, ServerConfig, ServerEnd};
use mq_packet::{Message, NonEmpty, PacketId, Payload, SubAckCode};
use mq_stream::{ReadOutcome, Stream, StreamError};
use mq_topic::{Qos, TopicFilter, TopicName};
use std::alloc::Global;
use std::process::Abort;
use std::test::Fail;

// A server end that answers at once. A read gives at most `most` bytes. It grants each subscription
// and publishes a message of each quality of service to it. It remembers the payloads that it
// receives.
#[derive(Drop)]
struct Served {
    alloc: Global,
    server: ServerEnd,
    most: usize,
    handed: Vec<u8>,
}

// A message to `a/b` of this quality of service.
fn message(alloc: Global, qos: Qos) -> Option<Message> {
    let topic = TopicName::parse(alloc, "a/b").ok()?;
    let payload = Payload::new(Bytes::copy_from_slice(alloc, b"hi").ok()?)?;
    Some(Message {
        topic,
        payload,
        qos,
        retain: false,
    })
}

impl Served {
    fn new(alloc: Global, most: usize) -> Result<Served, Fail> {
        let limits = Limits::new(1_048_576).ok_or("no limits")?;
        let config = ServerConfig {
            limits,
            capacity: 100,
            window: None,
        };
        let mut server = ServerEnd::new(alloc, config);
        server.opened(0);
        Ok(Served {
            alloc,
            server,
            most,
            handed: Vec::new(alloc),
        })
    }

    fn grant(&mut self, id: PacketId) -> Option<()> {
        for qos in [Qos::Q2, Qos::Q1] {
            self.server.publish(message(self.alloc, qos)?).ok()?;
        }
        let mut codes = Vec::new(self.alloc);
        codes.push(SubAckCode::Granted(Qos::Q2)).ok()?;
        if codes.is_empty() {
            return None;
        }
        self.server.suback(id, NonEmpty::from_vec(codes)).ok()?;
        self.server.publish(message(self.alloc, Qos::Q0)?).ok()?;
        Some(())
    }

    fn answer(&mut self, progress: &Progress) -> Option<()> {
        for happening in progress.happenings.as_slice() {
            match happening {
                Happening::Handed(message) => {
                    let payload = message.payload.as_slice();
                    self.handed.extend_from_slice(payload).ok()?;
                }
                Happening::Subscribe { id, .. } => self.grant(*id)?,
                _ => {}
            }
        }
        Some(())
    }
}

impl Stream for Served {
    fn read(&mut self, room: &mut [u8]) -> ReadOutcome {
        let output = self.server.output();
        let count = output.len().min(self.most);
        let count = put(room, &output[..count]);
        if count == 0 {
            return ReadOutcome::Nothing;
        }
        self.server.take_output(count);
        ReadOutcome::Bytes(count)
    }

    fn write_all(&mut self, bytes: &[u8]) -> Result<(), StreamError> {
        let progress = self.server.receive(0, bytes);
        match self.answer(&progress) {
            Some(()) => Ok(()),
            None => Err(StreamError),
        }
    }
}

// A client at a server.
type ServedPeer = Peer<Served, Steps, NoSaver>;

fn peer_of(alloc: Global, most: usize) -> Result<ServedPeer, Fail> {
    let client = new_client(alloc, 100)?;
    let served = Served::new(alloc, most)?;
    Ok(Peer::new(client, served, Steps { now: 0, step: 1 }, NoSaver))
}

// The status and output of a publication, and the payloads that the server received.
fn told_of(alloc: Global, peer: &mut ServedPeer, texts: &Publications<'_>) -> Result<String, Fail> {
    let mut output = Vec::new(alloc);
    let status = publish(alloc, peer, texts, true, &mut None, &mut output)?;
    let handed = peer.stream().handed.as_slice();
    told(alloc, status, output.as_slice(), handed)
}

// The same. A read gives at most `most` bytes.
fn published(alloc: Global, qos: Qos, most: usize) -> Result<String, Fail> {
    let topic = TopicName::parse(alloc, "a/b")?;
    let texts = Publications {
        topic: &topic,
        qos,
        retain: true,
        texts: &["one", "two", "three"],
    };
    let mut peer = peer_of(alloc, most)?;
    let told = told_of(alloc, &mut peer, &texts);
    drop(peer);
    told
}

fn a_server_gets_each_text_once(rt: &impl Abort, alloc: Global) -> Result<(), Fail> {
    for qos in [Qos::Q0, Qos::Q1, Qos::Q2] {
        for most in [1, 3, 4096] {
            let told = published(alloc, qos, most);
            expect_told(
                rt,
                told,
                "0 published 3\n6f6e6574776f7468726565",
                "published",
            )?;
        }
    }
    Ok(())
}

// The status and output of a collection, and the payloads that the server received.
fn told_to(alloc: Global, peer: &mut ServedPeer, goal: &CollectGoal<'_>) -> Result<String, Fail> {
    let mut output = Vec::new(alloc);
    let status = collect(alloc, peer, goal, true, &mut None, &mut output)?;
    let handed = peer.stream().handed.as_slice();
    told(alloc, status, output.as_slice(), handed)
}

fn collected(alloc: Global, most: usize) -> Result<String, Fail> {
    let filter = TopicFilter::parse(alloc, "a/#")?;
    let goal = CollectGoal {
        filter: &filter,
        qos: Qos::Q2,
        count: 3,
    };
    let mut peer = peer_of(alloc, most)?;
    let told = told_to(alloc, &mut peer, &goal);
    drop(peer);
    told
}

fn messages_come_from_a_server(rt: &impl Abort, alloc: Global) -> Result<(), Fail> {
    for most in [1, 3, 4096] {
        let told = collected(alloc, most);
        let wanted = "0 subscribed\na/b 2 6869\na/b 1 6869\na/b 0 6869\n";
        expect_told(rt, told, wanted, "collected")?;
    }
    Ok(())
}

#[test]
fn all_hold(rt: HostRuntime) -> Result<(), Fail> {
    a_server_gets_each_text_once(&rt, rt.alloc())?;
    messages_come_from_a_server(&rt, rt.alloc())
}
