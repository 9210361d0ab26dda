//! Events that are generated for tests.

ghost use Rattle.std.specs.Prelude.{◌≡◌, ◌<◌, IfOk};
ghost use Rattle.mq_world.specs.Prelude.{made_event, made_message, made_qos, made_side, made_up};

use crate::event::Event;
use crate::side::Side;
use bytes::Bytes;
use mq_packet::{Message, Payload};
use mq_topic::{Qos, TopicName};
use rand_core::utils::NextWord;
use rand_pcg::Pcg32;
use std::alloc::{AllocError, Global};

fn made_side(word: u32) -> Side
    ensures { result ≡ made_side word }
{
    if word / 8 % 2 == 0 {
        Side::Client
    } else {
        Side::Server
    }
}

fn made_qos(value: u32) -> Qos
    ensures { result ≡ made_qos value }
{
    match value % 3 {
        0 => Qos::Q0,
        1 => Qos::Q1,
        _ => Qos::Q2,
    }
}

// The message of a step, whose payload is the step's number.
fn made_message(alloc: Global, qos: Qos, number: u32) -> Result<Message, AllocError>
    ensures { IfOk result (λ message. message ≡ made_message qos number) }
{
    let Ok(topic) = TopicName::parse(alloc, "t") else {
        return Err(AllocError);
    };
    let bytes = Bytes::copy_from_slice(alloc, &number.to_be_bytes())?;
    Ok(Message {
        topic,
        payload: Payload::new(bytes).unwrap(),
        qos,
        retain: false,
    })
}

// The event of a step.
fn made_event(alloc: Global, word: u32, number: u32) -> Result<Event, AllocError>
    ensures { IfOk result (λ event. event ≡ made_event word number) }
{
    let side = made_side(word);
    let value = word / 16;
    Ok(match word % 8 {
        0 | 1 => Event::Publish(side, made_message(alloc, made_qos(value), number)?),
        2..=4 => Event::Deliver(side, (value % 32) as usize),
        5 if value % 4 == 0 => Event::Leave,
        5 => Event::Drop(side),
        6 => Event::Open,
        _ => Event::Tick(side, u64::from(value % 1000)),
    })
}

/// Generates `steps` events for tests, the same ones for the same `start`. A message has the topic
/// `t`; its payload is the number of its step in four bytes, in big-endian order.
pub fn made_up(alloc: Global, start: u64, steps: u32) -> Result<Vec<Event>, AllocError>
    ensures { IfOk result (λ events. events.items ≡ made_up start steps) }
{
    let mut generator = Pcg32::new(start, 1);
    let mut events = Vec::new(alloc);
    for number in 0..steps {
        let word = generator.next_word();
        events.push(made_event(alloc, word, number)?)?;
    }
    Ok(events)
}
