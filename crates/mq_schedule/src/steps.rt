//! The steps in single lines.

ghost use Rattle.std.specs.Prelude.{◌≡◌, ◌∷◌, ℕ, false, IfOk, IfSome, MatchOption, Option, codes};
ghost use Rattle.mq_schedule.specs.Prelude.{non_zero_u16_get, IsWorldLine, Writes, number_of, publish_word, words_of, Finds};

use crate::fields::{amount, capacity, limits, number, payload, qos, side, topic, window};
use crate::schedule::Step;
use crate::words::{Words, first_word};
use mq_decode::Limits;
use mq_packet::Message;
use mq_world::Event;
use std::alloc::{AllocError, Global};
use std::num::NonZeroU16;

// The bounds, the capacity and the window of a line for a world.
pub(crate) fn world(line: &str) -> Option<(Limits, NonZeroU16, Option<NonZeroU16>)>
    ensures world { MatchOption result
        ((limit capacity : ℕ) (window : Option ℕ) → ¬ IsWorldLine limit capacity window (words_of line.now))
        (λ world. IsWorldLine world.0.most (non_zero_u16_get world.1) (number_of world.2) (words_of line.now)) }
    ensures strict { IfSome result (λ world. world.0.lenient ≡ false) }
{
    let (command, words) = first_word(line);
    if command != "world" {
        return None;
    }
    let (most, room, last) = words.two_or_three()?;
    Some((limits(most)?, capacity(room)?, window(last)?))
}

// The publication of the words after `pub` or `pubr`.
fn publication(alloc: Global, words: Words<'_>, retain: bool) -> Result<Option<Step>, AllocError>
    ensures { IfOk result (Finds (λ step. Writes step (publish_word retain ∷ words.entry))) }
{
    let Some((side_word, qos_word, topic_word, payload_word)) = words.four() else {
        return Ok(None);
    };
    let (Some(side), Some(qos)) = (side(side_word), qos(qos_word)) else {
        return Ok(None);
    };
    let Some(topic) = topic(alloc, topic_word)? else {
        return Ok(None);
    };
    let Some(payload) = payload(alloc, payload_word)? else {
        return Ok(None);
    };
    let message = Message {
        topic,
        payload,
        qos,
        retain,
    };
    Ok(Some(Step::Event(Event::Publish(side, message))))
}

// The delivery of the words after `to`.
fn delivery(words: Words<'_>) -> Option<Step>
    ensures { Finds (λ step. Writes step (codes "to" ∷ words.entry)) result }
{
    let (to, count) = words.two()?;
    Some(Step::Event(Event::Deliver(side(to)?, amount(count)?)))
}

// The loss of the words after `drop`.
fn loss(words: Words<'_>) -> Option<Step>
    ensures { Finds (λ step. Writes step (codes "drop" ∷ words.entry)) result }
{
    Some(Step::Event(Event::Drop(side(words.one()?)?)))
}

// The tick of the words after `tick`.
fn tick(words: Words<'_>) -> Option<Step>
    ensures { Finds (λ step. Writes step (codes "tick" ∷ words.entry)) result }
{
    let (of, more) = words.two()?;
    Some(Step::Event(Event::Tick(side(of)?, number(more)?)))
}

// The step of a line.
pub(crate) fn step(alloc: Global, line: &str) -> Result<Option<Step>, AllocError>
    ensures { IfOk result (Finds (λ step. Writes step (words_of line.now))) }
{
    let (command, words) = first_word(line);
    match command {
        "pub" => publication(alloc, words, false),
        "pubr" => publication(alloc, words, true),
        "to" => Ok(delivery(words)),
        "drop" => Ok(loss(words)),
        "tick" => Ok(tick(words)),
        "restart" if words.is_empty() => Ok(Some(Step::Event(Event::Restart))),
        "leave" if words.is_empty() => Ok(Some(Step::Event(Event::Leave))),
        "open" if words.is_empty() => Ok(Some(Step::Event(Event::Open))),
        "settle" if words.is_empty() => Ok(Some(Step::Settle)),
        _ => Ok(None),
    }
}
