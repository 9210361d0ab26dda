//! Schedules as they are written.

ghost use Rattle.std.specs.Prelude.{◌≡◌, ◌++◌, IfOk, OnOk, Some};
ghost use Rattle.mq_schedule.specs.Prelude.{non_zero_u16_get, string_bytes, IsBytes, IsSchedule, IsWorldLine, bytes_word, lines_of, number_of, side_word, KeepsBounds, line_with, schedule_text, step_line, world_words};
ghost use Rattle.mq_schedule.specs.declared.schedule.Step.TheVariants as steps;

use crate::schedule::{Schedule, Step};
use mq_packet::{Escaped, Hex, Message};
use mq_world::{Event, Side};
use std::alloc::{AllocError, Global};
use std::fmt;
use std::fmt::Write;

/// A side: `c` is the client, `s` the server.
#[derive(Clone, Copy)]
pub struct SideWord(pub Side);

impl fmt::Display for SideWord {
    ghost output = { λ word. Some (side_word word.0) };

    fn fmt<W: fmt::Write>(&self, f: &mut fmt::Formatter<W>) -> fmt::Result {
        match self.0 {
            Side::Client => f.write_str("c"),
            Side::Server => f.write_str("s"),
        }
    }
}

/// Bytes as two hexadecimal digits each, or `-` for none.
#[derive(Clone, Copy)]
pub struct BytesWord<'a>(pub &'a [u8]);

impl fmt::Display for BytesWord<'_> {
    ghost output = { λ word. Some (bytes_word word.0.now) };

    fn fmt<W: fmt::Write>(&self, f: &mut fmt::Formatter<W>) -> fmt::Result {
        if self.0.is_empty() {
            return f.write_str("-");
        }
        write!(f, "{}", Hex(self.0))
    }
}

// The line for a world.
fn write_world(text: &mut String, schedule: &Schedule) -> Result<(), AllocError>
    ensures text { OnOk result (string_bytes text.new ≡ string_bytes text.old ++ line_with (world_words schedule.now)) }
    ensures world { IsWorldLine schedule.now.limits.most (non_zero_u16_get schedule.now.capacity)
        (number_of schedule.now.window) (world_words schedule.now) }
{
    let most = schedule.limits.max_packet();
    let room = schedule.capacity.get();
    match schedule.window {
        Some(window) => writeln!(text, "world {most} {room} {}", window.get()),
        None => writeln!(text, "world {most} {room}"),
    }
}

// Bytes as they are written.
fn word_of(bytes: &[u8]) -> BytesWord<'_>
    ensures value { result.0.now ≡ bytes.now }
    ensures bytes { IsBytes bytes.now }
{
    BytesWord(bytes)
}

// The line of a publication.
fn write_publication(text: &mut String, side: Side, message: &Message) -> Result<(), AllocError>
    ensures text { OnOk result (string_bytes text.new ≡ string_bytes text.old
        ++ step_line (steps.Event (Event.Publish side message.now))) }
    ensures bounds { KeepsBounds (steps.Event (Event.Publish side message.now)) }
{
    let command = if message.retain { "pubr" } else { "pub" };
    let side = SideWord(side);
    let qos = message.qos.number();
    let topic = Escaped(message.topic.as_str());
    let payload = word_of(message.payload.as_slice());
    writeln!(text, "{command} {side} {qos} {topic} {payload}")
}

// The line of a delivery.
fn write_delivery(text: &mut String, side: Side, count: usize) -> Result<(), AllocError>
    ensures text { OnOk result (string_bytes text.new ≡ string_bytes text.old
        ++ step_line (steps.Event (Event.Deliver side count))) }
    ensures bounds { KeepsBounds (steps.Event (Event.Deliver side count)) }
{
    writeln!(text, "to {} {count}", SideWord(side))
}

// The line of a tick.
fn write_tick(text: &mut String, side: Side, more: u64) -> Result<(), AllocError>
    ensures text { OnOk result (string_bytes text.new ≡ string_bytes text.old
        ++ step_line (steps.Event (Event.Tick side more))) }
    ensures bounds { KeepsBounds (steps.Event (Event.Tick side more)) }
{
    writeln!(text, "tick {} {more}", SideWord(side))
}

// The line of a step.
fn write_step(text: &mut String, step: &Step) -> Result<(), AllocError>
    ensures text { OnOk result (string_bytes text.new ≡ string_bytes text.old ++ step_line step.now) }
    ensures bounds { KeepsBounds step.now }
{
    match step {
        Step::Event(Event::Publish(side, message)) => write_publication(text, *side, message),
        Step::Event(Event::Deliver(side, count)) => write_delivery(text, *side, *count),
        Step::Event(Event::Drop(side)) => writeln!(text, "drop {}", SideWord(*side)),
        Step::Event(Event::Restart) => writeln!(text, "restart"),
        Step::Event(Event::Leave) => writeln!(text, "leave"),
        Step::Event(Event::Open) => writeln!(text, "open"),
        Step::Event(Event::Tick(side, more)) => write_tick(text, *side, *more),
        Step::Settle => writeln!(text, "settle"),
    }
}

/// Writes a schedule: a line for the world and a line for each step. Numbers have no leading zeros,
/// and a delivery always has one. The text is read back as the same schedule (`schedule_laws`).
pub fn write_schedule(alloc: Global, schedule: &Schedule) -> Result<String, AllocError>
    ensures text { IfOk result (λ text. string_bytes text ≡ schedule_text schedule.now) }
    ensures reads { IfOk result (λ text. IsSchedule (lines_of (string_bytes text)) schedule.now) }
{
    let mut text = String::new(alloc);
    write_world(&mut text, schedule)?;
    for step in &schedule.steps {
        write_step(&mut text, step)?;
    }
    Ok(text)
}
