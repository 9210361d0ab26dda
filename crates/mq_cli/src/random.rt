//! Schedules that are generated, printed as they are made.

ghost use Rattle.std.specs.Prelude.{◌≡◌, ◌∷◌, [], ℕ, codes, decimal, IfOk, OnOk};
ghost use Rattle.mq_cli.specs.Prelude.{flat_map, Appends, Prints, made_event, made_qos, made_side, made_up, line_with, step_line, event_line, event_of, IsRandomDone};
ghost use Rattle.mq_schedule.specs.declared.schedule.Step.TheVariants as steps;

use crate::output::DONE;
use mq_schedule::{BytesWord, SideWord, schedule_laws};
use mq_topic::Qos;
use mq_world::Side;
use rand_core::utils::NextWord;
use rand_pcg::Pcg32;
use std::io;
use std::io::Write;

/// A generated event. The number of the step determines the message of a publication.
#[derive(Clone, Copy)]
pub(crate) enum Made {
    /// A message is published.
    Publish(Side, Qos),
    /// Bytes arrive at a side.
    Deliver(Side, u32),
    /// The connection of a side is lost.
    Drop(Side),
    /// The user of the client leaves.
    Leave,
    /// A connection is opened.
    Open,
    /// The clock of a side continues.
    Tick(Side, u32),
}

// The side of a word.
fn made_side(word: u32) -> Side
    ensures { result ≡ made_side word }
{
    if word / 8 % 2 == 0 {
        Side::Client
    } else {
        Side::Server
    }
}

// The quality of service of a number.
fn made_qos(value: u32) -> Qos
    ensures { result ≡ made_qos value }
{
    match value % 3 {
        0 => Qos::Q0,
        1 => Qos::Q1,
        _ => Qos::Q2,
    }
}

// The event of a word.
fn made_event(word: u32, number: u32) -> Made
    ensures { event_of result number ≡ made_event word number }
{
    let _ = number;
    let side = made_side(word);
    let value = word / 16;
    match word % 8 {
        0 | 1 => Made::Publish(side, made_qos(value)),
        2..=4 => Made::Deliver(side, value % 32),
        5 if value % 4 == 0 => Made::Leave,
        5 => Made::Drop(side),
        6 => Made::Open,
        _ => Made::Tick(side, value % 1000),
    }
}

// Writes the line of a publication, whose payload is its number in four bytes.
fn write_publication<W: Write>(output: &mut W, side: Side, qos: Qos, number: u32) -> io::Result<()>
    ensures { OnOk result (Appends (W.contents output.old) (W.contents output.new)
        (event_line (Made.Publish side qos) number)) }
{
    let payload = number.to_be_bytes();
    let (side, qos, payload) = (SideWord(side), qos.number(), BytesWord(&payload));
    writeln!(output, "pub {side} {qos} t {payload}")
}

// Writes the line of an event.
fn write_event<W: Write>(output: &mut W, event: Made, number: u32) -> io::Result<()>
    ensures { OnOk result (Appends (W.contents output.old) (W.contents output.new)
        (event_line event number)) }
{
    match event {
        Made::Publish(side, qos) => write_publication(output, side, qos, number),
        Made::Deliver(side, count) => writeln!(output, "to {} {count}", SideWord(side)),
        Made::Drop(side) => writeln!(output, "drop {}", SideWord(side)),
        Made::Leave => writeln!(output, "leave"),
        Made::Open => writeln!(output, "open"),
        Made::Tick(side, more) => writeln!(output, "tick {} {more}", SideWord(side)),
    }
}

// Writes the lines of events that are generated, each as it is made.
fn write_events<W: Write>(output: &mut W, start: u64, count: u32) -> io::Result<()>
    ensures { OnOk result (Appends (W.contents output.old) (W.contents output.new)
        (flat_map (λ event. step_line (steps.Event event)) (made_up start count))) }
{
    let mut generator = Pcg32::new(start, 1);
    for number in 0..count {
        let word = generator.next_word();
        write_event(output, made_event(word, number), number)?;
    }
    Ok(())
}

// Writes the line for the world.
fn write_world<W: Write>(output: &mut W, most: u32, room: u16) -> io::Result<()>
    ensures { OnOk result (Appends (W.contents output.old) (W.contents output.new)
        (line_with (codes "world" ∷ decimal most ∷ decimal room ∷ []))) }
{
    writeln!(output, "world {most} {room}")
}

/// Writes a generated schedule, line by line.
pub(crate) fn write_random<W: Write>(start: u64, count: u32, output: &mut W) -> io::Result<u8>
    ensures { IfOk result (λ status. Prints (W.contents output.old) (W.contents output.new)
        (IsRandomDone start count status)) }
{
    schedule_laws();
    write_world(output, 65_536, 4)?;
    write_events(output, start, count)?;
    writeln!(output, "settle")?;
    Ok(DONE)
}
