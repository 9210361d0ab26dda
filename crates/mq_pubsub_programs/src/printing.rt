//! The lines of `mqtt sub`.

ghost use Rattle.std.specs.Prelude.{OnErr, OnOk};
ghost use Rattle.mq_pubsub_programs.specs.Prelude.{Appends, AppendsFront, line_text};

use mq_format::{Envelope, Moment, Style};
use mq_packet::{Message, PacketId, Request};
use mq_pubsub::{Notice, Printer, RunError};
use mq_stream::{OnInterrupt, write_bytes};
use std::alloc::Global;
use std::io;
use std::io::Write;
use std::time::Clock;

/// The last second before the year 10000, since 1970.
const LAST_SECOND: u64 = 253_402_300_799;

/// The printer of messages.
#[derive(Drop)]
pub(crate) struct Lines<'a, R> {
    pub(crate) rt: &'a R,
    pub(crate) alloc: Global,
    pub(crate) style: &'a Style,
    pub(crate) has_line_end: bool,
    pub(crate) requests: &'a [Request],
    pub(crate) is_quiet: bool,
    /// The number of messages that were printed.
    pub(crate) printed: u64,
}

// The time now, in UTC.
fn moment_of<R: Clock>(rt: &R) -> Moment {
    match rt.since_1970() {
        Ok(time) => Moment::new(time.as_secs().min(LAST_SECOND), time.subsec_nanos()),
        Err(_) => Moment::new(0, 0),
    }
}

// Writes a line, and flushes.
#[tactic(auto, using(crate::proofs::Lines::front_all))]
fn write_line<W: Write>(output: &mut W, line: &[u8]) -> Result<(), RunError>
    ensures ok { OnOk result (Appends (W.contents output.old) (W.contents output.new) line.now) }
    ensures err { OnErr result
        (AppendsFront (W.contents output.old) (W.contents output.new) line.now) }
{
    if write_bytes(output, line, &mut OnInterrupt).is_err() {
        return Err(RunError::Output);
    }
    if output.flush().is_err() {
        return Err(RunError::Output);
    }
    Ok(())
}

// Writes the line of a message, and flushes.
#[tactic(auto, using(crate::proofs::Lines::front_none))]
fn write_message<W: Write>(
    output: &mut W,
    alloc: Global,
    style: &Style,
    has_line_end: bool,
    envelope: &Envelope<'_>,
) -> Result<(), RunError>
    ensures ok { OnOk result (Appends (W.contents output.old) (W.contents output.new)
        (line_text style.now has_line_end envelope.now)) }
    ensures err { OnErr result (AppendsFront (W.contents output.old) (W.contents output.new)
        (line_text style.now has_line_end envelope.now)) }
{
    let line = style.line(alloc, envelope, has_line_end)?;
    write_line(output, line.as_slice())
}

impl<R: Eprint> Lines<'_, R> {
    // Says that the broker refused a subscription, if there is one at this place.
    fn tell_refusal(&self, index: usize) {
        let Some(request) = self.requests.get(index) else {
            return;
        };
        let filter = request.filter.as_str();
        let _ = eprintln!(self.rt;
            "mqtt sub: the broker refused the subscription to '{filter}'; check the rights of the user."
        );
    }

    // Says that the broker lost the session.
    fn tell_loss(&self) {
        let _ = eprintln!(self.rt;
            "mqtt sub: the broker lost the session, so messages may be missing; subscribing anew."
        );
    }
}

impl<R: Clock + Print + Eprint> Printer for Lines<'_, R> {
    fn print(&mut self, message: &Message, id: Option<PacketId>) -> Result<(), RunError> {
        let envelope = Envelope {
            message,
            id,
            moment: moment_of(self.rt),
        };
        let output = &mut io::writer(self.rt);
        write_message(output, self.alloc, self.style, self.has_line_end, &envelope)?;
        self.printed = self.printed.saturating_add(1);
        Ok(())
    }

    fn notice(&mut self, notice: Notice) {
        if self.is_quiet {
            return;
        }
        match notice {
            Notice::Refused(index) => self.tell_refusal(index),
            Notice::SessionLost => self.tell_loss(),
        }
    }
}
