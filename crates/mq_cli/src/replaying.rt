//! Schedules that are replayed from a file.

ghost use Rattle.std.specs.Prelude.{◌≡◌, IfOk, OnOk};
ghost use Rattle.mq_cli.specs.Prelude.{Appends, Prints, bad_line, IsReplayDone, IsTextReplayed};

use crate::front::{Stop, read_whole};
use crate::input::JobInput;
use crate::output::{BAD_INPUT, DONE, file_not_read, out_of_memory};
use mq_replay::{ReplayFault, replay};
use mq_schedule::{ScheduleFault, read_schedule};
use std::alloc::Global;
use std::io;
use std::io::Write;

// Writes which line of a schedule is of no kind.
fn write_bad_line<W: Write>(output: &mut W, line: usize) -> io::Result<u8>
    ensures status { IfOk result (λ status. status ≡ BAD_INPUT) }
    ensures printed { OnOk result
        (Appends (W.contents output.old) (W.contents output.new) (bad_line line)) }
{
    writeln!(output, "line {line}: not an event")?;
    Ok(BAD_INPUT)
}

// Replays the schedule that a text is.
fn replay_text<W: Write>(alloc: Global, text: &str, output: &mut W) -> io::Result<u8>
    ensures { IfOk result (λ status. Prints (W.contents output.old) (W.contents output.new)
        (IsTextReplayed text.now status)) }
{
    let schedule = match read_schedule(alloc, text) {
        Ok(schedule) => schedule,
        Err(ScheduleFault::Line(line)) => return write_bad_line(output, line),
        Err(ScheduleFault::Memory) => return out_of_memory(output),
    };
    match replay(alloc, &schedule, output) {
        Ok(()) => Ok(DONE),
        Err(ReplayFault::Io(error)) => Err(error),
        Err(ReplayFault::Memory) => out_of_memory(output),
    }
}

// Replays the schedule that an input has.
pub(crate) fn replay_file<R: JobInput, W: Write>(
    alloc: Global,
    input: &mut R,
    output: &mut W,
) -> io::Result<u8>
    ensures { IfOk result (λ status. Prints (W.contents output.old) (W.contents output.new)
        (IsReplayDone (R.remaining input.old) (R.may_fail input.old) status)) }
{
    let bytes = match read_whole(alloc, input) {
        Ok(bytes) => bytes,
        Err(Stop::Io(_)) => return file_not_read(output),
        Err(Stop::Memory) => return out_of_memory(output),
    };
    match str::from_utf8(bytes.as_slice()) {
        Ok(text) => replay_text(alloc, text, output),
        Err(_) => file_not_read(output),
    }
}
