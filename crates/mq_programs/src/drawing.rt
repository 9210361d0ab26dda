//! The command `replay --svg`.

ghost use Rattle.std.specs.Prelude.{◌≡◌, Some, false, IfOk, IfSome};
ghost use Rattle.mq_programs.specs.Prelude.{Prints, IsReplayDone, IsPicture, IsSchedule, lines_of, IsDrawRun, IsImageSaved, IsSaved, input_of};

use mq_cli::{Draw, Failure, Job, Source, perform, perform_opened};
use mq_client::{Disk, SaveError, SessionFile, SystemDisk};
use mq_picture::{PictureFault, write_picture};
use mq_schedule::{Schedule, ScheduleFault, read_schedule};
use std::alloc::Global;
use std::fs::File;
use std::io;
use std::io::{ErrorKind, Read, Write};
use std::rt::Files;

// The whole input, which is a named file or the standard input.
fn read_source<R: Files, I: Read>(
    rt: &R,
    alloc: Global,
    source: Source<'_>,
    input: &mut I,
) -> io::Result<Vec<u8>>
    ensures { IfOk result (λ bytes. IfSome (input_of source.entry (I.remaining input.old))
        (λ all. bytes.items ≡ all)) }
{
    let mut bytes = Vec::new(alloc);
    match source {
        Source::File(name) => File::open(rt, name)?.read_to_end(&mut bytes)?,
        Source::Standard => input.read_to_end(&mut bytes)?,
    };
    Ok(bytes)
}

// Replays the schedule of a file with these bytes.
fn replay_bytes<W: Write>(
    alloc: Global,
    source: Source<'_>,
    bytes: &[u8],
    output: &mut W,
) -> io::Result<u8>
    ensures { IfOk result (λ status. Prints (W.contents output.old) (W.contents output.new)
        (IsReplayDone (Some bytes.now) false status)) }
{
    let mut input = bytes;
    perform(alloc, &Job::Replay { source }, &mut input, output)
}

// The schedule of a file with these bytes, if it is valid.
fn schedule_of(alloc: Global, bytes: &[u8]) -> Result<Option<Schedule>, Failure>
    ensures { IfOk result (λ found. IfSome found (IsSchedule (lines_of bytes.now))) }
{
    let Ok(text) = str::from_utf8(bytes) else {
        return Ok(None);
    };
    match read_schedule(alloc, text) {
        Ok(schedule) => Ok(Some(schedule)),
        Err(ScheduleFault::Line(_)) => Ok(None),
        Err(ScheduleFault::Memory) => Err(Failure::Memory),
    }
}

// The image of a schedule.
fn image_of(alloc: Global, schedule: &Schedule) -> Result<Vec<u8>, Failure>
    ensures { IfOk result (λ image. IsPicture schedule.now image.items) }
{
    let mut image = Vec::new(alloc);
    match write_picture(alloc, schedule, &mut image) {
        Ok(()) => Ok(image),
        Err(PictureFault::Io(_) | PictureFault::Memory) => Err(Failure::Memory),
    }
}

// Draws a schedule and replaces a file by the image. Returns the status.
fn draw_schedule<D: Disk, W: Write>(
    alloc: Global,
    schedule: &Schedule,
    file: &mut SessionFile<'_, D>,
    output: &mut W,
) -> Result<u8, Failure>
    ensures { IfOk result (λ status. Prints (W.contents output.old) (W.contents output.new)
        (IsImageSaved schedule.now file.old file.new status)) }
{
    let image = image_of(alloc, schedule)?;
    match file.save(image) {
        Ok(()) => Ok(0),
        Err(SaveError::Memory) => Err(Failure::Memory),
        Err(SaveError::Unwritten(_)) => {
            writeln!(output, "picture not written")?;
            Ok(1)
        }
    }
}

// Draws the schedule of a file with these bytes. Returns the status.
fn draw_bytes<R: Files, W: Write>(
    rt: &R,
    alloc: Global,
    bytes: &[u8],
    name: &str,
    output: &mut W,
) -> Result<u8, Failure>
    ensures { IfOk result (λ status.
        Prints (W.contents output.old) (W.contents output.new) (IsSaved status)) }
{
    let Some(schedule) = schedule_of(alloc, bytes)? else {
        return Ok(0);
    };
    let mut file = SessionFile::new(alloc, SystemDisk(rt), name);
    draw_schedule(alloc, &schedule, &mut file, output)
}

/// Runs `replay --svg`: prints the replay like `replay`, and then replaces the file of the image if
/// the status is 0. After an error an earlier file is still there. Returns the status.
pub fn run_draw<R: Files, I: Read, W: Write>(
    rt: &R,
    alloc: Global,
    draw: Draw<'_>,
    input: &mut I,
    output: &mut W,
) -> Result<u8, Failure>
    ensures { IfOk result (λ status. Prints (W.contents output.old) (W.contents output.new)
        (IsDrawRun draw.entry.source (I.remaining input.old) status)) }
{
    let bytes = match read_source(rt, alloc, draw.source, input) {
        Ok(bytes) => bytes,
        Err(error) if error.kind() == ErrorKind::OutOfMemory => return Err(Failure::Memory),
        Err(error) => {
            let source = Source::File(draw.image);
            let job = Job::Replay { source };
            return Ok(perform_opened::<R, W>(alloc, &job, Err(error), output)?);
        }
    };
    let status = replay_bytes(alloc, draw.source, bytes.as_slice(), output)?;
    if status != 0 {
        return Ok(status);
    }
    output.flush()?;
    draw_bytes(rt, alloc, bytes.as_slice(), draw.image, output)
}
