//! Jobs done over an input and a writer.

ghost use Rattle.std.specs.Prelude.{◌≡◌, ℕ, List, Some, None, true, IfOk, IsErr, OnOk};
ghost use Rattle.mq_cli.specs.Prelude.{Bor, flat_map, Appends, is_match, Prints, job_source, bad_hex, count_end_lines, count_lines, end_lines, fault_line, file_not_read, match_line, no_memory, packet_line, packets_line, shown_lines, topic_line, IsCheckDone, IsDone, IsMatchDone, IsShowDone, count_status, end_status, match_status, widest};

use crate::count::{CountEnd, CountFault, PacketCount, count_packets};
use crate::input::{Fallible, JobInput};
use crate::jobs::{Job, Source};
use crate::random::write_random;
use crate::replaying::replay_file;
use crate::show::{ShowFault, shown};
use crate::stream::{Shown, StreamEnd};
use crate::streaming::show_stream;
use mq_decode::{DecodeFault, Limits};
use mq_packet::Packet;
use mq_topic::{TopicFault, TopicFilter, TopicName, matches};
use std::alloc::Global;
use std::fs::File;
use std::io;
use std::io::{BufReader, Write};
use std::rt::Files;

/// Nothing is wrong.
pub(crate) const DONE: u8 = 0;
/// A fault, an incomplete packet, or the result `no`.
const FAULT: u8 = 1;
/// The digits or the file can't be read, or a text is not a filter or name.
pub(crate) const BAD_INPUT: u8 = 2;
/// Memory ran out.
const NO_MEMORY: u8 = 3;

/// The greatest remaining length that there is (2.2.3).
const MAX_PACKET: u32 = 268_435_455;

pub(crate) fn out_of_memory<W: Write>(output: &mut W) -> io::Result<u8>
    ensures status { IfOk result (λ status. status ≡ NO_MEMORY) }
    ensures printed { OnOk result
        (Appends (W.contents output.old) (W.contents output.new) no_memory) }
{
    writeln!(output, "out of memory")?;
    Ok(NO_MEMORY)
}

fn bad_hex<W: Write>(output: &mut W) -> io::Result<u8>
    ensures status { IfOk result (λ status. status ≡ BAD_INPUT) }
    ensures printed { OnOk result
        (Appends (W.contents output.old) (W.contents output.new) bad_hex) }
{
    writeln!(output, "bad hex")?;
    Ok(BAD_INPUT)
}

// Writes the fault of a packet and the place of the packet.
pub(crate) fn write_fault<W: Write>(
    output: &mut W,
    fault: DecodeFault,
    start: u64,
) -> io::Result<u8>
    ensures status { IfOk result (λ status. status ≡ FAULT) }
    ensures printed { OnOk result
        (Appends (W.contents output.old) (W.contents output.new) (fault_line fault start)) }
{
    let kind = fault.kind;
    let place = fault.place;
    writeln!(output, "fault {kind} at {place} in packet at {start}")?;
    Ok(FAULT)
}

// Writes how the bytes end.
pub(crate) fn write_end<W: Write>(output: &mut W, end: StreamEnd) -> io::Result<u8>
    ensures status { IfOk result (λ status. status ≡ end_status end) }
    ensures printed { OnOk result
        (Appends (W.contents output.old) (W.contents output.new) (end_lines end)) }
{
    match end {
        StreamEnd::Whole => Ok(DONE),
        StreamEnd::Held(n) => {
            writeln!(output, "held {n}")?;
            Ok(FAULT)
        }
        StreamEnd::Fault { fault, start } => write_fault(output, fault, start as u64),
    }
}

// Writes packets, each on a line.
pub(crate) fn write_lines<W: Write>(output: &mut W, packets: &[Packet]) -> io::Result<()>
    ensures { OnOk result (Appends (W.contents output.old) (W.contents output.new)
        (flat_map packet_line packets.now)) }
{
    for packet in packets {
        writeln!(output, "{packet}")?;
    }
    Ok(())
}

// Writes packets, and how they end.
fn write_shown<W: Write>(output: &mut W, shown: &Shown) -> io::Result<u8>
    ensures status { IfOk result (λ status. status ≡ end_status shown.now.end) }
    ensures printed { OnOk result (Appends (W.contents output.old) (W.contents output.new)
        (shown_lines shown.now.packets.items shown.now.end)) }
{
    write_lines(output, shown.packets.as_slice())?;
    write_end(output, shown.end)
}

// The limit of the standard (2.2.3).
pub(crate) fn widest(lenient: bool) -> Limits
    ensures { result ≡ widest lenient }
{
    if lenient {
        return Limits::lenient(MAX_PACKET).unwrap();
    }
    Limits::new(MAX_PACKET).unwrap()
}

fn show<W: Write>(alloc: Global, hex: &str, lenient: bool, output: &mut W) -> io::Result<u8>
    ensures { IfOk result (λ status. Prints (W.contents output.old) (W.contents output.new)
        (IsShowDone lenient hex.now status)) }
{
    match shown(alloc, hex, widest(lenient)) {
        Ok(shown) => write_shown(output, &shown),
        Err(ShowFault::BadHex) => bad_hex(output),
        Err(ShowFault::Memory) => out_of_memory(output),
    }
}

fn write_packets<W: Write>(output: &mut W, packets: u64) -> io::Result<()>
    ensures { OnOk result
        (Appends (W.contents output.old) (W.contents output.new) (packets_line packets)) }
{
    writeln!(output, "packets {packets}")
}

// Writes how the packets of a file end.
fn write_count_end<W: Write>(output: &mut W, end: CountEnd) -> io::Result<u8>
    ensures status { IfOk result (λ status. status ≡ count_status end) }
    ensures printed { OnOk result
        (Appends (W.contents output.old) (W.contents output.new) (count_end_lines end)) }
{
    match end {
        CountEnd::Whole => Ok(DONE),
        CountEnd::Cut => {
            writeln!(output, "cut")?;
            Ok(FAULT)
        }
        CountEnd::Fault { fault, start } => write_fault(output, fault, start),
    }
}

// Writes how many packets a file has, and how they end.
fn write_count<W: Write>(output: &mut W, count: PacketCount) -> io::Result<u8>
    ensures status { IfOk result (λ status. status ≡ count_status count.end) }
    ensures printed { OnOk result
        (Appends (W.contents output.old) (W.contents output.new) (count_lines count)) }
{
    write_packets(output, count.packets)?;
    write_count_end(output, count.end)
}

/// Writes that a file can't be read, and returns the status for that.
pub(crate) fn file_not_read<W: Write>(output: &mut W) -> io::Result<u8>
    ensures status { IfOk result (λ status. status ≡ BAD_INPUT) }
    ensures printed { OnOk result
        (Appends (W.contents output.old) (W.contents output.new) file_not_read) }
{
    writeln!(output, "file not read")?;
    Ok(BAD_INPUT)
}

fn check<R: JobInput, W: Write>(
    alloc: Global,
    input: &mut R,
    lenient: bool,
    output: &mut W,
) -> io::Result<u8>
    ensures { IfOk result (λ status. Prints (W.contents output.old) (W.contents output.new)
        (IsCheckDone lenient (R.remaining input.old) (R.may_fail input.old) status)) }
{
    match count_packets(alloc, input, widest(lenient)) {
        Ok(count) => write_count(output, count),
        Err(CountFault::Memory) => out_of_memory(output),
        Err(CountFault::Io(_) | CountFault::TooLong) => file_not_read(output),
    }
}

// Writes that a text is not of this kind: no filter, or no name.
fn write_topic_fault<W: Write>(output: &mut W, kind: &str, fault: TopicFault) -> io::Result<u8>
    ensures status { IfOk result (λ status. status ≡ BAD_INPUT) }
    ensures printed { OnOk result
        (Appends (W.contents output.old) (W.contents output.new) (topic_line kind.now fault)) }
{
    let code = fault.code();
    writeln!(output, "{kind} {code}")?;
    Ok(BAD_INPUT)
}

// Writes whether a filter matches a name.
fn write_match<W: Write>(output: &mut W, filter: &TopicFilter, name: &TopicName) -> io::Result<u8>
    ensures status { IfOk result
        (λ status. status ≡ match_status (is_match filter.now name.now)) }
    ensures printed { OnOk result
        (Appends (W.contents output.old) (W.contents output.new)
        (match_line (is_match filter.now name.now))) }
{
    if matches(filter, name) {
        writeln!(output, "yes")?;
        return Ok(DONE);
    }
    writeln!(output, "no")?;
    Ok(FAULT)
}

fn match_texts<W: Write>(alloc: Global, filter: &str, name: &str, output: &mut W) -> io::Result<u8>
    ensures { IfOk result (λ status. Prints (W.contents output.old) (W.contents output.new)
        (IsMatchDone filter.now name.now status)) }
{
    let filter = match TopicFilter::parse(alloc, filter) {
        Ok(filter) => filter,
        Err(TopicFault::Memory) => return out_of_memory(output),
        Err(fault) => return write_topic_fault(output, "filter", fault),
    };
    let name = match TopicName::parse(alloc, name) {
        Ok(name) => name,
        Err(TopicFault::Memory) => return out_of_memory(output),
        Err(fault) => return write_topic_fault(output, "name", fault),
    };
    write_match(output, &filter, &name)
}

/// Runs a job: writes its output line by line and returns the exit status. `input` must have the
/// bytes of the job's source, if it has one. Returns the error of a write that failed. Does not
/// flush the writer.
pub fn perform<R: JobInput, W: Write>(
    alloc: Global,
    job: &Job<'_>,
    input: &mut R,
    output: &mut W,
) -> io::Result<u8>
    ensures { IfOk result (λ status. Prints (W.contents output.old) (W.contents output.new)
        (IsDone job.now (R.remaining input.old) (R.may_fail input.old) status)) }
{
    match job {
        Job::Show { hex, lenient } => show(alloc, hex, *lenient, output),
        Job::ShowFrom { lenient, .. } => show_stream(alloc, input, *lenient, output),
        Job::Check { lenient, .. } => check(alloc, input, *lenient, output),
        Job::Match { filter, name } => match_texts(alloc, filter, name, output),
        Job::Replay { .. } => replay_file(alloc, input, output),
        Job::Random { start, steps } => write_random(*start, *steps, output),
    }
}

/// Runs a job over its file, which was opened with this result. If it could not be opened, writes
/// that it can't be read. Errors are those of `perform`, and a failed allocation for a buffer.
pub fn perform_opened<F: Files, W: Write>(
    alloc: Global,
    job: &Job<'_>,
    opened: io::Result<F::File>,
    output: &mut W,
) -> io::Result<u8>
    requires { (name : Bor (List ℕ)) × (job_source job.now ≡ Some (Source.File name)) }
    ensures done { IfOk result (λ status. Prints (W.contents output.old) (W.contents output.new)
        (IsDone job.now None true status)) }
    ensures status { IsErr opened → IfOk result (λ status. status ≡ BAD_INPUT) }
    ensures unread { IsErr opened → OnOk result
        (Appends (W.contents output.old) (W.contents output.new) file_not_read) }
{
    match opened {
        Ok(file) => {
            let mut input = Fallible(BufReader::new(alloc, file)?);
            perform(alloc, job, &mut input, output)
        }
        Err(_) => file_not_read(output),
    }
}

/// Opens the file with this name, and runs its job with `perform_opened`.
pub fn perform_file<F: Files, W: Write>(
    files: &F,
    alloc: Global,
    job: &Job<'_>,
    name: &str,
    output: &mut W,
) -> io::Result<u8>
    requires { job_source job.now ≡ Some (Source.File name) }
    ensures { IfOk result (λ status. Prints (W.contents output.old) (W.contents output.new)
        (IsDone job.now None true status)) }
{
    perform_opened::<F, W>(alloc, job, File::open(files, name), output)
}
