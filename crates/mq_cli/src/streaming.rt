//! The packets of an input, printed as they come.

ghost use Rattle.std.specs.Prelude.{◌≡◌, List, IfErr, IfOk, OnOk};
ghost use Rattle.mq_cli.specs.Prelude.{flat_map, Appends, Packet, Reading, Prints, end_lines, packet_line, IsStreamShown, end_of_rest, end_status, OnMemory};

use crate::front::{Stop, fill, is_due, take_front};
use crate::input::JobInput;
use crate::output::{file_not_read, out_of_memory, widest, write_end, write_fault, write_lines};
use crate::stream::StreamEnd;
use mq_decode::{DecodeFault, Limits};
use mq_end::ByteQueue;
use std::alloc::Global;
use std::io;
use std::io::Write;

// Prints the complete packets at the front of the bytes and removes them. Returns the fault of the
// rest, or `None` if it is an incomplete packet.
fn print_front<W: Write>(
    alloc: Global,
    limits: Limits,
    bytes: &mut ByteQueue,
    output: &mut W,
) -> Result<Option<DecodeFault>, Stop>
    ensures ok { IfOk result (λ fault. (packets : List Packet)
        × Reading limits bytes.old packets bytes.new fault
        × Appends (W.contents output.old) (W.contents output.new) (flat_map packet_line packets)) }
    ensures memory { IfErr result (λ stop. OnMemory stop (output.new ≡ output.old)) }
{
    let (packets, fault) = take_front(alloc, limits, bytes)?;
    write_lines(output, packets.as_slice())?;
    Ok(fault)
}

// Writes the end if this many bytes follow the packets.
fn write_rest<W: Write>(output: &mut W, held: usize) -> io::Result<u8>
    ensures status { IfOk result (λ status. status ≡ end_status (end_of_rest held)) }
    ensures printed { OnOk result (Appends (W.contents output.old) (W.contents output.new)
        (end_lines (end_of_rest held))) }
{
    if held == 0 {
        return write_end(output, StreamEnd::Whole);
    }
    write_end(output, StreamEnd::Held(held))
}

/// Prints the packets of an input as they come, and how its bytes end. It holds the bytes of one
/// packet at a time, and those that were read with its last ones.
pub(crate) fn show_stream<R: JobInput, W: Write>(
    alloc: Global,
    input: &mut R,
    lenient: bool,
    output: &mut W,
) -> io::Result<u8>
    ensures { IfOk result (λ status. Prints (W.contents output.old) (W.contents output.new)
        (IsStreamShown lenient (R.remaining input.old) (R.may_fail input.old) status)) }
{
    let limits = widest(lenient);
    let mut bytes = ByteQueue::new(alloc);
    let mut total: usize = 0;
    loop {
        let count = match fill(input, &mut bytes) {
            Ok(count) => count,
            Err(Stop::Io(_)) => return file_not_read(output),
            Err(Stop::Memory) => return out_of_memory(output),
        };
        total = match total.checked_add(count) {
            Some(sum) => sum,
            None => return file_not_read(output),
        };
        if count > 0 && !is_due(limits, bytes.as_slice()) {
            continue;
        }
        match print_front(alloc, limits, &mut bytes, output) {
            Ok(Some(fault)) => return write_fault(output, fault, (total - bytes.len()) as u64),
            Ok(None) if count == 0 => return write_rest(output, bytes.len()),
            Ok(None) => {}
            Err(Stop::Io(error)) => return Err(error),
            Err(Stop::Memory) => return out_of_memory(output),
        }
    }
}
