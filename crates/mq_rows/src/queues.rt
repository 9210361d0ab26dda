//! Queues of bytes: appending, removing, and the pending bytes.

ghost use Rattle.std.specs.Prelude.{◌≤◌, length, IfOk};

use crate::fields::bytes_of;
use crate::messages::{add_word, message, packet_of};
use crate::words::Words;
use crate::wrong::Wrong;
use mq_end::ByteQueue;
use mq_topic::Qos;
use std::alloc::Global;

// `append BYTES`
fn append(alloc: Global, queue: &mut ByteQueue, words: &mut Words<'_>) -> Result<(), Wrong> {
    let bytes = bytes_of(alloc, words)?;
    Ok(queue.append(bytes.as_slice())?)
}

// `packet BYTES`: the packet of these.
fn append_packet(alloc: Global, queue: &mut ByteQueue, words: &mut Words<'_>) -> Result<(), Wrong> {
    let packet = packet_of(alloc, words)?;
    Ok(queue.append_packet(&packet)?)
}

// `publish BYTES`: the PUBLISH of a message to `t`, of quality of service 0.
fn append_publish(
    alloc: Global,
    queue: &mut ByteQueue,
    words: &mut Words<'_>,
) -> Result<(), Wrong> {
    let message = message(alloc, "t", Qos::Q0, bytes_of(alloc, words)?)?;
    if message.qos != Qos::Q0 {
        return Err(Wrong::Words);
    }
    Ok(queue.append_publish(&message, None)?)
}

// A number of pending bytes.
fn waiting(queue: &ByteQueue, words: &mut Words<'_>) -> Result<usize, Wrong>
    ensures { IfOk result (λ count. count ≤ length queue.now) }
{
    let count: usize = words.number()?;
    if queue.len() < count {
        return Err(Wrong::Words);
    }
    Ok(count)
}

// `give`: all bytes are moved out, and told.
fn give(queue: &mut ByteQueue, told: &mut String) -> Result<(), Wrong> {
    let bytes = queue.take_bytes()?;
    Ok(add_word(told, bytes.as_slice())?)
}

pub(crate) fn tell(
    alloc: Global,
    queue: &mut ByteQueue,
    words: &mut Words<'_>,
    told: &mut String,
) -> Result<(), Wrong> {
    match words.word()? {
        "append" => append(alloc, queue, words)?,
        "packet" => append_packet(alloc, queue, words)?,
        "publish" => append_publish(alloc, queue, words)?,
        "take" => queue.take(waiting(queue, words)?),
        "truncate" => queue.truncate(waiting(queue, words)?),
        "clear" => queue.clear(),
        "give" => give(queue, told)?,
        _ => return Err(Wrong::Words),
    }
    Ok(())
}

/// Adds the pending bytes, their number, and whether the queue is empty.
pub(crate) fn see(queue: &ByteQueue, seen: &mut String) -> Result<(), Wrong> {
    add_word(seen, queue.as_slice())?;
    Ok(write!(seen, " {} {}", queue.len(), queue.is_empty())?)
}
