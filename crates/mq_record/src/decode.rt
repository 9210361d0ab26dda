//! Reading events.

ghost use Rattle.std.specs.Prelude.{◌≡◌, ◌≤◌, length, IfOk, IfErr};
ghost use Rattle.mq_record.specs.Reading.{Fails, IsEntry, Reads, read_event, read_tagged};

use crate::fault::RecordFault;
use crate::numbers::{conn_at_front, eight_at_front, four_at};
use bytes::Bytes;
use mq_route::HubEvent;
use std::alloc::Global;

/// Reads the event at the front of the bytes. Returns it and its size in bytes.
///
/// Errors:
///
/// - `Cut` if the bytes are part of the encoding of an event.
/// - `Tag` if they begin with a byte that is no tag.
/// - `Memory` if an allocation failed. The bytes begin with an event then.
pub fn decode_event(alloc: Global, bytes: &[u8]) -> Result<(HubEvent, usize), RecordFault>
    ensures { Reads result (read_event bytes.now) }
{
    match bytes {
        [] => Err(RecordFault::Cut),
        [tag, rest @ ..] => decode_tagged(alloc, *tag, rest),
    }
}

fn decode_tagged(alloc: Global, tag: u8, bytes: &[u8]) -> Result<(HubEvent, usize), RecordFault>
    ensures { Reads result (read_tagged tag bytes.now) }
{
    match tag {
        1 if bytes.len() >= 6 => Ok((HubEvent::Opened(conn_at_front(bytes)), 7)),
        2 if bytes.len() >= 10 => decode_piece(alloc, bytes),
        3 if bytes.len() >= 6 => Ok((HubEvent::Ended(conn_at_front(bytes)), 7)),
        4 if bytes.len() >= 8 => Ok((HubEvent::Tick(eight_at_front(bytes)), 9)),
        1..=4 => Err(RecordFault::Cut),
        _ => Err(RecordFault::Tag(tag)),
    }
}

fn decode_piece(alloc: Global, bytes: &[u8]) -> Result<(HubEvent, usize), RecordFault>
    requires { 10 ≤ length bytes.now }
    ensures { Reads result (read_tagged 2 bytes.now) }
{
    let len = four_at(bytes, 6) as usize;
    let (_, from_piece) = bytes.split_at(10);
    if from_piece.len() < len {
        return Err(RecordFault::Cut);
    }
    let (piece, _) = from_piece.split_at(len);
    let piece = Bytes::copy_from_slice(alloc, piece)?;
    Ok((HubEvent::Bytes(conn_at_front(bytes), piece), 11 + len))
}

/// Reads a whole entry: its events in order, up to the end of the bytes.
///
/// Errors are those of [`decode_event`], for the first event that can't be read.
pub fn decode_events(alloc: Global, bytes: &[u8]) -> Result<Vec<HubEvent>, RecordFault>
    ensures entry { IfOk result (λ events. IsEntry events.items bytes.now) }
    ensures fault { IfErr result (λ fault. Fails fault bytes.now) }
{
    let mut events = Vec::new(alloc);
    let mut left = bytes;
    while !left.is_empty() {
        let (event, size) = decode_event(alloc, left)?;
        events.push(event)?;
        let (_, behind) = left.split_at(size);
        left = behind;
    }
    Ok(events)
}
