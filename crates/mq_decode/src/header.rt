//! The fixed header of a packet (2.2): the first byte and the remaining length.

ghost use Rattle.std.specs.Prelude.{◌≡◌, ◌+◌, ◌<◌, ◌≤◌, ◌^◌, length, Ok, IfOk, IfSome, OnSome};
ghost use Rattle.mq_decode.specs.Prelude.{IsSmall, read_length, size_fault, end_told, header_at};

use crate::fault::{DecodeFault, FaultKind};
use crate::kind::{Kind, fixed_size, kind_at};
use crate::limits::Limits;
use mq_wire::{LengthReading, length_at, loose_length_at};

/// The kind of a packet, and the place and size of its fields.
#[derive(Clone, Copy)]
pub(crate) struct Header {
    pub(crate) kind: Kind,
    pub(crate) start: usize,
    pub(crate) size: usize,
}

fn size_fault(limits: Limits, kind: Kind, size: u32) -> Option<FaultKind>
    ensures { result ≡ size_fault limits.most kind size }
{
    if size > limits.max_packet() {
        return Some(FaultKind::OverLimit);
    }
    match fixed_size(kind) {
        Some(fixed) if size != fixed => Some(FaultKind::WrongSize),
        _ => None,
    }
}

// The remaining length at the front.
fn length_under(limits: Limits, bytes: &[u8]) -> LengthReading
    ensures read { result ≡ read_length limits.lenient bytes.now }
    ensures small { IsSmall result }
{
    if limits.is_lenient() {
        return loose_length_at(bytes);
    }
    length_at(bytes)
}

/// The header at the front of `bytes`, `None` if it is incomplete, or its fault.
#[inline(always)]
#[tactic(auto, unfolding(crate::specs::Inside::Front::header_at))]
pub(crate) fn header_at(limits: Limits, bytes: &[u8]) -> Result<Option<Header>, DecodeFault>
    ensures read { result ≡ header_at limits bytes.now }
    ensures small { IfOk result (λ o. IfSome o (λ h. (0 < h.start) × (h.start ≤ 5) × (h.size < 2 ^ 28))) }
    ensures some { IfOk result (λ o. OnSome o (0 < length bytes.now)) }
{
    let Some((first, rest)) = bytes.split_first() else {
        return Ok(None);
    };
    let kind = match kind_at(*first) {
        Ok(kind) => kind,
        Err(kind) => return Err(DecodeFault { kind, place: 0 }),
    };
    match length_under(limits, rest) {
        LengthReading::Unfinished => Ok(None),
        LengthReading::TooLong => Err(DecodeFault {
            kind: FaultKind::LengthTooLong,
            place: 4,
        }),
        LengthReading::Overlong(place) => Err(DecodeFault {
            kind: FaultKind::LengthOverlong,
            place,
        }),
        LengthReading::Whole(size, len) => match size_fault(limits, kind, size) {
            Some(kind) => Err(DecodeFault { kind, place: 1 }),
            None => Ok(Some(Header {
                kind,
                start: 1 + len,
                size: size as usize,
            })),
        },
    }
}

// The end of a packet of two or four bytes, or that its header is incomplete.
#[inline(always)]
#[tactic(auto, unfolding(crate::specs::Inside::Front::header_at, mq_wire::specs::Reading::read_length))]
fn short_end(limits: Limits, bytes: &[u8]) -> Option<Option<usize>>
    ensures { IfSome result (λ end. end_told (header_at limits bytes.now) ≡ Ok end) }
{
    match bytes {
        [0x40 | 0x50 | 0x62 | 0x70 | 0xB0 | 0xC0 | 0xD0 | 0xE0] => Some(None),
        [0x40 | 0x50 | 0x62 | 0x70 | 0xB0, 2, ..] if limits.max_packet() >= 2 => Some(Some(4)),
        [0xC0 | 0xD0 | 0xE0, 0, ..] => Some(Some(2)),
        _ => None,
    }
}

/// The end of the packet at the front of `bytes` as its header states it, `None` if the header is
/// incomplete, or its fault.
#[inline(always)]
pub(crate) fn end_at(limits: Limits, bytes: &[u8]) -> Result<Option<usize>, DecodeFault>
    ensures { result ≡ end_told (header_at limits bytes.now) }
{
    if let Some(end) = short_end(limits, bytes) {
        return Ok(end);
    }
    match header_at(limits, bytes) {
        Ok(Some(header)) => Ok(Some(header.start + header.size)),
        Ok(None) => Ok(None),
        Err(fault) => Err(fault),
    }
}
