//! Reading a journal's file.

ghost use Rattle.std.specs.Prelude.{◌≡◌, ◌+◌, ◌<◌, ◌≤◌, ◌↔◌, length, map, drop, true, IsSome, IfSome, IfOk};
ghost use Rattle.mq_log.specs.Prelude.{behind, entries, first_entry, is_block, number_in, rest, tail_of};

use crate::sum::checksum;
use std::alloc::{AllocError, Global};

/// The number of bytes of a block in front of its entry.
const HEADER_LEN: usize = 9;

/// How a journal ends, behind its last entry.
#[derive(Clone, Copy, Debug, PartialEq, Eq)]
pub enum Tail {
    /// A closed gate, and nothing else: no `put` was interrupted.
    Closed,
    /// No open gate, and not `Closed`: a crash interrupted a call. A damaged gate looks the same.
    Torn,
    /// An open gate, and a block that the file cuts short. No crash during a `put` leaves it.
    CutShort,
    /// An open gate, and an entry with a wrong checksum. No crash during a `put` leaves it.
    Damaged,
}

/// A journal that was read.
#[derive(Debug, Drop)]
pub struct Contents {
    /// The entries, in the order in which they were put.
    pub entries: Vec<Vec<u8>>,
    /// The offset of the byte behind the last entry.
    pub end: usize,
    /// How the file ends there.
    pub tail: Tail,
}

fn number_at(bytes: &[u8], at: usize) -> u32
    requires { at + 4 ≤ length bytes.now }
    ensures { result ≡ number_in bytes.now at }
{
    u32::from_be_bytes([bytes[at], bytes[at + 1], bytes[at + 2], bytes[at + 3]])
}

/// The entry of the first block, and the bytes behind the block. Returns `None` if the bytes don't
/// begin with an open gate, a whole block and its checksum.
pub fn first_block<'a>(bytes: &'a [u8]) -> Option<(&'a [u8], &'a [u8])>
    ensures block { IsSome result ↔ (is_block bytes.now ≡ true) }
    ensures entry { IfSome result (λ parts. parts.0.now ≡ first_entry bytes.now) }
    ensures behind { IfSome result (λ parts. parts.1.now ≡ behind bytes.now) }
    ensures shorter { IfSome result (λ parts. length parts.1.now < length bytes.now) }
{
    if bytes.len() < HEADER_LEN || bytes[0] != 1 {
        return None;
    }
    let len = number_at(bytes, 1) as usize;
    let (_, from_entry) = bytes.split_at(HEADER_LEN);
    if from_entry.len() < len {
        return None;
    }
    let (entry, behind) = from_entry.split_at(len);
    if checksum(entry) != number_at(bytes, 5) {
        return None;
    }
    Some((entry, behind))
}

fn tail_of(bytes: &[u8]) -> Tail
    ensures { result ≡ tail_of bytes.now }
{
    if bytes.is_empty() || bytes[0] != 1 {
        return if bytes.len() == 1 && bytes[0] == 0 {
            Tail::Closed
        } else {
            Tail::Torn
        };
    }
    if bytes.len() < HEADER_LEN || bytes.len() - HEADER_LEN < number_at(bytes, 1) as usize {
        Tail::CutShort
    } else {
        Tail::Damaged
    }
}

/// Reads a whole journal: its entries in order, up to the first block that isn't complete.
///
/// Returns an error only if an allocation fails. A damaged file is no error: see `Contents::tail`.
pub fn read_journal(alloc: Global, bytes: &[u8]) -> Result<Contents, AllocError>
    ensures entries { IfOk result
        (λ contents. map (λ v. v.items) contents.entries.items ≡ entries bytes.now) }
    ensures end { IfOk result (λ contents. drop contents.end bytes.now ≡ rest bytes.now) }
    ensures within { IfOk result (λ contents. contents.end ≤ length bytes.now) }
    ensures tail { IfOk result (λ contents. contents.tail ≡ tail_of (rest bytes.now)) }
{
    let mut entries = Vec::new(alloc);
    let mut left = bytes;
    while let Some((entry, behind)) = first_block(left) {
        entries.push(entry.to_vec(alloc)?)?;
        left = behind;
    }
    Ok(Contents {
        entries,
        end: bytes.len() - left.len(),
        tail: tail_of(left),
    })
}
