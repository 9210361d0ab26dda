//! Bytes under a limit.

use crate::fields::bytes_of;
use crate::readers;
use crate::taking::Given;
use crate::words::Words;
use crate::wrong::Wrong;
use mq_decode::{Limits, packet_len};
use std::alloc::Global;

impl Given<'_> {
    // `len BYTES`: the size of the packet according to its header.
    fn len(&self, told: &mut String) -> Result<(), Wrong> {
        match packet_len(self.limits, self.bytes) {
            Some(len) => Ok(write!(told, "{len}")?),
            None => Ok(told.push_str("none")?),
        }
    }

    fn tell(&self, kind: &str, told: &mut String) -> Result<(), Wrong> {
        match kind {
            "len" => self.len(told),
            "sizes" => readers::sizes(self, told),
            _ => Err(Wrong::Words),
        }
    }
}

/// The acts of bytes under a limit.
pub(crate) fn tell(
    alloc: Global,
    limits: Limits,
    words: &mut Words<'_>,
    told: &mut String,
) -> Result<(), Wrong> {
    let kind = words.word()?;
    if kind == "read" {
        return readers::read(alloc, limits, words, told);
    }
    let bytes = bytes_of(alloc, words)?;
    let given = Given {
        alloc,
        limits,
        bytes: bytes.as_slice(),
    };
    given.tell(kind, told)
}
