//! Lengths, numbers and texts.

use crate::fields::{add_hex, bytes_of};
use crate::words::Words;
use crate::wrong::Wrong;
use mq_wire::{
    VarStep, VarlenReader, length_at, loose_length_at, number_at, put_number, put_varlen, text_at,
    varlen_len,
};
use std::alloc::Global;

/// `put N`: the bytes of a remaining length, or `none` if it is too large and none is written.
pub(crate) fn put(alloc: Global, words: &mut Words<'_>, told: &mut String) -> Result<(), Wrong> {
    let n = words.number()?;
    let mut out = [0xaa; 4];
    let size = put_varlen(n, &mut out);
    if varlen_len(n) != size {
        told.push_str("another size ")?;
    }
    match size {
        Some(size) => add_hex(alloc, told, &out[..size])?,
        None if out == [0xaa; 4] => told.push_str("none")?,
        None => told.push_str("changed")?,
    }
    Ok(())
}

// The last step of a reader over these bytes, and the number of bytes taken.
fn pushed(bytes: &[u8], lenient: bool) -> (VarStep, usize) {
    let mut reader = if lenient {
        VarlenReader::lenient()
    } else {
        VarlenReader::new()
    };
    for (i, byte) in bytes.iter().enumerate() {
        let step = reader.push(*byte);
        if step != VarStep::More {
            return (step, i + 1);
        }
    }
    (VarStep::More, bytes.len())
}

/// `length BYTES` and `loose BYTES`: a remaining length, read byte by byte and at once.
pub(crate) fn length(
    alloc: Global,
    words: &mut Words<'_>,
    told: &mut String,
    lenient: bool,
) -> Result<(), Wrong> {
    let bytes = bytes_of(alloc, words)?;
    let (step, taken) = pushed(bytes.as_slice(), lenient);
    let at_once = if lenient {
        loose_length_at(bytes.as_slice())
    } else {
        length_at(bytes.as_slice())
    };
    Ok(write!(told, "{step:?} {taken} {at_once:?}")?)
}

/// `numbers A B`: the bytes of both, and the second one as it is read.
pub(crate) fn numbers(
    alloc: Global,
    words: &mut Words<'_>,
    told: &mut String,
) -> Result<(), Wrong> {
    let mut out = Vec::new(alloc);
    put_number(&mut out, words.number()?)?;
    put_number(&mut out, words.number()?)?;
    add_hex(alloc, told, out.as_slice())?;
    Ok(write!(told, " {}", number_at(out.as_slice(), 2))?)
}

/// `text-at BYTES PLACE`: the text at a place and the place after it, or its fault.
pub(crate) fn text_in_bytes(
    alloc: Global,
    words: &mut Words<'_>,
    told: &mut String,
) -> Result<(), Wrong> {
    let bytes = bytes_of(alloc, words)?;
    match text_at(bytes.as_slice(), words.number()?) {
        Ok((text, after)) => {
            let copy = text.to_text(alloc)?;
            add_hex(alloc, told, copy.as_str().as_bytes())?;
            Ok(write!(told, " {after}")?)
        }
        Err(fault) => Ok(write!(told, "{fault:?}")?),
    }
}
