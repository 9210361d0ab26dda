//! Bytes, made of words, and bytes as they are printed.

use crate::words::Words;
use crate::wrong::Wrong;
use bytes::Bytes;
use mq_packet::{Binary, Payload};
use std::alloc::{AllocError, Global};

// The digits of a field, and how often they are repeated.
fn repeated(field: &str) -> Result<(&str, u32), Wrong> {
    match field.split_once('*') {
        Some((digits, times)) => Ok((digits, times.parse().ok().ok_or(Wrong::Words)?)),
        None => Ok((field, 1)),
    }
}

fn add_field(alloc: Global, bytes: &mut Vec<u8>, field: &str) -> Result<(), Wrong> {
    let (digits, times) = repeated(field)?;
    let once = hex::decode(alloc, digits).ok().ok_or(Wrong::Words)?;
    for _ in 0..times {
        bytes.extend_from_slice(once.as_slice())?;
    }
    Ok(())
}

fn add_fields(alloc: Global, bytes: &mut Vec<u8>, word: &str) -> Result<(), Wrong> {
    if word == "-" {
        return Ok(());
    }
    for field in word.split('.') {
        add_field(alloc, bytes, field)?;
    }
    Ok(())
}

/// The bytes of a word.
pub(crate) fn bytes_in(alloc: Global, word: &str) -> Result<Vec<u8>, Wrong> {
    let mut bytes = Vec::new(alloc);
    match word.strip_prefix("'") {
        Some(text) => bytes.extend_from_slice(text.as_bytes())?,
        None => add_fields(alloc, &mut bytes, word)?,
    }
    Ok(bytes)
}

/// The bytes of the next word.
pub(crate) fn bytes_of(alloc: Global, words: &mut Words<'_>) -> Result<Vec<u8>, Wrong> {
    bytes_in(alloc, words.word()?)
}

/// The bytes of the next word, shared.
pub(crate) fn shared_of(alloc: Global, words: &mut Words<'_>) -> Result<Bytes, Wrong> {
    Ok(Bytes::from_vec(bytes_of(alloc, words)?)?)
}

/// The binary field of the next word.
pub(crate) fn binary_of(alloc: Global, words: &mut Words<'_>) -> Result<Binary, Wrong> {
    Binary::new(shared_of(alloc, words)?).ok_or(Wrong::Bytes)
}

/// The payload of the next word.
pub(crate) fn payload_of(alloc: Global, words: &mut Words<'_>) -> Result<Payload, Wrong> {
    Payload::new(shared_of(alloc, words)?).ok_or(Wrong::Bytes)
}

/// Adds bytes as hexadecimal digits, `-` for none.
pub(crate) fn add_hex(alloc: Global, told: &mut String, bytes: &[u8]) -> Result<(), AllocError> {
    if bytes.is_empty() {
        return told.push_str("-");
    }
    let digits = hex::encode(alloc, bytes)?;
    told.push_str(digits.as_str())
}
