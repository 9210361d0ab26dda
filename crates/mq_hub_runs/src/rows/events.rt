//! The events of rows.

use crate::rows::wrong::Wrong;
use bytes::Bytes;
use hex::FromHexError;
use mq_hub::{Conn, HubEvent};
use std::alloc::Global;

/// The connection of this number.
pub(crate) fn conn(nth: u32) -> Conn {
    Conn { worker: 0, nth }
}

/// The connection of a word.
pub(crate) fn conn_of(word: &str) -> Result<Conn, Wrong> {
    Ok(conn(word.parse().ok().ok_or(Wrong::Words)?))
}

fn repeated(word: &str) -> Result<(&str, u32), Wrong> {
    match word.split_once('*') {
        Some((digits, times)) => Ok((digits, times.parse().ok().ok_or(Wrong::Words)?)),
        None => Ok((word, 1)),
    }
}

fn decoded(alloc: Global, digits: &str) -> Result<Vec<u8>, Wrong> {
    match hex::decode(alloc, digits) {
        Ok(bytes) => Ok(bytes),
        Err(FromHexError::OutOfMemory) => Err(Wrong::Memory),
        Err(_) => Err(Wrong::Words),
    }
}

/// The bytes of hexadecimal digits; `78*60` repeats its digits 60 times.
pub(crate) fn bytes_of(alloc: Global, word: &str) -> Result<Vec<u8>, Wrong> {
    let (digits, times) = repeated(word)?;
    let once = decoded(alloc, digits)?;
    let mut bytes = Vec::new(alloc);
    for _ in 0..times {
        bytes.extend_from_slice(once.as_slice())?;
    }
    Ok(bytes)
}

fn sent(alloc: Global, words: &str) -> Result<HubEvent, Wrong> {
    let (number, digits) = words.split_once(' ').ok_or(Wrong::Words)?;
    let conn = conn_of(number)?;
    let bytes = bytes_of(alloc, digits)?;
    Ok(HubEvent::Bytes(conn, Bytes::from_vec(bytes)?))
}

/// The event of a row.
pub(crate) fn event_of(alloc: Global, act: &str) -> Result<HubEvent, Wrong> {
    let (what, words) = act.split_once(' ').ok_or(Wrong::Words)?;
    match what {
        "send" => sent(alloc, words),
        "tick" => Ok(HubEvent::Tick(words.parse().ok().ok_or(Wrong::Words)?)),
        "open" => Ok(HubEvent::Opened(conn_of(words)?)),
        "end" => Ok(HubEvent::Ended(conn_of(words)?)),
        "take" => Ok(HubEvent::Collect(conn_of(words)?)),
        _ => Err(Wrong::Words),
    }
}
