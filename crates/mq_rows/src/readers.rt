//! Packets read from readers.

use crate::fields::bytes_of;
use crate::taking::{Given, encoded};
use crate::words::Words;
use crate::wrong::Wrong;
use mq_decode::{Limits, ReadError, read_packet, read_sized};
use mq_packet::Packet;
use std::alloc::Global;
use std::io;
use std::io::{ErrorKind, Read};

// A reader of these bytes. Each call returns a limited number of bytes, every other call is
// interrupted, and all calls after a limited number fail.
#[derive(Drop)]
struct Slow<'a> {
    bytes: &'a [u8],
    at_once: usize,
    calls: usize,
    is_interrupted: bool,
}

impl<'a> Slow<'a> {
    fn new(bytes: &'a [u8], at_once: usize, calls: usize) -> Slow<'a> {
        Slow {
            bytes,
            at_once: at_once.max(1),
            calls,
            is_interrupted: false,
        }
    }
}

impl Read for Slow<'_> {
    fn read(&mut self, room: &mut [u8]) -> io::Result<usize> {
        self.is_interrupted = !self.is_interrupted;
        if self.is_interrupted {
            return Err(io::Error::from(ErrorKind::Interrupted));
        }
        if self.calls == 0 {
            return Err(io::Error::from(ErrorKind::ConnectionReset));
        }
        self.calls -= 1;
        let n = self.at_once.min(room.len()).min(self.bytes.len());
        let (given, left) = self.bytes.split_at(n);
        room[..n].copy_from_slice(given);
        self.bytes = left;
        Ok(n)
    }
}

// Whether the bytes end with these ones, behind the encoding of a packet.
fn is_taken(alloc: Global, packet: Packet, bytes: &[u8], left: &[u8]) -> Result<bool, Wrong> {
    let mut whole = encoded(alloc, &[packet])?;
    whole.extend_from_slice(left)?;
    Ok(whole.as_slice() == bytes)
}

// Adds the number of bytes left after a packet, or the reader's end. Returns whether there was a
// packet.
fn add_read(
    alloc: Global,
    limits: Limits,
    reader: &mut Slow<'_>,
    told: &mut String,
) -> Result<bool, Wrong> {
    let bytes = reader.bytes;
    match read_packet(alloc, reader, limits) {
        Ok(Some(packet)) => {
            let is_taken = is_taken(alloc, packet, bytes, reader.bytes)?;
            write!(
                told,
                "{}{};",
                reader.bytes.len(),
                if is_taken { "" } else { " other" }
            )?;
            return Ok(true);
        }
        Ok(None) => told.push_str("end;")?,
        Err(ReadError::Io(error)) => write!(told, "{:?};", error.kind())?,
        Err(error) => write!(told, "{error};")?,
    }
    Ok(false)
}

/// `read AT-ONCE CALLS BYTES`: the number of bytes left after each packet of a reader that returns
/// at most this number of bytes a call and fails after this number of calls, and its end, twice.
pub(crate) fn read(
    alloc: Global,
    limits: Limits,
    words: &mut Words<'_>,
    told: &mut String,
) -> Result<(), Wrong> {
    let (at_once, calls) = (words.number()?, words.number()?);
    let bytes = bytes_of(alloc, words)?;
    let mut reader = Slow::new(bytes.as_slice(), at_once, calls);
    for _ in 0..bytes.len() {
        if !add_read(alloc, limits, &mut reader, told)? {
            break;
        }
    }
    add_read(alloc, limits, &mut reader, told)?;
    Ok(())
}

/// `sizes BYTES`: the size of each packet of a reader.
pub(crate) fn sizes(given: &Given<'_>, told: &mut String) -> Result<(), Wrong> {
    let mut reader = given.bytes;
    for _ in 0..given.bytes.len() {
        match read_sized(given.alloc, &mut reader, given.limits) {
            Ok(Some((_, size))) => write!(told, "{size} ")?,
            Ok(None) => return Ok(told.push_str("end")?),
            Err(_) => return Err(Wrong::Bytes),
        }
    }
    Err(Wrong::Bytes)
}
