//! The bytes of a few packets.

use std::alloc::{AllocError, Global};

/// CONNECT of the client `cNNN` with a clean session; with a will of topic `w` if `has_will`.
pub(crate) fn connect(alloc: Global, client: u16, has_will: bool) -> Result<Vec<u8>, AllocError> {
    let (size, flags) = if has_will { (22, 6) } else { (16, 2) };
    let mut bytes = Vec::with_capacity(alloc, 24)?;
    bytes.extend_from_slice(&[
        0x10, size, 0, 4, b'M', b'Q', b'T', b'T', 4, flags, 0, 60, 0, 4,
    ])?;
    bytes.push(b'c')?;
    bytes.push(digit(client / 100))?;
    bytes.push(digit(client / 10))?;
    bytes.push(digit(client))?;
    if has_will {
        bytes.extend_from_slice(&[0, 1, b'w', 0, 1, b'x'])?;
    }
    Ok(bytes)
}

fn digit(number: u16) -> u8 {
    match number % 10 {
        0 => b'0',
        1 => b'1',
        2 => b'2',
        3 => b'3',
        4 => b'4',
        5 => b'5',
        6 => b'6',
        7 => b'7',
        8 => b'8',
        _ => b'9',
    }
}

/// SUBSCRIBE to the filter `t` or `w`, with quality of service 0.
pub(crate) fn subscribe(filter: u8) -> [u8; 8] {
    [0x82, 6, 0, 1, 0, 1, filter, 0]
}

/// PUBLISH to the topic `t` with quality of service 0 and a payload of `size` bytes, at most 100.
pub(crate) fn publish(alloc: Global, size: u8) -> Result<Vec<u8>, AllocError> {
    let size = size.min(100);
    let mut bytes = Vec::with_capacity(alloc, 128)?;
    bytes.extend_from_slice(&[0x30, size + 3, 0, 1, b't'])?;
    for nth in 0..size {
        bytes.push(nth)?;
    }
    Ok(bytes)
}

pub(crate) const DISCONNECT: [u8; 2] = [0xe0, 0];

pub(crate) const CONNACK: [u8; 4] = [0x20, 2, 0, 0];

pub(crate) const SUBACK: [u8; 5] = [0x90, 3, 0, 1, 0];
