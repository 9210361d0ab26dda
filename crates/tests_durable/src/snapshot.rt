//! The parts of a snapshot: cuts, changed bytes, and the errors for them.

ghost use Rattle.std.specs.Prelude.{◌<◌, ◌≤◌, ◌^◌, IfSome};

use mq_decode::Limits;
use mq_end::ServerConfig;
use mq_snapshot::{
    SnapshotFault, read_connection, read_message, read_rows, read_session, read_signature,
};
use std::alloc::{AllocError, Global};
use std::process::Abort;
use std::test::Fail;

const SESSION: &[u8] = b"\0\0\0\x03\0\0\0\0\0\0\x01\0\0\x01c\0\0\0\0\0\0\0\x1a\
\0\x07\0\x01\0\x05\x01\x01\0\0\x01a\0\0\0\x02xy\0\x01\0\x06\0\x01\0\x09";

// With a payload of 70 bytes.
const LONG: &[u8] = b"\0\0\0\x03\0\0\0\0\0\0\x01\0\0\x01c\0\0\0\0\0\0\0\x5e\
\0\x07\0\x01\0\x05\x01\x01\0\0\x01a\0\0\0\x46\
0123456789012345678901234567890123456789012345678901234567890123456789\
\0\x01\0\x06\0\x01\0\x09";

// A part of a snapshot. A session may be read with another number of identifiers than 2.
#[derive(Clone, Copy)]
enum Part {
    Signature,
    Rows,
    Message,
    Session(u16),
    Connection,
}

// Parts, and changes after which they are malformed: a place and a byte.
const PARTS: [(Part, &[u8], &[(usize, u8)]); 7] = [
    // The number of rows, a byte that is no UTF-8, a `+` next to a letter, QoS 3.
    (
        Part::Rows,
        b"\0\0\0\0\0\0\0\x02\
\0\0\0\x03\0\x03a/+\x01\
\x01\x02\x03\x04\0\x01#\0",
        &[(0, 255), (7, 3), (14, 255), (15, 98), (17, 3)],
    ),
    // QoS 3, a flag over 1, the name's length, a wildcard, the payload's length.
    (
        Part::Message,
        b"\x02\x01\0\x01w\0\0\0\x03xyz",
        &[(0, 3), (1, 2), (2, 255), (4, 35), (5, 255)],
    ),
    // A client with U+0000, numbers of bytes, identifier 0, QoS 0, a flag over 1, one identifier
    // twice.
    (
        Part::Session(2),
        SESSION,
        &[
            (14, 0),
            (15, 255),
            (22, 25),
            (28, 0),
            (29, 0),
            (30, 2),
            (44, 5),
        ],
    ),
    // A state over 2, flags over 1, the number of held bytes.
    (
        Part::Connection,
        b"\x01\x02\x03\x04\x05\x06\0\0\0\0\0\0\x02\x01\
\x01\0\0\0\x03\0\0\0\0\0\0\x03\x02\x01\0\x3c\x01\x02\x01\0\x01w\0\0\0\x01z\
\0\0\0\0\0\0\0\x02\x30\x05",
        &[(14, 3), (27, 2), (30, 2), (41, 255), (48, 3)],
    ),
    // A client without a will, a connection before CONNECT, and a closed one.
    (
        Part::Connection,
        b"\0\0\0\0\0\0\0\0\0\0\0\0\0\0\
\x01\0\0\0\x04\0\0\0\0\0\0\0\0\0\0\0\0\
\0\0\0\0\0\0\0\0",
        &[],
    ),
    (
        Part::Connection,
        b"\0\0\0\0\0\x01\0\0\0\0\0\0\0\0\0\0\0\0\0\0\0\0\x01\x10",
        &[],
    ),
    (
        Part::Connection,
        b"\0\0\0\0\0\x01\0\0\0\0\0\0\0\0\x02\0\0\0\0\0\0\0\0",
        &[],
    ),
];

// The results for whole parts: the number of bytes behind the part, or the fault.
const RESULTS: [(Part, &[u8], Result<usize, SnapshotFault>); 5] = [
    (Part::Signature, b"MQB\x01rest", Ok(4)),
    (Part::Signature, b"MQB\x02", Err(SnapshotFault::Version)),
    (Part::Signature, b"MQB", Err(SnapshotFault::Version)),
    // The capacity does not allow two identifiers.
    (Part::Session(1), SESSION, Err(SnapshotFault::Malformed)),
    (Part::Session(2), LONG, Err(SnapshotFault::TooLarge)),
];

fn config(capacity: u16) -> ServerConfig
    ensures { IfSome result.window (λ window. 0 < window) }
{
    ServerConfig {
        limits: Limits::new(64).unwrap(),
        capacity,
        window: Some(10),
    }
}

// The bytes behind a part.
fn rest_of<'a>(alloc: Global, part: Part, bytes: &'a [u8]) -> Result<&'a [u8], SnapshotFault> {
    match part {
        Part::Signature => read_signature(bytes),
        Part::Rows => {
            let (_, rest) = read_rows(alloc, bytes)?;
            Ok(rest)
        }
        Part::Message => {
            let (_, rest) = read_message(alloc, bytes)?;
            Ok(rest)
        }
        Part::Session(capacity) => {
            let (_, rest) = read_session(alloc, config(capacity), bytes)?;
            Ok(rest)
        }
        Part::Connection => {
            let (_, rest) = read_connection(alloc, bytes)?;
            Ok(rest)
        }
    }
}

// The number of bytes behind a part.
fn left_of(alloc: Global, part: Part, bytes: &[u8]) -> Result<usize, SnapshotFault> {
    let rest = rest_of(alloc, part, bytes)?;
    Ok(rest.len())
}

// The bytes, of which one is replaced.
fn changed(alloc: Global, bytes: &[u8], place: usize, byte: u8) -> Result<Vec<u8>, AllocError> {
    let mut copy = bytes.to_vec(alloc)?;
    if let Some(at) = copy.as_mut_slice().get_mut(place) {
        *at = byte;
    }
    Ok(copy)
}

#[test]
fn cuts_and_changes(rt: HostRuntime) -> Result<(), Fail> {
    let alloc = rt.alloc();
    let malformed = Err(SnapshotFault::Malformed);
    for (part, bytes, changes) in PARTS {
        for len in 0..bytes.len() {
            assert_eq!(rt;
                left_of(alloc, part, &bytes[..len]),
                malformed,
                "{len} bytes"
            );
        }
        assert_eq!(rt; left_of(alloc, part, bytes), Ok(0));
        for (place, byte) in changes {
            let bytes = changed(alloc, bytes, *place, *byte)?;
            assert_eq!(rt;
                left_of(alloc, part, bytes.as_slice()),
                malformed,
                "at {place}"
            );
        }
    }
    Ok(())
}

#[test]
fn results(rt: HostRuntime) {
    let alloc = rt.alloc();
    for (part, bytes, result) in RESULTS {
        assert_eq!(rt; left_of(alloc, part, bytes), result);
    }
}
