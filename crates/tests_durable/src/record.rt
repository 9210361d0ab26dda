//! The bytes of an entry, its cuts, and the texts of the faults.

use bytes::Bytes;
use mq_record::{EncodeFault, RecordFault, decode_event, decode_events, encode_event, is_recorded};
use mq_route::{Conn, HubEvent};
use std::alloc::Global;
use std::process::Abort;
use std::test::Fail;

// The entry of the events of `events`.
const ENTRY: &[u8] = b"\x01\x12\x34\x56\x78\x9a\xbc\
\x02\0\x01\0\0\0\x02\0\0\0\x02\xc0\0\
\x03\xff\xff\xff\xff\xff\xff\
\x04\x01\x02\x03\x04\x05\x06\x07\x08";

// The offsets at which its events begin, and its length.
const STARTS: [usize; 5] = [0, 7, 20, 27, 36];

fn encode_all(events: &[HubEvent], out: &mut Vec<u8>) -> Result<(), EncodeFault> {
    for event in events {
        if is_recorded(event) {
            encode_event(event, out)?;
        }
    }
    Ok(())
}

#[test]
fn an_entry(rt: HostRuntime) -> Result<(), Fail> {
    let alloc = rt.alloc();
    let events = [
        HubEvent::Opened(Conn {
            worker: 0x1234,
            nth: 0x5678_9abc,
        }),
        HubEvent::Bytes(
            Conn { worker: 1, nth: 2 },
            Bytes::copy_from_slice(alloc, b"\xc0\0")?,
        ),
        HubEvent::Collect(Conn { worker: 1, nth: 2 }),
        HubEvent::Ended(Conn {
            worker: 0xffff,
            nth: 0xffff_ffff,
        }),
        HubEvent::Tick(0x0102_0304_0506_0708),
    ];
    let mut bytes = Vec::new(alloc);
    encode_all(&events, &mut bytes)?;
    assert_eq!(rt; bytes.as_slice(), ENTRY);
    let read = decode_events(alloc, bytes.as_slice())?;
    assert_eq!(rt; read.len(), 4);
    let mut again = Vec::new(alloc);
    encode_all(read.as_slice(), &mut again)?;
    assert_eq!(rt; again.as_slice(), ENTRY);
    Ok(())
}

// The size of the event at the front, or the fault.
fn size_of_first(alloc: Global, bytes: &[u8]) -> Result<usize, RecordFault> {
    let (_, size) = decode_event(alloc, bytes)?;
    Ok(size)
}

#[test]
fn cuts_and_tags(rt: HostRuntime) -> Result<(), Fail> {
    let alloc = rt.alloc();
    for len in 0..=ENTRY.len() {
        let fault = decode_events(alloc, &ENTRY[..len]).err();
        let expected = if STARTS.contains(&len) {
            None
        } else {
            Some(RecordFault::Cut)
        };
        assert_eq!(rt; fault, expected, "at {len}");
    }
    assert_eq!(rt; size_of_first(alloc, &ENTRY[7..]), Ok(13));
    assert_eq!(rt; size_of_first(alloc, b"\0"), Err(RecordFault::Tag(0)));
    assert_eq!(rt;
        decode_events(alloc, b"\x04\0\0\0\0\0\0\0\0\xfe").err(),
        Some(RecordFault::Tag(254))
    );
    let text = format!(in alloc; "{}", RecordFault::Tag(254))?;
    assert_eq!(rt; text.as_str(), "an event begins with the unknown tag 254");
    Ok(())
}
