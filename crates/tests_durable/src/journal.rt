//! The bytes of a journal, damage at each place, and a stop after each call of its disk.

ghost use Rattle.mq_log.specs.Journal.{IsSettled};

use mq_log::{
    Disk, DiskError, FreezingDisk, Journal, MemoryDisk, Tail, begin, checksum, read_journal,
};
use std::alloc::{AllocError, Global};
use std::process::Abort;
use std::test::Fail;

// The entries that the tests put.
const ENTRIES: [&[u8]; 4] = [b"", b"a", b"\x01\x00\x01", b"CONNECT id=c clean"];

// Their file. The checksums were computed by another program.
const FILE: &[u8] = b"\x01\0\0\0\0\x81\x1c\x9d\xc5\
\x01\0\0\0\x01\x06\x0c\x5f\x13a\
\x01\0\0\0\x03\x2d\x67\x8c\x02\x01\x00\x01\
\x01\0\0\0\x12\x75\x35\x30\x5bCONNECT id=c clean\
\0";

// The offsets of its gates.
const GATES: [usize; 5] = [0, 9, 19, 31, 58];

// Whether the entries are the first ones of the list, in this number.
fn are_first(entries: &[Vec<u8>], count: usize) -> bool {
    if entries.len() != count || count > 4 {
        return false;
    }
    for i in 0..count {
        if entries[i].as_slice() != ENTRIES[i] {
            return false;
        }
    }
    true
}

// Puts the entries, and counts those that were acknowledged.
fn put_all<D: Disk>(
    alloc: Global,
    journal: &mut Journal<D>,
    count: &mut usize,
) -> Result<(), DiskError>
    requires { IsSettled D.seen D.may_leave journal.old }
{
    journal.put(alloc, b"")?;
    *count = 1;
    journal.put(alloc, b"a")?;
    *count = 2;
    journal.put(alloc, b"\x01\x00\x01")?;
    *count = 3;
    journal.put(alloc, b"CONNECT id=c clean")?;
    *count = 4;
    Ok(())
}

// A disk that stopped after a number of calls, and the number of acknowledged entries. Fails only
// if memory is refused.
fn stopped_after(
    alloc: Global,
    calls: u64,
) -> Result<(usize, FreezingDisk<MemoryDisk>), DiskError> {
    let mut disk = FreezingDisk::new(MemoryDisk::new(alloc, Vec::new(alloc)), calls);
    match begin(&mut disk) {
        Ok(()) => {}
        Err(DiskError::Failed) => return Ok((0, disk)),
        Err(error) => return Err(error),
    }
    let mut journal = Journal::new(disk);
    let mut count = 0;
    match put_all(alloc, &mut journal, &mut count) {
        Ok(()) | Err(DiskError::Failed) => Ok((count, journal.disk)),
        Err(error) => Err(error),
    }
}

// The content that a crash leaves if `len` bytes of a write are there: the first bytes of the new
// content, or the bytes behind them, and the old content elsewhere.
fn torn(
    alloc: Global,
    old: &[u8],
    new: &[u8],
    len: usize,
    in_front: bool,
) -> Result<Vec<u8>, AllocError> {
    let mut bytes = Vec::new(alloc);
    for i in 0..new.len() {
        let is_new = (i < len) == in_front;
        let byte = if is_new {
            new[i]
        } else if i < old.len() {
            old[i]
        } else if in_front {
            break;
        } else {
            0xee
        };
        bytes.push(byte)?;
    }
    Ok(bytes)
}

// A reader of the content finds the acknowledged entries, and at most the next one. Before the
// first entry the content may be any byte.
fn check_content(
    rt: &impl Abort,
    alloc: Global,
    bytes: &[u8],
    count: usize,
    calls: u64,
) -> Result<(), AllocError> {
    let contents = read_journal(alloc, bytes)?;
    let held = are_first(contents.entries.as_slice(), count)
        || count < 4 && are_first(contents.entries.as_slice(), count + 1);
    assert!(rt; held, "after {calls} calls");
    let tail = contents.tail;
    assert!(rt;
        tail == Tail::Closed || tail == Tail::Torn,
        "after {calls} calls"
    );
    Ok(())
}

// A reader finds them also if a crash leaves only a part of the last write.
fn check_torn(
    rt: &impl Abort,
    alloc: Global,
    old: &[u8],
    new: &[u8],
    count: usize,
    calls: u64,
) -> Result<(), AllocError> {
    for len in 0..=new.len() {
        for in_front in [true, false] {
            let bytes = torn(alloc, old, new, len, in_front)?;
            check_content(rt, alloc, bytes.as_slice(), count, calls)?;
        }
    }
    Ok(())
}

#[test]
fn a_stop_after_each_call(rt: HostRuntime) -> Result<(), Fail> {
    let alloc = rt.alloc();
    for calls in 0..=18 {
        let (count, freezing) = stopped_after(alloc, calls)?;
        assert_eq!(rt;
            count as u64,
            calls.saturating_sub(2) / 4,
            "after {calls} calls"
        );
        assert_eq!(rt; freezing.calls_left(), 0);
        let disk = freezing.disk();
        check_content(&rt, alloc, disk.bytes(), count, calls)?;
        // The last call was a write, which no sync followed.
        if let (1, [.., old]) = (calls % 2, disk.past()) {
            check_torn(&rt, alloc, old.as_slice(), disk.bytes(), count, calls)?;
        }
    }
    Ok(())
}

#[test]
fn the_bytes_of_a_file(rt: HostRuntime) -> Result<(), Fail> {
    let alloc = rt.alloc();
    let (count, mut freezing) = stopped_after(alloc, 19)?;
    assert_eq!(rt; count, 4);
    assert_eq!(rt; freezing.read(alloc)?.as_slice(), FILE);
    assert_eq!(rt; freezing.read(alloc).err(), Some(DiskError::Failed));
    assert_eq!(rt; freezing.sync(), Err(DiskError::Failed));
    Ok(())
}

#[test]
fn a_cut_at_each_byte(rt: HostRuntime) -> Result<(), Fail> {
    let alloc = rt.alloc();
    for cut in 0..=FILE.len() {
        let contents = read_journal(alloc, &FILE[..cut])?;
        let gates = GATES.iter().filter(|&&gate| gate <= cut).count();
        let whole = gates.saturating_sub(1);
        assert!(rt; are_first(contents.entries.as_slice(), whole), "at {cut}");
        assert_eq!(rt; contents.end, GATES[whole.min(4)], "at {cut}");
        let tail = if cut == FILE.len() {
            Tail::Closed
        } else if GATES.contains(&cut) {
            Tail::Torn
        } else {
            Tail::CutShort
        };
        assert_eq!(rt; contents.tail, tail, "at {cut}");
    }
    Ok(())
}

// The tails that a reader may report if the byte at this offset of a block has this value.
fn is_expected(tail: Tail, offset: usize, value: u8) -> bool {
    match offset {
        0 if value == 1 => tail == Tail::CutShort,
        0 => tail == Tail::Torn,
        1..=4 => tail == Tail::CutShort || tail == Tail::Damaged,
        _ => tail == Tail::Damaged,
    }
}

#[test]
fn a_changed_byte_at_each_place(rt: HostRuntime) -> Result<(), Fail> {
    let alloc = rt.alloc();
    for place in 0..FILE.len() {
        for mask in [1u8, 2, 0x80, 0xff] {
            let mut bytes = FILE.to_vec(alloc)?;
            assert!(rt; place < bytes.len());
            let value = bytes[place] ^ mask;
            bytes[place] = value;
            let contents = read_journal(alloc, bytes.as_slice())?;
            let gates = GATES.iter().filter(|&&gate| gate <= place).count();
            let whole = gates.saturating_sub(1).min(4);
            assert!(rt; are_first(contents.entries.as_slice(), whole), "at {place}");
            let offset = place.saturating_sub(GATES[whole]);
            assert!(rt; is_expected(contents.tail, offset, value), "at {place}");
        }
    }
    Ok(())
}

#[test]
fn a_long_entry(rt: HostRuntime) -> Result<(), Fail> {
    let alloc = rt.alloc();
    let entry = vec![in alloc; 0xa5u8; 70_000]?;
    let mut disk = MemoryDisk::new(alloc, Vec::new(alloc));
    begin(&mut disk)?;
    let mut journal = Journal::new(disk);
    journal.put(alloc, entry.as_slice())?;
    let contents = read_journal(alloc, journal.disk.bytes())?;
    assert_eq!(rt; contents.entries.len(), 1);
    assert_eq!(rt; contents.entries[0].as_slice(), entry.as_slice());
    assert_eq!(rt; contents.end, 70_009);
    assert_eq!(rt; contents.tail, Tail::Closed);
    Ok(())
}

#[test]
fn checksums(rt: HostRuntime) {
    let rows: [(&[u8], u32); 4] = [
        (b"", 0x811c_9dc5),
        (b"a", 0x060c_5f13),
        (b"ab", 0xbe7c_25b4),
        (b"ba", 0xbf7c_2746),
    ];
    for (entry, sum) in rows {
        assert_eq!(rt; checksum(entry), sum);
    }
}
