//! A scripted stream.

ghost use Rattle.std.specs.Prelude.{◌≡◌, ◌≤◌, IfOk, length};

use mq_client::{NoSaver, Peer, SessionSaver};
use mq_decode::Limits;
use mq_end::{ClientConfig, ClientEnd};
use mq_stream::{Clock, ReadOutcome, Stream, StreamError};
use mq_wire::Text;
use std::alloc::{AllocError, Global};
use std::test::Fail;

/// A stream whose reads give the bytes of `reads`, which are words of hexadecimal digits. A read
/// gives the bytes of at most one word; for `-` it gives none. Before each word, `pauses` reads
/// give none. After the last word the stream ends, or, if `is_quiet`, gives no more bytes. Bytes
/// that are written are remembered, up to the write `fails_at`, which fails.
#[derive(Drop)]
pub(crate) struct Script {
    pub(crate) alloc: Global,
    pub(crate) reads: &'static str,
    pub(crate) rest: Vec<u8>,
    pub(crate) pauses: u32,
    pub(crate) paused: u32,
    pub(crate) is_quiet: bool,
    pub(crate) written: Vec<u8>,
    pub(crate) writes: u32,
    pub(crate) fails_at: u32,
}

// The value of a hexadecimal digit.
fn digit(byte: u8) -> u8 {
    match byte {
        b'0'..=b'9' => byte - b'0',
        b'a'..=b'f' => byte - b'a' + 10,
        _ => 0,
    }
}

/// The bytes of hexadecimal digits. `-` has none.
pub(crate) fn bytes_of(alloc: Global, hex: &str) -> Result<Vec<u8>, AllocError> {
    let mut bytes = Vec::new(alloc);
    for pair in hex.as_bytes().chunks_exact(2) {
        if let [high, low] = pair {
            bytes.push(digit(*high).wrapping_mul(16).wrapping_add(digit(*low)))?;
        }
    }
    Ok(bytes)
}

/// Copies the bytes that fit into the room, and returns their number.
pub(crate) fn put(room: &mut [u8], bytes: &[u8]) -> usize
    ensures within { result ≤ length room.new }
    ensures some { result ≤ length bytes.now }
    ensures same { length room.new ≡ length room.old }
{
    let count = room.len().min(bytes.len());
    room[..count].copy_from_slice(&bytes[..count]);
    count
}

impl Script {
    // The next word, as bytes.
    fn next_word(&mut self) -> Result<(), AllocError> {
        let (hex, rest) = self.reads.split_once(' ').unwrap_or((self.reads, ""));
        self.reads = rest;
        self.paused = 0;
        self.rest = bytes_of(self.alloc, hex)?;
        Ok(())
    }

    // The next bytes of the word.
    fn give(&mut self, room: &mut [u8]) -> Result<usize, AllocError>
        ensures { IfOk result (λ count. count ≤ length room.new) }
    {
        let count = put(room, self.rest.as_slice());
        let mut rest = Vec::new(self.alloc);
        rest.extend_from_slice(&self.rest.as_slice()[count..])?;
        self.rest = rest;
        Ok(count)
    }
}

impl Stream for Script {
    fn read(&mut self, room: &mut [u8]) -> ReadOutcome {
        if self.rest.is_empty() {
            if self.reads.is_empty() {
                return if self.is_quiet {
                    ReadOutcome::Nothing
                } else {
                    ReadOutcome::End
                };
            }
            if self.paused < self.pauses {
                self.paused += 1;
                return ReadOutcome::Nothing;
            }
            if self.next_word().is_err() {
                return ReadOutcome::Failed;
            }
        }
        match self.give(room) {
            Ok(0) => ReadOutcome::Nothing,
            Ok(count) => ReadOutcome::Bytes(count),
            Err(_) => ReadOutcome::Failed,
        }
    }

    fn write_all(&mut self, bytes: &[u8]) -> Result<(), StreamError> {
        if bytes.is_empty() {
            return Ok(());
        }
        self.writes = self.writes.saturating_add(1);
        if self.writes == self.fails_at {
            return Err(StreamError);
        }
        match self.written.extend_from_slice(bytes) {
            Ok(()) => Ok(()),
            Err(_) => Err(StreamError),
        }
    }
}

/// A clock that advances by `step` at each call.
#[derive(Drop)]
pub(crate) struct Steps {
    pub(crate) now: u64,
    pub(crate) step: u64,
}

impl Clock for Steps {
    fn now(&mut self) -> u64 {
        self.now = self.now.saturating_add(self.step);
        self.now
    }
}

/// A client `w` with this capacity, configured as the programs configure it.
pub(crate) fn new_client(alloc: Global, capacity: u16) -> Result<ClientEnd, Fail> {
    let id = Text::new(alloc, "w")?;
    let limits = Limits::new(1_048_576).ok_or("no limits")?;
    if capacity == 0 {
        return Err(Fail::new("no room"));
    }
    let config = ClientConfig {
        id,
        keep_alive: 60,
        will: None,
        login: None,
        limits,
        capacity,
        window: None,
    };
    Ok(ClientEnd::new(alloc, config))
}

/// The stream and the clock of a row.
#[derive(Clone, Copy)]
pub(crate) struct Line {
    pub(crate) capacity: u16,
    pub(crate) reads: &'static str,
    pub(crate) pauses: u32,
    pub(crate) is_quiet: bool,
    pub(crate) fails_at: u32,
    pub(crate) step: u64,
}

/// A stream that gives these bytes and then ends.
pub(crate) fn line_of(reads: &'static str) -> Line {
    Line {
        capacity: 100,
        reads,
        pauses: 0,
        is_quiet: false,
        fails_at: 0,
        step: 0,
    }
}

/// A client at a scripted stream, without a session saver.
pub(crate) type Scripted = Peer<Script, Steps, NoSaver>;

/// A client at a scripted stream, with this session saver.
pub(crate) fn peer_with<K: SessionSaver + Drop>(
    alloc: Global,
    line: Line,
    keeper: K,
) -> Result<Peer<Script, Steps, K>, Fail> {
    let client = new_client(alloc, line.capacity)?;
    let script = Script {
        alloc,
        reads: line.reads,
        rest: Vec::new(alloc),
        pauses: line.pauses,
        paused: 0,
        is_quiet: line.is_quiet,
        written: Vec::new(alloc),
        writes: 0,
        fails_at: line.fails_at,
    };
    let clock = Steps {
        now: 0,
        step: line.step,
    };
    Ok(Peer::new(client, script, clock, keeper))
}

/// A client at a scripted stream.
pub(crate) fn peer_at(alloc: Global, line: Line) -> Result<Scripted, Fail> {
    peer_with(alloc, line, NoSaver)
}

/// The status, the printed text and the written bytes.
pub(crate) fn told(
    alloc: Global,
    status: u8,
    printed: &[u8],
    written: &[u8],
) -> Result<String, Fail> {
    let mut text = String::new(alloc);
    write!(text, "{status} ")?;
    for byte in printed {
        text.push(char::from(*byte))?;
    }
    for byte in written {
        write!(text, "{byte:02x}")?;
    }
    Ok(text)
}
