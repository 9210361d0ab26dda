//! Streams that end each read where a packet ends.

ghost use Rattle.std.specs.Prelude.{◌≡◌, ◌<◌, ◌-◌, length, max, min};

use mq_decode::{Limits, packet_len};
use mq_stream::{ReadOutcome, Stream, StreamError};

/// The maximum number of bytes of a fixed header (2.2).
const MOST_HEADER: usize = 5;

/// A stream that ends each read where a packet ends. So each read completes at most one packet, and
/// a client that stops after a message has received nothing behind it.
///
/// It reads the bytes of a fixed header one at a time, so the inner stream should have a buffer.
#[derive(Drop)]
pub struct PacketStream<S: Stream> {
    inner: S,
    header: Header,
}

/// The fixed header of the next packet, as far as it was read (2.2).
#[derive(Clone, Copy)]
struct Header {
    limits: Limits,
    bytes: [u8; MOST_HEADER],
    count: usize,
    // The bytes behind the fixed header that were not read yet; 0 while the header is read.
    left: usize,
}

impl Header {
    // The number of bytes to read next, of at most `room`.
    fn wanted(&self, room: usize) -> usize
        ensures { result ≡ min (max self.now.left 1) room }
    {
        self.left.max(1).min(room)
    }

    // Notes a byte of the header.
    fn take(&mut self, byte: u8) {
        if self.count < MOST_HEADER {
            self.bytes[self.count] = byte;
            self.count += 1;
        }
        let header = self.bytes.get(..self.count).unwrap_or(&[]);
        match packet_len(self.limits, header) {
            Some(size) => {
                self.left = size.saturating_sub(self.count);
                self.count = 0;
            }
            // Not a header: the client closes at these bytes.
            None if self.count == MOST_HEADER => self.left = usize::MAX,
            None => {}
        }
    }

    // Notes bytes that were read.
    fn note(&mut self, bytes: &[u8])
        ensures { 0 < self.old.left → self.new.left ≡ self.old.left - length bytes.now }
    {
        match bytes {
            [] => {}
            [byte] if self.left == 0 => self.take(*byte),
            bytes => self.left = self.left.saturating_sub(bytes.len()),
        }
    }
}

impl<S: Stream> PacketStream<S> {
    /// A stream whose packets have these limits. It has read nothing yet.
    pub fn new(inner: S, limits: Limits) -> PacketStream<S>
        ensures inner { result.inner ≡ inner }
        ensures limits { result.header.limits ≡ limits }
        ensures header { (result.header.count ≡ 0) × (result.header.left ≡ 0) }
    {
        PacketStream {
            inner,
            header: Header {
                limits,
                bytes: [0; MOST_HEADER],
                count: 0,
                left: 0,
            },
        }
    }
}

impl<S: Stream> Stream for PacketStream<S> {
    ghost coming = { λ s. S.coming s.inner };

    ghost written = { λ s. S.written s.inner };

    ghost closed = { λ s. S.closed s.inner };

    fn read(&mut self, buffer: &mut [u8]) -> ReadOutcome {
        let wanted = self.header.wanted(buffer.len());
        let outcome = self.inner.read(&mut buffer[..wanted]);
        if let Some(count) = outcome.count() {
            self.header.note(&buffer[..count]);
        }
        outcome
    }

    fn write_all(&mut self, bytes: &[u8]) -> Result<(), StreamError> {
        self.inner.write_all(bytes)
    }
}
