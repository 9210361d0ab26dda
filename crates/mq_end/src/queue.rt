//! A queue of bytes.

ghost use Rattle.std.specs.Prelude.{◌≡◌, ℕ, ◌≤◌, ◌==◌, List, [], ◌++◌, length, drop, take, true, IsOk, IfOk, OnOk, OnErr};
ghost use Rattle.mq_end.specs.Prelude.{fits_delivery, Encodes};

use crate::output::Output;
use bytes::Bytes;
use mq_packet::{Delivery, Message, Packet};
use std::alloc::{AllocError, Global};
use std::marker::Model;

/// A queue of bytes, the oldest first. Appending and removing bytes costs time in proportion to
/// these bytes, not to the queued ones.
#[derive(Debug, Drop)]
pub struct ByteQueue {
    pub(crate) output: Output,
}

impl Model for ByteQueue {
    ghost use Rattle.std.specs.Prelude.{ℕ, List};

    ghost Value = { List ℕ };

    ghost view = { λ q. q.output.bytes };
}

impl ByteQueue {
    /// No bytes.
    pub fn new(alloc: Global) -> ByteQueue
        ensures { result ≡ [] }
    {
        ByteQueue {
            output: Output::new(alloc),
        }
    }

    /// The bytes, the oldest first.
    pub fn as_slice(&self) -> &[u8]
        ensures { result.now ≡ self.now }
    {
        self.output.as_slice()
    }

    /// How many bytes wait.
    pub fn len(&self) -> usize
        ensures { result ≡ length self.now }
    {
        self.output.len()
    }

    /// Whether none waits.
    pub fn is_empty(&self) -> bool
        ensures { result ≡ (length self.now == 0) }
    {
        self.len() == 0
    }

    /// Appends bytes.
    pub fn append(&mut self, bytes: &[u8]) -> Result<(), AllocError>
        ensures ok { OnOk result (self.new ≡ self.old ++ bytes.now) }
        ensures err { OnErr result (self.new ≡ self.old) }
    {
        self.output.append(bytes)
    }

    /// Appends the encoding of a packet (chapter 3). Fails if an allocation fails or the packet is
    /// too large.
    pub fn append_packet(&mut self, packet: &Packet) -> Result<(), AllocError>
        ensures ok { OnOk result
            ((bytes : List ℕ) × Encodes packet.now bytes × (self.new ≡ self.old ++ bytes)) }
        ensures err { OnErr result (self.new ≡ self.old) }
    {
        self.output.append_packet(packet)
    }

    /// Appends the encoding of a PUBLISH of a borrowed message (3.3). `delivery` must be given
    /// exactly for QoS 1 and 2. Fails if an allocation fails or the packet is too large.
    pub fn append_publish(
        &mut self,
        message: &Message,
        delivery: Option<Delivery>,
    ) -> Result<(), AllocError>
        requires { fits_delivery message.now.qos delivery ≡ true }
        ensures ok { OnOk result
            ((bytes : List ℕ) × Encodes (Packet.Publish (record { message = message.now; delivery = delivery })) bytes
            × (self.new ≡ self.old ++ bytes)) }
        ensures err { OnErr result (self.new ≡ self.old) }
    {
        self.output.append_publish(message, delivery)
    }

    /// Removes `count` bytes from the front.
    pub fn take(&mut self, count: usize)
        requires { count ≤ length self.old }
        ensures { self.new ≡ drop count self.old }
    {
        self.output.take(count);
    }

    /// Removes and returns all bytes in one shared block, without copying them. Does not allocate
    /// if there are none.
    pub fn take_bytes(&mut self) -> Result<Bytes, AllocError>
        ensures bytes { IfOk result (λ b. b ≡ self.old) }
        ensures taken { OnOk result (self.new ≡ []) }
        ensures none { self.old ≡ [] → IsOk result }
        ensures err { OnErr result (self.new ≡ self.old) }
    {
        self.output.take_bytes()
    }

    /// Keeps only the first `count` bytes.
    pub fn truncate(&mut self, count: usize)
        requires { count ≤ length self.old }
        ensures { self.new ≡ take count self.old }
    {
        self.output.truncate(count);
    }

    /// Removes all bytes.
    pub fn clear(&mut self)
        ensures { self.new ≡ [] }
    {
        self.output.clear();
    }
}
