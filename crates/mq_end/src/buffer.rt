//! The buffer of pending output.

ghost use Rattle.std.specs.Prelude.{◌≡◌, ℕ, ◌+◌, ◌-◌, ◌<◌, ◌≤◌, ◌^◌, List, [], ◌++◌, length, drop, take, true, IsOk, IfOk, OnOk, OnErr};
ghost use Rattle.mq_end.specs.Prelude.{fits_delivery, Encodes, fields, whole_size};

use bytes::Bytes;
use mq_packet::{Delivery, Message, Packet, encode_into, encode_publish_into};
use mq_wire::length_laws;
use std::alloc::{AllocError, Global};
use std::marker::Model;
use std::mem;

/// Pending output in a buffer of its own, the oldest byte first. Appending and removing bytes costs
/// time in proportion to these bytes, not to the pending ones. Contracts see the bytes, and how
/// many may be pending without allocation.
#[derive(Debug, Drop)]
pub(crate) struct Buffer {
    bytes: Vec<u8>,
    // The number of bytes at the front of the buffer that were removed.
    gone: usize,
    // The number of bytes that may be pending without allocation.
    room: usize,
}

impl Model for Buffer {
    ghost use Rattle.std.specs.Prelude.{◌+◌, ◌≤◌, drop, length, vec_capacity};
    ghost use Rattle.mq_end.specs.Waiting.{Waiting};

    ghost Value = { Waiting };

    ghost view = { λ o. record { bytes = drop o.gone o.bytes.items; room = o.room } };

    ghost invariant = { λ o. (o.gone ≤ length o.bytes.items) × (o.gone + o.room ≤ vec_capacity o.bytes) };
}

impl Buffer {
    /// No bytes and no room.
    pub(crate) fn new(alloc: Global) -> Buffer
        ensures { result ≡ record { bytes = []; room = 0 } }
    {
        Buffer {
            bytes: Vec::new(alloc),
            gone: 0,
            room: 0,
        }
    }

    /// The bytes, the oldest first.
    pub(crate) fn as_slice(&self) -> &[u8]
        ensures { result.now ≡ self.now.bytes }
    {
        let (_, rest) = self.bytes.split_at(self.gone);
        rest
    }

    /// How many bytes wait.
    pub(crate) fn len(&self) -> usize
        ensures { result ≡ length self.now.bytes }
    {
        self.bytes.len() - self.gone
    }

    /// Reserves room for `more` bytes behind the pending ones.
    pub(crate) fn reserve(&mut self, more: usize) -> Result<(), AllocError>
        ensures ok { OnOk result (length self.old.bytes + more ≤ self.new.room) }
        ensures more { self.old.room ≤ self.new.room }
        ensures rest { self.new ≡ record self.old { room = self.new.room } }
        ensures err { OnErr result (self.new ≡ self.old) }
    {
        self.bytes.reserve(more)?;
        let room = self.len() + more;
        self.room = self.room.max(room);
        Ok(())
    }

    /// Appends bytes.
    pub(crate) fn append(&mut self, bytes: &[u8]) -> Result<(), AllocError>
        ensures ok { OnOk result (self.new ≡ record self.old { bytes = self.old.bytes ++ bytes.now }) }
        ensures within { length self.old.bytes + length bytes.now ≤ self.old.room → IsOk result }
        ensures err { OnErr result (self.new ≡ self.old) }
    {
        self.bytes.extend_from_slice(bytes)
    }

    /// Appends the encoding of a packet (chapter 3). Fails if the packet is too large or an
    /// allocation fails, which can't happen within the room.
    pub(crate) fn append_packet(&mut self, packet: &Packet) -> Result<(), AllocError>
        ensures ok { OnOk result
            ((b : List ℕ) × Encodes packet.now b × (self.new ≡ record self.old { bytes = self.old.bytes ++ b })) }
        ensures within { length (fields packet.now) < 2 ^ 28
            → length self.old.bytes + whole_size (length (fields packet.now)) ≤ self.old.room → IsOk result }
        ensures err { OnErr result (self.new ≡ self.old) }
    {
        length_laws();
        match encode_into(packet, &mut self.bytes) {
            Ok(()) => Ok(()),
            Err(_) => Err(AllocError),
        }
    }

    /// Appends the encoding of a PUBLISH of a borrowed message (3.3). `delivery` must be given
    /// exactly for QoS 1 and 2. Fails if the packet is too large or an allocation fails, which
    /// can't happen within the room.
    pub(crate) fn append_publish(
        &mut self,
        message: &Message,
        delivery: Option<Delivery>,
    ) -> Result<(), AllocError>
        requires { fits_delivery message.now.qos delivery ≡ true }
        ensures ok { let packet = Packet.Publish (record { message = message.now; delivery = delivery }) in OnOk result
            ((b : List ℕ) × Encodes packet b × (self.new ≡ record self.old { bytes = self.old.bytes ++ b })) }
        ensures within { let packet = Packet.Publish (record { message = message.now; delivery = delivery }) in
            length (fields packet) < 2 ^ 28
            → length self.old.bytes + whole_size (length (fields packet)) ≤ self.old.room → IsOk result }
        ensures err { OnErr result (self.new ≡ self.old) }
    {
        length_laws();
        match encode_publish_into(message, delivery, &mut self.bytes) {
            Ok(()) => Ok(()),
            Err(_) => Err(AllocError),
        }
    }

    /// Removes bytes from the front, and the room that they had.
    #[tactic(auto, using(crate::proofs::Outputs::moved_up))]
    pub(crate) fn take(&mut self, count: usize)
        requires { count ≤ length self.old.bytes }
        ensures { self.new ≡ record { bytes = drop count self.old.bytes; room = self.old.room - count } }
    {
        self.gone += count;
        self.room = self.room.saturating_sub(count);
        let left = self.bytes.len() - self.gone;
        if left <= self.gone {
            self.bytes.copy_within(self.gone.., 0);
            self.bytes.truncate(left);
            self.gone = 0;
        }
    }

    /// Keeps only the first `count` bytes.
    pub(crate) fn truncate(&mut self, count: usize)
        requires { count ≤ length self.old.bytes }
        ensures { self.new ≡ record self.old { bytes = take count self.old.bytes } }
    {
        self.bytes.truncate(self.gone + count);
    }

    /// Removes all bytes. The room stays.
    pub(crate) fn clear(&mut self)
        ensures { self.new ≡ record self.old { bytes = [] } }
    {
        self.bytes.clear();
        self.gone = 0;
    }

    /// Removes and returns all bytes in one shared block, without copying them. On `Err` the bytes
    /// stay. Does not allocate if there are none.
    pub(crate) fn take_bytes(&mut self) -> Result<Bytes, AllocError>
        ensures bytes { IfOk result (λ b. b ≡ self.old.bytes) }
        ensures taken { OnOk result (self.new.bytes ≡ []) }
        ensures none { self.old.bytes ≡ [] → IsOk result }
        ensures err { OnErr result (self.new.bytes ≡ self.old.bytes) }
    {
        if self.len() == 0 {
            return Ok(Bytes::new());
        }
        self.room = 0;
        let none = Vec::new(*self.bytes.allocator());
        match Bytes::from_vec(mem::replace(&mut self.bytes, none)) {
            Ok(mut bytes) => {
                bytes.advance(self.gone);
                self.gone = 0;
                Ok(bytes)
            }
            Err(failed) => {
                self.bytes = failed.value;
                Err(AllocError)
            }
        }
    }

    /// Gives up the room of this number of bytes.
    pub(crate) fn forget_some(&mut self, count: usize)
        ensures { self.new ≡ record self.old { room = self.old.room - count } }
    {
        self.room = self.room.saturating_sub(count);
    }

    /// Frees the buffer.
    pub(crate) fn free(&mut self)
        ensures { self.new ≡ record { bytes = []; room = 0 } }
    {
        self.bytes = Vec::new(*self.bytes.allocator());
        self.gone = 0;
        self.room = 0;
    }

    /// Gives up the room beyond the pending bytes.
    pub(crate) fn forget_room(&mut self)
        ensures { self.new ≡ record self.old { room = 0 } }
    {
        self.room = 0;
    }
}
