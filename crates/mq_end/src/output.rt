//! Pending output.

ghost use Rattle.std.specs.Prelude.{◌≡◌, ℕ, ◌+◌, ◌-◌, ◌<◌, ◌≤◌, ◌^◌, List, [], ◌++◌, length, drop, take, true, None, IsOk, IfOk, IfSome, OnOk, OnErr};
ghost use Rattle.mq_end.specs.Prelude.{fits_delivery, Encodes, fields, whole_size, pending};

use crate::block::Block;
use crate::buffer::Buffer;
use bytes::Bytes;
use mq_packet::{Delivery, Message, Packet};
use std::alloc::{AllocError, Global};
use std::marker::Model;

/// Pending output, the oldest byte first: bytes in a buffer of its own, or one block that other
/// connections may share. More output after a block copies it into the buffer. Contracts see the
/// bytes, and how many may be pending without allocation.
#[derive(Debug, Drop)]
pub(crate) struct Output {
    own: Buffer,
    // All pending bytes, if they are a block. Then the buffer is empty.
    shared: Option<Block>,
}

impl Model for Output {
    ghost use Rattle.std.specs.Prelude.{◌≡◌, [], IfSome};
    ghost use Rattle.mq_end.specs.Waiting.{Waiting, pending};

    ghost Value = { Waiting };

    ghost view = { λ o. record { bytes = pending o.shared o.own.bytes; room = o.own.room } };

    ghost invariant = { λ o. IfSome o.shared (λ _. o.own.bytes ≡ []) };
}

// Copies a shared block into the buffer. On `Err` nothing changes. Can't fail within the room.
fn copy_shared(own: &mut Buffer, shared: &mut Option<Block>) -> Result<(), AllocError>
    requires alone { IfSome shared.old (λ _. own.old.bytes ≡ []) }
    ensures own { OnOk result (own.new ≡ record own.old { bytes = pending shared.old own.old.bytes }) }
    ensures shared { OnOk result (shared.new ≡ None) }
    ensures within { length (pending shared.old own.old.bytes) ≤ own.old.room → IsOk result }
    ensures err { OnErr result (own.new ≡ own.old) }
    ensures stays { OnErr result (shared.new ≡ shared.old) }
{
    if let Some(block) = shared {
        own.append(block.as_slice())?;
        *shared = None;
    }
    Ok(())
}

impl Output {
    /// No bytes and no room.
    pub(crate) fn new(alloc: Global) -> Output
        ensures { result ≡ record { bytes = []; room = 0 } }
    {
        Output {
            own: Buffer::new(alloc),
            shared: None,
        }
    }

    /// The bytes, the oldest first.
    pub(crate) fn as_slice(&self) -> &[u8]
        ensures { result.now ≡ self.now.bytes }
    {
        match &self.shared {
            Some(block) => block.as_slice(),
            None => self.own.as_slice(),
        }
    }

    /// The number of pending bytes.
    pub(crate) fn len(&self) -> usize
        ensures { result ≡ length self.now.bytes }
    {
        match &self.shared {
            Some(block) => block.len(),
            None => self.own.len(),
        }
    }

    /// Reserves room for `more` bytes behind the pending ones.
    pub(crate) fn reserve(&mut self, more: usize) -> Result<(), AllocError>
        ensures ok { OnOk result (length self.old.bytes + more ≤ self.new.room) }
        ensures more { self.old.room ≤ self.new.room }
        ensures rest { self.new ≡ record self.old { room = self.new.room } }
        ensures err { OnErr result (self.new ≡ self.old) }
    {
        let Some(block) = &self.shared else {
            return self.own.reserve(more);
        };
        match block.len().checked_add(more) {
            Some(size) => self.own.reserve(size),
            None => Err(AllocError),
        }
    }

    /// Appends bytes.
    pub(crate) fn append(&mut self, bytes: &[u8]) -> Result<(), AllocError>
        ensures ok { OnOk result (self.new ≡ record self.old { bytes = self.old.bytes ++ bytes.now }) }
        ensures err { OnErr result (self.new ≡ self.old) }
    {
        copy_shared(&mut self.own, &mut self.shared)?;
        self.own.append(bytes)
    }

    /// Appends the encoding of a packet (chapter 3). Fails if the packet is too large or an
    /// allocation fails, which can't happen within the room.
    pub(crate) fn append_packet(&mut self, packet: &Packet) -> Result<(), AllocError>
        ensures ok { OnOk result
            ((b : List ℕ) × Encodes packet.now b × (self.new ≡ record self.old { bytes = self.old.bytes ++ b })) }
        ensures within { length (fields packet.now) < 2 ^ 28
            → length self.old.bytes + whole_size (length (fields packet.now)) ≤ self.old.room → IsOk result }
        ensures err { OnErr result (self.new ≡ self.old) }
    {
        copy_shared(&mut self.own, &mut self.shared)?;
        self.own.append_packet(packet)
    }

    /// Appends the encoding of a PUBLISH of a borrowed message (3.3). `delivery` must be given
    /// exactly for QoS 1 and 2. Fails if the packet is too large or an allocation fails, which
    /// can't happen within the room.
    pub(crate) fn append_publish(
        &mut self,
        message: &Message,
        delivery: Option<Delivery>,
    ) -> Result<(), AllocError>
        requires { fits_delivery message.now.qos delivery ≡ true }
        ensures ok { let packet = Packet.Publish (record { message = message.now; delivery = delivery }) in OnOk result
            ((b : List ℕ) × Encodes packet b × (self.new ≡ record self.old { bytes = self.old.bytes ++ b })) }
        ensures within { let packet = Packet.Publish (record { message = message.now; delivery = delivery }) in
            length (fields packet) < 2 ^ 28
            → length self.old.bytes + whole_size (length (fields packet)) ≤ self.old.room → IsOk result }
        ensures err { OnErr result (self.new ≡ self.old) }
    {
        copy_shared(&mut self.own, &mut self.shared)?;
        self.own.append_publish(message, delivery)
    }

    /// Makes a block the pending output. Nothing must be pending.
    pub(crate) fn share(&mut self, block: Block)
        requires { self.old.bytes ≡ [] }
        ensures { self.new ≡ record self.old { bytes = self.old.bytes ++ block } }
    {
        self.own.clear();
        self.shared = Some(block);
    }

    /// Appends the encoding of a PUBLISH, as [`append_publish`](Output::append_publish) does. Uses
    /// a block that has this encoding if one is given and nothing is pending.
    pub(crate) fn append_encoded(
        &mut self,
        message: &Message,
        delivery: Option<Delivery>,
        block: Option<Block>,
    ) -> Result<(), AllocError>
        requires fits { fits_delivery message.now.qos delivery ≡ true }
        requires encoded { IfSome block (λ b. Encodes (Packet.Publish (record { message = message.now; delivery = delivery })) b) }
        ensures ok { let packet = Packet.Publish (record { message = message.now; delivery = delivery }) in OnOk result
            ((b : List ℕ) × Encodes packet b × (self.new ≡ record self.old { bytes = self.old.bytes ++ b })) }
        ensures within { let packet = Packet.Publish (record { message = message.now; delivery = delivery }) in
            length (fields packet) < 2 ^ 28
            → length self.old.bytes + whole_size (length (fields packet)) ≤ self.old.room → IsOk result }
        ensures err { OnErr result (self.new ≡ self.old) }
    {
        match block {
            Some(block) if self.len() == 0 => {
                self.share(block);
                Ok(())
            }
            _ => self.append_publish(message, delivery),
        }
    }

    /// Removes bytes from the front, and the room that they had.
    pub(crate) fn take(&mut self, count: usize)
        requires { count ≤ length self.old.bytes }
        ensures { self.new ≡ record { bytes = drop count self.old.bytes; room = self.old.room - count } }
    {
        if let Some(block) = &mut self.shared {
            block.advance(count);
            self.own.forget_some(count);
        } else {
            self.own.take(count);
        }
    }

    /// Keeps only the first `count` bytes.
    pub(crate) fn truncate(&mut self, count: usize)
        requires { count ≤ length self.old.bytes }
        ensures { self.new ≡ record self.old { bytes = take count self.old.bytes } }
    {
        if let Some(block) = &mut self.shared {
            block.truncate(count);
        } else {
            self.own.truncate(count);
        }
    }

    /// Removes all bytes. The room stays.
    pub(crate) fn clear(&mut self)
        ensures { self.new ≡ record self.old { bytes = [] } }
    {
        self.shared = None;
        self.own.clear();
    }

    /// Removes and returns all bytes in one shared block, without copying them. On `Err` the bytes
    /// stay. Does not allocate if there are none.
    pub(crate) fn take_bytes(&mut self) -> Result<Bytes, AllocError>
        ensures bytes { IfOk result (λ b. b ≡ self.old.bytes) }
        ensures taken { OnOk result (self.new.bytes ≡ []) }
        ensures none { self.old.bytes ≡ [] → IsOk result }
        ensures err { OnErr result (self.new.bytes ≡ self.old.bytes) }
    {
        match self.shared.take() {
            Some(block) => {
                self.own.free();
                Ok(block.into_bytes())
            }
            None => self.own.take_bytes(),
        }
    }

    /// Gives up the room beyond the pending bytes.
    pub(crate) fn forget_room(&mut self)
        ensures { self.new ≡ record self.old { room = 0 } }
    {
        self.own.forget_room();
    }
}
