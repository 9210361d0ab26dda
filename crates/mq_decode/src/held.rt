//! The bytes that a decoder holds.

ghost use Rattle.std.specs.Prelude.{◌≡◌, ◌-◌, ◌<◌, ◌≤◌, ◌^◌, ◌++◌, [], ◌∷◌, length, true, IfErr, IfNone, IfOk, IfSome, IsFalse, IsTrue, OnOk, ◌==◌};
ghost use Rattle.mq_decode.specs.Prelude.{counted_more, IsFront, Pending, Wants};

use crate::fault::DecodeError;
use crate::limits::Limits;
use crate::take::{lacking, take_held, wanted};
use mq_packet::Packet;
use std::alloc::Global;
use std::marker::Model;

/// The most memory that a buffer without bytes keeps for the next packet.
const KEPT: usize = 4096;

/// The bytes of the incomplete packet, a lower bound on the missing ones if it is known, and the
/// number of bytes ever held. Contracts also see the capacity of the buffer.
#[derive(Debug, Drop)]
pub(crate) struct Held {
    bytes: Vec<u8>,
    wants: usize,
    copied: u64,
}

impl Model for Held {
    ghost use Rattle.mq_decode.specs.State.{HeldBytes};

    ghost Value = { HeldBytes };

    ghost use Rattle.std.specs.Prelude.{vec_capacity};

    ghost view = { λ h. record {
      bytes = h.bytes.items;
      wants = h.wants;
      copied = h.copied;
      capacity = vec_capacity h.bytes;
    } };
}

impl Held {
    /// No bytes.
    pub(crate) fn new(alloc: Global) -> Held
        ensures bytes { result.bytes ≡ [] }
        ensures wants { result.wants ≡ 0 }
        ensures copied { result.copied ≡ 0 }
        ensures small { result.capacity ≤ 4096 }
    {
        Held {
            bytes: Vec::new(alloc),
            wants: 0,
            copied: 0,
        }
    }

    /// Appends bytes and counts them. As many fewer are missing.
    pub(crate) fn hold(&mut self, bytes: &[u8]) -> Result<(), DecodeError>
        ensures ok { OnOk result (self.new.bytes ≡ self.old.bytes ++ bytes.now) }
        ensures wants { OnOk result (self.new.wants ≡ self.old.wants - length bytes.now) }
        ensures copied { OnOk result
            (self.new.copied ≡ counted_more self.old.copied (length bytes.now)) }
        ensures err { IfErr result (λ e. e ≡ DecodeError.Memory) }
    {
        match self.bytes.extend_from_slice(bytes) {
            Ok(()) => {
                self.wants = self.wants.saturating_sub(bytes.len());
                self.copied = self.copied.saturating_add(bytes.len() as u64);
                Ok(())
            }
            Err(_) => Err(DecodeError::Memory),
        }
    }

    /// Appends one byte and counts it. The number of missing bytes stays.
    #[inline(always)]
    pub(crate) fn hold_byte(&mut self, byte: u8) -> Result<(), DecodeError>
        ensures ok { OnOk result (self.new.bytes ≡ self.old.bytes ++ byte ∷ []) }
        ensures copied { OnOk result (self.new.copied ≡ counted_more self.old.copied 1) }
        ensures wants { self.new.wants ≡ self.old.wants }
        ensures err { IfErr result (λ e. e ≡ DecodeError.Memory) }
    {
        match self.bytes.push(byte) {
            Ok(()) => {
                self.copied = self.copied.saturating_add(1);
                Ok(())
            }
            Err(_) => Err(DecodeError::Memory),
        }
    }

    /// Whether the packet is known to want another byte behind the one that was put here last,
    /// which is one less of those that it wants.
    #[inline(always)]
    pub(crate) fn waits(&mut self) -> bool
        ensures more { IsTrue result → 1 < self.old.wants }
        ensures less { IsTrue result → self.new.wants ≡ self.old.wants - 1 }
        ensures no { IsFalse result → self.new.wants ≡ self.old.wants }
        ensures bytes { self.new.bytes ≡ self.old.bytes }
        ensures copied { self.new.copied ≡ self.old.copied }
    {
        if self.wants > 1 {
            self.wants -= 1;
            true
        } else {
            false
        }
    }

    /// Whether the packet is an incomplete one by its header; then it is noted how many bytes
    /// it wants.
    pub(crate) fn lacks(&mut self, limits: Limits) -> bool
        ensures less { IsTrue result → Pending limits self.old.bytes }
        ensures wants { IsTrue result → Wants limits self.old.bytes self.new.wants }
        ensures no { IsFalse result → Pending limits self.old.bytes → ⊥ }
        ensures bytes { self.new.bytes ≡ self.old.bytes }
        ensures copied { self.new.copied ≡ self.old.copied }
    {
        match lacking(limits, self.bytes.as_slice()) {
            Some(count) => {
                self.wants = count;
                true
            }
            None => false,
        }
    }

    /// The bytes.
    pub(crate) fn as_slice(&self) -> &[u8]
        ensures { result.now ≡ self.now.bytes }
    {
        self.bytes.as_slice()
    }

    /// A lower bound on the number of missing bytes. Reads the header if it isn't known.
    pub(crate) fn want(&mut self, limits: Limits) -> usize
        requires { Wants limits self.old.bytes self.old.wants }
        ensures some { 0 < result }
        ensures exact { Wants limits self.new.bytes result }
        ensures wants { self.new.wants ≡ result }
        ensures bytes { self.new.bytes ≡ self.old.bytes }
        ensures copied { self.new.copied ≡ self.old.copied }
    {
        if self.wants == 0 {
            self.wants = wanted(limits, self.bytes.as_slice());
        }
        self.wants
    }

    /// Whether there are none.
    pub(crate) fn is_empty(&self) -> bool
        ensures value { result ≡ (length self.now.bytes == 0) }
        ensures count { self.now.copied < 2 ^ 64 }
    {
        let _copied = self.copied;
        self.bytes.is_empty()
    }

    /// How many bytes were put here.
    pub(crate) fn copied(&self) -> u64
        ensures { result ≡ self.now.copied }
    {
        self.copied
    }

    /// Whether a piece has no bytes to put here.
    #[inline(always)]
    pub(crate) fn gets_nothing(&self, piece: &[u8]) -> bool
        ensures value { result ≡ (length piece.now == 0) }
        ensures count { self.now.copied < 2 ^ 64 }
    {
        let _copied = self.copied;
        piece.is_empty()
    }

    /// Whether a piece has bytes, and fewer than the packet is known to want.
    #[inline(always)]
    pub(crate) fn wants_over(&self, piece: &[u8]) -> bool
        ensures some { IsTrue result → 0 < length piece.now }
        ensures over { IsTrue result → length piece.now < self.now.wants }
        ensures no { IsFalse result → 0 < length piece.now → self.now.wants ≤ length piece.now }
    {
        !piece.is_empty() && piece.len() < self.wants
    }

    /// Drops the bytes, and their memory if it is large. The count stays.
    pub(crate) fn clear(&mut self, alloc: Global)
        ensures bytes { self.new.bytes ≡ [] }
        ensures wants { self.new.wants ≡ 0 }
        ensures copied { self.new.copied ≡ self.old.copied }
        ensures small { self.new.capacity ≤ 4096 }
    {
        if self.bytes.capacity() > KEPT {
            self.bytes = Vec::new(alloc);
        } else {
            self.bytes.clear();
        }
        self.wants = 0;
    }

    /// Drops the bytes and the count.
    pub(crate) fn reset(&mut self, alloc: Global)
        ensures bytes { self.new.bytes ≡ [] }
        ensures wants { self.new.wants ≡ 0 }
        ensures copied { self.new.copied ≡ 0 }
        ensures small { self.new.capacity ≤ 4096 }
    {
        self.clear(alloc);
        self.copied = 0;
    }

    /// The packet at the front with its size. A packet that fills the buffer takes it over, and its
    /// payload shares it.
    pub(crate) fn take(
        &mut self,
        alloc: Global,
        limits: Limits,
    ) -> Result<Option<(Packet, usize)>, DecodeError>
        ensures front { IsFront limits self.old.bytes result }
        ensures kept { IfOk result (λ o. IfNone o (self.new.bytes ≡ self.old.bytes)) }
        ensures wants { self.new.wants ≡ self.old.wants }
        ensures copied { self.new.copied ≡ self.old.copied }
    {
        take_held(alloc, limits, &mut self.bytes)
    }
}
