//! The sender's state (2.3.1, 4.3.2, 4.3.3, 4.4).

ghost use Rattle.std.specs.Prelude.{ℕ, ◌≡◌, ◌↔◌, ◌<◌, ◌≤◌, ◌+◌, ◌-◌, ◌==◌, ◌&&◌, if◌then◌else◌, true, false, nat_lt, length, [], IsSome, IfSome, IsTrue, IsOk, IfOk, IfErr, OnOk, OnErr, IsErrOf};
ghost use Rattle.mq_flow.specs.Sender.{same_qos, accept as accepted};

use crate::claim::{Claim, Claimed};
use crate::entry::SenderEntry;
use crate::iter::{Entries, Releases};
use crate::queue::{claim_at, count_of, has_subscribe, has_unsubscribe};
use crate::reaction::Refusal;
use crate::table::{Held, Table};
use mq_packet::{Message, PacketId};
use mq_topic::Qos;
use std::alloc::{AllocError, Global};
use std::collections::HashSet;
use std::marker::Model;

/// A sender: the messages that it accepted and that are not acknowledged, the identifiers that are
/// released, those in use by SUBSCRIBE and UNSUBSCRIBE, and which identifier it gives next (2.3.1,
/// 4.3.2, 4.3.3).
///
/// Call `accept` for each message. Then call `on_puback` for QoS 1, or `on_pubrec` and `on_pubcomp`
/// for QoS 2, when these packets arrive. Call `resend` after each reconnect.
#[derive(Debug, Drop)]
pub struct Sender {
    /// The messages and the released identifiers.
    pub(crate) table: Table,
    pub(crate) claimed: Vec<Claimed>,
    /// The identifiers of the claims, so that each is found at once.
    pub(crate) claimed_ids: HashSet<u16>,
    pub(crate) capacity: u16,
    pub(crate) last: u16,
    /// How many messages it can still accept without more memory, as reserved.
    pub(crate) room: usize,
}

impl Model for Sender {
    ghost use Rattle.std.specs.Prelude.{◌≤◌};
    ghost use Rattle.mq_flow.specs.Held.{book_of, AreUnder};
    ghost use Rattle.mq_flow.specs.Sending.{Sending, Keeps, AreClaimed};

    ghost Value = { Sending };

    ghost view = { λ s. record { book = book_of s.table.pairs s.claimed.items; capacity = s.capacity; last = s.last; room = s.room } };

    ghost invariant = { λ s. Keeps (record { book = book_of s.table.pairs s.claimed.items; capacity = s.capacity; last = s.last; room = s.room }) × AreUnder s.table.pairs × AreClaimed s.claimed_ids.keys s.claimed.items
        × (s.room ≤ s.table.spare) };
}

impl Sender {
    ghost use Rattle.mq_flow.specs.Prelude.{list_any, ShowsInOrder, GivesInOrder, deref, SenderEntry, Q0, Q1, Q2, IsSound, next_identifier, blank_book, uses, times, IsFree, IsFirstFree, is_full, is_awaited, held, claim, release, no_claims, awaits_suback, awaits_unsuback, stored_bytes};

    /// Makes a sender that has no message and gave no identifier, and in which at most `capacity`
    /// identifiers may be in use (2.3.1).
    pub fn new(alloc: Global, capacity: u16) -> Sender
        requires { 0 < capacity }
        ensures book { result.book ≡ blank_book }
        ensures capacity { result.capacity ≡ capacity }
        ensures last { result.last ≡ 0 }
        ensures room { result.room ≡ 0 }
    {
        Sender {
            table: Table::new(alloc),
            claimed: Vec::new(alloc),
            claimed_ids: HashSet::new(alloc),
            capacity,
            last: 0,
            room: 0,
        }
    }

    /// Returns the maximum number of identifiers in use, at least 1 (2.3.1).
    pub fn capacity(&self) -> u16
        ensures capacity { result ≡ self.now.capacity }
        ensures able { 0 < result }
        ensures sound { IsSound result self.now.book }
    {
        self.capacity
    }

    /// Returns the messages that are not acknowledged, in order of acceptance (4.3.2, 4.3.3).
    pub fn entries(&self) -> Entries<'_>
        ensures rest { result ≡ self.now.book.entries }
        ensures runs { ShowsInOrder (deref {X = SenderEntry}) }
        ensures kept { list_any (λ e. same_qos Q0 e.message.qos) self.now.book.entries ≡ false }
    {
        self.table.entries()
    }

    /// Returns the identifiers that are released, in the order of the PUBRECs (4.3.3).
    pub fn releases(&self) -> Releases<'_>
        ensures rest { result ≡ self.now.book.released }
        ensures runs { GivesInOrder ℕ }
    {
        self.table.releases()
    }

    /// Returns how many more identifiers may be in use (2.3.1).
    pub fn left(&self) -> usize
        ensures { result ≡ self.now.capacity - length (uses self.now.book) }
    {
        let used = self.table.len() + self.claimed.len();
        self.capacity as usize - used
    }

    /// Returns the identifier of the next packet: the first free one after the one assigned last,
    /// going round, or `None` if the capacity is in use (2.3.1).
    pub fn next_id(&self) -> Option<PacketId>
        ensures some { IsSome result ↔ (is_full self.now.capacity self.now.book ≡ false) }
        ensures first { IfSome result (IsFirstFree self.now.last self.now.book) }
    {
        if self.left() == 0 {
            return None;
        }
        let mut number = self.last;
        for _ in 0..65_535_u16 {
            let id = following(number);
            if !self.is_in_use(id) {
                return Some(id);
            }
            number = id.get();
        }
        None
    }

    /// Returns whether an identifier is in use (2.3.1).
    pub(crate) fn is_in_use(&self, id: PacketId) -> bool
        ensures { result ≡ nat_lt 0 (times id (uses self.now.book)) }
    {
        self.table.get(id).is_some() || self.claimed_ids.contains(&id.get())
    }

    /// Reserves room for `count` messages, which can then be accepted without allocation.
    pub fn reserve(&mut self, count: usize) -> Result<(), AllocError>
        ensures ok { OnOk result (count ≤ self.new.room) }
        ensures more { self.old.room ≤ self.new.room }
        ensures rest { self.new ≡ record self.old { room = self.new.room } }
        ensures err { OnErr result (self.new ≡ self.old) }
    {
        self.table.reserve(count)?;
        self.room = self.room.max(count);
        Ok(())
    }

    /// Accepts a message under a free identifier. Must not be called when the capacity is in use.
    /// `sent` says that its PUBLISH is sent at once (4.3.2, 4.3.3). Reserves the memory that its
    /// acknowledgements need. Does not fail if room was reserved.
    pub fn accept_as(
        &mut self,
        id: PacketId,
        message: Message,
        sent: bool,
    ) -> Result<(), AllocError>
        requires free { IsFree self.old.book id }
        requires room { is_full self.old.capacity self.old.book ≡ false }
        requires kept { message.qos ≡ Q0 → ⊥ }
        ensures book { OnOk result (self.new.book ≡ accepted id message sent self.old.book) }
        ensures last { OnOk result (self.new.last ≡ id) }
        ensures capacity { self.new.capacity ≡ self.old.capacity }
        ensures room { OnOk result (self.new.room ≡ self.old.room - 1) }
        ensures reserved { 0 < self.old.room → IsOk result }
        ensures err { OnErr result (self.new ≡ self.old) }
    {
        let entry = SenderEntry { id, message, sent };
        self.table.add(Held::Waiting(entry))?;
        self.last = id.get();
        self.room = self.room.saturating_sub(1);
        Ok(())
    }

    /// Accepts a message with QoS 1 or 2 under the next free identifier, to be sent later (2.3.1,
    /// 4.3.2, 4.3.3). Errors: `Full` if the capacity is in use; `Memory` if an allocation fails,
    /// which can't happen if room was reserved.
    #[tactic(auto, using(crate::proofs::Next::is_next))]
    pub fn accept(&mut self, message: Message) -> Result<PacketId, Refusal>
        requires kept { message.qos ≡ Q0 → ⊥ }
        ensures full { IsErrOf result Refusal.Full ↔ (is_full self.old.capacity self.old.book ≡ true) }
        ensures next { IfOk result (λ id. id ≡ next_identifier self.old.last self.old.book) }
        ensures book { IfOk result (λ id. self.new.book ≡ accepted id message false self.old.book) }
        ensures last { IfOk result (λ id. self.new.last ≡ id) }
        ensures capacity { self.new.capacity ≡ self.old.capacity }
        ensures room { OnOk result (self.new.room ≡ self.old.room - 1) }
        ensures reserved { 0 < self.old.room → IfErr result (λ why. why ≡ Refusal.Full) }
        ensures err { OnErr result (self.new ≡ self.old) }
    {
        let Some(id) = self.next_id() else {
            return Err(Refusal::Full);
        };
        match self.accept_as(id, message, false) {
            Ok(()) => Ok(id),
            Err(_) => Err(Refusal::Memory),
        }
    }

    /// Assigns a free identifier to a SUBSCRIBE or UNSUBSCRIBE with `count` filters (2.3.1). Must
    /// not be called when the capacity is in use.
    pub fn claim_as(&mut self, id: PacketId, kind: Claim, count: usize) -> Result<(), AllocError>
        requires free { IsFree self.old.book id }
        requires room { is_full self.old.capacity self.old.book ≡ false }
        ensures book { OnOk result (self.new.book ≡ claim id kind count self.old.book) }
        ensures last { OnOk result (self.new.last ≡ id) }
        ensures capacity { self.new.capacity ≡ self.old.capacity }
        ensures room { self.new.room ≡ self.old.room }
        ensures err { OnErr result (self.new ≡ self.old) }
    {
        self.claimed.reserve(1)?;
        self.claimed_ids.insert(id.get())?;
        self.claimed.push_reserved(Claimed { id, kind, count });
        self.last = id.get();
        Ok(())
    }

    /// Frees an identifier if it is in use by a SUBSCRIBE or an UNSUBSCRIBE (2.3.1).
    pub fn release_id(&mut self, id: PacketId)
        ensures book { self.new.book ≡ release id self.old.book }
        ensures capacity { self.new.capacity ≡ self.old.capacity }
        ensures last { self.new.last ≡ self.old.last }
        ensures room { self.new.room ≡ self.old.room }
    {
        if let Some(at) = claim_at(&self.claimed, id) {
            let _ = self.claimed.remove(at);
            let _ = self.claimed_ids.remove(&id.get());
        }
    }

    /// Frees all identifiers that are in use by SUBSCRIBE and UNSUBSCRIBE: a connection is over.
    pub fn free_claims(&mut self)
        ensures book { self.new.book ≡ no_claims self.old.book }
        ensures capacity { self.new.capacity ≡ self.old.capacity }
        ensures last { self.new.last ≡ self.old.last }
        ensures room { self.new.room ≡ self.old.room }
    {
        self.claimed_ids.clear();
        self.claimed.clear();
    }

    /// Discards all unfinished messages (3.1.2.4). Reserved room stays.
    pub(crate) fn discard(&mut self)
        ensures { self.new ≡ record self.old { book = blank_book; last = 0 } }
    {
        self.free_claims();
        self.table.clear();
        self.last = 0;
    }

    /// Returns the identifiers that are in use by SUBSCRIBE and UNSUBSCRIBE, in the order of the
    /// claims (2.3.1).
    pub fn pending(&self) -> &[Claimed]
        ensures { result.now ≡ self.now.book.claimed }
    {
        self.claimed.as_slice()
    }

    /// Returns how many messages of this quality of service are not acknowledged (4.3.2, 4.3.3).
    pub fn holds(&self, qos: Qos) -> usize
        ensures { result ≡ length (held qos self.now.book.entries) }
    {
        count_of(self.table.entries(), qos)
    }

    /// Returns how many identifiers are released and wait for their PUBCOMP (4.3.3).
    pub fn released(&self) -> usize
        ensures { result ≡ length self.now.book.released }
    {
        self.table.released()
    }

    /// Returns whether a message has this identifier.
    pub fn has(&self, id: PacketId) -> bool
        ensures { result ≡ list_any (λ e. e.id == id) self.now.book.entries }
    {
        match self.table.get(id) {
            Some(Held::Waiting(_)) => true,
            Some(Held::Released(_)) => false,
            None => false,
        }
    }

    /// Returns the number of topic and payload bytes of the messages not yet acknowledged (4.1).
    pub fn stored_bytes(&self) -> u64
        ensures { result ≡ stored_bytes self.now.book }
    {
        self.table.bytes()
    }

    /// Returns whether there is no message and no released identifier.
    pub fn is_idle(&self) -> bool
        ensures { IsTrue result ↔ ((self.now.book.entries ≡ []) × (self.now.book.released ≡ [])) }
    {
        self.table.len() == 0
    }

    /// Returns whether a message of quality of service 1 was sent with this identifier and waits
    /// for PUBACK (4.3.2).
    pub fn awaits_puback(&self, id: PacketId) -> bool
        ensures { result ≡ is_awaited Q1 id self.now.book.entries }
    {
        self.awaits(Qos::Q1, id)
    }

    /// Returns whether a message of quality of service 2 was sent with this identifier and waits
    /// for PUBREC (4.3.3).
    pub fn awaits_pubrec(&self, id: PacketId) -> bool
        ensures { result ≡ is_awaited Q2 id self.now.book.entries }
    {
        self.awaits(Qos::Q2, id)
    }

    /// Returns whether a message of this quality of service was sent with this identifier.
    pub(crate) fn awaits(&self, qos: Qos, id: PacketId) -> bool
        ensures { result ≡ is_awaited qos id self.now.book.entries }
    {
        match self.table.get(id) {
            Some(Held::Waiting(entry)) => is_sent(entry, qos),
            Some(Held::Released(_)) => false,
            None => false,
        }
    }

    /// Returns whether an identifier is released.
    pub(crate) fn is_released(&self, id: PacketId) -> bool
        ensures { result ≡ list_any (λ j. j == id) self.now.book.released }
    {
        match self.table.get(id) {
            Some(Held::Waiting(_)) => false,
            Some(Held::Released(_)) => true,
            None => false,
        }
    }

    /// Returns whether a SUBSCRIBE of this identifier waits for that many codes (3.8.4).
    pub fn awaits_suback(&self, id: PacketId, count: usize) -> bool
        ensures { result ≡ awaits_suback id count self.now.book }
    {
        has_subscribe(&self.claimed, id, count)
    }

    /// Returns whether an UNSUBSCRIBE with this identifier is pending (3.10.4).
    pub fn awaits_unsuback(&self, id: PacketId) -> bool
        ensures { result ≡ awaits_unsuback id self.now.book }
    {
        has_unsubscribe(&self.claimed, id)
    }
}

/// Returns whether a message is of this quality of service and was sent.
fn is_sent(entry: &SenderEntry, qos: Qos) -> bool
    ensures { result ≡ (same_qos qos entry.now.message.qos && entry.now.sent) }
{
    entry.message.qos == qos && entry.sent
}

/// Returns the identifier after this number, counted round from 65,535 to 1.
fn following(number: u16) -> PacketId
    ensures { result ≡ (if nat_lt number 65535 then number + 1 else 1) }
{
    let next = if number < 65_535 { number + 1 } else { 1 };
    PacketId::new(next).unwrap()
}
