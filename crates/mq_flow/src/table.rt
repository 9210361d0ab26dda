//! The identifiers of messages, each found at once, and in an order (2.3.1, 4.3.2, 4.3.3).

ghost use Rattle.std.specs.Prelude.{ℕ, ◌≡◌, ◌+◌, ◌^◌, ◌<◌, ◌≤◌, [], ◌∷◌, ◌++◌, None, List, nat_eq, length, map, is_some, filter, vec_capacity, slice_set, slice_index_or, Some, if◌then◌else◌, OnOk, OnErr, IsOk, IsSome, IfSome};
ghost use Rattle.std.specs.Option.{option_copied, option_map};
ghost use Rattle.std.specs.HashMap.{get, hash_map_len, spare};
ghost use Rattle.std.specs.Map.{keys_of, lookup, remove_entry};
ghost use Rattle.mq_flow.specs.Held.{messages, id_in, pairs_in, IsPlaced};
ghost use Rattle.mq_flow.specs.Inside.Held.{bytes_found, bytes_in, gone_out};
ghost use Rattle.mq_flow.specs.Sender.{times};

use crate::entry::SenderEntry;
use crate::iter::{Entries, Releases};
use crate::stored::message_bytes;
use mq_packet::PacketId;
use std::alloc::{AllocError, Global};
use std::collections::HashMap;
use std::marker::Model;

/// An entry of the table.
#[derive(Debug, Drop)]
pub(crate) enum Held {
    /// The message, which is not acknowledged (4.3.2, 4.3.3).
    Waiting(SenderEntry),
    /// A released identifier: its message is acknowledged and its PUBCOMP is pending (4.3.3).
    Released(PacketId),
}

impl Held {
    /// Returns the identifier that it is kept under.
    pub(crate) fn id(&self) -> PacketId
        ensures { result ≡ id_in self.now }
    {
        match self {
            Held::Waiting(entry) => entry.id,
            Held::Released(id) => *id,
        }
    }
}

/// Entries by identifier, the oldest first. Look-up, insertion and removal take constant time: a
/// removal leaves an empty slot, and when the slots are used up the others move together.
#[derive(Debug, Drop)]
pub(crate) struct Table {
    /// The entries, the oldest first, with empty slots between them.
    pub(crate) slots: Vec<Option<Held>>,
    /// The place in which each identifier is.
    pub(crate) places: HashMap<u16, usize>,
    /// The topic and payload bytes of the messages.
    pub(crate) bytes: u64,
}

impl Model for Table {
    ghost use Rattle.std.specs.Prelude.{◌≡◌, ◌-◌, ◌≤◌, min, length, nat_eq, vec_capacity};
    ghost use Rattle.std.specs.HashMap.{get, hash_map_len, spare};
    ghost use Rattle.mq_flow.specs.Held.{Kept, messages, pairs_in, place_from, IsPlaced};
    ghost use Rattle.mq_flow.specs.Stored.{AreCounted};

    ghost Value = { Kept };

    ghost view = { λ t. record { pairs = pairs_in t.slots.items; spare = min (vec_capacity t.slots - 1 - length (pairs_in t.slots.items)) (spare t.places) } };

    ghost invariant = { λ t. IsPlaced t.slots.items (get nat_eq t.places) (hash_map_len t.places) × (length (pairs_in t.slots.items) ≤ vec_capacity t.slots - 1) × AreCounted t.bytes (messages (pairs_in t.slots.items)) };
}

impl Table {
    ghost use Rattle.mq_flow.specs.Prelude.{ShowsInOrder, GivesInOrder, deref, SenderEntry, bytes_under, releases, entry_bytes, Held};

    /// An empty table.
    pub(crate) fn new(alloc: Global) -> Table
        ensures { result.pairs ≡ [] }
    {
        Table {
            slots: Vec::new(alloc),
            places: HashMap::new(alloc),
            bytes: 0,
        }
    }

    /// Returns how many identifiers there are.
    pub(crate) fn len(&self) -> usize
        ensures { result ≡ length self.now.pairs }
    {
        self.places.len()
    }

    /// Returns how many identifiers are released.
    pub(crate) fn released(&self) -> usize
        ensures { result ≡ length (releases self.now.pairs) }
    {
        self.len() - self.waiting()
    }

    /// Returns how many messages are not acknowledged.
    pub(crate) fn waiting(&self) -> usize
        ensures { result ≡ length (messages self.now.pairs) }
    {
        let mut count = self.len();
        for _ in self.releases() {
            count -= 1;
        }
        count
    }

    /// Returns the number of topic and payload bytes of the messages.
    pub(crate) fn bytes(&self) -> u64
        ensures { result ≡ entry_bytes (messages self.now.pairs) }
    {
        self.bytes
    }

    /// Returns the number of these bytes in the message of an identifier; 0 without a message.
    fn bytes_of(&self, id: PacketId) -> u64
        ensures value { result ≡ bytes_under id self.now.pairs }
        ensures within { result ≤ entry_bytes (messages self.now.pairs) }
    {
        match self.get(id) {
            Some(held) => held_bytes(held),
            None => 0,
        }
    }

    /// Returns how many more the table can keep without more memory.
    pub(crate) fn spare(&self) -> usize
        ensures { result ≡ self.now.spare }
    {
        let used = self.places.len();
        let spare = self.places.capacity() - used;
        (self.slots.capacity().saturating_sub(1) - used).min(spare)
    }

    /// Returns the entry of an identifier.
    pub(crate) fn get(&self, id: PacketId) -> Option<&Held>
        ensures { option_copied result ≡ lookup (nat_eq id) self.now.pairs }
    {
        match self.places.get(&id.get()) {
            Some(at) => held_at(self.slots.as_slice(), *at),
            None => None,
        }
    }

    /// Returns the messages that are not acknowledged, in their order.
    pub(crate) fn entries(&self) -> Entries<'_>
        ensures rest { result ≡ messages self.now.pairs }
        ensures runs { ShowsInOrder (deref {X = SenderEntry}) }
    {
        Entries {
            slots: self.slots.as_slice(),
        }
    }

    /// Returns the identifiers that are released, in their order.
    pub(crate) fn releases(&self) -> Releases<'_>
        ensures rest { result ≡ releases self.now.pairs }
        ensures runs { GivesInOrder ℕ }
    {
        Releases {
            slots: self.slots.as_slice(),
        }
    }

    /// Reserves room for `count` more entries. On `Err` no entry changes.
    pub(crate) fn reserve(&mut self, count: usize) -> Result<(), AllocError>
        ensures ok { OnOk result (count ≤ self.new.spare) }
        ensures pairs { self.new.pairs ≡ self.old.pairs }
        ensures spare { self.old.spare ≤ self.new.spare }
        ensures succeeds { count ≤ self.old.spare → IsOk result }
    {
        if count <= self.spare() {
            return Ok(());
        }
        self.grow(count)
    }

    /// Makes room for that many more, the empty places aside.
    fn grow(&mut self, count: usize) -> Result<(), AllocError>
        ensures ok { OnOk result (count ≤ self.new.spare) }
        ensures pairs { self.new.pairs ≡ self.old.pairs }
        ensures spare { self.old.spare ≤ self.new.spare }
    {
        let Some(more) = count.checked_add(1) else {
            return Err(AllocError);
        };
        self.places.reserve(count)?;
        compact(&mut self.slots, &mut self.places);
        self.slots.reserve_exact(more)
    }

    /// Returns whether so few slots are free that moving the others together would soon be
    /// necessary again.
    fn is_crowded(&self) -> bool {
        let used = self.places.len();
        self.slots.capacity() < (used + used / 8).saturating_add(2)
    }

    /// Adds an entry with a new identifier at the end. On `Err` no entry changes.
    pub(crate) fn add(&mut self, held: Held) -> Result<(), AllocError>
        requires other { lookup (nat_eq (id_in held)) self.old.pairs ≡ None }
        requires few { length self.old.pairs < 65536 }
        ensures ok { OnOk result (self.new.pairs ≡ self.old.pairs ++ (id_in held, held) ∷ []) }
        ensures err { OnErr result (self.new.pairs ≡ self.old.pairs) }
        ensures succeeds { 0 < self.old.spare → IsOk result }
        ensures spare { self.old.spare ≤ self.new.spare + 1 }
        ensures err_spare { OnErr result (self.old.spare ≤ self.new.spare) }
    {
        if self.is_crowded() {
            // If an allocation fails for more, one place may still be free.
            let _ = self.grow(self.len() / 4 + 4);
        }
        self.reserve(1)?;
        self.bytes += held_bytes(&held);
        push(&mut self.slots, &mut self.places, held);
        Ok(())
    }

    /// Releases an identifier, whose message is acknowledged, and moves it to the end.
    pub(crate) fn release(&mut self, id: PacketId)
        requires { IsSome (lookup (nat_eq id) self.old.pairs) }
        ensures pairs { self.new.pairs ≡ remove_entry (nat_eq id) self.old.pairs ++ (id, Held.Released id) ∷ [] }
        ensures spare { self.old.spare ≤ self.new.spare }
    {
        self.bytes -= self.bytes_of(id);
        turn_last(&mut self.slots, &mut self.places, Held::Released(id));
    }

    /// Removes the entry of an identifier.
    pub(crate) fn take(&mut self, id: PacketId)
        ensures pairs { self.new.pairs ≡ remove_entry (nat_eq id) self.old.pairs }
        ensures spare { self.old.spare ≤ self.new.spare }
    {
        let taken = take_out(&mut self.slots, &mut self.places, id);
        self.bytes -= taken_bytes(&taken);
    }

    /// Removes everything.
    pub(crate) fn clear(&mut self)
        ensures pairs { self.new.pairs ≡ [] }
        ensures spare { self.old.spare ≤ self.new.spare }
    {
        self.slots.clear();
        self.places.clear();
        self.bytes = 0;
    }

    /// Marks each message as sent.
    pub(crate) fn mark_all(&mut self)
        ensures pairs { self.new.pairs ≡ map (λ p. (p.0, gone_out p.1)) self.old.pairs }
        ensures spare { self.old.spare ≤ self.new.spare }
    {
        mark_slots(&mut self.slots);
    }
}

/// Returns the number of topic and payload bytes of the message of an entry; 0 without a message.
fn held_bytes(held: &Held) -> u64
    ensures value { result ≡ bytes_in held.now }
    ensures short { result < 2 ^ 29 }
{
    match held {
        Held::Waiting(entry) => message_bytes(&entry.message),
        Held::Released(_) => 0,
    }
}

/// Returns the number of these bytes of an entry that was taken out; 0 without an entry.
fn taken_bytes(taken: &Option<Held>) -> u64
    ensures { result ≡ bytes_found taken.now }
{
    match taken {
        Some(held) => held_bytes(held),
        None => 0,
    }
}

/// Returns the entry in a slot.
fn held_at(slots: &[Option<Held>], at: usize) -> Option<&Held>
    requires { at < length slots.now }
    ensures { option_copied result ≡ slice_index_or slots.now at None }
{
    slots[at].as_ref()
}

/// Replaces the entry of an identifier and moves it to the end.
fn turn_last(slots: &mut Vec<Option<Held>>, places: &mut HashMap<u16, usize>, held: Held)
    requires placed { IsPlaced slots.old.items (get nat_eq places.old) (hash_map_len places.old) }
    requires there { IsSome (lookup (nat_eq (id_in held)) (pairs_in slots.old.items)) }
    requires room { length (pairs_in slots.old.items) < vec_capacity slots.old }
    ensures placed { IsPlaced slots.new.items (get nat_eq places.new) (hash_map_len places.new) }
    ensures pairs { pairs_in slots.new.items ≡ remove_entry (nat_eq (id_in held)) (pairs_in slots.old.items) ++ (id_in held, held) ∷ [] }
    ensures capacity { vec_capacity slots.new ≡ vec_capacity slots.old }
    ensures spare { spare places.old ≤ spare places.new }
{
    move_up(slots, places);
    if let Some(at) = move_place(places, held.id(), slots.len()) {
        let _ = empty(slots, at);
        slots.push_reserved(Some(held));
    }
}

/// Records the new slot of an identifier and returns the old one.
fn move_place(places: &mut HashMap<u16, usize>, id: PacketId, to: usize) -> Option<usize>
    ensures old { result ≡ get nat_eq places.old id }
    ensures moved { IfSome result (λ _. (i : ℕ) → get nat_eq places.new i ≡ (if nat_eq id i then Some to else get nat_eq places.old i)) }
    ensures len { hash_map_len places.new ≡ hash_map_len places.old }
    ensures spare { spare places.new ≡ spare places.old }
{
    let place = places.get_mut(&id.get())?;
    let at = *place;
    *place = to;
    Some(at)
}

/// Removes the entry of an identifier, and returns it. Drops the slots with the last entry, so that
/// they need not move together soon.
fn take_out(
    slots: &mut Vec<Option<Held>>,
    places: &mut HashMap<u16, usize>,
    id: PacketId,
) -> Option<Held>
    requires { IsPlaced slots.old.items (get nat_eq places.old) (hash_map_len places.old) }
    ensures taken { result ≡ lookup (nat_eq id) (pairs_in slots.old.items) }
    ensures placed { IsPlaced slots.new.items (get nat_eq places.new) (hash_map_len places.new) }
    ensures pairs { pairs_in slots.new.items ≡ remove_entry (nat_eq id) (pairs_in slots.old.items) }
    ensures capacity { vec_capacity slots.new ≡ vec_capacity slots.old }
    ensures spare { spare places.old ≤ spare places.new }
{
    let at = places.remove(&id.get())?;
    let held = empty(slots, at);
    if places.is_empty() {
        slots.clear();
    }
    held
}

/// Empties a slot. Returns its entry.
fn empty(slots: &mut Vec<Option<Held>>, at: usize) -> Option<Held>
    requires { at < length slots.old.items }
    ensures was { result ≡ slice_index_or slots.old.items at None }
    ensures items { slots.new.items ≡ slice_set slots.old.items at None }
    ensures capacity { vec_capacity slots.new ≡ vec_capacity slots.old }
{
    slots[at].take()
}

/// Puts a new pair last.
fn push(slots: &mut Vec<Option<Held>>, places: &mut HashMap<u16, usize>, held: Held)
    requires placed { IsPlaced slots.old.items (get nat_eq places.old) (hash_map_len places.old) }
    requires other { lookup (nat_eq (id_in held)) (pairs_in slots.old.items) ≡ None }
    requires room { length (pairs_in slots.old.items) < vec_capacity slots.old }
    requires spare { 0 < spare places.old }
    ensures placed { IsPlaced slots.new.items (get nat_eq places.new) (hash_map_len places.new) }
    ensures pairs { pairs_in slots.new.items ≡ pairs_in slots.old.items ++ (id_in held, held) ∷ [] }
    ensures capacity { vec_capacity slots.new ≡ vec_capacity slots.old }
    ensures spare { spare places.old ≤ spare places.new + 1 }
{
    move_up(slots, places);
    write_place(places, held.id(), slots.len());
    slots.push_reserved(Some(held));
}

/// Records in which place a new identifier is, if there is memory for one more.
fn write_place(places: &mut HashMap<u16, usize>, id: PacketId, at: usize)
    requires other { get nat_eq places.old id ≡ None }
    requires spare { 0 < spare places.old }
    ensures placed { (i : ℕ) → get nat_eq places.new i ≡ (if nat_eq id i then Some at else get nat_eq places.old i) }
    ensures len { hash_map_len places.new ≡ hash_map_len places.old + 1 }
    ensures spare { spare places.old ≤ spare places.new + 1 }
{
    let _ = places.insert(id.get(), at);
}

/// Makes a place free at the end if all are used.
fn move_up(slots: &mut Vec<Option<Held>>, places: &mut HashMap<u16, usize>)
    requires placed { IsPlaced slots.old.items (get nat_eq places.old) (hash_map_len places.old) }
    requires room { length (pairs_in slots.old.items) < vec_capacity slots.old }
    ensures placed { IsPlaced slots.new.items (get nat_eq places.new) (hash_map_len places.new) }
    ensures pairs { pairs_in slots.new.items ≡ pairs_in slots.old.items }
    ensures free { length slots.new.items < vec_capacity slots.new }
    ensures capacity { vec_capacity slots.new ≡ vec_capacity slots.old }
    ensures spare { spare places.old ≤ spare places.new }
{
    if slots.len() == slots.capacity() {
        compact(slots, places);
    }
}

/// Drops the empty places: the others move up.
fn compact(slots: &mut Vec<Option<Held>>, places: &mut HashMap<u16, usize>)
    requires { IsPlaced slots.old.items (get nat_eq places.old) (hash_map_len places.old) }
    ensures placed { IsPlaced slots.new.items (get nat_eq places.new) (hash_map_len places.new) }
    ensures pairs { pairs_in slots.new.items ≡ pairs_in slots.old.items }
    ensures full { length slots.new.items ≡ length (pairs_in slots.old.items) }
    ensures capacity { vec_capacity slots.new ≡ vec_capacity slots.old }
    ensures spare { spare places.old ≤ spare places.new }
{
    drop_empty(slots);
    renumber(slots.as_slice(), places);
}

/// Drops the empty places.
fn drop_empty(slots: &mut Vec<Option<Held>>)
    ensures items { slots.new.items ≡ filter is_some slots.old.items }
    ensures capacity { vec_capacity slots.new ≡ vec_capacity slots.old }
{
    slots.retain(|slot| slot.is_some());
}

/// Records the slot of each identifier again.
fn renumber(slots: &[Option<Held>], places: &mut HashMap<u16, usize>)
    requires once { (i : ℕ) → times i (keys_of (pairs_in slots.now)) ≤ 1 }
    requires many { length (pairs_in slots.now) ≤ hash_map_len places.old }
    ensures placed { IsPlaced slots.now (get nat_eq places.new) (hash_map_len places.new) }
    ensures spare { spare places.old ≤ spare places.new }
{
    places.clear();
    for (at, slot) in slots.iter().enumerate() {
        if let Some(held) = slot {
            write_place(places, held.id(), at);
        }
    }
}

/// Marks each message as sent.
fn mark_slots(slots: &mut Vec<Option<Held>>)
    ensures items { slots.new.items ≡ map (option_map gone_out) slots.old.items }
    ensures capacity { vec_capacity slots.new ≡ vec_capacity slots.old }
{
    for slot in slots.iter_mut() {
        mark(slot);
    }
}

/// Marks a message as sent.
fn mark(slot: &mut Option<Held>)
    ensures { slot.new ≡ option_map gone_out slot.old }
{
    if let Some(Held::Waiting(entry)) = slot {
        entry.sent = true;
    }
}
