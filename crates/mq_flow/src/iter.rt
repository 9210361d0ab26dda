//! Iterators over the sender's state.

ghost use Rattle.std.specs.Prelude.{◌≡◌, [], ◌∷◌, length, MatchOption};
ghost use Rattle.mq_flow.specs.Prelude.{at_most, TakesFirst, deref, messages, releases, pairs_in};

use crate::entry::SenderEntry;
use crate::table::Held;
use mq_packet::PacketId;
use std::marker::Model;

/// An iterator over the messages that a sender accepted and that are not acknowledged, in order of
/// acceptance (4.3.2, 4.3.3).
#[derive(Drop)]
pub struct Entries<'a> {
    pub(crate) slots: &'a [Option<Held>],
}

impl<'a> Model for Entries<'a> {
    ghost use Rattle.std.specs.Prelude.{List};
    ghost use Rattle.mq_flow.specs.declared.entry.SenderEntry.{SenderEntry};
    ghost use Rattle.mq_flow.specs.Held.{messages, pairs_in};

    ghost Value = { List SenderEntry };

    ghost view = { λ s. messages (pairs_in s.slots.now) };
}

impl<'a> Iterator for Entries<'a> {
    type Item = &'a SenderEntry;

    ghost next_gives = { TakesFirst deref };

    ghost remaining = { λ s. at_most (length s) };

    fn next(&mut self) -> Option<&'a SenderEntry> {
        let (entry, rest) = first_waiting(self.slots)?;
        self.slots = rest;
        Some(entry)
    }
}

/// An iterator over the identifiers that are released, in the order of the PUBRECs (4.3.3).
#[derive(Drop)]
pub struct Releases<'a> {
    pub(crate) slots: &'a [Option<Held>],
}

impl<'a> Model for Releases<'a> {
    ghost use Rattle.std.specs.Prelude.{ℕ, List};
    ghost use Rattle.mq_flow.specs.Held.{releases, pairs_in};

    ghost Value = { List ℕ };

    ghost view = { λ s. releases (pairs_in s.slots.now) };
}

impl<'a> Iterator for Releases<'a> {
    type Item = PacketId;

    ghost next_gives = { TakesFirst (λ i. i) };

    ghost remaining = { λ s. at_most (length s) };

    fn next(&mut self) -> Option<PacketId> {
        let (id, rest) = first_released(self.slots)?;
        self.slots = rest;
        Some(*id)
    }
}

/// Returns the first message that is not acknowledged, and the places after it.
fn first_waiting(slots: &[Option<Held>]) -> Option<(&SenderEntry, &[Option<Held>])>
    ensures { MatchOption result (messages (pairs_in slots.now) ≡ []) (λ r. messages (pairs_in slots.now) ≡ r.0.now ∷ messages (pairs_in r.1.now)) }
{
    let mut rest = slots;
    while let Some((slot, others)) = rest.split_first() {
        rest = others;
        if let Some(Held::Waiting(entry)) = slot {
            return Some((entry, rest));
        }
    }
    None
}

/// Returns the first identifier that is released, and the places after it.
fn first_released(slots: &[Option<Held>]) -> Option<(&PacketId, &[Option<Held>])>
    ensures { MatchOption result (releases (pairs_in slots.now) ≡ []) (λ r. releases (pairs_in slots.now) ≡ r.0.now ∷ releases (pairs_in r.1.now)) }
{
    let mut rest = slots;
    while let Some((slot, others)) = rest.split_first() {
        rest = others;
        if let Some(Held::Released(id)) = slot {
            return Some((id, rest));
        }
    }
    None
}
