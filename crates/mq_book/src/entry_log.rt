//! The entries of a journal, and their estimated size.

ghost use Rattle.std.specs.Prelude.{◌≡◌, ◌<◌, ◌-◌, ◌^◌, ◌∷◌, [], ◌++◌, length, min, OnOk};
ghost use Rattle.mq_book.specs.Prelude.{weight, weight_of};

use crate::entry::Entry;
use mq_route::HubEvent;
use std::alloc::{AllocError, Global};
use std::marker::Model;
use std::mem;

/// The estimated size of an act, in bytes.
const ACT: usize = 128;

/// The estimated size of an entry without its bytes and acts, in bytes.
const ENTRY: usize = 256;

/// Entries, in order.
#[derive(Drop)]
pub(crate) struct EntryLog {
    entries: Vec<Entry>,
    size: usize,
}

impl Model for EntryLog {
    ghost use Rattle.std.specs.Prelude.{◌≡◌, ◌-◌, ◌^◌, min, vec_capacity};
    ghost use Rattle.mq_book.specs.Pages.{LogView, weight};

    ghost Value = { LogView };

    ghost view = { λ l. record { items = l.entries.items; capacity = vec_capacity l.entries } };

    ghost invariant = { λ l. l.size ≡ min (weight l.entries.items) (2 ^ 64 - 1) };
}

impl EntryLog {
    pub(crate) fn new(alloc: Global) -> EntryLog
        ensures { result.items ≡ [] }
    {
        EntryLog {
            entries: Vec::new(alloc),
            size: 0,
        }
    }

    pub(crate) fn len(&self) -> usize
        ensures { result ≡ length self.now.items }
    {
        self.entries.len()
    }

    /// The estimated size of the entries in bytes, or `u64::MAX` if it is larger.
    pub(crate) fn size(&self) -> usize
        ensures { result ≡ min (weight self.now.items) (2 ^ 64 - 1) }
    {
        self.size
    }

    /// Makes room for one more entry.
    pub(crate) fn reserve(&mut self) -> Result<(), AllocError>
        ensures items { self.new.items ≡ self.old.items }
        ensures ok { OnOk result (length self.new.items < self.new.capacity) }
    {
        self.entries.reserve(1)
    }

    #[tactic(auto, using(crate::proofs::Steps::size_grows))]
    pub(crate) fn push(&mut self, entry: Entry)
        requires { length self.old.items < self.old.capacity }
        ensures { self.new.items ≡ self.old.items ++ entry ∷ [] }
    {
        self.size = self.size.saturating_add(size_of(&entry));
        let _ = self.entries.push(entry);
    }

    /// Takes the entries out.
    pub(crate) fn take(&mut self, alloc: Global) -> Vec<Entry>
        ensures taken { result.items ≡ self.old.items }
        ensures empty { self.new.items ≡ [] }
    {
        self.size = 0;
        mem::replace(&mut self.entries, Vec::new(alloc))
    }
}

// The estimated size of an entry in bytes, or `u64::MAX` if it is larger.
fn size_of(entry: &Entry) -> usize
    ensures { result ≡ min (weight_of entry.now) (2 ^ 64 - 1) }
{
    let came = match &entry.event {
        HubEvent::Bytes(_, piece) => piece.len(),
        _ => 0,
    };
    let reply = entry.reply.as_reply();
    let went = reply.output.len();
    let acts = reply.acts.as_slice().len().saturating_mul(ACT);
    came.saturating_add(went)
        .saturating_add(acts)
        .saturating_add(ENTRY)
}
