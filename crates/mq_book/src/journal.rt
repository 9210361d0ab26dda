//! Journals that were handed out.

ghost use Rattle.std.specs.Prelude.{◌≡◌};

use crate::entry::Entry;
use mq_hub::Hub;
use std::marker::Model;
use std::snapshot::Snapshot;

/// The entries of a book between two states of its broker.
///
/// The steps that they record lead from the one state to the other. Only contracts see the states.
#[derive(Drop)]
pub struct Journal {
    pub(crate) base: Snapshot<Hub>,
    pub(crate) first: u64,
    pub(crate) entries: Vec<Entry>,
    pub(crate) end: Snapshot<Hub>,
}

impl Model for Journal {
    ghost use Rattle.std.specs.Coded.{codes, coded_ℕ};
    ghost use Rattle.std.specs.FinSet as set;
    ghost use Rattle.std.specs.Ordering.{nat_cmp};
    ghost use Rattle.mq_book.specs.Pages.{Sealed};
    ghost use Rattle.mq_book.specs.Replays.{Replay};

    ghost Value = { Sealed };

    ghost coded = { Prim.hlevel (codes, set.code {R = nat_cmp} coded_ℕ) };

    ghost view = { λ j. record { base = j.base.value; first = j.first; entries = j.entries.items; end = j.end.value } };

    ghost invariant = { λ j. Replay j.base.value j.entries.items j.end.value };
}

impl Journal {
    /// The place of the first entry. Places are counted from 0 over the whole life of the book.
    pub fn first(&self) -> u64
        ensures { result ≡ self.now.first }
    {
        self.first
    }

    /// The entries, in order.
    pub fn entries(&self) -> &[Entry]
        ensures { result.now ≡ self.now.entries }
    {
        self.entries.as_slice()
    }
}
