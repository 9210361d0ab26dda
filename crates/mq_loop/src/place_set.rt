//! Sets of places.

ghost use Rattle.std.specs.Prelude.{◌≡◌, ◌<◌, ◌∷◌, [], ◌++◌, ℕ, false, true, IfNone, IfSome, OnErr, OnOk, OnSome, length, slice_set};
ghost use Rattle.mq_loop.specs.Prelude.{count_in, is_in};

use std::alloc::{AllocError, Global};
use std::collections::VecDeque;
use std::marker::Model;

/// A set of places. They leave it in the order in which they came, without a search.
#[derive(Drop)]
pub(crate) struct PlaceSet {
    // For each place, whether it is in the set.
    flags: Vec<bool>,
    // Names each place of the set, the first one first, unless an allocation failed.
    listed: VecDeque<u32>,
    has_unlisted: bool,
}

impl Model for PlaceSet {
    ghost use Rattle.std.specs.Prelude.{◌≡◌, ◌≤◌, Bool, List, false, length};
    ghost use Rattle.mq_loop.specs.Places.{AreListed};

    ghost Value = { List Bool };

    ghost view = { λ s. s.flags.items };

    ghost invariant = { λ s. (length s.flags.items ≤ 4294967296)
        × (s.has_unlisted ≡ false → AreListed s.flags.items s.listed.items) };
}

impl PlaceSet {
    /// A set for no places.
    pub(crate) fn new(alloc: Global) -> PlaceSet
        ensures { result ≡ [] }
    {
        PlaceSet {
            flags: Vec::new(alloc),
            listed: VecDeque::new(alloc),
            has_unlisted: false,
        }
    }

    /// Adds a place that is not in the set. Fails also if there are 2^32 places.
    pub(crate) fn add_place(&mut self) -> Result<(), AllocError>
        ensures ok { OnOk result (self.new ≡ self.old ++ false ∷ []) }
        ensures err { OnErr result (self.new ≡ self.old) }
    {
        if u32::try_from(self.flags.len()).is_err() {
            return Err(AllocError);
        }
        self.flags.push(false)?;
        Ok(())
    }

    /// Makes room for this number of places in all.
    pub(crate) fn reserve(&mut self, places: usize) -> Result<(), AllocError>
        ensures { self.new ≡ self.old }
    {
        self.flags.reserve(places.saturating_sub(self.flags.len()))
    }

    /// The number of places.
    pub(crate) fn places(&self) -> usize
        ensures { result ≡ length self.now }
    {
        self.flags.len()
    }

    /// Whether a place is in the set.
    pub(crate) fn has(&self, place: u32) -> bool
        ensures { result ≡ is_in place self.now }
    {
        let at = place as usize;
        at < self.flags.len() && self.flags[at]
    }

    /// Whether the set may have a place. `false` means that it has none.
    pub(crate) fn may_have_some(&self) -> bool
        ensures { result ≡ false → (place : ℕ) → is_in place self.now ≡ false }
    {
        self.has_unlisted || !self.listed.is_empty()
    }

    /// Puts a place into the set.
    pub(crate) fn put(&mut self, place: u32)
        ensures { self.new ≡ slice_set self.old place true }
    {
        let at = place as usize;
        if at >= self.flags.len() || self.flags[at] {
            return;
        }
        self.flags[at] = true;
        if self.listed.push_back(place).is_err() {
            self.has_unlisted = true;
        }
    }

    /// Takes the place out of the set that came first, if the set has one.
    pub(crate) fn pop(&mut self) -> Option<u32>
        ensures some { IfSome result (λ place. self.new ≡ slice_set self.old place false) }
        ensures fewer { OnSome result (count_in self.new < count_in self.old) }
        ensures none { IfNone result (((place : ℕ) → is_in place self.old ≡ false) × (self.new ≡ self.old)) }
    {
        while let Some(place) = self.listed.pop_front() {
            let at = place as usize;
            if at < self.flags.len() && self.flags[at] {
                self.flags[at] = false;
                return Some(place);
            }
        }
        if !self.has_unlisted {
            return None;
        }
        for at in 0..self.flags.len() {
            if self.flags[at] {
                self.flags[at] = false;
                return Some(at as u32);
            }
        }
        self.has_unlisted = false;
        None
    }
}
