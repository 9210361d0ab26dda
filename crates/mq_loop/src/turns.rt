//! The turns of connections in a round.

ghost use Rattle.std.specs.Prelude.{◌≡◌, if◌then◌else◌};
ghost use Rattle.mq_loop.specs.Prelude.{IsOldestFirst, holding, must_wait, no_holds};

use crate::reading::Reading;

/// The time for which a new connection waits until older ones have nothing to read, in
/// milliseconds.
const PATIENCE: u64 = 100;

/// A connection that may have bytes to read. Older connections are first.
#[derive(Clone, Copy, PartialEq, Eq, PartialOrd, Ord)]
pub(crate) struct Turn {
    pub(crate) age: u64,
    pub(crate) place: u32,
}

/// Puts turns in order, older connections first.
pub(crate) fn sort_turns(turns: &mut Vec<Turn>)
    ensures { IsOldestFirst turns.new.items }
{
    turns.sort_unstable();
}

/// The connections for which newer ones wait in a round, because they may have more to read.
#[derive(Clone, Copy)]
pub(crate) struct Holds {
    /// Connections with a greater age wait for an older one.
    held_after: u64,
    /// Connections with a greater age wait for an older one whose peer has hung up.
    hung_up_after: u64,
}

impl Holds {
    /// No connection waits.
    pub(crate) fn none() -> Holds
        ensures { result ≡ no_holds }
    {
        Holds {
            held_after: u64::MAX,
            hung_up_after: u64::MAX,
        }
    }

    // The greatest age of connections that need not wait: of those that were opened lately, or of
    // the others.
    fn oldest(&self, is_new: bool) -> u64
        ensures { result ≡ (if is_new then self.now.held_after else self.now.hung_up_after) }
    {
        if is_new {
            self.held_after
        } else {
            self.hung_up_after
        }
    }

    /// Whether a connection of this age that sent no CONNECT yet must wait at this time, because an
    /// older one has more to read that may have been sent before. It waits for a limited time,
    /// unless the older one's peer has hung up, so that its rest is finite.
    pub(crate) fn must_wait(&self, time: u64, age: u64, reading: &Reading) -> bool
        ensures { result ≡ must_wait self.now time age reading.now }
    {
        let is_new = time.saturating_sub(reading.opened_at) < PATIENCE;
        self.oldest(is_new) < age
    }

    /// A connection may have more to read. The connections that were opened after it last had
    /// nothing to read wait for it.
    pub(crate) fn hold(&mut self, reading: &Reading)
        ensures { self.new ≡ holding reading.now self.old }
    {
        self.held_after = self.held_after.min(reading.empty_at);
        if reading.has_hung_up {
            self.hung_up_after = self.hung_up_after.min(reading.empty_at);
        }
    }
}
