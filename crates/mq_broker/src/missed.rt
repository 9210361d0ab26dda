//! The messages that clients missed.

ghost use Rattle.std.specs.Prelude.{◌≡◌, ◌≢◌, ◌↔◌, [], IsTrue};
ghost use Rattle.mq_broker.specs.Prelude.{CountsAct, CountsOne, amount};

use mq_route::Act;
use mq_topic::ClientKey;
use std::alloc::Global;
use std::collections::BTreeMap;
use std::marker::Model;
use std::mem;

/// The number of copies that each client missed, by session. A copy for which an allocation fails
/// is not counted here.
#[derive(Drop)]
pub(crate) struct Missed {
    alloc: Global,
    // The totals of the sessions that exist.
    totals: BTreeMap<ClientKey, u64>,
    // The numbers that the log doesn't have yet, also of sessions that were removed.
    unlogged: BTreeMap<ClientKey, u64>,
}

impl Model for Missed {
    ghost use Rattle.mq_broker.specs.Missed.{Numbers};

    ghost Value = { Numbers };

    ghost view = { λ m. record { totals = m.totals.entries; unlogged = m.unlogged.entries } };
}

// The number of a client.
fn amount(numbers: &BTreeMap<ClientKey, u64>, key: ClientKey) -> u64
    ensures { result ≡ amount key numbers.now.entries }
{
    numbers.get(&key).copied().unwrap_or(0)
}

// Adds one to the number of a client.
fn count(numbers: &mut BTreeMap<ClientKey, u64>, key: ClientKey)
    ensures { CountsOne key numbers.old.entries numbers.new.entries }
{
    let number = amount(numbers, key).saturating_add(1);
    let _ = numbers.insert(key, number);
}

impl Missed {
    pub(crate) fn new(alloc: Global) -> Missed
        ensures { result ≡ record { totals = []; unlogged = [] } }
    {
        Missed {
            alloc,
            totals: BTreeMap::new(alloc),
            unlogged: BTreeMap::new(alloc),
        }
    }

    /// Counts an act, if it is about a missed copy or a removed session.
    pub(crate) fn count_act(&mut self, act: &Act)
        ensures { CountsAct act.now self.old self.new }
    {
        match act {
            Act::Missed(key, _) => {
                count(&mut self.totals, *key);
                count(&mut self.unlogged, *key);
            }
            Act::Removed(key) => {
                let _ = self.totals.remove(key);
            }
            _ => {}
        }
    }

    /// The number of copies that the client of a session missed.
    pub(crate) fn total(&self, key: ClientKey) -> u64
        ensures { result ≡ amount key self.now.totals }
    {
        amount(&self.totals, key)
    }

    /// Whether there are numbers that the log doesn't have yet.
    pub(crate) fn has_unlogged(&self) -> bool
        ensures { IsTrue result ↔ (self.now.unlogged ≢ []) }
    {
        !self.unlogged.is_empty()
    }

    /// Takes the numbers that the log doesn't have yet.
    pub(crate) fn take_unlogged(&mut self) -> BTreeMap<ClientKey, u64>
        ensures taken { result.entries ≡ self.old.unlogged }
        ensures left { self.new ≡ record self.old { unlogged = [] } }
    {
        mem::replace(&mut self.unlogged, BTreeMap::new(self.alloc))
    }
}
