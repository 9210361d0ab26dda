//! Removes the sessions of clients that are absent for too long (3.1.2.4).

ghost use Rattle.std.specs.Prelude.{◌≡◌, ◌+◌, ◌≤◌, length, IfOk};
ghost use Rattle.mq_hub.specs.Prelude.{expired_keys, remove_all, AreAway, Refines};

use crate::acts::ActLog;
use crate::hub::HubOver;
use mq_topic::{ClientKey, FilterStore};
use std::alloc::AllocError;

impl<S: FilterStore> HubOver<S> {
    /// The keys of the sessions that are expired at this time, in ascending order. None of their
    /// clients is connected.
    pub(crate) fn expired(&self, now: u64) -> Result<Vec<ClientKey>, AllocError>
        ensures keys { IfOk result (λ keys. keys.items ≡ expired_keys (record self.now { clock = now })) }
        ensures away { IfOk result (λ keys. AreAway keys.items self.now.connections) }
    {
        self.tables
            .expired(self.alloc, self.config.session_expiry, now)
    }

    /// Removes these sessions, whose clients are not connected, one after another.
    pub(crate) fn remove_all(&mut self, keys: &[ClientKey], log: &mut ActLog)
        requires away { AreAway keys.now self.old.connections }
        requires room { length keys.now ≤ log.old.room }
        ensures goes { Refines (remove_all keys.now) self.old log.old.acts self.new log.new.acts }
        ensures room { log.old.room ≤ log.new.room + length keys.now }
    {
        for key in keys {
            self.remove(*key, log);
        }
    }
}
