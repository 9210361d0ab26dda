//! Ends a session (3.1.2.4).

ghost use Rattle.std.specs.Prelude.{◌≡◌, ◌+◌, ◌≤◌, ◌<◌, None};
ghost use Rattle.mq_hub.specs.Prelude.{up_on, remove, Refines};

use crate::acts::ActLog;
use crate::hub::HubOver;
use mq_route::Act;
use mq_topic::{ClientKey, FilterStore};

impl<S: FilterStore> HubOver<S> {
    /// Ends the session of a client that is not connected, with its subscriptions (3.1.2.4).
    pub(crate) fn remove(&mut self, key: ClientKey, log: &mut ActLog)
        requires away { up_on key self.old.connections ≡ None }
        requires room { 0 < log.old.room }
        ensures goes { Refines (remove key) self.old log.old.acts self.new log.new.acts }
        ensures room { log.old.room ≤ log.new.room + 1 }
    {
        self.tables.remove(key);
        log.push(Act::Removed(key));
    }
}
