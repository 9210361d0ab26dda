//! Closes a connection for a reason that the broker found (4.8).

ghost use Rattle.std.specs.Prelude.{◌≡◌, ◌+◌, ◌≤◌, ◌<◌, Bool, None};
ghost use Rattle.mq_hub.specs.Prelude.{key_on, stage_of, close, Refines};

use crate::acts::ActLog;
use crate::close::disconnect::close_up;
use crate::hub::HubOver;
use mq_route::{Act, Conn, HubClose};
use mq_tables::rules_of;
use mq_topic::FilterStore;

impl<S: FilterStore> HubOver<S> {
    /// Closes a connection on which no client is connected (4.8). The incomplete packet is dropped;
    /// pending output stays until it is collected.
    pub(crate) fn close_idle(&mut self, conn: Conn, why: HubClose, log: &mut ActLog)
        requires idle { key_on (stage_of conn self.old.connections) ≡ None }
        requires room { 0 < log.old.room }
        ensures goes { (fits : Bool) → Refines (close conn why fits) self.old log.old.acts self.new log.new.acts }
        ensures room { log.old.room ≤ log.new.room + 1 }
    {
        self.tables.shut(conn);
        log.push(Act::Closed(conn, why));
    }

    /// Closes a connection (4.8). The incomplete packet is dropped; pending output stays until it
    /// is collected.
    ///
    /// If a client is connected on it, its session ends first if clean session was 1 (3.1.2.4).
    /// Then its will is published, or reported as dropped (3.1.2.5).
    pub(crate) fn close(&mut self, conn: Conn, why: HubClose, log: &mut ActLog)
        requires room { 3 ≤ log.old.room }
        ensures goes { (fits : Bool) × Refines (close conn why fits) self.old log.old.acts self.new log.new.acts }
        ensures room { log.old.room ≤ log.new.room + 3 }
    {
        match self.key(conn) {
            Some(key) => {
                let rules = rules_of(&self.config);
                let now = self.clock;
                close_up(
                    &mut self.tables,
                    self.alloc,
                    rules,
                    conn,
                    key,
                    why,
                    now,
                    log,
                );
            }
            None => self.close_idle(conn, why, log),
        }
    }
}
