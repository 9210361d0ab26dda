//! Ends a connection (4.2).

ghost use Rattle.std.specs.Prelude.{◌≡◌, ◌≤◌, Bool, true, IfOk, IfErr, OnErr, None};
ghost use Rattle.mq_hub.specs.Prelude.{is_open, key_on, knows, stage_of, without_connection, HubStep, close_if_open, Refines};

use crate::acts::ActLog;
use crate::hub::HubOver;
use mq_route::{Conn, HubClose, HubEvent, HubRefusal, HubReply};
use mq_topic::FilterStore;

impl<S: FilterStore> HubOver<S> {
    // Removes a connection on which no client is connected.
    fn forget(&mut self, conn: Conn)
        requires { key_on (stage_of conn self.old.connections) ≡ None }
        ensures { self.new ≡ record self.old { connections = without_connection conn self.old.connections } }
    {
        self.tables.forget(conn);
    }

    // Closes a connection if it is open, with `HubClose::PeerEnded`.
    fn close_open(&mut self, conn: Conn, log: &mut ActLog)
        requires room { 3 ≤ log.old.room }
        ensures goes { (fits : Bool) × Refines (close_if_open conn (is_open (stage_of conn self.old.connections)) fits) self.old log.old.acts self.new log.new.acts }
        ensures down { key_on (stage_of conn self.new.connections) ≡ None }
    {
        if self.is_open(conn) {
            self.close(conn, HubClose::PeerEnded, log);
        }
    }

    /// Closes a connection if it is open (4.8), and removes it (4.2).
    pub(crate) fn on_end(&mut self, conn: Conn) -> Result<HubReply, HubRefusal>
        requires { knows conn self.old.connections ≡ true }
        ensures step { IfOk result (λ reply. HubStep self.old (HubEvent.Ended conn) reply self.new) }
        ensures memory { IfErr result (λ why. why ≡ HubRefusal.Memory) }
        ensures err { OnErr result (self.new ≡ self.old) }
    {
        let mut log = ActLog::new(self.alloc);
        if log.reserve(3).is_err() {
            return Err(HubRefusal::Memory);
        }
        self.close_open(conn, &mut log);
        self.forget(conn);
        Ok(log.into_reply(false))
    }
}
