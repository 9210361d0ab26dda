//! Opens a connection (4.2).

ghost use Rattle.std.specs.Prelude.{◌≡◌, false, IfOk, IfErr, OnOk, OnErr};
ghost use Rattle.mq_hub.specs.Prelude.{knows, HubStep, opened_at, with_opened};

use crate::acts::ActLog;
use crate::hub::HubOver;
use mq_route::{Conn, HubEvent, HubRefusal, HubReply};
use mq_topic::FilterStore;
use std::alloc::AllocError;

impl<S: FilterStore> HubOver<S> {
    /// Adds a connection that was opened at this time, and waits for its CONNECT. Its name must not
    /// be in use.
    pub(crate) fn open(&mut self, conn: Conn, since: u64) -> Result<(), AllocError>
        requires { knows conn self.old.connections ≡ false }
        ensures ok { OnOk result (self.new ≡ with_opened (opened_at conn since) self.old) }
        ensures err { OnErr result (self.new ≡ self.old) }
    {
        self.tables.open(self.alloc, conn, since)
    }

    /// Adds a connection, which waits for its CONNECT (4.2).
    pub(crate) fn on_open(&mut self, conn: Conn) -> Result<HubReply, HubRefusal>
        requires { knows conn self.old.connections ≡ false }
        ensures step { IfOk result (λ reply. HubStep self.old (HubEvent.Opened conn) reply self.new) }
        ensures memory { IfErr result (λ why. why ≡ HubRefusal.Memory) }
        ensures err { OnErr result (self.new ≡ self.old) }
    {
        match self.open(conn, self.clock) {
            Ok(()) => Ok(ActLog::new(self.alloc).into_reply(true)),
            Err(_) => Err(HubRefusal::Memory),
        }
    }
}
