//! The pending output of a connection (4.2).

ghost use Rattle.std.specs.Prelude.{◌≡◌, ◌<◌, length, true, IfOk, IfErr, IfSome, OnOk, OnErr};
ghost use Rattle.mq_hub.specs.Prelude.{is_open, knows, new_end, stage_of, waiting_on, HubStep, on_collect};

use crate::hub::HubOver;
use bytes::Bytes;
use mq_end::{BoxedList, ServerConfig, ServerEnd};
use mq_route::{Conn, HubEvent, HubRefusal, HubReply};
use mq_topic::FilterStore;
use std::alloc::AllocError;

impl<S: FilterStore> HubOver<S> {
    pub(crate) fn is_open(&self, conn: Conn) -> bool
        ensures { result ≡ is_open (stage_of conn self.now.connections) }
    {
        self.is_open_near(conn, 0)
    }

    /// The same as `is_open`. The index is tried before a search.
    pub(crate) fn is_open_near(&self, conn: Conn, place: usize) -> bool
        ensures { result ≡ is_open (stage_of conn self.now.connections) }
    {
        self.tables.is_open_near(conn, place)
    }

    /// The configuration of server ends.
    pub(crate) fn end_config(&self) -> ServerConfig
        ensures limits { result.limits ≡ self.now.config.limits }
        ensures capacity { result.capacity ≡ self.now.config.capacity }
        ensures window { result.window ≡ self.now.config.window }
        ensures places { IfSome self.now.config.window (λ places. 0 < places) }
    {
        ServerConfig {
            limits: self.config.limits,
            capacity: self.config.capacity,
            window: self.config.window,
        }
    }

    /// Returns a new server end. It serves a new session, or takes the place of a session's end in
    /// the table for a while (3.1.2.4).
    pub(crate) fn blank(&self) -> ServerEnd
        ensures end { result.end ≡ new_end self.now.config }
        ensures capacity { result.capacity ≡ self.now.config.capacity }
        ensures limit { result.limit ≡ self.now.config.limits }
    {
        let config = ServerConfig {
            limits: self.config.limits,
            capacity: self.config.capacity,
            window: self.config.window,
        };
        ServerEnd::new(self.alloc, config)
    }

    /// Returns the number of bytes of the pending output of a connection (4.2). 0 if it is unknown.
    pub fn pending(&self, conn: Conn) -> usize
        ensures { result ≡ length (waiting_on conn self.now.connections) }
    {
        match self.tables.key(conn) {
            Some(key) => self.tables.sessions.pending(key),
            None => self.tables.connections.own_pending(conn),
        }
    }

    // Takes the pending output of a connection without copying it.
    fn collect(&mut self, conn: Conn) -> Result<Bytes, AllocError>
        requires { knows conn self.old.connections ≡ true }
        ensures bytes { IfOk result (λ b. b ≡ waiting_on conn self.old.connections) }
        ensures taken { OnOk result (self.new ≡ on_collect conn self.old) }
        ensures err { OnErr result (self.new ≡ self.old) }
    {
        match self.tables.key(conn) {
            Some(key) => self.tables.collect_up(key),
            None => self.tables.collect_own(conn),
        }
    }

    /// Takes the pending output of a connection without copying it. Fails if the count of its
    /// owners can't be allocated.
    pub(crate) fn on_collect(&mut self, conn: Conn) -> Result<HubReply, HubRefusal>
        requires { knows conn self.old.connections ≡ true }
        ensures step { IfOk result (λ reply. HubStep self.old (HubEvent.Collect conn) reply self.new) }
        ensures memory { IfErr result (λ why. why ≡ HubRefusal.Memory) }
        ensures err { OnErr result (self.new ≡ self.old) }
    {
        let alive = self.is_open(conn);
        let Ok(output) = self.collect(conn) else {
            return Err(HubRefusal::Memory);
        };
        Ok(HubReply {
            acts: BoxedList::from_vec(Vec::new(self.alloc)),
            output,
            alive,
        })
    }
}
