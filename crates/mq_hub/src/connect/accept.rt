//! Handles the first packet of a connection (3.1).

ghost use Rattle.std.specs.Prelude.{◌≡◌, ◌+◌, ◌≤◌, ◌<◌, ◌^◌, ◌==◌, ◌&&◌, not, Bool, true, false, Some, None, is_some, length, OnOk, OnErr};
ghost use Rattle.mq_hub.specs.Prelude.{fields, accept_connect, on_first_packet, on_connect, is_open, key_of, stage_of, up_on, needs_new, refusal, Refines, IsWillWithin};

use crate::acts::ActLog;
use crate::hub::HubOver;
use mq_packet::{BoxedConnect, Packet};
use mq_route::{Conn, ConnectionState};
use mq_topic::{ClientKey, FilterStore};
use mq_wire::Text;
use std::alloc::AllocError;

impl<S: FilterStore> HubOver<S> {
    fn key_of(&self, client: &Text) -> Option<ClientKey>
        ensures { result ≡ key_of client.now self.now.sessions }
    {
        self.tables.key_of(client)
    }

    fn is_up(&self, key: ClientKey) -> bool
        ensures { result ≡ is_some (up_on key self.now.connections) }
    {
        self.tables.is_up(key)
    }

    // Accepts a CONNECT whose client has a session and is not connected. The session resumes, or a
    // new one replaces it if clean session is 1 (3.1.2.4).
    fn resume(
        &mut self,
        conn: Conn,
        connect: BoxedConnect,
        client: Text,
        key: ClientKey,
        log: &mut ActLog,
    ) -> Result<(), AllocError>
        requires fresh { stage_of conn self.old.connections ≡ ConnectionState.AwaitingConnect }
        requires stands { key_of client self.old.sessions ≡ Some key }
        requires away { up_on key self.old.connections ≡ None }
        requires named { (not connect.clean_session && length connect.client_id == 0) ≡ false }
        requires will { IsWillWithin self.old.config.limits.most connect.will }
        requires next { connect.clean_session ≡ true → self.old.next_key < 2 ^ 32 }
        requires room { 2 ≤ log.old.room }
        ensures goes { OnOk result ((fits : Bool)
            → Refines (accept_connect conn connect client (Some key) fits) self.old log.old.acts self.new log.new.acts) }
        ensures room { log.old.room ≤ log.new.room + 2 }
        ensures err { OnErr result (self.new ≡ self.old) }
        ensures unsaid { OnErr result (log.new ≡ log.old) }
    {
        if connect.as_connect().clean_session {
            self.replace_session(conn, connect, client, key, log)
        } else {
            self.resume_session(conn, key, connect, log)
        }
    }

    // Accepts a CONNECT: its client is connected for its session (3.1.2.4,
    // 3.1.4).
    fn accept_connect(
        &mut self,
        conn: Conn,
        connect: BoxedConnect,
        client: Text,
        log: &mut ActLog,
    ) -> Result<(), AllocError>
        requires fresh { stage_of conn self.old.connections ≡ ConnectionState.AwaitingConnect }
        requires named { (not connect.clean_session && length connect.client_id == 0) ≡ false }
        requires will { IsWillWithin self.old.config.limits.most connect.will }
        requires next { needs_new connect (key_of client self.old.sessions) self.old ≡ true → self.old.next_key < 2 ^ 32 }
        requires room { 3 ≤ log.old.room }
        ensures goes { OnOk result ((fits : Bool)
            × Refines (accept_connect conn connect client (key_of client self.old.sessions) fits) self.old log.old.acts self.new log.new.acts) }
        ensures room { OnOk result (3 ≤ log.new.room) }
        ensures err { OnErr result (self.new ≡ self.old) }
        ensures err_acts { OnErr result (log.new.acts ≡ log.old.acts) }
        ensures err_room { OnErr result (3 ≤ log.new.room) }
    {
        // One session may end and another begin. Room for three more acts must be left after that.
        log.reserve(5)?;
        let Some(key) = self.key_of(&client) else {
            return self.start_session(conn, connect, client, log);
        };
        if self.is_up(key) {
            return self.take_over(conn, connect, client, key, log);
        }
        self.resume(conn, connect, client, key, log)
    }

    // Refuses a CONNECT (3.2.2.3) or accepts it.
    fn on_connect(
        &mut self,
        conn: Conn,
        connect: BoxedConnect,
        log: &mut ActLog,
    ) -> Result<(), AllocError>
        requires fresh { stage_of conn self.old.connections ≡ ConnectionState.AwaitingConnect }
        requires will { IsWillWithin self.old.config.limits.most connect.will }
        requires room { 3 ≤ log.old.room }
        ensures goes { OnOk result ((fits : Bool)
            × Refines (on_connect conn connect (refusal connect self.old) fits) self.old log.old.acts self.new log.new.acts) }
        ensures room { OnOk result (is_open (stage_of conn self.new.connections) ≡ true → 3 ≤ log.new.room) }
        ensures err { OnErr result (self.new ≡ self.old) }
        ensures err_acts { OnErr result (log.new.acts ≡ log.old.acts) }
        ensures err_room { OnErr result (3 ≤ log.new.room) }
    {
        let client = self.client_of(connect.as_connect())?;
        match self.connect_refusal(connect.as_connect(), &client) {
            Some(code) => self.refuse(conn, code, log),
            None => self.accept_connect(conn, connect, client, log),
        }
    }

    /// Handles the first packet of a connection (3.1). A CONNECT is accepted or refused (3.2.2.3);
    /// any other packet closes the connection.
    pub(crate) fn on_first_packet(
        &mut self,
        conn: Conn,
        packet: Packet,
        log: &mut ActLog,
    ) -> Result<(), AllocError>
        requires fresh { stage_of conn self.old.connections ≡ ConnectionState.AwaitingConnect }
        requires within { length (fields packet) ≤ self.old.config.limits.most }
        requires room { 3 ≤ log.old.room }
        ensures goes { OnOk result ((fits : Bool) × Refines (on_first_packet conn packet fits) self.old log.old.acts self.new log.new.acts) }
        ensures room { OnOk result (is_open (stage_of conn self.new.connections) ≡ true → 3 ≤ log.new.room) }
        ensures err { OnErr result (self.new ≡ self.old) }
        ensures err_acts { OnErr result (log.new.acts ≡ log.old.acts) }
        ensures err_room { OnErr result (3 ≤ log.new.room) }
    {
        match packet {
            Packet::Connect(connect) => self.on_connect(conn, connect, log),
            other => {
                self.on_wrong_first_packet(conn, &other, log);
                Ok(())
            }
        }
    }
}
