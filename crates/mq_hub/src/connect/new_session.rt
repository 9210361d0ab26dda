//! Accepts a CONNECT for a new session (3.1.2.4, 3.1.4, 3.2).

ghost use Rattle.std.specs.Prelude.{◌≡◌, ◌+◌, ◌≤◌, ◌<◌, ◌^◌, ◌==◌, ◌&&◌, not, false, Some, None, length, IfOk, OnOk, OnErr};
ghost use Rattle.mq_hub.specs.Prelude.{start_session, terms_of, key_of, stage_of, up_on, remove, Refines, IsWillWithin, IsNewSession};

use crate::acts::ActLog;
use crate::connect::resume::terms_of;
use crate::hub::HubOver;
use mq_packet::{BoxedConnect, Connect};
use mq_route::{Act, Conn, ConnectionState, ConnectionTerms};
use mq_tables::{Beginning, BoxedSession, BrokerSession, connect_with_room};
use mq_topic::{ClientKey, FilterStore};
use mq_wire::Text;
use std::alloc::AllocError;

// Returns the terms of a CONNECT, and a second handle to the client identifier.
fn terms_and_name(connect: &Connect, client: &Text) -> Result<(ConnectionTerms, Text), AllocError>
    ensures terms { IfOk result (λ x. x.0 ≡ terms_of connect.now) }
    ensures name { IfOk result (λ x. x.1 ≡ client.now) }
{
    let terms = terms_of(connect)?;
    let name = client.clone()?;
    Ok((terms, name))
}

impl<S: FilterStore> HubOver<S> {
    pub(crate) fn next_key(&self) -> ClientKey
        requires { self.now.next_key < 2 ^ 32 }
        ensures { result ≡ self.now.next_key }
    {
        ClientKey::new(self.next_key as u32)
    }

    // Returns a session of this client with the next key, whose end has processed the CONNECT.
    fn new_boxed_session(
        &self,
        connect: BoxedConnect,
        client: Text,
    ) -> Result<BoxedSession, AllocError>
        requires { self.now.next_key < 2 ^ 32 }
        ensures { IfOk result (λ boxed. IsNewSession connect client self.now boxed) }
    {
        let key = self.next_key();
        let mut end = self.blank();
        connect_with_room(&mut end, connect, self.clock)?;
        let session = BrokerSession {
            client,
            key,
            end,
            left_at: self.clock,
        };
        BoxedSession::new(self.alloc, session)
    }

    /// Returns a session of this client with the next key, whose end has processed the CONNECT.
    pub(crate) fn beginning(
        &self,
        connect: BoxedConnect,
        client: Text,
    ) -> Result<Beginning, AllocError>
        requires { self.now.next_key < 2 ^ 32 }
        ensures name { IfOk result (λ b. b.name ≡ client) }
        ensures boxed { IfOk result (λ b. IsNewSession connect client self.now b.boxed) }
        ensures terms { IfOk result (λ b. b.terms ≡ terms_of connect) }
    {
        let (terms, name) = terms_and_name(connect.as_connect(), &client)?;
        let boxed = self.new_boxed_session(connect, client)?;
        Ok(Beginning { name, boxed, terms })
    }

    /// Accepts a CONNECT of a client that has no session (3.1.2.4, 3.1.4, 3.2): a session begins
    /// with the next key, and CONNACK is queued.
    pub(crate) fn start_session(
        &mut self,
        conn: Conn,
        connect: BoxedConnect,
        client: Text,
        log: &mut ActLog,
    ) -> Result<(), AllocError>
        requires fresh { stage_of conn self.old.connections ≡ ConnectionState.AwaitingConnect }
        requires none { key_of client self.old.sessions ≡ None }
        requires named { (not connect.clean_session && length connect.client_id == 0) ≡ false }
        requires will { IsWillWithin self.old.config.limits.most connect.will }
        requires key { self.old.next_key < 2 ^ 32 }
        requires room { 0 < log.old.room }
        ensures goes { OnOk result (Refines (start_session conn connect client) self.old log.old.acts self.new log.new.acts) }
        ensures room { log.old.room ≤ log.new.room + 1 }
        ensures err { OnErr result (self.new ≡ self.old) }
        ensures unsaid { OnErr result (log.new ≡ log.old) }
    {
        let key = self.next_key();
        let beginning = self.beginning(connect, client)?;
        self.tables.reserve_session()?;
        self.tables.begin(conn, beginning, self.clock);
        self.next_key += 1;
        log.push(Act::Up(conn, key, false));
        Ok(())
    }

    /// Accepts a CONNECT with clean session 1 of a client that has a session and is not connected
    /// (3.1.2.4, 3.1.4, 3.2). The old session ends, a new one begins with the next key, and CONNACK
    /// is queued.
    pub(crate) fn replace_session(
        &mut self,
        conn: Conn,
        connect: BoxedConnect,
        client: Text,
        key: ClientKey,
        log: &mut ActLog,
    ) -> Result<(), AllocError>
        requires fresh { stage_of conn self.old.connections ≡ ConnectionState.AwaitingConnect }
        requires stands { key_of client self.old.sessions ≡ Some key }
        requires away { up_on key self.old.connections ≡ None }
        requires named { (not connect.clean_session && length connect.client_id == 0) ≡ false }
        requires will { IsWillWithin self.old.config.limits.most connect.will }
        requires next { self.old.next_key < 2 ^ 32 }
        requires room { 2 ≤ log.old.room }
        ensures goes { OnOk result (Refines (λ w. start_session conn connect client (remove key w))
            self.old log.old.acts self.new log.new.acts) }
        ensures room { log.old.room ≤ log.new.room + 2 }
        ensures err { OnErr result (self.new ≡ self.old) }
        ensures unsaid { OnErr result (log.new ≡ log.old) }
    {
        let next = self.next_key();
        let beginning = self.beginning(connect, client)?;
        self.tables.reserve_session()?;
        self.tables.remove(key);
        self.tables.begin(conn, beginning, self.clock);
        self.next_key += 1;
        log.push(Act::Removed(key));
        log.push(Act::Up(conn, next, false));
        Ok(())
    }
}
