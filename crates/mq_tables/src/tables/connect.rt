//! The tables when a client connects, or leaves (3.1, 3.1.2.4).

ghost use Rattle.std.specs.Prelude.{◌≡◌, ◌≤◌, ℕ, List, Some, None, [], ◌∷◌, ◌++◌, true, OnOk, OnErr, IfOk, IsSome, IfSome, ◌+◌, ◌<◌, ◌^◌, not};
ghost use Rattle.mq_tables.specs.Prelude.{Connect, Message, key_of, key_on, knows, stage_of, with_connection, up_on, resume_session, left_with, sessions_of, session_at, with_server, AreBelow, HasConnected, IsRoomed, left, HasConnectRoomAt, AreSameButRoom, AreStillReady};

use crate::sessions::session::BoxedSession;
use crate::tables::Tables;
use mq_end::{ByteQueue, ServerEnd};
use mq_packet::{BoxedConnect, Connect, Message};
use mq_route::{Conn, ConnectionState, ConnectionTerms};
use mq_topic::{ClientKey, FilterStore};
use mq_wire::Text;
use std::alloc::{AllocError, Global};

/// A session that has processed its CONNECT but is not in the table yet.
#[derive(Drop)]
pub struct Beginning {
    /// The client identifier.
    pub name: Text,
    /// The session.
    pub boxed: BoxedSession,
    /// The terms of its CONNECT.
    pub terms: ConnectionTerms,
}

impl<S: FilterStore> Tables<S> {
    /// Makes room for one more session and one more connected client. On `Err` only reserved
    /// capacity may have changed.
    pub fn reserve_session(&mut self) -> Result<(), AllocError>
        ensures ok { OnOk result ((0 < self.new.sessions.room) × (0 < self.new.connections.up_room)) }
        ensures list { self.new.sessions.list ≡ self.old.sessions.list }
        ensures connections { self.new.connections.connections ≡ self.old.connections.connections }
        ensures limits { self.new.connections.limits ≡ self.old.connections.limits }
        ensures rest { self.new ≡ record self.old { sessions = self.new.sessions; connections = self.new.connections } }
    {
        self.sessions.reserve(1)?;
        self.connections.reserve(1)
    }

    /// Adds a session, whose key must be above all others and whose client must have no other
    /// session. The connection is connected for it.
    pub fn begin(&mut self, conn: Conn, beginning: Beginning, now: u64)
        requires name { beginning.name ≡ beginning.boxed.client }
        requires stage { stage_of conn self.old.connections.connections ≡ ConnectionState.AwaitingConnect }
        requires away { up_on beginning.boxed.key self.old.connections.connections ≡ None }
        requires key { AreBelow beginning.boxed.key self.old.sessions.list }
        requires client { key_of beginning.boxed.client (sessions_of self.old.sessions.list) ≡ None }
        requires room { 0 < self.old.sessions.room }
        requires up_room { 0 < self.old.connections.up_room }
        ensures list { self.new.sessions.list ≡ self.old.sessions.list ++ beginning.boxed ∷ [] }
        ensures connections { self.new.connections.connections
            ≡ with_connection (λ x. record x { stage = ConnectionState.ConnectedAs beginning.boxed.key beginning.terms now }) conn self.old.connections.connections }
        ensures limits { self.new.connections.limits ≡ self.old.connections.limits }
        ensures rest { self.new ≡ record self.old { sessions = self.new.sessions; connections = self.new.connections } }
    {
        let Beginning { name, boxed, terms } = beginning;
        let key = boxed.session().key;
        self.sessions.insert(name, boxed);
        self.connections.connect_end(conn, key, terms, now);
    }

    /// Closes a connection, with these bytes as its pending output.
    pub fn shut_with(&mut self, conn: Conn, waiting: ByteQueue)
        requires { knows conn self.old.connections.connections ≡ true }
        ensures connections { self.new.connections.connections
            ≡ with_connection (λ x. record x { stage = ConnectionState.Closed; held = []; waiting = waiting }) conn self.old.connections.connections }
        ensures limits { self.new.connections.limits ≡ self.old.connections.limits }
        ensures rest { self.new ≡ record self.old { connections = self.new.connections } }
    {
        let _ = self.connections.shut_with(conn, waiting);
    }

    /// Makes room for one more connected client.
    pub fn reserve_for_connect(&mut self) -> Result<(), AllocError>
        ensures ok { OnOk result (0 < self.new.connections.up_room) }
        ensures connections { self.new.connections.connections ≡ self.old.connections.connections }
        ensures limits { self.new.connections.limits ≡ self.old.connections.limits }
        ensures rest { self.new ≡ record self.old { connections = self.new.connections } }
    {
        self.connections.reserve(1)
    }

    /// Connects a connection for a session, whose end processes the CONNECT. On `Err` only reserved
    /// capacity may have changed.
    pub fn resume_session(
        &mut self,
        conn: Conn,
        key: ClientKey,
        blank: ServerEnd,
        connect: BoxedConnect,
        terms: ConnectionTerms,
        now: u64,
    ) -> Result<(), AllocError>
        requires stage { stage_of conn self.old.connections.connections ≡ ConnectionState.AwaitingConnect }
        requires client { up_on key self.old.connections.connections ≡ None }
        requires room { 0 < self.old.connections.up_room }
        requires there { IsSome (session_at key self.old.sessions.list) }
        ensures ok { OnOk result (HasConnected connect now key self.old.sessions.list self.new.sessions.list) }
        ensures connections { OnOk result (self.new.connections.connections
            ≡ with_connection (λ x. record x { stage = ConnectionState.ConnectedAs key terms now }) conn self.old.connections.connections) }
        ensures err { OnErr result (IsRoomed key self.old.sessions.list self.new.sessions.list) }
        ensures still { OnErr result (self.new.connections.connections ≡ self.old.connections.connections) }
        ensures limits { self.new.connections.limits ≡ self.old.connections.limits }
        ensures rest { self.new ≡ record self.old { sessions = self.new.sessions; connections = self.new.connections } }
    {
        self.sessions.resume_session(key, blank, connect, now)?;
        self.connections.connect_end(conn, key, terms, now);
        Ok(())
    }

    /// Makes room for a session to resume with this CONNECT and then to send these messages (3.2,
    /// 4.4). On `Err` only reserved capacity may have changed.
    pub fn reserve_connect(
        &mut self,
        key: ClientKey,
        connect: &Connect,
        messages: &[Message],
    ) -> Result<(), AllocError>
        requires { IsSome (session_at key self.old.sessions.list) }
        ensures ok { OnOk result (HasConnectRoomAt connect.now key messages.now 0 self.new.sessions.list) }
        ensures up_room { OnOk result (0 < self.new.connections.up_room) }
        ensures connections { self.new.connections.connections ≡ self.old.connections.connections }
        ensures limits { self.new.connections.limits ≡ self.old.connections.limits }
        ensures alike { AreSameButRoom self.old.sessions.list self.new.sessions.list }
        ensures still { AreStillReady self.old.sessions.list self.new.sessions.list }
        ensures rest { self.new ≡ record self.old { sessions = self.new.sessions; connections = self.new.connections } }
        ensures small { self.new.connections.limits.packets.most < 2 ^ 28 }
    {
        // Brings the bound of the limit (2.2.3) into the proof.
        let _ = self.connections.limits().packets.max_packet();
        self.connections.reserve(1)?;
        self.sessions.reserve_connect(key, connect, messages)
    }

    /// Returns a copy of the pending output of a session's end.
    pub fn copy_output(&self, alloc: Global, key: ClientKey) -> Result<ByteQueue, AllocError>
        ensures { IfOk result (λ b. IfSome (session_at key self.now.sessions.list) (λ t. b ≡ t.end.output)) }
    {
        let mut copy = ByteQueue::new(alloc);
        if let Some(session) = self.sessions.get(key) {
            copy.append(session.end.output())?;
        }
        Ok(copy)
    }

    /// Closes a connection on which a client is connected. Its pending output is replaced by
    /// `output`, a copy of it, and the session's end keeps its room (3.1.2.4, 4.8). Returns the
    /// state before.
    pub fn detach_with(&mut self, conn: Conn, key: ClientKey, waiting: ByteQueue) -> ConnectionState
        requires up { key_on (stage_of conn self.old.connections.connections) ≡ Some key }
        requires there { IsSome (session_at key self.old.sessions.list) }
        requires waiting { IfSome (session_at key self.old.sessions.list) (λ t. waiting ≡ t.end.output) }
        ensures stage { result ≡ stage_of conn self.old.connections.connections }
        ensures list { IfSome (session_at key self.old.sessions.list) (λ t.
            self.new.sessions.list ≡ with_server key (left t.end) self.old.sessions.list) }
        ensures connections { IfSome (session_at key self.old.sessions.list) (λ t.
            self.new.connections.connections ≡ with_connection (left_with t.end.output) conn self.old.connections.connections) }
        ensures limits { self.new.connections.limits ≡ self.old.connections.limits }
        ensures room { self.new.sessions.room ≡ self.old.sessions.room }
        ensures up_room { self.old.connections.up_room ≤ self.new.connections.up_room }
        ensures connect_end { (c : Connect) (ms : List Message) (more : ℕ) → HasConnectRoomAt c key ms more self.old.sessions.list
            → HasConnectRoomAt c key ms more self.new.sessions.list }
        ensures rest { self.new ≡ record self.old { sessions = self.new.sessions; connections = self.new.connections } }
    {
        self.sessions.lose_connection(key);
        self.connections.shut_with(conn, waiting)
    }

    /// Connects a connection for a session, whose end has room for the CONNECT and processes it
    /// (3.1.4, 3.2).
    pub fn resume_when_ready(
        &mut self,
        conn: Conn,
        key: ClientKey,
        connect: BoxedConnect,
        terms: ConnectionTerms,
        now: u64,
    )
        requires stage { stage_of conn self.old.connections.connections ≡ ConnectionState.AwaitingConnect }
        requires client { up_on key self.old.connections.connections ≡ None }
        requires room { 0 < self.old.connections.up_room }
        requires ready { HasConnectRoomAt connect key [] 0 self.old.sessions.list }
        ensures list { HasConnected connect now key self.old.sessions.list self.new.sessions.list }
        ensures connections { self.new.connections.connections
            ≡ with_connection (λ x. record x { stage = ConnectionState.ConnectedAs key terms now }) conn self.old.connections.connections }
        ensures limits { self.new.connections.limits ≡ self.old.connections.limits }
        ensures rest { self.new ≡ record self.old { sessions = self.new.sessions; connections = self.new.connections } }
    {
        self.sessions.connect_end(key, connect, now);
        self.connections.connect_end(conn, key, terms, now);
    }
}
