//! Loading connections, sessions, subscriptions and retained messages (4.1).

ghost use Rattle.std.specs.Prelude.{◌≡◌, None, [], ◌∷◌, ◌++◌, false, OnOk, OnErr, IsSome, IfSome, ◌<◌, IsTrue};
ghost use Rattle.mq_tables.specs.Prelude.{with_row, is_live, key_of, stage_of, with_connection, up_on, kept, sessions_of, session_at, AreAscending, AreBelow, HasContinued, connected_for};

use crate::sessions::session::BoxedSession;
use crate::tables::Tables;
use mq_end::ServerEnd;
use mq_packet::Message;
use mq_route::{Conn, ConnectionState, ConnectionTerms};
use mq_topic::{ClientKey, FilterStore, Qos, TopicFilter};
use mq_wire::Text;
use std::alloc::AllocError;

impl<S: FilterStore> Tables<S> {
    /// Whether the session of a key exists and its client is not connected.
    pub fn is_away(&self, key: ClientKey) -> bool
        ensures there { IsTrue result → IsSome (session_at key self.now.sessions.list) }
        ensures away { IsTrue result → up_on key self.now.connections.connections ≡ None }
    {
        self.sessions.get(key).is_some() && !self.is_up(key)
    }

    /// Continues a connection for a session whose client is not connected.
    pub fn continue_connection(
        &mut self,
        conn: Conn,
        key: ClientKey,
        blank: ServerEnd,
        terms: ConnectionTerms,
        last_activity: u64,
    )
        requires stage { stage_of conn self.old.connections.connections ≡ ConnectionState.AwaitingConnect }
        requires client { up_on key self.old.connections.connections ≡ None }
        requires room { 0 < self.old.connections.up_room }
        requires there { IsSome (session_at key self.old.sessions.list) }
        requires down { IfSome (session_at key self.old.sessions.list) (λ t. is_live t.end.end.state ≡ false) }
        ensures list { HasContinued terms last_activity key self.old.sessions.list self.new.sessions.list }
        ensures connections { self.new.connections.connections
            ≡ with_connection (connected_for key terms last_activity) conn self.old.connections.connections }
        ensures limits { self.new.connections.limits ≡ self.old.connections.limits }
        ensures rest { self.new ≡ record self.old { sessions = self.new.sessions; connections = self.new.connections } }
    {
        self.sessions
            .continue_connection(key, blank, &terms, last_activity);
        self.connections
            .connect_end(conn, key, terms, last_activity);
    }

    /// Sets a subscription (3.8.4).
    pub fn set_row(
        &mut self,
        key: ClientKey,
        filter: TopicFilter,
        qos: Qos,
    ) -> Result<(), AllocError>
        ensures ok { OnOk result (self.new.rows ≡ with_row key filter qos self.old.rows) }
        ensures err { OnErr result (self.new.rows ≡ self.old.rows) }
        ensures rest { self.new ≡ record self.old { rows = self.new.rows } }
    {
        self.store.set(key, filter, qos)
    }

    /// Retains a message if RETAIN is set. On `Err` only reserved capacity may have changed.
    pub fn retain(&mut self, message: Message) -> Result<(), AllocError>
        ensures ok { OnOk result (self.new.retained.messages ≡ kept message self.old.retained.messages) }
        ensures err { OnErr result (self.new.retained.messages ≡ self.old.retained.messages) }
        ensures rest { self.new ≡ record self.old { retained = self.new.retained } }
    {
        let name = message.topic.clone()?;
        self.retained.reserve(1)?;
        self.retained.keep(name, message);
        Ok(())
    }

    /// Whether a session with this key and client may be added.
    pub fn takes_session(&self, key: ClientKey, client: &Text) -> bool
        requires { AreAscending self.now.sessions.list }
        ensures above { IsTrue result → AreBelow key self.now.sessions.list }
        ensures client { IsTrue result → key_of client.now (sessions_of self.now.sessions.list) ≡ None }
    {
        self.sessions.is_above(key) && self.sessions.key_of(client).is_none()
    }

    /// Adds a session, whose key must be above all others and whose client must have no other
    /// session. On `Err` only reserved capacity may have changed.
    pub fn add_session(&mut self, name: Text, boxed: BoxedSession) -> Result<(), AllocError>
        requires name { name ≡ boxed.client }
        requires key { AreBelow boxed.key self.old.sessions.list }
        requires client { key_of boxed.client (sessions_of self.old.sessions.list) ≡ None }
        ensures ok { OnOk result (self.new.sessions.list ≡ self.old.sessions.list ++ boxed ∷ []) }
        ensures err { OnErr result (self.new.sessions.list ≡ self.old.sessions.list) }
        ensures rest { self.new ≡ record self.old { sessions = self.new.sessions } }
    {
        self.sessions.reserve(1)?;
        self.sessions.insert(name, boxed);
        Ok(())
    }
}
