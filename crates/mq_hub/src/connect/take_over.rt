//! Accepts a CONNECT of a client that is connected on another connection (3.1.4).

ghost use Rattle.std.specs.Prelude.{◌≡◌, ◌≤◌, ◌<◌, ◌^◌, ◌+◌, ◌==◌, ◌&&◌, ◌||◌, ℕ, List, not, Bool, true, false, Some, None, length, is_some, IfSome, OnOk, OnErr};
ghost use Rattle.mq_hub.specs.Prelude.{accept_connect, start_session, TakenOver, is_clean, key_of, key_on, stage_of, up_on, ends_with, close, remove_if, sessions_of, close_at, Refines, IsWillWithin, AreHubTables, Proceeds};

use crate::acts::ActLog;
use crate::close::disconnect::close_up;
use crate::hub::HubOver;
use mq_packet::{BoxedConnect, Connect};
use mq_route::{Act, Conn, ConnectionState, HubClose};
use mq_tables::{CopyRules, Tables, rules_of};
use mq_topic::{ClientKey, FilterStore};
use mq_wire::Text;
use std::alloc::{AllocError, Global};

// Closes the connection of a client for another one (3.1.4), publishes its will or reports it
// as dropped, and ends its session (3.1.2.4). Room reserved before stays reserved.
fn take_over_ending<S: FilterStore>(
    tables: &mut Tables<S>,
    alloc: Global,
    rules: CopyRules,
    conn: Conn,
    key: ClientKey,
    now: u64,
    log: &mut ActLog,
)
    requires hubs { AreHubTables tables.old }
    requires up { key_on (stage_of conn tables.old.connections.connections) ≡ Some key }
    requires room { 4 ≤ log.old.room }
    ensures proceeds { Proceeds rules (λ fits w. remove_if (not (is_clean (stage_of conn tables.old.connections.connections))) key (close_at now conn TakenOver fits w))
        tables.old log.old.acts tables.new log.new.acts }
    ensures gone { (n : List ℕ) → key_of n (sessions_of tables.old.sessions.list) ≡ Some key
        → key_of n (sessions_of tables.new.sessions.list) ≡ None }
    ensures room { log.old.room ≤ log.new.room + 4 }
{
    let ends = tables.is_clean(conn);
    close_up(
        tables,
        alloc,
        rules,
        conn,
        key,
        HubClose::TakenOver,
        now,
        log,
    );
    if !ends {
        tables.remove(key);
        log.push(Act::Removed(key));
    }
}

impl<S: FilterStore> HubOver<S> {
    fn up_on(&self, key: ClientKey) -> Option<Conn>
        ensures conn { result ≡ up_on key self.now.connections }
        ensures up { IfSome result (λ conn. key_on (stage_of conn self.now.connections) ≡ Some key) }
    {
        self.tables.up_on(key)
    }

    // Whether a new session begins when a CONNECT takes this connection over: it asks for one, or
    // the old session ends with its connection (3.1.2.4).
    fn begins_anew(&self, connect: &Connect, other: Conn) -> bool
        ensures { result ≡ (connect.now.clean_session || is_clean (stage_of other self.now.connections)) }
    {
        connect.clean_session || self.tables.is_clean(other)
    }

    // Ends the client's session and begins one with the next key (3.1.2.4).
    fn take_over_and_replace(
        &mut self,
        conn: Conn,
        connect: BoxedConnect,
        client: Text,
        key: ClientKey,
        other: Conn,
        log: &mut ActLog,
    ) -> Result<(), AllocError>
        requires fresh { stage_of conn self.old.connections ≡ ConnectionState.AwaitingConnect }
        requires stands { key_of client self.old.sessions ≡ Some key }
        requires up { key_on (stage_of other self.old.connections) ≡ Some key }
        requires named { (not connect.clean_session && length connect.client_id == 0) ≡ false }
        requires will { IsWillWithin self.old.config.limits.most connect.will }
        requires next { self.old.next_key < 2 ^ 32 }
        requires room { 3 ≤ log.old.room }
        ensures goes { OnOk result ((fits : Bool)
            × Refines (λ w. start_session conn connect client (remove_if (not (is_clean (stage_of other self.old.connections))) key (close other TakenOver fits w)))
            self.old log.old.acts self.new log.new.acts) }
        ensures room { OnOk result (3 ≤ log.new.room) }
        ensures err { OnErr result (self.new ≡ self.old) }
        ensures err_acts { OnErr result (log.new.acts ≡ log.old.acts) }
        ensures err_room { OnErr result (3 ≤ log.new.room) }
    {
        let next = self.next_key();
        let beginning = self.beginning(connect, client)?;
        log.reserve_more(5)?;
        self.tables.reserve_session()?;
        let rules = rules_of(&self.config);
        take_over_ending(
            &mut self.tables,
            self.alloc,
            rules,
            other,
            key,
            self.clock,
            log,
        );
        self.tables.begin(conn, beginning, self.clock);
        self.next_key += 1;
        log.push(Act::Up(conn, next, false));
        Ok(())
    }

    /// Accepts a CONNECT of a client that is connected on another connection (3.1.4). That
    /// connection is closed first, and its will is published or reported as dropped (3.1.2.5). Then
    /// the session resumes, or a new one begins (3.1.2.4).
    pub(crate) fn take_over(
        &mut self,
        conn: Conn,
        connect: BoxedConnect,
        client: Text,
        key: ClientKey,
        log: &mut ActLog,
    ) -> Result<(), AllocError>
        requires fresh { stage_of conn self.old.connections ≡ ConnectionState.AwaitingConnect }
        requires stands { key_of client self.old.sessions ≡ Some key }
        requires up { is_some (up_on key self.old.connections) ≡ true }
        requires named { (not connect.clean_session && length connect.client_id == 0) ≡ false }
        requires will { IsWillWithin self.old.config.limits.most connect.will }
        requires next { (connect.clean_session || ends_with key self.old) ≡ true → self.old.next_key < 2 ^ 32 }
        requires room { 3 ≤ log.old.room }
        ensures goes { OnOk result ((fits : Bool)
            × Refines (accept_connect conn connect client (Some key) fits) self.old log.old.acts self.new log.new.acts) }
        ensures room { OnOk result (3 ≤ log.new.room) }
        ensures err { OnErr result (self.new ≡ self.old) }
        ensures err_acts { OnErr result (log.new.acts ≡ log.old.acts) }
        ensures err_room { OnErr result (3 ≤ log.new.room) }
    {
        let Some(other) = self.up_on(key) else {
            return Err(AllocError);
        };
        if self.begins_anew(connect.as_connect(), other) {
            self.take_over_and_replace(conn, connect, client, key, other, log)
        } else {
            self.take_over_and_resume(conn, connect, key, other, log)
        }
    }
}
