//! Closes a connection on which a client is connected (3.1.2.4, 4.8).

ghost use Rattle.std.specs.Prelude.{◌≡◌, ◌+◌, ◌≤◌, ◌<◌, ℕ, List, true, false, Some, None};
ghost use Rattle.mq_hub.specs.Prelude.{is_clean, key_of, key_on, stage_of, up_on, CopyRules, sessions_of, close_at, parts, will_left, AreHubTables, Proceeds};

use crate::acts::ActLog;
use crate::will::last_will::last_will;
use mq_end::CloseReason;
use mq_packet::Will;
use mq_route::{Act, Conn, ConnectionState, ConnectionTerms, HubClose};
use mq_tables::{CopyRules, Tables};
use mq_topic::{ClientKey, FilterStore};
use std::alloc::Global;

/// Returns the will that a close leaves to publish (3.1.2.5). There is none if the client sent
/// DISCONNECT (3.14.4) or was not connected.
pub(crate) fn will_left(why: HubClose, stage: ConnectionState) -> Option<Will>
    ensures { result ≡ will_left why stage }
{
    let ConnectionState::ConnectedAs(_, terms, _) = stage else {
        return None;
    };
    let ConnectionTerms { will, .. } = terms;
    match why {
        HubClose::Own(CloseReason::Left) => None,
        _ => will,
    }
}

// Closes a connection whose session continues. Returns the will to publish.
fn disconnect_session<S: FilterStore>(
    tables: &mut Tables<S>,
    alloc: Global,
    conn: Conn,
    key: ClientKey,
    why: HubClose,
    log: &mut ActLog,
) -> Option<Will>
    requires hubs { AreHubTables tables.old }
    requires up { key_on (stage_of conn tables.old.connections.connections) ≡ Some key }
    requires clean { is_clean (stage_of conn tables.old.connections.connections) ≡ false }
    requires room { 0 < log.old.room }
    ensures proceeds { (rules : CopyRules) → Proceeds rules (λ fits. parts conn why key false) tables.old log.old.acts tables.new log.new.acts }
    ensures will { result ≡ will_left why (stage_of conn tables.old.connections.connections) }
    ensures away { up_on key tables.new.connections.connections ≡ None }
    ensures clients { (n : List ℕ) → key_of n (sessions_of tables.new.sessions.list) ≡ key_of n (sessions_of tables.old.sessions.list) }
    ensures room { log.old.room ≤ log.new.room + 1 }
{
    let stage = tables.detach(alloc, conn, key);
    log.push(Act::Closed(conn, why));
    will_left(why, stage)
}

// Closes a connection whose session ends with it. Returns the will to publish.
fn end_session<S: FilterStore>(
    tables: &mut Tables<S>,
    alloc: Global,
    conn: Conn,
    key: ClientKey,
    why: HubClose,
    log: &mut ActLog,
) -> Option<Will>
    requires hubs { AreHubTables tables.old }
    requires up { key_on (stage_of conn tables.old.connections.connections) ≡ Some key }
    requires clean { is_clean (stage_of conn tables.old.connections.connections) ≡ true }
    requires room { 1 < log.old.room }
    ensures proceeds { (rules : CopyRules) → Proceeds rules (λ fits. parts conn why key true) tables.old log.old.acts tables.new log.new.acts }
    ensures will { result ≡ will_left why (stage_of conn tables.old.connections.connections) }
    ensures away { up_on key tables.new.connections.connections ≡ None }
    ensures gone { (n : List ℕ) → key_of n (sessions_of tables.old.sessions.list) ≡ Some key
        → key_of n (sessions_of tables.new.sessions.list) ≡ None }
    ensures room { log.old.room ≤ log.new.room + 2 }
{
    let stage = tables.detach(alloc, conn, key);
    tables.remove(key);
    log.push(Act::Closed(conn, why));
    log.push(Act::Removed(key));
    will_left(why, stage)
}

// Closes a connection on which a client is connected (4.8), and ends its session if clean
// session was 1 (3.1.2.4). Returns the will to publish.
fn end_or_disconnect<S: FilterStore>(
    tables: &mut Tables<S>,
    alloc: Global,
    conn: Conn,
    key: ClientKey,
    why: HubClose,
    log: &mut ActLog,
) -> Option<Will>
    requires hubs { AreHubTables tables.old }
    requires up { key_on (stage_of conn tables.old.connections.connections) ≡ Some key }
    requires room { 1 < log.old.room }
    ensures proceeds { (rules : CopyRules) → Proceeds rules (λ fits. parts conn why key (is_clean (stage_of conn tables.old.connections.connections)))
        tables.old log.old.acts tables.new log.new.acts }
    ensures will { result ≡ will_left why (stage_of conn tables.old.connections.connections) }
    ensures away { up_on key tables.new.connections.connections ≡ None }
    ensures clients { is_clean (stage_of conn tables.old.connections.connections) ≡ false
        → (n : List ℕ) → key_of n (sessions_of tables.new.sessions.list) ≡ key_of n (sessions_of tables.old.sessions.list) }
    ensures gone { is_clean (stage_of conn tables.old.connections.connections) ≡ true
        → (n : List ℕ) → key_of n (sessions_of tables.old.sessions.list) ≡ Some key → key_of n (sessions_of tables.new.sessions.list) ≡ None }
    ensures room { log.old.room ≤ log.new.room + 2 }
{
    if tables.is_clean(conn) {
        end_session(tables, alloc, conn, key, why, log)
    } else {
        disconnect_session(tables, alloc, conn, key, why, log)
    }
}

/// Closes a connection on which a client is connected (4.8). Ends its session if clean session
/// was 1 (3.1.2.4), then publishes its will or reports it as dropped (3.1.2.5). The session
/// stores the time `now`. Room reserved for sessions and connections stays reserved.
pub(crate) fn close_up<S: FilterStore>(
    tables: &mut Tables<S>,
    alloc: Global,
    rules: CopyRules,
    conn: Conn,
    key: ClientKey,
    why: HubClose,
    now: u64,
    log: &mut ActLog,
)
    requires hubs { AreHubTables tables.old }
    requires up { key_on (stage_of conn tables.old.connections.connections) ≡ Some key }
    requires room { 3 ≤ log.old.room }
    ensures proceeds { Proceeds rules (close_at now conn why) tables.old log.old.acts tables.new log.new.acts }
    ensures away { up_on key tables.new.connections.connections ≡ None }
    ensures clients { is_clean (stage_of conn tables.old.connections.connections) ≡ false
        → (n : List ℕ) → key_of n (sessions_of tables.new.sessions.list) ≡ key_of n (sessions_of tables.old.sessions.list) }
    ensures gone { is_clean (stage_of conn tables.old.connections.connections) ≡ true
        → (n : List ℕ) → key_of n (sessions_of tables.old.sessions.list) ≡ Some key → key_of n (sessions_of tables.new.sessions.list) ≡ None }
    ensures room { log.old.room ≤ log.new.room + 3 }
{
    let will = end_or_disconnect(tables, alloc, conn, key, why, log);
    last_will(tables, alloc, rules, key, will, log);
    tables.mark_left(key, now);
}
