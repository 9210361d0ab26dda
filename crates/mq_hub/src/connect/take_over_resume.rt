//! Takes over a session that resumes (3.1.4). All memory is reserved before the old connection is
//! closed, so that the CONNECT cannot fail afterwards.

ghost use Rattle.std.specs.Prelude.{◌≡◌, ◌+◌, ◌≤◌, ◌<◌, ◌^◌, ◌==◌, List, [], Bool, true, false, Some, None, length, IfOk, IfSome, OnOk, OnErr};
ghost use Rattle.mq_hub.specs.Prelude.{option_copied, Connect, Message, TakenOver, resume_session, is_clean, key_on, stage_of, up_on, close, HasConnectRoomAt, session_at, Refines, IsWillWithin, close_at, parts, will_left, AreHubTables, Proceeds, will_messages};

use crate::acts::ActLog;
use crate::close::disconnect::will_left;
use crate::connect::resume::terms_of;
use crate::hub::HubOver;
use crate::will::last_will::last_will;
use mq_end::ByteQueue;
use mq_packet::{BoxedConnect, Connect, Message, Will};
use mq_route::{Act, Conn, ConnectionState, HubClose};
use mq_tables::{CopyRules, Tables, rules_of, will_message};
use mq_topic::{ClientKey, FilterStore};
use std::alloc::{AllocError, Global};

// The will that a take-over of a connection leaves to publish (3.1.2.5).
fn will_of(stage: &ConnectionState) -> Option<&Will>
    ensures { option_copied result ≡ will_left TakenOver stage.now }
{
    match stage {
        ConnectionState::ConnectedAs(_, terms, _) => terms.will.as_ref(),
        ConnectionState::AwaitingConnect | ConnectionState::Closed => None,
    }
}

// The will that a take-over of a connection leaves to publish (3.1.2.5).
fn will_on<S: FilterStore>(tables: &Tables<S>, conn: Conn) -> Option<&Will>
    ensures { option_copied result ≡ will_left TakenOver (stage_of conn tables.now.connections.connections) }
{
    match tables.connections.stage(conn) {
        Some(stage) => will_of(stage),
        None => None,
    }
}

// The message of that will as a list of at most one. It shares the bytes of the will.
fn will_messages<S: FilterStore>(
    tables: &Tables<S>,
    alloc: Global,
    conn: Conn,
) -> Result<Vec<Message>, AllocError>
    ensures { IfOk result (λ ms. ms.items ≡ will_messages (will_left TakenOver (stage_of conn tables.now.connections.connections))) }
{
    let mut messages = Vec::new(alloc);
    if let Some(will) = will_on(tables, conn) {
        messages.push(will_message(will)?)?;
    }
    Ok(messages)
}

// Closes the connection of a client for another one (3.1.4) without ending its session. Returns
// the will to publish. Room to connect stays reserved.
fn close_taken_over<S: FilterStore>(
    tables: &mut Tables<S>,
    conn: Conn,
    key: ClientKey,
    waiting: ByteQueue,
    log: &mut ActLog,
) -> Option<Will>
    requires hubs { AreHubTables tables.old }
    requires up { key_on (stage_of conn tables.old.connections.connections) ≡ Some key }
    requires lasts { is_clean (stage_of conn tables.old.connections.connections) ≡ false }
    requires waiting { IfSome (session_at key tables.old.sessions.list) (λ t. waiting ≡ t.end.output) }
    requires room { 0 < log.old.room }
    ensures proceeds { (rules : CopyRules) → Proceeds rules (λ fits. parts conn TakenOver key false) tables.old log.old.acts tables.new log.new.acts }
    ensures will { result ≡ will_left TakenOver (stage_of conn tables.old.connections.connections) }
    ensures away { up_on key tables.new.connections.connections ≡ None }
    ensures limits { tables.new.connections.limits ≡ tables.old.connections.limits }
    ensures connect_end { (c : Connect) (ms : List Message) → HasConnectRoomAt c key ms 0 tables.old.sessions.list
        → HasConnectRoomAt c key ms 0 tables.new.sessions.list }
    ensures room { log.old.room ≤ log.new.room + 1 }
{
    let stage = tables.detach_with(conn, key, waiting);
    log.push(Act::Closed(conn, HubClose::TakenOver));
    will_left(HubClose::TakenOver, stage)
}

// Closes the connection of a client for another one (3.1.4) without ending its session, and
// publishes its will or reports it as dropped (3.1.2.5). Room to connect stays reserved.
fn take_over_keeping<S: FilterStore>(
    tables: &mut Tables<S>,
    alloc: Global,
    rules: CopyRules,
    conn: Conn,
    key: ClientKey,
    waiting: ByteQueue,
    now: u64,
    log: &mut ActLog,
)
    requires hubs { AreHubTables tables.old }
    requires up { key_on (stage_of conn tables.old.connections.connections) ≡ Some key }
    requires lasts { is_clean (stage_of conn tables.old.connections.connections) ≡ false }
    requires waiting { IfSome (session_at key tables.old.sessions.list) (λ t. waiting ≡ t.end.output) }
    requires room { 2 ≤ log.old.room }
    ensures proceeds { Proceeds rules (close_at now conn TakenOver) tables.old log.old.acts tables.new log.new.acts }
    ensures away { up_on key tables.new.connections.connections ≡ None }
    ensures connect_end { (c : Connect) → tables.old.connections.limits.packets.most < 2 ^ 28
        → HasConnectRoomAt c key (will_messages (will_left TakenOver (stage_of conn tables.old.connections.connections))) 0 tables.old.sessions.list
        → HasConnectRoomAt c key [] 0 tables.new.sessions.list }
    ensures room { log.old.room ≤ log.new.room + 2 }
{
    let will = close_taken_over(tables, conn, key, waiting, log);
    last_will(tables, alloc, rules, key, will, log);
    tables.mark_left(key, now);
}

impl<S: FilterStore> HubOver<S> {
    /// Accepts a CONNECT of a client that is connected on another connection and whose session
    /// resumes (3.1.2.4, 3.1.4). That connection is closed first, and its will is published or
    /// reported as dropped (3.1.2.5). Then CONNACK and the unacknowledged packets are queued (4.4).
    pub(crate) fn take_over_and_resume(
        &mut self,
        conn: Conn,
        connect: BoxedConnect,
        key: ClientKey,
        other: Conn,
        log: &mut ActLog,
    ) -> Result<(), AllocError>
        requires fresh { stage_of conn self.old.connections ≡ ConnectionState.AwaitingConnect }
        requires up { key_on (stage_of other self.old.connections) ≡ Some key }
        requires lasts { is_clean (stage_of other self.old.connections) ≡ false }
        requires goes_on { connect.clean_session ≡ false }
        requires named { (length connect.client_id == 0) ≡ false }
        requires will { IsWillWithin self.old.config.limits.most connect.will }
        requires room { 3 ≤ log.old.room }
        ensures goes { OnOk result ((fits : Bool)
            × Refines (λ w. resume_session conn connect key (close other TakenOver fits w)) self.old log.old.acts self.new log.new.acts) }
        ensures room { OnOk result (3 ≤ log.new.room) }
        ensures err { OnErr result (self.new ≡ self.old) }
        ensures err_acts { OnErr result (log.new.acts ≡ log.old.acts) }
        ensures err_room { OnErr result (3 ≤ log.new.room) }
    {
        let terms = terms_of(connect.as_connect())?;
        let waiting = self.tables.copy_output(self.alloc, key)?;
        let messages = will_messages(&self.tables, self.alloc, other)?;
        log.reserve_more(3)?;
        self.tables
            .reserve_connect(key, connect.as_connect(), messages.as_slice())?;
        let rules = rules_of(&self.config);
        let now = self.clock;
        take_over_keeping(
            &mut self.tables,
            self.alloc,
            rules,
            other,
            key,
            waiting,
            now,
            log,
        );
        self.tables
            .resume_when_ready(conn, key, connect, terms, now);
        log.push(Act::Up(conn, key, true));
        Ok(())
    }
}
