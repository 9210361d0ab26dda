//! Closes the connections whose keep-alive has run out (3.1.2.10), and those without CONNECT (3.1).

ghost use Rattle.std.specs.Prelude.{◌≡◌, ◌+◌, ◌*◌, ◌≤◌, ◌^◌, [], drop, false, length, max, slice_get, Some, IfOk, IfErr, IfNone, IfSome, OnErr, OnOk};
ghost use Rattle.mq_hub.specs.Prelude.{IsNonDecreasing, knows, HubStep, with_clock, connection_of, AreInTime, HasLate, IsIdleBefore, TicksTo, late_of};

use crate::acts::ActLog;
use crate::hub::HubOver;
use mq_end::{CloseReason, is_late};
use mq_route::{Conn, ConnectionState, HubClose, HubEvent, HubRefusal, HubReply};
use mq_tables::{Connection, has_passed};
use mq_topic::FilterStore;
use std::alloc::AllocError;

// The name of a connection and the reason to close it, if it is late at this time.
fn late(within: Option<u64>, connection: &Connection, now: u64) -> Option<(Conn, HubClose)>
    ensures { result ≡ late_of within now (Some (connection_of connection.now)) }
{
    match &connection.stage {
        ConnectionState::AwaitingConnect if has_passed(within, connection.since, now) => {
            Some((connection.conn, HubClose::NoConnect))
        }
        ConnectionState::ConnectedAs(_, terms, last_activity)
            if is_late(*last_activity, terms.keep_alive, now) => {
            Some((connection.conn, HubClose::Own(CloseReason::KeepAlive)))
        }
        ConnectionState::AwaitingConnect
        | ConnectionState::ConnectedAs(..)
        | ConnectionState::Closed => None,
    }
}

// Makes room for the acts of removing this number of sessions and closing this number of
// connections.
fn reserve_acts(log: &mut ActLog, sessions: usize, connections: usize) -> Result<(), AllocError>
    ensures ok { OnOk result (sessions + 3 * connections ≤ log.new.room) }
    ensures same { log.new.acts ≡ log.old.acts }
{
    let Some(room) = connections.checked_mul(3) else {
        return Err(AllocError);
    };
    log.reserve(room)?;
    log.reserve_more(sessions)
}

impl<S: FilterStore> HubOver<S> {
    // The clock after a tick at this time. It never goes back.
    fn clock_at(&self, now: u64) -> u64
        ensures { result ≡ max self.now.clock now }
    {
        self.clock.max(now)
    }

    fn set_clock(&mut self, now: u64)
        ensures { self.new ≡ with_clock now self.old }
    {
        self.clock = self.clock.max(now);
    }

    // The name of the connection at an index and the reason to close it, if it is late at this
    // time. No connection behind it has that name.
    fn late_at(&self, index: usize, within: Option<u64>, now: u64) -> Option<(Conn, HubClose)>
        ensures late { result ≡ late_of within now (slice_get self.now.connections index) }
        ensures apart { IfSome result (λ late. knows late.0 (drop (index + 1) self.now.connections) ≡ false) }
    {
        let _ = &self.alloc;
        let connection = self.tables.connections.at(index)?;
        late(within, connection, now)
    }

    // The indices of the connections that may be late at this time, in ascending order.
    fn late_places(&mut self, now: u64) -> Result<Vec<usize>, AllocError>
        ensures same { self.new ≡ self.old }
        ensures late { IfOk result (λ places. HasLate self.old.config.connect_within now self.old.connections places.items) }
        ensures ascending { IfOk result (λ places. IsNonDecreasing places.items) }
    {
        self.tables.connections.late_places(self.alloc, now)
    }

    // Closes the late connections one after another, in the order in which they were opened. Their
    // indices must be among `places`.
    fn close_late(&mut self, now: u64, places: &[usize], log: &mut ActLog)
        requires late { HasLate self.old.config.connect_within now self.old.connections places.now }
        requires ascending { IsNonDecreasing places.now }
        requires room { 3 * length places.now ≤ log.old.room }
        ensures ticks { TicksTo now self.old log.old.acts self.new log.new.acts }
        ensures all { AreInTime self.old.config.connect_within now self.new.connections }
    {
        let within = self.config.connect_within;
        for place in places {
            let Some((conn, why)) = self.late_at(*place, within, now) else {
                continue;
            };
            self.close(conn, why, log);
        }
    }

    /// Returns the first time, in milliseconds, at which a `Tick` may close a connection because of
    /// its keep-alive (3.1.2.10), or because it sent no CONNECT (3.1), or remove a session
    /// (3.1.2.4). `None` if there is no such time. The call looks at every session if
    /// [`HubConfig::session_expiry`](mq_route::HubConfig) is set.
    ///
    /// The result may be too early, because the connection that it is for has sent packets since or
    /// is closed. A `Tick` at that time then closes nothing and moves the result on. Steps change
    /// the result, so call this again after each.
    pub fn next_deadline(&self) -> Option<u64>
        ensures idle { IfSome result (λ deadline. IsIdleBefore deadline self.now) }
        ensures never { IfNone result (IsIdleBefore (2 ^ 64) self.now) }
    {
        let kept_until = self.tables.kept_until(self.config.session_expiry);
        let in_time_until = self.tables.connections.in_time_until();
        in_time_until.min(kept_until).checked_add(1)
    }

    /// Sets the clock to this time, in milliseconds. Closes each connection whose client sent no
    /// packet for more than one and a half times its keep-alive (3.1.2.10), and each that sent no
    /// CONNECT in time (3.1). Before that, removes each session whose client is not connected and
    /// disconnected too long ago (3.1.2.4). Reserves all memory before anything changes.
    pub(crate) fn on_tick(&mut self, now: u64) -> Result<HubReply, HubRefusal>
        ensures step { IfOk result (λ reply. HubStep self.old (HubEvent.Tick now) reply self.new) }
        ensures memory { IfErr result (λ why. why ≡ HubRefusal.Memory) }
        ensures err { OnErr result (self.new ≡ self.old) }
    {
        let clock = self.clock_at(now);
        let mut log = ActLog::new(self.alloc);
        let Ok(expired) = self.expired(clock) else {
            return Err(HubRefusal::Memory);
        };
        let Ok(places) = self.late_places(clock) else {
            return Err(HubRefusal::Memory);
        };
        if reserve_acts(&mut log, expired.len(), places.len()).is_err() {
            return Err(HubRefusal::Memory);
        }
        self.set_clock(now);
        self.remove_all(expired.as_slice(), &mut log);
        self.close_late(clock, places.as_slice(), &mut log);
        Ok(log.into_reply(true))
    }
}
