//! Sessions of clients that are absent for too long (3.1.2.4).

ghost use Rattle.std.specs.Prelude.{◌≡◌, ◌≤◌, ℕ, IfOk};
ghost use Rattle.mq_tables.specs.Prelude.{has_passed, gone_keys, is_gone};
ghost use Rattle.mq_tables.specs.Expiry.{AreKept};

use crate::connections::table::Connections;
use crate::sessions::session::{BoxedSession, BrokerSession};
use crate::tables::Tables;
use mq_topic::{ClientKey, FilterStore};
use std::alloc::{AllocError, Global};

/// Whether more time than the limit has passed since this time. `None` is no limit.
pub fn has_passed(limit: Option<u64>, since: u64, now: u64) -> bool
    ensures { result ≡ has_passed limit since now }
{
    match limit {
        Some(limit) => now > since && now - since > limit,
        None => false,
    }
}

// Whether the session's client is not connected, and disconnected longer ago than the limit.
fn is_gone(
    connections: &Connections,
    session: &BrokerSession,
    expiry: Option<u64>,
    now: u64,
) -> bool
    ensures { result ≡ is_gone expiry now connections.now.connections session.now }
{
    has_passed(expiry, session.left_at, now) && connections.up_on(session.key).is_none()
}

// The keys of those of these sessions that are expired at this time.
fn gone_in(
    alloc: Global,
    connections: &Connections,
    list: &[BoxedSession],
    expiry: Option<u64>,
    now: u64,
) -> Result<Vec<ClientKey>, AllocError>
    ensures { IfOk result (λ keys. keys.items ≡ gone_keys expiry now connections.now.connections list.now) }
{
    let mut keys = Vec::new(alloc);
    for boxed in list {
        if is_gone(connections, boxed.session(), expiry, now) {
            keys.push(boxed.session().key)?;
        }
    }
    Ok(keys)
}

// The last time at which none of these sessions is expired.
fn kept_until(connections: &Connections, list: &[BoxedSession], expiry: u64) -> u64
    ensures { (now : ℕ) → now ≤ result → AreKept (Some expiry) now connections.now.connections list.now }
{
    let mut until = u64::MAX;
    for boxed in list {
        let session = boxed.session();
        if connections.up_on(session.key).is_none() {
            until = until.min(session.left_at.saturating_add(expiry));
        }
    }
    until
}

impl<S: FilterStore> Tables<S> {
    /// The keys of the sessions that are expired at this time, in ascending order.
    pub fn expired(
        &self,
        alloc: Global,
        expiry: Option<u64>,
        now: u64,
    ) -> Result<Vec<ClientKey>, AllocError>
        ensures { IfOk result (λ keys. keys.items ≡ gone_keys expiry now self.now.connections.connections self.now.sessions.list) }
    {
        if expiry.is_none() {
            return Ok(Vec::new(alloc));
        }
        gone_in(
            alloc,
            &self.connections,
            self.sessions.as_slice(),
            expiry,
            now,
        )
    }

    /// The last time at which no session is expired.
    pub fn kept_until(&self, expiry: Option<u64>) -> u64
        ensures { (now : ℕ) → now ≤ result → AreKept expiry now self.now.connections.connections self.now.sessions.list }
    {
        match expiry {
            Some(expiry) => kept_until(&self.connections, self.sessions.as_slice(), expiry),
            None => u64::MAX,
        }
    }
}
