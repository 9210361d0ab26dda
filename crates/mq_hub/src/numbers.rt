//! Numbers of a broker for gauges and status pages.

ghost use Rattle.std.specs.Prelude.{◌≡◌, ◌-◌, ◌^◌, length, min, option_map, slice_get, true};
ghost use Rattle.mq_hub.specs.Prelude.{option_copied, is_full, stored_at, counts_of, stored_in};

use crate::hub::HubOver;
use mq_tables::{BrokerSession, free_of, stored_of};
use mq_topic::{ClientKey, FilterStore};
use mq_wire::Text;

/// The numbers of a broker, from [`HubOver::counts`].
#[derive(Clone, Copy, Debug, PartialEq, Eq)]
pub struct HubCounts {
    /// The number of sessions (3.1.2.4).
    pub sessions: usize,
    /// The number of subscriptions (3.8.4).
    pub subscriptions: usize,
    /// The number of retained messages (3.3.1.3).
    pub retained: usize,
    /// The number of messages of QoS 1 and 2 that sessions store: those not yet sent, and those
    /// sent without a PUBACK or PUBREC yet (4.3).
    pub stored: u64,
}

/// The numbers of one session, from [`HubOver::session_counts`].
#[derive(Clone, Copy, Debug, PartialEq, Eq)]
pub struct SessionCounts {
    /// The key of the session, as in acts.
    pub key: ClientKey,
    /// The number of messages that the session stores (4.3).
    pub stored: usize,
    /// Whether no packet identifier of the session is free (2.3.1).
    pub is_full: bool,
}

fn counts_at(session: &BrokerSession) -> SessionCounts
    ensures key { result.key ≡ session.now.key }
    ensures stored { result.stored ≡ stored_at session.now.end }
    ensures full { session.now.end.end.known ≡ true → result.is_full ≡ is_full session.now.end.capacity session.now.end.end.book }
{
    SessionCounts {
        key: session.key,
        stored: stored_of(&session.end),
        is_full: free_of(&session.end) == 0,
    }
}

impl<S: FilterStore> HubOver<S> {
    /// Returns numbers for gauges. The cost is linear in the number of sessions.
    pub fn counts(&self) -> HubCounts
        ensures sessions { result.sessions ≡ length self.now.sessions }
        ensures subscriptions { result.subscriptions ≡ min (length self.now.rows) (2 ^ 64 - 1) }
        ensures retained { result.retained ≡ length self.now.retained }
        ensures stored { result.stored ≡ min (stored_in self.now.sessions) (2 ^ 64 - 1) }
    {
        HubCounts {
            sessions: self.tables.sessions.len(),
            subscriptions: self.tables.store.len(),
            retained: self.tables.retained.len(),
            stored: self.tables.sessions.stored(),
        }
    }

    /// Returns the client identifier of the session at an index (3.1.3.1). Sessions are ordered by
    /// the time at which they began. `None` if there are no more sessions.
    pub fn session_client(&self, index: usize) -> Option<&Text>
        ensures { option_copied result ≡ option_map (λ s. s.client) (slice_get self.now.sessions index) }
    {
        let session = self.tables.sessions.at(index)?;
        Some(&session.client)
    }

    /// Returns the numbers of the session at an index. `None` if there are no more sessions.
    pub fn session_counts(&self, index: usize) -> Option<SessionCounts>
        ensures { result ≡ option_map (counts_of self.now.config) (slice_get self.now.sessions index) }
    {
        let session = self.tables.sessions.at(index)?;
        Some(counts_at(session))
    }
}
