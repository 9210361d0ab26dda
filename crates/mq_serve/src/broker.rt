//! The configuration of the programs' broker.

ghost use Rattle.std.specs.Prelude.{◌≡◌, None};
ghost use Rattle.mq_serve.specs.Prelude.{strict, ClosePublisher};

use mq_decode::Limits;
use mq_route::{HubConfig, WhenFull};

/// The maximum remaining length of a packet, in bytes (2.2.3).
const MOST: u32 = 1_048_576;

/// The maximum number of packet identifiers in use in a session (2.3.1).
const CAPACITY: u16 = 100;

/// The maximum number of connections, and of sessions.
const PLACES: usize = 1_000;

/// The configuration of the programs' broker.
///
/// Packets have at most 1 MiB, and a session has at most 100 identifiers in use. There is no
/// receive window. At most 1,000 connections and 1,000 sessions exist. Anybody may connect. A
/// message for a full session closes its publisher.
pub fn broker_config() -> HubConfig
    ensures { result ≡ record {
      limits = strict 1048576;
      capacity = 100;
      window = None;
      max_conns = 1000;
      max_sessions = 1000;
      users = None;
      hashed_users = None;
      when_full = ClosePublisher;
      connect_within = None;
      session_expiry = None;
      most_stored = None;
      most_waiting = None;
      most_matches = None;
    } }
{
    HubConfig {
        limits: Limits::new(MOST).unwrap(),
        capacity: CAPACITY,
        window: None,
        max_conns: PLACES,
        max_sessions: PLACES,
        users: None,
        hashed_users: None,
        when_full: WhenFull::ClosePublisher,
        connect_within: None,
        session_expiry: None,
        most_stored: None,
        most_waiting: None,
        most_matches: None,
    }
}
