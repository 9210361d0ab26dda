//! Reading the connections of a snapshot.

ghost use Rattle.std.specs.Prelude.{◌≡◌, ◌++◌, ◌∷◌, [], IfOk};
ghost use Rattle.mq_snapshot.specs.Prelude.{number, bit, HubConnection, saved_connection, saved_state, saved_will};

use crate::fault::SnapshotFault;
use crate::fields::{read_count, read_eight, read_fields, read_flag, read_number, split};
use bytes::Bytes;
use mq_packet::{Binary, Will};
use mq_route::{Conn, ConnectionState, ConnectionTerms};
use mq_topic::ClientKey;
use std::alloc::Global;

/// A connection that was read. It borrows the bytes of an incomplete packet from the snapshot.
#[derive(Debug, Drop)]
pub struct SavedConnection<'a> {
    /// The name.
    pub conn: Conn,
    /// The time at which the connection was opened, in milliseconds.
    pub since: u64,
    /// The state.
    pub state: ConnectionState,
    /// The bytes of an incomplete packet.
    pub held: &'a [u8],
}

/// Reads a connection. Errors: `Malformed`, `Memory`.
#[tactic(auto, unfolding(mq_route::specs::Snapshot::saved_connection), using(std::proofs::Common::append_assoc))]
pub fn read_connection(
    alloc: Global,
    bytes: &[u8],
) -> Result<(SavedConnection<'_>, &[u8]), SnapshotFault>
    ensures { IfOk result (λ r. let saved = r.0 in
        let connection : HubConnection = record { conn = saved.conn; stage = saved.state; held = saved.held.now; waiting = []; since = saved.since } in
        bytes.now ≡ saved_connection connection ++ r.1.now) }
{
    let (worker, rest) = read_number(bytes)?;
    let (nth, rest) = read_count(rest)?;
    let (since, rest) = read_eight(rest)?;
    let (state, rest) = read_state(alloc, rest)?;
    let (size, rest) = read_eight(rest)?;
    let (held, rest) = split(rest, size)?;
    let connection = SavedConnection {
        conn: Conn { worker, nth },
        since,
        state,
        held,
    };
    Ok((connection, rest))
}

// Reads the state of a connection.
#[tactic(auto, unfolding(mq_route::specs::Snapshot::saved_state), using(std::proofs::Common::append_assoc))]
fn read_state(alloc: Global, bytes: &[u8]) -> Result<(ConnectionState, &[u8]), SnapshotFault>
    ensures { IfOk result (λ r. bytes.now ≡ saved_state r.0 ++ r.1.now) }
{
    match bytes {
        [0, rest @ ..] => Ok((ConnectionState::AwaitingConnect, rest)),
        [1, rest @ ..] => {
            let (key, rest) = read_count(rest)?;
            let (last_activity, rest) = read_eight(rest)?;
            let (terms, rest) = read_terms(alloc, rest)?;
            let key = ClientKey::new(key);
            Ok((
                ConnectionState::ConnectedAs(key, terms, last_activity),
                rest,
            ))
        }
        [2, rest @ ..] => Ok((ConnectionState::Closed, rest)),
        _ => Err(SnapshotFault::Malformed),
    }
}

// Reads the part of a CONNECT that applies while its connection is connected.
#[tactic(auto, using(std::proofs::Common::append_assoc))]
fn read_terms(alloc: Global, bytes: &[u8]) -> Result<(ConnectionTerms, &[u8]), SnapshotFault>
    ensures { IfOk result (λ r. let kept = r.0 in
        bytes.now ≡ (bit kept.clean_session ∷ (number kept.keep_alive ++ saved_will kept.will)) ++ r.1.now) }
{
    let (clean_session, rest) = read_flag(bytes)?;
    let (keep_alive, rest) = read_number(rest)?;
    let (will, rest) = read_will(alloc, rest)?;
    let terms = ConnectionTerms {
        clean_session,
        keep_alive,
        will,
    };
    Ok((terms, rest))
}

// Reads a will, or that there is none (3.1.2.5).
#[tactic(auto, unfolding(mq_route::specs::Snapshot::saved_will), using(std::proofs::Common::append_assoc))]
fn read_will(alloc: Global, bytes: &[u8]) -> Result<(Option<Will>, &[u8]), SnapshotFault>
    ensures { IfOk result (λ r. bytes.now ≡ saved_will r.0 ++ r.1.now) }
{
    let (there, rest) = read_flag(bytes)?;
    if !there {
        return Ok((None, rest));
    }
    let (fields, rest) = read_fields(alloc, rest)?;
    let message = match Binary::new(Bytes::copy_from_slice(alloc, fields.payload)?) {
        Some(message) => message,
        None => return Err(SnapshotFault::Malformed),
    };
    let will = Will {
        topic: fields.topic,
        message,
        qos: fields.qos,
        retain: fields.retain,
    };
    Ok((Some(will), rest))
}
