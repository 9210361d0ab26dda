//! Reading the parts of a snapshot. A reader returns a part and the bytes behind it.

ghost use Rattle.std.specs.Prelude.{◌≡◌, ◌<◌, ◌++◌, ℕ, [], true, IfOk, IfSome};
ghost use Rattle.mq_snapshot.specs.Prelude.{number, IsIdentifier, resumed, HubSession, listed, saved_end, saved_message, saved_row, saved_session, signature};
ghost use Rattle.std.specs.FinSet as set;
ghost use Rattle.mq_flow.specs.Saved.{signature as session_signature};

use crate::fault::SnapshotFault;
use crate::fields::{fault_of, read_count, read_eight, read_fields, read_qos, read_text, split};
use bytes::Bytes;
use mq_end::{ServerConfig, ServerEnd};
use mq_flow::{LoadError, Session};
use mq_packet::{Message, Payload};
use mq_topic::{ClientKey, Qos, TopicFilter};
use mq_wire::{Text, TextFault, put_number};
use std::alloc::{AllocError, Global};

// `MQS`, and the version.
const SESSION_SIGNATURE: [u8; 4] = [0x4d, 0x51, 0x53, 1];

/// Reads the signature of a snapshot. Returns the bytes behind it. Error: `Version` if the bytes
/// don't begin with it.
pub fn read_signature(bytes: &[u8]) -> Result<&[u8], SnapshotFault>
    ensures { IfOk result (λ rest. bytes.now ≡ signature ++ rest.now) }
{
    match bytes {
        [0x4d, 0x51, 0x42, 1, rest @ ..] => Ok(rest),
        _ => Err(SnapshotFault::Version),
    }
}

/// Reads the list of subscriptions (3.8.4). Errors: `Malformed`, `Memory`.
#[tactic(auto, using(std::proofs::Common::append_assoc))]
pub fn read_rows(
    alloc: Global,
    bytes: &[u8],
) -> Result<(Vec<((ClientKey, TopicFilter), Qos)>, &[u8]), SnapshotFault>
    ensures { IfOk result (λ r. bytes.now ≡ listed saved_row r.0.items ++ r.1.now) }
{
    let (size, first) = read_eight(bytes)?;
    let mut rows = Vec::new(alloc);
    let mut rest = first;
    for _ in 0..size {
        let (row, more) = read_row(alloc, rest)?;
        rows.push(row)?;
        rest = more;
    }
    Ok((rows, rest))
}

// Reads a subscription.
#[tactic(auto, unfolding(mq_route::specs::Snapshot::saved_row), using(std::proofs::Common::append_assoc))]
fn read_row(
    alloc: Global,
    bytes: &[u8],
) -> Result<(((ClientKey, TopicFilter), Qos), &[u8]), SnapshotFault>
    ensures { IfOk result (λ r. bytes.now ≡ saved_row r.0 ++ r.1.now) }
{
    let (key, rest) = read_count(bytes)?;
    let (filter, rest) = read_text(rest)?;
    let (qos, rest) = read_qos(rest)?;
    match TopicFilter::parse(alloc, filter) {
        Ok(filter) => Ok((((ClientKey::new(key), filter), qos), rest)),
        Err(fault) => Err(fault_of(fault)),
    }
}

/// Reads a retained message (3.3.1.3). Errors: `Malformed`, `Memory`.
pub fn read_message(alloc: Global, bytes: &[u8]) -> Result<(Message, &[u8]), SnapshotFault>
    ensures { IfOk result (λ r. bytes.now ≡ saved_message r.0 ++ r.1.now) }
{
    let (fields, rest) = read_fields(alloc, bytes)?;
    let payload = match Payload::new(Bytes::copy_from_slice(alloc, fields.payload)?) {
        Some(payload) => payload,
        None => return Err(SnapshotFault::Malformed),
    };
    let message = Message {
        topic: fields.topic,
        payload,
        qos: fields.qos,
        retain: fields.retain,
    };
    Ok((message, rest))
}

/// A session that was read, with an end that has no connection (3.1.2.4).
#[derive(Debug, Drop)]
pub struct SavedSession {
    /// The client identifier.
    pub client: Text,
    /// The key of the session.
    pub key: ClientKey,
    /// The time at which the client last disconnected, in milliseconds.
    pub left_at: u64,
    /// The end, without a connection.
    pub end: ServerEnd,
}

/// Reads a session, with the books of its end (3.1.2.4, 4.1). The end has the configuration's
/// capacity. Errors: `Malformed`, also if the capacity doesn't allow the session; `TooLarge` if a
/// stored message exceeds the configured limit; `Memory`.
#[tactic(auto, unfolding(mq_route::specs::Snapshot::saved_session), using(std::proofs::Common::append_assoc))]
pub fn read_session(
    alloc: Global,
    config: ServerConfig,
    bytes: &[u8],
) -> Result<(SavedSession, &[u8]), SnapshotFault>
    requires { IfSome config.window (λ window. 0 < window) }
    ensures bytes { IfOk result (λ r. let saved = r.0 in
        let session : HubSession = record { client = saved.client; key = saved.key; end = saved.end.end; left = saved.left_at } in
        bytes.now ≡ saved_session session ++ r.1.now) }
    ensures end { IfOk result (λ r. let end = r.0.end.end in
        end ≡ resumed config.window true end.book end.received end.last) }
    ensures capacity { IfOk result (λ r. r.0.end.capacity ≡ config.capacity) }
    ensures limit { IfOk result (λ r. r.0.end.limit ≡ config.limits) }
    ensures output { IfOk result (λ r. r.0.end.output ≡ []) }
    ensures held { IfOk result (λ r. r.0.end.held ≡ []) }
    ensures received { IfOk result (λ r. (identifier : ℕ) → set.contains r.0.end.end.received identifier ≡ true → IsIdentifier identifier) }
{
    let (key, rest) = read_count(bytes)?;
    let (left_at, rest) = read_eight(rest)?;
    let (client, rest) = read_text(rest)?;
    let client = client_text(alloc, client)?;
    let (size, rest) = read_eight(rest)?;
    let (form, rest) = split(rest, size)?;
    let session = SavedSession {
        client,
        key: ClientKey::new(key),
        left_at,
        end: read_end(alloc, config, form)?,
    };
    Ok((session, rest))
}

fn client_text(alloc: Global, text: &str) -> Result<Text, SnapshotFault>
    ensures { IfOk result (λ client. client ≡ text.now) }
{
    match Text::new(alloc, text) {
        Ok(client) => Ok(client),
        Err(TextFault::Memory) => Err(SnapshotFault::Memory),
        Err(_) => Err(SnapshotFault::Malformed),
    }
}

// Makes the end of a session from its bytes.
#[tactic(auto, unfolding(mq_route::specs::Snapshot::saved_end))]
fn read_end(alloc: Global, config: ServerConfig, form: &[u8]) -> Result<ServerEnd, SnapshotFault>
    requires { IfSome config.window (λ window. 0 < window) }
    ensures bytes { IfOk result (λ server. form.now ≡ saved_end server.end) }
    ensures end { IfOk result (λ server.
        server.end ≡ resumed config.window true server.end.book server.end.received server.end.last) }
    ensures capacity { IfOk result (λ server. server.capacity ≡ config.capacity) }
    ensures limit { IfOk result (λ server. server.limit ≡ config.limits) }
    ensures output { IfOk result (λ server. server.output ≡ []) }
    ensures held { IfOk result (λ server. server.held ≡ []) }
    ensures received { IfOk result (λ server. (i : ℕ) → set.contains server.end.received i ≡ true → IsIdentifier i) }
{
    let whole = whole_form(alloc, config.capacity, form)?;
    let session = match Session::load(alloc, whole.as_slice()) {
        Ok(session) => session,
        Err(LoadError::Memory) => return Err(SnapshotFault::Memory),
        Err(_) => return Err(SnapshotFault::Malformed),
    };
    match ServerEnd::with_session(alloc, config, session) {
        Some(end) => Ok(end),
        None => Err(SnapshotFault::TooLarge),
    }
}

// The saved form, version 1, of a session with this capacity.
#[tactic(auto, using(std::proofs::Common::append_assoc))]
fn whole_form(alloc: Global, capacity: u16, form: &[u8]) -> Result<Vec<u8>, AllocError>
    ensures { IfOk result (λ whole. whole.items ≡ session_signature ++ (number capacity ++ form.now)) }
{
    let mut whole = Vec::new(alloc);
    whole.extend_from_slice(&SESSION_SIGNATURE)?;
    put_number(&mut whole, capacity)?;
    whole.extend_from_slice(form)?;
    Ok(whole)
}
