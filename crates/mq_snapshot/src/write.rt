//! Writing the parts of a snapshot.

ghost use Rattle.std.specs.Prelude.{◌≡◌, ◌^◌, ◌<◌, ◌++◌, ◌∷◌, ℕ, [], length, true, OnOk};
ghost use Rattle.mq_snapshot.specs.Prelude.{number, counted, Row, bit, IsIdentifier, count, saved_payload, HubConnection, HubSession, eight, listed, saved_connection, saved_end, saved_message, saved_row, saved_session, saved_state, saved_will, signature};
ghost use Rattle.std.specs.FinSet as set;
ghost use Rattle.mq_flow.specs.Saved.{signature as session_signature};

use mq_end::ServerEnd;
use mq_packet::{Message, Will};
use mq_route::{Conn, ConnectionState, ConnectionTerms};
use mq_topic::{ClientKey, Qos, TopicFilter, TopicName};
use mq_wire::{Text, put_number};
use std::alloc::{AllocError, Global};

// `MQB`, and the version.
const SIGNATURE: [u8; 4] = [0x4d, 0x51, 0x42, 1];

/// Appends the signature of a snapshot.
pub fn put_signature(out: &mut Vec<u8>) -> Result<(), AllocError>
    ensures { OnOk result (out.new.items ≡ out.old.items ++ signature) }
{
    out.extend_from_slice(&SIGNATURE)
}

/// Appends a number of eight bytes.
#[tactic(auto, unfolding(mq_route::specs::Snapshot::eight), using(std::proofs::Common::append_assoc))]
pub fn put_eight(out: &mut Vec<u8>, n: u64) -> Result<(), AllocError>
    ensures { OnOk result (out.new.items ≡ out.old.items ++ eight n) }
{
    put_count(out, (n / 4_294_967_296) as u32)?;
    put_count(out, (n % 4_294_967_296) as u32)
}

// Appends a number of four bytes.
#[tactic(auto, using(std::proofs::Common::append_assoc))]
fn put_count(out: &mut Vec<u8>, n: u32) -> Result<(), AllocError>
    ensures { OnOk result (out.new.items ≡ out.old.items ++ count n) }
{
    put_number(out, (n / 65_536) as u16)?;
    put_number(out, (n % 65_536) as u16)
}

// Appends a text after its length in two bytes.
#[tactic(auto, using(std::proofs::Common::append_assoc))]
fn put_text(out: &mut Vec<u8>, text: &str) -> Result<(), AllocError>
    requires { length text.now < 65_536 }
    ensures { OnOk result (out.new.items ≡ out.old.items ++ counted text.now) }
{
    put_number(out, text.len() as u16)?;
    out.extend_from_slice(text.as_bytes())
}

// Appends a payload after its length in four bytes.
#[tactic(auto, using(std::proofs::Common::append_assoc))]
fn put_payload(out: &mut Vec<u8>, payload: &[u8]) -> Result<(), AllocError>
    requires { length payload.now < 2 ^ 32 }
    ensures { OnOk result (out.new.items ≡ out.old.items ++ saved_payload payload.now) }
{
    put_count(out, payload.len() as u32)?;
    out.extend_from_slice(payload)
}

// Appends a subscription.
#[tactic(auto, unfolding(mq_route::specs::Snapshot::saved_row), using(std::proofs::Common::append_assoc))]
fn put_row(out: &mut Vec<u8>, row: &((ClientKey, TopicFilter), Qos)) -> Result<(), AllocError>
    ensures { OnOk result (out.new.items ≡ out.old.items ++ saved_row row.now) }
{
    put_count(out, row.0.0.get())?;
    put_text(out, row.0.1.as_str())?;
    out.extend_from_slice(&[row.1.number()])
}

/// Appends the number of subscriptions, and the subscriptions (3.8.4).
#[tactic(auto, using(std::proofs::Common::append_assoc))]
pub fn put_rows(
    out: &mut Vec<u8>,
    rows: &[((ClientKey, TopicFilter), Qos)],
) -> Result<(), AllocError>
    ensures { OnOk result (out.new.items ≡ out.old.items ++ listed saved_row rows.now) }
{
    put_eight(out, rows.len() as u64)?;
    for row in rows {
        put_row(out, row)?;
    }
    Ok(())
}

/// Appends a retained message (3.3.1.3).
pub fn put_message(out: &mut Vec<u8>, message: &Message) -> Result<(), AllocError>
    ensures { OnOk result (out.new.items ≡ out.old.items ++ saved_message message.now) }
{
    let payload = message.payload.as_slice();
    put_fields(out, message.qos, message.retain, &message.topic, payload)
}

// Appends a message with these fields.
#[tactic(auto, unfolding(mq_route::specs::Snapshot::saved_message), using(std::proofs::Common::append_assoc))]
fn put_fields(
    out: &mut Vec<u8>,
    qos: Qos,
    retain: bool,
    topic: &TopicName,
    payload: &[u8],
) -> Result<(), AllocError>
    requires { length payload.now < 2 ^ 32 }
    ensures { let message : Message = record { topic = topic.now; payload = payload.now; qos = qos; retain = retain } in
        OnOk result (out.new.items ≡ out.old.items ++ saved_message message) }
{
    out.extend_from_slice(&[qos.number(), u8::from(retain)])?;
    put_text(out, topic.as_str())?;
    put_payload(out, payload)
}

/// Appends a session (3.1.2.4). Its end must have one. `left_at` is the time of the last
/// disconnect.
#[tactic(auto, unfolding(mq_route::specs::Snapshot::saved_session), using(std::proofs::Common::append_assoc))]
pub fn put_session(
    alloc: Global,
    out: &mut Vec<u8>,
    client: &Text,
    key: ClientKey,
    left_at: u64,
    end: &ServerEnd,
) -> Result<(), AllocError>
    requires { end.now.end.known ≡ true }
    ensures bytes { let session : HubSession = record { client = client.now; key = key; end = end.now.end; left = left_at } in
        OnOk result (out.new.items ≡ out.old.items ++ saved_session session) }
    ensures received { OnOk result ((identifier : ℕ) → set.contains end.now.end.received identifier ≡ true → IsIdentifier identifier) }
{
    put_count(out, key.get())?;
    put_eight(out, left_at)?;
    put_text(out, client.as_str())?;
    put_end(alloc, out, end)
}

// Appends the session of an end after the number of its bytes.
#[tactic(auto, using(std::proofs::Common::append_assoc))]
fn put_end(alloc: Global, out: &mut Vec<u8>, end: &ServerEnd) -> Result<(), AllocError>
    requires { end.now.end.known ≡ true }
    ensures bytes { OnOk result (out.new.items ≡ out.old.items ++ (eight (length (saved_end end.now.end)) ++ saved_end end.now.end)) }
    ensures received { OnOk result ((i : ℕ) → set.contains end.now.end.received i ≡ true → IsIdentifier i) }
{
    let mut form = Vec::new(alloc);
    save_end(&mut form, end)?;
    let session = &form[6..];
    put_eight(out, session.len() as u64)?;
    out.extend_from_slice(session)
}

// Appends the saved form of the session of an end, whose first six bytes are its signature and its
// capacity.
#[tactic(auto, unfolding(mq_route::specs::Snapshot::saved_end))]
fn save_end(form: &mut Vec<u8>, end: &ServerEnd) -> Result<(), AllocError>
    requires known { end.now.end.known ≡ true }
    ensures bytes { OnOk result (form.new.items ≡ form.old.items ++ (session_signature ++ (number end.now.capacity ++ saved_end end.now.end))) }
    ensures received { OnOk result ((i : ℕ) → set.contains end.now.end.received i ≡ true → IsIdentifier i) }
{
    match end.session() {
        Some(session) => session.save(form),
        None => Err(AllocError),
    }
}

/// Appends a connection: its name, its state, the time at which it was opened, and the bytes of an
/// incomplete packet.
#[tactic(auto, unfolding(mq_route::specs::Snapshot::saved_connection), using(std::proofs::Common::append_assoc))]
pub fn put_connection(
    out: &mut Vec<u8>,
    conn: Conn,
    state: &ConnectionState,
    since: u64,
    held: &[u8],
) -> Result<(), AllocError>
    ensures { let connection : HubConnection = record { conn = conn; stage = state.now; held = held.now; waiting = []; since = since } in
        OnOk result (out.new.items ≡ out.old.items ++ saved_connection connection) }
{
    put_number(out, conn.worker)?;
    put_count(out, conn.nth)?;
    put_eight(out, since)?;
    put_state(out, state)?;
    put_eight(out, held.len() as u64)?;
    out.extend_from_slice(held)
}

// Appends the state of a connection.
#[tactic(auto, unfolding(mq_route::specs::Snapshot::saved_state), using(std::proofs::Common::append_assoc))]
fn put_state(out: &mut Vec<u8>, state: &ConnectionState) -> Result<(), AllocError>
    ensures { OnOk result (out.new.items ≡ out.old.items ++ saved_state state.now) }
{
    match state {
        ConnectionState::AwaitingConnect => out.extend_from_slice(&[0]),
        ConnectionState::ConnectedAs(key, terms, last_activity) => {
            out.extend_from_slice(&[1])?;
            put_count(out, key.get())?;
            put_eight(out, *last_activity)?;
            put_terms(out, terms)
        }
        ConnectionState::Closed => out.extend_from_slice(&[2]),
    }
}

// Appends the part of a CONNECT that applies while its connection is connected.
#[tactic(auto, using(std::proofs::Common::append_assoc))]
fn put_terms(out: &mut Vec<u8>, terms: &ConnectionTerms) -> Result<(), AllocError>
    ensures { let kept = terms.now in
        OnOk result (out.new.items ≡ out.old.items ++ (bit kept.clean_session ∷ (number kept.keep_alive ++ saved_will kept.will))) }
{
    out.extend_from_slice(&[u8::from(terms.clean_session)])?;
    put_number(out, terms.keep_alive)?;
    put_will(out, &terms.will)
}

// Appends a will, or that there is none (3.1.2.5).
#[tactic(auto, unfolding(mq_route::specs::Snapshot::saved_will), using(std::proofs::Common::append_assoc))]
fn put_will(out: &mut Vec<u8>, will: &Option<Will>) -> Result<(), AllocError>
    ensures { OnOk result (out.new.items ≡ out.old.items ++ saved_will will.now) }
{
    match will {
        None => out.extend_from_slice(&[0]),
        Some(will) => {
            out.extend_from_slice(&[1])?;
            let payload = will.message.as_slice();
            put_fields(out, will.qos, will.retain, &will.topic, payload)
        }
    }
}
