//! Steps of a broker whose events are encoded behind an entry.

ghost use Rattle.std.specs.Prelude.{◌≡◌, ◌+◌, ◌<◌, ◌≤◌, ◌^◌, [], ◌++◌, true, length, take, IfOk, IfErr, OnOk, OnErr};
ghost use Rattle.mq_durable.specs.Prelude.{event_bytes, is_recorded, Bytes, Collect, HubStep, HubStepSome, IsNotNoted, IsNotStepped};

use crate::fault::StepRefusal;
use mq_hub::Hub;
use mq_record::{encode_event, encode_piece, shorten_piece};
use mq_route::{Conn, HubEvent, HubRefusal, HubReply};

// The entry of a journal is shorter.
const MOST_BYTES: usize = 1 << 32;

// The length of the encoding of an event.
fn encoded_len(event: &HubEvent) -> usize
    ensures { result ≡ length (event_bytes event.now) }
{
    match event {
        HubEvent::Opened(_) | HubEvent::Ended(_) => 7,
        HubEvent::Bytes(_, piece) => 11 + piece.as_slice().len(),
        HubEvent::Tick(_) => 9,
        HubEvent::Collect(_) => 0,
    }
}

// Encodes an event behind the others.
fn note(event: &HubEvent, entry: &mut Vec<u8>) -> Result<(), StepRefusal>
    requires recorded { is_recorded event.now ≡ true }
    requires short { length entry.old.items < 2 ^ 32 }
    ensures noted { OnOk result (entry.new.items ≡ entry.old.items ++ event_bytes event.now) }
    ensures short { OnOk result (length entry.new.items < 2 ^ 32) }
    ensures err { OnErr result (entry.new.items ≡ entry.old.items) }
    ensures refused { IfErr result (IsNotNoted entry.old.items event.now) }
{
    if encoded_len(event) >= MOST_BYTES - entry.len() {
        return Err(StepRefusal::EntryFull);
    }
    if encode_event(event, entry).is_err() {
        return Err(StepRefusal::Hub(HubRefusal::Memory));
    }
    Ok(())
}

// Encodes the arrival of bytes behind the others.
fn note_piece(conn: Conn, piece: &[u8], entry: &mut Vec<u8>) -> Result<(), StepRefusal>
    requires { length entry.old.items < 2 ^ 32 }
    ensures noted { OnOk result (entry.new.items
        ≡ entry.old.items ++ event_bytes (Bytes conn piece.now)) }
    ensures short { OnOk result (length entry.new.items < 2 ^ 32) }
    ensures err { OnErr result (entry.new.items ≡ entry.old.items) }
    ensures refused { IfErr result (IsNotNoted entry.old.items (Bytes conn piece.now)) }
{
    if 11 + piece.len() >= MOST_BYTES - entry.len() {
        return Err(StepRefusal::EntryFull);
    }
    if encode_piece(conn, piece, entry).is_err() {
        return Err(StepRefusal::Hub(HubRefusal::Memory));
    }
    Ok(())
}

// Drops the bytes behind the first ones.
fn forget(entry: &mut Vec<u8>, before: usize)
    ensures { entry.new.items ≡ take before entry.old.items }
{
    entry.truncate(before);
}

// Steps the broker, and keeps the encoding of the event if the step is made.
pub(crate) fn step_noted(
    hub: &mut Hub,
    entry: &mut Vec<u8>,
    event: &HubEvent,
) -> Result<HubReply, StepRefusal>
    requires recorded { is_recorded event.now ≡ true }
    requires short { length entry.old.items < 2 ^ 32 }
    ensures step { IfOk result (λ reply. HubStep hub.old event.now reply hub.new) }
    ensures noted { OnOk result (entry.new.items ≡ entry.old.items ++ event_bytes event.now) }
    ensures short { OnOk result (length entry.new.items < 2 ^ 32) }
    ensures hub { OnErr result (hub.new ≡ hub.old) }
    ensures entry { OnErr result (entry.new.items ≡ entry.old.items) }
    ensures refused { IfErr result (IsNotStepped entry.old.items hub.old event.now) }
{
    let before = entry.len();
    note(event, entry)?;
    match hub.step(event) {
        Ok(reply) => Ok(reply),
        Err(why) => {
            forget(entry, before);
            Err(StepRefusal::Hub(why))
        }
    }
}

// Steps the broker with the front of bytes that arrive, and keeps the encoding of exactly that
// front if the step is made.
pub(crate) fn step_some_noted(
    hub: &mut Hub,
    entry: &mut Vec<u8>,
    conn: Conn,
    piece: &[u8],
    most_acts: usize,
) -> Result<(HubReply, usize), StepRefusal>
    requires { length entry.old.items < 2 ^ 32 }
    ensures step { IfOk result
        (λ r. HubStepSome hub.old conn piece.now most_acts r.0 r.1 hub.new) }
    ensures some { IfOk result (λ r. 0 < length piece.now → 0 < r.1) }
    ensures noted { IfOk result (λ r. entry.new.items
        ≡ entry.old.items ++ event_bytes (Bytes conn (take r.1 piece.now))) }
    ensures short { OnOk result (length entry.new.items < 2 ^ 32) }
    ensures hub { OnErr result (hub.new ≡ hub.old) }
    ensures entry { OnErr result (entry.new.items ≡ entry.old.items) }
    ensures refused { IfErr result (IsNotStepped entry.old.items hub.old (Bytes conn piece.now)) }
{
    let before = entry.len();
    note_piece(conn, piece, entry)?;
    match hub.step_some(conn, piece, most_acts) {
        Ok((reply, taken)) => {
            shorten_piece(entry, before, taken);
            Ok((reply, taken))
        }
        Err(why) => {
            forget(entry, before);
            Err(StepRefusal::Hub(why))
        }
    }
}

// Takes the pending output of a connection.
pub(crate) fn collect_from(hub: &mut Hub, conn: Conn) -> Result<HubReply, StepRefusal>
    ensures step { IfOk result (λ reply. HubStep hub.old (Collect conn) reply hub.new) }
    ensures err { OnErr result (hub.new ≡ hub.old) }
    ensures refused { IfErr result (IsNotStepped [] hub.old (Collect conn)) }
{
    match hub.step(&HubEvent::Collect(conn)) {
        Ok(reply) => Ok(reply),
        Err(why) => Err(StepRefusal::Hub(why)),
    }
}
