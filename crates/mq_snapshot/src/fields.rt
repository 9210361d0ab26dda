//! Reading the fields of a snapshot's parts. A reader returns a field and the bytes behind it.

ghost use Rattle.std.specs.Prelude.{◌≡◌, ◌++◌, ◌∷◌, length, IfOk};
ghost use Rattle.mq_snapshot.specs.Prelude.{number, counted, qos_number, bit, count, eight, saved_message};
ghost use Rattle.mq_packet.specs.declared.message.Message.{Message as MessageParts};

use crate::fault::SnapshotFault;
use mq_topic::{Qos, TopicFault, TopicName};
use std::alloc::Global;

// Reads a number of two bytes.
pub(crate) fn read_number(bytes: &[u8]) -> Result<(u16, &[u8]), SnapshotFault>
    ensures { IfOk result (λ r. bytes.now ≡ number r.0 ++ r.1.now) }
{
    let [high, low, rest @ ..] = bytes else {
        return Err(SnapshotFault::Malformed);
    };
    Ok((u16::from_be_bytes([*high, *low]), rest))
}

// Reads a number of four bytes.
#[tactic(auto, using(std::proofs::Common::append_assoc))]
pub(crate) fn read_count(bytes: &[u8]) -> Result<(u32, &[u8]), SnapshotFault>
    ensures { IfOk result (λ r. bytes.now ≡ count r.0 ++ r.1.now) }
{
    let (high, rest) = read_number(bytes)?;
    let (low, rest) = read_number(rest)?;
    Ok((65_536 * u32::from(high) + u32::from(low), rest))
}

/// Reads a number of eight bytes. Error: `Malformed` if there are fewer.
#[tactic(auto, unfolding(mq_route::specs::Snapshot::eight), using(std::proofs::Common::append_assoc))]
pub fn read_eight(bytes: &[u8]) -> Result<(u64, &[u8]), SnapshotFault>
    ensures { IfOk result (λ r. bytes.now ≡ eight r.0 ++ r.1.now) }
{
    let (high, rest) = read_count(bytes)?;
    let (low, rest) = read_count(rest)?;
    Ok((4_294_967_296 * u64::from(high) + u64::from(low), rest))
}

// Splits the bytes behind this number of them.
pub(crate) fn split(bytes: &[u8], size: u64) -> Result<(&[u8], &[u8]), SnapshotFault>
    ensures parts { IfOk result (λ r. bytes.now ≡ r.0.now ++ r.1.now) }
    ensures size { IfOk result (λ r. length r.0.now ≡ size) }
{
    if (bytes.len() as u64) < size {
        return Err(SnapshotFault::Malformed);
    }
    Ok(bytes.split_at(size as usize))
}

// Reads a text after its length in two bytes.
#[tactic(auto, using(std::proofs::Common::append_assoc))]
pub(crate) fn read_text(bytes: &[u8]) -> Result<(&str, &[u8]), SnapshotFault>
    ensures { IfOk result (λ r. bytes.now ≡ counted r.0.now ++ r.1.now) }
{
    let (size, rest) = read_number(bytes)?;
    let (text, rest) = split(rest, u64::from(size))?;
    match str::from_utf8(text) {
        Ok(text) => Ok((text, rest)),
        Err(_) => Err(SnapshotFault::Malformed),
    }
}

// Reads a quality of service.
pub(crate) fn read_qos(bytes: &[u8]) -> Result<(Qos, &[u8]), SnapshotFault>
    ensures { IfOk result (λ r. bytes.now ≡ qos_number r.0 ∷ r.1.now) }
{
    match bytes {
        [0, rest @ ..] => Ok((Qos::Q0, rest)),
        [1, rest @ ..] => Ok((Qos::Q1, rest)),
        [2, rest @ ..] => Ok((Qos::Q2, rest)),
        _ => Err(SnapshotFault::Malformed),
    }
}

// Reads a flag, 0 or 1.
pub(crate) fn read_flag(bytes: &[u8]) -> Result<(bool, &[u8]), SnapshotFault>
    ensures { IfOk result (λ r. bytes.now ≡ bit r.0 ∷ r.1.now) }
{
    match bytes {
        [0, rest @ ..] => Ok((false, rest)),
        [1, rest @ ..] => Ok((true, rest)),
        _ => Err(SnapshotFault::Malformed),
    }
}

// The fields of a message, with a payload that is borrowed.
#[derive(Drop)]
pub(crate) struct Fields<'a> {
    pub(crate) topic: TopicName,
    pub(crate) payload: &'a [u8],
    pub(crate) qos: Qos,
    pub(crate) retain: bool,
}

// Reads the fields of a message.
#[tactic(auto, unfolding(mq_route::specs::Snapshot::saved_message), using(std::proofs::Common::append_assoc))]
pub(crate) fn read_fields(alloc: Global, bytes: &[u8]) -> Result<(Fields<'_>, &[u8]), SnapshotFault>
    ensures { IfOk result (λ r. let f = r.0 in
        let message : MessageParts = record { topic = f.topic; payload = f.payload.now; qos = f.qos; retain = f.retain } in
        bytes.now ≡ saved_message message ++ r.1.now) }
{
    let (qos, rest) = read_qos(bytes)?;
    let (retain, rest) = read_flag(rest)?;
    let (topic, rest) = read_text(rest)?;
    let (size, rest) = read_count(rest)?;
    let (payload, rest) = split(rest, u64::from(size))?;
    let fields = Fields {
        topic: topic_name(alloc, topic)?,
        payload,
        qos,
        retain,
    };
    Ok((fields, rest))
}

fn topic_name(alloc: Global, text: &str) -> Result<TopicName, SnapshotFault>
    ensures { IfOk result (λ name. name ≡ text.now) }
{
    match TopicName::parse(alloc, text) {
        Ok(name) => Ok(name),
        Err(fault) => Err(fault_of(fault)),
    }
}

pub(crate) fn fault_of(fault: TopicFault) -> SnapshotFault {
    match fault {
        TopicFault::Memory => SnapshotFault::Memory,
        _ => SnapshotFault::Malformed,
    }
}
