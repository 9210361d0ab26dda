//! Writing the saved form of a session (4.1).

ghost use Rattle.std.specs.Prelude.{◌≡◌, ◌++◌, ◌<◌, ◌^◌, ℕ, true, length, take, OnOk, OnErr};
ghost use Rattle.mq_flow.specs.Prelude.{flat_map, nat_cmp, IsOrdered, IsTopicName, IsIdentifier, messages, releases, AreIdentifiers, number, counted, count, saved_payload, saved_flags, saved_entry, saved_ids, saved_sender, saved_receiver, saved_form, signature, without_claims, AreWithin, HaveTopics, IsSenderWithin, IsSession};
ghost use Rattle.std.specs.FinSet as set;

use crate::entry::SenderEntry;
use crate::receiver::Receiver;
use crate::sender::Sender;
use crate::session::Session;
use crate::table::Table;
use mq_packet::{Message, Payload};
use mq_topic::TopicName;
use std::alloc::AllocError;
use std::collections::BTreeSet;

/// `MQS`, and the version of the form.
pub(crate) const SIGNATURE: [u8; 4] = [0x4d, 0x51, 0x53, 1];

impl Session {
    /// Appends the saved form of the session, version 1 (4.1): its unfinished messages in both
    /// directions, without the identifiers of SUBSCRIBE and UNSUBSCRIBE. On `Err`, `out` is
    /// unchanged.
    pub fn save(&self, out: &mut Vec<u8>) -> Result<(), AllocError>
        ensures ok { OnOk result (out.new.items ≡ out.old.items ++ saved_form (without_claims self.now)) }
        ensures session { OnOk result (AreWithin 268435455 self.now.sender.book.entries → IsSession (without_claims self.now)) }
        ensures received { OnOk result ((id : ℕ) → set.contains self.now.receiver id ≡ true → IsIdentifier id) }
        ensures err { OnErr result (out.new.items ≡ out.old.items) }
    {
        let before = out.len();
        let put = put_session(out, self);
        if put.is_err() {
            out.truncate(before);
        }
        put
    }
}

// Appends the saved form, or a prefix of it if an allocation fails.
fn put_session(out: &mut Vec<u8>, session: &Session) -> Result<(), AllocError>
    ensures ok { OnOk result (out.new.items ≡ out.old.items ++ saved_form session.now) }
    ensures session { OnOk result (AreWithin 268435455 session.now.sender.book.entries → IsSession (without_claims session.now)) }
    ensures received { OnOk result ((i : ℕ) → set.contains session.now.receiver i ≡ true → IsIdentifier i) }
    ensures err { OnErr result (take (length out.old.items) out.new.items ≡ out.old.items) }
{
    out.extend_from_slice(&SIGNATURE)?;
    put_state(out, session)
}

// Appends the saved form behind the version, or a prefix of it if an allocation fails.
pub(crate) fn put_state(out: &mut Vec<u8>, session: &Session) -> Result<(), AllocError>
    ensures ok { OnOk result (out.new.items ≡ out.old.items ++ (saved_sender session.now.sender ++ saved_receiver session.now.receiver)) }
    ensures session { OnOk result (AreWithin 268435455 session.now.sender.book.entries → IsSession (without_claims session.now)) }
    ensures received { OnOk result ((i : ℕ) → set.contains session.now.receiver i ≡ true → IsIdentifier i) }
    ensures err { OnErr result (take (length out.old.items) out.new.items ≡ out.old.items) }
{
    session.sender.put(out)?;
    session.receiver.put(out)
}

impl Sender {
    // Appends the sender's state.
    fn put(&self, out: &mut Vec<u8>) -> Result<(), AllocError>
        ensures ok { OnOk result (out.new.items ≡ out.old.items ++ saved_sender self.now) }
        ensures sender { OnOk result (AreWithin 268435455 self.now.book.entries → IsSenderWithin 268435455 self.now) }
        ensures err { OnErr result (take (length out.old.items) out.new.items ≡ out.old.items) }
    {
        put_number(out, self.capacity)?;
        put_number(out, self.last)?;
        put_entries(out, &self.table)?;
        put_released(out, &self.table)
    }
}

impl Receiver {
    // Appends the receiver's state.
    fn put(&self, out: &mut Vec<u8>) -> Result<(), AllocError>
        ensures ok { OnOk result (out.new.items ≡ out.old.items ++ saved_receiver self.now) }
        ensures received { (i : ℕ) → set.contains self.now i ≡ true → IsIdentifier i }
        ensures err { OnErr result (take (length out.old.items) out.new.items ≡ out.old.items) }
    {
        put_stored(out, &self.stored)
    }
}

// Appends how many identifiers there are, and they, ascending.
fn put_stored(out: &mut Vec<u8>, stored: &BTreeSet<u16>) -> Result<(), AllocError>
    requires { AreIdentifiers stored.now.keys }
    ensures ok { OnOk result (out.new.items ≡ out.old.items ++ saved_ids stored.now.keys) }
    ensures err { OnErr result (take (length out.old.items) out.new.items ≡ out.old.items) }
    ensures ordered { IsOrdered nat_cmp stored.now }
{
    put_number(out, stored.len() as u16)?;
    for id in stored {
        put_number(out, *id)?;
    }
    Ok(())
}

// Appends how many entries there are, and they.
fn put_entries(out: &mut Vec<u8>, table: &Table) -> Result<(), AllocError>
    requires { length (messages table.now.pairs) < 65_536 }
    ensures ok { OnOk result (out.new.items ≡ out.old.items ++ (number (length (messages table.now.pairs)) ++ flat_map saved_entry (messages table.now.pairs))) }
    ensures topics { OnOk result (HaveTopics (messages table.now.pairs)) }
    ensures err { OnErr result (take (length out.old.items) out.new.items ≡ out.old.items) }
{
    put_number(out, table.waiting() as u16)?;
    for entry in table.entries() {
        put_entry(out, entry)?;
    }
    Ok(())
}

// Appends how many identifiers there are, and they.
fn put_released(out: &mut Vec<u8>, table: &Table) -> Result<(), AllocError>
    requires { length (releases table.now.pairs) < 65_536 }
    ensures ok { OnOk result (out.new.items ≡ out.old.items ++ saved_ids (releases table.now.pairs)) }
    ensures err { OnErr result (take (length out.old.items) out.new.items ≡ out.old.items) }
{
    put_number(out, table.released() as u16)?;
    for id in table.releases() {
        put_number(out, id.get())?;
    }
    Ok(())
}

// Appends an entry.
fn put_entry(out: &mut Vec<u8>, entry: &SenderEntry) -> Result<(), AllocError>
    ensures ok { OnOk result (out.new.items ≡ out.old.items ++ saved_entry entry.now) }
    ensures topic { OnOk result (IsTopicName entry.now.message.topic) }
    ensures err { OnErr result (take (length out.old.items) out.new.items ≡ out.old.items) }
{
    put_head(out, entry)?;
    put_message(out, &entry.message)
}

// Appends the fields of an entry before its message.
fn put_head(out: &mut Vec<u8>, entry: &SenderEntry) -> Result<(), AllocError>
    ensures ok { OnOk result (out.new.items ≡ out.old.items ++ (number entry.now.id ++ saved_flags entry.now)) }
    ensures err { OnErr result (take (length out.old.items) out.new.items ≡ out.old.items) }
{
    put_number(out, entry.id.get())?;
    out.extend_from_slice(&[
        entry.message.qos.number(),
        u8::from(entry.sent),
        u8::from(entry.message.retain),
    ])
}

// Appends the topic name and the payload of a message.
fn put_message(out: &mut Vec<u8>, message: &Message) -> Result<(), AllocError>
    ensures ok { OnOk result (out.new.items ≡ out.old.items ++ (counted message.now.topic ++ saved_payload message.now.payload)) }
    ensures topic { IsTopicName message.now.topic }
    ensures err { OnErr result (take (length out.old.items) out.new.items ≡ out.old.items) }
{
    put_topic(out, &message.topic)?;
    put_payload(out, &message.payload)
}

// Appends a topic name, behind a count of two bytes.
fn put_topic(out: &mut Vec<u8>, topic: &TopicName) -> Result<(), AllocError>
    ensures ok { OnOk result (out.new.items ≡ out.old.items ++ counted topic.now) }
    ensures topic { IsTopicName topic.now }
    ensures err { OnErr result (take (length out.old.items) out.new.items ≡ out.old.items) }
{
    put_text(out, topic.as_str())
}

// Appends a text, behind a count of two bytes (1.5.3).
pub(crate) fn put_text(out: &mut Vec<u8>, text: &str) -> Result<(), AllocError>
    requires { length text.now < 65_536 }
    ensures ok { OnOk result (out.new.items ≡ out.old.items ++ counted text.now) }
    ensures err { OnErr result (take (length out.old.items) out.new.items ≡ out.old.items) }
{
    put_number(out, text.len() as u16)?;
    out.extend_from_slice(text.as_bytes())
}

// Appends a payload, behind a count of four bytes.
fn put_payload(out: &mut Vec<u8>, payload: &Payload) -> Result<(), AllocError>
    ensures ok { OnOk result (out.new.items ≡ out.old.items ++ saved_payload payload.now) }
    ensures err { OnErr result (take (length out.old.items) out.new.items ≡ out.old.items) }
{
    let bytes = payload.as_slice();
    put_count(out, bytes.len())?;
    out.extend_from_slice(bytes)
}

// Appends a number of four bytes.
fn put_count(out: &mut Vec<u8>, n: usize) -> Result<(), AllocError>
    requires { n < 2 ^ 32 }
    ensures ok { OnOk result (out.new.items ≡ out.old.items ++ count n) }
    ensures err { OnErr result (take (length out.old.items) out.new.items ≡ out.old.items) }
{
    put_number(out, (n / 65_536) as u16)?;
    put_number(out, (n % 65_536) as u16)
}

// Appends a number of two bytes.
fn put_number(out: &mut Vec<u8>, n: u16) -> Result<(), AllocError>
    ensures ok { OnOk result (out.new.items ≡ out.old.items ++ number n) }
    ensures err { OnErr result (take (length out.old.items) out.new.items ≡ out.old.items) }
{
    out.extend_from_slice(&n.to_be_bytes())
}
