//! The table of retained messages (3.3.1.3, 3.8.4).

ghost use Rattle.std.specs.Prelude.{◌≡◌, ◌+◌, ◌≤◌, ◌<◌, ◌++◌, ◌∷◌, [], length, not, filter, if◌then◌else◌, IfOk, IfSome, OnOk, IsOk};
ghost use Rattle.mq_tables.specs.Prelude.{list_any, values, is_of, kept, replaced, retained_for, listed, saved_message, Message, IsKeptOf};
ghost use Rattle.indexmap.specs.IndexMap.{spare};
ghost use Rattle.mq_tables.specs.Retained.{AreKept};

use crate::copies::{copy, is_hidden_name};
use indexmap::IndexMap;
use mq_packet::Message;
use mq_snapshot::{put_eight, put_message};
use mq_topic::{Qos, TopicFilter, TopicName, matches};
use std::alloc::{AllocError, Global};
use std::marker::Model;

// Messages by topic name, in the order in which the names came.
type ByName = IndexMap<TopicName, Message>;

/// A message to retain, after its topic name.
pub type RetainedEntry = (TopicName, Message);

/// The retained messages, in the order in which their topic names got a message. A hash table finds
/// a message by its name (3.3.1.3).
#[derive(Drop)]
pub struct Retained {
    by_name: ByName,
}

impl Model for Retained {
    ghost use Rattle.indexmap.specs.IndexMap.{spare, values};
    ghost use Rattle.mq_tables.specs.Retained.{AreKept, RetainedTable};

    ghost Value = { RetainedTable };

    ghost view = { λ t. record { messages = values t.by_name; room = spare t.by_name } };

    ghost invariant = { λ t. AreKept t.by_name.entries };
}

fn take_away(by_name: &mut ByName, name: &TopicName)
    requires { AreKept by_name.old.entries }
    ensures kept { AreKept by_name.new.entries }
    ensures messages { values by_name.new ≡ filter (λ m. not (is_of name.now m)) (values by_name.old) }
    ensures room { spare by_name.old ≤ spare by_name.new }
{
    let _ = by_name.shift_remove(name);
}

// Replaces the message of the same name, or appends the message.
fn put(by_name: &mut ByName, name: TopicName, message: Message)
    requires kept { AreKept by_name.old.entries }
    requires name { name ≡ message.topic }
    requires room { 0 < spare by_name.old }
    ensures kept { AreKept by_name.new.entries }
    ensures messages { values by_name.new ≡ (if list_any (is_of message.topic) (values by_name.old)
        then replaced message (values by_name.old) else values by_name.old ++ message ∷ []) }
    ensures room { spare by_name.old ≤ spare by_name.new + 1 }
{
    let _ = by_name.insert(name, message);
}

// Returns copies of the messages that a filter matches.
fn copies_of(
    alloc: Global,
    by_name: &ByName,
    filter: &TopicFilter,
    qos: Qos,
) -> Result<Vec<Message>, AllocError>
    ensures { IfOk result (λ ms. ms.items ≡ retained_for filter.now qos (values by_name.now)) }
{
    let mut copies = Vec::new(alloc);
    for message in by_name.values() {
        if matches(filter, &message.topic) {
            copies.push(copy(message, qos, true)?)?;
        }
    }
    Ok(copies)
}

// Appends the number of messages, and the messages.
#[tactic(auto, using(std::proofs::Common::append_assoc))]
fn save_all(by_name: &ByName, out: &mut Vec<u8>) -> Result<(), AllocError>
    ensures { OnOk result (out.new.items ≡ out.old.items ++ listed saved_message (values by_name.now)) }
{
    put_eight(out, by_name.len() as u64)?;
    for message in by_name.values() {
        put_message(out, message)?;
    }
    Ok(())
}

/// Returns the entry to retain for a message. `None` if RETAIN is not set (3.3.1.3) or the name
/// begins with `$` (4.7.2). It shares the message's bytes.
#[inline(always)]
pub fn to_retain(message: &Message) -> Result<Option<RetainedEntry>, AllocError>
    ensures kept { IfOk result (λ entry. IsKeptOf message.now entry) }
    ensures named { IfOk result (λ entry. IfSome entry (λ named. named.0 ≡ named.1.topic)) }
{
    if !message.retain || is_hidden_name(&message.topic) {
        return Ok(None);
    }
    let name = message.topic.clone()?;
    let message = message.clone()?;
    Ok(Some((name, message)))
}

impl Retained {
    pub(crate) fn new(alloc: Global) -> Retained
        ensures { result.messages ≡ [] }
    {
        Retained {
            by_name: IndexMap::new(alloc),
        }
    }

    /// Returns the number of messages.
    pub fn len(&self) -> usize
        ensures { result ≡ length self.now.messages }
    {
        self.by_name.len()
    }

    /// Makes room for this many more messages.
    pub fn reserve(&mut self, count: usize) -> Result<(), AllocError>
        ensures ok { OnOk result (count ≤ self.new.room) }
        ensures same { self.new.messages ≡ self.old.messages }
        ensures room { self.old.room ≤ self.new.room }
    {
        self.by_name.reserve(count)
    }

    /// Retains a message if RETAIN is set (3.3.1.3): it replaces the one of its name, or is
    /// appended; an empty payload removes the one of its name. A name that begins with `$` is
    /// ignored (4.7.2).
    #[tactic(auto, unfolding(mq_route::specs::Copies::kept))]
    pub(crate) fn keep(&mut self, name: TopicName, message: Message)
        requires name { name ≡ message.topic }
        requires room { 0 < self.old.room }
        ensures messages { self.new.messages ≡ kept message self.old.messages }
        ensures room { self.old.room ≤ self.new.room + 1 }
    {
        if !message.retain || is_hidden_name(&name) {
            return;
        }
        if message.payload.as_slice().is_empty() {
            take_away(&mut self.by_name, &name);
        } else {
            put(&mut self.by_name, name, message);
        }
    }

    /// Retains the result of `to_retain`, as `keep` retains the message.
    pub fn retain_planned(&mut self, entry: Option<RetainedEntry>)
        requires named { IfSome entry (λ named. named.0 ≡ named.1.topic) }
        requires room { 0 < self.old.room }
        ensures messages { (m : Message) → IsKeptOf m entry → self.new.messages ≡ kept m self.old.messages }
        ensures room { self.old.room ≤ self.new.room + 1 }
    {
        match entry {
            Some((name, message)) => self.keep(name, message),
            None => {}
        }
    }

    /// Returns the retained messages for a new subscription (3.3.1.3, 3.8.4): copies of those that
    /// its filter matches, in the order of the table, with RETAIN.
    pub fn matching(
        &self,
        alloc: Global,
        filter: &TopicFilter,
        qos: Qos,
    ) -> Result<Vec<Message>, AllocError>
        ensures { IfOk result (λ ms. ms.items ≡ retained_for filter.now qos self.now.messages) }
    {
        copies_of(alloc, &self.by_name, filter, qos)
    }

    /// Appends the retained messages to a snapshot, after their number.
    pub fn save(&self, out: &mut Vec<u8>) -> Result<(), AllocError>
        ensures { OnOk result (out.new.items ≡ out.old.items ++ listed saved_message self.now.messages) }
    {
        save_all(&self.by_name, out)
    }
}
