//! Reading the saved form of a session (4.1). Each reader takes a field from the front of the
//! bytes, and gives the value and the bytes after it.

ghost use Rattle.std.specs.Prelude.{◌≡◌, ℕ, if◌then◌else◌, ◌↔◌, ◌+◌, ◌≤◌, ◌<◌, ◌^◌, length, true, false, Err, IfOk, OnOk, OnErr, IsErrOf, MatchResult};
ghost use Rattle.mq_flow.specs.Prelude.{Q0, IsFree, is_full, uses, blank_book, none_received, load_code, Saved, IsSession, Same, Gives, Loads, number_at, count_at, capacity_at, number_within, free_at, qos_at, flag_at, flags_at, topic_at, is_over_limit, payload_at, message_at, entry_at, with_entry_at, entries_at, with_released, with_released_at, released_at, sender_at, next_at, received_at, receiver_at, end_at, session_at, read_session, has_version};

use crate::entry::SenderEntry;
use crate::receiver::Receiver;
use crate::save::SIGNATURE;
use crate::sender::Sender;
use crate::session::Session;
use crate::table::Held;
use bytes::Bytes;
use mq_packet::{Message, PacketId, Payload};
use mq_topic::{Qos, TopicFault, TopicName};
use std::alloc::{AllocError, Global};
use std::str;
use thiserror::Error;

/// Why a session was not loaded.
#[derive(Clone, Copy, Debug, PartialEq, Eq, Error)]
pub enum LoadError {
    /// The bytes don't begin with `MQS` and a version that is read.
    #[error("the bytes are not a saved session of a known version")]
    Version,
    /// They are not the saved form of a session.
    #[error("the saved session is malformed at byte {place}")]
    Malformed {
        /// The index of the first byte of the first invalid field.
        place: usize,
    },
    /// Memory ran out.
    #[error("out of memory")]
    Memory,
    /// The session was saved for another client (3.1.3.1).
    #[error("the session belongs to another client")]
    AnotherClient,
    /// A message of the session is over the limit of the end that is to continue with it (2.2.3).
    #[error("a message of the session is over the limit")]
    TooLarge,
}

impl LoadError {
    /// Its code, `L1` to `L5`.
    pub fn code(self) -> &'static str
        ensures { result.now ≡ load_code self }
    {
        match self {
            LoadError::Version => "L1",
            LoadError::Malformed { .. } => "L2",
            LoadError::Memory => "L3",
            LoadError::AnotherClient => "L4",
            LoadError::TooLarge => "L5",
        }
    }
}

/// How many bytes there are from the bad field on.
#[derive(Clone, Copy)]
pub(crate) struct BadField {
    pub(crate) left: usize,
}

/// Why fields were not read.
#[derive(Clone, Copy)]
pub(crate) enum Unread {
    Bad(BadField),
    Memory,
}

impl From<BadField> for Unread {
    ghost use Rattle.std.specs.Prelude.{◌≡◌};
    ghost use Rattle.mq_flow.specs.Prelude.{Bad};

    ghost from_gives = { λ bad e. e ≡ Bad bad };

    fn from(bad: BadField) -> Unread {
        Unread::Bad(bad)
    }
}

impl From<AllocError> for Unread {
    ghost use Rattle.std.specs.Prelude.{◌≡◌};
    ghost use Rattle.mq_flow.specs.Prelude.{Memory};

    ghost from_gives = { λ _ e. e ≡ Memory };

    fn from(_e: AllocError) -> Unread {
        Unread::Memory
    }
}

/// Quality of service, whether it was sent, RETAIN.
#[derive(Clone, Copy)]
pub(crate) struct Flags {
    pub(crate) qos: Qos,
    pub(crate) sent: bool,
    pub(crate) retain: bool,
}

impl Session {
    /// Reads the saved form of a session, version 1 (4.1). Errors: `Version` if the bytes don't
    /// begin with `MQS` and this version, `Malformed` with the place of the first invalid field,
    /// `Memory` if an allocation fails. Identifiers of SUBSCRIBE and UNSUBSCRIBE are not saved, so
    /// none is in use.
    pub fn load(alloc: Global, bytes: &[u8]) -> Result<Session, LoadError>
        ensures loads { IfOk result (λ s. Saved s bytes.now × IsSession s) }
        ensures session { (session : Session) → IsSession session → Saved session bytes.now → MatchResult result (λ loaded. loaded ≡ session) (λ why. why ≡ LoadError.Memory) }
        ensures version { IsErrOf result LoadError.Version ↔ (has_version bytes.now ≡ false) }
        ensures place { Loads result (read_session bytes.now) }
    {
        read(alloc, bytes)
    }
}

#[tactic(auto, unfolding(crate::specs::Loading::read_session))]
fn read(alloc: Global, bytes: &[u8]) -> Result<Session, LoadError>
    ensures version { IsErrOf result LoadError.Version ↔ (has_version bytes.now ≡ false) }
    ensures reads { Loads result (read_session bytes.now) }
{
    if !bytes.starts_with(&SIGNATURE) {
        return Err(LoadError::Version);
    }
    match session(alloc, &bytes[4..]) {
        Ok(session) => Ok(session),
        Err(Unread::Bad(bad)) => Err(LoadError::Malformed {
            place: bytes.len().saturating_sub(bad.left),
        }),
        Err(Unread::Memory) => Err(LoadError::Memory),
    }
}

// Reads the rest behind the version.
#[tactic(auto, unfolding(crate::specs::Loading::session_at))]
pub(crate) fn session(alloc: Global, bytes: &[u8]) -> Result<Session, Unread>
    ensures { Gives (λ s. s) result (session_at 268435455 bytes.now) }
{
    let (sender, rest) = sender(alloc, bytes)?;
    let (receiver, rest) = receiver(alloc, rest)?;
    end(rest)?;
    Ok(Session { sender, receiver })
}

// Reads the sender's state.
#[tactic(auto, unfolding(crate::specs::Loading::sender_at))]
fn sender(alloc: Global, bytes: &[u8]) -> Result<(Sender, &[u8]), Unread>
    ensures { Gives (λ x. (x.0, x.1.now)) result (sender_at 268435455 bytes.now) }
{
    let (capacity, rest) = capacity(bytes)?;
    let (last, rest) = number(rest)?;
    let (count, rest) = number_within(capacity, rest)?;
    let mut sender = Sender::new(alloc, capacity);
    let rest = entries(alloc, &mut sender, count, rest)?;
    let (more, rest) = number_within(capacity - count, rest)?;
    let rest = released(&mut sender, more, rest)?;
    sender.last = last;
    Ok((sender, rest))
}

// Reads that many entries more.
fn entries<'a>(
    alloc: Global,
    sender: &mut Sender,
    count: u16,
    bytes: &'a [u8],
) -> Result<&'a [u8], Unread>
    requires room { length (uses sender.old.book) + count ≤ sender.old.capacity }
    ensures read { Gives (λ rest. (sender.new.book, rest.now)) result (entries_at 268435455 count sender.old.book bytes.now) }
    ensures uses { OnOk result (length (uses sender.new.book) ≡ length (uses sender.old.book) + count) }
    ensures capacity { sender.new.capacity ≡ sender.old.capacity }
    ensures room { sender.new.room ≤ sender.old.room }
{
    let mut rest = bytes;
    for _ in 0..count {
        rest = with_entry(alloc, sender, rest)?;
    }
    Ok(rest)
}

// Reads one entry more.
#[tactic(auto, unfolding(crate::specs::Loading::with_entry_at))]
fn with_entry<'a>(alloc: Global, sender: &mut Sender, bytes: &'a [u8]) -> Result<&'a [u8], Unread>
    requires room { is_full sender.old.capacity sender.old.book ≡ false }
    ensures read { Gives (λ rest. (sender.new.book, rest.now)) result (with_entry_at 268435455 sender.old.book bytes.now) }
    ensures uses { OnOk result (length (uses sender.new.book) ≡ length (uses sender.old.book) + 1) }
    ensures capacity { sender.new.capacity ≡ sender.old.capacity }
    ensures room { sender.new.room ≤ sender.old.room }
{
    let (entry, rest) = entry(alloc, sender, bytes)?;
    sender.accept_as(entry.id, entry.message, entry.sent)?;
    Ok(rest)
}

// Reads an entry, whose identifier has to be free.
#[tactic(auto, unfolding(crate::specs::Loading::entry_at))]
fn entry<'a>(
    alloc: Global,
    sender: &Sender,
    bytes: &'a [u8],
) -> Result<(SenderEntry, &'a [u8]), Unread>
    ensures read { Gives (λ x. (x.0, x.1.now)) result (entry_at 268435455 sender.now.book bytes.now) }
    ensures free { IfOk result (λ x. IsFree sender.now.book x.0.id) }
    ensures kept { IfOk result (λ x. x.0.message.qos ≡ Q0 → ⊥) }
{
    let (id, rest) = match free(sender, bytes) {
        Ok(field) => field,
        Err(bad) => return Err(Unread::Bad(bad)),
    };
    let (flags, rest) = entry_flags(rest)?;
    let (message, rest) = message(alloc, flags, rest)?;
    let entry = SenderEntry {
        id,
        message,
        sent: flags.sent,
    };
    Ok((entry, rest))
}

// Reads a message.
#[tactic(auto, unfolding(crate::specs::Loading::message_at))]
fn message(alloc: Global, flags: Flags, bytes: &[u8]) -> Result<(Message, &[u8]), Unread>
    ensures read { Gives (λ x. (x.0, x.1.now)) result (message_at 268435455 flags bytes.now) }
    ensures qos { IfOk result (λ x. x.0.qos ≡ flags.qos) }
{
    let (topic, rest) = topic(alloc, bytes)?;
    let (payload, rest) = payload(alloc, topic.as_str().len(), rest)?;
    let message = Message {
        topic,
        payload,
        qos: flags.qos,
        retain: flags.retain,
    };
    Ok((message, rest))
}

// Reads a payload, behind a count of four bytes.
#[tactic(auto, unfolding(crate::specs::Loading::payload_at))]
fn payload(alloc: Global, topic: usize, bytes: &[u8]) -> Result<(Payload, &[u8]), Unread>
    requires { topic < 65_536 }
    ensures { Gives (λ x. (x.0, x.1.now)) result (payload_at 268435455 topic bytes.now) }
{
    let (count, rest) = count(bytes)?;
    if 2 + topic + 2 + count > 268_435_455 || rest.len() < count {
        return Err(Unread::Bad(BadField { left: rest.len() }));
    }
    let (payload, rest) = rest.split_at(count);
    let payload = Payload::new(Bytes::copy_from_slice(alloc, payload)?).unwrap();
    Ok((payload, rest))
}

// Reads a topic name, behind a count of two bytes.
#[tactic(auto, unfolding(crate::specs::Loading::topic_at))]
fn topic(alloc: Global, bytes: &[u8]) -> Result<(TopicName, &[u8]), Unread>
    ensures { Gives (λ x. (x.0, x.1.now)) result (topic_at bytes.now) }
{
    let (count, rest) = number(bytes)?;
    let count = usize::from(count);
    if rest.len() < count {
        return Err(Unread::Bad(BadField { left: bytes.len() }));
    }
    let (text, rest) = rest.split_at(count);
    let Ok(text) = str::from_utf8(text) else {
        return Err(Unread::Bad(BadField { left: bytes.len() }));
    };
    match TopicName::parse(alloc, text) {
        Ok(name) => Ok((name, rest)),
        Err(TopicFault::Memory) => Err(Unread::Memory),
        Err(_) => Err(Unread::Bad(BadField { left: bytes.len() })),
    }
}

// Quality of service, whether it was sent, RETAIN.
#[tactic(auto, unfolding(crate::specs::Loading::flags_at))]
fn entry_flags(bytes: &[u8]) -> Result<(Flags, &[u8]), BadField>
    ensures read { Same (λ x. (x.0, x.1.now)) result (flags_at bytes.now) }
    ensures kept { IfOk result (λ x. x.0.qos ≡ Q0 → ⊥) }
{
    let (qos, rest) = qos(bytes)?;
    let (sent, rest) = flag(rest)?;
    let (retain, rest) = flag(rest)?;
    Ok((Flags { qos, sent, retain }, rest))
}

// Reads a quality of service over 0.
#[tactic(auto, unfolding(crate::specs::Loading::qos_at))]
fn qos(bytes: &[u8]) -> Result<(Qos, &[u8]), BadField>
    ensures read { Same (λ x. (x.0, x.1.now)) result (qos_at bytes.now) }
    ensures kept { IfOk result (λ x. x.0 ≡ Q0 → ⊥) }
{
    let Some((byte, rest)) = bytes.split_first() else {
        return bad_at(bytes);
    };
    match *byte {
        1 => Ok((Qos::Q1, rest)),
        2 => Ok((Qos::Q2, rest)),
        _ => bad_at(bytes),
    }
}

// Reads 0 or 1.
#[tactic(auto, unfolding(crate::specs::Loading::flag_at))]
pub(crate) fn flag(bytes: &[u8]) -> Result<(bool, &[u8]), BadField>
    ensures { Same (λ x. (x.0, x.1.now)) result (flag_at bytes.now) }
{
    let Some((byte, rest)) = bytes.split_first() else {
        return bad_at(bytes);
    };
    match *byte {
        0 => Ok((false, rest)),
        1 => Ok((true, rest)),
        _ => bad_at(bytes),
    }
}

// Reads one released identifier more.
#[tactic(auto, unfolding(crate::specs::Loading::with_released_at))]
fn with_released<'a>(sender: &mut Sender, bytes: &'a [u8]) -> Result<&'a [u8], Unread>
    requires room { is_full sender.old.capacity sender.old.book ≡ false }
    ensures read { Gives (λ rest. (sender.new.book, rest.now)) result (with_released_at sender.old.book bytes.now) }
    ensures uses { OnOk result (length (uses sender.new.book) ≡ length (uses sender.old.book) + 1) }
    ensures capacity { sender.new.capacity ≡ sender.old.capacity }
    ensures room { sender.new.room ≤ sender.old.room }
{
    let (id, rest) = match free(sender, bytes) {
        Ok(field) => field,
        Err(bad) => return Err(Unread::Bad(bad)),
    };
    sender.release_as(id)?;
    Ok(rest)
}

// Reads that many released identifiers more.
fn released<'a>(sender: &mut Sender, count: u16, bytes: &'a [u8]) -> Result<&'a [u8], Unread>
    requires room { length (uses sender.old.book) + count ≤ sender.old.capacity }
    ensures read { Gives (λ rest. (sender.new.book, rest.now)) result (released_at count sender.old.book bytes.now) }
    ensures capacity { sender.new.capacity ≡ sender.old.capacity }
    ensures room { sender.new.room ≤ sender.old.room }
{
    let mut rest = bytes;
    for _ in 0..count {
        rest = with_released(sender, rest)?;
    }
    Ok(rest)
}

impl Sender {
    // Takes a free identifier for one that is released, while there is room.
    fn release_as(&mut self, id: PacketId) -> Result<(), AllocError>
        requires free { IsFree self.old.book id }
        requires room { is_full self.old.capacity self.old.book ≡ false }
        ensures book { OnOk result (self.new.book ≡ with_released id self.old.book) }
        ensures capacity { self.new.capacity ≡ self.old.capacity }
        ensures room { self.new.room ≤ self.old.room }
    {
        self.table.add(Held::Released(id))?;
        self.room = self.room.saturating_sub(1);
        Ok(())
    }
}

// Reads an identifier, which has to be free.
#[tactic(auto, unfolding(crate::specs::Loading::free_at))]
fn free<'a>(sender: &Sender, bytes: &'a [u8]) -> Result<(PacketId, &'a [u8]), BadField>
    ensures read { Same (λ x. (x.0, x.1.now)) result (free_at sender.now.book bytes.now) }
    ensures free { IfOk result (λ x. IsFree sender.now.book x.0) }
{
    let (number, rest) = number(bytes)?;
    match PacketId::new(number) {
        Some(id) if !sender.is_in_use(id) => Ok((id, rest)),
        _ => bad_at(bytes),
    }
}

// Reads the identifiers that were received.
#[tactic(auto, unfolding(crate::specs::Loading::receiver_at))]
fn receiver(alloc: Global, bytes: &[u8]) -> Result<(Receiver, &[u8]), Unread>
    ensures { Gives (λ x. (x.0, x.1.now)) result (receiver_at bytes.now) }
{
    let (count, rest) = number(bytes)?;
    let mut receiver = Receiver::new(alloc);
    let rest = received(&mut receiver, count, rest)?;
    Ok((receiver, rest))
}

// Reads that many identifiers more, each greater than the one before it.
fn received<'a>(receiver: &mut Receiver, count: u16, bytes: &'a [u8]) -> Result<&'a [u8], Unread>
    ensures { Gives (λ rest. (receiver.new, rest.now)) result (received_at count 0 receiver.old bytes.now) }
{
    let mut last = 0;
    let mut rest = bytes;
    for _ in 0..count {
        let (id, after) = match next(last, rest) {
            Ok(field) => field,
            Err(bad) => return Err(Unread::Bad(bad)),
        };
        receiver.store(id)?;
        last = id.get();
        rest = after;
    }
    Ok(rest)
}

// Reads an identifier, which has to be greater than this one.
#[tactic(auto, unfolding(crate::specs::Loading::next_at))]
fn next(last: u16, bytes: &[u8]) -> Result<(PacketId, &[u8]), BadField>
    ensures { Same (λ x. (x.0, x.1.now)) result (next_at last bytes.now) }
{
    let (number, rest) = number(bytes)?;
    match PacketId::new(number) {
        Some(id) if number > last => Ok((id, rest)),
        _ => bad_at(bytes),
    }
}

// Reads a number over 0.
#[tactic(auto, unfolding(crate::specs::Loading::capacity_at))]
fn capacity(bytes: &[u8]) -> Result<(u16, &[u8]), BadField>
    ensures read { Same (λ x. (x.0, x.1.now)) result (capacity_at bytes.now) }
    ensures able { IfOk result (λ x. 0 < x.0) }
{
    let (capacity, rest) = number(bytes)?;
    if capacity == 0 {
        return bad_at(bytes);
    }
    Ok((capacity, rest))
}

// Reads their number, for which there has to be room.
#[tactic(auto, unfolding(crate::specs::Loading::number_within))]
fn number_within(room: u16, bytes: &[u8]) -> Result<(u16, &[u8]), BadField>
    ensures read { Same (λ x. (x.0, x.1.now)) result (number_within room bytes.now) }
    ensures within { IfOk result (λ x. x.0 ≤ room) }
{
    let (number, rest) = number(bytes)?;
    if number > room {
        return bad_at(bytes);
    }
    Ok((number, rest))
}

// Reads a number of four bytes.
#[tactic(auto, unfolding(crate::specs::Loading::count_at))]
fn count(bytes: &[u8]) -> Result<(usize, &[u8]), BadField>
    ensures read { Same (λ x. (x.0, x.1.now)) result (count_at bytes.now) }
    ensures small { IfOk result (λ x. x.0 < 2 ^ 32) }
{
    if bytes.len() < 4 {
        return bad_at(bytes);
    }
    let (high, rest) = number(bytes)?;
    let (low, rest) = number(rest)?;
    Ok((65_536 * usize::from(high) + usize::from(low), rest))
}

// Reads a number of two bytes.
#[tactic(auto, unfolding(crate::specs::Loading::number_at))]
fn number(bytes: &[u8]) -> Result<(u16, &[u8]), BadField>
    ensures { Same (λ x. (x.0, x.1.now)) result (number_at bytes.now) }
{
    let [high, low, rest @ ..] = bytes else {
        return bad_at(bytes);
    };
    Ok((u16::from_be_bytes([*high, *low]), rest))
}

// Checks that nothing follows.
fn end(bytes: &[u8]) -> Result<(), BadField>
    ensures { Same (λ x. x) result (end_at bytes.now) }
{
    if bytes.is_empty() {
        return Ok(());
    }
    bad_at(bytes)
}

// Returns the fault that the field at the front of these bytes is bad.
fn bad_at<T>(bytes: &[u8]) -> Result<T, BadField>
    ensures { result ≡ Err (record { left = length bytes.now }) }
{
    Err(BadField { left: bytes.len() })
}
