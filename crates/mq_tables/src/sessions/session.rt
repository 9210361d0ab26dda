//! One session.

ghost use Rattle.std.specs.Prelude.{◌≡◌, ◌&&◌, ℕ, List, [], ◌∷◌, length, nat_le, true, IfOk, IfSome, OnOk};
ghost use Rattle.mq_tables.specs.Prelude.{AllByRecursion, is_up, HasConnectRoom, HasRoom, Connect, Message, fits_delivery, IsFirstFree, told_of, IsAllowed, Serves, publish_call, stored_at, Collects, parted, left, connected_end, published, IsReady, MayGo, Readies, bytes_of, count_of, fits_left, free_of, has_room};

use crate::sessions::call::{Call, serve, serve_publish};
use crate::sessions::connect::connect_end;
use crate::space::{fits_left, has_identifier, left_of, stored_left};
use bytes::Bytes;
use mq_end::{
    ByteQueue, PacketOutcome, PreparedMessage, PublishOutcome, PublishRefusal, ServerEnd,
};
use mq_flow::{Sender, message_bytes, next_laws};
use mq_packet::{BoxedConnect, Connect, Delivery, Message, PacketId, encoding_laws};
use mq_topic::ClientKey;
use mq_wire::Text;
use std::alloc::{AllocError, Global};
use std::marker::Model;
use std::mem;

/// The session of a client, with its server end (3.1.2.4).
#[derive(Drop)]
pub struct BrokerSession {
    /// The client identifier.
    pub client: Text,
    /// The key of the session.
    pub key: ClientKey,
    /// The end that serves the client.
    pub end: ServerEnd,
    /// The time at which the client last disconnected, in milliseconds.
    pub left_at: u64,
}

/// A boxed session, so that moving it within the table is cheap.
#[derive(Drop)]
pub struct BoxedSession {
    session: Box<BrokerSession>,
}

impl Model for BoxedSession {
    ghost use Rattle.std.specs.Coded.{codes, coded_ℕ};
    ghost use Rattle.std.specs.FinSet as set;
    ghost use Rattle.std.specs.Ordering.{nat_cmp};
    ghost use Rattle.mq_tables.specs.declared.sessions.session.BrokerSession.{BrokerSession};

    ghost Value = { BrokerSession };

    ghost coded = { Prim.hlevel (codes, set.code {R = nat_cmp} coded_ℕ) };

    ghost view = { λ s. s.session.value };
}

impl BoxedSession {
    /// Boxes a session.
    pub fn new(alloc: Global, session: BrokerSession) -> Result<BoxedSession, AllocError>
        ensures { IfOk result (λ s. s ≡ session) }
    {
        let session = Box::new(alloc, session)?;
        Ok(BoxedSession { session })
    }

    /// Returns the session.
    pub fn session(&self) -> &BrokerSession
        ensures { result.now ≡ self.now }
    {
        &self.session
    }

    pub(crate) fn into_session(self) -> BrokerSession
        ensures { result ≡ self }
    {
        let BoxedSession { session } = self;
        Box::into_inner(session)
    }

    pub(crate) fn swap_end(&mut self, end: &mut ServerEnd)
        ensures session { self.new ≡ record self.old { end = end.old } }
        ensures end { end.new ≡ self.old.end }
    {
        let session = &mut *self.session;
        mem::swap(&mut session.end, end);
    }

    /// Stores this time as that of the client's last disconnect.
    pub(crate) fn mark_left(&mut self, now: u64)
        ensures { self.new ≡ record self.old { left_at = now } }
    {
        let session = &mut *self.session;
        session.left_at = now;
    }
}

impl BoxedSession {
    /// Makes room in the end for messages, and for `more` bytes besides their PUBLISHes.
    pub(crate) fn ready(&mut self, messages: &[Message], more: usize) -> Result<(), PublishRefusal>
        ensures end { Readies messages.now more result self.old.end self.new.end }
        ensures session { self.new ≡ record self.old { end = self.new.end } }
    {
        let session = &mut *self.session;
        session.end.ready(messages, more)
    }

    /// Takes the pending output without copying it.
    pub(crate) fn collect(&mut self) -> Result<Bytes, AllocError>
        ensures end { Collects result self.old.end self.new.end }
        ensures session { self.new ≡ record self.old { end = self.new.end } }
    {
        let session = &mut *self.session;
        collect_from(&mut session.end)
    }

    /// The end loses its connection (3.1.2.4). Its pending output is exchanged for `output`, which
    /// is then dropped.
    pub(crate) fn detach(&mut self, output: &mut ByteQueue)
        ensures session { self.new ≡ record self.old { end = parted self.old.end } }
        ensures output { output.new ≡ self.old.end.output }
    {
        let session = &mut *self.session;
        detach_end(&mut session.end, output);
    }

    /// Has the end publish a message for which it has room.
    pub(crate) fn publish(&mut self, message: PreparedMessage)
        requires { IsReady (message ∷ []) 0 self.old.end }
        ensures session { self.new ≡ record self.old { end = published message self.old.end } }
        ensures left { (rest : List Message) (more : ℕ) → IsReady (message ∷ rest) more self.old.end
            → IsReady rest more (published message self.old.end) }
    {
        let session = &mut *self.session;
        next_laws();
        encoding_laws();
        let _ = session.end.publish_prepared(message);
    }
}

impl BoxedSession {
    /// Has the end, which must be connected, carry out a call.
    #[inline(always)]
    pub(crate) fn serve(&mut self, call: Call) -> Result<PacketOutcome, AllocError>
        requires up { is_up self.old.end.end.state ≡ true }
        requires allowed { IsAllowed call self.old.end }
        ensures end { Serves call result self.old.end self.new.end }
        ensures session { self.new ≡ record self.old { end = self.new.end } }
    {
        let session = &mut *self.session;
        serve(&mut session.end, call)
    }

    /// Has the end, which must be connected, process the PUBLISH of a message (3.3). The caller
    /// keeps the message.
    #[inline(always)]
    pub(crate) fn serve_publish(
        &mut self,
        now: u64,
        message: &Message,
        delivery: Option<Delivery>,
    ) -> Result<PublishOutcome, AllocError>
        requires up { is_up self.old.end.end.state ≡ true }
        requires fits { fits_delivery message.now.qos delivery ≡ true }
        ensures end { Serves (publish_call now message.now delivery) (told_of message.now result) self.old.end self.new.end }
        ensures session { self.new ≡ record self.old { end = self.new.end } }
    {
        let session = &mut *self.session;
        serve_publish(&mut session.end, now, message, delivery)
    }
}

impl BoxedSession {
    /// Makes room in the end to resume with this CONNECT, and then to send messages (3.2, 4.4). On
    /// `Err` only reserved capacity may have changed.
    pub(crate) fn reserve_connect(
        &mut self,
        connect: &Connect,
        messages: &[Message],
    ) -> Result<(), AllocError>
        ensures ok { OnOk result (HasConnectRoom connect.now messages.now 0 self.new.end) }
        ensures end { self.new.end ≡ record self.old.end { room = self.new.end.room } }
        ensures session { self.new ≡ record self.old { end = self.new.end } }
        ensures before { (ms : List Message) (n : ℕ) → HasRoom ms n self.old.end → HasRoom ms n self.new.end }
    {
        let session = &mut *self.session;
        session.end.reserve_connect(connect, messages, 0)
    }

    /// The end loses its connection (3.1.2.4) and keeps its room. Its pending output is dropped.
    pub(crate) fn lose_connection(&mut self)
        ensures session { self.new ≡ record self.old { end = left self.old.end } }
        ensures connect_end { (c : Connect) (ms : List Message) (more : ℕ) → HasConnectRoom c ms more self.old.end → HasConnectRoom c ms more self.new.end }
    {
        let session = &mut *self.session;
        session.end.dropped();
    }

    /// Has the end process a CONNECT for which it has room (3.1.4, 3.2).
    pub(crate) fn connect_end(&mut self, connect: BoxedConnect, now: u64)
        requires { HasConnectRoom connect [] 0 self.old.end }
        ensures { self.new ≡ record self.old { end = connected_end connect now self.old.end } }
    {
        let session = &mut *self.session;
        connect_end(&mut session.end, connect, now);
    }
}

/// Returns the number of free identifiers of an end that has a session (2.3.1).
pub fn free_of(end: &ServerEnd) -> usize
    ensures { end.now.end.known ≡ true → result ≡ free_of end.now }
{
    match end.session() {
        Some(session) => session.sender.left(),
        None => 0,
    }
}

/// Returns the identifier of the next message of an end (2.3.1). `None` if none is free.
pub(crate) fn next_id(end: &ServerEnd) -> Option<PacketId>
    ensures { IfSome result (IsFirstFree end.now.end.last end.now.end.book) }
{
    match end.session() {
        Some(session) => session.sender.next_id(),
        None => None,
    }
}

// Whether messages fit in a number of free identifiers, and in a number of bytes to be stored.
fn fits(free: usize, stored: Option<u64>, messages: &[Message]) -> bool
    ensures { result ≡ (nat_le (count_of messages.now) free && fits_left stored (bytes_of messages.now)) }
{
    let mut unused = free;
    let mut left = stored;
    for message in messages {
        if has_identifier(message) {
            if unused == 0 {
                return false;
            }
            let bytes = message_bytes(message);
            if !fits_left(left, bytes) {
                return false;
            }
            unused -= 1;
            left = left_of(left, bytes);
        }
    }
    true
}

/// Whether an end has room for messages that it may send: enough free identifiers (2.3.1), and it
/// may store their bytes.
pub(crate) fn has_room(end: &ServerEnd, most_stored: Option<u64>, messages: &[Message]) -> bool
    ensures { AllByRecursion (λ m. MayGo m end.now) messages.now → result ≡ has_room most_stored messages.now end.now }
{
    fits(free_of(end), stored_left(end, most_stored), messages)
}

/// Returns the number of messages that an end stores (4.3); 0 if it has no session.
pub fn stored_of(end: &ServerEnd) -> usize
    ensures { result ≡ stored_at end.now }
{
    match end.session() {
        Some(session) => stored_by(&session.sender),
        None => 0,
    }
}

// The number of messages of a sender: the identifiers in use without those of other packets.
fn stored_by(sender: &Sender) -> usize
    ensures { result ≡ length sender.now.book.entries }
{
    let used = sender.capacity() as usize - sender.left();
    used - sender.released() - sender.pending().len()
}

// Takes the pending output of an end without copying it.
fn collect_from(end: &mut ServerEnd) -> Result<Bytes, AllocError>
    ensures { Collects result end.old end.new }
{
    if end.output().is_empty() {
        return Ok(Bytes::new());
    }
    let mut output = end.take_all_output();
    match output.take_bytes() {
        Ok(bytes) => Ok(bytes),
        Err(error) => {
            end.swap_output(&mut output);
            Err(error)
        }
    }
}

fn detach_end(end: &mut ServerEnd, output: &mut ByteQueue)
    ensures end { end.new ≡ parted end.old }
    ensures output { output.new ≡ end.old.output }
{
    end.swap_output(output);
    end.dropped();
}
