//! A client end at a stream.

ghost use Rattle.std.specs.Prelude.{◌≡◌, ◌≢◌, ◌≤◌, ◌<◌, ◌+◌, ◌↔◌, ◌∷◌, ℕ, [], true, false, List, Ok, length, take, IfErr, IfOk, IsTrue, OnErr, OnOk, option_to_list};
ghost use Rattle.mq_client.specs.Prelude.{Appends, Consumes, Message, none_received, Happening, CloseReason, is_up, IsIdle, Leaves, MayBeLost, Opening, Subscription, Ticked, Unsubscription, Went, WentFirst, asked_by, Closes, closes_of, halt_closes, resumed_of};
ghost use Rattle.std.specs.Io.KnownBytes.{Keeps};

use crate::error::ClientError;
use crate::saver::{SaveError, SessionSaver};
use crate::stop::Halt;
use mq_end::{ClientEnd, CloseReason, Happening, Progress, PublishRefusal, State};
use mq_flow::Sender;
use mq_packet::{Message, NonEmpty, Request};
use mq_stream::{Clock, Stream};
use mq_topic::TopicFilter;
use std::marker::Model;

/// The maximum number of bytes of a read.
const CHUNK: usize = 4096;

/// The maximum number of bytes of a read until the client is connected: the length of CONNACK
/// (3.2). So the read that completes CONNACK completes no PUBLISH that needs an acknowledgement.
const FIRST_CHUNK: usize = 4;

/// The limit on quiet reads of a new peer.
const QUIET_LIMIT: u64 = 900;

/// A client end at a stream, with a clock and a session saver.
///
/// Call [`open`](Peer::open) first, then [`hear`](Peer::hear) and [`answer`](Peer::answer) in turns
/// until [`is_up`](Peer::is_up). Then call [`publish`](Peer::publish),
/// [`subscribe`](Peer::subscribe) and [`listen`](Peer::listen), and [`leave`](Peer::leave) at the
/// end.
#[derive(Drop)]
pub struct Peer<S: Stream, C: Clock, K: SessionSaver> {
    client: ClientEnd,
    stream: S,
    clock: C,
    keeper: K,
    // The number of the last reads in a row that brought nothing, and its limit.
    quiet: u64,
    quiet_limit: u64,
    // The number of messages that were published, of those that are not finished while the client
    // has a session, and of those that were delivered.
    accepted: usize,
    open: usize,
    delivered: usize,
}

impl<S: Stream, C: Clock, K: SessionSaver> Model for Peer<S, C, K> {
    ghost use Rattle.std.specs.Coded.{codes, coded_ℕ};
    ghost use Rattle.std.specs.FinSet as set;
    ghost use Rattle.std.specs.Ordering.{nat_cmp};
    ghost use Rattle.mq_client.specs.Course.{Moment};

    ghost Value = { Moment };

    ghost coded = { Prim.hlevel (codes, set.code {R = nat_cmp} coded_ℕ) };

    ghost view = { λ p. record {
      client = p.client;
      coming = S.coming p.stream;
      written = S.written p.stream;
      kept = K.kept p.keeper;
      times = C.reported p.clock;
      line = record { closed = S.closed p.stream; quiet = p.quiet; limit = p.quiet_limit };
    } };
}

// The error of a request that can't be made at all.
fn halt_of(why: PublishRefusal) -> ClientError
    ensures { halt_closes result ≡ [] }
{
    match why {
        PublishRefusal::Memory => ClientError::Memory,
        _ => ClientError::Refused(why),
    }
}

// The error of a session that was not saved.
fn unkept(why: SaveError) -> ClientError
    ensures goes_on { halt_closes result ≡ [] }
    ensures stays { result ≢ ClientError.Lost }
{
    match why {
        SaveError::Unwritten(kind) => ClientError::SaveError(kind),
        SaveError::Memory => ClientError::Memory,
    }
}

// `Ok(false)` if a message that is refused can be published later.
fn waits(why: PublishRefusal) -> Result<bool, ClientError>
    ensures full { why ≡ PublishRefusal.Full → result ≡ Ok false }
    ensures offline { why ≡ PublishRefusal.NotConnected → result ≡ Ok false }
    ensures asks { (m : Message) → asked_by result m ≡ [] }
    ensures goes_on { closes_of result ≡ [] }
{
    match why {
        PublishRefusal::Full | PublishRefusal::NotConnected => Ok(false),
        _ => Err(halt_of(why)),
    }
}

/// The number of messages that a sender has not finished.
pub(crate) fn in_use(sender: &Sender) -> usize
    ensures { result ≡ length sender.now.book.entries + length sender.now.book.released }
{
    let _capacity = sender.capacity();
    sender.entries().count() + sender.released()
}

// The number of messages that a client has not finished, or the last number if it has no session.
fn open_messages(client: &ClientEnd, last: usize) -> usize {
    match client.session() {
        Some(session) => in_use(&session.sender),
        None => last,
    }
}

// The number of messages that are delivered.
fn messages_in(happenings: &[Happening]) -> usize {
    happenings
        .iter()
        .filter(|happening| matches!(happening, Happening::Handed(_)))
        .count()
}

impl<S: Stream, C: Clock, K: SessionSaver> Peer<S, C, K> {
    /// A client at a stream. Begin with [`open`](Peer::open). The connection counts as lost after
    /// 900 reads in a row that bring nothing, unless [`set_quiet_limit`](Peer::set_quiet_limit)
    /// changes that.
    pub fn new(client: ClientEnd, stream: S, clock: C, keeper: K) -> Peer<S, C, K>
        ensures client { result.client ≡ client }
        ensures coming { result.coming ≡ S.coming stream }
        ensures written { result.written ≡ S.written stream }
        ensures kept { result.kept ≡ K.kept keeper }
        ensures times { result.times ≡ C.reported clock }
        ensures line { result.line ≡ record { closed = S.closed stream; quiet = 0; limit = 900 } }
    {
        Peer {
            client,
            stream,
            clock,
            keeper,
            quiet: 0,
            quiet_limit: QUIET_LIMIT,
            accepted: 0,
            open: 0,
            delivered: 0,
        }
    }

    /// Sets the number of reads in a row that bring nothing after which the connection counts as
    /// lost. With `u64::MAX` it never does.
    ///
    /// A client with keep-alive 0 sends no PINGREQ (3.1.2.10), so its connection may be quiet for
    /// any time.
    pub fn set_quiet_limit(&mut self, limit: u64)
        ensures { self.new ≡ record self.old { line = record self.old.line { limit = limit } } }
    {
        self.quiet_limit = limit;
    }

    /// The client end.
    pub fn client(&self) -> &ClientEnd
        ensures { result.now ≡ self.now.client }
    {
        &self.client
    }

    /// The stream.
    pub fn stream(&self) -> &S
        ensures coming { S.coming result.now ≡ self.now.coming }
        ensures written { S.written result.now ≡ self.now.written }
        ensures closed { S.closed result.now ≡ self.now.line.closed }
    {
        &self.stream
    }

    /// The session saver.
    pub fn keeper(&self) -> &K
        ensures { K.kept result.now ≡ self.now.kept }
    {
        &self.keeper
    }

    /// The client end and the session saver. Drops the stream.
    pub fn into_parts(self) -> (ClientEnd, K)
    where
        S: Drop,
        C: Drop,
        ensures client { result.0 ≡ self.client }
        ensures kept { K.kept result.1 ≡ self.kept }
    {
        (self.client, self.keeper)
    }

    // The halt of a program that published over this peer, with the progress that it made.
    pub(crate) fn publish_halt(&self, error: ClientError) -> Halt
        ensures { result.error ≡ error }
    {
        Halt {
            error,
            done: self.accepted.saturating_sub(self.open),
            is_silent: self.quiet >= self.quiet_limit,
        }
    }

    // The halt of a program that collected from this peer, with the progress that it made.
    pub(crate) fn collect_halt(&self, error: ClientError) -> Halt
        ensures { result.error ≡ error }
    {
        Halt {
            error,
            done: self.delivered,
            is_silent: self.quiet >= self.quiet_limit,
        }
    }

    // Tells the client the time that the clock reports, so that PINGREQ is sent in time (3.1.2.10).
    fn tick(&mut self) -> Result<u64, ClientError>
        ensures ok { IfOk result (λ now. Ticked now self.old self.new) }
        ensures err { OnErr result (Went self.old self.new [] [] []) }
        ensures memory { IfErr result (λ why. why ≡ ClientError.Memory) }
        ensures written { self.new.written ≡ self.old.written }
        ensures goes_on { closes_of result ≡ [] }
    {
        let now = self.clock.now();
        self.client.tick(now)?;
        Ok(now)
    }

    /// Saves the session and then sends the pending output. If the stream fails, the connection is
    /// lost. If the session can't be saved, nothing is sent.
    pub fn write(&mut self) -> Result<(), ClientError>
        ensures went { Went self.old self.new [] [] [] }
        ensures goes_on { closes_of result ≡ [] }
        ensures all { OnOk result
            (Appends self.old.written self.new.written self.old.client.link.output) }
        ensures loss { IfErr result
            (λ why. why ≡ ClientError.Lost → self.new.line.closed ≡ true) }
    {
        if let Err(why) = self.keeper.keep(&self.client) {
            return Err(unkept(why));
        }
        let bytes = self.client.take_all_output();
        match self.stream.write_all(bytes.as_slice()) {
            Ok(()) => Ok(()),
            Err(_) => {
                self.client.dropped();
                Err(ClientError::Lost)
            }
        }
    }

    /// Begins a connection by sending CONNECT (3.1). `clean` is its clean session flag.
    pub fn open(&mut self, clean: bool) -> Result<(), ClientError>
        ensures ok { OnOk result (Went self.old self.new (Opening clean ∷ []) [] []) }
        ensures err { OnErr result
            (WentFirst self.old self.new (Opening clean ∷ []) [] []) }
        ensures goes_on { closes_of result ≡ [] }
    {
        let now = self.clock.now();
        self.client.connect(now, clean)?;
        self.write()
    }

    // The connection is lost (4.2).
    fn lose(&mut self) -> ClientError
        ensures went { Went self.old self.new [] [] [] }
        ensures written { self.new.written ≡ self.old.written }
        ensures line { self.new.line ≡ self.old.line }
        ensures goes_on { halt_closes result ≡ [] }
    {
        self.client.dropped();
        ClientError::Lost
    }

    // Reads once. If the stream ends or fails, or if too many reads brought nothing, the connection
    // is lost.
    fn arrive(&mut self, room: &mut [u8]) -> Result<usize, ClientError>
        ensures ok { IfOk result (λ n. (n ≤ length room.new)
            × Consumes self.old.coming self.new.coming (take n room.new)) }
        ensures same { OnOk result (self.new.client ≡ self.old.client) }
        ensures written { Keeps self.old.written self.new.written }
        ensures kept { OnOk result (self.new.kept ≡ self.old.kept) }
        ensures times { OnOk result (self.new.times ≡ self.old.times) }
        ensures heard { IfOk result (λ n. 0 < n → self.new.line.quiet ≡ 0) }
        ensures silent { IfOk result (λ n. n ≡ 0 → self.new.line.quiet ≡ self.old.line.quiet + 1) }
        ensures limit { self.new.line.limit ≡ self.old.line.limit }
        ensures went { OnErr result (Went self.old self.new [] [] []) }
        ensures loss { OnErr result (MayBeLost self.old self.new) }
        ensures goes_on { closes_of result ≡ [] }
    {
        if self.quiet >= self.quiet_limit {
            return Err(self.lose());
        }
        match self.stream.read(room).count() {
            Some(0) => {
                self.quiet += 1;
                Ok(0)
            }
            Some(count) => {
                self.quiet = 0;
                Ok(count)
            }
            None => Err(self.lose()),
        }
    }

    // Tells the client the time, and receives the bytes of one read.
    fn hear_into(&mut self, room: &mut [u8]) -> Result<Progress, ClientError>
        ensures went { IfOk result
            (λ p. Went self.old self.new [] p.happenings (option_to_list p.closed)) }
        ensures silent { Keeps self.old.written self.new.written }
        ensures lost { OnErr result (Went self.old self.new [] [] []) }
        ensures loss { IfErr result
            (λ why. why ≡ ClientError.Lost → MayBeLost self.old self.new) }
        ensures goes_on { closes_of result ≡ [] }
    {
        let now = self.tick()?;
        let count = self.arrive(room)?;
        let progress = self.client.receive(now, &room[..count]);
        let delivered = messages_in(progress.happenings.as_slice());
        self.delivered = self.delivered.saturating_add(delivered);
        self.open = open_messages(&self.client, self.open);
        Ok(progress)
    }

    /// Receives the bytes of one read, which ends at the stream's time limit. The answers stay in
    /// the output until [`answer`](Peer::answer) or [`write`](Peer::write).
    pub fn hear(&mut self) -> Result<Progress, ClientError>
        ensures went { IfOk result
            (λ p. Went self.old self.new [] p.happenings (option_to_list p.closed)) }
        ensures silent { Keeps self.old.written self.new.written }
        ensures lost { OnErr result (Went self.old self.new [] [] []) }
        ensures loss { IfErr result
            (λ why. why ≡ ClientError.Lost → MayBeLost self.old self.new) }
        ensures goes_on { closes_of result ≡ [] }
    {
        if !self.is_up() {
            let mut room = [0; FIRST_CHUNK];
            return self.hear_into(&mut room);
        }
        let mut room = [0; CHUNK];
        self.hear_into(&mut room)
    }

    /// Sends the pending output, also after the client closed. `closed` is the reason of
    /// [`hear`](Peer::hear). If the session can't be saved, that is reported in place of it.
    pub fn answer(&mut self, closed: Option<CloseReason>) -> Result<(), ClientError>
        ensures went { Went self.old self.new [] [] [] }
        ensures closes { Closes result (option_to_list closed) }
    {
        let written = self.write();
        match closed {
            None => written,
            Some(reason) => match written {
                Err(ClientError::SaveError(kind)) => Err(ClientError::SaveError(kind)),
                Err(ClientError::Memory) => Err(ClientError::Memory),
                _ => Err(ClientError::Closed(reason)),
            },
        }
    }

    /// Receives the bytes of one read, and sends the answer.
    pub fn listen(&mut self) -> Result<(), ClientError>
        ensures { (told : List Happening) × (reasons : List CloseReason)
            × Went self.old self.new [] told reasons × Closes result reasons }
    {
        let progress = self.hear()?;
        self.answer(progress.closed)
    }

    /// Returns whether the client is connected.
    pub fn is_up(&self) -> bool
        ensures { result ≡ is_up self.now.client.link.end.state }
    {
        self.client.state() == State::Connected
    }

    /// Returns whether everything that the client published is acknowledged (4.3.2, 4.3.3).
    pub fn is_idle(&self) -> bool
        ensures { IsTrue result ↔ IsIdle self.now.client.link.end }
    {
        match self.client.session() {
            Some(session) => session.sender.is_idle(),
            None => false,
        }
    }

    /// Returns whether every QoS 2 message that was received is released (4.3.3).
    pub fn is_released(&self) -> bool
        ensures { IsTrue result ↔ (self.now.client.link.end.received ≡ none_received) }
    {
        match self.client.session() {
            Some(session) => session.receiver.is_empty(),
            None => false,
        }
    }

    // The number of messages of the session that are sent again (4.3.2, 4.3.3).
    pub(crate) fn resumed(&self) -> usize
        ensures { result ≡ resumed_of self.now.client.link.end }
    {
        match self.client.session() {
            Some(session) => in_use(&session.sender),
            None => 0,
        }
    }

    /// Publishes a message. Returns `false` if it has to wait: until the client is connected, or
    /// until an acknowledgement frees a packet identifier.
    pub fn publish(&mut self, message: Message) -> Result<bool, ClientError>
        ensures went { Went self.old self.new (asked_by result message) [] [] }
        ensures goes_on { closes_of result ≡ [] }
    {
        if let Err(why) = self.client.publish(message) {
            return waits(why);
        }
        self.accepted = self.accepted.saturating_add(1);
        self.open = open_messages(&self.client, self.open);
        Ok(true)
    }

    /// Requests a subscription (3.8).
    pub fn subscribe(&mut self, requests: NonEmpty<Request>) -> Result<(), ClientError>
        ensures went { OnOk result
            (Went self.old self.new (Subscription requests ∷ []) [] []) }
        ensures refused { OnErr result (Went self.old self.new [] [] []) }
        ensures goes_on { closes_of result ≡ [] }
    {
        if let Err(why) = self.client.subscribe(requests) {
            return Err(halt_of(why));
        }
        Ok(())
    }

    /// Requests the end of subscriptions (3.10). The answer is an
    /// [`UnsubAck`](Happening::UnsubAck) with the packet identifier of the request (3.11).
    pub fn unsubscribe(&mut self, filters: NonEmpty<TopicFilter>) -> Result<(), ClientError>
        ensures went { OnOk result
            (Went self.old self.new (Unsubscription filters ∷ []) [] []) }
        ensures refused { OnErr result (Went self.old self.new [] [] []) }
        ensures goes_on { closes_of result ≡ [] }
    {
        if let Err(why) = self.client.unsubscribe(filters) {
            return Err(halt_of(why));
        }
        Ok(())
    }

    /// Leaves: sends the pending output and DISCONNECT (3.14).
    pub fn leave(&mut self) -> Result<(), ClientError>
        requires { is_up self.old.client.link.end.state ≡ true }
        ensures went { Went self.old self.new [] [] [] }
        ensures goes_on { closes_of result ≡ [] }
        ensures leaves { OnOk result (Leaves self.old self.new) }
    {
        match self.client.disconnect() {
            Ok(()) => self.write(),
            Err(_) => Err(ClientError::Memory),
        }
    }
}
