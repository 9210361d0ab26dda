//! Two ends that are joined by two wires of bytes, and their reaction to each event.

ghost use Rattle.std.specs.Prelude.{◌≡◌, ◌++◌, ◌↔◌, ◌<◌, ◌&&◌, ℕ, true, false, not, nat_lt, take, drop, length, OnOk, OnErr, IfOk, IfSome, IsTrue};
ghost use Rattle.mq_world.specs.Prelude.{Bounds, is_live, connect_of, IsSpanned, AcceptedGrows, TellsMore, accepted_in, Machine, first_packet, Stands, near, left_on, wired_of, SettledFrom, Does, IsDelivered, IsOpened, IsSettled, IsIdle, MetNoWant};

use crate::answer::{Answer, DeliveredBytes, Opening, Settling};
use crate::event::Event;
use crate::laws::{over_bytes, settles_over_bytes};
use crate::restart::{Terms, client_config, made_anew};
use crate::side::Side;
use crate::trace::Trace;
use mq_end::{BoxedList, ByteQueue, ClientEnd, CloseReason, PublishRefusal, ServerEnd, State};
use mq_packet::Message;
use std::alloc::{AllocError, Global};

// The three exchanges after an opening: to each of these sides, in turn, all bytes in flight are
// delivered.
const EXCHANGES: [Side; 6] = [
    Side::Server,
    Side::Client,
    Side::Server,
    Side::Client,
    Side::Server,
    Side::Client,
];

/// Two ends that are joined by two wires of bytes, and the trace of all events so far.
#[derive(Debug, Drop)]
pub(crate) struct Pair {
    pub(crate) alloc: Global,
    pub(crate) client: ClientEnd,
    pub(crate) server: ServerEnd,
    pub(crate) client_clock: u64,
    pub(crate) server_clock: u64,
    pub(crate) to_client: ByteQueue,
    pub(crate) to_server: ByteQueue,
    pub(crate) trace: Trace,
}

impl Pair {
    // Publishes a message at the client.
    #[tactic(auto, using(crate::proofs::Growing::grows_none, crate::proofs::Growing::tells_none))]
    fn publish_at_client(&mut self, message: &Message) -> Result<Answer, AllocError>
        ensures does { IfOk result (λ answer. (limit : Bounds) (capacity : ℕ) (m : Machine) → Stands limit capacity (wired_of self.old) m
            → Does limit capacity (Event.Publish Side.Client message.now) answer (wired_of self.old) (wired_of self.new)) }
        ensures config { self.new.client.config ≡ self.old.client.config }
        ensures answers { self.new.trace.answers ≡ self.old.trace.answers }
        ensures at_client { AcceptedGrows (accepted_in self.old.trace.client) (accepted_in self.new.trace.client) }
        ensures at_server { accepted_in self.new.trace.server ≡ accepted_in self.old.trace.server }
        ensures told_client { TellsMore self.old.trace.client self.new.trace.client }
        ensures told_server { TellsMore self.old.trace.server self.new.trace.server }
    {
        over_bytes();
        match self.client.publish(message.clone()?) {
            Ok(id) => {
                self.trace.client.accept(id, message.clone()?)?;
                let output = self.client.take_all_output();
                carry(&mut self.to_server, output)?;
                Ok(Answer::Published(Side::Client, Ok(id)))
            }
            Err(why) => Ok(Answer::Published(Side::Client, Err(why))),
        }
    }

    // Publishes a message at the server.
    #[tactic(auto, using(crate::proofs::Growing::grows_none, crate::proofs::Growing::tells_none))]
    fn publish_at_server(&mut self, message: &Message) -> Result<Answer, AllocError>
        ensures does { IfOk result (λ answer. (limit : Bounds) (capacity : ℕ) (m : Machine) → Stands limit capacity (wired_of self.old) m
            → Does limit capacity (Event.Publish Side.Server message.now) answer (wired_of self.old) (wired_of self.new)) }
        ensures config { self.new.client.config ≡ self.old.client.config }
        ensures answers { self.new.trace.answers ≡ self.old.trace.answers }
        ensures at_client { accepted_in self.new.trace.client ≡ accepted_in self.old.trace.client }
        ensures at_server { AcceptedGrows (accepted_in self.old.trace.server) (accepted_in self.new.trace.server) }
        ensures told_client { TellsMore self.old.trace.client self.new.trace.client }
        ensures told_server { TellsMore self.old.trace.server self.new.trace.server }
    {
        over_bytes();
        match self.server.publish(message.clone()?) {
            Ok(id) => {
                self.trace.server.accept(id, message.clone()?)?;
                let output = self.server.take_all_output();
                carry(&mut self.to_client, output)?;
                Ok(Answer::Published(Side::Server, Ok(id)))
            }
            Err(why) => Ok(Answer::Published(Side::Server, Err(why))),
        }
    }

    // Delivers `count` bytes to the client, or all in flight to it if there are fewer.
    #[tactic(auto, using(crate::proofs::Growing::tells_none))]
    fn deliver_to_client(&mut self, count: usize) -> Result<DeliveredBytes, AllocError>
        ensures delivered { IfOk result (λ delivery. (limit : Bounds) (capacity : ℕ) (m : Machine) → Stands limit capacity (wired_of self.old) m
            → IsDelivered limit capacity Side.Client count delivery (wired_of self.old) (wired_of self.new)) }
        ensures config { self.new.client.config ≡ self.old.client.config }
        ensures answers { self.new.trace.answers ≡ self.old.trace.answers }
        ensures at_client { accepted_in self.new.trace.client ≡ accepted_in self.old.trace.client }
        ensures at_server { accepted_in self.new.trace.server ≡ accepted_in self.old.trace.server }
        ensures told_client { TellsMore self.old.trace.client self.new.trace.client }
        ensures told_server { TellsMore self.old.trace.server self.new.trace.server }
    {
        over_bytes();
        let live = is_live(self.client.state());
        let bytes = take_first(self.alloc, &mut self.to_client, count)?;
        let progress = self.client.receive(self.client_clock, bytes.as_slice());
        cut_off(&mut self.to_client, progress.closed);
        let output = self.client.take_all_output();
        carry(&mut self.to_server, output)?;
        self.trace.client.tell(&progress)?;
        let lost = is_lost(live, bytes.as_slice());
        Ok(DeliveredBytes {
            side: Side::Client,
            bytes,
            lost,
            progress,
        })
    }

    // Delivers `count` bytes to the server, or all in flight to it if there are fewer.
    #[tactic(auto, using(crate::proofs::Growing::tells_none))]
    fn deliver_to_server(&mut self, count: usize) -> Result<DeliveredBytes, AllocError>
        ensures delivered { IfOk result (λ delivery. (limit : Bounds) (capacity : ℕ) (m : Machine) → Stands limit capacity (wired_of self.old) m
            → IsDelivered limit capacity Side.Server count delivery (wired_of self.old) (wired_of self.new)) }
        ensures config { self.new.client.config ≡ self.old.client.config }
        ensures answers { self.new.trace.answers ≡ self.old.trace.answers }
        ensures at_client { accepted_in self.new.trace.client ≡ accepted_in self.old.trace.client }
        ensures at_server { accepted_in self.new.trace.server ≡ accepted_in self.old.trace.server }
        ensures told_client { TellsMore self.old.trace.client self.new.trace.client }
        ensures told_server { TellsMore self.old.trace.server self.new.trace.server }
    {
        over_bytes();
        let live = is_live(self.server.state());
        let bytes = take_first(self.alloc, &mut self.to_server, count)?;
        let progress = self.server.receive(self.server_clock, bytes.as_slice());
        cut_off(&mut self.to_server, progress.closed);
        let output = self.server.take_all_output();
        carry(&mut self.to_client, output)?;
        self.trace.server.tell(&progress)?;
        let lost = is_lost(live, bytes.as_slice());
        Ok(DeliveredBytes {
            side: Side::Server,
            bytes,
            lost,
            progress,
        })
    }

    // Delivers `count` bytes to a side, or all in flight to it if there are fewer.
    fn deliver(&mut self, side: Side, count: usize) -> Result<DeliveredBytes, AllocError>
        ensures delivered { IfOk result (λ delivery. (limit : Bounds) (capacity : ℕ) (m : Machine) → Stands limit capacity (wired_of self.old) m
            → IsDelivered limit capacity side count delivery (wired_of self.old) (wired_of self.new)) }
        ensures config { self.new.client.config ≡ self.old.client.config }
        ensures answers { self.new.trace.answers ≡ self.old.trace.answers }
        ensures at_client { accepted_in self.new.trace.client ≡ accepted_in self.old.trace.client }
        ensures at_server { accepted_in self.new.trace.server ≡ accepted_in self.old.trace.server }
        ensures told_client { TellsMore self.old.trace.client self.new.trace.client }
        ensures told_server { TellsMore self.old.trace.server self.new.trace.server }
    {
        match side {
            Side::Client => self.deliver_to_client(count),
            Side::Server => self.deliver_to_server(count),
        }
    }

    // Delivers all bytes in flight to a side.
    fn deliver_all(&mut self, side: Side) -> Result<DeliveredBytes, AllocError>
        ensures delivered { IfOk result (λ delivery. (limit : Bounds) (capacity : ℕ) (m : Machine) → Stands limit capacity (wired_of self.old) m
            → IsDelivered limit capacity side (length (near side (wired_of self.old)).wire) delivery (wired_of self.old) (wired_of self.new)) }
        ensures config { self.new.client.config ≡ self.old.client.config }
        ensures answers { self.new.trace.answers ≡ self.old.trace.answers }
        ensures at_client { accepted_in self.new.trace.client ≡ accepted_in self.old.trace.client }
        ensures at_server { accepted_in self.new.trace.server ≡ accepted_in self.old.trace.server }
        ensures told_client { TellsMore self.old.trace.client self.new.trace.client }
        ensures told_server { TellsMore self.old.trace.server self.new.trace.server }
    {
        match side {
            Side::Client => {
                let count = self.to_client.len();
                self.deliver_to_client(count)
            }
            Side::Server => {
                let count = self.to_server.len();
                self.deliver_to_server(count)
            }
        }
    }

    // Drops the connection of a side, with all bytes in flight to it.
    #[tactic(auto, using(crate::proofs::Growing::tells_none))]
    fn lose(&mut self, side: Side) -> Answer
        ensures does { (limit : Bounds) (capacity : ℕ) (m : Machine) → Stands limit capacity (wired_of self.old) m
            → Does limit capacity (Event.Drop side) result (wired_of self.old) (wired_of self.new) }
        ensures config { self.new.client.config ≡ self.old.client.config }
        ensures answers { self.new.trace.answers ≡ self.old.trace.answers }
        ensures at_client { accepted_in self.new.trace.client ≡ accepted_in self.old.trace.client }
        ensures at_server { accepted_in self.new.trace.server ≡ accepted_in self.old.trace.server }
        ensures told_client { TellsMore self.old.trace.client self.new.trace.client }
        ensures told_server { TellsMore self.old.trace.server self.new.trace.server }
    {
        over_bytes();
        match side {
            Side::Client => {
                let was_open = is_live(self.client.state());
                self.client.dropped();
                self.to_client.clear();
                Answer::Dropped(Side::Client, was_open)
            }
            Side::Server => {
                let was_open = is_live(self.server.state());
                self.server.dropped();
                self.to_server.clear();
                Answer::Dropped(Side::Server, was_open)
            }
        }
    }

    // Ends the client's program, which continues with its session as saved. If an allocation for
    // that fails, the dropped end stays.
    #[tactic(auto, using(crate::proofs::Growing::tells_none))]
    fn restart(&mut self, terms: Terms) -> Answer
        requires config { connect_of self.old.client.config false ≡ first_packet }
        requires stands { (m : Machine) × Stands terms.limits terms.capacity (wired_of self.old) m }
        requires window { self.old.client.link.end.window ≡ terms.window }
        requires some { IfSome terms.window (λ window. 0 < window) }
        ensures does { (limit : Bounds) (capacity : ℕ) (m : Machine) → Stands limit capacity (wired_of self.old) m
            → Does limit capacity Event.Restart result (wired_of self.old) (wired_of self.new) }
        ensures config { connect_of self.new.client.config false ≡ first_packet }
        ensures answers { self.new.trace.answers ≡ self.old.trace.answers }
        ensures at_client { accepted_in self.new.trace.client ≡ accepted_in self.old.trace.client }
        ensures at_server { accepted_in self.new.trace.server ≡ accepted_in self.old.trace.server }
        ensures told_client { TellsMore self.old.trace.client self.new.trace.client }
        ensures told_server { TellsMore self.old.trace.server self.new.trace.server }
    {
        over_bytes();
        let _most = terms.limits.max_packet();
        let was_open = is_live(self.client.state());
        self.client.dropped();
        self.to_client.clear();
        let Ok(config) = client_config(self.alloc, terms) else {
            return Answer::Restarted(was_open, Err(PublishRefusal::Memory));
        };
        let Ok(client) = made_anew(self.alloc, &self.client, config) else {
            return Answer::Restarted(was_open, Err(PublishRefusal::Memory));
        };
        self.client = client;
        // No room is reserved between events.
        let _none = self.client.take_all_output();
        Answer::Restarted(was_open, Ok(()))
    }

    // Disconnects the client.
    #[tactic(auto, using(crate::proofs::Growing::tells_none))]
    fn leave(&mut self) -> Result<Answer, AllocError>
        ensures does { IfOk result (λ answer. (limit : Bounds) (capacity : ℕ) (m : Machine) → Stands limit capacity (wired_of self.old) m
            → Does limit capacity Event.Leave answer (wired_of self.old) (wired_of self.new)) }
        ensures config { self.new.client.config ≡ self.old.client.config }
        ensures answers { self.new.trace.answers ≡ self.old.trace.answers }
        ensures at_client { accepted_in self.new.trace.client ≡ accepted_in self.old.trace.client }
        ensures at_server { accepted_in self.new.trace.server ≡ accepted_in self.old.trace.server }
        ensures told_client { TellsMore self.old.trace.client self.new.trace.client }
        ensures told_server { TellsMore self.old.trace.server self.new.trace.server }
    {
        over_bytes();
        if let Err(why) = self.client.disconnect() {
            return Ok(Answer::Left(Err(why)));
        }
        cut_off(&mut self.to_client, Some(CloseReason::Left));
        let output = self.client.take_all_output();
        carry(&mut self.to_server, output)?;
        Ok(Answer::Left(Ok(())))
    }

    // Advances the client's clock and calls its `tick`.
    #[tactic(auto, using(crate::proofs::Growing::tells_none))]
    fn tick_client(&mut self, more: u64) -> Result<Answer, AllocError>
        ensures does { IfOk result (λ answer. (limit : Bounds) (capacity : ℕ) (m : Machine) → Stands limit capacity (wired_of self.old) m
            → Does limit capacity (Event.Tick Side.Client more) answer (wired_of self.old) (wired_of self.new)) }
        ensures config { self.new.client.config ≡ self.old.client.config }
        ensures answers { self.new.trace.answers ≡ self.old.trace.answers }
        ensures at_client { accepted_in self.new.trace.client ≡ accepted_in self.old.trace.client }
        ensures at_server { accepted_in self.new.trace.server ≡ accepted_in self.old.trace.server }
        ensures told_client { TellsMore self.old.trace.client self.new.trace.client }
        ensures told_server { TellsMore self.old.trace.server self.new.trace.server }
    {
        over_bytes();
        self.client_clock = self.client_clock.saturating_add(more);
        let Ok(closed) = self.client.tick(self.client_clock) else {
            return Ok(Answer::Ticked(Side::Client, Err(PublishRefusal::Memory)));
        };
        let output = self.client.take_all_output();
        carry(&mut self.to_server, output)?;
        Ok(Answer::Ticked(Side::Client, Ok(closed)))
    }

    // Moves the clock of the server on, and tells it the time.
    #[tactic(auto, using(crate::proofs::Growing::tells_none))]
    fn tick_server(&mut self, more: u64) -> Answer
        ensures does { (limit : Bounds) (capacity : ℕ) (m : Machine) → Stands limit capacity (wired_of self.old) m
            → Does limit capacity (Event.Tick Side.Server more) result (wired_of self.old) (wired_of self.new) }
        ensures config { self.new.client.config ≡ self.old.client.config }
        ensures answers { self.new.trace.answers ≡ self.old.trace.answers }
        ensures at_client { accepted_in self.new.trace.client ≡ accepted_in self.old.trace.client }
        ensures at_server { accepted_in self.new.trace.server ≡ accepted_in self.old.trace.server }
        ensures told_client { TellsMore self.old.trace.client self.new.trace.client }
        ensures told_server { TellsMore self.old.trace.server self.new.trace.server }
    {
        over_bytes();
        self.server_clock = self.server_clock.saturating_add(more);
        let closed = self.server.tick(self.server_clock);
        cut_off(&mut self.to_server, closed);
        Answer::Ticked(Side::Server, Ok(closed))
    }

    // Opens a new connection from the client.
    #[tactic(auto, using(crate::proofs::Growing::tells_none))]
    fn open(&mut self) -> Opening
        requires config { connect_of self.old.client.config false ≡ first_packet }
        ensures opened { (limit : Bounds) (capacity : ℕ) (m : Machine) → Stands limit capacity (wired_of self.old) m
            → IsOpened limit capacity result (wired_of self.old) (wired_of self.new) }
        ensures config { self.new.client.config ≡ self.old.client.config }
        ensures answers { self.new.trace.answers ≡ self.old.trace.answers }
        ensures at_client { accepted_in self.new.trace.client ≡ accepted_in self.old.trace.client }
        ensures at_server { accepted_in self.new.trace.server ≡ accepted_in self.old.trace.server }
        ensures told_client { TellsMore self.old.trace.client self.new.trace.client }
        ensures told_server { TellsMore self.old.trace.server self.new.trace.server }
    {
        over_bytes();
        let client_dropped = is_live(self.client.state());
        let server_dropped = is_live(self.server.state());
        self.to_client.clear();
        if self.client.connect(self.client_clock, false).is_err() {
            self.client.dropped();
            self.server.dropped();
            self.to_server.clear();
            return Opening {
                client_dropped,
                server_dropped,
                refused: true,
            };
        }
        self.server.opened(self.server_clock);
        self.to_server = self.client.take_all_output();
        Opening {
            client_dropped,
            server_dropped,
            refused: false,
        }
    }

    /// Processes an event.
    #[tactic(auto, using(crate::proofs::Growing::grows_none))]
    pub(crate) fn make(&mut self, event: &Event, terms: Terms) -> Result<Answer, AllocError>
        requires config { connect_of self.old.client.config false ≡ first_packet }
        requires stands { (m : Machine) × Stands terms.limits terms.capacity (wired_of self.old) m }
        requires window { self.old.client.link.end.window ≡ terms.window }
        requires some { IfSome terms.window (λ window. 0 < window) }
        ensures does { IfOk result (λ answer. (limit : Bounds) (capacity : ℕ) (m : Machine) → Stands limit capacity (wired_of self.old) m
            → Does limit capacity event.now answer (wired_of self.old) (wired_of self.new)) }
        ensures config { connect_of self.new.client.config false ≡ first_packet }
        ensures answers { self.new.trace.answers ≡ self.old.trace.answers }
        ensures at_client { AcceptedGrows (accepted_in self.old.trace.client) (accepted_in self.new.trace.client) }
        ensures at_server { AcceptedGrows (accepted_in self.old.trace.server) (accepted_in self.new.trace.server) }
        ensures told_client { TellsMore self.old.trace.client self.new.trace.client }
        ensures told_server { TellsMore self.old.trace.server self.new.trace.server }
    {
        match event {
            Event::Publish(Side::Client, message) => self.publish_at_client(message),
            Event::Publish(Side::Server, message) => self.publish_at_server(message),
            Event::Deliver(side, count) => Ok(Answer::Delivered(self.deliver(*side, *count)?)),
            Event::Drop(side) => Ok(self.lose(*side)),
            Event::Restart => Ok(self.restart(terms)),
            Event::Leave => self.leave(),
            Event::Open => Ok(Answer::Opened(self.open())),
            Event::Tick(Side::Client, more) => self.tick_client(*more),
            Event::Tick(Side::Server, more) => Ok(self.tick_server(*more)),
        }
    }

    /// Opens a connection and makes three exchanges, each of which delivers all bytes in flight to
    /// the server, then all in flight to the client.
    #[tactic(auto, using(crate::proofs::Growing::tells_then))]
    pub(crate) fn settle(&mut self) -> Result<Settling, AllocError>
        requires config { connect_of self.old.client.config false ≡ first_packet }
        ensures settled { IfOk result (λ s. (limit : Bounds) (capacity : ℕ) (m : Machine) → Stands limit capacity (wired_of self.old) m
            → IsSettled limit capacity s (wired_of self.old) (wired_of self.new)) }
        ensures left { IfOk result (λ s. (limit : Bounds) (capacity : ℕ) (m : Machine) → Stands limit capacity (wired_of self.old) m
            → IsSpanned capacity (wired_of self.old) → MetNoWant (Answer.Settled s) → SettledFrom (wired_of self.old) (wired_of self.new)) }
        ensures config { self.new.client.config ≡ self.old.client.config }
        ensures answers { self.new.trace.answers ≡ self.old.trace.answers }
        ensures at_client { accepted_in self.new.trace.client ≡ accepted_in self.old.trace.client }
        ensures at_server { accepted_in self.new.trace.server ≡ accepted_in self.old.trace.server }
        ensures told_client { TellsMore self.old.trace.client self.new.trace.client }
        ensures told_server { TellsMore self.old.trace.server self.new.trace.server }
    {
        over_bytes();
        settles_over_bytes();
        let opening = self.open();
        let mut deliveries = Vec::new(self.alloc);
        for side in EXCHANGES {
            let delivery = self.deliver_all(side)?;
            deliveries.push(delivery)?;
        }
        Ok(Settling {
            opening,
            deliveries: BoxedList::from_vec(deliveries),
            idle: self.is_idle(),
        })
    }

    // Returns whether neither side stores unfinished messages or has pending output.
    fn is_idle(&self) -> bool
        ensures { IsTrue result ↔ (IsIdle self.now.client.link.end × (self.now.server.end.known ≡ true → IsIdle self.now.server.end)) }
    {
        let client = self
            .client
            .session()
            .is_none_or(|session| session.sender.is_idle());
        let server = self
            .server
            .session()
            .is_none_or(|session| session.sender.is_idle());
        client && server
    }
}

// Returns whether there is a connection.
fn is_live(state: State) -> bool
    ensures { result ≡ is_live state }
{
    match state {
        State::Disconnected => false,
        State::Connecting | State::Connected => true,
    }
}

// Returns whether bytes reached an end that could not take them in.
fn is_lost(live: bool, bytes: &[u8]) -> bool
    ensures { result ≡ (not live && nat_lt 0 (length bytes.now)) }
{
    !live && !bytes.is_empty()
}

// Clears the wire toward an end that closed.
fn cut_off(wire: &mut ByteQueue, closed: Option<CloseReason>)
    ensures { wire.new ≡ left_on closed wire.old }
{
    if closed.is_some() {
        wire.clear();
    }
}

// Takes the oldest `count` bytes from a wire, or all if there are fewer. On `Err` nothing changes.
fn take_first(
    alloc: Global,
    wire: &mut ByteQueue,
    count: usize,
) -> Result<BoxedList<u8>, AllocError>
    ensures bytes { IfOk result (λ bytes. bytes ≡ take count wire.old) }
    ensures left { OnOk result (wire.new ≡ drop count wire.old) }
    ensures err { OnErr result (wire.new ≡ wire.old) }
{
    let count = count.min(wire.len());
    let mut bytes = Vec::new(alloc);
    bytes.extend_from_slice(&wire.as_slice()[..count])?;
    wire.take(count);
    Ok(BoxedList::from_vec(bytes))
}

// Appends bytes to a wire; moves them if it is empty. On `Err` nothing changes.
fn carry(wire: &mut ByteQueue, more: ByteQueue) -> Result<(), AllocError>
    ensures ok { OnOk result (wire.new ≡ wire.old ++ more) }
    ensures err { OnErr result (wire.new ≡ wire.old) }
{
    if wire.is_empty() {
        *wire = more;
        return Ok(());
    }
    wire.append(more.as_slice())
}
