//! The server end.

ghost use Rattle.std.specs.Prelude.{◌≡◌, ◌+◌, ◌<◌, ◌≤◌, ◌++◌, ◌↔◌, ℕ, List, [], ◌∷◌, true, false, length, drop, IsOk, IfOk, IfErr, IfSome, IfNone, IsSome, OnOk, OnErr, Ok, Err, None, Some};
ghost use Rattle.mq_end.specs.Prelude.{Q2, fits_delivery, packet_of, same_qos, blank_end, is_live, is_up, over, resumed, would_hand, opens, ready_refusal, server_gets, server_publish_refusal, subacks, suback_refusal, unsubacks, unsuback_refusal, Acts, HearsAt, ServerReceives, Shows, TakesOne, TakesPacket, no_outcome, outcome_of, Accepts, AwaitsConnect, FitsRoom, CanSend, HasConnectRoom, HasRoom, is_exactly_once, is_plain, packets_size, whole_size, suback_size, unsuback_size, bytes_less, no_bytes, no_room, server_ticks, IsDeadline, is_overdue, KeepsWindow, FitsWithin};
ghost use Rattle.mq_end.specs.declared.state.State.TheVariants as states;

use crate::config::ServerConfig;
use crate::endpoint::Endpoint;
use crate::packet_outcome::PacketOutcome;
use crate::prepared::PreparedMessage;
use crate::progress::Progress;
use crate::publish_outcome::PublishOutcome;
use crate::queue::ByteQueue;
use crate::reason::CloseReason;
use crate::refusal::PublishRefusal;
use crate::resume::fits_within;
use crate::role::Role;
use crate::state::State;
use mq_decode::PacketView;
use mq_flow::Session;
use mq_packet::{Connect, Delivery, Message, NonEmpty, Packet, PacketId, Publish, SubAckCode};
use mq_topic::Qos;
use std::alloc::{AllocError, Global};
use std::marker::Model;

/// The server's end of one client's connections, one after another, with the session of the client
/// (3.1.2.4). It consumes and produces bytes and knows neither sockets nor clocks; all times are in
/// milliseconds.
/// Order of calls: [`opened`](ServerEnd::opened) for each new connection,
/// [`receive`](ServerEnd::receive) for received bytes, [`tick`](ServerEnd::tick) regularly,
/// [`output`](ServerEnd::output) and [`take_output`](ServerEnd::take_output) after each call, and
/// [`dropped`](ServerEnd::dropped) when the connection is lost.
#[derive(Debug, Drop)]
pub struct ServerEnd {
    link: Endpoint,
}

impl Model for ServerEnd {
    ghost use Rattle.std.specs.Coded.{codes, coded_ℕ};
    ghost use Rattle.std.specs.FinSet as set;
    ghost use Rattle.std.specs.Ordering.{nat_cmp};
    ghost use Rattle.mq_end.specs.State.{EndState};

    ghost Value = { EndState };

    ghost coded = { Prim.hlevel (codes, set.code {R = nat_cmp} coded_ℕ) };

    ghost view = { λ s. s.link };
}

impl ServerEnd {
    /// A server end without a session or a connection.
    pub fn new(alloc: Global, config: ServerConfig) -> ServerEnd
        requires capacity { 0 < config.capacity }
        requires window { IfSome config.window (λ window. 0 < window) }
        ensures end { result.end ≡ blank_end config.window }
        ensures capacity { result.capacity ≡ config.capacity }
        ensures limit { result.limit ≡ config.limits }
        ensures output { result.output ≡ [] }
        ensures held { result.held ≡ [] }
        ensures room { result.room ≡ no_room }
    {
        ServerEnd {
            link: Endpoint::new(alloc, config.limits, config.capacity, config.window),
        }
    }

    /// Continues a stored session, without a connection; the identifiers of its SUBSCRIBE and
    /// UNSUBSCRIBE packets are free (3.1.2.4, 4.1). The session keeps its capacity, which replaces
    /// the configured one. Returns `None` if a message of the session exceeds the size limit.
    pub fn with_session(alloc: Global, config: ServerConfig, session: Session) -> Option<ServerEnd>
        requires { IfSome config.window (λ window. 0 < window) }
        ensures there { IsSome result ↔ FitsWithin config.limits.most session }
        ensures end { IfSome result (λ server. server.end
            ≡ resumed config.window true session.sender.book session.receiver session.sender.last) }
        ensures capacity { IfSome result (λ server. server.capacity ≡ session.sender.capacity) }
        ensures limit { IfSome result (λ server. server.limit ≡ config.limits) }
        ensures output { IfSome result (λ server. server.output ≡ []) }
        ensures held { IfSome result (λ server. server.held ≡ []) }
        ensures room { IfSome result (λ server. server.room ≡ record { messages = session.sender.room; bytes = 0 }) }
    {
        if !fits_within(config.limits, &session) {
            drop(session);
            return None;
        }
        let link = Endpoint::with_session(alloc, config.limits, config.window, session, true);
        Some(ServerEnd { link })
    }

    /// Continues a connection after a restart of the process. Its CONNECT was accepted with this
    /// clean session flag and keep-alive (3.1.2.4, 3.1.2.10), and its last packet arrived at the
    /// time `last_activity`. Nothing is sent. Call this after [`with_session`], if at all.
    ///
    /// [`with_session`]: ServerEnd::with_session
    pub fn continue_connection(&mut self, clean: bool, keep_alive: u16, last_activity: u64)
        requires { is_live self.old.end.state ≡ false }
        ensures { self.new ≡ record self.old {
          end = record self.old.end { state = states.Connected; clean = clean; keep_alive = keep_alive };
          last_activity = last_activity;
        } }
    {
        self.link
            .continue_connection(clean, keep_alive, last_activity);
    }

    /// Opens a connection at time `now`; the end then waits for its CONNECT (3.1). Drops an open
    /// connection, and discards pending output of an earlier one.
    pub fn opened(&mut self, now: u64)
        ensures end { self.new.end ≡ (opens self.old.end).end }
        ensures output { self.new.output ≡ [] }
        ensures held { self.new.held ≡ [] }
        ensures limit { self.new.limit ≡ self.old.limit }
        ensures capacity { self.new.capacity ≡ self.old.capacity }
        ensures last_activity { self.new.last_activity ≡ now }
        ensures room { self.new.room ≡ self.old.room }
        ensures waits { AwaitsConnect self.new }
        ensures connect_end { (connect : Connect) (ms : List Message) (more : ℕ) → HasConnectRoom connect ms more self.old → HasConnectRoom connect ms more self.new }
    {
        self.link.open_connection(now);
    }

    /// Processes bytes from the client, received at time `now`. Ignores them without a connection.
    /// Processes each complete packet in turn, up to one at which the end closes. Closes the end if
    /// an allocation fails.
    pub fn receive(&mut self, now: u64, piece: &[u8]) -> Progress
        ensures open { is_live self.old.end.state ≡ true → ServerReceives piece.now self.old self.new
            result.happenings result.acknowledged result.closed }
        ensures closed { is_live self.old.end.state ≡ false → self.new ≡ self.old }
        ensures nothing { is_live self.old.end.state ≡ false
            → (result.happenings ≡ []) × (result.acknowledged ≡ []) × (result.closed ≡ None) }
        ensures heard { is_live self.old.end.state ≡ true → HearsAt now (self.old.held ++ piece.now) result.closed self.old self.new }
        ensures limit { self.new.limit ≡ self.old.limit }
        ensures capacity { self.new.capacity ≡ self.old.capacity }
        ensures window { KeepsWindow self.old.end self.new.end }
    {
        self.link.receive(Role::Server, now, piece)
    }

    /// Processes a complete packet from the client, received at time `now`; `receive` decodes
    /// packets and does this with each. Ignores it without a connection. Closes the end if an
    /// allocation fails; within the reserved room of a connected end that happens only for the
    /// stored identifier of a QoS 2 message (4.3.3).
    pub fn on_packet(&mut self, now: u64, packet: Packet) -> Progress
        ensures open { is_live self.old.end.state ≡ true → TakesOne now packet self.old self.new
            result.happenings result.acknowledged result.closed }
        ensures closed { is_live self.old.end.state ≡ false → self.new ≡ self.old }
        ensures nothing { is_live self.old.end.state ≡ false
            → (result.happenings ≡ []) × (result.acknowledged ≡ []) × (result.closed ≡ None) }
        ensures within { is_up self.old.end.state ≡ true → is_exactly_once packet ≡ false
            → CanSend (server_gets packet self.old.end).out self.old
            → Shows (server_gets packet self.old.end) self.old self.new result.happenings result.acknowledged result.closed }
        ensures kept { is_up self.old.end.state ≡ true → (ms : List Message) (more : ℕ)
            → HasRoom ms (packets_size (server_gets packet self.old.end).out + more) self.old → HasRoom ms more self.new }
    {
        self.link.on_packet(Role::Server, now, packet)
    }

    /// Processes a complete packet that is borrowed from a buffer, like `on_packet` with an equal
    /// packet. Closes the end if an allocation fails. At a connected end, within the reserved room,
    /// this happens only for a packet with text, a payload or a list, which is copied.
    pub fn on_view(&mut self, now: u64, view: &PacketView<'_>) -> Progress
        ensures open { is_live self.old.end.state ≡ true → TakesOne now (packet_of view.now) self.old self.new
            result.happenings result.acknowledged result.closed }
        ensures closed { is_live self.old.end.state ≡ false → self.new ≡ self.old }
        ensures nothing { is_live self.old.end.state ≡ false
            → (result.happenings ≡ []) × (result.acknowledged ≡ []) × (result.closed ≡ None) }
        ensures within { is_up self.old.end.state ≡ true → is_plain (packet_of view.now) ≡ true
            → CanSend (server_gets (packet_of view.now) self.old.end).out self.old
            → Shows (server_gets (packet_of view.now) self.old.end) self.old self.new result.happenings result.acknowledged result.closed }
        ensures kept { is_up self.old.end.state ≡ true → (ms : List Message) (more : ℕ)
            → HasRoom ms (packets_size (server_gets (packet_of view.now) self.old.end).out + more) self.old → HasRoom ms more self.new }
    {
        self.link.on_view(Role::Server, now, view)
    }

    /// Processes a complete packet like `on_packet`, but makes no list of happenings, and returns
    /// an error instead of closing if an allocation fails; then nothing changes. Within the
    /// reserved room of a connected end this happens only for the stored identifier of a QoS 2
    /// message (4.3.3). It doesn't happen for a CONNECT for which `reserve_connect` reserved room.
    pub fn take_packet(&mut self, now: u64, packet: Packet) -> Result<PacketOutcome, AllocError>
        ensures open { is_live self.old.end.state ≡ true → IfOk result (λ outcome. TakesPacket now packet outcome self.old self.new) }
        ensures closed { is_live self.old.end.state ≡ false → self.new ≡ self.old }
        ensures nothing { is_live self.old.end.state ≡ false → result ≡ Ok no_outcome }
        ensures within { is_up self.old.end.state ≡ true → is_exactly_once packet ≡ false
            → FitsRoom (server_gets packet self.old.end).out self.old → IsOk result }
        ensures kept { is_up self.old.end.state ≡ true → (ms : List Message) (more : ℕ)
            → HasRoom ms (packets_size (server_gets packet self.old.end).out + more) self.old → HasRoom ms more self.new }
        ensures connects { (connect : Connect) → packet ≡ Packet.Connect connect → AwaitsConnect self.old → (ms : List Message) (more : ℕ)
            → HasConnectRoom connect ms more self.old → IsOk result × HasRoom ms more self.new }
        ensures err { OnErr result (self.new ≡ self.old) }
    {
        self.link.take_packet(now, packet)
    }

    /// Processes the PUBLISH of a message (3.3, 4.3) like `take_packet`, but the caller keeps the
    /// message and learns whether to deliver it. `delivery` must be given exactly for QoS 1 and 2.
    /// On `Err` nothing changes; within the reserved room that happens only for a stored
    /// identifier.
    #[inline(always)]
    pub fn receive_publish(
        &mut self,
        now: u64,
        message: &Message,
        delivery: Option<Delivery>,
    ) -> Result<PublishOutcome, AllocError>
        requires fits { fits_delivery message.now.qos delivery ≡ true }
        ensures open { is_live self.old.end.state ≡ true → IfOk result (λ handing.
            TakesPacket now (Packet.Publish (record { message = message.now; delivery = delivery })) (outcome_of handing message.now) self.old self.new) }
        ensures closed { is_live self.old.end.state ≡ false → self.new ≡ self.old }
        ensures nothing { is_live self.old.end.state ≡ false → result ≡ Ok PublishOutcome.Nothing }
        ensures within { is_up self.old.end.state ≡ true → same_qos Q2 message.now.qos ≡ false
            → FitsRoom (server_gets (Packet.Publish (record { message = message.now; delivery = delivery })) self.old.end).out self.old → IsOk result }
        ensures kept { is_up self.old.end.state ≡ true → (ms : List Message) (more : ℕ)
            → HasRoom ms (packets_size (server_gets (Packet.Publish (record { message = message.now; delivery = delivery })) self.old.end).out + more) self.old
            → HasRoom ms more self.new }
        ensures err { OnErr result (self.new ≡ self.old) }
    {
        self.link.receive_publish(now, message, delivery)
    }

    /// Reserves room to connect by this CONNECT on a new connection: for CONNACK and all
    /// retransmissions, then for publishing `messages` and for `more` bytes (3.2, 4.4). Afterwards
    /// `opened` and `take_packet` of the CONNECT don't fail. Fails if an allocation fails, if the
    /// bytes in all exceed `usize`, or if a stored message is too large to send. On `Err` no room
    /// that was reserved earlier is lost.
    pub fn reserve_connect(
        &mut self,
        connect: &Connect,
        messages: &[Message],
        more: usize,
    ) -> Result<(), AllocError>
        ensures room { OnOk result (HasConnectRoom connect.now messages.now more self.new) }
        ensures same { self.new ≡ record self.old { room = self.new.room } }
        ensures before { (ms : List Message) (size : ℕ) → HasRoom ms size self.old → HasRoom ms size self.new }
        ensures connect_end { (other : Connect) (ms : List Message) (size : ℕ) → HasConnectRoom other ms size self.old → HasConnectRoom other ms size self.new }
    {
        self.link.reserve_connect(connect, messages, more)
    }

    /// Returns whether this packet would deliver a message if it arrived now (4.3).
    pub fn would_hand(&self, packet: &Packet) -> bool
        ensures { result ≡ would_hand packet.now self.now.end }
    {
        if self.link.state != State::Connected {
            return false;
        }
        match packet {
            Packet::Publish(publish) => self.hands(publish),
            _ => false,
        }
    }

    fn hands(&self, publish: &Publish) -> bool
        ensures { is_up self.now.end.state ≡ true → result ≡ would_hand (Packet.Publish publish.now) self.now.end }
    {
        let receiver = &self.link.session.receiver;
        match (publish.message().qos, publish.delivery()) {
            (Qos::Q2, Some(delivery)) => {
                receiver.fits(delivery.id, self.link.window) && !receiver.is_stored(delivery.id)
            }
            _ => true,
        }
    }

    /// Reserves room for publishing `messages` and for sending `more` other bytes, which then don't
    /// allocate. Errors: the first refusal of one of the messages, `Full` if fewer
    /// identifiers are free than they need, `Memory` if an allocation fails or the bytes in all
    /// exceed `usize`. No room that was reserved earlier is lost.
    pub fn ready(&mut self, messages: &[Message], more: usize) -> Result<(), PublishRefusal>
        ensures refused { IfSome (ready_refusal self.old.limit.most self.old.capacity messages.now self.old.end)
            (λ why. result ≡ Err why) }
        ensures memory { IfNone (ready_refusal self.old.limit.most self.old.capacity messages.now self.old.end)
            (IfErr result (λ why. why ≡ PublishRefusal.Memory)) }
        ensures room { OnOk result (HasRoom messages.now more self.new) }
        ensures same { self.new ≡ record self.old { room = self.new.room } }
        ensures before { (ms : List Message) (size : ℕ) → HasRoom ms size self.old → HasRoom ms size self.new }
    {
        self.link.ready(messages, more)
    }

    /// Publishes a message to the client. Returns its packet identifier if it has QoS 1 or 2
    /// (2.3.1). Without a connection, a QoS 1 or 2 message is stored, and sent once the client has
    /// connected. Errors: `NoSession`, `NotConnected` for QoS 0, `TooLarge`, `Full`, `Memory`, in
    /// this order. Does not allocate within the reserved room.
    pub fn publish(&mut self, message: Message) -> Result<Option<PacketId>, PublishRefusal>
        ensures refused { IfSome (server_publish_refusal self.old.limit.most self.old.capacity message self.old.end)
            (λ why. result ≡ Err why) }
        ensures memory { IfNone (server_publish_refusal self.old.limit.most self.old.capacity message self.old.end)
            (IfErr result (λ why. why ≡ PublishRefusal.Memory)) }
        ensures ok { IfOk result (λ answer. Accepts answer message self.old self.new) }
        ensures kept { server_publish_refusal self.old.limit.most self.old.capacity message self.old.end ≡ None
            → (rest : List Message) (more : ℕ) → HasRoom (message ∷ rest) more self.old
            → IsOk result × HasRoom rest more self.new }
        ensures err { OnErr result (self.new ≡ self.old) }
    {
        self.publish_prepared(PreparedMessage::new(message))
    }

    /// Publishes a prepared message to the client, as [`publish`](ServerEnd::publish) does. If it
    /// has an encoding for this delivery and no output is pending, the encoding becomes the output
    /// without a copy.
    pub fn publish_prepared(
        &mut self,
        message: PreparedMessage,
    ) -> Result<Option<PacketId>, PublishRefusal>
        ensures refused { IfSome (server_publish_refusal self.old.limit.most self.old.capacity message self.old.end)
            (λ why. result ≡ Err why) }
        ensures memory { IfNone (server_publish_refusal self.old.limit.most self.old.capacity message self.old.end)
            (IfErr result (λ why. why ≡ PublishRefusal.Memory)) }
        ensures ok { IfOk result (λ answer. Accepts answer message self.old self.new) }
        ensures kept { server_publish_refusal self.old.limit.most self.old.capacity message self.old.end ≡ None
            → (rest : List Message) (more : ℕ) → HasRoom (message ∷ rest) more self.old
            → IsOk result × HasRoom rest more self.new }
        ensures err { OnErr result (self.new ≡ self.old) }
    {
        if !self.link.known {
            return Err(PublishRefusal::NoSession);
        }
        self.link.publish(message)
    }

    /// Answers a SUBSCRIBE: sends SUBACK with its packet identifier and a code for each request
    /// (3.9). Errors: `NotConnected`, `TooLarge`, `Memory`.
    pub fn suback(
        &mut self,
        id: PacketId,
        codes: NonEmpty<SubAckCode>,
    ) -> Result<(), PublishRefusal>
        ensures refused { IfSome (suback_refusal self.old.limit.most codes self.old.end) (λ why. result ≡ Err why) }
        ensures memory { IfNone (suback_refusal self.old.limit.most codes self.old.end)
            (IfErr result (λ why. why ≡ PublishRefusal.Memory)) }
        ensures ok { OnOk result (Acts (subacks id codes self.old.end) self.old self.new) }
        ensures kept { suback_refusal self.old.limit.most codes self.old.end ≡ None → (ms : List Message) (more : ℕ)
            → HasRoom ms (whole_size (suback_size codes) + more) self.old → IsOk result × HasRoom ms more self.new }
        ensures err { OnErr result (self.new ≡ self.old) }
    {
        self.link.suback(id, codes)
    }

    /// Answers an UNSUBSCRIBE: sends UNSUBACK with its packet identifier (3.11). Errors:
    /// `NotConnected`, `TooLarge`, `Memory`.
    pub fn unsuback(&mut self, id: PacketId) -> Result<(), PublishRefusal>
        ensures refused { IfSome (unsuback_refusal self.old.limit.most self.old.end) (λ why. result ≡ Err why) }
        ensures memory { IfNone (unsuback_refusal self.old.limit.most self.old.end)
            (IfErr result (λ why. why ≡ PublishRefusal.Memory)) }
        ensures ok { OnOk result (Acts (unsubacks id self.old.end) self.old self.new) }
        ensures kept { unsuback_refusal self.old.limit.most self.old.end ≡ None → (ms : List Message) (more : ℕ)
            → HasRoom ms (whole_size unsuback_size + more) self.old → IsOk result × HasRoom ms more self.new }
        ensures err { OnErr result (self.new ≡ self.old) }
    {
        self.link.unsuback(id)
    }

    /// Call this regularly with the current time. Closes a connected end if more than one and a
    /// half times its keep-alive has elapsed since the last complete packet, and returns the reason
    /// (3.1.2.10).
    pub fn tick(&mut self, now: u64) -> Option<CloseReason>
        ensures closed { result ≡ (server_ticks self.old.last_activity now self.old.end).close }
        ensures state { Acts (server_ticks self.old.last_activity now self.old.end) self.old self.new }
    {
        self.link.tick_server(now)
    }

    /// The time from which on [`tick`](ServerEnd::tick) closes the end; before it `tick` does
    /// nothing. `None` if it closes the end at no time (3.1.2.10). Ask again after each other call.
    pub fn next_deadline(&self) -> Option<u64>
        ensures { IsDeadline (λ now. is_overdue self.now.last_activity now self.now.end) result }
    {
        self.link.close_deadline()
    }

    /// Reports that the connection is lost (4.2). Discards pending output.
    pub fn dropped(&mut self)
        ensures end { self.new.end ≡ over self.old.end }
        ensures output { self.new.output ≡ [] }
        ensures held { self.new.held ≡ [] }
        ensures limit { self.new.limit ≡ self.old.limit }
        ensures capacity { self.new.capacity ≡ self.old.capacity }
        ensures last_activity { self.new.last_activity ≡ self.old.last_activity }
        ensures room { self.new.room ≡ self.old.room }
        ensures connect_end { (connect : Connect) (ms : List Message) (more : ℕ) → HasConnectRoom connect ms more self.old → HasConnectRoom connect ms more self.new }
    {
        self.link.drop_connection();
    }

    /// The bytes that must be written to the connection.
    pub fn output(&self) -> &[u8]
        ensures { result.now ≡ self.now.output }
    {
        self.link.output.as_slice()
    }

    /// Reports that the first `count` bytes of the output were written.
    pub fn take_output(&mut self, count: usize)
        requires { count ≤ length self.old.output }
        ensures { self.new ≡ record self.old { output = drop count self.old.output; room = bytes_less count self.old.room } }
    {
        self.link.output.take(count);
    }

    /// Removes and returns all pending output.
    pub fn take_all_output(&mut self) -> ByteQueue
        ensures bytes { result ≡ self.old.output }
        ensures left { self.new ≡ record self.old { output = []; room = no_bytes self.old.room } }
    {
        self.link.take_all_output()
    }

    /// Exchanges the pending output for another queue.
    pub fn swap_output(&mut self, other: &mut ByteQueue)
        ensures end { self.new ≡ record self.old { output = other.old; room = no_bytes self.old.room } }
        ensures other { other.new ≡ self.old.output }
    {
        self.link.swap_output(other);
    }

    /// The state of the connection.
    pub fn state(&self) -> State
        ensures { result ≡ self.now.end.state }
    {
        self.link.state
    }

    /// The session of the client, or `None` if there is none (3.1.2.4).
    pub fn session(&self) -> Option<&Session>
        ensures there { IsSome result ↔ (self.now.end.known ≡ true) }
        ensures book { IfSome result (λ session. session.now.sender.book ≡ self.now.end.book) }
        ensures received { IfSome result (λ session. session.now.receiver ≡ self.now.end.received) }
        ensures last { IfSome result (λ session. session.now.sender.last ≡ self.now.end.last) }
        ensures capacity { IfSome result (λ session. session.now.sender.capacity ≡ self.now.capacity) }
    {
        if !self.link.known {
            return None;
        }
        Some(&self.link.session)
    }
}
