//! The client end.

ghost use Rattle.std.specs.Prelude.{◌≡◌, ◌<◌, ◌≤◌, ◌↔◌, ◌⊎◌, ◌∷◌, ◌++◌, IsErrOf, ℕ, [], true, false, length, drop, IfOk, IfErr, IfSome, IfNone, IsSome, OnOk, OnErr, Err, None, Some};
ghost use Rattle.mq_end.specs.Prelude.{packet_of, blank_end, is_live, is_up, over, resumed, publish_refusal, connects, subscribes, subscribe_refusal, unsubscribes, unsubscribe_refusal, leaves, leave_refusal, client_gets, CanSend, is_plain, Shows, PutsOut, bytes_less, no_bytes, no_room, Acts, ClientReceives, ClientTakes, Accepts, connect_of, pings, IsDeadline, Requests, Ticks, KeepsWindow, FitsWithin, NamesAnother, kept_session, AreWithin, IsSession, saved_form_two};
ghost use Rattle.mq_packet.specs.declared.packet.Packet.TheVariants as packets;

use crate::config::ClientConfig;
use crate::endpoint::Endpoint;
use crate::output::Output;
use crate::prepared::PreparedMessage;
use crate::progress::Progress;
use crate::queue::ByteQueue;
use crate::reason::CloseReason;
use crate::refusal::PublishRefusal;
use crate::resume::{fits_within, names_another};
use crate::role::Role;
use crate::state::State;
use mq_decode::PacketView;
use mq_flow::{LoadError, Saved, Session};
use mq_packet::{BoxedConnect, Connect, Message, NonEmpty, Packet, PacketId, Request};
use mq_topic::TopicFilter;
use std::alloc::{AllocError, Global};
use std::marker::Model;

/// The client's end of its connections, one after another, with its session (3.1.2.4). It consumes
/// and produces bytes and knows neither sockets nor clocks; all times are in milliseconds.
/// Order of calls: [`connect`](ClientEnd::connect) for each new connection,
/// [`receive`](ClientEnd::receive) for received bytes, [`tick`](ClientEnd::tick) regularly,
/// [`output`](ClientEnd::output) and [`take_output`](ClientEnd::take_output) after each call, and
/// [`dropped`](ClientEnd::dropped) when the connection is lost.
#[derive(Debug, Drop)]
pub struct ClientEnd {
    config: ClientConfig,
    link: Endpoint,
}

impl Model for ClientEnd {
    ghost use Rattle.std.specs.Prelude.{◌≡◌};
    ghost use Rattle.std.specs.Coded.{codes, coded_ℕ};
    ghost use Rattle.std.specs.FinSet as set;
    ghost use Rattle.std.specs.Ordering.{nat_cmp};
    ghost use Rattle.mq_end.specs.Publishing.{ClientState};

    ghost Value = { ClientState };

    ghost coded = { Prim.hlevel (codes, set.code {R = nat_cmp} coded_ℕ) };

    ghost view = { λ c. record { link = c.link; config = c.config } };
}

impl ClientEnd {
    /// A client without a session or a connection.
    pub fn new(alloc: Global, config: ClientConfig) -> ClientEnd
        requires capacity { 0 < config.capacity }
        requires window { IfSome config.window (λ window. 0 < window) }
        ensures end { result.link.end ≡ blank_end config.window }
        ensures capacity { result.link.capacity ≡ config.capacity }
        ensures limit { result.link.limit ≡ config.limits }
        ensures output { result.link.output ≡ [] }
        ensures held { result.link.held ≡ [] }
        ensures room { result.link.room ≡ no_room }
        ensures config { result.config ≡ config }
    {
        let link = Endpoint::new(alloc, config.limits, config.capacity, config.window);
        ClientEnd { config, link }
    }

    /// Continues a stored session, without a connection; the identifiers of its SUBSCRIBE and
    /// UNSUBSCRIBE packets are free (3.1.2.4, 4.1). The session counts as not established, so the
    /// server may have none. The session keeps its capacity, which replaces the configured one.
    /// Returns `None` if a message of the session exceeds the size limit.
    pub fn with_session(alloc: Global, config: ClientConfig, session: Session) -> Option<ClientEnd>
        requires { IfSome config.window (λ window. 0 < window) }
        ensures there { IsSome result ↔ FitsWithin config.limits.most session }
        ensures end { IfSome result (λ client. client.link.end
            ≡ resumed config.window false session.sender.book session.receiver session.sender.last) }
        ensures capacity { IfSome result (λ client. client.link.capacity ≡ session.sender.capacity) }
        ensures limit { IfSome result (λ client. client.link.limit ≡ config.limits) }
        ensures output { IfSome result (λ client. client.link.output ≡ []) }
        ensures held { IfSome result (λ client. client.link.held ≡ []) }
        ensures config { IfSome result (λ client. client.config ≡ config) }
    {
        if !fits_within(config.limits, &session) {
            drop(config);
            drop(session);
            return None;
        }
        let link = Endpoint::with_session(alloc, config.limits, config.window, session, false);
        Some(ClientEnd { config, link })
    }

    /// Continues a saved session, without a connection; the identifiers of its SUBSCRIBE and
    /// UNSUBSCRIBE packets are free (3.1.2.4, 4.1). It is established if the saved one was. The
    /// session keeps its capacity, which replaces the configured one. Errors: `AnotherClient` if it
    /// was saved for another client identifier, `TooLarge` if one of its messages exceeds the size
    /// limit.
    pub fn with_saved(
        alloc: Global,
        config: ClientConfig,
        saved: Saved,
    ) -> Result<ClientEnd, LoadError>
        requires { IfSome config.window (λ window. 0 < window) }
        ensures another { IsErrOf result LoadError.AnotherClient ↔ NamesAnother saved.client config.id }
        ensures too_large { IsErrOf result LoadError.TooLarge
            ↔ ((NamesAnother saved.client config.id → ⊥) × (FitsWithin config.limits.most saved.session → ⊥)) }
        ensures only { IfErr result (λ why. (why ≡ LoadError.AnotherClient) ⊎ (why ≡ LoadError.TooLarge)) }
        ensures end { IfOk result (λ client. client.link.end
            ≡ resumed config.window saved.established saved.session.sender.book saved.session.receiver saved.session.sender.last) }
        ensures capacity { IfOk result (λ client. client.link.capacity ≡ saved.session.sender.capacity) }
        ensures limit { IfOk result (λ client. client.link.limit ≡ config.limits) }
        ensures output { IfOk result (λ client. client.link.output ≡ []) }
        ensures held { IfOk result (λ client. client.link.held ≡ []) }
        ensures config { IfOk result (λ client. client.config ≡ config) }
    {
        if names_another(&saved.client, &config.id) {
            drop(config);
            drop(saved);
            return Err(LoadError::AnotherClient);
        }
        if !fits_within(config.limits, &saved.session) {
            drop(config);
            drop(saved);
            return Err(LoadError::TooLarge);
        }
        let link = Endpoint::with_session(
            alloc,
            config.limits,
            config.window,
            saved.session,
            saved.established,
        );
        Ok(ClientEnd { config, link })
    }

    /// Appends the saved form of the session, version 2 (4.1): the client identifier, whether the
    /// session is established, and the unfinished messages in both directions. Identifiers of
    /// SUBSCRIBE and UNSUBSCRIBE are not saved. On `Err`, `out` is unchanged.
    pub fn save(&self, out: &mut Vec<u8>) -> Result<(), AllocError>
        ensures ok { OnOk result (out.new.items ≡ out.old.items ++ saved_form_two self.now.config.id self.now.link.end.known (kept_session self.now.link)) }
        ensures session { OnOk result (AreWithin 268435455 self.now.link.end.book.entries → IsSession (kept_session self.now.link)) }
        ensures err { OnErr result (out.new.items ≡ out.old.items) }
    {
        self.link
            .session
            .save_with_client(&self.config.id, self.link.known, out)
    }

    // The CONNECT that it begins a connection with.
    fn connect_packet(&self, clean: bool) -> Result<Connect, AllocError>
        ensures { IfOk result (λ connect. connect ≡ connect_of self.now.config clean) }
    {
        Ok(Connect {
            client_id: self.config.id.clone()?,
            clean_session: clean,
            keep_alive: self.config.keep_alive,
            will: self.config.will.clone()?,
            login: self.config.login.clone()?,
        })
    }

    /// Begins a connection at time `now`: sends CONNECT (3.1). Drops an open connection, and
    /// discards pending output of an earlier one. `clean` discards the session (3.1.2.4).
    pub fn connect(&mut self, now: u64, clean: bool) -> Result<(), AllocError>
        ensures end { OnOk result (self.new.link.end ≡ (connects (connect_of self.old.config clean) self.old.link.end).end) }
        ensures output { OnOk result (PutsOut (packets.Connect (connect_of self.old.config clean) ∷ []) [] self.new.link.output) }
        ensures held { OnOk result (self.new.link.held ≡ []) }
        ensures last_activity { OnOk result (self.new.link.last_activity ≡ now) }
        ensures room { OnOk result (self.new.link.room ≡ no_bytes self.old.link.room) }
        ensures limit { self.new.link.limit ≡ self.old.link.limit }
        ensures capacity { self.new.link.capacity ≡ self.old.link.capacity }
        ensures config { self.new.config ≡ self.old.config }
        ensures err { OnErr result (self.new ≡ self.old) }
    {
        let connect = self.connect_packet(clean)?;
        let packet = Packet::Connect(BoxedConnect::new(self.link.alloc, connect)?);
        let mut output = Output::new(self.link.alloc);
        output.append_packet(&packet)?;
        self.link.output = output;
        self.link.begin(clean, self.config.keep_alive, now);
        Ok(())
    }

    /// Processes bytes from the server, received at time `now`. Ignores them without a connection.
    /// Processes each complete packet in turn, up to one at which the end closes. Closes the end if
    /// an allocation fails.
    pub fn receive(&mut self, now: u64, piece: &[u8]) -> Progress
        ensures open { is_live self.old.link.end.state ≡ true → ClientReceives piece.now self.old.link self.new.link
            result.happenings result.acknowledged result.closed }
        ensures closed { is_live self.old.link.end.state ≡ false → self.new ≡ self.old }
        ensures nothing { is_live self.old.link.end.state ≡ false
            → (result.happenings ≡ []) × (result.acknowledged ≡ []) × (result.closed ≡ None) }
        ensures limit { self.new.link.limit ≡ self.old.link.limit }
        ensures capacity { self.new.link.capacity ≡ self.old.link.capacity }
        ensures last_activity { self.new.link.last_activity ≡ self.old.link.last_activity }
        ensures window { KeepsWindow self.old.link.end self.new.link.end }
        ensures config { self.new.config ≡ self.old.config }
    {
        self.link.receive(Role::Client, now, piece)
    }

    /// Processes a complete packet that is borrowed from a buffer, received at time `now`;
    /// `receive` decodes packets and does this with each. Ignores it without a connection. Closes
    /// the end if an allocation fails. While connected, that happens only for a packet that is
    /// answered, or with text, a payload or a list.
    pub fn on_view(&mut self, now: u64, view: &PacketView<'_>) -> Progress
        ensures open { is_live self.old.link.end.state ≡ true → ClientTakes now (packet_of view.now) self.old.link self.new.link
            result.happenings result.acknowledged result.closed }
        ensures closed { is_live self.old.link.end.state ≡ false → self.new ≡ self.old }
        ensures nothing { is_live self.old.link.end.state ≡ false
            → (result.happenings ≡ []) × (result.acknowledged ≡ []) × (result.closed ≡ None) }
        ensures within { is_up self.old.link.end.state ≡ true → is_plain (packet_of view.now) ≡ true
            → CanSend (client_gets (packet_of view.now) self.old.link.end).out self.old.link
            → Shows (client_gets (packet_of view.now) self.old.link.end) self.old.link self.new.link result.happenings result.acknowledged result.closed }
        ensures config { self.new.config ≡ self.old.config }
    {
        self.link.on_view(Role::Client, now, view)
    }

    /// Publishes a message. Returns its packet identifier if it has QoS 1 or 2 (2.3.1). Without a
    /// connection, a QoS 1 or 2 message is stored, and sent once the client has connected. Errors:
    /// `NotConnected` for QoS 0, `TooLarge`, `Full`, `Memory`, in this order.
    pub fn publish(&mut self, message: Message) -> Result<Option<PacketId>, PublishRefusal>
        ensures refused { IfSome (publish_refusal self.old.link.limit.most self.old.link.capacity message self.old.link.end)
            (λ why. result ≡ Err why) }
        ensures memory { IfNone (publish_refusal self.old.link.limit.most self.old.link.capacity message self.old.link.end)
            (IfErr result (λ why. why ≡ PublishRefusal.Memory)) }
        ensures ok { IfOk result (λ answer. Accepts answer message self.old.link self.new.link) }
        ensures config { self.new.config ≡ self.old.config }
        ensures err { OnErr result (self.new ≡ self.old) }
    {
        self.link.publish(PreparedMessage::new(message))
    }

    /// Subscribes. Returns the packet identifier of the SUBSCRIBE, which is in use until its SUBACK
    /// arrives (3.8). Errors: `NotConnected`, `TooLarge`, `Full`, `Memory`, in this order.
    pub fn subscribe(&mut self, requests: NonEmpty<Request>) -> Result<PacketId, PublishRefusal>
        ensures refused { IfSome (subscribe_refusal self.old.link.limit.most self.old.link.capacity requests self.old.link.end)
            (λ why. result ≡ Err why) }
        ensures memory { IfNone (subscribe_refusal self.old.link.limit.most self.old.link.capacity requests self.old.link.end)
            (IfErr result (λ why. why ≡ PublishRefusal.Memory)) }
        ensures ok { IfOk result (λ id. Requests id (subscribes id requests self.old.link.end) self.old.link self.new.link) }
        ensures config { self.new.config ≡ self.old.config }
        ensures err { OnErr result (self.new ≡ self.old) }
    {
        self.link.subscribe(requests)
    }

    /// Unsubscribes. Returns the packet identifier of the UNSUBSCRIBE, which is in use until its
    /// UNSUBACK arrives (3.10). Errors: `NotConnected`, `TooLarge`, `Full`, `Memory`, in this
    /// order.
    pub fn unsubscribe(
        &mut self,
        filters: NonEmpty<TopicFilter>,
    ) -> Result<PacketId, PublishRefusal>
        ensures refused { IfSome (unsubscribe_refusal self.old.link.limit.most self.old.link.capacity filters self.old.link.end)
            (λ why. result ≡ Err why) }
        ensures memory { IfNone (unsubscribe_refusal self.old.link.limit.most self.old.link.capacity filters self.old.link.end)
            (IfErr result (λ why. why ≡ PublishRefusal.Memory)) }
        ensures ok { IfOk result (λ id. Requests id (unsubscribes id filters self.old.link.end) self.old.link self.new.link) }
        ensures config { self.new.config ≡ self.old.config }
        ensures err { OnErr result (self.new ≡ self.old) }
    {
        self.link.unsubscribe(filters)
    }

    /// Sends DISCONNECT and closes (3.14). The session stays, without the identifiers of SUBSCRIBE
    /// and UNSUBSCRIBE; after clean session 1 it is discarded (3.1.2.4). Errors: `NotConnected`,
    /// `Memory`.
    pub fn disconnect(&mut self) -> Result<(), PublishRefusal>
        ensures refused { IfSome (leave_refusal self.old.link.end) (λ why. result ≡ Err why) }
        ensures memory { IfNone (leave_refusal self.old.link.end) (IfErr result (λ why. why ≡ PublishRefusal.Memory)) }
        ensures ok { OnOk result (Acts (leaves self.old.link.end) self.old.link self.new.link) }
        ensures config { self.new.config ≡ self.old.config }
        ensures err { OnErr result (self.new ≡ self.old) }
    {
        self.link.disconnect()
    }

    /// Call this regularly with the current time. Sends a PINGREQ if the keep-alive interval has
    /// elapsed since CONNECT or the last PINGREQ (3.1.2.10, 3.12). Never closes, so it returns
    /// `None`. Whether a [`Pong`](Happening::Pong) follows in time is for the caller to watch.
    pub fn tick(&mut self, now: u64) -> Result<Option<CloseReason>, AllocError>
        ensures ok { OnOk result (Ticks now self.old.link self.new.link) }
        ensures memory { OnErr result (pings self.old.link.last_activity now self.old.link.end ≡ true) }
        ensures closed { IfOk result (λ closed. closed ≡ None) }
        ensures config { self.new.config ≡ self.old.config }
        ensures err { OnErr result (self.new ≡ self.old) }
    {
        self.link.tick_client(now)?;
        Ok(None)
    }

    /// The time of the next PINGREQ: before it [`tick`](ClientEnd::tick) does nothing. `None` if
    /// none is due before the connection ends (3.1.2.10). Ask again after each other call.
    pub fn next_deadline(&self) -> Option<u64>
        ensures { IsDeadline (λ now. pings self.now.link.last_activity now self.now.link.end) result }
    {
        self.link.ping_deadline()
    }

    /// Reports that the connection is lost (4.2). Discards pending output.
    pub fn dropped(&mut self)
        ensures end { self.new.link.end ≡ over self.old.link.end }
        ensures output { self.new.link.output ≡ [] }
        ensures held { self.new.link.held ≡ [] }
        ensures limit { self.new.link.limit ≡ self.old.link.limit }
        ensures capacity { self.new.link.capacity ≡ self.old.link.capacity }
        ensures last_activity { self.new.link.last_activity ≡ self.old.link.last_activity }
        ensures room { self.new.link.room ≡ self.old.link.room }
        ensures config { self.new.config ≡ self.old.config }
    {
        self.link.drop_connection();
    }

    /// The bytes that must be written to the connection.
    pub fn output(&self) -> &[u8]
        ensures { result.now ≡ self.now.link.output }
    {
        self.link.output.as_slice()
    }

    /// Reports that the first `count` bytes of the output were written.
    pub fn take_output(&mut self, count: usize)
        requires { count ≤ length self.old.link.output }
        ensures { self.new ≡ record self.old {
          link = record self.old.link {
            output = drop count self.old.link.output;
            room = bytes_less count self.old.link.room;
          };
        } }
    {
        self.link.output.take(count);
    }

    /// Removes and returns all pending output.
    pub fn take_all_output(&mut self) -> ByteQueue
        ensures bytes { result ≡ self.old.link.output }
        ensures left { self.new ≡ record self.old { link = record self.old.link { output = []; room = no_bytes self.old.link.room } } }
    {
        self.link.take_all_output()
    }

    /// Exchanges the pending output for another queue.
    pub fn swap_output(&mut self, other: &mut ByteQueue)
        ensures end { self.new ≡ record self.old { link = record self.old.link { output = other.old; room = no_bytes self.old.link.room } } }
        ensures other { other.new ≡ self.old.link.output }
    {
        self.link.swap_output(other);
    }

    /// The state of the connection.
    pub fn state(&self) -> State
        ensures { result ≡ self.now.link.end.state }
    {
        self.link.state
    }

    /// The session.
    pub fn session(&self) -> Option<&Session>
        ensures book { IfSome result (λ session. session.now.sender.book ≡ self.now.link.end.book) }
        ensures received { IfSome result (λ session. session.now.receiver ≡ self.now.link.end.received) }
        ensures last { IfSome result (λ session. session.now.sender.last ≡ self.now.link.end.last) }
        ensures capacity { IfSome result (λ session. session.now.sender.capacity ≡ self.now.link.capacity) }
        ensures there { IsSome result }
    {
        Some(&self.link.session)
    }
}
