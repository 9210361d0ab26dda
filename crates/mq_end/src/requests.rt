//! Requests to the other end, and responses to its requests (3.8 to 3.12, 3.14).

ghost use Rattle.std.specs.Prelude.{◌≡◌, ℕ, ◌+◌, List, ◌∷◌, [], length, true, false, not, if◌then◌else◌, nat_lt, IsOk, IfOk, IfErr, IfSome, IfNone, OnOk, OnErr, Err, None, Some};
ghost use Rattle.mq_end.specs.Prelude.{Message, fields, is_full, claim, IsFree, is_up, sends_packets, subscribe_size, unsubscribe_size, suback_size, unsuback_size, subscribe_refusal, unsubscribe_refusal, leave_refusal, subscribes, unsubscribes, leaves, answer_refusal, suback_refusal, unsuback_refusal, subacks, unsubacks, is_due, pings, server_ticks, HasRoom, whole_size, Acts, Requests, Ticks};
ghost use Rattle.mq_end.specs.declared.refusal.PublishRefusal.TheVariants as refusals;

use crate::deadline::is_late;
use crate::endpoint::Endpoint;
use crate::laws::size_laws;
use crate::reason::CloseReason;
use crate::refusal::PublishRefusal;
use crate::state::State;
use mq_flow::Claim;
use mq_packet::{NonEmpty, Packet, PacketId, Request, SubAckCode};
use mq_topic::TopicFilter;
use std::alloc::AllocError;

// Whether the remaining length of a SUBSCRIBE is over a limit (2.2.3, 3.8).
fn is_subscribe_over(limit: u32, requests: &[Request]) -> bool
    ensures { result ≡ nat_lt limit (subscribe_size requests.now) }
{
    let limit = limit as usize;
    let mut size = 2;
    for request in requests {
        if size > limit {
            return true;
        }
        size += 3 + request.filter.as_str().len();
    }
    size > limit
}

// Whether the remaining length of an UNSUBSCRIBE is over a limit (2.2.3, 3.10).
fn is_unsubscribe_over(limit: u32, filters: &[TopicFilter]) -> bool
    ensures { result ≡ nat_lt limit (unsubscribe_size filters.now) }
{
    let limit = limit as usize;
    let mut size = 2;
    for filter in filters {
        if size > limit {
            return true;
        }
        size += 2 + filter.as_str().len();
    }
    size > limit
}

impl Endpoint {
    /// Why a packet that needs an identifier is refused (2.3.1), unless an allocation fails.
    fn request_refusal(&self, too_large: bool) -> Option<PublishRefusal>
        ensures { result ≡ (if not (is_up self.now.end.state) then Some refusals.NotConnected else
            (if too_large then Some refusals.TooLarge else
            (if is_full self.now.capacity self.now.end.book then Some refusals.Full else None))) }
    {
        if self.state != State::Connected {
            return Some(PublishRefusal::NotConnected);
        }
        if too_large {
            return Some(PublishRefusal::TooLarge);
        }
        if self.session.sender.left() == 0 {
            return Some(PublishRefusal::Full);
        }
        None
    }

    /// Why a SUBSCRIBE is refused, unless an allocation fails (3.8).
    fn subscribe_refusal(&self, requests: &[Request]) -> Option<PublishRefusal>
        ensures { result ≡ subscribe_refusal self.now.limit.most self.now.capacity requests.now self.now.end }
    {
        let too_large = is_subscribe_over(self.limits.max_packet(), requests);
        self.request_refusal(too_large)
    }

    /// Why an UNSUBSCRIBE is refused, unless an allocation fails (3.10).
    fn unsubscribe_refusal(&self, filters: &[TopicFilter]) -> Option<PublishRefusal>
        ensures { result ≡ unsubscribe_refusal self.now.limit.most self.now.capacity filters.now self.now.end }
    {
        let too_large = is_unsubscribe_over(self.limits.max_packet(), filters);
        self.request_refusal(too_large)
    }

    /// Sends a packet that uses this identifier (2.3.1).
    fn write_claimed(
        &mut self,
        id: PacketId,
        packet: &Packet,
        kind: Claim,
        count: usize,
    ) -> Result<(), AllocError>
        requires free { IsFree self.old.end.book id }
        requires room { is_full self.old.capacity self.old.end.book ≡ false }
        ensures ok { OnOk result (Acts (sends_packets (packet.now ∷ [])
            (record self.old.end { book = claim id kind count self.old.end.book; last = id })) self.old self.new) }
        ensures err { OnErr result (self.new ≡ self.old) }
    {
        let before = self.output.len();
        self.write(packet)?;
        let claimed = self.session.sender.claim_as(id, kind, count);
        if claimed.is_err() {
            self.output.truncate(before);
        }
        claimed
    }

    /// Sends a SUBSCRIBE with the next identifier, and returns it (3.8).
    fn write_subscribe(&mut self, requests: NonEmpty<Request>) -> Result<PacketId, AllocError>
        requires { is_full self.old.capacity self.old.end.book ≡ false }
        ensures ok { IfOk result (λ id. Requests id (subscribes id requests self.old.end) self.old self.new) }
        ensures err { OnErr result (self.new ≡ self.old) }
    {
        let id = self.session.sender.next_id().unwrap();
        let count = requests.as_slice().len();
        let packet = Packet::Subscribe { id, requests };
        self.write_claimed(id, &packet, Claim::Subscribe, count)?;
        Ok(id)
    }

    /// Sends an UNSUBSCRIBE with the next identifier, and returns it (3.10).
    fn write_unsubscribe(&mut self, filters: NonEmpty<TopicFilter>) -> Result<PacketId, AllocError>
        requires { is_full self.old.capacity self.old.end.book ≡ false }
        ensures ok { IfOk result (λ id. Requests id (unsubscribes id filters self.old.end) self.old self.new) }
        ensures err { OnErr result (self.new ≡ self.old) }
    {
        let id = self.session.sender.next_id().unwrap();
        let count = filters.as_slice().len();
        let packet = Packet::Unsubscribe { id, filters };
        self.write_claimed(id, &packet, Claim::Unsubscribe, count)?;
        Ok(id)
    }

    /// Subscribes. Returns the identifier of the SUBSCRIBE (3.8).
    pub(crate) fn subscribe(
        &mut self,
        requests: NonEmpty<Request>,
    ) -> Result<PacketId, PublishRefusal>
        ensures refused { IfSome (subscribe_refusal self.old.limit.most self.old.capacity requests self.old.end)
            (λ why. result ≡ Err why) }
        ensures memory { IfNone (subscribe_refusal self.old.limit.most self.old.capacity requests self.old.end)
            (IfErr result (λ why. why ≡ PublishRefusal.Memory)) }
        ensures ok { IfOk result (λ id. Requests id (subscribes id requests self.old.end) self.old self.new) }
        ensures err { OnErr result (self.new ≡ self.old) }
    {
        if let Some(why) = self.subscribe_refusal(requests.as_slice()) {
            return Err(why);
        }
        match self.write_subscribe(requests) {
            Ok(id) => Ok(id),
            Err(_) => Err(PublishRefusal::Memory),
        }
    }

    /// Unsubscribes. Returns the identifier of the UNSUBSCRIBE (3.10).
    pub(crate) fn unsubscribe(
        &mut self,
        filters: NonEmpty<TopicFilter>,
    ) -> Result<PacketId, PublishRefusal>
        ensures refused { IfSome (unsubscribe_refusal self.old.limit.most self.old.capacity filters self.old.end)
            (λ why. result ≡ Err why) }
        ensures memory { IfNone (unsubscribe_refusal self.old.limit.most self.old.capacity filters self.old.end)
            (IfErr result (λ why. why ≡ PublishRefusal.Memory)) }
        ensures ok { IfOk result (λ id. Requests id (unsubscribes id filters self.old.end) self.old self.new) }
        ensures err { OnErr result (self.new ≡ self.old) }
    {
        if let Some(why) = self.unsubscribe_refusal(filters.as_slice()) {
            return Err(why);
        }
        match self.write_unsubscribe(filters) {
            Ok(id) => Ok(id),
            Err(_) => Err(PublishRefusal::Memory),
        }
    }

    /// Sends DISCONNECT and closes (3.14).
    pub(crate) fn disconnect(&mut self) -> Result<(), PublishRefusal>
        ensures refused { IfSome (leave_refusal self.old.end) (λ why. result ≡ Err why) }
        ensures memory { IfNone (leave_refusal self.old.end) (IfErr result (λ why. why ≡ PublishRefusal.Memory)) }
        ensures ok { OnOk result (Acts (leaves self.old.end) self.old self.new) }
        ensures err { OnErr result (self.new ≡ self.old) }
    {
        if self.state != State::Connected {
            return Err(PublishRefusal::NotConnected);
        }
        if self.write(&Packet::Disconnect).is_err() {
            return Err(PublishRefusal::Memory);
        }
        self.end_connection();
        Ok(())
    }

    /// Whether a keep-alive has elapsed (3.1.2.10).
    fn is_due(&self, now: u64) -> bool
        ensures { result ≡ is_due self.now.last_activity self.now.end.keep_alive now }
    {
        let wait = 1_000 * u64::from(self.keep_alive);
        wait > 0 && now >= self.last_activity && now - self.last_activity >= wait
    }

    /// Sends a PINGREQ if one is due (3.12).
    pub(crate) fn tick_client(&mut self, now: u64) -> Result<(), AllocError>
        ensures ok { OnOk result (Ticks now self.old self.new) }
        ensures memory { OnErr result (pings self.old.last_activity now self.old.end ≡ true) }
        ensures err { OnErr result (self.new ≡ self.old) }
    {
        if self.state == State::Connected && self.is_due(now) {
            self.write(&Packet::PingReq)?;
            self.last_activity = now;
        }
        Ok(())
    }

    /// Closes the server's end if the client is late (3.1.2.10).
    pub(crate) fn tick_server(&mut self, now: u64) -> Option<CloseReason>
        ensures closed { result ≡ (server_ticks self.old.last_activity now self.old.end).close }
        ensures state { Acts (server_ticks self.old.last_activity now self.old.end) self.old self.new }
    {
        if self.state == State::Connected && is_late(self.last_activity, self.keep_alive, now) {
            return Some(self.close(CloseReason::KeepAlive));
        }
        None
    }

    /// Sends a response with this remaining length (2.2.3).
    fn answer(&mut self, size: usize, packet: &Packet) -> Result<(), PublishRefusal>
        requires { size ≡ length (fields packet.now) }
        ensures refused { IfSome (answer_refusal self.old.limit.most size self.old.end) (λ why. result ≡ Err why) }
        ensures memory { IfNone (answer_refusal self.old.limit.most size self.old.end)
            (IfErr result (λ why. why ≡ PublishRefusal.Memory)) }
        ensures ok { OnOk result (Acts (sends_packets (packet.now ∷ []) self.old.end) self.old self.new) }
        ensures kept { answer_refusal self.old.limit.most size self.old.end ≡ None → (ms : List Message) (more : ℕ)
            → HasRoom ms (whole_size size + more) self.old → IsOk result × HasRoom ms more self.new }
        ensures err { OnErr result (self.new ≡ self.old) }
    {
        if self.state != State::Connected {
            return Err(PublishRefusal::NotConnected);
        }
        if size > self.limits.max_packet() as usize {
            return Err(PublishRefusal::TooLarge);
        }
        match self.write(packet) {
            Ok(()) => Ok(()),
            Err(_) => Err(PublishRefusal::Memory),
        }
    }

    /// Answers a SUBSCRIBE (3.9).
    pub(crate) fn suback(
        &mut self,
        id: PacketId,
        codes: NonEmpty<SubAckCode>,
    ) -> Result<(), PublishRefusal>
        ensures refused { IfSome (suback_refusal self.old.limit.most codes self.old.end) (λ why. result ≡ Err why) }
        ensures memory { IfNone (suback_refusal self.old.limit.most codes self.old.end)
            (IfErr result (λ why. why ≡ PublishRefusal.Memory)) }
        ensures ok { OnOk result (Acts (subacks id codes self.old.end) self.old self.new) }
        ensures kept { suback_refusal self.old.limit.most codes self.old.end ≡ None → (ms : List Message) (more : ℕ)
            → HasRoom ms (whole_size (suback_size codes) + more) self.old → IsOk result × HasRoom ms more self.new }
        ensures err { OnErr result (self.new ≡ self.old) }
    {
        size_laws();
        let size = 2 + codes.as_slice().len();
        self.answer(size, &Packet::SubAck { id, codes })
    }

    /// Answers an UNSUBSCRIBE (3.11).
    pub(crate) fn unsuback(&mut self, id: PacketId) -> Result<(), PublishRefusal>
        ensures refused { IfSome (unsuback_refusal self.old.limit.most self.old.end) (λ why. result ≡ Err why) }
        ensures memory { IfNone (unsuback_refusal self.old.limit.most self.old.end)
            (IfErr result (λ why. why ≡ PublishRefusal.Memory)) }
        ensures ok { OnOk result (Acts (unsubacks id self.old.end) self.old self.new) }
        ensures kept { unsuback_refusal self.old.limit.most self.old.end ≡ None → (ms : List Message) (more : ℕ)
            → HasRoom ms (whole_size unsuback_size + more) self.old → IsOk result × HasRoom ms more self.new }
        ensures err { OnErr result (self.new ≡ self.old) }
    {
        size_laws();
        self.answer(2, &Packet::UnsubAck(id))
    }
}
