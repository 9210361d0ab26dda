//! Received bytes (4.2, 4.8).

ghost use Rattle.std.specs.Prelude.{◌≡◌, ◌≤◌, ◌++◌, [], length, take, true, false, IsOk, IfOk, IfErr, IfSome, IfNone, OnErr, Ok, Err, None, Some};
ghost use Rattle.mq_end.specs.Prelude.{Q2, fits_delivery, IsFront, Pending, ReadsWithin, packet_of, same_qos, Reply, is_live, is_up, KeepsWindow, AreEncodable, FitsRoom, CanSend, is_exactly_once, is_plain, gets_as, server_gets, Acts, HeardAs, Hears, IsBreak, ReceivesAs, Shows, TakesAs, TakesNext, TakesPacket, heard_as, is_answered, no_outcome, outcome_of};
ghost use Rattle.mq_end.specs.declared.state.State.TheVariants as states;

use crate::endpoint::Endpoint;
use crate::packet_outcome::PacketOutcome;
use crate::progress::Progress;
use crate::progress_builder::ProgressBuilder;
use crate::publish_outcome::PublishOutcome;
use crate::reason::CloseReason;
use crate::role::Role;
use crate::state::State;
use mq_decode::{DecodeError, DecodeFault, FaultKind, PacketView, View, reads_again, view};
use mq_packet::{Delivery, Message, Packet, RefusalCode};
use std::alloc::AllocError;

impl Endpoint {
    /// Takes the next complete packet from the held bytes and a piece. Returns it with the number
    /// of bytes used of the piece, or `None` if they hold an incomplete packet; then the whole
    /// piece is held. After an error nothing is held.
    fn next_packet(&mut self, piece: &[u8]) -> Result<Option<(Packet, usize)>, DecodeError>
        ensures within { IfOk result (λ o. IfSome o (λ x. x.1 ≤ length piece.now)) }
        ensures packet { IfOk result (λ o. IfSome o
            (λ x. ReadsWithin self.old.limit x.0 (self.old.held ++ take x.1 piece.now))) }
        ensures taken { IfOk result (λ o. IfSome o (λ x. self.new.held ≡ [])) }
        ensures less { IfOk result (λ o. IfNone o (Pending self.old.limit (self.old.held ++ piece.now))) }
        ensures holds { IfOk result (λ o. IfNone o (self.new.held ≡ self.old.held ++ piece.now)) }
        ensures err { IfErr result (λ e. IsFront self.old.limit (self.old.held ++ piece.now) (Err e)) }
        ensures state { self.new ≡ record self.old { held = self.new.held } }
    {
        self.decoder.next_packet(self.alloc, piece)
    }

    /// Whether a malformed packet is answered: a first CONNECT of another protocol level is
    /// (3.1.2.2).
    fn is_answered(&self, role: Role, fault: DecodeFault) -> bool
        ensures { result ≡ is_answered role fault self.now.end }
    {
        match role {
            Role::Client => false,
            Role::Server => {
                self.state != State::Connected && matches!(fault.kind, FaultKind::ProtocolLevel)
            }
        }
    }

    /// Bytes that are not a packet arrived (4.8).
    fn break_off(&mut self, role: Role, fault: DecodeFault) -> CloseReason
        ensures { (r : Reply) × IsBreak role fault self.old.end r × (Some result ≡ r.close) × Acts r self.old self.new }
    {
        if !self.is_answered(role, fault) {
            return self.close(CloseReason::Fault(fault));
        }
        match self.refuse(RefusalCode::UnacceptableProtocolVersion) {
            Ok(reason) => reason,
            Err(_) => self.close(CloseReason::Memory),
        }
    }

    /// Records the time of the server's last complete packet, for its keep-alive (3.1.2.10).
    fn hear(&mut self, role: Role, now: u64, came: bool)
        ensures { self.new ≡ record self.old { last_activity = heard_as role came now self.old.last_activity } }
    {
        if came && role == Role::Server {
            self.last_activity = now;
        }
    }

    /// Processes a packet that is complete at the front of a piece, if the end holds no bytes.
    /// Returns the size of the packet, and the reason if the end closed. Returns `None`, and
    /// changes nothing, if there is no such packet.
    fn take_lying(
        &mut self,
        role: Role,
        piece: &[u8],
        told: &mut ProgressBuilder,
    ) -> Option<(usize, Option<CloseReason>)>
        ensures packet { IfSome result (λ x. TakesNext role piece.now x.0 x.1 self.old self.new told.old told.new) }
        ensures none { IfNone result (self.new ≡ self.old) }
        ensures told { IfNone result (told.new ≡ told.old) }
    {
        if piece.is_empty() || self.decoder.held() > 0 {
            return None;
        }
        match view(piece, self.limits) {
            View::Whole(packet, size) => {
                Some((size, self.take_lent_or_close(role, &packet, told)))
            }
            View::More | View::Fault(_) => None,
        }
    }

    /// Processes the next complete packet of the held bytes and a piece. Returns the number of
    /// bytes used of the piece, and the reason if the end closed. Returns `None` if they hold an
    /// incomplete packet; then the whole piece is held. After an error nothing is held.
    fn take_next(
        &mut self,
        role: Role,
        piece: &[u8],
        told: &mut ProgressBuilder,
    ) -> Result<Option<(usize, Option<CloseReason>)>, DecodeError>
        ensures packet { IfOk result (λ o. IfSome o (λ x. TakesNext role piece.now x.0 x.1 self.old self.new told.old told.new)) }
        ensures less { IfOk result (λ o. IfNone o (Pending self.old.limit (self.old.held ++ piece.now))) }
        ensures holds { IfOk result (λ o. IfNone o (self.new ≡ record self.old { held = self.old.held ++ piece.now })) }
        ensures told { IfOk result (λ o. IfNone o (told.new ≡ told.old)) }
        ensures err { IfErr result (λ e. IsFront self.old.limit (self.old.held ++ piece.now) (Err e)) }
        ensures err_state { OnErr result (self.new ≡ record self.old { held = self.new.held }) }
        ensures err_told { OnErr result (told.new ≡ told.old) }
    {
        if let Some(taken) = self.take_lying(role, piece, told) {
            return Ok(Some(taken));
        }
        match self.next_packet(piece) {
            Ok(Some((packet, size))) => Ok(Some((size, self.take_or_close(role, packet, told)))),
            Ok(None) => Ok(None),
            Err(error) => Err(error),
        }
    }

    /// Processes bytes while there is a connection, packet by packet.
    fn take_bytes(
        &mut self,
        role: Role,
        now: u64,
        piece: &[u8],
        told: &mut ProgressBuilder,
    ) -> Option<CloseReason>
        ensures { Hears role now piece.now self.old self.new told.old told.new result }
    {
        reads_again();
        let mut used = 0;
        let mut came = false;
        loop {
            let (_, rest) = piece.split_at(used);
            let size = match self.take_next(role, rest, told) {
                Ok(Some((size, None))) => size,
                Ok(Some((_, Some(reason)))) => return Some(reason),
                Ok(None) => {
                    self.hear(role, now, came);
                    return None;
                }
                Err(DecodeError::Memory) => return Some(self.close(CloseReason::Memory)),
                Err(DecodeError::Fault(fault)) => return Some(self.break_off(role, fault)),
            };
            used += size;
            came = true;
            if used == piece.len() {
                // Nothing is held, and nothing is left to look at.
                self.hear(role, now, came);
                return None;
            }
        }
    }

    /// Processes a complete packet at the server. Ignores it without a connection. On `Err` nothing
    /// changes; within the reserved room that happens only for a stored identifier.
    #[inline(always)]
    pub(crate) fn take_packet(
        &mut self,
        now: u64,
        packet: Packet,
    ) -> Result<PacketOutcome, AllocError>
        ensures open { is_live self.old.end.state ≡ true → IfOk result (λ outcome. TakesPacket now packet outcome self.old self.new) }
        ensures closed { is_live self.old.end.state ≡ false → self.new ≡ self.old }
        ensures nothing { is_live self.old.end.state ≡ false → result ≡ Ok no_outcome }
        ensures up { is_up self.old.end.state ≡ true → is_exactly_once packet ≡ false
            → CanSend (server_gets packet self.old.end).out self.old → IsOk result }
        ensures connects { self.old.end.state ≡ states.Connecting → AreEncodable (server_gets packet self.old.end).out
            → FitsRoom (server_gets packet self.old.end).out self.old → IsOk result }
        ensures err { OnErr result (self.new ≡ self.old) }
    {
        if self.state == State::Disconnected {
            return Ok(PacketOutcome::nothing());
        }
        let outcome = self.take_server(packet)?;
        self.hear(Role::Server, now, outcome.closed.is_none());
        Ok(outcome)
    }

    /// Processes a PUBLISH at the server (3.3, 4.3) like `take_packet`, but the caller keeps the
    /// message.
    #[inline(always)]
    pub(crate) fn receive_publish(
        &mut self,
        now: u64,
        message: &Message,
        delivery: Option<Delivery>,
    ) -> Result<PublishOutcome, AllocError>
        requires fits { fits_delivery message.now.qos delivery ≡ true }
        ensures open { is_live self.old.end.state ≡ true → IfOk result (λ handing.
            TakesPacket now (Packet.Publish (record { message = message.now; delivery = delivery })) (outcome_of handing message.now) self.old self.new) }
        ensures closed { is_live self.old.end.state ≡ false → self.new ≡ self.old }
        ensures nothing { is_live self.old.end.state ≡ false → result ≡ Ok PublishOutcome.Nothing }
        ensures up { is_up self.old.end.state ≡ true → same_qos Q2 message.now.qos ≡ false
            → CanSend (server_gets (Packet.Publish (record { message = message.now; delivery = delivery })) self.old.end).out self.old → IsOk result }
        ensures err { OnErr result (self.new ≡ self.old) }
    {
        match self.state {
            State::Disconnected => Ok(PublishOutcome::Nothing),
            State::Connecting => Ok(PublishOutcome::Closed(self.close(CloseReason::Unexpected))),
            State::Connected => {
                let handing = self.take_delivery(message.qos, delivery)?;
                self.hear(Role::Server, now, handing.closed().is_none());
                Ok(handing)
            }
        }
    }

    /// Processes a complete packet. Ignores it without a connection, and closes the end if an
    /// allocation fails.
    pub(crate) fn on_packet(&mut self, role: Role, now: u64, packet: Packet) -> Progress
        ensures open { is_live self.old.end.state ≡ true → TakesAs role now packet self.old self.new
            result.happenings result.acknowledged result.closed }
        ensures closed { is_live self.old.end.state ≡ false → self.new ≡ self.old }
        ensures nothing { is_live self.old.end.state ≡ false
            → (result.happenings ≡ []) × (result.acknowledged ≡ []) × (result.closed ≡ None) }
        ensures within { is_up self.old.end.state ≡ true → is_exactly_once packet ≡ false
            → CanSend (gets_as role packet self.old.end).out self.old
            → Shows (gets_as role packet self.old.end) self.old self.new result.happenings result.acknowledged result.closed }
    {
        let mut told = ProgressBuilder::new(self.alloc);
        if self.state == State::Disconnected {
            return told.into_progress(None);
        }
        let closed = self.take_or_close(role, packet, &mut told);
        self.hear(role, now, closed.is_none());
        told.into_progress(closed)
    }

    /// Processes a complete borrowed packet like `on_packet`. An acknowledgement is not copied.
    pub(crate) fn on_view(&mut self, role: Role, now: u64, view: &PacketView<'_>) -> Progress
        ensures open { is_live self.old.end.state ≡ true → TakesAs role now (packet_of view.now) self.old self.new
            result.happenings result.acknowledged result.closed }
        ensures closed { is_live self.old.end.state ≡ false → self.new ≡ self.old }
        ensures nothing { is_live self.old.end.state ≡ false
            → (result.happenings ≡ []) × (result.acknowledged ≡ []) × (result.closed ≡ None) }
        ensures within { is_up self.old.end.state ≡ true → is_plain (packet_of view.now) ≡ true
            → CanSend (gets_as role (packet_of view.now) self.old.end).out self.old
            → Shows (gets_as role (packet_of view.now) self.old.end) self.old self.new result.happenings result.acknowledged result.closed }
    {
        let mut told = ProgressBuilder::new(self.alloc);
        if self.state == State::Disconnected {
            return told.into_progress(None);
        }
        let closed = self.take_lent_or_close(role, view, &mut told);
        self.hear(role, now, closed.is_none());
        told.into_progress(closed)
    }

    /// Processes received bytes. Ignores them without a connection.
    pub(crate) fn receive(&mut self, role: Role, now: u64, piece: &[u8]) -> Progress
        ensures open { is_live self.old.end.state ≡ true → ReceivesAs role piece.now self.old self.new
            result.happenings result.acknowledged result.closed }
        ensures closed { is_live self.old.end.state ≡ false → self.new ≡ self.old }
        ensures nothing { is_live self.old.end.state ≡ false
            → (result.happenings ≡ []) × (result.acknowledged ≡ []) × (result.closed ≡ None) }
        ensures limit { self.new.limit ≡ self.old.limit }
        ensures capacity { self.new.capacity ≡ self.old.capacity }
        ensures window { KeepsWindow self.old.end self.new.end }
        ensures heard { is_live self.old.end.state ≡ true → HeardAs role now (self.old.held ++ piece.now) result.closed self.old self.new }
    {
        let mut told = ProgressBuilder::new(self.alloc);
        if self.state == State::Disconnected {
            return told.into_progress(None);
        }
        let closed = self.take_bytes(role, now, piece, &mut told);
        told.into_progress(closed)
    }
}
