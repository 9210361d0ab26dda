//! Packets, one after another (4.6).

ghost use Rattle.std.specs.Prelude.{◌≡◌, ◌<◌, ◌⊎◌, true, false, IsOk, IfOk, OnOk, OnErr};
ghost use Rattle.mq_end.specs.Prelude.{Reply, closes, is_up, client_gets, client_up_gets, server_gets, server_up_gets, AreEncodable, FitsRoom, CanSend, is_exactly_once, Gives, Makes, Stays, gets_as};
ghost use Rattle.mq_end.specs.declared.reason.CloseReason.TheVariants as reasons;
ghost use Rattle.mq_end.specs.declared.state.State.TheVariants as states;

use crate::endpoint::Endpoint;
use crate::happening::Happening;
use crate::packet_outcome::PacketOutcome;
use crate::progress_builder::ProgressBuilder;
use crate::reason::CloseReason;
use crate::role::Role;
use crate::state::State;
use mq_packet::{NonEmpty, Packet, PacketId, SubAckCode};
use std::alloc::AllocError;

impl Endpoint {
    /// Processes a SUBACK at the client (3.9).
    fn take_suback(&mut self, id: PacketId, codes: NonEmpty<SubAckCode>) -> PacketOutcome
        ensures { Gives (client_up_gets (Packet.SubAck id codes) self.old.end) result self.old self.new }
    {
        let count = codes.as_slice().len();
        if !self.session.sender.awaits_suback(id, count) {
            return PacketOutcome::closes(self.close(CloseReason::Unexpected));
        }
        self.session.sender.release_id(id);
        PacketOutcome::tells(Happening::SubAck { id, codes })
    }

    /// Processes an UNSUBACK at the client (3.11).
    fn take_unsuback(&mut self, id: PacketId) -> PacketOutcome
        ensures { Gives (client_up_gets (Packet.UnsubAck id) self.old.end) result self.old self.new }
    {
        if !self.session.sender.awaits_unsuback(id) {
            return PacketOutcome::closes(self.close(CloseReason::Unexpected));
        }
        self.session.sender.release_id(id);
        PacketOutcome::tells(Happening::UnsubAck(id))
    }

    /// Processes a packet at a connected client.
    fn take_up_client(&mut self, packet: Packet) -> Result<PacketOutcome, AllocError>
        ensures ok { IfOk result (λ outcome. Gives (client_up_gets packet self.old.end) outcome self.old self.new) }
        ensures within { is_exactly_once packet ≡ false → CanSend (client_up_gets packet self.old.end).out self.old → IsOk result }
        ensures err { OnErr result (self.new ≡ self.old) }
    {
        match packet {
            Packet::SubAck { id, codes } => Ok(self.take_suback(id, codes)),
            Packet::UnsubAck(id) => Ok(self.take_unsuback(id)),
            Packet::PingResp => Ok(PacketOutcome::tells(Happening::Pong)),
            packet => self.take_flow(packet),
        }
    }

    /// Processes a packet at a connected server.
    fn take_up_server(&mut self, packet: Packet) -> Result<PacketOutcome, AllocError>
        ensures ok { IfOk result (λ outcome. Gives (server_up_gets packet self.old.end) outcome self.old self.new) }
        ensures within { is_exactly_once packet ≡ false → CanSend (server_up_gets packet self.old.end).out self.old → IsOk result }
        ensures err { OnErr result (self.new ≡ self.old) }
    {
        match packet {
            Packet::Subscribe { id, requests } => {
                Ok(PacketOutcome::tells(Happening::Subscribe { id, requests }))
            }
            Packet::Unsubscribe { id, filters } => {
                Ok(PacketOutcome::tells(Happening::Unsubscribe { id, filters }))
            }
            Packet::PingReq => {
                self.write(&Packet::PingResp)?;
                Ok(PacketOutcome::nothing())
            }
            Packet::Disconnect => Ok(PacketOutcome::closes(self.close(CloseReason::Left))),
            packet => self.take_flow(packet),
        }
    }

    /// Processes a packet at a client.
    fn take_client(&mut self, packet: Packet) -> Result<PacketOutcome, AllocError>
        ensures ok { IfOk result (λ outcome. Gives (client_gets packet self.old.end) outcome self.old self.new) }
        ensures up { is_up self.old.end.state ≡ true → is_exactly_once packet ≡ false
            → CanSend (client_gets packet self.old.end).out self.old → IsOk result }
        ensures err { OnErr result (self.new ≡ self.old) }
    {
        match self.state {
            State::Disconnected => Ok(PacketOutcome::nothing()),
            State::Connecting => self.open_client(packet),
            State::Connected => self.take_up_client(packet),
        }
    }

    /// Processes a packet at a server. On `Err` nothing changes; within the room that happens only
    /// for a stored identifier.
    #[inline(always)]
    pub(crate) fn take_server(&mut self, packet: Packet) -> Result<PacketOutcome, AllocError>
        ensures ok { IfOk result (λ outcome. Gives (server_gets packet self.old.end) outcome self.old self.new) }
        ensures up { is_up self.old.end.state ≡ true → is_exactly_once packet ≡ false
            → CanSend (server_gets packet self.old.end).out self.old → IsOk result }
        ensures connects { self.old.end.state ≡ states.Connecting → AreEncodable (server_gets packet self.old.end).out
            → FitsRoom (server_gets packet self.old.end).out self.old → IsOk result }
        ensures err { OnErr result (self.new ≡ self.old) }
    {
        match self.state {
            State::Disconnected => Ok(PacketOutcome::nothing()),
            State::Connecting => self.open_server(packet),
            State::Connected => self.take_up_server(packet),
        }
    }

    /// Processes a packet. On `Err` nothing changes.
    fn take_one(&mut self, role: Role, packet: Packet) -> Result<PacketOutcome, AllocError>
        ensures ok { IfOk result (λ outcome. Gives (gets_as role packet self.old.end) outcome self.old self.new) }
        ensures within { is_up self.old.end.state ≡ true → is_exactly_once packet ≡ false
            → CanSend (gets_as role packet self.old.end).out self.old → IsOk result }
        ensures err { OnErr result (self.new ≡ self.old) }
    {
        match role {
            Role::Client => self.take_client(packet),
            Role::Server => self.take_server(packet),
        }
    }

    /// Processes a packet and adds its result. Returns the reason if the end closed. On `Err`
    /// nothing changes.
    #[tactic(auto, using(crate::proofs::Outcomes::told_behind))]
    pub(crate) fn take(
        &mut self,
        role: Role,
        packet: Packet,
        told: &mut ProgressBuilder,
    ) -> Result<Option<CloseReason>, AllocError>
        ensures closed { IfOk result (λ closed. closed ≡ (gets_as role packet self.old.end).close) }
        ensures ok { OnOk result (Makes (gets_as role packet self.old.end) self.old self.new told.old told.new) }
        ensures within { is_up self.old.end.state ≡ true → is_exactly_once packet ≡ false
            → CanSend (gets_as role packet self.old.end).out self.old
            → 0 < told.old.happenings.room → 0 < told.old.acknowledged.room → IsOk result }
        ensures err { OnErr result (Stays self.old self.new told.old told.new) }
    {
        told.reserve()?;
        let outcome = self.take_one(role, packet)?;
        Ok(told.add(outcome))
    }

    /// Processes a packet, adds its result, and closes the end if an allocation fails. Returns the
    /// reason if the end closed.
    pub(crate) fn take_or_close(
        &mut self,
        role: Role,
        packet: Packet,
        told: &mut ProgressBuilder,
    ) -> Option<CloseReason>
        ensures made { (r : Reply) × ((r ≡ gets_as role packet self.old.end) ⊎ (r ≡ closes reasons.Memory self.old.end))
            × (result ≡ r.close) × Makes r self.old self.new told.old told.new }
        ensures within { is_up self.old.end.state ≡ true → is_exactly_once packet ≡ false
            → CanSend (gets_as role packet self.old.end).out self.old
            → 0 < told.old.happenings.room → 0 < told.old.acknowledged.room
            → (result ≡ (gets_as role packet self.old.end).close)
            × Makes (gets_as role packet self.old.end) self.old self.new told.old told.new }
    {
        match self.take(role, packet, told) {
            Ok(closed) => closed,
            Err(_) => Some(self.close(CloseReason::Memory)),
        }
    }
}
