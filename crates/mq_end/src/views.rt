//! Packets that are borrowed from a buffer (4.3, 4.6). The end copies the message of a PUBLISH;
//! acknowledgements need no copy.

ghost use Rattle.std.specs.Prelude.{◌≡◌, ◌<◌, ◌⊎◌, true, IsOk, IfOk, OnOk, OnErr};
ghost use Rattle.mq_end.specs.Prelude.{packet_of, Reply, closes, is_up, flow_gets, CanSend, is_plain, Makes, Stays, gets_as};
ghost use Rattle.mq_packet.specs.declared.packet.Packet.TheVariants as packets;
ghost use Rattle.mq_end.specs.declared.reason.CloseReason.TheVariants as reasons;

use crate::endpoint::Endpoint;
use crate::happening::Happening;
use crate::progress_builder::ProgressBuilder;
use crate::reason::CloseReason;
use crate::role::Role;
use crate::state::State;
use mq_decode::{PacketView, PublishView};
use mq_packet::{Packet, PacketId};
use mq_topic::Qos;
use std::alloc::AllocError;

impl Endpoint {
    /// Processes a borrowed PUBLISH while connected (3.3, 4.3). Returns the reason if the end
    /// closed. On `Err` nothing changes.
    fn take_lent_publish(
        &mut self,
        publish: &PublishView<'_>,
        told: &mut ProgressBuilder,
    ) -> Result<Option<CloseReason>, AllocError>
        ensures closed { IfOk result (λ closed. closed ≡ (flow_gets (packets.Publish publish.now.publish) self.old.end).close) }
        ensures ok { OnOk result (Makes (flow_gets (packets.Publish publish.now.publish) self.old.end) self.old self.new told.old told.new) }
        ensures err { OnErr result (Stays self.old self.new told.old told.new) }
    {
        told.reserve()?;
        let message = publish.message(self.alloc)?;
        match (message.qos, publish.delivery()) {
            (Qos::Q0, None) => {
                told.happenings.push(Happening::Handed(message));
                Ok(None)
            }
            (_, delivery) => {
                let outcome = self.take_message(delivery, message)?;
                Ok(told.add(outcome))
            }
        }
    }

    /// Processes a PUBACK while connected (3.4, 4.3.2). Returns the reason if the end closed. On
    /// `Err` nothing changes.
    fn take_lent_puback(
        &mut self,
        id: PacketId,
        told: &mut ProgressBuilder,
    ) -> Result<Option<CloseReason>, AllocError>
        ensures closed { IfOk result (λ closed. closed ≡ (flow_gets (packets.PubAck id) self.old.end).close) }
        ensures ok { OnOk result (Makes (flow_gets (packets.PubAck id) self.old.end) self.old self.new told.old told.new) }
        ensures within { 0 < told.old.happenings.room → 0 < told.old.acknowledged.room → IsOk result }
        ensures err { OnErr result (Stays self.old self.new told.old told.new) }
    {
        told.reserve()?;
        let outcome = self.take_puback(id);
        Ok(told.add(outcome))
    }

    /// Copies a borrowed packet and processes the copy.
    fn take_owned(
        &mut self,
        role: Role,
        view: &PacketView<'_>,
        told: &mut ProgressBuilder,
    ) -> Result<Option<CloseReason>, AllocError>
        ensures closed { IfOk result (λ closed. closed ≡ (gets_as role (packet_of view.now) self.old.end).close) }
        ensures ok { OnOk result (Makes (gets_as role (packet_of view.now) self.old.end) self.old self.new told.old told.new) }
        ensures err { OnErr result (Stays self.old self.new told.old told.new) }
    {
        let packet = view.owned(self.alloc)?;
        self.take(role, packet, told)
    }

    /// Processes a borrowed packet while connected.
    fn take_lent_up(
        &mut self,
        role: Role,
        view: &PacketView<'_>,
        told: &mut ProgressBuilder,
    ) -> Result<Option<CloseReason>, AllocError>
        requires up { is_up self.old.end.state ≡ true }
        ensures closed { IfOk result (λ closed. closed ≡ (gets_as role (packet_of view.now) self.old.end).close) }
        ensures ok { OnOk result (Makes (gets_as role (packet_of view.now) self.old.end) self.old self.new told.old told.new) }
        ensures within { is_plain (packet_of view.now) ≡ true
            → CanSend (gets_as role (packet_of view.now) self.old.end).out self.old
            → 0 < told.old.happenings.room → 0 < told.old.acknowledged.room → IsOk result }
        ensures err { OnErr result (Stays self.old self.new told.old told.new) }
    {
        match view {
            PacketView::Publish(publish) => return self.take_lent_publish(publish, told),
            PacketView::PubAck(id) => return self.take_lent_puback(*id, told),
            PacketView::PubRec(id) => self.take_pubrec(*id)?,
            PacketView::PubRel(id) => self.take_pubrel(*id)?,
            PacketView::PubComp(id) => self.take_pubcomp(*id),
            PacketView::ConnAck(answer) => {
                return self.take(role, Packet::ConnAck(*answer), told);
            }
            PacketView::UnsubAck(id) => return self.take(role, Packet::UnsubAck(*id), told),
            PacketView::PingReq => return self.take(role, Packet::PingReq, told),
            PacketView::PingResp => return self.take(role, Packet::PingResp, told),
            PacketView::Disconnect => return self.take(role, Packet::Disconnect, told),
            PacketView::Connect(_)
            | PacketView::Subscribe { .. }
            | PacketView::SubAck { .. }
            | PacketView::Unsubscribe { .. } => return self.take_owned(role, view, told),
        }
        Ok(None)
    }

    /// Processes a borrowed packet. Returns the reason if the end closed. On `Err` nothing changes.
    fn take_lent(
        &mut self,
        role: Role,
        view: &PacketView<'_>,
        told: &mut ProgressBuilder,
    ) -> Result<Option<CloseReason>, AllocError>
        ensures closed { IfOk result (λ closed. closed ≡ (gets_as role (packet_of view.now) self.old.end).close) }
        ensures ok { OnOk result (Makes (gets_as role (packet_of view.now) self.old.end) self.old self.new told.old told.new) }
        ensures within { is_up self.old.end.state ≡ true → is_plain (packet_of view.now) ≡ true
            → CanSend (gets_as role (packet_of view.now) self.old.end).out self.old
            → 0 < told.old.happenings.room → 0 < told.old.acknowledged.room → IsOk result }
        ensures err { OnErr result (Stays self.old self.new told.old told.new) }
    {
        match self.state {
            State::Connected => self.take_lent_up(role, view, told),
            State::Connecting | State::Disconnected => self.take_owned(role, view, told),
        }
    }

    /// Processes a borrowed packet, and closes the end if an allocation fails. Returns the reason
    /// if the end closed.
    pub(crate) fn take_lent_or_close(
        &mut self,
        role: Role,
        view: &PacketView<'_>,
        told: &mut ProgressBuilder,
    ) -> Option<CloseReason>
        ensures made { (r : Reply) × ((r ≡ gets_as role (packet_of view.now) self.old.end) ⊎ (r ≡ closes reasons.Memory self.old.end))
            × (result ≡ r.close) × Makes r self.old self.new told.old told.new }
        ensures within { is_up self.old.end.state ≡ true → is_plain (packet_of view.now) ≡ true
            → CanSend (gets_as role (packet_of view.now) self.old.end).out self.old
            → 0 < told.old.happenings.room → 0 < told.old.acknowledged.room
            → (result ≡ (gets_as role (packet_of view.now) self.old.end).close)
            × Makes (gets_as role (packet_of view.now) self.old.end) self.old self.new told.old told.new }
    {
        match self.take_lent(role, view, told) {
            Ok(closed) => closed,
            Err(_) => Some(self.close(CloseReason::Memory)),
        }
    }
}
