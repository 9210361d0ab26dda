//! The packets of a message's flow, which both ends process alike (4.3).

ghost use Rattle.std.specs.Prelude.{◌≡◌, true, false, IsOk, IfOk, OnOk, OnErr, Some};
ghost use Rattle.mq_end.specs.Prelude.{Q1, Q2, fits_delivery, on_pubrel, same_qos, flow_gets, publish_gets, stores, CanSend, is_exactly_once, Acts, Gives, outcome_of};
ghost use Rattle.mq_packet.specs.declared.packet.Packet.TheVariants as packets;

use crate::endpoint::Endpoint;
use crate::packet_outcome::PacketOutcome;
use crate::publish_outcome::PublishOutcome;
use crate::reason::CloseReason;
use mq_flow::{Reaction, Receiver};
use mq_packet::{Delivery, Message, Packet, PacketId, Publish};
use mq_topic::Qos;
use std::alloc::AllocError;

// The identifier of a message is forgotten (4.3.3).
fn forget(receiver: &mut Receiver, id: PacketId)
    ensures { receiver.new ≡ on_pubrel id receiver.old }
{
    let _ = receiver.on_pubrel(id);
}

impl Endpoint {
    /// Processes a QoS 1 message: deliver it and send PUBACK (4.3.2).
    fn take_at_least_once(&mut self, delivery: Delivery) -> Result<PublishOutcome, AllocError>
        ensures ok { IfOk result (λ handing. (m : Message) → Gives (publish_gets Q1 (Some delivery) m self.old.end) (outcome_of handing m) self.old self.new) }
        ensures within { (m : Message) → CanSend (publish_gets Q1 (Some delivery) m self.old.end).out self.old → IsOk result }
        ensures err { OnErr result (self.new ≡ self.old) }
    {
        self.write(&Packet::PubAck(delivery.id))?;
        Ok(PublishOutcome::HandedOn)
    }

    /// Processes a QoS 2 message: store its identifier and send PUBREC; deliver it if the
    /// identifier is new (4.3.3).
    fn take_exactly_once(&mut self, delivery: Delivery) -> Result<PublishOutcome, AllocError>
        ensures ok { IfOk result (λ handing. (m : Message) → Gives (stores delivery.id m self.old.end) (outcome_of handing m) self.old self.new) }
        ensures err { OnErr result (self.new ≡ self.old) }
    {
        let before = self.output.len();
        self.write(&Packet::PubRec(delivery.id))?;
        match self.session.receiver.store(delivery.id) {
            Ok(true) => Ok(PublishOutcome::HandedOn),
            Ok(false) => Ok(PublishOutcome::Nothing),
            Err(error) => {
                self.output.truncate(before);
                Err(error)
            }
        }
    }

    /// Processes a QoS 2 message; closes the end if it exceeds the receive window (4.3.3, 4.8).
    fn take_within_window(&mut self, delivery: Delivery) -> Result<PublishOutcome, AllocError>
        ensures ok { IfOk result (λ handing. (m : Message) → Gives (publish_gets Q2 (Some delivery) m self.old.end) (outcome_of handing m) self.old self.new) }
        ensures err { OnErr result (self.new ≡ self.old) }
    {
        if !self.session.receiver.fits(delivery.id, self.window) {
            return Ok(PublishOutcome::Closed(self.close(CloseReason::Window)));
        }
        self.take_exactly_once(delivery)
    }

    /// Processes a PUBLISH with this QoS (3.3, 4.3). The caller keeps the message.
    #[inline(always)]
    pub(crate) fn take_delivery(
        &mut self,
        qos: Qos,
        delivery: Option<Delivery>,
    ) -> Result<PublishOutcome, AllocError>
        requires fits { fits_delivery qos delivery ≡ true }
        ensures ok { IfOk result (λ handing. (m : Message) → Gives (publish_gets qos delivery m self.old.end) (outcome_of handing m) self.old self.new) }
        ensures within { same_qos Q2 qos ≡ false → (m : Message) → CanSend (publish_gets qos delivery m self.old.end).out self.old → IsOk result }
        ensures err { OnErr result (self.new ≡ self.old) }
    {
        match (qos, delivery) {
            (Qos::Q1, Some(delivery)) => self.take_at_least_once(delivery),
            (Qos::Q2, Some(delivery)) => self.take_within_window(delivery),
            _ => Ok(PublishOutcome::HandedOn),
        }
    }

    /// Processes a PUBLISH (3.3, 4.3).
    #[inline(always)]
    pub(crate) fn take_message(
        &mut self,
        delivery: Option<Delivery>,
        message: Message,
    ) -> Result<PacketOutcome, AllocError>
        requires fits { fits_delivery message.qos delivery ≡ true }
        ensures ok { IfOk result (λ outcome. Gives (publish_gets message.qos delivery message self.old.end) outcome self.old self.new) }
        ensures within { is_exactly_once (packets.Publish (record { message = message; delivery = delivery })) ≡ false
            → CanSend (publish_gets message.qos delivery message self.old.end).out self.old → IsOk result }
        ensures err { OnErr result (self.new ≡ self.old) }
    {
        let handing = self.take_delivery(message.qos, delivery)?;
        Ok(handing.outcome(message))
    }

    /// PUBLISH (3.3, 4.3).
    #[inline(always)]
    fn take_publish(&mut self, publish: Publish) -> Result<PacketOutcome, AllocError>
        ensures ok { IfOk result (λ outcome. Gives (flow_gets (packets.Publish publish) self.old.end) outcome self.old self.new) }
        ensures within { is_exactly_once (packets.Publish publish) ≡ false
            → CanSend (flow_gets (packets.Publish publish) self.old.end).out self.old → IsOk result }
        ensures err { OnErr result (self.new ≡ self.old) }
    {
        let delivery = publish.delivery();
        self.take_message(delivery, publish.into_message())
    }

    /// PUBACK (3.4, 4.3.2).
    pub(crate) fn take_puback(&mut self, id: PacketId) -> PacketOutcome
        ensures { Gives (flow_gets (packets.PubAck id) self.old.end) result self.old self.new }
    {
        match self.session.sender.on_puback(id) {
            Reaction::Freed => PacketOutcome::acknowledges(id),
            Reaction::Release(_) | Reaction::Stray => PacketOutcome::nothing(),
        }
    }

    /// Processes a PUBREC and answers with PUBREL (3.5, 4.3.3).
    pub(crate) fn take_pubrec(&mut self, id: PacketId) -> Result<(), AllocError>
        ensures ok { OnOk result (Acts (flow_gets (packets.PubRec id) self.old.end) self.old self.new) }
        ensures within { CanSend (flow_gets (packets.PubRec id) self.old.end).out self.old → IsOk result }
        ensures err { OnErr result (self.new ≡ self.old) }
    {
        if self.session.sender.awaits_pubrec(id) {
            self.write(&Packet::PubRel(id))?;
            let _ = self.session.sender.on_pubrec(id);
        }
        Ok(())
    }

    /// Processes a PUBREL and answers with PUBCOMP (3.6, 4.3.3).
    pub(crate) fn take_pubrel(&mut self, id: PacketId) -> Result<(), AllocError>
        ensures ok { OnOk result (Acts (flow_gets (packets.PubRel id) self.old.end) self.old self.new) }
        ensures within { CanSend (flow_gets (packets.PubRel id) self.old.end).out self.old → IsOk result }
        ensures err { OnErr result (self.new ≡ self.old) }
    {
        self.write(&Packet::PubComp(id))?;
        forget(&mut self.session.receiver, id);
        Ok(())
    }

    /// PUBCOMP (3.7, 4.3.3).
    pub(crate) fn take_pubcomp(&mut self, id: PacketId)
        ensures { Acts (flow_gets (packets.PubComp id) self.old.end) self.old self.new }
    {
        let _ = self.session.sender.on_pubcomp(id);
    }

    /// Processes a packet of a message flow while connected; any other packet closes the end (4.3,
    /// 4.8). On `Err` nothing changes; within the room that happens only for a stored identifier.
    #[inline(always)]
    #[tactic(auto, using(crate::proofs::Outcomes::quiet))]
    pub(crate) fn take_flow(&mut self, packet: Packet) -> Result<PacketOutcome, AllocError>
        ensures ok { IfOk result (λ outcome. Gives (flow_gets packet self.old.end) outcome self.old self.new) }
        ensures within { is_exactly_once packet ≡ false → CanSend (flow_gets packet self.old.end).out self.old → IsOk result }
        ensures err { OnErr result (self.new ≡ self.old) }
    {
        match packet {
            Packet::Publish(publish) => return self.take_publish(publish),
            Packet::PubAck(id) => return Ok(self.take_puback(id)),
            Packet::PubRec(id) => self.take_pubrec(id)?,
            Packet::PubRel(id) => self.take_pubrel(id)?,
            Packet::PubComp(id) => self.take_pubcomp(id),
            _ => return Ok(PacketOutcome::closes(self.close(CloseReason::Unexpected))),
        }
        Ok(PacketOutcome::nothing())
    }
}
