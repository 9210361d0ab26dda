//! The receiver's state (4.3.3).

ghost use Rattle.std.specs.Prelude.{◌≡◌, ◌↔◌, true, false, IsTrue, IsErrOf, IfOk, OnOk, OnErr, Some, None, if◌then◌else◌};
ghost use Rattle.mq_packet.specs.declared.packet.Packet.TheVariants as packets;
ghost use Rattle.std.specs.FinSet as set;

use crate::reaction::ReceiveRefusal;
use mq_packet::{Message, Packet, PacketId};
use mq_topic::Qos;
use std::alloc::{AllocError, Global};
use std::collections::BTreeSet;
use std::marker::Model;

/// The receiver's state: the identifiers of QoS 2 messages that were delivered and are not released
/// yet (4.3.3, method B). Call `on_publish` for each PUBLISH, then `on_pubrel` for its PUBREL.
#[derive(Debug, Drop)]
pub struct Receiver {
    pub(crate) stored: BTreeSet<u16>,
}

impl Model for Receiver {
    ghost use Rattle.std.specs.Ordering.{nat_cmp};
    ghost use Rattle.std.specs.Coded.{coded_ℕ};
    ghost use Rattle.std.specs.FinSet as set;
    ghost use Rattle.mq_flow.specs.Receiver.{ReceiverBook, AreIdentifiers};

    ghost Value = { ReceiverBook };

    ghost coded = { set.code {R = nat_cmp} coded_ℕ };

    ghost view = { λ r. set.from_list r.stored.keys };

    ghost invariant = { λ r. AreIdentifiers r.stored.keys };
}

impl Receiver {
    ghost use Rattle.mq_flow.specs.Prelude.{Q0, Q1, Q2, none_received, is_new, on_publish, on_pubrel, fits_window};

    /// Makes a receiver that has stored no identifier.
    pub fn new(alloc: Global) -> Receiver
        ensures { result ≡ none_received }
    {
        Receiver {
            stored: BTreeSet::new(alloc),
        }
    }

    /// Returns whether an identifier is stored: its message was delivered, and its PUBREL has not
    /// arrived (4.3.3).
    pub fn is_stored(&self, id: PacketId) -> bool
        ensures { result ≡ set.contains self.now id }
    {
        self.stored.contains(&id.get())
    }

    /// Returns how many identifiers are stored.
    pub fn identifiers(&self) -> usize
        ensures { result ≡ set.len self.now }
    {
        self.stored.len()
    }

    /// Returns whether a PUBLISH of quality of service 2 with this identifier fits a window: its
    /// identifier is stored, or fewer are stored than the window has; `None` is no window.
    pub fn fits(&self, id: PacketId, window: Option<u16>) -> bool
        ensures { result ≡ fits_window window id self.now }
    {
        match window {
            None => true,
            Some(window) => self.is_stored(id) || self.identifiers() < window as usize,
        }
    }

    /// Stores an identifier (4.3.3). Returns whether it is new; then its message must be delivered.
    pub fn store(&mut self, id: PacketId) -> Result<bool, AllocError>
        ensures new { IfOk result (λ b. b ≡ is_new id self.old) }
        ensures book { OnOk result (self.new ≡ on_publish id self.old) }
        ensures err { OnErr result (self.new ≡ self.old) }
    {
        Ok(self.stored.insert(id.get())?)
    }

    /// Processes a PUBLISH with QoS 1 or 2. Returns the message if it must be delivered, and the
    /// packet to respond with (4.3.2, 4.3.3). A QoS 1 message is always delivered and answered with
    /// PUBACK. A QoS 2 message is delivered exactly if its identifier is new, and answered with
    /// PUBREC. Errors: `Window` if a QoS 2 message exceeds the receive window, `Memory` if an
    /// allocation fails.
    pub fn on_publish(
        &mut self,
        id: PacketId,
        qos: Qos,
        message: Message,
        window: Option<u16>,
    ) -> Result<(Option<Message>, Packet), ReceiveRefusal>
        requires own { qos ≡ message.qos }
        requires acknowledged { qos ≡ Q0 → ⊥ }
        ensures window { IsErrOf result ReceiveRefusal.Window ↔ ((qos ≡ Q2) × (fits_window window id self.old ≡ false)) }
        ensures once { qos ≡ Q1 → IfOk result (λ r. r ≡ (Some message, packets.PubAck id)) }
        ensures same { qos ≡ Q1 → self.new ≡ self.old }
        ensures exactly { qos ≡ Q2 → IfOk result (λ r. r ≡ ((if is_new id self.old then Some message else None), packets.PubRec id)) }
        ensures book { qos ≡ Q2 → OnOk result (self.new ≡ on_publish id self.old) }
        ensures err { OnErr result (self.new ≡ self.old) }
    {
        if qos == Qos::Q1 {
            return Ok((Some(message), Packet::PubAck(id)));
        }
        if !self.fits(id, window) {
            return Err(ReceiveRefusal::Window);
        }
        let Ok(new) = self.store(id) else {
            return Err(ReceiveRefusal::Memory);
        };
        let handed = if new { Some(message) } else { None };
        Ok((handed, Packet::PubRec(id)))
    }

    /// Processes a PUBREL: forgets the identifier. Returns the PUBCOMP to respond with, also if the
    /// identifier was not stored (4.3.3).
    pub fn on_pubrel(&mut self, id: PacketId) -> Packet
        ensures answer { result ≡ packets.PubComp id }
        ensures book { self.new ≡ on_pubrel id self.old }
    {
        let _ = self.stored.remove(&id.get());
        Packet::PubComp(id)
    }

    /// Forgets all identifiers.
    pub(crate) fn discard(&mut self)
        ensures { self.new ≡ none_received }
    {
        self.stored.clear();
    }

    /// Returns whether no identifier is stored.
    pub fn is_empty(&self) -> bool
        ensures { IsTrue result ↔ (self.now ≡ none_received) }
    {
        self.stored.is_empty()
    }
}
