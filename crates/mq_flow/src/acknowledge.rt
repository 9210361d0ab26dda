//! Acknowledgements at the sender (4.3.2, 4.3.3).

ghost use Rattle.std.specs.Prelude.{◌≡◌};
ghost use Rattle.mq_flow.specs.Prelude.{on_puback, on_pubrec, on_pubcomp, puback_reaction, pubrec_reaction, pubcomp_reaction};

use crate::reaction::Reaction;
use crate::sender::Sender;
use mq_packet::PacketId;
use mq_topic::Qos;

impl Sender {
    /// Takes a PUBACK: the message of quality of service 1 that was sent with this identifier is
    /// acknowledged, and the identifier is free (4.3.2). If there is none, nothing changes.
    pub fn on_puback(&mut self, id: PacketId) -> Reaction
        ensures book { self.new.book ≡ on_puback id self.old.book }
        ensures result { result ≡ puback_reaction id self.old.book }
        ensures capacity { self.new.capacity ≡ self.old.capacity }
        ensures last { self.new.last ≡ self.old.last }
        ensures room { self.new.room ≡ self.old.room }
    {
        if !self.awaits(Qos::Q1, id) {
            return Reaction::Stray;
        }
        self.table.take(id);
        Reaction::Freed
    }

    /// Processes a PUBREC: the QoS 2 message sent with this identifier is acknowledged, and a
    /// PUBREL must be sent; the identifier stays in use (4.3.3). Without such a message nothing
    /// changes.
    pub fn on_pubrec(&mut self, id: PacketId) -> Reaction
        ensures book { self.new.book ≡ on_pubrec id self.old.book }
        ensures result { result ≡ pubrec_reaction id self.old.book }
        ensures capacity { self.new.capacity ≡ self.old.capacity }
        ensures last { self.new.last ≡ self.old.last }
        ensures room { self.new.room ≡ self.old.room }
    {
        if !self.awaits(Qos::Q2, id) {
            return Reaction::Stray;
        }
        self.table.release(id);
        Reaction::Release(id)
    }

    /// Takes a PUBCOMP: the released identifier is free (4.3.3). If it isn't released, nothing
    /// changes.
    pub fn on_pubcomp(&mut self, id: PacketId) -> Reaction
        ensures book { self.new.book ≡ on_pubcomp id self.old.book }
        ensures result { result ≡ pubcomp_reaction id self.old.book }
        ensures capacity { self.new.capacity ≡ self.old.capacity }
        ensures last { self.new.last ≡ self.old.last }
        ensures room { self.new.room ≡ self.old.room }
    {
        if !self.is_released(id) {
            return Reaction::Stray;
        }
        self.table.take(id);
        Reaction::Freed
    }
}
