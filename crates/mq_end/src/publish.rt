//! Messages that an end's user publishes (3.3, 4.3).

ghost use Rattle.std.specs.Prelude.{◌≡◌, ◌+◌, ◌<◌, ◌≤◌, ◌^◌, ℕ, List, [], ◌∷◌, length, true, false, nat_lt, IsOk, IfOk, IfErr, IfSome, IfNone, OnOk, OnErr, Err, None, Some};
ghost use Rattle.mq_end.specs.Prelude.{Q0, is_full, Encodes, publish_refusal, has_identifier, publishes, publish_size, PutsOut, Accepts, HasRoom, size_at_once, whole_size};
ghost use Rattle.mq_packet.specs.declared.packet.Packet.TheVariants as packets;

use crate::block::Block;
use crate::endpoint::Endpoint;
use crate::prepared::PreparedMessage;
use crate::refusal::PublishRefusal;
use crate::state::State;
use mq_packet::{Delivery, Message, PacketId};
use mq_topic::Qos;
use std::alloc::AllocError;

/// The remaining length of the PUBLISH of a message, in bytes (2.2.3, 3.3).
pub(crate) fn publish_size(message: &Message) -> usize
    ensures value { result ≡ publish_size message.now }
    ensures short { result < 2 ^ 32 }
{
    let identifier = if message.qos == Qos::Q0 { 0 } else { 2 };
    let topic = message.topic.as_str().len();
    let payload = message.payload.as_slice().len();
    (2 + topic) + (identifier + payload)
}

impl Endpoint {
    /// Why a message is refused, unless an allocation fails.
    pub(crate) fn publish_refusal(&self, message: &Message) -> Option<PublishRefusal>
        ensures refused { result ≡ publish_refusal self.now.limit.most self.now.capacity message.now self.now.end }
        ensures most { result ≡ None → self.now.limit.most < 2 ^ 28 }
    {
        let kept = message.qos != Qos::Q0;
        if !kept && self.state != State::Connected {
            return Some(PublishRefusal::NotConnected);
        }
        if publish_size(message) > self.limits.max_packet() as usize {
            return Some(PublishRefusal::TooLarge);
        }
        if kept && self.session.sender.left() == 0 {
            return Some(PublishRefusal::Full);
        }
        None
    }

    /// Stores a message of quality of service 1 or 2, and sends it if the end is connected (4.3.2,
    /// 4.3.3).
    fn keep(&mut self, message: PreparedMessage) -> Result<Option<PacketId>, AllocError>
        requires kept { message.qos ≡ Q0 → ⊥ }
        requires room { is_full self.old.capacity self.old.end.book ≡ false }
        ensures ok { IfOk result (λ answer. Accepts answer message self.old self.new) }
        ensures within { publish_size message < 2 ^ 28 → HasRoom (message ∷ []) 0 self.old → IsOk result }
        ensures err { OnErr result (self.new ≡ self.old) }
    {
        let id = self.session.sender.next_id().unwrap();
        let is_up = self.state == State::Connected;
        let before = self.output.len();
        let (message, block) = message.into_parts(Some(Delivery { id, dup: false }));
        if is_up {
            let delivery = Delivery { id, dup: false };
            self.output.append_encoded(&message, Some(delivery), block)?;
        } else {
            drop(block);
        }
        match self.session.sender.accept_as(id, message, is_up) {
            Ok(()) => Ok(Some(id)),
            Err(error) => {
                self.output.truncate(before);
                Err(error)
            }
        }
    }

    /// Sends a QoS 0 message (4.3.1).
    fn send_once(&mut self, message: PreparedMessage) -> Result<Option<PacketId>, AllocError>
        requires once { message.qos ≡ Q0 }
        ensures ok { IfOk result (λ answer. Accepts answer message self.old self.new) }
        ensures within { publish_size message < 2 ^ 28
            → length self.old.output + whole_size (publish_size message) ≤ self.old.room.bytes → IsOk result }
        ensures err { OnErr result (self.new ≡ self.old) }
    {
        let (message, block) = message.into_parts(None);
        self.output.append_encoded(&message, None, block)?;
        Ok(None)
    }

    /// Publishes a message. Returns its identifier if it has QoS 1 or 2 (2.3.1).
    pub(crate) fn publish(
        &mut self,
        message: PreparedMessage,
    ) -> Result<Option<PacketId>, PublishRefusal>
        ensures refused { IfSome (publish_refusal self.old.limit.most self.old.capacity message self.old.end)
            (λ why. result ≡ Err why) }
        ensures memory { IfNone (publish_refusal self.old.limit.most self.old.capacity message self.old.end)
            (IfErr result (λ why. why ≡ PublishRefusal.Memory)) }
        ensures ok { IfOk result (λ answer. Accepts answer message self.old self.new) }
        ensures kept { publish_refusal self.old.limit.most self.old.capacity message self.old.end ≡ None
            → (rest : List Message) (more : ℕ) → HasRoom (message ∷ rest) more self.old
            → IsOk result × HasRoom rest more self.new }
        ensures err { OnErr result (self.new ≡ self.old) }
    {
        if let Some(why) = self.publish_refusal(message.message()) {
            return Err(why);
        }
        let accepted = if message.message().qos == Qos::Q0 {
            self.send_once(message)
        } else {
            self.keep(message)
        };
        match accepted {
            Ok(id) => Ok(id),
            Err(_) => Err(PublishRefusal::Memory),
        }
    }
}
