//! Reserves room for connecting (3.2, 4.4).

ghost use Rattle.std.specs.Prelude.{◌≡◌, ◌≤◌, ℕ, List, false, length, map, IfSome, OnOk};
ghost use Rattle.mq_end.specs.Prelude.{list_any, Q0, resent, publish_packet, same_qos, AreEncodable, HasConnectRoom, HasRoom, packets_size, opens, server_gets};
ghost use Rattle.mq_packet.specs.declared.packet.Packet.TheVariants as packets;

use crate::endpoint::Endpoint;
use crate::publish::publish_size;
use crate::ready::{count_identified, size_of_all};
use mq_flow::{Entries, Sender};
use mq_packet::{Connect, Message};
use std::alloc::AllocError;

// An upper bound on the size of the PUBLISH packets of stored messages (3.3), or `None` if it
// exceeds `usize` or one of them is too large to send.
fn size_of_messages(entries: Entries<'_>) -> Option<usize>
    requires { list_any (λ e. same_qos Q0 e.message.qos) entries ≡ false }
    ensures size { IfSome result (λ size. size ≡ packets_size (map (λ e. publish_packet e.id e.sent e.message) entries.entry)) }
    ensures encodable { IfSome result (λ _. AreEncodable (map (λ e. publish_packet e.id e.sent e.message) entries.entry)) }
{
    let mut size: usize = 0;
    for entry in entries {
        let fields = publish_size(&entry.message);
        if fields >= 1 << 28 {
            return None;
        }
        size = size.checked_add(5 + fields)?;
    }
    Some(size)
}

// An upper bound on the size of all retransmissions (4.4), or `None` if it exceeds `usize` or one
// of the packets is too large to send.
fn size_of_resent(sender: &Sender) -> Option<usize>
    ensures size { IfSome result (λ size. size ≡ packets_size (resent sender.now.book)) }
    ensures encodable { IfSome result (λ _. AreEncodable (resent sender.now.book)) }
{
    let messages = size_of_messages(sender.entries())?;
    let releases = sender.released().checked_mul(7)?;
    releases.checked_add(messages)
}

impl Endpoint {
    /// An upper bound on the response to this CONNECT on a new connection: CONNACK and all
    /// retransmissions. `None` if it exceeds `usize` or one of the packets is too large to send.
    fn size_of_rise(&self, connect: &Connect) -> Option<usize>
        ensures size { IfSome result (λ size. packets_size (server_gets (packets.Connect connect.now) (opens self.now.end).end).out ≤ size) }
        ensures encodable { IfSome result (λ _. AreEncodable (server_gets (packets.Connect connect.now) (opens self.now.end).end).out) }
    {
        if connect.clean_session || self.clean {
            return Some(7);
        }
        size_of_resent(&self.session.sender)?.checked_add(7)
    }

    /// Reserves room to connect by this CONNECT on a new connection, then for messages and for
    /// `more` bytes.
    pub(crate) fn reserve_connect(
        &mut self,
        connect: &Connect,
        messages: &[Message],
        more: usize,
    ) -> Result<(), AllocError>
        ensures room { OnOk result (HasConnectRoom connect.now messages.now more self.new) }
        ensures same { self.new ≡ record self.old { room = self.new.room } }
        ensures before { (ms : List Message) (n : ℕ) → HasRoom ms n self.old → HasRoom ms n self.new }
        ensures connect_end { (c : Connect) (ms : List Message) (n : ℕ) → HasConnectRoom c ms n self.old → HasConnectRoom c ms n self.new }
    {
        let Some(connect_end) = self.size_of_rise(connect) else {
            return Err(AllocError);
        };
        let Some(publishes) = size_of_all(messages) else {
            return Err(AllocError);
        };
        let Some(behind) = publishes.checked_add(more) else {
            return Err(AllocError);
        };
        let Some(bytes) = connect_end.checked_add(behind) else {
            return Err(AllocError);
        };
        self.session.sender.reserve(count_identified(messages))?;
        self.output.reserve(bytes)
    }
}
