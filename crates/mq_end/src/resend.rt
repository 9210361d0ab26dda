//! Retransmissions after a reconnect (4.4).

ghost use Rattle.std.specs.Prelude.{◌≡◌, ◌+◌, ◌≤◌, ◌++◌, false, List, ℕ, length, map, IsOk, OnOk, OnErr};
ghost use Rattle.mq_end.specs.Prelude.{list_any, Q0, resent, publish_packet, same_qos, AreEncodable, FitsRoom, packets_size, PutsOut};
ghost use Rattle.mq_packet.specs.declared.packet.Packet.TheVariants as packets;

use crate::endpoint::Endpoint;
use crate::output::Output;
use mq_flow::{Entries, Releases, Sender};
use mq_packet::{Delivery, Packet};
use std::alloc::AllocError;

impl Endpoint {
    /// Sends all retransmissions, encoded directly from the sender's state.
    pub(crate) fn write_resent(&mut self) -> Result<(), AllocError>
        ensures ok { OnOk result (PutsOut (resent self.old.end.book) self.old.output self.new.output) }
        ensures state { self.new ≡ record self.old { output = self.new.output } }
        ensures within { AreEncodable (resent self.old.end.book) → FitsRoom (resent self.old.end.book) self.old → IsOk result }
        ensures err { OnErr result (self.new ≡ self.old) }
    {
        let before = self.output.len();
        let written = put_resent(&mut self.output, &self.session.sender);
        if written.is_err() {
            self.output.truncate(before);
        }
        written
    }
}

// Appends all retransmissions, or some of them if an allocation fails.
#[tactic(auto, using(crate::proofs::Onward::grown_twice, crate::proofs::Onward::put_grown))]
fn put_resent(output: &mut Output, sender: &Sender) -> Result<(), AllocError>
    ensures ok { OnOk result (PutsOut (resent sender.now.book) output.old.bytes output.new.bytes) }
    ensures room { output.new.room ≡ output.old.room }
    ensures within { AreEncodable (resent sender.now.book)
        → length output.old.bytes + packets_size (resent sender.now.book) ≤ output.old.room → IsOk result }
    ensures err { OnErr result ((rest : List ℕ) × (output.new.bytes ≡ output.old.bytes ++ rest)) }
{
    put_releases(output, sender.releases())?;
    put_messages(output, sender.entries())
}

// Appends a PUBREL for each released identifier, or for some of them if an allocation fails.
#[tactic(auto, using(crate::proofs::Onward::at_first, crate::proofs::Onward::at_last, crate::proofs::Onward::not_grown))]
fn put_releases(output: &mut Output, released: Releases<'_>) -> Result<(), AllocError>
    ensures ok { OnOk result (PutsOut (map packets.PubRel released.entry) output.old.bytes output.new.bytes) }
    ensures room { output.new.room ≡ output.old.room }
    ensures within { length output.old.bytes + packets_size (map packets.PubRel released.entry) ≤ output.old.room → IsOk result }
    ensures err { OnErr result ((rest : List ℕ) × (output.new.bytes ≡ output.old.bytes ++ rest)) }
{
    for id in released {
        output.append_packet(&Packet::PubRel(id))?;
    }
    Ok(())
}

// Appends a PUBLISH for each message, with DUP if it was sent before (3.3.1.1), or for some of them
// if an allocation fails.
#[tactic(auto, using(crate::proofs::Onward::at_first, crate::proofs::Onward::at_last, crate::proofs::Onward::not_grown))]
fn put_messages(output: &mut Output, entries: Entries<'_>) -> Result<(), AllocError>
    requires { list_any (λ e. same_qos Q0 e.message.qos) entries ≡ false }
    ensures ok { OnOk result (PutsOut (map (λ e. publish_packet e.id e.sent e.message) entries.entry) output.old.bytes output.new.bytes) }
    ensures room { output.new.room ≡ output.old.room }
    ensures within { AreEncodable (map (λ e. publish_packet e.id e.sent e.message) entries.entry)
        → length output.old.bytes + packets_size (map (λ e. publish_packet e.id e.sent e.message) entries.entry) ≤ output.old.room
        → IsOk result }
    ensures err { OnErr result ((rest : List ℕ) × (output.new.bytes ≡ output.old.bytes ++ rest)) }
{
    for entry in entries {
        let delivery = Delivery {
            id: entry.id,
            dup: entry.sent,
        };
        output.append_publish(&entry.message, Some(delivery))?;
    }
    Ok(())
}
