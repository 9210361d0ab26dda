//! Retransmission after a reconnect (4.4).

ghost use Rattle.std.specs.Prelude.{◌≡◌, ◌++◌, false, length, take, map, OnOk, OnErr};
ghost use Rattle.mq_flow.specs.Prelude.{list_any, Q0, resent, all_sent, publish_packet, same_qos};
ghost use Rattle.mq_packet.specs.declared.packet.Packet.TheVariants as packets;

use crate::iter::{Entries, Releases};
use crate::sender::Sender;
use mq_packet::{Delivery, Packet, Publish};
use std::alloc::AllocError;

impl Sender {
    /// Appends the packets to retransmit: a PUBREL for each released identifier in the order of the
    /// PUBRECs, then a PUBLISH for each message in the order of acceptance, with DUP if it was sent
    /// before (4.4, 3.3.1.1). On `Err` nothing changes.
    pub fn resent(&self, out: &mut Vec<Packet>) -> Result<(), AllocError>
        ensures ok { OnOk result (out.new.items ≡ out.old.items ++ resent self.now.book) }
        ensures err { OnErr result (out.new.items ≡ out.old.items) }
    {
        let before = out.len();
        let put = self.put_resent(out);
        if put.is_err() {
            out.truncate(before);
        }
        put
    }

    /// Appends the packets to retransmit, or some of them if an allocation fails.
    fn put_resent(&self, out: &mut Vec<Packet>) -> Result<(), AllocError>
        ensures ok { OnOk result (out.new.items ≡ out.old.items ++ resent self.now.book) }
        ensures err { OnErr result (take (length out.old.items) out.new.items ≡ out.old.items) }
    {
        put_releases(self.table.releases(), out)?;
        put_messages(self.table.entries(), out)
    }

    /// Marks each message as sent: the next PUBLISH of each has DUP (3.3.1.1).
    pub fn mark_sent(&mut self)
        ensures book { self.new.book ≡ all_sent self.old.book }
        ensures capacity { self.new.capacity ≡ self.old.capacity }
        ensures last { self.new.last ≡ self.old.last }
        ensures room { self.new.room ≡ self.old.room }
    {
        self.table.mark_all();
    }

    /// Appends the packets to retransmit and marks each message as sent (4.4). On `Err` nothing
    /// changes.
    pub fn resend(&mut self, out: &mut Vec<Packet>) -> Result<(), AllocError>
        ensures out { OnOk result (out.new.items ≡ out.old.items ++ resent self.old.book) }
        ensures book { OnOk result (self.new.book ≡ all_sent self.old.book) }
        ensures capacity { self.new.capacity ≡ self.old.capacity }
        ensures last { self.new.last ≡ self.old.last }
        ensures room { self.new.room ≡ self.old.room }
        ensures err_out { OnErr result (out.new.items ≡ out.old.items) }
        ensures err { OnErr result (self.new ≡ self.old) }
    {
        self.resent(out)?;
        self.mark_sent();
        Ok(())
    }
}

/// Appends a PUBREL for each identifier.
fn put_releases(released: Releases<'_>, out: &mut Vec<Packet>) -> Result<(), AllocError>
    ensures ok { OnOk result (out.new.items ≡ out.old.items ++ map packets.PubRel released.entry) }
    ensures err { OnErr result (take (length out.old.items) out.new.items ≡ out.old.items) }
{
    for id in released {
        out.push(Packet::PubRel(id))?;
    }
    Ok(())
}

/// Appends a PUBLISH for each message, with DUP if it was sent before.
fn put_messages(entries: Entries<'_>, out: &mut Vec<Packet>) -> Result<(), AllocError>
    requires { list_any (λ e. same_qos Q0 e.message.qos) entries ≡ false }
    ensures ok { OnOk result (out.new.items ≡ out.old.items ++ map (λ e. publish_packet e.id e.sent e.message) entries.entry) }
    ensures err { OnErr result (take (length out.old.items) out.new.items ≡ out.old.items) }
{
    for entry in entries {
        let delivery = Delivery {
            id: entry.id,
            dup: entry.sent,
        };
        let publish = Publish::new(entry.message.clone()?, Some(delivery));
        out.push(Packet::Publish(publish))?;
    }
    Ok(())
}
