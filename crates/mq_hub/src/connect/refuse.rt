//! Refuses a CONNECT (3.2.2.3).

ghost use Rattle.std.specs.Prelude.{◌≡◌, ◌+◌, ◌≤◌, ◌<◌, Bool, [], ◌∷◌, IfOk, OnOk, OnErr};
ghost use Rattle.mq_hub.specs.Prelude.{encodings, stage_of, Refines, refused};

use crate::acts::ActLog;
use crate::hub::HubOver;
use mq_end::{ByteQueue, CloseReason};
use mq_packet::{ConnAck, Packet, RefusalCode, encoding_laws};
use mq_route::{Act, Conn, ConnectionState, HubClose};
use mq_topic::FilterStore;
use std::alloc::{AllocError, Global};

// The encoding of one packet (chapter 3).
fn bytes_of(alloc: Global, packet: &Packet) -> Result<ByteQueue, AllocError>
    ensures { IfOk result (λ bytes. bytes ≡ encodings (packet.now ∷ [])) }
{
    encoding_laws();
    let mut bytes = ByteQueue::new(alloc);
    bytes.append_packet(packet)?;
    Ok(bytes)
}

impl<S: FilterStore> HubOver<S> {
    /// Refuses a CONNECT (3.2.2.3): CONNACK with this code is queued, and the connection is closed.
    pub(crate) fn refuse(
        &mut self,
        conn: Conn,
        code: RefusalCode,
        log: &mut ActLog,
    ) -> Result<(), AllocError>
        requires fresh { stage_of conn self.old.connections ≡ ConnectionState.AwaitingConnect }
        requires room { 0 < log.old.room }
        ensures goes { OnOk result ((fits : Bool) → Refines (refused conn code fits) self.old log.old.acts self.new log.new.acts) }
        ensures room { log.old.room ≤ log.new.room + 1 }
        ensures err { OnErr result (self.new ≡ self.old) }
        ensures unsaid { OnErr result (log.new ≡ log.old) }
    {
        let answer = Packet::ConnAck(ConnAck::Refused(code));
        let waiting = bytes_of(self.alloc, &answer)?;
        self.tables.shut_with(conn, waiting);
        log.push(Act::Closed(conn, HubClose::Own(CloseReason::Refused(code))));
        Ok(())
    }
}
