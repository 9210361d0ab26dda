//! Closes a connection whose first packet is malformed or is not CONNECT (3.1, 4.8).

ghost use Rattle.std.specs.Prelude.{◌≡◌, ◌+◌, ◌≤◌, ◌<◌, Bool, false, OnOk, OnErr};
ghost use Rattle.mq_hub.specs.Prelude.{is_level, on_first_packet, on_malformed, stage_of, Refines, is_connect};

use crate::acts::ActLog;
use crate::hub::HubOver;
use mq_decode::{DecodeFault, FaultKind};
use mq_end::CloseReason;
use mq_packet::{Packet, RefusalCode};
use mq_route::{Conn, ConnectionState, HubClose};
use mq_topic::FilterStore;
use std::alloc::AllocError;

// Whether a CONNECT asks for another protocol level (3.1.2.2).
fn is_level(kind: FaultKind) -> bool
    ensures { result ≡ is_level kind }
{
    matches!(kind, FaultKind::ProtocolLevel)
}

impl<S: FilterStore> HubOver<S> {
    /// Closes a connection that waits for its CONNECT and got malformed bytes (4.8). A CONNECT of
    /// another protocol level is answered first (3.1.2.2).
    pub(crate) fn on_malformed_first(
        &mut self,
        conn: Conn,
        fault: DecodeFault,
        log: &mut ActLog,
    ) -> Result<(), AllocError>
        requires fresh { stage_of conn self.old.connections ≡ ConnectionState.AwaitingConnect }
        requires room { 0 < log.old.room }
        ensures goes { OnOk result ((fits : Bool) → Refines (on_malformed conn fault fits) self.old log.old.acts self.new log.new.acts) }
        ensures room { log.old.room ≤ log.new.room + 1 }
        ensures err { OnErr result (self.new ≡ self.old) }
        ensures unsaid { OnErr result (log.new ≡ log.old) }
    {
        if is_level(fault.kind) {
            return self.refuse(conn, RefusalCode::UnacceptableProtocolVersion, log);
        }
        self.close_idle(conn, HubClose::Own(CloseReason::Fault(fault)), log);
        Ok(())
    }

    /// Closes a connection whose first packet is not CONNECT (3.1).
    pub(crate) fn on_wrong_first_packet(&mut self, conn: Conn, packet: &Packet, log: &mut ActLog)
        requires fresh { stage_of conn self.old.connections ≡ ConnectionState.AwaitingConnect }
        requires other { is_connect packet.now ≡ false }
        requires room { 0 < log.old.room }
        ensures goes { (fits : Bool) → Refines (on_first_packet conn packet.now fits) self.old log.old.acts self.new log.new.acts }
        ensures room { log.old.room ≤ log.new.room + 1 }
    {
        let _ = packet;
        self.close_idle(conn, HubClose::Own(CloseReason::Unexpected), log);
    }
}
