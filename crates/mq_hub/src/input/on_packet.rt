//! Handles a packet of a connected client that changes only its session's end (3.3 to 3.14).

ghost use Rattle.std.specs.Prelude.{◌≡◌, List, [], Bool, true, None, is_some, OnOk, OnErr};
ghost use Rattle.mq_hub.specs.Prelude.{server_gets, Act, Conn, on_passed_packet, end_of, up_on, CanServe, AreAlike, Answers, Refines};

use crate::hub::HubOver;
use mq_packet::Packet;
use mq_tables::{Call, Tables};
use mq_topic::{ClientKey, FilterStore};
use std::alloc::AllocError;

/// Has the end of a session process a packet.
pub(crate) fn take<S: FilterStore>(
    tables: &mut Tables<S>,
    key: ClientKey,
    now: u64,
    packet: Packet,
) -> Result<(), AllocError>
    requires { CanServe key (Call.Takes now packet) tables.old.sessions.list }
    ensures ok { OnOk result (Answers key (Call.Takes now packet) tables.old.rows tables.old tables.new) }
    ensures err { OnErr result (AreAlike tables.old tables.new) }
{
    let _ = tables.sessions.serve(key, Call::Takes(now, packet))?;
    Ok(())
}

impl<S: FilterStore> HubOver<S> {
    /// Has the end of a connected client process a packet that reports nothing and does not close
    /// it: an acknowledgement, PINGREQ, or a repeated PUBLISH (3.4 to 3.7, 3.12, 4.3.3).
    pub(crate) fn take_silent(&mut self, key: ClientKey, packet: Packet) -> Result<(), AllocError>
        requires up { is_some (up_on key self.old.connections) ≡ true }
        requires stays { (server_gets packet (end_of key self.old.sessions)).close ≡ None }
        requires silent { (server_gets packet (end_of key self.old.sessions)).happenings ≡ [] }
        ensures goes { OnOk result ((conn : Conn) (fits : Bool) (said : List Act)
            → Refines (on_passed_packet conn key packet fits) self.old said self.new said) }
        ensures err { OnErr result (self.new ≡ self.old) }
    {
        let now = self.clock;
        take(&mut self.tables, key, now, packet)
    }
}
