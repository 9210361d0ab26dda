//! The end of a session processes a CONNECT (3.1.4, 3.2).

ghost use Rattle.std.specs.Prelude.{◌≡◌, ◌<◌, [], OnOk, OnErr, IsSome};
ghost use Rattle.mq_tables.specs.Prelude.{HasConnectRoom, Room, resume_session, connected_end, roomed, HasConnected, IsRoomed, session_at};

use crate::sessions::table::Sessions;
use mq_end::ServerEnd;
use mq_packet::{BoxedConnect, Connect, Packet, encoding_laws};
use mq_topic::ClientKey;
use std::alloc::AllocError;

/// Has an end process a CONNECT for which it has room (3.1.4, 3.2).
pub(crate) fn connect_end(end: &mut ServerEnd, connect: BoxedConnect, now: u64)
    requires { HasConnectRoom connect [] 0 end.old }
    ensures { end.new ≡ connected_end connect now end.old }
{
    encoding_laws();
    end.opened(now);
    let _ = end.take_packet(now, Packet::Connect(connect));
}

/// Makes room in an end for a CONNECT and has it process the CONNECT. On `Err` only reserved
/// capacity may have changed.
pub fn connect_with_room(
    end: &mut ServerEnd,
    connect: BoxedConnect,
    now: u64,
) -> Result<(), AllocError>
    ensures ok { OnOk result ((room : Room) × (end.new ≡ connected_end connect now (roomed room end.old))) }
    ensures err { OnErr result ((room : Room) × (end.new ≡ roomed room end.old)) }
{
    end.reserve_connect(connect.as_connect(), &[], 0)?;
    connect_end(end, connect, now);
    Ok(())
}

impl Sessions {
    /// Has the end of a session process a CONNECT. `blank` takes its place in the table meanwhile.
    /// On `Err` only the capacity of the end may have changed.
    pub fn resume_session(
        &mut self,
        key: ClientKey,
        blank: ServerEnd,
        connect: BoxedConnect,
        now: u64,
    ) -> Result<(), AllocError>
        requires { IsSome (session_at key self.old.list) }
        ensures ok { OnOk result (HasConnected connect now key self.old.list self.new.list) }
        ensures err { OnErr result (IsRoomed key self.old.list self.new.list) }
        ensures room { self.new.room ≡ self.old.room }
    {
        let mut end = blank;
        self.swap_end(key, &mut end);
        let answer = connect_with_room(&mut end, connect, now);
        self.swap_end(key, &mut end);
        answer
    }
}
