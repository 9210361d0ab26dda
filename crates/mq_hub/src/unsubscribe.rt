//! Handles an UNSUBSCRIBE (3.10).

ghost use Rattle.std.specs.Prelude.{◌≡◌, ◌≤◌, ◌++◌, [], Bool, true, is_some, OnOk, OnErr, IsSome};
ghost use Rattle.mq_hub.specs.Prelude.{unsuback_size, Conn, answers, on_connected_packet, up_on, CanServe, AreSameButRoom, IsReadyAt, session_at, AreAlike, Answers, Refines, unsubscribed_acts, without_rows};
ghost use Rattle.mq_packet.specs.declared.packet.Packet.TheVariants as packets;
ghost use Rattle.mq_end.specs.declared.happening.Happening.TheVariants as happens;

use crate::acts::ActLog;
use crate::hub::HubOver;
use crate::subscriptions::remove_rows;
use mq_end::size_laws;
use mq_packet::{NonEmpty, PacketId};
use mq_tables::{Call, Sessions, Tables};
use mq_topic::{ClientKey, FilterStore, TopicFilter};
use std::alloc::AllocError;

// The greatest encoding of UNSUBACK, in bytes (3.11).
const UNSUBACK: usize = 7;

// Makes room in the session of a client for `more` bytes. On `Err` only reserved capacity may have
// changed.
fn make_bytes(sessions: &mut Sessions, key: ClientKey, more: usize) -> Result<(), AllocError>
    requires { IsSome (session_at key sessions.old.list) }
    ensures ok { OnOk result (IsReadyAt key [] more sessions.new.list) }
    ensures same { AreSameButRoom sessions.old.list sessions.new.list }
    ensures room { sessions.new.room ≡ sessions.old.room }
{
    match sessions.ready(key, &[], more) {
        Ok(()) => Ok(()),
        Err(_) => Err(AllocError),
    }
}

/// Removes subscriptions of a client and queues UNSUBACK (3.10.4). On `Err` only reserved
/// capacity may have changed.
pub(crate) fn unsubscribe<S: FilterStore>(
    tables: &mut Tables<S>,
    key: ClientKey,
    id: PacketId,
    filters: NonEmpty<TopicFilter>,
    log: &mut ActLog,
) -> Result<(), AllocError>
    requires { CanServe key (Call.Drops id) tables.old.sessions.list }
    ensures ok { OnOk result (Answers key (Call.Drops id) (without_rows key filters tables.old.rows) tables.old tables.new) }
    ensures acts { OnOk result (log.new.acts ≡ log.old.acts ++ unsubscribed_acts key filters) }
    ensures room { OnOk result (3 ≤ log.new.room) }
    ensures err { OnErr result (AreAlike tables.old tables.new) }
    ensures err_acts { OnErr result (log.new.acts ≡ log.old.acts) }
    ensures err_room { OnErr result (log.old.room ≤ log.new.room) }
{
    size_laws();
    let filters = filters.into_vec();
    log.reserve(filters.len() + 3)?;
    make_bytes(&mut tables.sessions, key, UNSUBACK)?;
    remove_rows(&mut tables.store, key, filters, log);
    let _ = tables.sessions.serve(key, Call::Drops(id));
    Ok(())
}

impl<S: FilterStore> HubOver<S> {
    /// Removes subscriptions of a connected client and queues UNSUBACK (3.10.4).
    pub(crate) fn on_unsubscribe(
        &mut self,
        key: ClientKey,
        id: PacketId,
        filters: NonEmpty<TopicFilter>,
        log: &mut ActLog,
    ) -> Result<(), AllocError>
        requires up { is_some (up_on key self.old.connections) ≡ true }
        requires within { unsuback_size ≤ self.old.config.limits.most }
        ensures goes { OnOk result ((conn : Conn)
            → Refines (answers conn key (happens.Unsubscribe id filters)) self.old log.old.acts self.new log.new.acts) }
        ensures takes { OnOk result ((conn : Conn) (fits : Bool)
            → Refines (on_connected_packet conn key (packets.Unsubscribe id filters) fits) self.old log.old.acts self.new log.new.acts) }
        ensures room { OnOk result (3 ≤ log.new.room) }
        ensures err { OnErr result (self.new ≡ self.old) }
        ensures err_acts { OnErr result (log.new.acts ≡ log.old.acts) }
        ensures err_room { OnErr result (log.old.room ≤ log.new.room) }
    {
        unsubscribe(&mut self.tables, key, id, filters, log)
    }
}
