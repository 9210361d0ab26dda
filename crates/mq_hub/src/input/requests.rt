//! Handles the packets of a connected client other than PUBLISH and UNSUBSCRIBE (3.3 to 3.14, 4.8).

ghost use Rattle.std.specs.Prelude.{◌≡◌, ℕ, ◌≤◌, ◌+◌, ◌*◌, [], Bool, true, not, length, None, is_some, OnOk, OnErr, IfSome, IfNone};
ghost use Rattle.mq_hub.specs.Prelude.{End, closes, is_up, server_up_gets, subscribe_size, on_connected_packet, on_passed_packet, end_of, is_open, stage_of, up_on, leaves, RequestsNothing, Refines};
ghost use Rattle.mq_packet.specs.declared.packet.Packet.TheVariants as packets;

use crate::acts::ActLog;
use crate::hub::HubOver;
use mq_end::CloseReason;
use mq_packet::{NonEmpty, Packet, PacketId, Request};
use mq_route::{Conn, HubClose};
use mq_topic::{ClientKey, FilterStore};
use std::alloc::AllocError;

// Returns why a packet closes the connection: it is DISCONNECT (3.14), or a packet that a client
// must not send, other than a second CONNECT (3.1, 4.8). If `None`, the end reports nothing.
fn closing_reason(packet: &Packet) -> Option<CloseReason>
    requires { RequestsNothing packet.now }
    ensures some { IfSome result (λ reason. (e : End) → server_up_gets packet.now e ≡ closes reason e) }
    ensures none { IfNone result ((e : End) → ((server_up_gets packet.now e).close ≡ None) × ((server_up_gets packet.now e).happenings ≡ [])) }
{
    match packet {
        Packet::Disconnect => Some(CloseReason::Left),
        Packet::PubAck(_)
        | Packet::PubRec(_)
        | Packet::PubRel(_)
        | Packet::PubComp(_)
        | Packet::PingReq => None,
        _ => Some(CloseReason::Unexpected),
    }
}

// Whether a product exceeds a limit.
fn exceeds(most: Option<u64>, first: usize, second: usize) -> bool
    ensures { result ≡ not (leaves most 0 (first * second)) }
{
    let Some(most) = most else {
        return false;
    };
    match first.checked_mul(second) {
        Some(product) => product as u64 > most,
        None => true,
    }
}

impl<S: FilterStore> HubOver<S> {
    // Whether a SUBSCRIBE with this number of filters is too broad (3.8.4).
    fn is_too_broad(&self, filters: usize) -> bool
        ensures { result ≡ not (leaves self.now.config.most_matches 0 (filters * length self.now.retained)) }
    {
        exceeds(
            self.config.most_matches,
            filters,
            self.tables.retained.len(),
        )
    }

    // Handles a SUBSCRIBE that is not too broad. If the session has too few free identifiers for
    // the retained messages (2.3.1), the ones without room are missed, or the connection is closed,
    // as the configuration says.
    fn take_narrow(
        &mut self,
        conn: Conn,
        key: ClientKey,
        id: PacketId,
        requests: NonEmpty<Request>,
        log: &mut ActLog,
    ) -> Result<(), AllocError>
        requires up { is_some (up_on key self.old.connections) ≡ true }
        requires within { subscribe_size requests ≤ self.old.config.limits.most }
        requires room { 3 ≤ log.old.room }
        ensures goes { OnOk result ((fits : Bool)
            × Refines (on_passed_packet conn key (packets.Subscribe id requests) fits) self.old log.old.acts self.new log.new.acts) }
        ensures room { OnOk result (is_open (stage_of conn self.new.connections) ≡ true → 3 ≤ log.new.room) }
        ensures err { OnErr result (self.new ≡ self.old) }
        ensures err_acts { OnErr result (log.new.acts ≡ log.old.acts) }
        ensures err_room { OnErr result (3 ≤ log.new.room) }
    {
        if self.on_subscribe(key, id, requests, log)? {
            return Ok(());
        }
        self.close(conn, HubClose::TargetFull, log);
        Ok(())
    }

    /// Handles a SUBSCRIBE (3.8.4). One that is too broad closes its connection.
    pub(crate) fn take_subscribe(
        &mut self,
        conn: Conn,
        key: ClientKey,
        id: PacketId,
        requests: NonEmpty<Request>,
        log: &mut ActLog,
    ) -> Result<(), AllocError>
        requires up { is_some (up_on key self.old.connections) ≡ true }
        requires within { subscribe_size requests ≤ self.old.config.limits.most }
        requires room { 3 ≤ log.old.room }
        ensures goes { OnOk result ((fits : Bool)
            × Refines (on_connected_packet conn key (packets.Subscribe id requests) fits) self.old log.old.acts self.new log.new.acts) }
        ensures room { OnOk result (is_open (stage_of conn self.new.connections) ≡ true → 3 ≤ log.new.room) }
        ensures err { OnErr result (self.new ≡ self.old) }
        ensures err_acts { OnErr result (log.new.acts ≡ log.old.acts) }
        ensures err_room { OnErr result (3 ≤ log.new.room) }
    {
        if self.is_too_broad(requests.as_slice().len()) {
            self.close(conn, HubClose::TooManyMatches, log);
            return Ok(());
        }
        self.take_narrow(conn, key, id, requests, log)
    }

    /// Handles a packet other than PUBLISH, SUBSCRIBE and UNSUBSCRIBE (3.1, 3.14, 4.8).
    pub(crate) fn take_other(
        &mut self,
        conn: Conn,
        key: ClientKey,
        packet: Packet,
        log: &mut ActLog,
    ) -> Result<(), AllocError>
        requires asks { RequestsNothing packet }
        requires up { is_some (up_on key self.old.connections) ≡ true }
        requires end { is_up (end_of key self.old.sessions).state ≡ true }
        requires room { 3 ≤ log.old.room }
        ensures goes { OnOk result ((fits : Bool) × Refines (on_connected_packet conn key packet fits) self.old log.old.acts self.new log.new.acts) }
        ensures room { OnOk result (is_open (stage_of conn self.new.connections) ≡ true → 3 ≤ log.new.room) }
        ensures err { OnErr result (self.new ≡ self.old) }
        ensures err_acts { OnErr result (log.new.acts ≡ log.old.acts) }
        ensures err_room { OnErr result (3 ≤ log.new.room) }
    {
        match closing_reason(&packet) {
            Some(reason) => {
                self.close(conn, HubClose::Own(reason), log);
                Ok(())
            }
            None => self.take_silent(key, packet),
        }
    }
}
