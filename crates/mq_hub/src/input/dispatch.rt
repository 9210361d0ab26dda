//! Handles a packet of an open connection by its type (3.1 to 3.14, 4.8).

ghost use Rattle.std.specs.Prelude.{◌≡◌, ◌≤◌, Bool, true, length, IfSome, OnOk, OnErr};
ghost use Rattle.mq_hub.specs.Prelude.{is_up, fields, dispatch_packet, end_of, is_open, key_on, stage_of, Refines};

use crate::acts::ActLog;
use crate::hub::HubOver;
use mq_end::size_laws;
use mq_packet::Packet;
use mq_route::Conn;
use mq_topic::{ClientKey, FilterStore};
use std::alloc::AllocError;

impl<S: FilterStore> HubOver<S> {
    /// Handles a packet of an open connection. `up` must be the key of the session for which it is
    /// connected; if `None`, the packet must be CONNECT (3.1).
    #[inline(always)]
    pub(crate) fn dispatch_packet(
        &mut self,
        conn: Conn,
        up: Option<ClientKey>,
        packet: Packet,
        log: &mut ActLog,
    ) -> Result<(), AllocError>
        requires open { is_open (stage_of conn self.old.connections) ≡ true }
        requires key { key_on (stage_of conn self.old.connections) ≡ up }
        requires end { IfSome up (λ key. is_up (end_of key self.old.sessions).state ≡ true) }
        requires within { length (fields packet) ≤ self.old.config.limits.most }
        requires room { 3 ≤ log.old.room }
        ensures goes { OnOk result ((fits : Bool)
            × Refines (dispatch_packet conn packet fits (stage_of conn self.old.connections)) self.old log.old.acts self.new log.new.acts) }
        ensures room { OnOk result (is_open (stage_of conn self.new.connections) ≡ true → 3 ≤ log.new.room) }
        ensures err { OnErr result (self.new ≡ self.old) }
        ensures err_acts { OnErr result (log.new.acts ≡ log.old.acts) }
        ensures err_room { OnErr result (3 ≤ log.new.room) }
    {
        let Some(key) = up else {
            return self.on_first_packet(conn, packet, log);
        };
        size_laws();
        match packet {
            Packet::Publish(publish) => {
                // Brings into the proof that the quality of service decides whether there is a
                // delivery.
                let _ = publish.delivery();
                self.on_publish(conn, key, publish, log)
            }
            Packet::Subscribe { id, requests } => {
                self.take_subscribe(conn, key, id, requests, log)
            }
            Packet::Unsubscribe { id, filters } => self.on_unsubscribe(key, id, filters, log),
            _ => self.take_other(conn, key, packet, log),
        }
    }
}
