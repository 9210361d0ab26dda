//! Handles a whole packet of a connection (3.1 to 3.14).

ghost use Rattle.std.specs.Prelude.{◌≡◌, ◌≤◌, true, length};
ghost use Rattle.mq_hub.specs.Prelude.{fields, Growth, on_packet, is_open, stage_of, Refines};

use crate::acts::ActLog;
use crate::hub::HubOver;
use mq_packet::Packet;
use mq_route::Conn;
use mq_topic::FilterStore;

impl<S: FilterStore> HubOver<S> {
    /// Records the time of a whole packet (3.1.2.10) and handles it. Closes the connection if an
    /// allocation fails. The index is tried before a search.
    #[inline(always)]
    pub(crate) fn on_packet(&mut self, conn: Conn, place: usize, packet: Packet, log: &mut ActLog)
        requires open { is_open (stage_of conn self.old.connections) ≡ true }
        requires within { length (fields packet) ≤ self.old.config.limits.most }
        requires room { 3 ≤ log.old.room }
        ensures goes { (growth : Growth) × Refines (on_packet conn packet growth) self.old log.old.acts self.new log.new.acts }
        ensures room { is_open (stage_of conn self.new.connections) ≡ true → 3 ≤ log.new.room }
    {
        let up = self.touch(conn, place);
        match self.dispatch_packet(conn, up, packet, log) {
            Ok(()) => {}
            Err(_) => self.close_out_of_memory(conn, log),
        }
    }
}
