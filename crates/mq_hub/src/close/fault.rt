//! Closes a connection on which no further packet can be read, because its bytes are malformed or
//! memory ran out (4.8).

ghost use Rattle.std.specs.Prelude.{◌≡◌, ◌≤◌, Bool, List, ℕ, Err, true, OnOk, OnErr};
ghost use Rattle.mq_hub.specs.Prelude.{IsFront, Bounds, on_malformed, is_open, stage_of, close, RefinesBytes, Refines};

use crate::acts::ActLog;
use crate::hub::HubOver;
use mq_decode::{DecodeError, DecodeFault};
use mq_end::CloseReason;
use mq_route::{Conn, HubClose};
use mq_topic::FilterStore;
use std::alloc::AllocError;

impl<S: FilterStore> HubOver<S> {
    /// Closes an open connection on which malformed bytes arrived (4.8).
    pub(crate) fn on_malformed(
        &mut self,
        conn: Conn,
        fault: DecodeFault,
        log: &mut ActLog,
    ) -> Result<(), AllocError>
        requires open { is_open (stage_of conn self.old.connections) ≡ true }
        requires room { 3 ≤ log.old.room }
        ensures goes { OnOk result ((fits : Bool) × Refines (on_malformed conn fault fits) self.old log.old.acts self.new log.new.acts) }
        ensures err { OnErr result (self.new ≡ self.old) }
        ensures acts { OnErr result (log.new.acts ≡ log.old.acts) }
        ensures kept { OnErr result (3 ≤ log.new.room) }
    {
        match self.key(conn) {
            Some(_) => {
                let why = HubClose::Own(CloseReason::Fault(fault));
                self.close(conn, why, log);
                Ok(())
            }
            None => self.on_malformed_first(conn, fault, log),
        }
    }

    pub(crate) fn close_out_of_memory(&mut self, conn: Conn, log: &mut ActLog)
        requires open { is_open (stage_of conn self.old.connections) ≡ true }
        requires room { 3 ≤ log.old.room }
        ensures goes { (fits : Bool) × Refines (close conn (HubClose.Own CloseReason.Memory) fits) self.old log.old.acts self.new log.new.acts }
    {
        self.close(conn, HubClose::Own(CloseReason::Memory), log);
    }

    /// Closes an open connection on which no further packet can be read.
    pub(crate) fn on_decode_error(&mut self, conn: Conn, error: DecodeError, log: &mut ActLog)
        requires open { is_open (stage_of conn self.old.connections) ≡ true }
        requires room { 3 ≤ log.old.room }
        ensures comes { (limits : Bounds) (b : List ℕ) → IsFront limits b (Err error)
            → (most : ℕ) → RefinesBytes limits conn most b self.old log.old.acts self.new log.new.acts }
    {
        match error {
            DecodeError::Fault(fault) => match self.on_malformed(conn, fault, log) {
                Ok(()) => {}
                Err(_) => self.close_out_of_memory(conn, log),
            },
            DecodeError::Memory => self.close_out_of_memory(conn, log),
        }
    }
}
