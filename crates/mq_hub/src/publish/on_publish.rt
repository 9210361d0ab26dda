//! Handles a PUBLISH of a connected client (3.3, 4.3).

ghost use Rattle.std.specs.Prelude.{◌≡◌, ◌≤◌, List, Bool, true, false, Some, is_some, Ok, OnOk, OnErr};
ghost use Rattle.mq_hub.specs.Prelude.{is_up, publish_size, Act, Conn, on_connected_packet, HubState, end_of, is_open, key_on, stage_of, up_on, close, Refines, IsReceived};
ghost use Rattle.mq_packet.specs.declared.packet.Packet.TheVariants as packets;
ghost use Rattle.mq_route.specs.declared.close.HubClose.TheVariants as whys;

use crate::acts::ActLog;
use crate::hub::HubOver;
use crate::publish::acceptance::accept_publish;
use crate::publish::queued_answer::publish_answer;
use crate::publish::reception::Reception;
use crate::publish::reserve::{deliver, plan_delivery, reserve_delivery};
use mq_end::CloseReason;
use mq_packet::{Packet, Publish};
use mq_route::{Act, Conn, HubClose};
use mq_tables::rules_of;
use mq_topic::{ClientKey, FilterStore};
use std::alloc::AllocError;

// The greatest encoding of PUBACK and PUBREC, in bytes (3.4, 3.5).
const ACKNOWLEDGEMENT: usize = 7;

impl<S: FilterStore> HubOver<S> {
    // Processes a PUBLISH whose message is new: the publisher's end answers, and the message is
    // delivered. If a session has no room for its copy (2.3.1), the copy is missed, or `false` is
    // returned, with nothing changed, as the configuration says.
    #[inline(always)]
    fn deliver_new(
        &mut self,
        key: ClientKey,
        publish: Publish,
        log: &mut ActLog,
    ) -> Result<bool, AllocError>
        requires up { is_some (up_on key self.old.connections) ≡ true }
        requires handed { IsReceived Reception.New publish (end_of key self.old.sessions) }
        requires within { publish_size publish.message ≤ self.old.config.limits.most }
        requires room { 3 ≤ log.old.room }
        ensures takes { result ≡ Ok true → (conn : Conn) (fits : Bool)
            → Refines (on_connected_packet conn key (packets.Publish publish) fits) self.old log.old.acts self.new log.new.acts }
        ensures closed { result ≡ Ok false → (conn : Conn) (fits : Bool) (new : HubState) (says : List Act)
            → Refines (close conn whys.TargetFull fits) self.old log.old.acts new says
            → Refines (on_connected_packet conn key (packets.Publish publish) fits) self.old log.old.acts new says }
        ensures room { 3 ≤ log.new.room }
        ensures full { result ≡ Ok false → self.new ≡ self.old }
        ensures err { OnErr result (self.new ≡ self.old) }
        ensures full_acts { result ≡ Ok false → log.new.acts ≡ log.old.acts }
        ensures err_acts { OnErr result (log.new.acts ≡ log.old.acts) }
    {
        let now = self.clock;
        let delivery = publish.delivery();
        let message = publish.into_message();
        let mut plan = plan_delivery(&self.tables, self.alloc, &message)?;
        let rules = rules_of(&self.config);
        let answer = Some(publish_answer(key, delivery));
        if !reserve_delivery(
            &mut self.tables,
            self.alloc,
            rules,
            answer,
            &mut plan,
            ACKNOWLEDGEMENT,
            log,
        )? {
            return Ok(false);
        }
        accept_publish(&mut self.tables, key, now, &message, delivery)?;
        deliver(&mut self.tables, Act::Took(key, message), plan, log);
        Ok(true)
    }

    /// Handles a PUBLISH (3.3): its message is delivered and the publisher's end answers. Closes
    /// the connection if the identifier does not fit the receive window, or if a session has no
    /// room for its copy (2.3.1) and the configuration says so.
    #[inline(always)]
    pub(crate) fn on_publish(
        &mut self,
        conn: Conn,
        key: ClientKey,
        publish: Publish,
        log: &mut ActLog,
    ) -> Result<(), AllocError>
        requires up { key_on (stage_of conn self.old.connections) ≡ Some key }
        requires end { is_up (end_of key self.old.sessions).state ≡ true }
        requires within { publish_size publish.message ≤ self.old.config.limits.most }
        requires room { 3 ≤ log.old.room }
        ensures goes { OnOk result ((fits : Bool)
            × Refines (on_connected_packet conn key (packets.Publish publish) fits) self.old log.old.acts self.new log.new.acts) }
        ensures room { OnOk result (is_open (stage_of conn self.new.connections) ≡ true → 3 ≤ log.new.room) }
        ensures err { OnErr result (self.new ≡ self.old) }
        ensures err_acts { OnErr result (log.new.acts ≡ log.old.acts) }
        ensures err_room { OnErr result (3 ≤ log.new.room) }
    {
        match self.reception(key, &publish) {
            Reception::New => {
                if self.deliver_new(key, publish, log)? {
                    return Ok(());
                }
                self.close(conn, HubClose::TargetFull, log);
                Ok(())
            }
            Reception::Duplicate => self.take_silent(key, Packet::Publish(publish)),
            Reception::WindowFull => {
                self.close(conn, HubClose::Own(CloseReason::Window), log);
                Ok(())
            }
        }
    }
}
