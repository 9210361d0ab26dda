//! Has the end of a publisher process its PUBLISH (3.3, 4.3).

ghost use Rattle.std.specs.Prelude.{◌≡◌, ℕ, List, true, None, Some, OnOk, OnErr};
ghost use Rattle.mq_hub.specs.Prelude.{Message, fits_delivery, end_of, CanServe, publish_call, reply_of, sessions_of, AreAlike, Answers, AreReady, HaveQueued, HaveSameBooks, publish_answer};

use mq_packet::{Delivery, Message};
use mq_tables::Tables;
use mq_topic::{ClientKey, FilterStore};
use std::alloc::AllocError;

/// Has the end of a connected client process a PUBLISH whose message is new. Sessions with room
/// for messages and for the seven bytes of PUBACK or PUBREC still have room for the messages
/// afterwards (3.4, 3.5).
#[inline(always)]
pub(crate) fn accept_publish<S: FilterStore>(
    tables: &mut Tables<S>,
    key: ClientKey,
    now: u64,
    message: &Message,
    delivery: Option<Delivery>,
) -> Result<(), AllocError>
    requires fits { fits_delivery message.now.qos delivery ≡ true }
    requires can { CanServe key (publish_call now message.now delivery) tables.old.sessions.list }
    requires stays { (reply_of (publish_call now message.now delivery) (end_of key (sessions_of tables.old.sessions.list))).close ≡ None }
    ensures ok { OnOk result (Answers key (publish_call now message.now delivery) tables.old.rows tables.old tables.new) }
    ensures ready { OnOk result ((copies : List (ℕ × Message)) → AreReady 7 tables.old.sessions.list copies
        → AreReady 0 tables.new.sessions.list copies) }
    ensures books { OnOk result (HaveSameBooks tables.old.sessions.list tables.new.sessions.list) }
    ensures outputs { OnOk result (HaveQueued (Some (publish_answer key delivery)) tables.old.sessions.list tables.new.sessions.list) }
    ensures err { OnErr result (AreAlike tables.old tables.new) }
{
    let _ = tables.sessions.serve_publish(key, now, message, delivery)?;
    Ok(())
}
