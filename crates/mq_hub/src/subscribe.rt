//! Handles a SUBSCRIBE (3.8).

ghost use Rattle.std.specs.Prelude.{◌≡◌, ◌≤◌, ◌++◌, List, Bool, true, false, is_some, Ok, IfOk, OnErr};
ghost use Rattle.mq_hub.specs.Prelude.{Message, subscribe_size, Act, Conn, answers, granted, on_passed_packet, HubState, for_key, up_on, close, have_room, retained_copies, CanServe, rules_of, AreAlike, Subscribes, Refines, HasSessions, IsFor, subscribed_acts};
ghost use Rattle.mq_packet.specs.declared.packet.Packet.TheVariants as packets;
ghost use Rattle.mq_end.specs.declared.happening.Happening.TheVariants as happens;
ghost use Rattle.mq_route.specs.declared.close.HubClose.TheVariants as whys;

use crate::acts::ActLog;
use crate::hub::HubOver;
use crate::publish::delivery::push_all;
use crate::publish::enqueue::{enqueue_for, retained_copies};
use crate::publish::settle::{SettledMessages, settle_for};
use crate::subscriptions::push_subscribed;
use mq_end::{packet_len, size_laws};
use mq_packet::{NonEmpty, PacketId, Request, SubAckCode};
use mq_tables::{Call, CopyRules, Tables, rules_of, set_rows};
use mq_topic::{ClientKey, FilterStore};
use std::alloc::{AllocError, Global};

// The greatest encoding of SUBACK without its codes, in bytes (3.9).
const SUBACK: usize = 7;

// The codes of a SUBACK: each request gets the quality of service that it asks for (3.9.3).
fn granted(alloc: Global, requests: &[Request]) -> Result<Vec<SubAckCode>, AllocError>
    ensures { IfOk result (λ codes. codes.items ≡ granted requests.now) }
{
    let mut codes = Vec::new(alloc);
    for request in requests {
        codes.push(SubAckCode::Granted(request.qos))?;
    }
    Ok(codes)
}

/// Subscribes a client (3.8.4): its subscriptions are set, SUBACK is queued, and the retained
/// messages are placed or missed. Returns `false` if its session has no room for them (2.3.1)
/// and the rules do not drop those without room. Then, and on `Err`, only reserved capacity may
/// have changed.
pub(crate) fn subscribe<S: FilterStore>(
    tables: &mut Tables<S>,
    alloc: Global,
    rules: CopyRules,
    key: ClientKey,
    id: PacketId,
    requests: NonEmpty<Request>,
    log: &mut ActLog,
) -> Result<bool, AllocError>
    requires can { CanServe key (Call.Grants id (granted requests)) tables.old.sessions.list }
    requires due { (ms : List Message) → for_key key ms ≡ retained_copies key requests tables.old.retained.messages → IsFor key ms tables.old.sessions.list }
    ensures enough { IfOk result (λ enough. (h : HubState) → HasSessions tables.old.sessions.list h → rules_of h.config ≡ rules
        → have_room (retained_copies key requests tables.old.retained.messages) h ≡ enough) }
    ensures done { result ≡ Ok true → (says : List Act) × Subscribes key id requests rules tables.old tables.new says
        × (log.new.acts ≡ (log.old.acts ++ subscribed_acts key requests) ++ says) }
    ensures room { result ≡ Ok true → 3 ≤ log.new.room }
    ensures full { result ≡ Ok false → AreAlike tables.old tables.new }
    ensures err { OnErr result (AreAlike tables.old tables.new) }
    ensures full_acts { result ≡ Ok false → log.new.acts ≡ log.old.acts }
    ensures full_room { result ≡ Ok false → log.old.room ≤ log.new.room }
    ensures err_acts { OnErr result (log.new.acts ≡ log.old.acts) }
    ensures err_room { OnErr result (log.old.room ≤ log.new.room) }
{
    size_laws();
    let messages = retained_copies(alloc, &tables.retained, requests.as_slice())?;
    let codes = granted(alloc, requests.as_slice())?;
    let count = requests.as_slice().len();
    log.reserve(count + messages.len() + 3)?;
    let more = SUBACK + count;
    let queued = packet_len(2 + count);
    let Some(settled) = settle_for(
        alloc,
        &mut tables.sessions,
        rules,
        key,
        messages,
        queued,
        more,
    )?
    else {
        return Ok(false);
    };
    set_rows(alloc, &mut tables.store, key, requests.as_slice())?;
    push_subscribed(log, key, requests.into_vec());
    let _ = tables
        .sessions
        .serve(key, Call::Grants(id, NonEmpty::from_vec(codes)));
    let SettledMessages { kept, acts } = settled;
    push_all(log, acts);
    enqueue_for(&mut tables.sessions, key, kept);
    Ok(true)
}

impl<S: FilterStore> HubOver<S> {
    /// Subscribes a connected client (3.8.4). If its session has no room for the retained messages
    /// (2.3.1), those without room are missed, or `false` is returned, with nothing changed, as the
    /// configuration says.
    pub(crate) fn on_subscribe(
        &mut self,
        key: ClientKey,
        id: PacketId,
        requests: NonEmpty<Request>,
        log: &mut ActLog,
    ) -> Result<bool, AllocError>
        requires up { is_some (up_on key self.old.connections) ≡ true }
        requires within { subscribe_size requests ≤ self.old.config.limits.most }
        ensures enough { IfOk result (λ enough. have_room (retained_copies key requests self.old.retained) self.old ≡ enough) }
        ensures goes { result ≡ Ok true → (conn : Conn)
            → Refines (answers conn key (happens.Subscribe id requests)) self.old log.old.acts self.new log.new.acts }
        ensures takes { result ≡ Ok true → (conn : Conn) (fits : Bool)
            → Refines (on_passed_packet conn key (packets.Subscribe id requests) fits) self.old log.old.acts self.new log.new.acts }
        ensures closed { result ≡ Ok false → (conn : Conn) (fits : Bool) (new : HubState) (says : List Act)
            → Refines (close conn whys.TargetFull fits) self.old log.old.acts new says
            → Refines (on_passed_packet conn key (packets.Subscribe id requests) fits) self.old log.old.acts new says }
        ensures room { result ≡ Ok true → 3 ≤ log.new.room }
        ensures full { result ≡ Ok false → self.new ≡ self.old }
        ensures err { OnErr result (self.new ≡ self.old) }
        ensures full_acts { result ≡ Ok false → log.new.acts ≡ log.old.acts }
        ensures full_room { result ≡ Ok false → log.old.room ≤ log.new.room }
        ensures err_acts { OnErr result (log.new.acts ≡ log.old.acts) }
        ensures err_room { OnErr result (log.old.room ≤ log.new.room) }
    {
        let alloc = self.alloc;
        let rules = rules_of(&self.config);
        subscribe(&mut self.tables, alloc, rules, key, id, requests, log)
    }
}
