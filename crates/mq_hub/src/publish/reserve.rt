//! Plans the delivery of a message and reserves the memory for it, before anything changes. Then
//! delivers it.

ghost use Rattle.std.specs.Prelude.{◌≡◌, ◌+◌, ◌≤◌, ◌<◌, ℕ, length, true, IfOk, Ok};
ghost use Rattle.mq_hub.specs.Prelude.{Message, publish_size, HubConfig, HubState, copies_of, have_room, deliver, AreStillReady, IsKeptOf, rules_of, Refines, HubInvariant, placed_all, AreFor, HasSessions, Settles, answer_for, hub_of, AreTablesAlike, IsPlanned, IsReserved};

use crate::acts::ActLog;
use crate::publish::delivery::{DeliveryPlan, push_all};
use crate::publish::enqueue::{copies_of, enqueue_all};
use crate::publish::queued_answer::QueuedAnswer;
use mq_packet::Message;
use mq_route::Act;
use mq_tables::{CopyRules, Tables, to_retain};
use mq_topic::FilterStore;
use std::alloc::{AllocError, Global};

/// Plans the delivery of a message. The plan shares the message's bytes.
#[inline(always)]
pub(crate) fn plan_delivery<S: FilterStore>(
    tables: &Tables<S>,
    alloc: Global,
    message: &Message,
) -> Result<DeliveryPlan, AllocError>
    ensures kept { IfOk result (λ s. IsKeptOf message.now s.kept) }
    ensures planned { IfOk result (λ s. IsPlanned s) }
    ensures copies { IfOk result (λ s. (config : HubConfig) (clock next_key : ℕ)
        → s.copies.items ≡ copies_of message.now (hub_of config clock next_key tables.now)) }
    ensures due { IfOk result (λ s. (config : HubConfig) (next_key : ℕ) → HubInvariant config next_key tables.now
        → publish_size message.now ≤ config.limits.most → AreFor tables.now.sessions.list s.copies.items) }
{
    let copies = copies_of(
        alloc,
        &tables.store,
        &tables.connections,
        &tables.sessions,
        message,
    )?;
    let kept = to_retain(message)?;
    Ok(DeliveryPlan {
        kept,
        copies,
        acts: Vec::new(alloc),
    })
}

/// Makes room for a planned delivery: among the retained messages, in the sessions of the
/// subscribers (with `more` bytes besides), and for its acts. The answer is queued before the
/// copies. Copies that are missed are dropped from the plan. Returns `false` if a session has
/// no room for its copy (2.3.1) and the rules do not drop it. Nothing but the plan and reserved
/// capacity changes, also on `Err`.
#[inline(always)]
pub(crate) fn reserve_delivery<S: FilterStore>(
    tables: &mut Tables<S>,
    alloc: Global,
    rules: CopyRules,
    answer: Option<QueuedAnswer>,
    plan: &mut DeliveryPlan,
    more: usize,
    log: &mut ActLog,
) -> Result<bool, AllocError>
    requires planned { IsPlanned plan.old }
    requires due { AreFor tables.old.sessions.list plan.old.copies.items }
    ensures enough { IfOk result (λ enough. (h : HubState) → HasSessions tables.old.sessions.list h → rules_of h.config ≡ rules
        → enough ≡ have_room plan.old.copies.items h) }
    ensures settles { result ≡ Ok true → (h : HubState) → HasSessions tables.old.sessions.list h → rules_of h.config ≡ rules
        → Settles h.config (answer_for answer) tables.old.sessions.list plan.old.copies.items plan.new.copies.items plan.new.acts.items }
    ensures ready { result ≡ Ok true → IsReserved more plan.new tables.new log.new.room }
    ensures left { result ≡ Ok true → log.old.room + length plan.new.acts.items < log.new.room }
    ensures kept { plan.new.kept ≡ plan.old.kept }
    ensures alike { AreTablesAlike tables.old tables.new }
    ensures still { AreStillReady tables.old.sessions.list tables.new.sessions.list }
    ensures sessions { tables.new.sessions.room ≡ tables.old.sessions.room }
    ensures acts { log.new.acts ≡ log.old.acts }
    ensures room { log.old.room ≤ log.new.room }
{
    tables.retained.reserve(1)?;
    log.reserve_more(plan.copies.len() + 1)?;
    plan.make_room(alloc, &mut tables.sessions, rules, answer, more)
}

/// Delivers a message for which room was reserved, after an act that reports it as taken or as
/// a will: it is retained (3.3.1.3) and its copies are placed (3.3.5).
#[inline(always)]
pub(crate) fn deliver<S: FilterStore>(
    tables: &mut Tables<S>,
    act: Act,
    plan: DeliveryPlan,
    log: &mut ActLog,
)
    requires ready { IsReserved 0 plan tables.old log.old.room }
    ensures goes { (m : Message) (config : HubConfig) (clock next_key : ℕ) → IsKeptOf m plan.kept → HubInvariant config next_key tables.old
        → Settles config (λ k. 0) tables.old.sessions.list (copies_of m (hub_of config clock next_key tables.old)) plan.copies.items plan.acts.items
        → Refines (deliver act m) (hub_of config clock next_key tables.old) log.old.acts
        (hub_of config clock next_key tables.new) log.new.acts }
    ensures keeps { (m : Message) (config : HubConfig) (next_key : ℕ) → IsKeptOf m plan.kept → HubInvariant config next_key tables.old
        → publish_size m ≤ config.limits.most → HubInvariant config next_key tables.new }
    ensures list { tables.new.sessions.list ≡ placed_all plan.copies.items tables.old.sessions.list }
    ensures sessions { tables.new.sessions.room ≡ tables.old.sessions.room }
    ensures connections { tables.new.connections ≡ tables.old.connections }
    ensures room { log.old.room ≤ log.new.room + length plan.acts.items + 1 }
{
    let DeliveryPlan { kept, copies, acts } = plan;
    tables.retained.retain_planned(kept);
    log.push(act);
    push_all(log, acts);
    enqueue_all(&mut tables.sessions, copies);
}
