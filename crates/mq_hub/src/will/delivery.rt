//! Delivers the message of a will (3.1.2.5, 3.3.1.3, 3.3.5).

ghost use Rattle.std.specs.Prelude.{◌≡◌, ◌≤◌, ℕ, [], ◌∷◌, true, false, IfOk, OnErr, Ok};
ghost use Rattle.mq_hub.specs.Prelude.{publish_size, HubConfig, copies_of, have_room, deliver, rules_of, Refines, HubInvariant, AreHubTables, Spares, KeepsConnectRoom, hub_of, AreTablesAlike};

use crate::acts::ActLog;
use crate::publish::reserve::{deliver, plan_delivery, reserve_delivery};
use mq_end::size_laws;
use mq_packet::Message;
use mq_route::Act;
use mq_tables::{CopyRules, Tables};
use mq_topic::{ClientKey, FilterStore};
use std::alloc::{AllocError, Global};

/// Delivers the message of a client's will, after an act that reports it (3.1.2.5): it is
/// retained (3.3.1.3), and its copies are placed (3.3.5). If a session has no room for its copy
/// (2.3.1), the copy is missed, or `false` is returned, as the rules say. Then, and on `Err`,
/// only reserved capacity may have changed. Room that was reserved before stays reserved.
pub(crate) fn try_deliver<S: FilterStore>(
    tables: &mut Tables<S>,
    alloc: Global,
    rules: CopyRules,
    key: ClientKey,
    message: Message,
    log: &mut ActLog,
) -> Result<bool, AllocError>
    requires hubs { AreHubTables tables.old }
    requires within { publish_size message ≤ tables.old.connections.limits.packets.most }
    ensures goes { result ≡ Ok true → (config : HubConfig) (clock next_key : ℕ) → HubInvariant config next_key tables.old → rules_of config ≡ rules
        → Refines (deliver (Act.Will key message) message) (hub_of config clock next_key tables.old) log.old.acts (hub_of config clock next_key tables.new) log.new.acts }
    ensures enough { IfOk result (λ enough. (config : HubConfig) (clock next_key : ℕ) → HubInvariant config next_key tables.old → rules_of config ≡ rules
        → enough ≡ have_room (copies_of message (hub_of config clock next_key tables.old)) (hub_of config clock next_key tables.old)) }
    ensures full { result ≡ Ok false → AreTablesAlike tables.old tables.new × (log.new.acts ≡ log.old.acts) }
    ensures err { OnErr result (AreTablesAlike tables.old tables.new × (log.new.acts ≡ log.old.acts)) }
    ensures spares { Spares tables.old tables.new }
    ensures connect_end { KeepsConnectRoom (message ∷ []) tables.old tables.new }
    ensures room { log.old.room ≤ log.new.room }
{
    size_laws();
    let mut plan = plan_delivery(tables, alloc, &message)?;
    if !reserve_delivery(tables, alloc, rules, None, &mut plan, 0, log)? {
        return Ok(false);
    }
    deliver(tables, Act::Will(key, message), plan, log);
    Ok(true)
}
