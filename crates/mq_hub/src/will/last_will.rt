//! Publishes the will of a client, or reports it as dropped (3.1.2.5).

ghost use Rattle.std.specs.Prelude.{◌≡◌, ◌+◌, ◌≤◌, ◌<◌, ◌&&◌, ℕ, Bool, true, false, Some, Ok, IfOk, OnErr};
ghost use Rattle.mq_hub.specs.Prelude.{publish_size, HubConfig, will_message, copies_of, have_room, last_will, deliver, rules_of, Refines, HubInvariant, IsWillWithin, AreHubTables, Spares, will_messages, KeepsConnectRoom, hub_of, AreTablesAlike};

use crate::acts::ActLog;
use crate::will::delivery::try_deliver;
use mq_packet::Will;
use mq_route::Act;
use mq_tables::{CopyRules, Tables, will_message};
use mq_topic::{ClientKey, FilterStore};
use std::alloc::{AllocError, Global};

// Delivers the message of a will. Returns `false` if a session has no room for its copy and the
// rules do not drop it.
fn deliver_will<S: FilterStore>(
    tables: &mut Tables<S>,
    alloc: Global,
    rules: CopyRules,
    key: ClientKey,
    will: &Will,
    log: &mut ActLog,
) -> Result<bool, AllocError>
    requires hubs { AreHubTables tables.old }
    requires within { publish_size (will_message will.now) ≤ tables.old.connections.limits.packets.most }
    ensures goes { result ≡ Ok true → (config : HubConfig) (clock next_key : ℕ) → HubInvariant config next_key tables.old → rules_of config ≡ rules
        → Refines (deliver (Act.Will key (will_message will.now)) (will_message will.now)) (hub_of config clock next_key tables.old) log.old.acts
        (hub_of config clock next_key tables.new) log.new.acts }
    ensures enough { IfOk result (λ enough. (config : HubConfig) (clock next_key : ℕ) → HubInvariant config next_key tables.old → rules_of config ≡ rules
        → enough ≡ have_room (copies_of (will_message will.now) (hub_of config clock next_key tables.old)) (hub_of config clock next_key tables.old)) }
    ensures full { result ≡ Ok false → AreTablesAlike tables.old tables.new × (log.new.acts ≡ log.old.acts) }
    ensures err { OnErr result (AreTablesAlike tables.old tables.new × (log.new.acts ≡ log.old.acts)) }
    ensures spares { Spares tables.old tables.new }
    ensures connect_end { KeepsConnectRoom (will_messages (Some will.now)) tables.old tables.new }
    ensures room { log.old.room ≤ log.new.room }
{
    let message = will_message(will)?;
    try_deliver(tables, alloc, rules, key, message, log)
}

// Whether a will was published. If not, only reserved capacity may have changed.
fn try_will<S: FilterStore>(
    tables: &mut Tables<S>,
    alloc: Global,
    rules: CopyRules,
    key: ClientKey,
    will: &Will,
    log: &mut ActLog,
) -> bool
    requires hubs { AreHubTables tables.old }
    requires within { publish_size (will_message will.now) ≤ tables.old.connections.limits.packets.most }
    ensures published { result ≡ true → (config : HubConfig) (clock next_key : ℕ) → HubInvariant config next_key tables.old → rules_of config ≡ rules
        → Refines (last_will key (Some will.now) true) (hub_of config clock next_key tables.old) log.old.acts
        (hub_of config clock next_key tables.new) log.new.acts }
    ensures dropped { result ≡ false → (config : HubConfig) (clock next_key : ℕ) → HubInvariant config next_key tables.old → rules_of config ≡ rules
        → (fits : Bool) × ((fits && have_room (copies_of (will_message will.now) (hub_of config clock next_key tables.old))
        (hub_of config clock next_key tables.old)) ≡ false) }
    ensures same { result ≡ false → AreTablesAlike tables.old tables.new × (log.new.acts ≡ log.old.acts) }
    ensures spares { Spares tables.old tables.new }
    ensures connect_end { KeepsConnectRoom (will_messages (Some will.now)) tables.old tables.new }
    ensures room { log.old.room ≤ log.new.room }
{
    match deliver_will(tables, alloc, rules, key, will, log) {
        Ok(shared) => shared,
        Err(_) => false,
    }
}

fn publish_will<S: FilterStore>(
    tables: &mut Tables<S>,
    alloc: Global,
    rules: CopyRules,
    key: ClientKey,
    will: &Will,
    log: &mut ActLog,
)
    requires hubs { AreHubTables tables.old }
    requires within { publish_size (will_message will.now) ≤ tables.old.connections.limits.packets.most }
    requires room { 0 < log.old.room }
    ensures goes { (config : HubConfig) (clock next_key : ℕ) → HubInvariant config next_key tables.old → rules_of config ≡ rules
        → (fits : Bool) × Refines (last_will key (Some will.now) fits) (hub_of config clock next_key tables.old) log.old.acts
        (hub_of config clock next_key tables.new) log.new.acts }
    ensures spares { Spares tables.old tables.new }
    ensures connect_end { KeepsConnectRoom (will_messages (Some will.now)) tables.old tables.new }
    ensures room { log.old.room ≤ log.new.room + 1 }
{
    let published = try_will(tables, alloc, rules, key, will, log);
    if !published {
        log.push(Act::WillDropped(key));
    }
}

/// Publishes the will of a client, if it has one (3.1.2.5). If a session has no room for its
/// copy (2.3.1), the copy is missed, or the will is reported as dropped, as the rules say. It
/// is also dropped if an allocation fails. Room that was reserved before stays reserved.
pub(crate) fn last_will<S: FilterStore>(
    tables: &mut Tables<S>,
    alloc: Global,
    rules: CopyRules,
    key: ClientKey,
    will: Option<Will>,
    log: &mut ActLog,
)
    requires hubs { AreHubTables tables.old }
    requires within { IsWillWithin tables.old.connections.limits.packets.most will }
    requires room { 0 < log.old.room }
    ensures goes { (config : HubConfig) (clock next_key : ℕ) → HubInvariant config next_key tables.old → rules_of config ≡ rules
        → (fits : Bool) × Refines (last_will key will fits) (hub_of config clock next_key tables.old) log.old.acts
        (hub_of config clock next_key tables.new) log.new.acts }
    ensures spares { Spares tables.old tables.new }
    ensures connect_end { KeepsConnectRoom (will_messages will) tables.old tables.new }
    ensures room { log.old.room ≤ log.new.room + 1 }
{
    match will {
        Some(will) => publish_will(tables, alloc, rules, key, &will, log),
        None => {}
    }
}
