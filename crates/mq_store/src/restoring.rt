//! Restoring a broker from a snapshot and the journal that follows it.

ghost use Rattle.std.specs.Prelude.{◌≡◌, ◌<◌, [], length, IfOk, IfSome, OnOk};
ghost use Rattle.mq_store.specs.Prelude.{events_in, events_in_all, events_of, HubState, IsStorable, restored, snapshot, EndsAfter, IsEnded, IsRestored, parts_of, with_digest};

use crate::fault::{StoreError, not_allowed};
use crate::snapshot_file::Parts;
use mq_durable::Recovery;
use mq_hub::Hub;
use mq_log::read_journal;
use mq_record::{RecordFault, decode_events, record_laws};
use mq_route::{HubConfig, snapshot_laws};
use std::alloc::{AllocError, Global};

// The number of events of an entry.
fn count_in(alloc: Global, entry: &[u8]) -> Result<usize, StoreError>
    ensures { IfOk result (λ count. count ≡ length (events_in entry.now)) }
{
    record_laws();
    match decode_events(alloc, entry) {
        Ok(events) => Ok(events.len()),
        Err(RecordFault::Memory) => Err(StoreError::Memory),
        Err(RecordFault::Cut | RecordFault::Tag(_)) => Err(StoreError::Entry),
    }
}

// The number of events of entries.
fn count_all(alloc: Global, entries: &[Vec<u8>]) -> Result<u64, StoreError>
    ensures { IfOk result (λ count. count ≡ length (events_in_all entries.now)) }
{
    let mut count = 0u64;
    for entry in entries {
        let more = count_in(alloc, entry.as_slice())?;
        let Some(sum) = count.checked_add(more as u64) else {
            return Err(StoreError::TooLong);
        };
        count = sum;
    }
    Ok(count)
}

// The number of events of a journal.
fn count_events(alloc: Global, journal: &[u8]) -> Result<u64, StoreError>
    ensures { IfOk result (λ count. count ≡ length (events_of journal.now)) }
{
    let contents = read_journal(alloc, journal)?;
    let events = count_all(alloc, contents.entries.as_slice())?;
    Ok(events)
}

// Steps a broker through the events of a journal, and ends its connections.
#[tactic(auto, using(crate::proofs::Restores::ended_after))]
fn replay(alloc: Global, hub: Hub, journal: &[u8]) -> Result<Hub, StoreError>
    ensures { IfOk result (EndsAfter hub journal.now) }
{
    let recovery = Recovery::of(alloc, hub)?;
    let recovery = recovery.replay(journal)?;
    let hub = recovery.end_all()?;
    Ok(hub)
}

// The snapshot of a broker, which is dropped once, whether an allocation failed or not.
fn save(hub: Hub) -> Result<Vec<u8>, AllocError>
    ensures bytes { IfOk result (λ bytes. bytes.items ≡ snapshot hub) }
    ensures storable { OnOk result (IsStorable hub) }
{
    hub.save()
}

// A snapshot of the broker that ended, and the number of its recovered events.
#[derive(Drop)]
struct Saved {
    bytes: Vec<u8>,
    events: u64,
}

// Saves the broker after the events of a journal, whose connections have ended.
fn replay_saved(alloc: Global, parts: Parts<'_>, journal: &[u8]) -> Result<Saved, StoreError>
    ensures { IfOk result (λ saved. (ended : HubState) × (saved.bytes.items ≡ snapshot ended) × IsStorable ended
        × IsEnded (with_digest (parts_of parts.entry.nth parts.entry.config.now parts.entry.hub.now)) journal.now ended saved.events) }
{
    let events = count_events(alloc, journal)?;
    let begun = parts.load(alloc)?;
    let ended = replay(alloc, begun, journal)?;
    let bytes = save(ended)?;
    Ok(Saved { bytes, events })
}

// Loads a broker under a configuration.
#[tactic(auto, using(crate::proofs::Restores::loaded))]
fn load_under(alloc: Global, config: HubConfig, saved: &[u8]) -> Result<Hub, StoreError>
    requires capacity { 0 < config.capacity }
    requires window { IfSome config.window (λ window. 0 < window) }
    ensures { IfOk result (λ hub. (old : HubState) → saved.now ≡ snapshot old → IsStorable old → hub ≡ restored config old) }
{
    snapshot_laws();
    match Hub::load(alloc, config, saved) {
        Ok(hub) => Ok(hub),
        Err(fault) => Err(not_allowed(fault)),
    }
}

/// A broker that was restored, without connections, and the number of its recovered events.
#[derive(Drop)]
pub(crate) struct Restored {
    pub(crate) hub: Hub,
    pub(crate) events: u64,
}

/// Restores a broker under a configuration: that of a snapshot's parts, after the events of a
/// journal and the ends of all its connections.
///
/// Errors:
///
/// - `Snapshot` if the parts are no broker.
/// - `Damaged`, `Entry` or `Refused` if no broker writes this journal after the snapshot.
/// - `TooLarge` or `Capacity` if the configuration does not allow the broker.
/// - `TooLong` if there are 2^64 events.
/// - `Memory` if an allocation fails.
pub(crate) fn restore(
    alloc: Global,
    config: HubConfig,
    parts: Parts<'_>,
    journal: &[u8],
) -> Result<Restored, StoreError>
    requires capacity { 0 < config.capacity }
    requires window { IfSome config.window (λ window. 0 < window) }
    ensures restored { IfOk result (λ r.
        IsRestored config (with_digest (parts_of parts.entry.nth parts.entry.config.now parts.entry.hub.now)) journal.now r.hub r.events) }
    ensures none { IfOk result (λ r. r.hub.connections ≡ []) }
{
    let saved = replay_saved(alloc, parts, journal)?;
    let hub = load_under(alloc, config, saved.bytes.as_slice())?;
    let events = saved.events;
    Ok(Restored { hub, events })
}
