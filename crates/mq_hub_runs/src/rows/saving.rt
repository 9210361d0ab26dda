//! Brokers that are saved and loaded.

use crate::rows::answer::answer;
use crate::rows::config::{Kind, config};
use crate::rows::wrong::Wrong;
use mq_hub::{Hub, HubEvent, HubOver, SnapshotFault};
use mq_topic::{FilterStore, ListStore};
use std::alloc::Global;

/// A configuration, and the events at its brokers.
#[derive(Clone, Copy)]
pub(crate) struct History<'a> {
    pub(crate) alloc: Global,
    pub(crate) kind: Kind,
    pub(crate) events: &'a [HubEvent],
}

// Takes the pending output of all connections.
fn collect_all(alloc: Global, hub: &mut Hub) -> Result<(), Wrong> {
    for conn in hub.connections(alloc)? {
        hub.step(&HubEvent::Collect(conn))?;
    }
    Ok(())
}

// These two have no broker to drop, which makes their proofs cheap.
fn has_snapshot<S: FilterStore>(hub: &HubOver<S>, bytes: &[u8]) -> Result<bool, Wrong> {
    Ok(hub.save()?.as_slice() == bytes)
}

fn have_same_snapshot(first: &Hub, second: &Hub) -> Result<bool, Wrong> {
    has_snapshot(first, second.save()?.as_slice())
}

// Whether two brokers have the same replies to events, and the same snapshots after each of them.
fn agree(
    alloc: Global,
    first: &mut Hub,
    second: &mut Hub,
    events: &[HubEvent],
) -> Result<bool, Wrong> {
    for event in events {
        let wanted = answer(alloc, first, event)?;
        let found = answer(alloc, second, event)?;
        if found.as_str() != wanted.as_str() || !have_same_snapshot(first, second)? {
            return Ok(false);
        }
    }
    Ok(true)
}

// The outcome of loading bytes.
#[derive(Clone, Copy, PartialEq, Eq)]
enum Loaded {
    /// They are refused.
    Refused,
    /// The loaded broker has exactly this snapshot.
    Same,
    /// It has another one.
    Other,
}

fn reloaded(hub: &Hub, bytes: &[u8]) -> Result<Loaded, Wrong> {
    Ok(if has_snapshot(hub, bytes)? {
        Loaded::Same
    } else {
        Loaded::Other
    })
}

impl History<'_> {
    // A broker after the first events. A refused event changes nothing.
    fn broker_after(&self, count: usize) -> Result<Hub, Wrong> {
        let mut hub = Hub::new(self.alloc, config(self.alloc, self.kind)?);
        for event in self.events.iter().take(count) {
            let _ = hub.step(event);
        }
        Ok(hub)
    }

    fn load(&self, bytes: &[u8]) -> Result<Option<Hub>, Wrong> {
        let config = config(self.alloc, self.kind)?;
        match Hub::load(self.alloc, config, bytes) {
            Ok(hub) => Ok(Some(hub)),
            Err(SnapshotFault::Memory) => Err(Wrong::Memory),
            Err(_) => Ok(None),
        }
    }

    // Whether a broker over a list that is loaded from a snapshot has that snapshot.
    fn is_kept_by_a_list(&self, bytes: &[u8]) -> Result<bool, Wrong> {
        let config = config(self.alloc, self.kind)?;
        let store = ListStore::new(self.alloc);
        match HubOver::load_with(self.alloc, config, store, bytes) {
            Ok(hub) => has_snapshot(&hub, bytes),
            Err(_) => Ok(false),
        }
    }

    // Whether a broker and the one that is loaded from its snapshot agree on later events.
    fn agrees(&self, hub: &mut Hub, bytes: &[u8], later: &[HubEvent]) -> Result<bool, Wrong> {
        match self.load(bytes)? {
            Some(mut loaded) => agree(self.alloc, hub, &mut loaded, later),
            None => Ok(false),
        }
    }

    // Whether a broker is kept by its snapshot. Its pending output is taken before.
    fn keeps(&self, hub: &mut Hub, later: &[HubEvent]) -> Result<bool, Wrong> {
        collect_all(self.alloc, hub)?;
        let bytes = hub.save()?;
        let is_kept = self.is_kept_by_a_list(bytes.as_slice())?;
        Ok(is_kept && self.agrees(hub, bytes.as_slice(), later)?)
    }

    // Whether the broker after the first events is kept by its snapshot.
    fn is_kept(&self, count: usize) -> Result<bool, Wrong> {
        let later = self.events.get(count..).unwrap_or(&[]);
        let mut hub = self.broker_after(count)?;
        self.keeps(&mut hub, later)
    }

    fn outcome(&self, bytes: &[u8]) -> Result<Loaded, Wrong> {
        match self.load(bytes)? {
            None => Ok(Loaded::Refused),
            Some(hub) => reloaded(&hub, bytes),
        }
    }
}

/// `saved`: the number of events after each of which the broker is saved and loaded. The loaded one
/// must have the same replies and snapshots later; otherwise the number of the event is added.
pub(crate) fn saved(history: &History<'_>, told: &mut String) -> Result<(), Wrong> {
    for count in 0..=history.events.len() {
        if !history.is_kept(count)? {
            return Ok(write!(told, "differs after {count}")?);
        }
    }
    Ok(write!(told, "{}", history.events.len())?)
}

// Adds the outcomes of bytes that end before a place, and of those with the byte there changed.
fn add_outcomes(
    history: &History<'_>,
    bytes: &mut [u8],
    place: usize,
    seen: &mut Vec<Loaded>,
) -> Result<(), Wrong> {
    let cut = bytes.get(..place).unwrap_or(b"");
    seen.push(history.outcome(cut)?)?;
    for change in [0x01, 0x80, 0xff] {
        if let Some(byte) = bytes.get_mut(place) {
            *byte ^= change;
        }
        seen.push(history.outcome(bytes)?)?;
        if let Some(byte) = bytes.get_mut(place) {
            *byte ^= change;
        }
    }
    Ok(())
}

/// `damaged`: the outcomes if each byte of the snapshot is changed in three ways, or the snapshot
/// ends there.
pub(crate) fn damaged(history: &History<'_>, told: &mut String) -> Result<(), Wrong> {
    let mut bytes = history.broker_after(history.events.len())?.save()?;
    let mut seen = Vec::new(history.alloc);
    for place in 0..bytes.len() {
        add_outcomes(history, bytes.as_mut_slice(), place, &mut seen)?;
    }
    let outcomes = [
        (Loaded::Refused, "refused"),
        (Loaded::Same, "same"),
        (Loaded::Other, "other"),
    ];
    for (outcome, name) in outcomes {
        if seen.contains(&outcome) {
            told.push_str(if told.is_empty() { "" } else { ", " })?;
            told.push_str(name)?;
        }
    }
    Ok(())
}
