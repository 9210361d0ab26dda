//! The brokers of a list.

use crate::rows::answer::answer;
use crate::rows::config::{Kind, config, kind_of};
use crate::rows::events::event_of;
use crate::rows::portions::in_portions;
use crate::rows::saving::History;
use crate::rows::wrong::Wrong;
use crate::rows::{questions, saving};
use mq_hub::{Hub, HubEvent, HubOver};
use mq_topic::ListStore;
use std::alloc::Global;

// The act limits of portions.
const MOST_ACTS: [usize; 3] = [0, 2, usize::MAX];

// A broker that handles bytes in portions.
#[derive(Drop)]
struct Portioned {
    hub: Hub,
    most_acts: usize,
}

/// Brokers to which the same events happen.
#[derive(Drop)]
pub(crate) struct Brokers {
    alloc: Global,
    kind: Kind,
    trie: Hub,
    list: HubOver<ListStore>,
    portioned: Vec<Portioned>,
    events: Vec<HubEvent>,
}

// The result of an event, whose bytes are handled in portions.
fn answer_in_portions(
    alloc: Global,
    broker: &mut Portioned,
    event: &HubEvent,
) -> Result<String, Wrong> {
    let hub = &mut broker.hub;
    match event {
        HubEvent::Bytes(conn, piece) => {
            in_portions(alloc, hub, *conn, piece.as_slice(), broker.most_acts)
        }
        _ => answer(alloc, hub, event),
    }
}

fn new_portioned(alloc: Global, kind: Kind) -> Result<Vec<Portioned>, Wrong> {
    let mut found = Vec::new(alloc);
    for most_acts in MOST_ACTS {
        let hub = Hub::new(alloc, config(alloc, kind)?);
        found.push(Portioned { hub, most_acts })?;
    }
    Ok(found)
}

impl Brokers {
    /// The brokers of the words behind `new broker`.
    pub(crate) fn new(alloc: Global, words: &str) -> Result<Brokers, Wrong> {
        let kind = kind_of(words)?;
        let portioned = new_portioned(alloc, kind)?;
        let list = config(alloc, kind)?;
        let trie = config(alloc, kind)?;
        Ok(Brokers {
            alloc,
            kind,
            trie: Hub::new(alloc, trie),
            list: HubOver::with_store(alloc, list, ListStore::new(alloc)),
            portioned,
            events: Vec::new(alloc),
        })
    }

    // Adds the results of the other brokers that differ.
    fn add_others(&mut self, event: &HubEvent, told: &mut String) -> Result<(), Wrong> {
        let wanted = answer(self.alloc, &mut self.list, event)?;
        if wanted.as_str() != told.as_str() {
            write!(told, ", but {} over a list", wanted.as_str())?;
        }
        for broker in &mut self.portioned {
            let other = answer_in_portions(self.alloc, broker, event)?;
            if other.as_str() != wanted.as_str() {
                write!(told, ", but {} in portions", other.as_str())?;
            }
        }
        Ok(())
    }

    // An event happens.
    fn come(&mut self, act: &str, told: &mut String) -> Result<(), Wrong> {
        let event = event_of(self.alloc, act)?;
        let answer = answer(self.alloc, &mut self.trie, &event)?;
        told.push_str(answer.as_str())?;
        self.add_others(&event, told)?;
        Ok(self.events.push(event)?)
    }

    fn run(&self, told: &mut String) -> Result<(), Wrong> {
        let config = config(self.alloc, self.kind)?;
        questions::run(self.alloc, config, self.events.as_slice(), told)
    }

    // The events so far.
    fn history(&self) -> History<'_> {
        History {
            alloc: self.alloc,
            kind: self.kind,
            events: self.events.as_slice(),
        }
    }

    /// Performs the act of a row, and adds its result.
    pub(crate) fn tell(&mut self, act: &str, told: &mut String) -> Result<(), Wrong> {
        let (what, words) = act.split_once(' ').unwrap_or((act, ""));
        match what {
            "known" => questions::known(&self.trie, words, told),
            "sessions" => questions::sessions(&self.trie, told),
            "counts" => questions::counts(&self.trie, told),
            "run" => self.run(told),
            "saved" => saving::saved(&self.history(), told),
            "damaged" => saving::damaged(&self.history(), told),
            "crowd" => questions::crowd(self.alloc, &mut self.trie, words),
            "portion" => questions::portion(self.alloc, &mut self.trie, words, told),
            _ => self.come(act, told),
        }
    }
}
