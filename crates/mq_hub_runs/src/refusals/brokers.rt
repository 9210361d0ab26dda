//! Events at brokers over both stores.

use crate::refusals::outcome::Outcome;
use crate::refusals::ran::{Ran, outcome};
use crate::rows::config::{config, kind_of};
use crate::rows::events::event_of;
use crate::rows::told::add_reply;
use crate::rows::wrong::Wrong;
use mq_hub::{Hub, HubEvent, HubOver, HubRefusal, HubReply};
use mq_topic::{FilterStore, ListStore};
use std::alloc::{AllocError, Global};

// The limits of the brokers.
const LIMITS: &str = "capacity=3 window=3 connections=4 sessions=4";

fn events(alloc: Global, text: &str) -> Result<Vec<HubEvent>, Wrong> {
    let mut events = Vec::new(alloc);
    for line in text.lines() {
        events.push(event_of(alloc, line)?)?;
    }
    Ok(events)
}

fn step<S: FilterStore>(
    hub: &mut HubOver<S>,
    event: &HubEvent,
    ran: &mut Ran,
) -> Result<HubReply, HubRefusal> {
    match hub.step(event) {
        Err(HubRefusal::Memory) => {
            ran.ask_again();
            hub.step(event)
        }
        reply => reply,
    }
}

fn add_step<S: FilterStore>(
    hub: &mut HubOver<S>,
    event: &HubEvent,
    ran: &mut Ran,
) -> Result<(), AllocError> {
    match step(hub, event, ran) {
        Ok(reply) => add_reply(&mut ran.lines, &reply),
        Err(why) => ran.lines.push_str(why.code()),
    }
}

fn run<S: FilterStore>(
    alloc: Global,
    hub: &mut HubOver<S>,
    events: &[HubEvent],
) -> Result<Ran, Wrong> {
    let mut ran = Ran::new(alloc)?;
    for event in events {
        add_step(hub, event, &mut ran)?;
        if matches!(event, HubEvent::Tick(_)) {
            add_step(hub, event, &mut ran)?;
        }
        ran.lines.push('\n')?;
    }
    Ok(ran)
}

fn run_trie(alloc: Global, events: &[HubEvent]) -> Result<Ran, Wrong> {
    let config = config(alloc, kind_of(LIMITS)?)?;
    let mut hub = Hub::new(alloc, config);
    run(alloc, &mut hub, events)
}

fn run_list(alloc: Global, events: &[HubEvent]) -> Result<Ran, Wrong> {
    let config = config(alloc, kind_of(LIMITS)?)?;
    let mut hub = HubOver::with_store(alloc, config, ListStore::new(alloc));
    run(alloc, &mut hub, events)
}

/// Events come to a broker over a trie, and to one over a list.
pub(crate) fn judge(alloc: Global, text: &str) -> Result<Outcome, Wrong> {
    let events = events(alloc, text)?;
    let trie = run_trie(alloc, events.as_slice())?;
    let list = run_list(alloc, events.as_slice())?;
    Ok(outcome(&trie, &list))
}
