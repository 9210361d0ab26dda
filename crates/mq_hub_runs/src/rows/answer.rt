//! The result of an event as text.

use crate::rows::told::told;
use crate::rows::wrong::Wrong;
use mq_hub::{HubEvent, HubOver};
use mq_topic::FilterStore;
use std::alloc::Global;

// The number of bytes that an event collects.
fn pending<S: FilterStore>(hub: &HubOver<S>, event: &HubEvent) -> usize {
    match event {
        HubEvent::Collect(conn) => hub.pending(*conn),
        _ => 0,
    }
}

/// The result of an event.
pub(crate) fn answer<S: FilterStore>(
    alloc: Global,
    hub: &mut HubOver<S>,
    event: &HubEvent,
) -> Result<String, Wrong> {
    let pending = pending(hub, event);
    match hub.step(event) {
        Ok(reply) if reply.output.len() == pending => told(alloc, &reply),
        Ok(_) => Ok(String::from_str(alloc, "another number of bytes was pending")?),
        Err(why) => Ok(String::from_str(alloc, why.code())?),
    }
}
