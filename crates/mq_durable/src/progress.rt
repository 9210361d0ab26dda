//! Stepping a broker through recorded events.

ghost use Rattle.std.specs.Prelude.{◌≡◌, ◌∷◌, [], IfOk, OnOk};
ghost use Rattle.mq_durable.specs.Prelude.{IsEntry, AreReadable, events_in, events_in_all, Continues, opened_by, Replays};

use crate::fault::RecoverError;
use crate::report::reports_memory;
use mq_hub::Hub;
use mq_record::{RecordFault, decode_events, record_laws};
use mq_route::{Conn, HubEvent, HubRefusal};
use std::alloc::Global;

/// A broker after recorded events.
#[derive(Drop)]
pub(crate) struct Progress {
    pub(crate) hub: Hub,
    /// The connections from before the events, and those that the events opened. Some have ended
    /// since.
    pub(crate) opened: Vec<Conn>,
}

// Adds the connection that the event opens.
fn note_opened(opened: &mut Vec<Conn>, event: &HubEvent) -> Result<(), RecoverError>
    ensures { OnOk result (opened.new.items ≡ opened_by event.now opened.old.items) }
{
    match event {
        HubEvent::Opened(conn) => match opened.push(*conn) {
            Ok(()) => Ok(()),
            Err(_) => Err(RecoverError::Memory),
        },
        HubEvent::Bytes(_, _) | HubEvent::Ended(_) | HubEvent::Tick(_) | HubEvent::Collect(_) => Ok(
            (),
        ),
    }
}

// Steps the broker through one event. No reply may report that an allocation failed.
pub(crate) fn replay_on(hub: &mut Hub, event: &HubEvent) -> Result<(), RecoverError>
    ensures { OnOk result (Replays hub.old (event.now ∷ []) hub.new) }
{
    match hub.step(event) {
        Ok(reply) => {
            if reports_memory(&reply) {
                return Err(RecoverError::Memory);
            }
            Ok(())
        }
        Err(HubRefusal::Memory) => Err(RecoverError::Memory),
        Err(why) => Err(RecoverError::Refused(why)),
    }
}

// The events of an entry.
fn events_in(alloc: Global, entry: &[u8]) -> Result<Vec<HubEvent>, RecoverError>
    ensures ok { IfOk result (λ events. events.items ≡ events_in entry.now) }
    ensures readable { OnOk result (IsEntry (events_in entry.now) entry.now) }
{
    record_laws();
    match decode_events(alloc, entry) {
        Ok(events) => Ok(events),
        Err(RecordFault::Memory) => Err(RecoverError::Memory),
        Err(fault) => Err(RecoverError::Unreadable(fault)),
    }
}

impl Progress {
    // Steps the broker through one event. On `Err` the progress must be dropped.
    fn replay_event(&mut self, event: &HubEvent) -> Result<(), RecoverError>
        ensures { OnOk result (Continues self.old (event.now ∷ []) self.new) }
    {
        note_opened(&mut self.opened, event)?;
        replay_on(&mut self.hub, event)?;
        Ok(())
    }

    // Steps the broker through events. On `Err` the progress must be dropped.
    fn replay_events(&mut self, events: &[HubEvent]) -> Result<(), RecoverError>
        ensures { OnOk result (Continues self.old events.now self.new) }
    {
        for event in events {
            self.replay_event(event)?;
        }
        Ok(())
    }

    // Steps the broker through the events of an entry. On `Err` the progress must be dropped.
    fn replay_entry(&mut self, alloc: Global, entry: &[u8]) -> Result<(), RecoverError>
        ensures continues { OnOk result (Continues self.old (events_in entry.now) self.new) }
        ensures readable { OnOk result (IsEntry (events_in entry.now) entry.now) }
    {
        let events = events_in(alloc, entry)?;
        self.replay_events(events.as_slice())
    }

    /// Steps the broker through the events of entries.
    pub(crate) fn after(self, alloc: Global, entries: &[Vec<u8>]) -> Result<Progress, RecoverError>
        ensures continues { IfOk result
            (λ progress. Continues self (events_in_all entries.now) progress) }
        ensures readable { OnOk result (AreReadable entries.now) }
    {
        let mut progress = self;
        for entry in entries {
            progress.replay_entry(alloc, entry.as_slice())?;
        }
        Ok(progress)
    }
}
