//! The record of a replay.

ghost use Rattle.std.specs.Prelude.{◌≡◌, ◌++◌, ◌∷◌, [], IfOk, OnOk, length};
ghost use Rattle.mq_picture.specs.Prelude.{flat_map, non_zero_u16_get, Answer, Client, IsNew, number_of, StepDoes, Arrived, Cleared, Noted, Records, IsRecord, anew_entries, answer_entries, closed_entries, delivery_entries, dropped_entries, happening_entries, left_entries, opening_entries, published_entries, settling_entries, ticked_entries, unsent};

use crate::entry::{Note, RecordEntry};
use crate::summary::summary_of;
use mq_decode::{DecodeError, Decoder, Limits};
use mq_end::{CloseReason, Happening, PublishRefusal};
use mq_packet::PacketId;
use mq_schedule::{Schedule, Step};
use mq_world::{Answer, DeliveredBytes, Opening, Settling, Side, World};
use std::alloc::{AllocError, Global};

// The entries that were recorded.
type Entries = Vec<RecordEntry>;

// The bytes in flight to a side that are recorded: their number, and a decoder that has read them.
#[derive(Drop)]
struct Wire {
    to: Side,
    decoder: Decoder,
    in_flight: usize,
}

impl Wire {
    fn new(alloc: Global, to: Side, limits: Limits) -> Wire {
        Wire {
            to,
            decoder: Decoder::new(alloc, limits),
            in_flight: 0,
        }
    }

    // Records the packets of further bytes.
    fn read(&mut self, alloc: Global, bytes: &[u8], entries: &mut Entries) -> Result<(), AllocError>
        ensures { OnOk result (unsent entries.new.items ≡ unsent entries.old.items) }
    {
        let mut packets = Vec::new(alloc);
        if let Err(DecodeError::Memory) = self.decoder.feed(bytes, &mut packets) {
            return Err(AllocError);
        }
        for packet in &packets {
            entries.push(RecordEntry::Sent(self.to, summary_of(packet)))?;
        }
        Ok(())
    }

    // Records the packets that were sent, if these are all bytes in flight.
    fn look(&mut self, alloc: Global, bytes: &[u8], entries: &mut Entries) -> Result<(), AllocError>
        ensures { OnOk result (unsent entries.new.items ≡ unsent entries.old.items) }
    {
        if let Some(new) = bytes.get(self.in_flight..) {
            self.read(alloc, new, entries)?;
        }
        self.in_flight = bytes.len();
        Ok(())
    }

    // Records the arrival of bytes. Those beyond the recorded ones were sent just before.
    fn arrive(
        &mut self,
        alloc: Global,
        delivery: &DeliveredBytes,
        entries: &mut Entries,
    ) -> Result<(), AllocError>
        ensures { OnOk result (unsent entries.new.items ≡ unsent entries.old.items
            ++ Arrived delivery.now.side (length delivery.now.bytes) delivery.now.lost ∷ []) }
    {
        let bytes = delivery.bytes.as_slice();
        if let Some(new) = bytes.get(self.in_flight..) {
            self.read(alloc, new, entries)?;
        }
        self.in_flight = self.in_flight.saturating_sub(bytes.len());
        entries.push(RecordEntry::Arrived {
            to: delivery.side,
            count: bytes.len(),
            lost: delivery.lost,
        })?;
        Ok(())
    }

    // The bytes in flight are lost.
    fn clear(&mut self) {
        self.decoder.reset();
        self.in_flight = 0;
    }
}

// A record that grows with the replay.
#[derive(Drop)]
struct Recorder {
    alloc: Global,
    entries: Entries,
    to_client: Wire,
    to_server: Wire,
}

impl Recorder {
    fn note(&mut self, side: Side, note: Note) -> Result<(), AllocError>
        ensures { OnOk result (Records self.old self.new (Noted side note ∷ [])) }
    {
        self.entries.push(RecordEntry::Noted(side, note))?;
        Ok(())
    }

    // Records that the bytes in flight to a side are lost.
    fn clear(&mut self, to: Side) -> Result<(), AllocError>
        ensures { OnOk result (Records self.old self.new (Cleared to ∷ [])) }
    {
        match to {
            Side::Client => self.to_client.clear(),
            Side::Server => self.to_server.clear(),
        }
        self.entries.push(RecordEntry::Cleared(to))?;
        Ok(())
    }

    // Records the packets that were sent since the last look.
    fn look(&mut self, world: &World) -> Result<(), AllocError>
        ensures { OnOk result (Records self.old self.new []) }
    {
        let entries = &mut self.entries;
        self.to_client
            .look(self.alloc, world.wire(Side::Client), entries)?;
        self.to_server
            .look(self.alloc, world.wire(Side::Server), entries)
    }

    fn published(
        &mut self,
        side: Side,
        outcome: Result<Option<PacketId>, PublishRefusal>,
    ) -> Result<(), AllocError>
        ensures { OnOk result (Records self.old self.new (published_entries side outcome)) }
    {
        match outcome {
            Ok(id) => self.note(side, Note::Accepted(id)),
            Err(why) => self.note(side, Note::Refused(why)),
        }
    }

    fn happened(&mut self, side: Side, happening: &Happening) -> Result<(), AllocError>
        ensures { OnOk result (Records self.old self.new (happening_entries side happening.now)) }
    {
        match happening {
            Happening::Up { session_present } => self.note(side, Note::Up(*session_present)),
            Happening::Handed(message) => self.note(side, Note::Delivered(message.clone()?)),
            Happening::Subscribe { .. }
            | Happening::Unsubscribe { .. }
            | Happening::SubAck { .. }
            | Happening::UnsubAck(_) => Ok(()),
            Happening::Pong => self.note(side, Note::Pong),
        }
    }

    // Records the events of some bytes, in order.
    fn all_happened(&mut self, side: Side, happenings: &[Happening]) -> Result<(), AllocError>
        ensures { OnOk result (Records self.old self.new
            (flat_map (happening_entries side) happenings.now)) }
    {
        for happening in happenings {
            self.happened(side, happening)?;
        }
        Ok(())
    }

    // Records the reason if a side closed its connection. The bytes in flight to it are lost.
    fn closed(&mut self, side: Side, closed: Option<CloseReason>) -> Result<(), AllocError>
        ensures { OnOk result (Records self.old self.new (closed_entries side closed)) }
    {
        match closed {
            Some(why) => {
                self.clear(side)?;
                self.note(side, Note::Closed(why))
            }
            None => Ok(()),
        }
    }

    // Records the arrival of bytes.
    fn arrived(&mut self, delivery: &DeliveredBytes) -> Result<(), AllocError>
        ensures { OnOk result (Records self.old self.new
            (Arrived delivery.now.side (length delivery.now.bytes) delivery.now.lost ∷ [])) }
    {
        let entries = &mut self.entries;
        match delivery.side {
            Side::Client => self.to_client.arrive(self.alloc, delivery, entries),
            Side::Server => self.to_server.arrive(self.alloc, delivery, entries),
        }
    }

    fn delivered(&mut self, delivery: &DeliveredBytes) -> Result<(), AllocError>
        ensures { OnOk result (Records self.old self.new (delivery_entries delivery.now)) }
    {
        let side = delivery.side;
        self.arrived(delivery)?;
        self.all_happened(side, delivery.progress.happenings.as_slice())?;
        self.closed(side, delivery.progress.closed)
    }

    fn all_delivered(&mut self, deliveries: &[DeliveredBytes]) -> Result<(), AllocError>
        ensures { OnOk result (Records self.old self.new
            (flat_map delivery_entries deliveries.now)) }
    {
        for delivery in deliveries {
            self.delivered(delivery)?;
        }
        Ok(())
    }

    // Records that a side lost the bytes in flight to it, and its connection if it was open.
    fn dropped(&mut self, side: Side, was_open: bool) -> Result<(), AllocError>
        ensures { OnOk result (Records self.old self.new (dropped_entries side was_open)) }
    {
        self.clear(side)?;
        if was_open {
            return self.note(side, Note::Dropped);
        }
        Ok(())
    }

    fn opened(&mut self, opening: Opening) -> Result<(), AllocError>
        ensures { OnOk result (Records self.old self.new (opening_entries opening)) }
    {
        self.dropped(Side::Client, opening.client_dropped)?;
        self.dropped(Side::Server, opening.server_dropped)?;
        if opening.refused {
            return self.note(Side::Client, Note::Refused(PublishRefusal::Memory));
        }
        Ok(())
    }

    fn restarted(
        &mut self,
        was_open: bool,
        outcome: Result<(), PublishRefusal>,
    ) -> Result<(), AllocError>
        ensures { OnOk result (Records self.old self.new
            (dropped_entries Client was_open ++ anew_entries outcome)) }
    {
        self.dropped(Side::Client, was_open)?;
        match outcome {
            Ok(()) => self.note(Side::Client, Note::Restarted),
            Err(why) => self.note(Side::Client, Note::Refused(why)),
        }
    }

    fn ticked(
        &mut self,
        side: Side,
        outcome: Result<Option<CloseReason>, PublishRefusal>,
    ) -> Result<(), AllocError>
        ensures { OnOk result (Records self.old self.new (ticked_entries side outcome)) }
    {
        match outcome {
            Ok(closed) => self.closed(side, closed),
            Err(why) => self.note(side, Note::Refused(why)),
        }
    }

    fn left(&mut self, outcome: Result<(), PublishRefusal>) -> Result<(), AllocError>
        ensures { OnOk result (Records self.old self.new (left_entries outcome)) }
    {
        match outcome {
            Ok(()) => self.closed(Side::Client, Some(CloseReason::Left)),
            Err(why) => self.note(Side::Client, Note::Refused(why)),
        }
    }

    fn settled(&mut self, settling: &Settling) -> Result<(), AllocError>
        ensures { OnOk result (Records self.old self.new (settling_entries settling.now)) }
    {
        self.opened(settling.opening)?;
        self.all_delivered(settling.deliveries.as_slice())
    }

    // Records the result of a step.
    fn answered(&mut self, answer: &Answer) -> Result<(), AllocError>
        ensures { OnOk result (Records self.old self.new (answer_entries answer.now)) }
    {
        match answer {
            Answer::Published(side, outcome) => self.published(*side, *outcome),
            Answer::Delivered(delivery) => self.delivered(delivery),
            Answer::Dropped(side, was_open) => self.dropped(*side, *was_open),
            Answer::Restarted(was_open, outcome) => self.restarted(*was_open, *outcome),
            Answer::Left(outcome) => self.left(*outcome),
            Answer::Opened(opening) => self.opened(*opening),
            Answer::Ticked(side, outcome) => self.ticked(*side, *outcome),
            Answer::Settled(settling) => self.settled(settling),
        }
    }
}

// Processes a step and returns its result.
fn make(world: &mut World, step: &Step) -> Result<Answer, AllocError>
    ensures does { IfOk result (λ answer. StepDoes world.old.limit world.old.capacity step.now
        answer world.old.wired world.new.wired) }
    ensures limit { world.new.limit ≡ world.old.limit }
    ensures capacity { world.new.capacity ≡ world.old.capacity }
{
    match step {
        Step::Event(event) => world.step(event),
        Step::Settle => world.settle(),
    }
}

// Records a step.
fn advance(recorder: &mut Recorder, world: &mut World, step: &Step) -> Result<(), AllocError>
    ensures does { OnOk result ((answer : Answer) × StepDoes world.old.limit world.old.capacity
        step.now answer world.old.wired world.new.wired
        × Records recorder.old recorder.new (answer_entries answer)) }
    ensures limit { world.new.limit ≡ world.old.limit }
    ensures capacity { world.new.capacity ≡ world.old.capacity }
{
    let answer = make(world, step)?;
    recorder.answered(&answer)?;
    recorder.look(world)
}

// A new world for a schedule.
fn new_world(alloc: Global, schedule: &Schedule) -> Result<World, AllocError>
    ensures new { IfOk result (λ world. IsNew schedule.now.limits
        (non_zero_u16_get schedule.now.capacity) (number_of schedule.now.window) world.wired) }
    ensures limit { IfOk result (λ world. world.limit ≡ schedule.now.limits) }
    ensures capacity { IfOk result (λ world. world.capacity ≡ non_zero_u16_get schedule.now.capacity) }
{
    let capacity = schedule.capacity.get();
    match schedule.window {
        Some(window) => World::with_window(alloc, schedule.limits, capacity, window.get()),
        None => World::new(alloc, schedule.limits, capacity),
    }
}

/// Runs a schedule in a new world and records what happens to its packets and at its sides.
pub fn record_of(alloc: Global, schedule: &Schedule) -> Result<Vec<RecordEntry>, AllocError>
    ensures { IfOk result (λ history. IsRecord schedule.now history.items) }
{
    let mut world = new_world(alloc, schedule)?;
    let mut recorder = Recorder {
        alloc,
        entries: Vec::new(alloc),
        to_client: Wire::new(alloc, Side::Client, schedule.limits),
        to_server: Wire::new(alloc, Side::Server, schedule.limits),
    };
    for step in &schedule.steps {
        advance(&mut recorder, &mut world, step)?;
    }
    Ok(recorder.entries)
}
