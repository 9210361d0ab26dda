//! Reads of a round.

ghost use Rattle.std.specs.Prelude.{◌≡◌, [], false, true};
ghost use Rattle.mq_loop.specs.Prelude.{ReadsOf, age_at, IsOldestFirst, kept_at};

use crate::broker::Broker;
use crate::event_loop::EventLoop;
use crate::observer::Observer;
use crate::reading::Reading;
use crate::report::Report;
use crate::served::Heard;
use crate::socket::Socket;
use crate::turns::{Holds, Turn, sort_turns};
use mq_decode::{Decoder, Limits};
use mq_packet::Packet;
use mq_route::{Act, HubReply};
use mq_wire::Text;
use std::alloc::Global;
use std::mem;

/// The size of a read, in bytes, after which more may arrive at once, because the peer had no room
/// to send it.
const LARGE_READ: usize = 16_384;

/// The part of a connection's share that an act uses, in bytes.
const ACT: usize = 16;

/// The number of payload bytes for which a copy uses one byte of its publisher's share. So a round
/// writes much output before the processor's cache has lost it.
const PLACED: usize = 8;

// The part of a connection's share that the acts of a step use, in bytes.
fn share_of(acts: &[Act]) -> usize {
    let mut share: usize = 0;
    for act in acts {
        let bytes = match act {
            Act::Placed(_, message) => message.payload.as_slice().len() / PLACED,
            _ => 0,
        };
        share = share.saturating_add(bytes.max(ACT));
    }
    share
}

impl<B: Broker + Drop, S: Socket + Drop, O: Observer + Drop> EventLoop<B, S, O> {
    // The turns of a round: those of the connections that are ready, oldest first.
    pub(super) fn begin_turns(&mut self) -> Vec<Turn>
        ensures same { self.new ≡ self.old }
        ensures sorted { IsOldestFirst result.items }
    {
        self.holds = Holds::none();
        let mut turns = mem::replace(&mut self.turns, Vec::new(self.alloc));
        mem::swap(&mut self.ready, &mut turns);
        sort_turns(&mut turns);
        turns
    }

    // Ends the turns of a round, and keeps the memory of their list.
    pub(super) fn end_turns(&mut self, turns: Vec<Turn>)
        ensures { self.new ≡ self.old }
    {
        let mut turns = turns;
        turns.clear();
        self.turns = turns;
        self.list_newcomers();
    }

    // Connections that were opened before this round may be read from in the next one.
    fn list_newcomers(&mut self)
        ensures { self.new ≡ self.old }
    {
        for _ in 0..u64::MAX {
            let Some(place) = self.newcomers.pop() else {
                return;
            };
            let age = self.age(place);
            let _ = self.ready.push(Turn { age, place });
        }
    }

    fn reading(&self, place: u32) -> Option<Reading> {
        self.readings.as_slice().get(place as usize).copied()
    }

    // Whether a connection must wait for an older one. One with a client never does.
    pub(super) fn must_wait(&self, place: u32) -> bool {
        if self.watched.notes().has_client(place) {
            return false;
        }
        match self.reading(place) {
            Some(reading) => self.holds.must_wait(self.time, self.age(place), &reading),
            None => false,
        }
    }

    // A connection that used its share has more to read, and holds newer ones.
    fn put_off(&mut self, place: u32)
        ensures { self.new ≡ self.old }
    {
        self.hold_newer(place);
        self.list_ready(place);
    }

    // A connection may have more to read. It holds the connections that were opened after it last
    // had nothing to read.
    fn hold_newer(&mut self, place: u32)
        ensures { self.new ≡ self.old }
    {
        if let Some(reading) = self.reading(place) {
            self.holds.hold(&reading);
        }
    }

    // A connection has nothing more to read now. After a large read its peer may have waited for
    // room to send more, which arrives at once.
    fn note_empty(&mut self, place: u32)
        ensures { self.new ≡ self.old }
    {
        match self.reading(place) {
            Some(reading) if !reading.had_large_read => {
                let at = place as usize;
                if at < self.readings.len() {
                    self.readings[at].empty_at = self.opened;
                }
            }
            _ => self.hold_newer(place),
        }
    }

    // Notes that a connection has its turn. Returns false if the turn is that of an older
    // connection, which had the place before.
    fn take_turn(&mut self, turn: Turn) -> bool
        ensures same { self.new ≡ self.old }
        ensures age { result ≡ true → age_at turn.place self.old.ages ≡ turn.age }
    {
        let at = turn.place as usize;
        if at >= self.readings.len() || self.age(turn.place) != turn.age {
            return false;
        }
        let reading = &mut self.readings[at];
        reading.is_ready = false;
        reading.had_large_read = false;
        true
    }

    // Begins the turn of a connection. Returns whether it may be read from now. It may not if it
    // waits for an older one, or while its output is blocked.
    #[tactic(auto, using(crate::proofs::Outputs::not_blocked))]
    fn begin_turn(&mut self, turn: Turn, waits: bool) -> bool
        ensures base { self.new.watched.served.base ≡ self.old.watched.served.base }
        ensures calls { self.new.watched.served.calls ≡ self.old.watched.served.calls }
        ensures ages { self.new.ages ≡ self.old.ages }
        ensures age { result ≡ true → age_at turn.place self.old.ages ≡ turn.age }
        ensures waits { waits ≡ true → result ≡ false }
        ensures waiting { waits ≡ true → self.new ≡ self.old }
        ensures unblocked { result ≡ true → kept_at turn.place self.new.watched.served.lines ≡ [] }
    {
        let place = turn.place;
        if !self.take_turn(turn) || !self.watched.notes().is_open(place) {
            return false;
        }
        if waits {
            self.list_ready(place);
            return false;
        }
        !self.watched.is_blocked(place) || self.watched.flush(place)
    }

    // Reads from a connection until it has nothing more or has used its share. Reads nothing if it
    // waits for an older one, or while its output is blocked.
    #[tactic(auto, using(crate::proofs::Calling::of_none, crate::proofs::Calling::of_place, crate::proofs::Calling::of_then))]
    pub(super) fn hear(&mut self, turn: Turn, waits: bool, buffer: &mut [u8])
        ensures base { self.new.watched.served.base ≡ self.old.watched.served.base }
        ensures calls { ReadsOf self.old.ages turn.age self.old.watched.served.calls self.new.watched.served.calls }
        ensures ages { self.new.ages ≡ self.old.ages }
        ensures waits { waits ≡ true → self.new ≡ self.old }
    {
        let place = turn.place;
        if !self.begin_turn(turn, waits) {
            return;
        }
        let mut left = self.limits.share;
        for _ in 0..u64::MAX {
            if !self.watched.notes().may_read(place) {
                return;
            }
            let is_fresh = !self.watched.notes().has_client(place);
            let (count, reply) = match self.watched.read(place, buffer) {
                Heard::Step(count, reply) => (count, reply),
                Heard::Nothing => {
                    self.note_empty(place);
                    return;
                }
                Heard::Over => return,
            };
            let Some(used) = self.note_step(place, is_fresh, count, reply, buffer) else {
                return;
            };
            left = left.saturating_sub(used);
            if left == 0 {
                self.put_off(place);
                return;
            }
        }
    }

    // Notes a step with bytes of a connection. Returns how much of its share was used, or `None` if
    // nothing more is to be read now.
    fn note_step(
        &mut self,
        place: u32,
        is_fresh: bool,
        count: usize,
        reply: HubReply,
        buffer: &[u8],
    ) -> Option<usize>
        ensures { self.new ≡ record self.old { observer = self.new.observer } }
    {
        self.observer.on_reply(&reply);
        if is_fresh && count <= buffer.len() {
            self.report_client(place, &reply, &buffer[..count]);
        }
        let used = share_of(reply.acts.as_slice());
        drop(reply);
        self.note_read(place, count, buffer.len(), used)
    }

    // Notes a read, whose acts used this part of the share. Returns how much of the share was used,
    // or `None` if nothing more is to be read now.
    fn note_read(&mut self, place: u32, count: usize, size: usize, used: usize) -> Option<usize>
        ensures { self.new ≡ record self.old { observer = self.new.observer } }
    {
        self.observer.on_read(count);
        let at = place as usize;
        if at >= self.readings.len() {
            return None;
        }
        let reading = &mut self.readings[at];
        if count >= LARGE_READ {
            reading.had_large_read = true;
        }
        let is_short = count > 0 && count < size && !reading.has_hung_up;
        if is_short && !self.watched.has_unread(place) {
            self.note_empty(place);
            return None;
        }
        Some(count.max(used))
    }

    // Reports that a client is connected, if these bytes had its CONNECT.
    fn report_client(&mut self, place: u32, reply: &HubReply, bytes: &[u8])
        ensures { self.new ≡ self.old }
    {
        for act in reply.acts.as_slice() {
            if let Act::Up(_, key, is_resumed) = act {
                let report = Report::Connected {
                    place,
                    key: *key,
                    client: client_of(self.alloc, self.limits.packets, bytes),
                    is_resumed: *is_resumed,
                };
                self.watched.report(report);
            }
        }
    }
}

// The client identifier of a CONNECT, if these bytes begin with one and it is not empty.
fn client_of(alloc: Global, limits: Limits, bytes: &[u8]) -> Option<Text> {
    let mut decoder = Decoder::new(alloc, limits);
    match decoder.next_packet(bytes) {
        Ok(Some((Packet::Connect(connect), _))) => {
            let client = &connect.as_connect().client_id;
            if client.as_str().is_empty() {
                return None;
            }
            client.clone().ok()
        }
        _ => None,
    }
}
