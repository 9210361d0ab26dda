//! A broker and its connections, with notes about which have output and which are over.

ghost use Rattle.std.specs.Prelude.{◌≡◌, ◌<◌, ◌≤◌, ◌+◌, ◌⊎◌, ◌||◌, ◌∷◌, [], ◌++◌, ◌-◌, ◌^◌, ℕ, false, true, not, ◌==◌, None, Some, IfOk, IfSome, IfNone, OnErr, OnOk, OnSome, length, min};
ghost use Rattle.mq_loop.specs.Prelude.{IsServed, line_at, served_state, without_notes, Collecting, Quietly, Reads, commit, with_calls, count_in, AreBounded, AreEnded, IsEmpty, IsReached, IsSettled, connections_in, ends_left, exists_at, has_unread, kept_at, pending_at, watched_state};

use crate::broker::{Broker, CommitFailure, SnapshotBroker, SnapshotNote};
use crate::connection::Flushed;
use crate::notes::Notes;
use crate::observer::Observer;
use crate::report::Report;
use crate::served::{Given, Heard, Served};
use crate::socket::Socket;
use mq_hub::Hub;
use mq_route::{HubReply, begun_laws};
use std::alloc::{AllocError, Global};
use std::marker::Model;

/// A broker and the connections that it serves, with notes.
#[derive(Drop)]
pub(crate) struct Watched<B: Broker + Drop, S: Socket + Drop> {
    served: Served<B, S>,
    notes: Notes,
    most_owed: usize,
    // The number of connections.
    count: usize,
}

impl<B: Broker + Drop, S: Socket + Drop> Model for Watched<B, S> {
    ghost use Rattle.std.specs.Prelude.{nat_eq};
    ghost use Rattle.std.specs.Coded.{codes, coded_ℕ};
    ghost use Rattle.std.specs.FinSet as set;
    ghost use Rattle.std.specs.HashMap.{get};
    ghost use Rattle.std.specs.Ordering.{nat_cmp};
    ghost use Rattle.mq_loop.specs.Rounds.{IsCounted, WatchedState, watched_state};

    ghost Value = { WatchedState };

    ghost coded = { Prim.hlevel (codes, set.code {R = nat_cmp} coded_ℕ) };

    ghost view = { λ w. watched_state w.served w.most_owed w.notes.marked w.notes.over w.notes.has_failed };

    ghost invariant = { λ w. IsCounted w.most_owed w.served (get nat_eq w.notes.clients) w.notes.marked w.notes.over w.count };
}

// Whether one of two is true.
fn either(first: bool, second: bool) -> bool
    ensures { result ≡ (first || second) }
{
    first || second
}

// One more than a number that is below another one.
fn one_more(count: usize, places: usize) -> usize
    requires { count < places }
    ensures { result ≡ count + 1 }
{
    let _ = places;
    count + 1
}

impl<B: Broker + Drop, S: Socket + Drop> Watched<B, S> {
    /// A broker that serves no connection yet.
    pub(crate) fn new(alloc: Global, broker: B, most_owed: usize) -> Watched<B, S>
        requires { IsReached (B.state broker) }
        ensures { result ≡ watched_state (served_state (B.state broker) (B.state broker) [] (B.committed broker) (B.calls broker) (B.notes broker)) most_owed [] [] false }
    {
        Watched {
            served: Served::new(alloc, broker),
            notes: Notes::new(alloc),
            most_owed,
            count: 0,
        }
    }

    /// The broker.
    pub(crate) fn hub(&self) -> &Hub
        ensures { result.now ≡ self.now.served.hub }
    {
        self.served.hub()
    }

    /// All steps form one chain of one broker, in which each connection carries its bytes.
    pub(crate) fn laws(&self)
        ensures { IsServed self.now.served }
    {
        self.served.laws();
    }

    /// Makes room for this number of places in all.
    pub(crate) fn reserve(&mut self, places: usize) -> Result<(), AllocError>
        ensures { self.new ≡ self.old }
    {
        self.served.reserve(places)?;
        self.notes.reserve(places)
    }

    /// Adds a place without a connection.
    pub(crate) fn add_place(&mut self) -> Result<u32, AllocError>
        ensures base { self.new.served.base ≡ self.old.served.base }
        ensures calls { self.new.served.calls ≡ self.old.served.calls }
    {
        self.notes.add_place(self.served.places())?;
        let place = self.served.add_place()?;
        self.notes.add_vacant(place);
        Ok(place)
    }

    /// Opens a connection over a fresh socket at a place without a connection. Returns false, and
    /// drops the socket, if the place has a connection, or if an allocation fails.
    #[tactic(auto, using(crate::proofs::Calling::opened_exists))]
    pub(crate) fn open(&mut self, place: u32, socket: S) -> bool
        requires came { IfSome (S.came socket) (λ bytes. bytes ≡ []) }
        requires went { IfSome (S.went socket) (λ bytes. bytes ≡ []) }
        ensures base { self.new.served.base ≡ self.old.served.base }
        ensures exists { result ≡ true → exists_at place self.new.served.lines ≡ true }
        ensures refused { result ≡ false → self.new ≡ self.old }
    {
        self.served.laws();
        begun_laws();
        let places = self.served.places();
        match self.served.open(place, socket) {
            Ok(reply) => {
                self.notes.note(reply.acts.as_slice());
                self.notes.sit(place);
                self.notes.marked.put(place);
                self.count = one_more(self.count, places);
                drop(reply);
                true
            }
            Err(_) => false,
        }
    }

    /// Tells the broker the current time, in milliseconds. `None` if an allocation failed.
    #[tactic(auto, using(crate::proofs::Calling::quiet_none, crate::proofs::Calling::quiet_tick))]
    pub(crate) fn tick(&mut self, now: u64) -> Option<HubReply>
        ensures base { self.new.served.base ≡ self.old.served.base }
        ensures calls { Quietly self.old.served.calls self.new.served.calls }
    {
        self.served.laws();
        begun_laws();
        let Ok(reply) = self.served.tick(now) else {
            return None;
        };
        self.notes.note(reply.acts.as_slice());
        Some(reply)
    }

    /// Makes the broker's step with bytes of a connection, as [`Served::read`].
    pub(crate) fn read(&mut self, place: u32, buffer: &mut [u8]) -> Heard
        ensures base { self.new.served.base ≡ self.old.served.base }
        ensures calls { Reads place self.old.served.calls self.new.served.calls }
    {
        self.served.laws();
        begun_laws();
        let heard = self.served.read(place, buffer);
        match &heard {
            Heard::Step(_, reply) => {
                self.notes.note(reply.acts.as_slice());
                self.notes.marked.put(place);
            }
            Heard::Nothing => {}
            Heard::Over => self.notes.over.put(place),
        }
        heard
    }

    /// Writes the output that is kept for a connection. Returns whether nothing is kept any more.
    #[tactic(auto, using(crate::proofs::Outputs::nothing_kept))]
    pub(crate) fn flush(&mut self, place: u32) -> bool
        ensures base { self.new.served.base ≡ self.old.served.base }
        ensures calls { self.new.served.calls ≡ self.old.served.calls }
        ensures all { result ≡ true → kept_at place self.new.served.lines ≡ [] }
    {
        match self.served.flush(place) {
            Flushed::All => {
                self.notes.marked.put(place);
                true
            }
            Flushed::Blocked => false,
            Flushed::Failed => {
                self.notes.over.put(place);
                false
            }
        }
    }

    /// Ends the connections that are over, commits all steps, and writes the output of the others.
    ///
    /// On `Err` output that was committed before is written, and no other.
    #[tactic(auto, using(crate::proofs::Calling::quiet_then))]
    pub(crate) fn settle<O: Observer>(&mut self, observer: &mut O) -> Result<(), CommitFailure>
        ensures settled { OnOk result (IsSettled self.new) }
        ensures bounded { OnOk result (AreBounded self.new) }
        ensures calls { Quietly self.old.served.calls self.new.served.calls }
        ensures committed { OnOk result (self.new.served.committed ≡ true) }
        ensures sure { OnErr result (B.can_fail ≡ true) }
        ensures base { self.new.served.base ≡ self.old.served.base }
    {
        self.notes.has_failed = false;
        let _ = self.end_all(observer);
        self.commit_and_give(observer)?;
        while self.end_all(observer) {
            self.commit_and_give(observer)?;
        }
        self.check_settled();
        Ok(())
    }

    // Commits all steps, and then writes the output of each connection that is marked.
    #[tactic(auto, using(crate::proofs::Calling::quiet_same, crate::proofs::Calling::quiet_given))]
    fn commit_and_give<O: Observer>(&mut self, observer: &mut O) -> Result<(), CommitFailure>
        ensures marked { OnOk result (IsEmpty self.new.marked) }
        ensures calls { Quietly self.old.served.calls self.new.served.calls }
        ensures committed { OnOk result (self.new.served.committed ≡ true) }
        ensures sure { OnErr result (B.can_fail ≡ true) }
        ensures connections { connections_in self.new.served.lines ≡ connections_in self.old.served.lines }
        ensures base { self.new.served.base ≡ self.old.served.base }
    {
        self.commit()?;
        self.give_all(observer);
        Ok(())
    }

    // Commits all steps.
    fn commit(&mut self) -> Result<(), CommitFailure>
        ensures committed { OnOk result (self.new.served.committed ≡ true) }
        ensures sure { OnErr result (B.can_fail ≡ true) }
        ensures calls { OnOk result (self.new.served.calls ≡ with_calls self.old.served.calls (commit ∷ [])) }
        ensures uncalled { OnErr result (self.new.served.calls ≡ self.old.served.calls) }
        ensures lines { self.new.served.lines ≡ self.old.served.lines }
        ensures base { self.new.served.base ≡ self.old.served.base }
    {
        self.served.commit()
    }

    // Nothing to do: states the end of a round.
    fn check_settled(&self)
        ensures settled { IsEmpty self.now.marked → AreEnded self.now → IsSettled self.now }
        ensures bounded { IsEmpty self.now.marked → AreEnded self.now → AreBounded self.now }
    {
        let _ = &self.served;
    }

    // Ends each connection that is over. Returns whether a connection was ended.
    #[tactic(auto, using(crate::proofs::Calling::quiet_none, crate::proofs::Calling::quiet_then))]
    fn end_all<O: Observer>(&mut self, observer: &mut O) -> bool
        ensures ended { AreEnded self.new }
        ensures calls { Quietly self.old.served.calls self.new.served.calls }
        ensures same { result ≡ false → self.new.served ≡ self.old.served }
        ensures some { result ≡ true → connections_in self.new.served.lines < connections_in self.old.served.lines }
        ensures none { result ≡ false → self.new.marked ≡ self.old.marked }
        ensures base { self.new.served.base ≡ self.old.served.base }
    {
        let mut has_ended = false;
        while let Some(is_ended) = self.end_next(observer) {
            has_ended = either(has_ended, is_ended);
        }
        has_ended
    }

    // Takes a place that is over, and ends its connection. Returns whether there was one; `None` if
    // no place is over, or if an allocation fails.
    #[tactic(auto, using(crate::proofs::Calling::quiet_none, crate::proofs::Calling::quiet_same, crate::proofs::Calling::quiet_end))]
    fn end_next<O: Observer>(&mut self, observer: &mut O) -> Option<bool>
        ensures left { OnSome result (ends_left self.new < ends_left self.old) }
        ensures calls { Quietly self.old.served.calls self.new.served.calls }
        ensures some { IfSome result (λ is_ended. is_ended ≡ true → connections_in self.new.served.lines < connections_in self.old.served.lines) }
        ensures same { IfSome result (λ is_ended. is_ended ≡ false → (self.new.marked ≡ self.old.marked) × (self.new.served ≡ self.old.served)) }
        ensures none { IfNone result ((AreEnded self.new) × (self.new.marked ≡ self.old.marked) × (self.new.served ≡ self.old.served)) }
        ensures base { self.new.served.base ≡ self.old.served.base }
    {
        self.served.laws();
        begun_laws();
        let Some(place) = self.notes.over.pop() else {
            return None;
        };
        match self.served.end(place) {
            Ok(Some(reply)) => {
                observer.on_reply(&reply);
                self.notes.note(reply.acts.as_slice());
                self.notes.leave(place);
                self.count -= 1;
                Some(true)
            }
            Ok(None) => Some(false),
            Err(_) => {
                self.notes.over.put(place);
                self.notes.has_failed = true;
                None
            }
        }
    }

    // Writes the output of each connection that is marked. All steps must be committed.
    #[tactic(auto, using(crate::proofs::Calling::collecting_none, crate::proofs::Calling::collecting_then))]
    fn give_all<O: Observer>(&mut self, observer: &mut O)
        requires committed { self.old.served.committed ≡ true }
        ensures still { self.new.served.committed ≡ true }
        ensures calls { Collecting self.old.served.calls self.new.served.calls }
        ensures marked { IsEmpty self.new.marked }
        ensures connections { connections_in self.new.served.lines ≡ connections_in self.old.served.lines }
        ensures base { self.new.served.base ≡ self.old.served.base }
    {
        while self.give_next(observer) {}
    }

    // Writes the output of a connection that is marked. Returns false if none is.
    #[tactic(auto, using(crate::proofs::Calling::collecting_none))]
    fn give_next<O: Observer>(&mut self, observer: &mut O) -> bool
        requires committed { self.old.served.committed ≡ true }
        ensures still { self.new.served.committed ≡ true }
        ensures calls { Collecting self.old.served.calls self.new.served.calls }
        ensures none { result ≡ false → IsEmpty self.new.marked }
        ensures some { result ≡ true → count_in self.new.marked < count_in self.old.marked }
        ensures connections { connections_in self.new.served.lines ≡ connections_in self.old.served.lines }
        ensures base { self.new.served.base ≡ self.old.served.base }
    {
        self.served.laws();
        begun_laws();
        let Some(place) = self.notes.marked.pop() else {
            return false;
        };
        match self.served.give(place) {
            Given::Written(count) => observer.on_collect(count),
            Given::Full => {
                let bytes = self.served.waiting(place);
                if self.notes.is_lost(place, bytes, self.most_owed) {
                    self.notes.over.put(place);
                }
            }
            Given::Finished => self.notes.over.put(place),
        }
        true
    }

    /// Whether output is kept for a connection, because its socket did not take it.
    pub(crate) fn is_blocked(&self, place: u32) -> bool
        ensures { result ≡ not (length (kept_at place self.now.served.lines) == 0) }
    {
        self.served.is_blocked(place)
    }

    /// Whether bytes of a connection wait for a step, or it must be ended.
    pub(crate) fn has_unread(&self, place: u32) -> bool
        ensures { result ≡ has_unread (line_at place self.now.served.lines) }
    {
        self.served.has_unread(place)
    }

    /// The number of bytes of output that are pending for a connection, here and at the broker.
    pub(crate) fn pending(&self, place: u32) -> usize
        ensures { result ≡ min (pending_at place self.now.served) (2 ^ 64 - 1) }
    {
        let kept = self.served.kept(place);
        kept.saturating_add(self.served.waiting(place))
    }

    /// The number of connections.
    pub(crate) fn count(&self) -> usize
        ensures { result ≡ connections_in self.now.served.lines }
    {
        self.count
    }

    /// The number of places.
    pub(crate) fn places(&self) -> usize
        ensures { result ≡ length self.now.served.lines }
    {
        self.served.places()
    }

    /// The notes.
    pub(crate) fn notes(&self) -> &Notes {
        &self.notes
    }

    /// Whether a connection may have to be ended. `false` means that none must.
    pub(crate) fn may_have_over(&self) -> bool
        ensures { result ≡ false → IsEmpty self.now.over }
    {
        self.notes.over.may_have_some()
    }

    /// Adds a report.
    pub(crate) fn report(&mut self, report: Report)
        ensures { self.new ≡ self.old }
    {
        self.notes.report(report);
    }

    /// Takes the reports.
    pub(crate) fn take_reports(&mut self) -> Vec<Report>
        ensures { self.new ≡ self.old }
    {
        self.notes.take_reports()
    }
}

impl<B: SnapshotBroker + Drop, S: Socket + Drop> Watched<B, S> {
    /// Takes the broker's notes about snapshots.
    pub(crate) fn take_notes(&mut self) -> Vec<SnapshotNote>
        ensures taken { result.items ≡ self.old.served.notes }
        ensures left { self.new ≡ record self.old { served = without_notes self.old.served } }
    {
        self.served.take_notes()
    }
}
