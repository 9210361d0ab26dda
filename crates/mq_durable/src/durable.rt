//! A broker with a journal of its events.

ghost use Rattle.std.specs.Prelude.{◌≡◌, ◌≢◌, ◌<◌, ◌↔◌, [], ◌∷◌, ◌++◌, true, false, length, take, IfOk, IfErr, OnOk, OnErr};
ghost use Rattle.mq_durable.specs.Prelude.{at_rest, LeavesOnly, Only, IsSettled, is_recorded, Bytes, Collect, HubStep, HubStepSome, Sound, Broken, Collected, Committed, Continued, MakesCall, Stepped, AfterCrash, HoldsAllOrNone, events_of, FollowsJournal, IsCommitRefused, IsStepRefused, after_failure, after_step, reply_in};

use crate::condition::Condition;
use crate::fault::{CommitError, StepRefusal};
use crate::noted::{collect_from, step_noted, step_some_noted};
use crate::outcome::{condition_after, condition_after_some};
use mq_hub::Hub;
use mq_log::{Disk, Journal, begin, journal_laws};
use mq_record::record_laws;
use mq_route::{Conn, HubEvent, HubReply};
use std::alloc::Global;
use std::marker::Model;
use std::mem;
use std::snapshot::Snapshot;

/// A broker with a journal of its events.
///
/// Contracts see the broker before the first event of the journal's file as `base`. The broker
/// follows from it by the events of the file, and then the pending ones.
#[derive(Drop)]
pub struct Durable<D: Disk> {
    alloc: Global,
    base: Snapshot<Hub>,
    hub: Hub,
    journal: Journal<D>,
    // The encodings of the pending events.
    entry: Vec<u8>,
    condition: Condition,
}

impl<D: Disk> Model for Durable<D> {
    ghost use Rattle.std.specs.Coded.{codes, coded_ℕ};
    ghost use Rattle.std.specs.FinSet as set;
    ghost use Rattle.std.specs.Ordering.{nat_cmp};
    ghost use Rattle.mq_durable.specs.Recorded.{events_in};
    ghost use Rattle.mq_durable.specs.State.{DurableState, IsDurable};

    ghost Value = { DurableState D };

    ghost coded = { Prim.hlevel (codes, set.code {R = nat_cmp} coded_ℕ, D.code) };

    ghost view = { λ d. record {
      base = d.base.value;
      hub = d.hub;
      pending = events_in d.entry.items;
      disk = d.journal.disk;
      condition = d.condition;
    } };

    ghost invariant = { λ d. IsDurable D.Disk.seen D.Disk.may_leave d.base.value d.hub d.journal
        d.entry.items d.condition };
}

fn is_broken(condition: Condition) -> bool
    ensures yes { result ≡ true → condition ≡ Broken }
    ensures no { result ≡ false → condition ≢ Broken }
{
    match condition {
        Condition::Broken => true,
        Condition::Sound | Condition::OutOfMemory => false,
    }
}

fn has_bytes(entry: &[u8]) -> bool
    ensures yes { result ≡ true → entry.now ≢ [] }
    ensures no { result ≡ false → entry.now ≡ [] }
{
    match entry {
        [] => false,
        _ => true,
    }
}

impl<D: Disk> Durable<D> {
    /// A broker whose events are recorded in a journal that has no entry.
    ///
    /// The journal records the events after this call. A snapshot of the broker keeps the result of
    /// the ones before, apart from pending output.
    pub fn new(alloc: Global, hub: Hub, journal: Journal<D>) -> Durable<D>
        requires settled { IsSettled D.seen D.may_leave journal }
        requires begun { D.seen journal.disk ≡ at_rest [] }
        ensures { result ≡ record {
          base = hub;
          hub = hub;
          pending = [];
          disk = journal.disk;
          condition = Sound;
        } }
    {
        record_laws();
        Durable {
            alloc,
            base: Snapshot::of(&hub),
            hub,
            journal,
            entry: Vec::new(alloc),
            condition: Condition::Sound,
        }
    }

    /// The broker.
    pub fn hub(&self) -> &Hub
        ensures hub { result.now ≡ self.now.hub }
        ensures follows { self.now.condition ≢ Broken → FollowsJournal D.seen self.now }
    {
        &self.hub
    }

    /// The file of the journal.
    pub fn disk(&self) -> &D
        ensures disk { result.now ≡ self.now.disk }

        // A crash between two calls leaves the file's events, with the pending ones or without.
        ensures crash { self.now.condition ≢ Broken
            → AfterCrash (D.may_leave self.now.disk)
            (HoldsAllOrNone (events_of (D.seen self.now.disk)) self.now.pending) }
    {
        journal_laws();
        &self.journal.disk
    }

    /// Whether the broker may continue. Unless the result is `Sound`, the next [`commit`] fails,
    /// and the process must end.
    ///
    /// [`commit`]: Durable::commit
    pub fn condition(&self) -> Condition
        ensures { result ≡ self.now.condition }
    {
        self.condition
    }

    /// Whether an event is pending: its step was made, and it is not committed.
    pub fn has_pending(&self) -> bool
        ensures { (result ≡ false) ↔ (self.now.pending ≡ []) }
    {
        record_laws();
        has_bytes(self.entry.as_slice())
    }

    /// Makes the broker's step for an event, which is then pending. The event must be one that is
    /// recorded: use [`collect`](Durable::collect) for `Collect`.
    ///
    /// If a reply or the result reports that an allocation failed, the condition becomes
    /// `OutOfMemory`. Otherwise an `Err` changes nothing. Errors:
    ///
    /// - `Hub` if the broker refuses the event, or if an allocation fails.
    /// - `EntryFull` if the pending events would have 2^32 bytes or more.
    /// - `Broken` if a commit failed before.
    pub fn step(&mut self, event: &HubEvent) -> Result<HubReply, StepRefusal>
        requires recorded { is_recorded event.now ≡ true }
        ensures step { IfOk result (λ reply. HubStep self.old.hub event.now reply self.new.hub) }
        ensures ok { OnOk result (self.new ≡ record self.old {
          hub = self.new.hub;
          pending = self.old.pending ++ event.now ∷ [];
          condition = after_step result self.old.condition;
        }) }
        ensures err { OnErr result (self.new
            ≡ record self.old { condition = after_step result self.old.condition }) }
        ensures refused { IfErr result (IsStepRefused self.old event.now) }
        ensures call { OnOk result (MakesCall D.seen (Stepped event.now) self.old self.new) }
    {
        record_laws();
        if is_broken(self.condition) {
            return Err(StepRefusal::Broken);
        }
        let stepped = step_noted(&mut self.hub, &mut self.entry, event);
        self.condition = condition_after(&stepped, self.condition);
        stepped
    }

    /// Makes the broker's step for the front of bytes that arrive, up to the packet with which the
    /// step reaches `most_acts` acts, or for all of them. Returns the reply and the number of bytes
    /// used. The arrival of exactly these bytes is then pending.
    ///
    /// Conditions and errors are those of [`step`](Durable::step).
    pub fn step_some(
        &mut self,
        conn: Conn,
        piece: &[u8],
        most_acts: usize,
    ) -> Result<(HubReply, usize), StepRefusal>
        ensures step { IfOk result
            (λ r. HubStepSome self.old.hub conn piece.now most_acts r.0 r.1 self.new.hub) }
        ensures some { IfOk result (λ r. 0 < length piece.now → 0 < r.1) }
        ensures ok { IfOk result (λ r. self.new ≡ record self.old {
          hub = self.new.hub;
          pending = self.old.pending ++ Bytes conn (take r.1 piece.now) ∷ [];
          condition = after_step (reply_in result) self.old.condition;
        }) }
        ensures err { OnErr result (self.new
            ≡ record self.old { condition = after_step (reply_in result) self.old.condition }) }
        ensures refused { IfErr result (IsStepRefused self.old (Bytes conn piece.now)) }
        ensures call { IfOk result (λ r.
            MakesCall D.seen (Stepped (Bytes conn (take r.1 piece.now))) self.old self.new) }
    {
        record_laws();
        if is_broken(self.condition) {
            return Err(StepRefusal::Broken);
        }
        let stepped = step_some_noted(&mut self.hub, &mut self.entry, conn, piece, most_acts);
        self.condition = condition_after_some(&stepped, self.condition);
        stepped
    }

    /// Takes the pending output of a connection. No event must be pending, so that the journal has
    /// each event of which the output is a result.
    ///
    /// Errors:
    ///
    /// - `Hub` if the broker refuses, or if an allocation fails.
    /// - `Broken` if a commit failed before.
    pub fn collect(&mut self, conn: Conn) -> Result<HubReply, StepRefusal>
        requires committed { self.old.pending ≡ [] }
        ensures step { IfOk result (λ reply. HubStep self.old.hub (Collect conn) reply self.new.hub) }
        ensures ok { OnOk result (self.new ≡ record self.old { hub = self.new.hub }) }
        ensures err { OnErr result (self.new ≡ self.old) }
        ensures refused { IfErr result (IsStepRefused self.old (Collect conn)) }
        ensures call { OnOk result (MakesCall D.seen (Collected conn) self.old self.new) }
    {
        if is_broken(self.condition) {
            return Err(StepRefusal::Broken);
        }
        collect_from(&mut self.hub, conn)
    }

    /// Appends the pending events to the journal as one entry. On `Ok` they are durable, and their
    /// output may be sent. Does nothing if no event is pending.
    ///
    /// Errors, after which the process must end:
    ///
    /// - `OutOfMemory` if a step reported that an allocation failed. The file is unchanged.
    /// - `Broken` if a commit failed before. The file is unchanged.
    /// - `Disk` if the journal fails now. The file may have the pending events or not, and every
    ///   later call is refused.
    pub fn commit(&mut self) -> Result<(), CommitError>
        ensures ok { OnOk result (self.new
            ≡ record self.old { pending = []; disk = self.new.disk }) }
        ensures recorded { OnOk result (events_of (D.seen self.new.disk)
            ≡ events_of (D.seen self.old.disk) ++ self.old.pending) }
        ensures sound { OnOk result (self.old.condition ≡ Sound) }
        ensures call { OnOk result (MakesCall D.seen Committed self.old self.new) }
        ensures err { IfErr result (λ why. self.new ≡ record self.old {
          disk = self.new.disk;
          condition = after_failure why self.old.condition;
        }) }
        ensures refused { IfErr result (IsCommitRefused self.old self.new) }

        // A crash at any time of the call leaves the events from before it, with the pending ones
        // or without.
        ensures at_any_time { self.old.condition ≢ Broken
            → LeavesOnly D.clock D.left_since self.old.disk self.new.disk
            (HoldsAllOrNone (events_of (D.seen self.old.disk)) self.old.pending) }
    {
        journal_laws();
        match self.condition {
            Condition::Sound => {}
            Condition::OutOfMemory => return Err(CommitError::OutOfMemory),
            Condition::Broken => return Err(CommitError::Broken),
        }
        if !has_bytes(self.entry.as_slice()) {
            return Ok(());
        }
        match self.journal.put(self.alloc, self.entry.as_slice()) {
            Ok(()) => {
                self.entry.clear();
                Ok(())
            }
            Err(error) => {
                self.condition = Condition::Broken;
                Err(CommitError::Disk(error))
            }
        }
    }
}

impl<D: Disk + Drop> Durable<D> {
    /// Continues in another file, which must be empty and synced. No event must be pending. On `Ok`
    /// the broker as it is now is the base of the new file, and the old file is returned.
    ///
    /// Commit nothing until a snapshot of the broker is durable: a start that reads the old file
    /// misses the events of the new one.
    ///
    /// On `Err` the old file may be used further. Errors:
    ///
    /// - `OutOfMemory` if a step reported that an allocation failed.
    /// - `Broken` if a commit failed before.
    /// - `Disk` if the new file fails. It is dropped.
    pub fn continue_in(&mut self, disk: D) -> Result<D, CommitError>
        requires committed { self.old.pending ≡ [] }
        requires empty { D.seen disk ≡ [] }
        requires synced { Only (D.seen disk) (D.may_leave disk) }
        ensures ok { OnOk result (self.new
            ≡ record self.old { base = self.old.hub; disk = self.new.disk }) }
        ensures begun { OnOk result (D.seen self.new.disk ≡ at_rest []) }
        ensures none { OnOk result (events_of (D.seen self.new.disk) ≡ []) }
        ensures returned { IfOk result (λ file. file ≡ self.old.disk) }
        ensures sound { OnOk result (self.old.condition ≡ Sound) }
        ensures call { OnOk result (MakesCall D.seen Continued self.old self.new) }
        ensures err { OnErr result (self.new ≡ self.old) }
        ensures refused { IfErr result (IsCommitRefused self.old self.new) }
    {
        let mut disk = disk;
        match self.condition {
            Condition::Sound => match begin(&mut disk) {
                Ok(()) => {
                    let journal = mem::replace(&mut self.journal, Journal::new(disk));
                    self.base = Snapshot::of(&self.hub);
                    Ok(journal.disk)
                }
                Err(error) => Err(CommitError::Disk(error)),
            },
            Condition::OutOfMemory => Err(CommitError::OutOfMemory),
            Condition::Broken => Err(CommitError::Broken),
        }
    }
}
