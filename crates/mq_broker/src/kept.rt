//! The broker of an event loop, with a journal.

ghost use Rattle.std.specs.Prelude.{◌≡◌, ◌==◌, [], length, true, OnOk};
ghost use Rattle.mq_broker.specs.Prelude.{next_failure, NotesNext, Continues, HasNext, IsFull};

use mq_durable::{CommitError, Durable, StepRefusal};
use mq_file::JournalFile;
use mq_hub::Hub;
use mq_log::DiskError;
use mq_loop::{Broker, CommitFailure, SnapshotBroker, SnapshotNote};
use mq_route::{Conn, HubEvent, HubRefusal, HubReply};
use mq_store::{DataFolder, StoreError};
use std::alloc::Global;
use std::fs::File;
use std::rt::Files;
use std::time::Instant;
use std::{io, mem, time};

/// A broker whose events are in a journal before their output is collected.
#[derive(Drop)]
pub(crate) struct Kept<'a, R: Files<File = File>> {
    pub(crate) rt: &'a R,
    pub(crate) alloc: Global,
    pub(crate) durable: Durable<JournalFile>,
    pub(crate) folder: DataFolder,
    /// The notes about snapshots that the log doesn't have yet.
    pub(crate) notes: Vec<SnapshotNote>,
}

// Why the broker made no step. A commit reports an earlier failure, and an entry that is full.
fn hub_refusal(why: StepRefusal) -> HubRefusal {
    match why {
        StepRefusal::Hub(why) => why,
        StepRefusal::EntryFull | StepRefusal::Broken => HubRefusal::Memory,
    }
}

fn commit_failure(error: CommitError) -> CommitFailure {
    match error {
        CommitError::OutOfMemory | CommitError::Disk(DiskError::Memory) => CommitFailure::Memory,
        CommitError::Disk(DiskError::Full) => CommitFailure::Full,
        CommitError::Broken | CommitError::Disk(DiskError::Failed) => CommitFailure::Storage,
    }
}

// Why the next file was not begun. The files before it are whole.
fn next_failure(error: StoreError) -> CommitFailure
    ensures { result ≡ next_failure error }
{
    match error {
        StoreError::Memory => CommitFailure::Memory,
        StoreError::Full => CommitFailure::Full,
        _ => CommitFailure::Storage,
    }
}

// The milliseconds since a time, as far as the clock is readable.
fn milliseconds_since<R: time::Clock>(rt: &R, began: io::Result<Instant>) -> u64 {
    let Ok(began) = began else {
        return 0;
    };
    let Ok(time) = began.elapsed(rt) else {
        return 0;
    };
    u64::try_from(time.as_millis()).unwrap_or(u64::MAX)
}

impl<'a, R: time::Clock + Files<File = File>> Kept<'a, R> {
    // Begins the next file, if the one before has reached its size, and notes the snapshot.
    #[tactic(auto, using(crate::proofs::Fullness::just_begun))]
    fn begin_next(&mut self) -> Result<(), CommitFailure>
        requires { self.old.durable.pending ≡ [] }
        ensures hub { self.new.durable.hub ≡ self.old.durable.hub }
        ensures none { self.new.durable.pending ≡ [] }
        ensures same { ¬ (IsFull self.old.folder self.old.durable)
            → (self.new.durable ≡ self.old.durable) × (self.new.folder ≡ self.old.folder) × (self.new.notes ≡ self.old.notes) }
        ensures begun { IsFull self.old.folder self.old.durable
            → OnOk result (HasNext self.old.folder self.old.durable.hub self.new.folder) }
        ensures not_full { OnOk result (¬ (IsFull self.new.folder self.new.durable)) }
        ensures noted { OnOk result (NotesNext self.old.folder self.old.durable.hub self.new.folder self.old.notes.items self.new.notes.items) }
        ensures notes { Continues self.old.notes.items self.new.notes.items }
    {
        if !self.folder.is_full(&self.durable) {
            return Ok(());
        }
        let began = Instant::now(self.rt);
        match self
            .folder
            .begin_next(self.rt, self.alloc, &mut self.durable)
        {
            Ok(bytes) => {
                let note = SnapshotNote {
                    bytes: bytes as u64,
                    sessions: self.durable.hub().counts().sessions as u64,
                    milliseconds: milliseconds_since(self.rt, began),
                };
                match self.notes.push(note) {
                    Ok(()) => Ok(()),
                    Err(_) => Err(CommitFailure::Memory),
                }
            }
            Err(error) => Err(next_failure(error)),
        }
    }
}

impl<'a, R: time::Clock + Files<File = File>> Broker for Kept<'a, R> {
    ghost state = { λ kept. kept.durable.hub };

    ghost committed = { λ kept. length kept.durable.pending == 0 };

    ghost can_fail = { true };

    ghost notes = { λ kept. kept.notes.items };

    fn hub(&self) -> &Hub {
        self.durable.hub()
    }

    #[tactic(auto, using(crate::proofs::Inputs::recorded))]
    fn step(&mut self, event: &HubEvent) -> Result<HubReply, HubRefusal> {
        match self.durable.step(event) {
            Ok(reply) => Ok(reply),
            Err(why) => Err(hub_refusal(why)),
        }
    }

    fn step_some(
        &mut self,
        conn: Conn,
        piece: &[u8],
        most_acts: usize,
    ) -> Result<(HubReply, usize), HubRefusal> {
        match self.durable.step_some(conn, piece, most_acts) {
            Ok(stepped) => Ok(stepped),
            Err(why) => Err(hub_refusal(why)),
        }
    }

    #[tactic(auto, using(crate::proofs::Inputs::none_pending))]
    fn collect(&mut self, conn: Conn) -> Result<HubReply, HubRefusal> {
        match self.durable.collect(conn) {
            Ok(reply) => Ok(reply),
            Err(why) => Err(hub_refusal(why)),
        }
    }

    fn commit(&mut self) -> Result<(), CommitFailure>
        ensures ok { OnOk result ((length self.new.durable.pending == 0) ≡ true) }
        ensures state { self.new.durable.hub ≡ self.old.durable.hub }
        ensures not_full { OnOk result (¬ (IsFull self.new.folder self.new.durable)) }
        ensures noted { OnOk result (NotesNext self.old.folder self.old.durable.hub self.new.folder self.old.notes.items self.new.notes.items) }
        ensures notes { Continues self.old.notes.items self.new.notes.items }
    {
        match self.durable.commit() {
            Ok(()) => self.begin_next(),
            Err(error) => Err(commit_failure(error)),
        }
    }
}

impl<'a, R: time::Clock + Files<File = File>> SnapshotBroker for Kept<'a, R> {
    fn take_notes(&mut self, alloc: Global) -> Vec<SnapshotNote> {
        mem::replace(&mut self.notes, Vec::new(alloc))
    }
}
