//! The folder of a broker, and how it continues in another journal.

ghost use Rattle.std.specs.Prelude.{◌≡◌, ◌+◌, ◌<◌, ◌↔◌, [], length, string_bytes, IfOk, IsTrue, OnErr, OnOk};
ghost use Rattle.mq_store.specs.Prelude.{events_of, MayLeave, seen_after, at_rest, IsSettled, HasNext, IsContinued, IsFull, MayContinue, MayHaveNext, journal_path, next_path, next_snapshot, snapshot_path};

use crate::fault::StoreError;
use crate::snapshot_file::snapshot_bytes;
use mq_durable::Durable;
use mq_file::{Folder, JournalFile, Keep};
use mq_hub::Hub;
use mq_log::{Journal, begin};
use std::alloc::{AllocError, Global};
use std::fs::File;
use std::rt::Files;

/// How a store keeps a broker.
#[derive(Clone, Copy, Debug, PartialEq, Eq)]
pub struct StoreOptions {
    /// The failure that a commit survives.
    pub keep: Keep,
    /// The number of bytes from which on a journal is full. With 0 it is full after each commit.
    pub journal_size: u64,
}

/// The folder of a broker, which is locked as long as this value exists.
///
/// The file `snapshot` has the broker before the first event of the journal, its configuration, and
/// the number of the journal.
#[derive(Drop)]
pub struct DataFolder {
    pub(crate) folder: Folder,
    pub(crate) path: String,
    /// The configuration of the broker, as bytes.
    pub(crate) config: Vec<u8>,
    /// The number of the journal. 0 before the first one.
    pub(crate) nth: u64,
    pub(crate) options: StoreOptions,
}

/// The name of the journal with this number.
pub(crate) fn journal_name(alloc: Global, path: &str, nth: u64) -> Result<String, AllocError>
    ensures { IfOk result (λ name. string_bytes name ≡ journal_path path.now nth) }
{
    format!(in alloc; "{path}/journal.{nth}")
}

/// The name of the file `snapshot`.
pub(crate) fn snapshot_name(alloc: Global, path: &str) -> Result<String, AllocError>
    ensures { IfOk result (λ name. string_bytes name ≡ snapshot_path path.now) }
{
    format!(in alloc; "{path}/snapshot")
}

// The names of the files of a switch.
#[derive(Drop)]
struct Names {
    // A file that is about to become `snapshot`.
    next: String,
    snapshot: String,
    first: String,
    second: String,
}

// The names of a switch between the journals of two numbers.
fn names_of(alloc: Global, path: &str, first: u64, second: u64) -> Result<Names, AllocError>
    ensures next { IfOk result (λ names. string_bytes names.next ≡ next_path path.now) }
    ensures snapshot { IfOk result (λ names. string_bytes names.snapshot ≡ snapshot_path path.now) }
    ensures first { IfOk result (λ names. string_bytes names.first ≡ journal_path path.now first) }
    ensures second { IfOk result (λ names. string_bytes names.second ≡ journal_path path.now second) }
{
    Ok(Names {
        next: format!(in alloc; "{path}/snapshot.next")?,
        snapshot: snapshot_name(alloc, path)?,
        first: journal_name(alloc, path, first)?,
        second: journal_name(alloc, path, second)?,
    })
}

impl DataFolder {
    // Replaces the file `snapshot`, and continues in the journal of this number, which is empty.
    fn switch<R: Files<File = File>>(
        &mut self,
        rt: &R,
        alloc: Global,
        nth: u64,
        bytes: &[u8],
    ) -> Result<JournalFile, StoreError>
        ensures empty { IfOk result (λ file. file ≡ []) }
        ensures rest { self.new ≡ record self.old { folder = self.new.folder } }
        ensures saved { self.old.nth < nth → OnOk result
            (IsContinued (string_bytes self.old.path) bytes.now self.old.nth nth self.old.folder self.new.folder) }
        ensures at_any_time { self.old.nth < nth →
            MayContinue (string_bytes self.old.path) bytes.now self.old.nth nth self.old.folder self.new.folder }
    {
        let names = names_of(alloc, self.path.as_str(), self.nth, nth)?;
        self.folder.switch(
            rt,
            names.next.as_str(),
            names.snapshot.as_str(),
            bytes,
            names.first.as_str(),
            names.second.as_str(),
        )?;
        match JournalFile::empty(rt, names.second.as_str(), self.options.keep) {
            Ok(file) => Ok(file),
            Err(_) => Err(StoreError::Unwritten),
        }
    }

    // Makes a snapshot of the broker, and continues in the next journal, which is empty. Returns
    // the journal and the number of bytes of the snapshot.
    fn next_file<R: Files<File = File>>(
        &mut self,
        rt: &R,
        alloc: Global,
        hub: &Hub,
    ) -> Result<(JournalFile, usize), StoreError>
        ensures empty { IfOk result (λ r. r.0 ≡ []) }
        ensures size { IfOk result (λ r. r.1 ≡ length (next_snapshot self.old hub.now)) }
        ensures nth { OnOk result (self.new.nth ≡ self.old.nth + 1) }
        ensures saved { OnOk result (HasNext self.old hub.now self.new) }
        ensures at_any_time { MayHaveNext self.old hub.now self.new }
        ensures path { self.new.path ≡ self.old.path }
        ensures config { self.new.config ≡ self.old.config }
    {
        let Some(nth) = self.nth.checked_add(1) else {
            return Err(StoreError::TooLong);
        };
        let bytes = snapshot_bytes(alloc, nth, self.config.as_slice(), hub)?;
        let file = self.switch(rt, alloc, nth, bytes.as_slice())?;
        self.nth = nth;
        Ok((file, bytes.len()))
    }

    // Removes the journal that a crash left behind in front of the one of this number.
    fn remove_earlier<R: Files<File = File>>(
        &mut self,
        rt: &R,
        alloc: Global,
    ) -> Result<(), StoreError>
        ensures { self.new ≡ record self.old { folder = self.new.folder } }
    {
        let name = journal_name(alloc, self.path.as_str(), self.nth.saturating_sub(1))?;
        self.folder.remove(rt, name.as_str())?;
        Ok(())
    }

    /// Makes a snapshot of a broker that was found in the folder, and begins the next journal.
    pub(crate) fn begin<R: Files<File = File>>(
        &mut self,
        rt: &R,
        alloc: Global,
        hub: &Hub,
    ) -> Result<Journal<JournalFile>, StoreError>
        ensures settled { IfOk result (IsSettled (λ file. seen_after file) (λ file. MayLeave file)) }
        ensures begun { IfOk result (λ journal. seen_after journal.disk ≡ at_rest []) }
        ensures nth { OnOk result (self.new.nth ≡ self.old.nth + 1) }
        ensures saved { OnOk result (HasNext self.old hub.now self.new) }
        ensures config { self.new.config ≡ self.old.config }
    {
        self.remove_earlier(rt, alloc)?;
        let (mut file, _) = self.next_file(rt, alloc, hub)?;
        begin(&mut file)?;
        Ok(Journal::new(file))
    }

    /// Whether the journal has reached its size, and has an event.
    pub fn is_full(&self, durable: &Durable<JournalFile>) -> bool
        ensures { IsTrue result ↔ IsFull self.now durable.now }
    {
        let size = durable.disk().size();
        1 < size && self.options.journal_size <= size
    }

    /// Begins the next journal: makes a snapshot of the broker, with its connections, and an empty
    /// journal, and removes the old one. No event must be pending. Returns the number of bytes of
    /// the snapshot.
    ///
    /// After an `Err` the program must end. The folder then has the old files or the new ones, and
    /// a start recovers the same broker. Errors: `Unwritten`, `Full`, `TooLong`, `Memory`.
    pub fn begin_next<R: Files<File = File>>(
        &mut self,
        rt: &R,
        alloc: Global,
        durable: &mut Durable<JournalFile>,
    ) -> Result<usize, StoreError>
        requires { durable.old.pending ≡ [] }
        ensures ok { OnOk result (durable.new ≡ record durable.old { base = durable.old.hub; disk = durable.new.disk }) }
        ensures none { OnOk result (events_of (seen_after durable.new.disk) ≡ []) }
        ensures begun { OnOk result (seen_after durable.new.disk ≡ at_rest []) }
        ensures err { OnErr result (durable.new ≡ durable.old) }
        ensures size { IfOk result (λ size. size ≡ length (next_snapshot self.old durable.old.hub)) }
        ensures nth { OnOk result (self.new.nth ≡ self.old.nth + 1) }
        ensures saved { OnOk result (HasNext self.old durable.old.hub self.new) }
        ensures at_any_time { MayHaveNext self.old durable.old.hub self.new }
        ensures path { self.new.path ≡ self.old.path }
        ensures config { self.new.config ≡ self.old.config }
    {
        let (file, size) = self.next_file(rt, alloc, durable.hub())?;
        let _old = durable.continue_in(file)?;
        Ok(size)
    }
}
