//! A file of the system as a disk.

ghost use Rattle.std.specs.Prelude.{◌≡◌, ◌≤◌, ◌+◌, [], length, max, IfOk, IfSome, OnErr, OnOk};
ghost use Rattle.mq_file.specs.Prelude.{Elapses, Follows, HasCause, Holds, Torn, LeftSince, MayLeave, failures, file_size, seen_after, left_now, now_only};

use crate::record::Record;
use mq_log::{Disk, DiskError};
use std::alloc::Global;
use std::fs::{File, OpenOptions};
use std::io;
use std::marker::Model;
use std::os::unix::fs::FileExt;
use std::rt::Files;

/// The failure that a commit survives.
#[derive(Clone, Copy, Debug, PartialEq, Eq)]
pub enum Keep {
    /// The end of the process: the system has the journal.
    System,
    /// The end of the machine's power: the disk has the journal.
    Disk,
}

const WROTE: u64 = 0;

const STUMBLED: u64 = 1;

const SYNCED: u64 = 2;

const FAILED: u64 = 3;

/// A file of the system that is written from its beginning, and never read.
///
/// Contracts see it as its calls, newest first, from which its content follows. With
/// [`Keep::System`] a sync does nothing. Then the model of a crash is that of a process, whose
/// writes survive it.
#[derive(Drop)]
pub struct JournalFile {
    file: File,
    keep: Keep,
    // The number of bytes of the content.
    size: u64,
    history: Record,
}

impl Model for JournalFile {
    ghost use Rattle.std.specs.Prelude.{◌≡◌, List};
    ghost use Rattle.mq_file.specs.History.{FileCall, file_size};

    ghost Value = { List FileCall };

    ghost view = { λ f. f.history.calls };

    ghost invariant = { λ f. f.size ≡ file_size f.history.calls };
}

// Writes bytes at an offset. Returns the offset behind them, or `None` if that failed.
fn write_all(file: &File, at: u64, bytes: &[u8]) -> Option<u64>
    ensures { IfSome result (λ end. end ≡ at + length bytes.now) }
{
    let end = at.checked_add(bytes.len() as u64)?;
    match file.write_all_at(bytes, at) {
        Ok(()) => Some(end),
        Err(_) => None,
    }
}

impl JournalFile {
    /// Opens a file that exists and is durable, and empties it.
    ///
    /// A file that is empty already is not truncated. ext4 writes a truncated file to the disk when
    /// it is closed, and waits for that even if the file was removed.
    pub fn empty<R: Files<File = File>>(rt: &R, path: &str, keep: Keep) -> io::Result<JournalFile>
        ensures { IfOk result (λ file. file ≡ []) }
    {
        let file = OpenOptions::new().write(true).open(rt, path)?;
        if file.metadata()?.len() > 0 {
            file.set_len(0)?;
        }
        let history = Record::new();
        Ok(JournalFile {
            file,
            keep,
            size: 0,
            history,
        })
    }

    /// The number of bytes of the content. A write that failed is not counted.
    pub fn size(&self) -> u64
        ensures { result ≡ file_size self.now }
    {
        self.size
    }
}

impl Disk for JournalFile {
    ghost seen = { λ f. seen_after f };

    ghost may_leave = { λ f. MayLeave f };

    ghost clock = { λ f. length f };

    ghost left_since = { λ f. LeftSince f };

    ghost faults = { λ f. failures f };

    ghost counts_now = { λ f. left_now f };

    ghost only_now = { λ f. now_only f };

    fn read(&mut self, _alloc: Global) -> Result<Vec<u8>, DiskError> {
        self.history.note(&[FAILED, 0], &[]);
        Err(DiskError::Failed)
    }

    fn write_at(&mut self, at: usize, bytes: &[u8]) -> Result<(), DiskError>
        requires { at ≤ file_size self.old }
        ensures written { OnOk result (Holds (seen_after self.old) at bytes.now (seen_after self.new)) }
        ensures size { OnOk result (file_size self.new ≡ max (file_size self.old) (at + length bytes.now)) }
        ensures size_kept { OnErr result (file_size self.new ≡ file_size self.old) }
        ensures crash { Follows (Torn at (length bytes.now)) (MayLeave self.old) (MayLeave self.new) }
        ensures time { Elapses (length self.old) (length self.new) (LeftSince self.old) (LeftSince self.new) (MayLeave self.new) }
        ensures cause { HasCause (failures self.old) (failures self.new) result }
    {
        let at64 = at as u64;
        match write_all(&self.file, at64, bytes) {
            Some(end) => {
                self.history.note(&[WROTE, at64], bytes);
                self.size = self.size.max(end);
                Ok(())
            }
            None => {
                self.history.note(&[STUMBLED, at64], bytes);
                Err(DiskError::Failed)
            }
        }
    }

    #[tactic(auto, using(crate::proofs::Contents::sync_leaves))]
    fn sync(&mut self) -> Result<(), DiskError> {
        let synced = match self.keep {
            Keep::System => Ok(()),
            Keep::Disk => self.file.sync_data(),
        };
        match synced {
            Ok(()) => {
                self.history.note(&[SYNCED, 0], &[]);
                Ok(())
            }
            Err(_) => {
                self.history.note(&[FAILED, 0], &[]);
                Err(DiskError::Failed)
            }
        }
    }
}
