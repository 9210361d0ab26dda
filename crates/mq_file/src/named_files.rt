//! Files by name, how one is replaced, and how a folder continues in another journal.

ghost use Rattle.std.specs.Prelude.{◌≡◌, List, [], ℕ, None, Option, IfErr, OnErr, OnOk};
ghost use Rattle.mq_file.specs.Prelude.{IsNotWritten, AreApart, Content, Files, IsEitherPair, IsOldOrNew, IsReplaced, IsSwitched, Leads, OthersAreKept, OthersStay, Related, Removed, Renamed, Synced, Throughout, Unchanged, Writes};

use crate::error::{FolderError, written};
use std::io;

/// The files of a folder, by name.
///
/// Contracts see the outcomes of a crash for each name, now and at each time before, as far as an
/// implementation says so. Nothing is known of the files of the system.
pub trait NamedFiles {
    /// The outcomes of a crash for each name, if they are known.
    ghost folder: { Self → Option Files } = { λ _. None };

    /// Writes a whole file anew, durably.
    fn write_new(&mut self, name: &str, bytes: &[u8]) -> io::Result<()>
        ensures ok { OnOk result (Writes name.now bytes.now (folder self.old) (folder self.new)) }
        ensures err { OnErr result (Related (OthersStay name.now) (folder self.old) (folder self.new)) };

    /// Replaces the file `to` by the file `from`, in one step.
    fn rename(&mut self, from: &str, to: &str) -> io::Result<()>
        ensures ok { OnOk result (Related (Renamed from.now to.now) (folder self.old) (folder self.new)) }
        ensures err { OnErr result (Related Unchanged (folder self.old) (folder self.new)) };

    /// Removes a file. Succeeds if it does not exist.
    fn remove(&mut self, name: &str) -> io::Result<()>
        ensures ok { OnOk result (Related (Removed name.now) (folder self.old) (folder self.new)) }
        ensures err { OnErr result (Related Unchanged (folder self.old) (folder self.new)) };

    /// Makes the names of the folder durable.
    fn sync(&mut self) -> io::Result<()>
        ensures ok { OnOk result (Related Synced (folder self.old) (folder self.new)) }
        ensures err { OnErr result (Related Unchanged (folder self.old) (folder self.new)) };
}

/// Replaces a file by one with these bytes. The new file is written to `next` first, which must be
/// another name. A crash at any time leaves the old file or the new one, after `Ok` the new one.
///
/// Errors: `Full` if the disk is full, `Unwritten` if a call failed otherwise. No further call is
/// made then.
#[tactic(auto, using(crate::proofs::Replacing::unwritten, crate::proofs::Replacing::unnamed, crate::proofs::Replacing::unsynced, crate::proofs::Replacing::replaced, crate::proofs::Replacing::replaced_always))]
pub fn replace<F: NamedFiles>(
    files: &mut F,
    next: &str,
    name: &str,
    bytes: &[u8],
) -> Result<(), FolderError>
    ensures ok { ¬ name.now ≡ next.now → OnOk result (Leads (IsReplaced name.now bytes.now) (F.folder files.old) (F.folder files.new)) }
    ensures at_any_time { ¬ name.now ≡ next.now → Throughout (IsOldOrNew next.now name.now bytes.now) (F.folder files.old) (F.folder files.new) }
    ensures why { IfErr result IsNotWritten }
{
    written(files.write_new(next, bytes))?;
    written(files.rename(next, name))?;
    written(files.sync())
}

// Makes an empty file, whose name is durable afterwards.
#[tactic(auto, using(crate::proofs::Replacing::not_made, crate::proofs::Replacing::not_synced, crate::proofs::Replacing::made, crate::proofs::Replacing::made_always))]
fn make_empty<F: NamedFiles>(files: &mut F, name: &str) -> Result<(), FolderError>
    ensures ok { OnOk result (Leads (IsReplaced name.now []) (F.folder files.old) (F.folder files.new)) }
    ensures at_any_time { Throughout (OthersAreKept name.now) (F.folder files.old) (F.folder files.new) }
    ensures why { IfErr result IsNotWritten }
{
    written(files.write_new(name, &[]))?;
    written(files.sync())
}

/// Replaces a file that names a journal, and continues in another journal: makes the empty journal
/// `second`, replaces the file, and then removes the journal `first`. The four names must differ.
///
/// A crash at any time leaves the old file and the old journal, or the new file and the new
/// journal.
///
/// Errors: `Full` if the disk is full, `Unwritten` if a call failed otherwise. No further call is
/// made then.
#[tactic(auto, using(crate::proofs::Switching::not_begun, crate::proofs::Switching::not_replaced, crate::proofs::Switching::switched_always, crate::proofs::Switching::switched, crate::proofs::Replacing::removed_kept, crate::proofs::Replacing::unchanged_kept))]
pub fn switch<F: NamedFiles>(
    files: &mut F,
    next: &str,
    name: &str,
    bytes: &[u8],
    first: &str,
    second: &str,
) -> Result<(), FolderError>
    ensures ok { AreApart next.now name.now first.now second.now → OnOk result
        (Leads (IsSwitched name.now bytes.now first.now second.now) (F.folder files.old) (F.folder files.new)) }
    ensures at_any_time { AreApart next.now name.now first.now second.now →
        Throughout (IsEitherPair name.now bytes.now first.now second.now) (F.folder files.old) (F.folder files.new) }
    ensures why { IfErr result IsNotWritten }
{
    make_empty(files, second)?;
    replace(files, next, name, bytes)?;
    written(files.remove(first))
}
