//! A session in a file.

ghost use Rattle.std.specs.Prelude.{◌≡◌, ◌++◌, true, codes, OnErr, OnOk};
ghost use Rattle.mq_client.specs.Prelude.{Replaced, Unchanged, history_of, stands_of, marked_form};

use crate::client::lost_form;
use crate::disk::Disk;
use crate::saver::{SaveError, Store};
use std::alloc::Global;
use std::io;
use std::marker::Model;

/// The file of a session.
///
/// Its bytes are written to a draft, a file of the same name with `.new` behind it, which is synced
/// and then renamed. So a crash at any time leaves the old session or the new one, never a part.
/// Bytes that were written last are not written again.
#[derive(Drop)]
pub struct SessionFile<'a, D: Disk> {
    alloc: Global,
    disk: D,
    name: &'a str,
    last: Option<Vec<u8>>,
}

impl<'a, D: Disk> Model for SessionFile<'a, D> {
    ghost use Rattle.std.specs.Prelude.{List, Option, IfSome};
    ghost use Rattle.mq_client.specs.Disk.{FileState, IsLast, history_of};

    ghost Value = { Option (List FileState) };

    ghost view = { λ f. history_of (D.history f.disk) f.name.now };

    ghost invariant = { λ f. IfSome f.last (λ form. IsLast (history_of (D.history f.disk) f.name.now) form.items) };
}

impl<'a, D: Disk> SessionFile<'a, D> {
    /// The file of this name.
    pub fn new(alloc: Global, disk: D, name: &'a str) -> SessionFile<'a, D>
        ensures { result ≡ history_of (D.history disk) name.now }
    {
        SessionFile {
            alloc,
            disk,
            name,
            last: None,
        }
    }

    // Whether these bytes were written last.
    fn has(&self, form: &[u8]) -> bool
        ensures { result ≡ true → Replaced self.now self.now form.now }
    {
        match &self.last {
            Some(last) => last.as_slice() == form,
            None => false,
        }
    }

    /// Marks the session in the file, which has this saved form, as lost at the server. After an
    /// error the file is unchanged.
    pub fn mark_lost(&mut self, form: &[u8]) -> Result<(), SaveError>
        ensures ok { OnOk result (Replaced self.old self.new (marked_form true form.now)) }
        ensures err { OnErr result (Unchanged self.old self.new) }
    {
        self.last = None;
        let Ok(marked) = lost_form(self.alloc, form) else {
            return Err(SaveError::Memory);
        };
        put(self.alloc, &mut self.disk, self.name, marked.as_slice())
    }

    /// Replaces the session in the file. After an error the old one is still there.
    #[tactic(auto, using(crate::proofs::Files::last_unchanged, crate::proofs::Files::last_replaced, crate::proofs::Files::unchanged_none))]
    pub fn save(&mut self, form: Vec<u8>) -> Result<(), SaveError>
        ensures ok { OnOk result (Replaced self.old self.new form.items) }
        ensures err { OnErr result (Unchanged self.old self.new) }
    {
        if self.has(form.as_slice()) {
            return Ok(());
        }
        put(self.alloc, &mut self.disk, self.name, form.as_slice())?;
        self.last = Some(form);
        Ok(())
    }
}

impl<D: Disk> Store for SessionFile<'_, D> {
    ghost stands = { λ f. stands_of f };

    #[tactic(auto, using(crate::proofs::Files::holds_replaced, crate::proofs::Files::holds_unchanged))]
    fn replace(&mut self, form: Vec<u8>) -> Result<(), SaveError> {
        self.save(form)
    }
}

// Writes a draft, syncs it and renames it.
fn replace_by<D: Disk>(disk: &mut D, draft: &str, name: &str, form: &[u8]) -> io::Result<()>
    requires { draft.now ≡ name.now ++ codes ".new" }
    ensures ok { OnOk result (Replaced (history_of (D.history disk.old) name.now)
        (history_of (D.history disk.new) name.now) form.now) }
    ensures err { OnErr result (Unchanged (history_of (D.history disk.old) name.now)
        (history_of (D.history disk.new) name.now)) }
{
    disk.write(draft, name, form)?;
    disk.sync(draft)?;
    disk.rename(draft, name)
}

// Replaces a file by way of a draft. A draft that could not take its place is removed.
fn put<D: Disk>(alloc: Global, disk: &mut D, name: &str, form: &[u8]) -> Result<(), SaveError>
    ensures ok { OnOk result (Replaced (history_of (D.history disk.old) name.now)
        (history_of (D.history disk.new) name.now) form.now) }
    ensures err { OnErr result (Unchanged (history_of (D.history disk.old) name.now)
        (history_of (D.history disk.new) name.now)) }
{
    let Ok(draft) = format!(in alloc; "{name}.new") else {
        return Err(SaveError::Memory);
    };
    let draft = draft.as_str();
    match replace_by(disk, draft, name, form) {
        Ok(()) => Ok(()),
        Err(error) => {
            let _ = disk.remove(draft);
            Err(SaveError::Unwritten(error.kind()))
        }
    }
}
