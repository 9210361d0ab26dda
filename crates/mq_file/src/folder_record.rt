//! A record of calls on a folder that only clauses read.

ghost use Rattle.std.specs.Prelude.{◌≡◌, List, []};
ghost use Rattle.std.specs.Borrow.{ftrue};
ghost use Rattle.mq_file.specs.FolderHistory.{FolderCall};

use std::marker::{Model, PhantomData};

/// The calls on a folder, newest first. It has no bytes.
#[derive(Drop)]
pub struct FolderRecord {
    marker: PhantomData<u8>,
    pub ghost calls: { List FolderCall },
}

impl Model for FolderRecord {
    ghost also_owns = { λ _. ftrue };
}

impl FolderRecord {
    ghost use Rattle.mq_file.specs.Prelude.{IsNoted};

    /// A record without calls.
    pub(crate) fn new() -> FolderRecord
        ensures { result.calls ≡ [] }
    {
        FolderRecord {
            marker: PhantomData,
        }
    }

    /// Notes a call, as `folder_call` describes it.
    pub(crate) fn note(&mut self, _numbers: &[u64], _name: &[u8], _bytes: &[u8])
        ensures { IsNoted _numbers.now _name.now _bytes.now self.old.calls self.new.calls }
    {}
}
