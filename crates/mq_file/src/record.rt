//! A record of calls that only clauses read.

ghost use Rattle.std.specs.Prelude.{◌≡◌, List, [], ◌∷◌};
ghost use Rattle.mq_file.specs.Prelude.{ftrue, FileCall, call_of};

use std::marker::{Model, PhantomData};

/// The calls of a file, newest first. It has no bytes.
#[derive(Drop)]
pub struct Record {
    marker: PhantomData<u8>,
    pub ghost calls: { List FileCall },
}

impl Model for Record {
    ghost also_owns = { λ _. ftrue };
}

impl Record {
    /// A record without calls.
    pub(crate) fn new() -> Record
        ensures { result.calls ≡ [] }
    {
        Record {
            marker: PhantomData,
        }
    }

    /// Notes a call. The numbers are those of `call_of`.
    pub(crate) fn note(&mut self, _numbers: &[u64], _bytes: &[u8])
        ensures { self.new.calls ≡ call_of _numbers.now _bytes.now ∷ self.old.calls }
    {}
}
