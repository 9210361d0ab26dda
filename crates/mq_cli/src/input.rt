//! The input of jobs.

ghost use Rattle.std.specs.Prelude.{◌≡◌, ℕ, List, Option, Bool, true, false, Some, [], OnErr};
ghost use Rattle.mq_cli.specs.Prelude.{ReadsAtMost, ReadConsumes};

use std::io;
use std::io::{Empty, Read};

/// The bytes that a job reads. Contracts know of it whether a read of them may fail, which they
/// don't know of a reader.
pub trait JobInput {
    // The bytes that further reads return, if they are known.
    ghost remaining: { Self → Option (List ℕ) };

    // Whether a read may fail.
    ghost may_fail: { Self → Bool };

    /// Reads some of the next bytes; none only at the end or without room.
    fn read_into(&mut self, room: &mut [u8]) -> io::Result<usize>
        ensures bound { ReadsAtMost result room.new }
        ensures bytes { ReadConsumes (remaining self.old) (remaining self.new) result room.new }
        ensures error { OnErr result (may_fail self.old ≡ true) }
        ensures stays { may_fail self.new ≡ may_fail self.old };
}

impl JobInput for &[u8] {
    ghost remaining = { λ bytes. Some bytes.now };

    ghost may_fail = { λ _. false };

    fn read_into(&mut self, room: &mut [u8]) -> io::Result<usize> {
        self.read(room)
    }
}

impl JobInput for Empty {
    ghost remaining = { λ _. Some [] };

    ghost may_fail = { λ _. false };

    fn read_into(&mut self, room: &mut [u8]) -> io::Result<usize> {
        self.read(room)
    }
}

/// A reader of which reads may fail, as of a file.
#[derive(Debug, Drop)]
pub struct Fallible<R>(pub R);

impl<R: Read> JobInput for Fallible<R> {
    ghost remaining = { λ input. R.remaining input.0 };

    ghost may_fail = { λ _. true };

    fn read_into(&mut self, room: &mut [u8]) -> io::Result<usize> {
        self.0.read(room)
    }
}
