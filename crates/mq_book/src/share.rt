//! Shares: a worker's number, and its part of the count of all steps.

ghost use Rattle.std.specs.Prelude.{◌≡◌};

use std::marker::Model;
use std::sync::ledger;
use std::sync::ledger::Ledger;

/// A worker's number, and the number of steps that it made.
///
/// The counts of all shares add up to the number of entries of the book; see
/// [`gather`](crate::gather).
#[derive(Drop)]
pub struct Share<L: Ledger> {
    pub(crate) worker: u16,
    pub(crate) part: ledger::Share<L>,
}

impl<L: Ledger> Model for Share<L> {
    ghost use Rattle.std.specs.Prelude.{◌≡◌};
    ghost use Rattle.mq_book.specs.Pages.{WorkerView};

    ghost Value = { WorkerView };

    ghost view = { λ s. record { worker = s.worker; count = s.part.amount } };

    ghost invariant = { λ s. s.part.parts ≡ 1 };
}

impl<L: Ledger> Share<L> {
    /// The share of a worker. `part` is one part of the book's count.
    pub fn new(worker: u16, part: ledger::Share<L>) -> Share<L>
        requires { part.parts ≡ 1 }
        ensures { result ≡ record { worker = worker; count = part.amount } }
    {
        Share { worker, part }
    }

    /// The worker's number.
    pub fn worker(&self) -> u16
        ensures { result ≡ self.now.worker }
    {
        self.worker
    }

    pub(crate) fn into_part(self) -> ledger::Share<L>
        ensures parts { result.parts ≡ 1 }
        ensures amount { result.amount ≡ self.count }
    {
        self.part
    }
}
