//! Compares receipts with a journal.

ghost use Rattle.std.specs.Prelude.{◌≡◌, ◌≤◌, ◌↔◌, IsTrue};
ghost use Rattle.mq_book.specs.Prelude.{Stand, StandsAt};

use crate::entry::{Entry, Receipt};
use crate::journal::Journal;
use crate::reply_equality::are_same_replies;

/// Returns whether a journal has an entry for each receipt, with the same worker and reply.
///
/// The receipts must be in order: each one's place is greater than the one before.
pub fn audit(journal: &Journal, receipts: &[Receipt]) -> bool
    ensures { IsTrue result ↔ Stand journal.now.first journal.now.entries 0 receipts.now }
{
    let entries = journal.entries();
    let first = journal.first();
    let mut from = 0u64;
    let mut rest = receipts;
    while let [receipt, more @ ..] = rest {
        if receipt.place < from || !stands(entries, first, receipt) {
            return false;
        }
        let Some(next) = receipt.place.checked_add(1) else {
            // There is no greater place.
            return match more {
                [] => true,
                [later, ..] => receipt.place < later.place,
            };
        };
        from = next;
        rest = more;
    }
    true
}

// Whether the entry at the receipt's place has the same worker and reply.
fn stands(entries: &[Entry], first: u64, receipt: &Receipt) -> bool
    ensures { IsTrue result ↔ StandsAt first entries.now receipt.now }
{
    if receipt.place < first {
        return false;
    }
    match entries.get((receipt.place - first) as usize) {
        Some(entry) => {
            entry.worker == receipt.worker
                && are_same_replies(entry.reply.as_reply(), receipt.reply.as_reply())
        }
        None => false,
    }
}
