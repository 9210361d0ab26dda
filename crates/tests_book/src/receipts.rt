//! Receipts that are in a journal, and others.

ghost use Rattle.std.specs.Prelude.{◌≡◌};

use crate::steps::hub;
use bytes::Bytes;
use mq_book::{Book, Journal, Receipt, Share, SharedReply, audit};
use mq_end::BoxedList;
use mq_hub::{Conn, HubEvent, HubReply};
use std::alloc::Global;
use std::marker::Brand;
use std::process::Abort;
use std::sync::Wait;
use std::sync::ledger::{Blank, Ledger};
use std::test::Fail;

// A receipt: its worker, its place, and whether the connection is open after the step.
type Row = (u16, u64, bool);

// Lists of receipts, and whether they are in a journal with one entry: at place 0, worker 7 opened
// a connection.
const ROWS: [(&[Row], bool); 7] = [
    (&[], true),
    (&[(7, 0, true)], true),
    (&[(7, 1, true)], false),
    (&[(7, 0, true), (7, 0, true)], false),
    (&[(7, 0, true), (7, 1, true)], false),
    (&[(8, 0, true)], false),
    (&[(7, 0, false)], false),
];

fn receipt(alloc: Global, row: Row) -> Result<Receipt, Fail> {
    let (worker, place, alive) = row;
    let reply = HubReply {
        acts: BoxedList::from_vec(Vec::new(alloc)),
        output: Bytes::new(),
        alive,
    };
    Ok(Receipt {
        worker,
        place,
        reply: SharedReply::new(alloc, reply)?,
    })
}

fn receipts(alloc: Global, rows: &[Row]) -> Result<Vec<Receipt>, Fail> {
    let mut receipts = Vec::new(alloc);
    for row in rows {
        receipts.push(receipt(alloc, *row)?)?;
    }
    Ok(receipts)
}

// The journal of a book after one step, and the receipt of the step.
fn sealed<L: Ledger, R: Wait>(
    rt: &R,
    book: &mut Book<L>,
    share: &mut Share<L>,
) -> Result<(Journal, Receipt), Fail> {
    let event = HubEvent::Opened(Conn { worker: 7, nth: 0 });
    match book.step(rt, share, event) {
        Ok(receipt) => Ok((book.checkpoint(), receipt)),
        Err(_) => Err("no step".into()),
    }
}

// A journal of one entry, and the receipt of its step.
fn journal<L: Ledger, R: Wait>(
    rt: &R,
    alloc: Global,
    blank: Blank,
) -> Result<(Journal, Receipt), Fail>
    requires name { blank.name ≡ L.name }
    requires parts { blank.parts ≡ L.parts }
    requires one { blank.parts ≡ 1 }
{
    let (steps, part) = blank.open::<L>();
    let mut book = Book::new(alloc, hub(alloc)?, 1, steps);
    let mut share = Share::new(7, part);
    sealed(rt, &mut book, &mut share)
}

// Compares each row with a journal.
fn walk_rows(rt: &impl Abort, alloc: Global, journal: &Journal) -> Result<(), Fail> {
    for (rows, wanted) in &ROWS {
        let receipts = receipts(alloc, rows)?;
        let is_in = audit(journal, receipts.as_slice());
        assert_eq!(rt; is_in, *wanted, "{:?}", rows);
    }
    Ok(())
}

// The same, after the journal's own receipts.
fn walk_by(
    rt: &impl Abort,
    alloc: Global,
    journal: &Journal,
    owns: &[Receipt],
) -> Result<(), Fail> {
    assert!(rt; audit(journal, owns), "its own receipt");
    walk_rows(rt, alloc, journal)
}

fn walk<R: Wait + Abort>(rt: &R, alloc: Global) -> Result<(), Fail> {
    let (journal, own) = journal::<Brand, R>(rt, alloc, Blank::new(1))?;
    let owns = [own];
    walk_by(rt, alloc, &journal, &owns)
}

#[test]
fn audits(rt: HostRuntime) -> Result<(), Fail> {
    walk(&rt, rt.alloc())
}
