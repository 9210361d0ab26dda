//! Steps of one worker, on a journal of at most one entry.

ghost use Rattle.std.specs.Prelude.{◌≡◌};

use crate::line::config;
use bytes::Bytes;
use mq_book::{Book, BookRefusal, Journal, Receipt, Share};
use mq_hub::{Conn, Hub, HubEvent};
use std::alloc::Global;
use std::marker::Brand;
use std::process::Abort;
use std::sync::Wait;
use std::sync::ledger::{Blank, Ledger};
use std::test::Fail;

/// An event of a book.
#[derive(Clone, Copy, Debug)]
pub(crate) enum Happens {
    /// A connection with this number is opened.
    Opens(u32),
    /// Bytes arrive on a connection.
    Says(u32),
    /// The time.
    Ticks(u64),
    /// The journal is handed out.
    Seals,
}

// A full journal refuses each step that the broker doesn't refuse. The next journal continues at
// the next place.
const ROWS: [(Happens, &str); 9] = [
    (Happens::Says(9), "the connection is not known"),
    (Happens::Opens(0), "place 0"),
    (Happens::Ticks(5), "the journal is full"),
    (Happens::Says(9), "the connection is not known"),
    (Happens::Opens(0), "a connection of that name is known"),
    (Happens::Seals, "1 from 0"),
    (Happens::Ticks(5), "place 1"),
    (Happens::Ticks(6), "the journal is full"),
    (Happens::Seals, "1 from 1"),
];

/// A new broker.
pub(crate) fn hub(alloc: Global) -> Result<Hub, Fail> {
    Ok(Hub::new(alloc, config()?))
}

fn event(happens: Happens) -> Option<HubEvent> {
    match happens {
        Happens::Opens(nth) => Some(HubEvent::Opened(Conn { worker: 0, nth })),
        Happens::Says(nth) => Some(HubEvent::Bytes(Conn { worker: 0, nth }, Bytes::new())),
        Happens::Ticks(now) => Some(HubEvent::Tick(now)),
        Happens::Seals => None,
    }
}

// The place of the entry of a step, or the reason of its refusal.
fn step<L: Ledger, R: Wait>(
    rt: &R,
    book: &mut Book<L>,
    share: &mut Share<L>,
    event: HubEvent,
) -> Result<u64, BookRefusal> {
    match book.step(rt, share, event) {
        Ok(Receipt { place, .. }) => Ok(place),
        Err((why, _)) => Err(why),
    }
}

// The number of entries of a journal, and the place of the first one.
fn counted(alloc: Global, journal: &Journal) -> Result<String, Fail> {
    let count = journal.entries().len();
    Ok(format!(in alloc; "{count} from {}", journal.first())?)
}

// The text of a book's answer to an event.
fn answer<L: Ledger, R: Wait>(
    rt: &R,
    alloc: Global,
    book: &mut Book<L>,
    share: &mut Share<L>,
    happens: Happens,
) -> Result<String, Fail> {
    let Some(event) = event(happens) else {
        return counted(alloc, &book.checkpoint());
    };
    match step(rt, book, share, event) {
        Ok(place) => Ok(format!(in alloc; "place {place}")?),
        Err(why) => Ok(format!(in alloc; "{why}")?),
    }
}

// Compares the answers of a book with the rows.
fn walk_by<L: Ledger, R: Wait + Abort>(
    rt: &R,
    alloc: Global,
    book: &mut Book<L>,
    share: &mut Share<L>,
) -> Result<(), Fail> {
    for (happens, wanted) in &ROWS {
        let text = answer(rt, alloc, book, share, *happens)?;
        assert_eq!(rt; text.as_str(), *wanted, "{:?}", happens);
    }
    Ok(())
}

fn walk<L: Ledger, R: Wait + Abort>(rt: &R, alloc: Global, blank: Blank) -> Result<(), Fail>
    requires name { blank.name ≡ L.name }
    requires parts { blank.parts ≡ L.parts }
    requires one { blank.parts ≡ 1 }
{
    let (steps, part) = blank.open::<L>();
    let mut book = Book::new(alloc, hub(alloc)?, 1, steps);
    let mut share = Share::new(0, part);
    walk_by(rt, alloc, &mut book, &mut share)
}

#[test]
fn steps(rt: HostRuntime) -> Result<(), Fail> {
    walk::<Brand, _>(&rt, rt.alloc(), Blank::new(1))
}
