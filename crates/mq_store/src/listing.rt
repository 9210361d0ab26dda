//! Printing a journal.

ghost use Rattle.std.specs.Prelude.{◌≡◌, ◌≢◌, ◌↔◌, IfOk, IsTrue};
ghost use Rattle.mq_store.specs.Prelude.{gate, rest, tail_of, AreReadable, events_in, IsEntry, MayBeLeft, may_end};

use mq_log::{Tail, read_journal};
use mq_record::{RecordFault, decode_events, record_laws};
use mq_route::{Conn, HubEvent};
use std::alloc::Global;
use std::io;
use std::io::Write;

// Prints a connection.
fn write_conn<W: Write>(output: &mut W, name: &str, conn: Conn) -> io::Result<()> {
    let (worker, nth) = (conn.worker, conn.nth);
    writeln!(output, "{name} {worker}.{nth}")
}

// Prints an event.
fn write_event<W: Write>(output: &mut W, event: &HubEvent) -> io::Result<()> {
    match event {
        HubEvent::Opened(conn) => write_conn(output, "opened", *conn),
        HubEvent::Bytes(conn, piece) => {
            let (worker, nth, count) = (conn.worker, conn.nth, piece.len());
            write!(output, "bytes {worker}.{nth} {count} ")?;
            for byte in piece.as_slice() {
                write!(output, "{byte:02x}")?;
            }
            writeln!(output, "")
        }
        HubEvent::Ended(conn) => write_conn(output, "ended", *conn),
        HubEvent::Tick(now) => writeln!(output, "tick {now}"),
        HubEvent::Collect(conn) => write_conn(output, "collect", *conn),
    }
}

// Prints an entry. Returns whether it is readable.
#[tactic(auto, using(crate::proofs::Lasting::readable, crate::proofs::Lasting::unreadable))]
fn write_entry<W: Write>(
    alloc: Global,
    output: &mut W,
    nth: usize,
    entry: &[u8],
) -> io::Result<bool>
    ensures { IfOk result (λ is. IsTrue is ↔ IsEntry (events_in entry.now) entry.now) }
{
    record_laws();
    let events = match decode_events(alloc, entry) {
        Ok(events) => events,
        Err(RecordFault::Memory) => return Err(io::Error::from(io::ErrorKind::OutOfMemory)),
        Err(fault) => {
            writeln!(output, "entry {nth} is not readable: {fault}")?;
            return Ok(false);
        }
    };
    let (count, size) = (events.len(), entry.len());
    writeln!(output, "entry {nth}: {count} events, {size} bytes")?;
    for event in events.as_slice() {
        write_event(output, event)?;
    }
    Ok(true)
}

// Prints entries. Returns whether each is readable.
#[tactic(auto, using(crate::proofs::Lasting::more_readable, crate::proofs::Lasting::all_readable))]
fn write_entries<W: Write>(alloc: Global, output: &mut W, entries: &[Vec<u8>]) -> io::Result<bool>
    ensures { IfOk result (λ are. IsTrue are ↔ AreReadable entries.now) }
{
    let mut are_readable = true;
    let mut nth = 0usize;
    let mut rest = entries;
    while let [entry, more @ ..] = rest {
        nth = nth.saturating_add(1);
        let is_readable = write_entry(alloc, output, nth, entry.as_slice())?;
        are_readable = are_readable && is_readable;
        rest = more;
    }
    Ok(are_readable)
}

// Whether a crash may leave a file that ends so.
fn may_end(tail: Tail) -> bool
    ensures { result ≡ may_end tail }
{
    match tail {
        Tail::Closed | Tail::Torn => true,
        Tail::CutShort | Tail::Damaged => false,
    }
}

// Prints how a file ends.
fn write_tail<W: Write>(output: &mut W, tail: Tail, end: usize) -> io::Result<()> {
    match tail {
        Tail::Closed => writeln!(output, "closed at {end}"),
        Tail::Torn => writeln!(output, "torn at {end}"),
        Tail::CutShort => writeln!(output, "cut short at {end}"),
        Tail::Damaged => writeln!(output, "damaged at {end}"),
    }
}

/// Prints the entries of a journal, one line per event, and how the file ends. Returns whether a
/// crash may leave the file.
#[tactic(auto, using(crate::proofs::Lasting::may_be_left))]
pub fn list_journal<W: Write>(alloc: Global, bytes: &[u8], output: &mut W) -> io::Result<bool>
    ensures { IfOk result (λ may. IsTrue may ↔ MayBeLeft bytes.now) }
{
    let contents = read_journal(alloc, bytes)?;
    let are_readable = write_entries(alloc, output, contents.entries.as_slice())?;
    write_tail(output, contents.tail, contents.end)?;
    Ok(are_readable && may_end(contents.tail))
}
