//! A client to which one of the writes fails, and another client after it.

ghost use Rattle.std.specs.Prelude.{◌≡◌};

use crate::line::{Line, Still, config};
use mq_book::{
    AuditedWorker, NoObserver, OnFull, Receipt, Share, SharedHub, audit, serve_connection,
};
use mq_hub::Conn;
use std::alloc::{AllocError, Global};
use std::marker::Brand;
use std::process::Abort;
use std::sync::Wait;
use std::sync::ledger::{Blank, Ledger};
use std::test::Fail;

// A client that subscribes to all topics. Its session is not clean.
const STAYS: [&[u8]; 2] = [
    b"\x10\x0d\x00\x04MQTT\x04\x00\x00\x00\x00\x01o",
    b"\x82\x06\x00\x01\x00\x01#\x01",
];

// The same client, when it connects again.
const RETURNS: [&[u8]; 1] = [b"\x10\x0d\x00\x04MQTT\x04\x00\x00\x00\x00\x01o"];

// A client with a will, which sends PUBLISH and PINGREQ.
const LEAVES: [&[u8]; 3] = [
    b"\x10\x13\x00\x04MQTT\x04\x0e\x00\x00\x00\x01g\x00\x01w\x00\x01x",
    b"\x32\x06\x00\x01t\x00\x07x",
    b"\xc0\x00",
];

// The number of writes to the second client that succeed. Then the number of entries of the
// journal, the bytes that were written to the second client, and those that were written to the
// first one when it connects again: its session, the message if it arrived, and the will.
const ROWS: [(u32, &str); 4] = [
    (0, "17  200201003206000177000178"),
    (1, "19 20020000 2002010032060001740001783206000177000278"),
    (
        2,
        "21 2002000040020007 2002010032060001740001783206000177000278",
    ),
    (
        3,
        "21 2002000040020007d000 2002010032060001740001783206000177000278",
    ),
];

// Serves a connection to its end, and appends the bytes that were written.
fn serve<L: Ledger, R: Wait>(
    worker: &mut AuditedWorker<'_, L, R, NoObserver>,
    alloc: Global,
    nth: u32,
    pieces: &'static [&'static [u8]],
    writes: u32,
    text: &mut String,
) -> Result<(), Fail> {
    let mut line = Line {
        pieces,
        writes,
        written: Vec::new(alloc),
    };
    let mut buffer = vec![in alloc; 0u8; 64]?;
    let conn = Conn { worker: 0, nth };
    match serve_connection(
        worker,
        alloc,
        conn,
        &mut line,
        &mut Still,
        buffer.as_mut_slice(),
    ) {
        Ok(()) => Ok(add_digits(text, line.written.as_slice())?),
        Err(_) => Err("the worker stopped".into()),
    }
}

// Appends a space and the bytes as hexadecimal digits.
fn add_digits(text: &mut String, bytes: &[u8]) -> Result<(), AllocError> {
    text.push(' ')?;
    for byte in bytes {
        write!(text, "{byte:02x}")?;
    }
    Ok(())
}

// The three connections, one after another.
fn serve_all<L: Ledger, R: Wait>(
    worker: &mut AuditedWorker<'_, L, R, NoObserver>,
    alloc: Global,
    writes: u32,
    text: &mut String,
) -> Result<(), Fail> {
    serve(worker, alloc, 0, &STAYS, u32::MAX, &mut String::new(alloc))?;
    serve(worker, alloc, 1, &LEAVES, writes, text)?;
    serve(worker, alloc, 2, &RETURNS, u32::MAX, text)
}

// Compares the receipts with the journal. Returns the number of entries, and the bytes written.
fn audited<L: Ledger, R: Wait>(
    rt: &R,
    alloc: Global,
    shared: &SharedHub<L>,
    receipts: &[Receipt],
    text: &str,
) -> Result<String, Fail> {
    let journal = shared.book.lock(rt).checkpoint();
    let count = journal.entries().len();
    if count != receipts.len() || !audit(&journal, receipts) {
        return Err("the receipts are not in the journal".into());
    }
    Ok(format!(in alloc; "{count}{text}")?)
}

fn served_text_by<L: Ledger, R: Wait>(
    rt: &R,
    alloc: Global,
    shared: &SharedHub<L>,
    share: Share<L>,
    writes: u32,
) -> Result<String, Fail> {
    let mut text = String::new(alloc);
    let mut worker = AuditedWorker::new(rt, alloc, shared, share, OnFull::Stop, NoObserver);
    serve_all(&mut worker, alloc, writes, &mut text)?;
    let (_, receipts) = worker.into_parts();
    audited(rt, alloc, shared, receipts.as_slice(), text.as_str())
}

fn served_text<L: Ledger, R: Wait>(
    rt: &R,
    alloc: Global,
    blank: Blank,
    writes: u32,
) -> Result<String, Fail>
    requires name { blank.name ≡ L.name }
    requires parts { blank.parts ≡ L.parts }
    requires one { blank.parts ≡ 1 }
{
    let (shared, mut shares) = SharedHub::<L>::new(alloc, blank, 1, config()?, 1_000)?;
    match shares.pop() {
        Some(share) => served_text_by(rt, alloc, &shared, share, writes),
        None => Err("no share".into()),
    }
}

fn walk<R: Wait + Abort>(rt: &R, alloc: Global) -> Result<(), Fail> {
    for (writes, wanted) in &ROWS {
        let text = served_text::<Brand, R>(rt, alloc, Blank::new(1), *writes)?;
        assert_eq!(rt; text.as_str(), *wanted, "{} writes", writes);
    }
    Ok(())
}

#[test]
fn a_client_is_gone_at_a_write(rt: HostRuntime) -> Result<(), Fail> {
    walk(&rt, rt.alloc())
}
