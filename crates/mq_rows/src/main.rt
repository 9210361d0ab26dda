//! Reads lists of rows from the standard input, and prints each row whose result differs.
//!
//! A list begins with a line `new` that names its subject:
//!
//! - `values`: lengths, texts, topics, codes and errors; `packets` to encode; `bytes 64` under this
//!   limit; `stores` of subscriptions; `decoders 64`. `lenient 64` is a limit that accepts lengths
//!   with more bytes than necessary.
//! - `session`, its saved `form` or a `loaded` one, a `client` or `server` end, a `queue` of bytes.
//!
//! Each further line is a row: an act, ` = ` and its result, if it has one, and ` | ` and the state
//! afterwards, if it is shown. The state of an end is its output, which is written then. `next 3`
//! behind it is the identifier that its session assigns next.
//!
//! `at 90000` before an act is its time, 0 if it is missing; `times 20` repeats it, and the last
//! result counts; `writing 3` writes this many bytes of an end's output, and the pending rest is
//! shown. A line that begins with `#` is a comment; the last one is printed with a row that
//! differs.
//!
//! Bytes are hexadecimal digits. Dots may separate fields, `78*60` repeats its digits 60 times, and
//! `-` is no byte. `'a/b` is the text behind the quote.
//!
//! The status is 1 if a row differs or can't be read.
#![tactic(auto)]

mod arrivals;
mod brief;
mod clients;
mod decoders;
mod encoding;
mod errors;
mod fields;
mod forms;
mod limited;
mod messages;
mod packets;
mod queues;
mod readers;
mod row;
mod servers;
mod sessions;
mod stores;
mod subject;
mod taking;
mod texts;
mod topics;
mod values;
mod walk;
mod wire;
mod words;
mod wrong;

use std::io;
use std::process::ExitCode;
use walk::walk_text;

fn run(rt: &HostRuntime) -> io::Result<bool> {
    let text = io::read_to_string(rt.alloc(), rt.reader())?;
    walk_text(rt, rt.alloc(), text.as_str())
}

fn main(rt: HostRuntime) -> io::Result<ExitCode> {
    Ok(if run(&rt)? {
        ExitCode::SUCCESS
    } else {
        ExitCode::from(1)
    })
}
