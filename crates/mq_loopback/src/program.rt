//! The program `loopback`.

ghost use Rattle.std.specs.Prelude.{◌<◌, ◌≤◌, IfOk, None, length};
ghost use Rattle.mq_loopback.specs.Prelude.{Prints, Ends, IsInputRun, IsLoopback, IsNoFile, IsRunDone};

use crate::client::Client;
use crate::print::{write_bad_line, write_play_end, write_played, write_unread};
use crate::read::{ClientsFault, read_clients};
use crate::rig::{RunResult, play};
use crate::sort::all_ordered;
use crate::verdict::judge;
use mq_serve::{ServeEnd, broker_config, write_end};
use std::alloc::Global;
use std::fs::File;
use std::io;
use std::io::{ErrorKind, Read, Write};
use std::net::{Net, TcpListener, TcpStream};
use std::rt::Files;
use std::sync::Wait;
use std::thread::Threads;
use std::time::Clock;

/// Writes the result of all clients: the messages that each collector collected, sorted, and the
/// verdict on the journal and the receipts. Returns the status.
pub fn print_result<W: Write>(
    alloc: Global,
    clients: &[Client],
    played: RunResult,
    output: &mut W,
) -> io::Result<u8>
    ensures { IfOk result (λ status. Prints (W.contents output.old) (W.contents output.new)
        (Ends clients.now played status)) }
{
    let RunResult {
        collected,
        journal,
        receipts,
    } = played;
    let Ok(lists) = all_ordered(alloc, collected) else {
        return write_end(output, ServeEnd::Memory);
    };
    match judge(alloc, broker_config(), &journal, receipts.as_slice()) {
        Ok(verdict) => write_played(output, clients, lists.as_slice(), verdict),
        Err(_) => write_end(output, ServeEnd::Memory),
    }
}

// Runs a broker and these clients, and prints the result.
#[tactic(auto, using(crate::proofs::Telling::not_played, crate::proofs::Telling::run_told))]
fn run_clients<R, W>(rt: &R, alloc: Global, clients: &[Client], output: &mut W) -> io::Result<u8>
where
    R: Net<Listener = TcpListener, Stream = TcpStream> + Threads + Wait + Clock + Sync,
    W: Write,
    requires { (0 < length clients.now) × (length clients.now ≤ 64) }
    ensures { IfOk result (λ status. Prints (W.contents output.old) (W.contents output.new)
        (IsRunDone clients.now status)) }
{
    match play(rt, alloc, clients) {
        Ok(played) => print_result(alloc, clients, played, output),
        Err(end) => write_play_end(output, end),
    }
}

/// Runs a broker and the clients of a text, and prints the result. Returns the status.
pub fn run<R, W>(rt: &R, alloc: Global, text: &str, output: &mut W) -> io::Result<u8>
where
    R: Net<Listener = TcpListener, Stream = TcpStream> + Threads + Wait + Clock + Sync,
    W: Write,
    ensures { IfOk result (λ status. Prints (W.contents output.old) (W.contents output.new) (IsLoopback text.now status)) }
{
    match read_clients(alloc, text) {
        Ok(clients) => run_clients(rt, alloc, clients.as_slice(), output),
        Err(ClientsFault::Line(line)) => write_bad_line(output, line),
        Err(ClientsFault::Memory) => write_end(output, ServeEnd::Memory),
    }
}

/// The same, with the text that an input has.
#[tactic(auto, using(crate::proofs::Telling::no_file_run, crate::proofs::Telling::text_run, crate::proofs::Telling::own_text, crate::proofs::Telling::unread))]
pub fn loopback<R, I, W>(rt: &R, alloc: Global, input: &mut I, output: &mut W) -> io::Result<u8>
where
    R: Net<Listener = TcpListener, Stream = TcpStream> + Threads + Wait + Clock + Sync,
    I: Read,
    W: Write,
    ensures { IfOk result (λ status. Prints (W.contents output.old) (W.contents output.new)
        (IsInputRun (I.remaining input.old) status)) }
{
    let mut bytes = Vec::new(alloc);
    if let Err(error) = input.read_to_end(&mut bytes) {
        return write_no_file(output, &error);
    }
    match str::from_utf8(bytes.as_slice()) {
        Ok(text) => run(rt, alloc, text, output),
        Err(_) => write_unread(output),
    }
}

// Writes why a file has no text, and returns the status.
fn write_no_file<W: Write>(output: &mut W, error: &io::Error) -> io::Result<u8>
    ensures { IfOk result (λ status.
        Prints (W.contents output.old) (W.contents output.new) (IsNoFile status)) }
{
    match error.kind() {
        ErrorKind::OutOfMemory => write_end(output, ServeEnd::Memory),
        _ => write_unread(output),
    }
}

/// The same, with the text of the file of this name.
#[tactic(auto, using(crate::proofs::Telling::no_file_run))]
pub fn loopback_file<R, W>(rt: &R, alloc: Global, name: &str, output: &mut W) -> io::Result<u8>
where
    R: Net<Listener = TcpListener, Stream = TcpStream> + Files + Threads + Wait + Clock + Sync,
    W: Write,
    ensures { IfOk result (λ status. Prints (W.contents output.old) (W.contents output.new)
        (IsInputRun None status)) }
{
    match File::open(rt, name) {
        Ok(mut file) => loopback(rt, alloc, &mut file, output),
        Err(error) => write_no_file(output, &error),
    }
}
