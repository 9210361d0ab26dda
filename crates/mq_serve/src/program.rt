//! The program `serve`.

ghost use Rattle.std.specs.Prelude.{◌≡◌, ◌<◌, ◌≤◌, IfOk, MatchResult, OnOk, Some};
ghost use Rattle.mq_serve.specs.Prelude.{Appends, Prints, HubState, IsReported, end_status, AreSessions, IsEarly, IsServeRun, ServeEnds, end_line, end_lines};

use crate::acceptor::Acceptor;
use crate::lines::{write_end, write_served};
use crate::serve_end::ServeEnd;
use crate::server::{Retention, Server};
use crate::workers::run_all;
use mq_wire::Text;
use std::alloc::Global;
use std::io;
use std::io::Write;
use std::marker::Brand;
use std::net::{Ipv4Addr, Net, TcpListener, TcpStream};
use std::sync::Wait;
use std::sync::ledger::{Blank, Ledger};
use std::thread::Threads;
use std::time::{Clock, Instant};

/// The maximum number of entries of the journal. A full journal is dropped.
const JOURNAL: usize = 10_000;

/// Options of `serve`.
#[derive(Clone, Copy, Debug)]
pub struct ServeOptions {
    /// The number of connections to serve.
    pub connections: u32,
    /// The number of workers that run concurrently, 1 to 64.
    pub workers: u16,
}

// Serves the connections of a listener. Returns the client identifiers of the remaining sessions.
#[tactic(auto, using(crate::proofs::Sends::server_sync))]
fn serve_by<L: Ledger + Send + Sync + 'static, R>(
    rt: &R,
    alloc: Global,
    blank: Blank,
    listener: TcpListener,
    options: ServeOptions,
) -> Result<Vec<Text>, ServeEnd>
where
    R: Net + Threads + Wait + Clock + Sync,
    requires name { blank.name ≡ L.name }
    requires parts { blank.parts ≡ L.parts }
    requires each { blank.parts ≡ options.workers }
    requires some { (0 < options.workers) × (options.workers ≤ 64) }
    ensures { IfOk result (λ names. (hub : HubState) × AreSessions hub names.items) }
{
    let start = match Instant::now(rt) {
        Ok(start) => start,
        Err(error) => return Err(ServeEnd::Net(error.kind())),
    };
    let acceptor = Acceptor::new(listener, options.connections);
    let (server, starts) = Server::<L>::open(
        rt,
        alloc,
        blank,
        options.workers,
        acceptor,
        start,
        Retention::Passing(JOURNAL),
    )?;
    let results = match run_all(rt, &server, starts) {
        Ok(results) => results,
        Err(why) => {
            drop(server);
            return Err(why.into());
        }
    };
    let finished = server.close(results)?;
    let names = finished.book.hub().sessions();
    drop(finished);
    Ok(names?)
}

// The same, with a new count of steps.
fn serve_all<R>(
    rt: &R,
    alloc: Global,
    listener: TcpListener,
    options: ServeOptions,
) -> Result<Vec<Text>, ServeEnd>
where
    R: Net + Threads + Wait + Clock + Sync,
    requires { (0 < options.workers) × (options.workers ≤ 64) }
    ensures { IfOk result (λ names. (hub : HubState) × AreSessions hub names.items) }
{
    let blank = Blank::new(u64::from(options.workers));
    serve_by::<Brand, R>(rt, alloc, blank, listener, options)
}

// Writes the reason for an early end, which `end` gets too. Returns the status of the program.
#[tactic(auto, using(crate::proofs::Reports::early))]
fn end_early<W: Write>(end: &mut Option<ServeEnd>, output: &mut W, why: ServeEnd) -> io::Result<u8>
    ensures reported { end.new ≡ Some why }
    ensures status { IfOk result (λ status. status ≡ end_status why) }
    ensures printed { OnOk result
        (Appends (W.contents output.old) (W.contents output.new) (end_line why)) }
    ensures whole { IfOk result (λ status. IsReported status end.old end.new) }
{
    *end = Some(why);
    let status = write_end(output, why)?;
    Ok(status)
}

// Prints the end of a broker: the remaining sessions and the number of connections, or the reason
// for an early end, which `end` gets too. Returns the status of the program.
#[tactic(auto, using(crate::proofs::Reports::served_lines, crate::proofs::Reports::early_lines))]
fn report<W: Write>(
    served: Result<Vec<Text>, ServeEnd>,
    connections: u32,
    end: &mut Option<ServeEnd>,
    output: &mut W,
) -> io::Result<u8>
    ensures { IfOk result (λ status. Prints (W.contents output.old) (W.contents output.new)
        (λ text. MatchResult served
        (λ names. (status ≡ 0) × (end.new ≡ end.old) × (text ≡ end_lines names.items connections))
        (λ why. IsEarly why end.new status text))) }
{
    match served {
        Ok(names) => {
            write_served(output, names.as_slice(), connections)?;
            Ok(0)
        }
        Err(why) => end_early(end, output, why),
    }
}

// Serves the connections of a listener, and prints the end. Returns the status of the program.
#[tactic(auto, using(crate::proofs::Reports::ended, crate::proofs::Reports::ended_status))]
fn serve_to_end<R, W>(
    rt: &R,
    alloc: Global,
    listener: TcpListener,
    options: ServeOptions,
    end: &mut Option<ServeEnd>,
    output: &mut W,
) -> io::Result<u8>
where
    R: Net + Threads + Wait + Clock + Sync,
    W: Write,
    requires { (0 < options.workers) × (options.workers ≤ 64) }
    ensures reported { IfOk result (λ status. IsReported status end.old end.new) }
    ensures printed { IfOk result (λ status. Prints (W.contents output.old) (W.contents output.new)
        (ServeEnds options.connections end.old end.new status)) }
{
    let served = serve_all(rt, alloc, listener, options);
    report(served, options.connections, end, output)
}

/// Serves the connections of a listener, with workers in threads.
///
/// A free worker takes the next connection. Prints the address of the listener; after all
/// connections were served, the remaining sessions and the number of connections; or the reason of
/// an early end, which `end` gets too. Returns the status of the program. `Err` means that the
/// output failed.
#[tactic(auto, using(crate::proofs::Reports::heard, crate::proofs::Reports::unheard))]
pub fn serve_on<R, W>(
    rt: &R,
    alloc: Global,
    listener: TcpListener,
    options: ServeOptions,
    end: &mut Option<ServeEnd>,
    output: &mut W,
) -> io::Result<u8>
where
    R: Net + Threads + Wait + Clock + Sync,
    W: Write,
    requires { (0 < options.workers) × (options.workers ≤ 64) }
    ensures reported { IfOk result (λ status. IsReported status end.old end.new) }
    ensures printed { IfOk result (λ status. Prints (W.contents output.old) (W.contents output.new)
        (IsServeRun options.connections end.old end.new status)) }
{
    let address = match listener.local_addr() {
        Ok(address) => address,
        Err(error) => return end_early(end, output, ServeEnd::Listen(error.kind())),
    };
    writeln!(output, "listening {address}")?;
    output.flush()?;
    serve_to_end(rt, alloc, listener, options, end, output)
}

/// Listens on this port of 127.0.0.1, and serves its connections as [`serve_on`] does.
///
/// Port 0 means any free port.
#[tactic(auto, using(crate::proofs::Reports::unheard))]
pub fn serve<R, W>(
    rt: &R,
    alloc: Global,
    port: u16,
    options: ServeOptions,
    end: &mut Option<ServeEnd>,
    output: &mut W,
) -> io::Result<u8>
where
    R: Net<Listener = TcpListener, Stream = TcpStream> + Threads + Wait + Clock + Sync,
    W: Write,
    requires { (0 < options.workers) × (options.workers ≤ 64) }
    ensures reported { IfOk result (λ status. IsReported status end.old end.new) }
    ensures printed { IfOk result (λ status. Prints (W.contents output.old) (W.contents output.new)
        (IsServeRun options.connections end.old end.new status)) }
{
    match TcpListener::bind(rt, (Ipv4Addr::LOCALHOST, port)) {
        Ok(listener) => serve_on(rt, alloc, listener, options, end, output),
        Err(error) => end_early(end, output, ServeEnd::Listen(error.kind())),
    }
}
