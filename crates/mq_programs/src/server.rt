//! The command `serve`.

ghost use Rattle.std.specs.Prelude.{◌≡◌, ◌<◌, ◌≤◌, ◌⊎◌, Err, IfOk, IfSome};
ghost use Rattle.mq_programs.specs.Prelude.{Prints, IsServeCommand};

use mq_cli::{Failure, Serve};
use mq_serve::{ServeEnd, ServeOptions, serve, serve_on};
use std::alloc::Global;
use std::io::Write;
use std::net::{Net, TcpListener, TcpStream};
use std::sync::Wait;
use std::thread::Threads;
use std::time::Clock;

// The options of the broker. `None` unless there are 1 to 64 workers.
fn options_of(words: &Serve) -> Option<ServeOptions>
    ensures some { IfSome result (λ options. (0 < options.workers) × (options.workers ≤ 64)) }
    ensures same { IfSome result (λ options. (options.workers ≡ words.now.workers)
        × (options.connections ≡ words.now.connections)) }
{
    let workers = u16::from(words.workers);
    if workers == 0 || workers > 64 {
        return None;
    }
    Some(ServeOptions {
        connections: words.connections,
        workers,
    })
}

// Says why the broker ended early. Nothing is reported if the output is not writable.
fn explain_end<E: Write>(errors: &mut E, port: u16, end: Option<ServeEnd>) {
    let _ = match end {
        Some(ServeEnd::Listen(kind)) => {
            writeln!(errors, "mqtt: cannot listen on 127.0.0.1:{port}: {kind}")
        }
        Some(end) => writeln!(errors, "mqtt: the broker ended early: {end}"),
        None => Ok(()),
    };
}

/// Runs the broker at the port of the arguments. Flushes its line as soon as it listens. `errors`
/// gets a line that says why it ended early.
///
/// Error: `Words` unless there are 1 to 64 workers.
#[tactic(auto, using(crate::proofs::Servings::no_workers, crate::proofs::Servings::ran))]
pub fn run_serve<R, E, W>(
    rt: &R,
    alloc: Global,
    words: &Serve,
    errors: &mut E,
    output: &mut W,
) -> Result<u8, Failure>
where
    R: Net<Listener = TcpListener, Stream = TcpStream> + Threads + Wait + Clock + Sync,
    E: Write,
    W: Write,
    ensures words { (words.now.workers ≡ 0) ⊎ (64 < words.now.workers)
        → result ≡ Err Failure.Words }
    ensures printed { IfOk result (λ status. Prints (W.contents output.old) (W.contents output.new)
        (IsServeCommand words.now status)) }
{
    let Some(options) = options_of(words) else {
        return Err(Failure::Words);
    };
    let mut end = None;
    let status = serve(rt, alloc, words.port, options, &mut end, output);
    explain_end(errors, words.port, end);
    Ok(status?)
}

/// Runs the broker on a listener that exists already. Ignores the port of the arguments.
///
/// Error: `Words` unless there are 1 to 64 workers.
#[tactic(auto, using(crate::proofs::Servings::no_workers, crate::proofs::Servings::ran))]
pub fn run_serve_on<R, W>(
    rt: &R,
    alloc: Global,
    listener: TcpListener,
    words: &Serve,
    output: &mut W,
) -> Result<u8, Failure>
where
    R: Net + Threads + Wait + Clock + Sync,
    W: Write,
    ensures words { (words.now.workers ≡ 0) ⊎ (64 < words.now.workers)
        → result ≡ Err Failure.Words }
    ensures printed { IfOk result (λ status. Prints (W.contents output.old) (W.contents output.new)
        (IsServeCommand words.now status)) }
{
    let Some(options) = options_of(words) else {
        return Err(Failure::Words);
    };
    Ok(serve_on(rt, alloc, listener, options, &mut None, output)?)
}
