//! The command `loopback`.

ghost use Rattle.std.specs.Prelude.{IfOk};
ghost use Rattle.mq_programs.specs.Prelude.{Prints, IsInputRun, input_of};

use mq_cli::{Failure, Source};
use mq_loopback::{loopback, loopback_file};
use std::alloc::Global;
use std::io::{Read, Write};
use std::net::{Net, TcpListener, TcpStream};
use std::rt::Files;
use std::sync::Wait;
use std::thread::Threads;
use std::time::Clock;

/// Runs a broker and the clients of a loopback file, which is a named file or the input.
pub fn run_loopback<R, I, W>(
    rt: &R,
    alloc: Global,
    source: Source<'_>,
    input: &mut I,
    output: &mut W,
) -> Result<u8, Failure>
where
    R: Net<Listener = TcpListener, Stream = TcpStream> + Files + Threads + Wait + Clock + Sync,
    I: Read,
    W: Write,
    ensures { IfOk result (λ status. Prints (W.contents output.old) (W.contents output.new)
        (IsInputRun (input_of source.entry (I.remaining input.old)) status)) }
{
    Ok(match source {
        Source::File(name) => loopback_file(rt, alloc, name, output)?,
        Source::Standard => loopback(rt, alloc, input, output)?,
    })
}
