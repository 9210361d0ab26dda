//! The program `mqtt`: it does the job that its words ask for, and prints to the standard output.
#![tactic(auto)]

mod described;

use crate::described::{print_manual, print_script};
use mq_cli::{
    Command, Draw, Failure, Fallible, Job, Source, WordsFault, exit_status, job, perform,
    perform_file,
};
use mq_programs::{
    run_broker_command, run_client, run_draw, run_journal, run_loopback, run_password, run_serve,
};
use mq_pubsub_programs::{publish_arguments, report_fault, run_pub, run_sub, subscribe_arguments};
use std::fs::File;
use std::io::{BufReader, BufWriter, Input, IsTerminal, Write};
use std::net::{Net, TcpListener, TcpStream};
use std::process::ExitCode;
use std::random::RandomSource;
use std::rt::Files;
use std::sync::Wait;
use std::thread::Threads;
use std::time::Clock;
use std::{env, io};

/// Does a job, and prints to the standard output through a buffer.
fn perform_job(rt: &HostRuntime, job: &Job<'_>) -> Result<u8, Failure> {
    let mut output = BufWriter::new(rt.alloc(), io::writer(rt))?;
    let status = perform_into(rt, job, &mut output)?;
    output.flush()?;
    Ok(status)
}

/// Runs a job over its file or the standard input, or without input.
fn perform_into<W: Write>(rt: &HostRuntime, job: &Job<'_>, output: &mut W) -> io::Result<u8> {
    let alloc = rt.alloc();
    match job.source() {
        Some(Source::File(name)) => perform_file(rt, alloc, job, name, output),
        Some(Source::Standard) => {
            let mut input = Fallible(BufReader::new(alloc, rt.reader())?);
            perform(alloc, job, &mut input, output)
        }
        None => perform(alloc, job, &mut io::empty(), output),
    }
}

/// Runs a client program, and prints to the standard output through a buffer.
fn run_buffered(rt: &HostRuntime, command: &Command<'_>) -> Result<u8, Failure> {
    let mut output = BufWriter::new(rt.alloc(), io::writer(rt))?;
    let status = run_client(rt, rt.alloc(), command, &mut rt.stderr(), &mut output)?;
    output.flush()?;
    Ok(status)
}

/// Runs the broker and the clients of a file, and prints to the standard output through a buffer.
fn run_looped<R>(rt: &HostRuntime, host: &R, source: Source<'_>) -> Result<u8, Failure>
where
    R: Net<Listener = TcpListener, Stream = TcpStream> + Files + Threads + Wait + Clock + Sync,
{
    let alloc = rt.alloc();
    let mut output = BufWriter::new(alloc, io::writer(rt))?;
    let status = run_loopback(host, alloc, source, &mut rt.reader(), &mut output)?;
    output.flush()?;
    Ok(status)
}

/// Prints a journal to the standard output through a buffer.
fn run_listed(rt: &HostRuntime, name: &str) -> Result<u8, Failure> {
    let alloc = rt.alloc();
    let mut output = BufWriter::new(alloc, io::writer(rt))?;
    let status = run_journal(rt, alloc, name, &mut rt.stderr(), &mut output)?;
    output.flush()?;
    Ok(status)
}

/// Replays and draws a schedule, and prints to the standard output through a buffer.
fn run_drawn(rt: &HostRuntime, draw: Draw<'_>) -> Result<u8, Failure> {
    let alloc = rt.alloc();
    let mut output = BufWriter::new(alloc, io::writer(rt))?;
    let status = run_draw(rt, alloc, draw, &mut rt.reader(), &mut output)?;
    output.flush()?;
    Ok(status)
}

/// Runs `pub` with these arguments. `is_watched` means that standard error is a terminal.
fn run_publisher(rt: &HostRuntime, words: &[&str], is_watched: bool) -> u8 {
    match publish_arguments(rt, rt.alloc(), words) {
        Ok(words) => run_pub(rt, rt.alloc(), &words, is_watched),
        Err(fault) => report_fault(rt, "pub", fault),
    }
}

/// Runs `sub` with these arguments.
fn run_subscriber(rt: &HostRuntime, words: &[&str]) -> u8 {
    match subscribe_arguments(rt, rt.alloc(), words) {
        Ok(words) => run_sub(rt, rt.alloc(), &words),
        Err(fault) => report_fault(rt, "sub", fault),
    }
}

/// Runs `pub` or `sub`, whose options differ from those of the other commands, or prints the help
/// of one. Returns the exit status, or `None` for another command.
fn run_familiar(rt: &HostRuntime, words: &[&str]) -> Option<u8> {
    match words {
        [_, "pub", rest @ ..] => Some(run_publisher(rt, rest, rt.stderr().is_terminal())),
        [_, "sub", rest @ ..] => Some(run_subscriber(rt, rest)),
        [_, "help", "pub"] => Some(run_publisher(rt, &["--help"], false)),
        [_, "help", "sub"] => Some(run_subscriber(rt, &["--help"])),
        _ => None,
    }
}

/// Runs the given command and returns the exit status.
fn run<R>(rt: &HostRuntime, host: &R) -> Result<u8, Failure>
where
    R: Net<Listener = TcpListener, Stream = TcpStream>
        + Files<File = File>
        + Threads
        + Wait
        + Clock
        + RandomSource
        + Sync,
{
    let alloc = rt.alloc();
    let words: Vec<String> = env::args(rt).map_err(Failure::of_words)?.collect(alloc)?;
    let words: Vec<&str> = words.iter().map(|word| word.as_str()).collect(alloc)?;
    if let Some(status) = run_familiar(rt, words.as_slice()) {
        return Ok(status);
    }
    match job(alloc, words.as_slice()) {
        Ok(Command::Job(job)) => perform_job(rt, &job),
        Ok(Command::Serve(words)) => {
            run_serve(host, alloc, &words, &mut rt.stderr(), &mut io::writer(rt))
        }
        Ok(Command::Broker(words)) => {
            let (output, errors) = (&mut io::writer(rt), rt.stderr());
            Ok(run_broker_command(host, alloc, &words, output, errors))
        }
        Ok(Command::Journal(name)) => run_listed(rt, name),
        Ok(Command::Password(name)) => {
            let (input, errors) = (&mut rt.reader(), &mut rt.stderr());
            run_password(host, alloc, name, input, errors, &mut io::writer(rt))
        }
        Ok(Command::Loopback(source)) => run_looped(rt, host, source),
        Ok(Command::Draw(draw)) => run_drawn(rt, draw),
        Ok(Command::Completion) => print_script(rt),
        Ok(Command::Manual) => print_manual(rt),
        Ok(client) => run_buffered(rt, &client),
        Err(WordsFault::Words(error)) => {
            error.print(rt)?;
            Ok(if error.use_stderr() { 2 } else { 0 })
        }
        Err(WordsFault::Memory) => Err(Failure::Memory),
    }
}

/// Reports a failure on standard error, as far as possible.
fn tell(rt: &HostRuntime, failure: Failure) {
    let _ = match failure {
        Failure::Memory => println!(rt; "{failure}"),
        Failure::Words | Failure::Output => eprintln!(rt; "{failure}"),
        Failure::Closed => Ok(()),
    };
}

fn main(rt: HostRuntime) -> ExitCode {
    let done = run(&rt, &rt);
    if let Err(failure) = done {
        tell(&rt, failure);
    }
    ExitCode::from(exit_status(&done))
}
