//! The command `broker`.

ghost use Rattle.std.specs.Prelude.{◌≡◌, IfOk};
ghost use Rattle.mq_programs.specs.Prelude.{IsBrokerStatus, IsEnded, IsReady, MayEnd, AreOptionsOf, milliseconds, start_status, when_full_of};

use crate::kept::{Ready, recover};
use mq_broker::{BrokerEnd, BrokerOptions, Log, LogLevel, OpenError};
use mq_cli::{Broker, OnFull};
use mq_route::WhenFull;
use mq_status::{PasswordsError, UserTables, read_users};
use std::alloc::Global;
use std::fs::{File, OpenOptions};
use std::io;
use std::io::{BufWriter, ErrorKind, Read, Write};
use std::net::{Net, SocketAddr};
use std::rt::Files;
use std::time::Clock;
use thiserror::Error;

/// The address and port on which the broker listens without `--listen`.
const LISTEN: &str = "127.0.0.1:1883";

/// Why a broker did not start.
#[derive(Debug, Drop, Error)]
enum StartError<'a> {
    /// A text is not an address.
    #[error("'{0}' is not an address: write ADDR:PORT")]
    Address(&'a str),
    /// The file of passwords can't be read.
    #[error("the passwords '{0}' cannot be read")]
    Unread(&'a str),
    /// The file of passwords is not valid.
    #[error("the passwords '{0}': {1}")]
    Passwords(&'a str, PasswordsError),
    /// The file of the log can't be opened.
    #[error("the log '{0}' cannot be opened")]
    Log(&'a str),
    /// The folder of the journal can't be used.
    #[error("the folder '{0}': {1}")]
    Folder(&'a str, OpenError),
    /// An allocation failed.
    #[error("out of memory")]
    Memory,
}

impl<'a> StartError<'a> {
    // The exit status of the program: 3 if an allocation failed, that of the folder if it can't be
    // used, otherwise 2.
    fn status(&self) -> u8
        ensures { result ≡ start_status self.now }
    {
        match self {
            StartError::Memory => 3,
            StartError::Folder(_, error) => error.status(),
            StartError::Address(_)
            | StartError::Unread(_)
            | StartError::Passwords(..)
            | StartError::Log(_) => 2,
        }
    }

    // Why the file of passwords can't be read.
    fn of_read(name: &'a str, error: &io::Error) -> StartError<'a> {
        match error.kind() {
            ErrorKind::OutOfMemory => StartError::Memory,
            _ => StartError::Unread(name),
        }
    }

    // Why the file of passwords is not valid.
    fn of_passwords(name: &'a str, error: PasswordsError) -> StartError<'a> {
        match error {
            PasswordsError::Memory => StartError::Memory,
            error => StartError::Passwords(name, error),
        }
    }
}

fn address_of<'a>(text: &'a str) -> Result<SocketAddr, StartError<'a>> {
    match text.parse::<SocketAddr>() {
        Ok(address) => Ok(address),
        Err(_) => Err(StartError::Address(text)),
    }
}

// The users of a file of passwords.
fn tables_of<'a, R: Files<File = File>>(
    rt: &R,
    alloc: Global,
    name: &'a str,
) -> Result<UserTables, StartError<'a>> {
    let mut bytes = Vec::new(alloc);
    let mut file = match File::open(rt, name) {
        Ok(file) => file,
        Err(error) => return Err(StartError::of_read(name, &error)),
    };
    if let Err(error) = file.read_to_end(&mut bytes) {
        return Err(StartError::of_read(name, &error));
    }
    match read_users(alloc, bytes.as_slice()) {
        Ok(tables) => Ok(tables),
        Err(error) => Err(StartError::of_passwords(name, error)),
    }
}

// The treatment of a copy for a full session.
fn when_full_of(choice: OnFull) -> WhenFull
    ensures { result ≡ when_full_of choice }
{
    match choice {
        OnFull::Drop => WhenFull::DropCopy,
        OnFull::Close => WhenFull::ClosePublisher,
    }
}

// The milliseconds of seconds.
fn milliseconds_of(seconds: Option<u32>) -> Option<u64>
    ensures { result ≡ milliseconds seconds }
{
    match seconds {
        Some(seconds) => Some(u64::from(seconds) * 1_000),
        None => None,
    }
}

// The options of the arguments, with addresses and without users.
fn open_options(
    words: &Broker<'_>,
    listen: SocketAddr,
    metrics: Option<SocketAddr>,
) -> BrokerOptions
    ensures listen { result.listen ≡ listen }
    ensures metrics { result.metrics ≡ metrics }
    ensures limits { AreOptionsOf words.now result }
    ensures users { (result.users ≡ None) × (result.hashed_users ≡ None) }
{
    BrokerOptions {
        listen,
        max_connections: words.max_connections as usize,
        max_sessions: words.max_sessions as usize,
        max_packet: words.max_packet,
        capacity: words.capacity,
        max_stored: u64::from(words.max_stored),
        max_waiting: u64::from(words.max_waiting),
        max_matches: u64::from(words.max_matches),
        session_expiry: milliseconds_of(words.session_expiry),
        when_full: when_full_of(words.when_full),
        connect_within: milliseconds_of(words.connect_within),
        users: None,
        hashed_users: None,
        metrics,
    }
}

// The options of the arguments, with the addresses and the users that they name.
fn options_of<'a, R: Files<File = File>>(
    rt: &R,
    alloc: Global,
    words: &Broker<'a>,
) -> Result<BrokerOptions, StartError<'a>>
    ensures { IfOk result (AreOptionsOf words.now) }
{
    let listen = address_of(words.listen.unwrap_or(LISTEN))?;
    let metrics = match words.metrics {
        Some(text) => Some(address_of(text)?),
        None => None,
    };
    let options = open_options(words, listen, metrics);
    match words.passwords {
        Some(name) => {
            let tables = tables_of(rt, alloc, name)?;
            Ok(BrokerOptions {
                users: Some(tables.users),
                hashed_users: Some(tables.hashed_users),
                ..options
            })
        }
        None => Ok(options),
    }
}

fn level_of(words: &Broker<'_>) -> LogLevel {
    if words.quiet {
        LogLevel::Quiet
    } else if words.verbose {
        LogLevel::Verbose
    } else {
        LogLevel::Normal
    }
}

// The file of the log, if there is one.
fn log_file<'a, R: Files<File = File>>(
    rt: &R,
    name: Option<&'a str>,
) -> Result<Option<File>, StartError<'a>> {
    let Some(name) = name else {
        return Ok(None);
    };
    match OpenOptions::new().append(true).create(true).open(rt, name) {
        Ok(file) => Ok(Some(file)),
        Err(_) => Err(StartError::Log(name)),
    }
}

// The broker of the arguments, which is recovered first if it has a folder.
fn ready_of<'a, R: Clock + Files<File = File>, E: Write>(
    rt: &R,
    alloc: Global,
    words: &Broker<'a>,
    options: BrokerOptions,
    errors: &mut E,
) -> Result<Ready, StartError<'a>>
    ensures { IfOk result (IsReady words.now.journal options) }
{
    let Some(data) = words.journal else {
        return Ok(Ready::Plain(options));
    };
    match recover(rt, alloc, options, data, errors) {
        Ok(broker) => Ok(Ready::Kept(broker)),
        Err(error) => Err(StartError::Folder(data.path, error)),
    }
}

// Runs a broker with a log.
fn run_logged<'a, R: Net + Clock + Files<File = File>, W: Write, L: Write + Drop>(
    rt: &R,
    alloc: Global,
    broker: Ready,
    output: &mut W,
    log: L,
    level: LogLevel,
) -> Result<BrokerEnd, StartError<'a>>
    ensures { IfOk result (MayEnd broker) }
{
    match BufWriter::new(alloc, log) {
        Ok(buffer) => Ok(broker.run(rt, alloc, output, Log::new(alloc, buffer, level))),
        Err(_) => Err(StartError::Memory),
    }
}

// Runs the broker, with its log in a file or at `errors`.
#[tactic(auto, using(crate::proofs::Ends::ended))]
fn run_to_end<'a, R, W, E>(
    rt: &R,
    alloc: Global,
    words: &Broker<'a>,
    output: &mut W,
    errors: &mut E,
) -> Result<BrokerEnd, StartError<'a>>
where
    R: Net + Clock + Files<File = File>,
    W: Write,
    E: Write + Drop,
    ensures { IfOk result (IsEnded words.now) }
{
    let options = options_of(rt, alloc, words)?;
    let file = log_file(rt, words.log)?;
    let broker = ready_of(rt, alloc, words, options, errors)?;
    let level = level_of(words);
    match file {
        Some(file) => run_logged(rt, alloc, broker, output, file, level),
        None => run_logged(rt, alloc, broker, output, errors, level),
    }
}

// Says why the broker ended, and what to do if its journal failed.
fn explain_end<E: Write>(errors: &mut E, words: &Broker<'_>, end: BrokerEnd) {
    let listen = words.listen.unwrap_or(LISTEN);
    let _ = match (end, words.journal) {
        (BrokerEnd::Journal, Some(data)) => writeln!(
            errors,
            "mqtt: broker at {listen}: the journal in '{}' cannot be written: the disk is full or failed. No event that it lacks was acknowledged. Free space, and start the broker again",
            data.path
        ),
        (end, _) => writeln!(errors, "mqtt: broker at {listen}: {end}"),
    };
}

/// Runs the broker until it is stopped. Writes `listening ADDR:PORT` to `output` and flushes it.
///
/// With a folder the broker is recovered first, and `errors` gets a line that says so. The log is
/// written to its file or to `errors`, and the reason of an early end to `errors`. Returns the
/// status: 2 for an invalid argument, 1 if the listener, the folder or the journal failed, 3 if an
/// allocation failed, 4 if the output failed.
#[tactic(auto, using(crate::proofs::Ends::status_of_end, crate::proofs::Ends::status_of_error))]
pub fn run_broker_command<R, W, E>(
    rt: &R,
    alloc: Global,
    words: &Broker<'_>,
    output: &mut W,
    mut errors: E,
) -> u8
where
    R: Net + Clock + Files<File = File>,
    W: Write,
    E: Write + Drop,
    ensures { IsBrokerStatus words.now result }
{
    match run_to_end(rt, alloc, words, output, &mut errors) {
        Ok(end) => {
            explain_end(&mut errors, words, end);
            end.status()
        }
        Err(error) => {
            let _ = writeln!(errors, "mqtt: {error}");
            error.status()
        }
    }
}
