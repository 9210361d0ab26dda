//! The command `broker`: its definition and its arguments.

ghost use Rattle.std.specs.Prelude.{◌≡◌, false, codes, None, IfOk, IfSome};
ghost use Rattle.mq_cli.specs.Prelude.{app_of, rule_of, subcommand_rows_of, out-Command, HasWord, IsBroker, IsData, IsExpiry, IsKeep, IsLimit, IsOnFull, IsPatience, IsTime, full_word, keep_word, broker_words, limit_rule, with_data, with_extras, with_journal, with_limits, with_logs, with_patience, with_sessions, with_tables};

use crate::grammar::{Texts, file_option, flag, new_command, with_arg};
use crate::words::{flag_of, given_of, number_of};
use clap::builder::ValueParser;
use clap::{Arg, ArgMatches, Command, value_parser};
use std::alloc::{AllocError, Global};

/// The seconds within which a connection must send CONNECT, without `--connect-within`.
const PATIENCE: u32 = 10;

/// The treatment of a message whose receiver has no packet identifier free (2.3.1).
#[derive(Clone, Copy, Debug, PartialEq, Eq)]
pub enum OnFull {
    /// The receiver misses the message.
    Drop,
    /// The publisher's connection is closed.
    Close,
}

/// The failure that the journal of a broker survives.
#[derive(Clone, Copy, Debug, PartialEq, Eq)]
pub enum Durability {
    /// The end of the process.
    System,
    /// The end of the machine's power.
    Disk,
}

/// The folder of a broker's journal.
#[derive(Clone, Copy, Debug, PartialEq, Eq)]
pub struct DataFolder<'a> {
    /// The path, as given.
    pub path: &'a str,
    /// The failure that the journal survives.
    pub keep: Durability,
    /// The number of bytes from which on the broker continues in the next journal.
    pub journal_size: u32,
}

/// A broker that runs until it is stopped.
#[derive(Clone, Copy, Debug, PartialEq, Eq)]
pub struct Broker<'a> {
    /// The address and the port that it listens on, as given; `None` for 127.0.0.1:1883.
    pub listen: Option<&'a str>,
    /// The maximum number of connections.
    pub max_connections: u32,
    /// The maximum number of sessions.
    pub max_sessions: u32,
    /// The maximum remaining length of a packet, in bytes (2.2.3).
    pub max_packet: u32,
    /// The maximum number of packet identifiers in use in a session (2.3.1).
    pub capacity: u16,
    /// The maximum number of topic and payload bytes of the messages that a session stores (4.1).
    pub max_stored: u32,
    /// The number of output bytes beyond which a connection misses messages of QoS 0.
    pub max_waiting: u32,
    /// The maximum number of filters of a SUBSCRIBE times retained messages (3.8.4).
    pub max_matches: u32,
    /// The seconds after which the session of an absent client is removed, at least 1; `None` to
    /// keep it (3.1.2.4).
    pub session_expiry: Option<u32>,
    /// The seconds within which a connection must send CONNECT, at least 1; `None` for no limit.
    pub connect_within: Option<u32>,
    /// The treatment of a message whose receiver has no packet identifier free.
    pub when_full: OnFull,
    /// The file of the user names and passwords; `None` lets anyone connect (3.1.3.4).
    pub passwords: Option<&'a str>,
    /// The address and the port of the metrics, as given.
    pub metrics: Option<&'a str>,
    /// The folder of the journal; `None` to keep all state in memory.
    pub journal: Option<DataFolder<'a>>,
    /// The file of the log; `None` for the standard error.
    pub log: Option<&'a str>,
    /// The log has no lines.
    pub quiet: bool,
    /// The log also has lines about connections.
    pub verbose: bool,
}

// An optional number.
fn limit<'a>(
    alloc: Global,
    word: &'a str,
    name: &'a str,
    help: &'a str,
    kind: ValueParser<'a>,
) -> Arg<'a>
    ensures rule { rule_of result ≡ limit_rule word.now name.now kind.entry }
    ensures local { result.global ≡ false }
{
    Arg::new(alloc, word)
        .long(name)
        .help(help)
        .value_parser(kind)
}

// The command with the options of the numbers of connections and sessions.
fn with_tables<'a>(alloc: Global, command: Command<'a>) -> Result<Command<'a>, AllocError>
    ensures words { IfOk result (λ new. app_of new ≡ with_tables (app_of command.entry)) }
    ensures local { IfOk result (λ new. (out-Command new).has_globals ≡ (out-Command command.entry).has_globals) }
{
    let help = "The maximum number of connections [default: 10000]";
    let kind = value_parser!(u32);
    let command = with_arg(
        command,
        limit(alloc, "MAX_CONNECTIONS", "max-connections", help, kind),
    )?;
    let help = "The maximum number of sessions [default: 100000]";
    let kind = value_parser!(u32);
    let command = with_arg(
        command,
        limit(alloc, "MAX_SESSIONS", "max-sessions", help, kind),
    )?;
    let help = "The maximum filters of a SUBSCRIBE times retained messages [default: 1000000]";
    let kind = value_parser!(u32);
    with_arg(
        command,
        limit(alloc, "MAX_MATCHES", "max-matches", help, kind),
    )
}

// The command with the limits of packets, sessions and pending output.
fn with_limits<'a>(alloc: Global, command: Command<'a>) -> Result<Command<'a>, AllocError>
    ensures words { IfOk result (λ new. app_of new ≡ with_limits (app_of command.entry)) }
    ensures local { IfOk result (λ new. (out-Command new).has_globals ≡ (out-Command command.entry).has_globals) }
{
    let help =
        "The maximum length of a packet after its header, 64 to 268435455 bytes [default: 1048576]";
    let kind = value_parser!(u32).range(64..=268_435_455);
    let command = with_arg(
        command,
        limit(alloc, "MAX_PACKET", "max-packet", help, kind),
    )?;
    let help =
        "The maximum number of unacknowledged messages of a session, 1 to 65535 [default: 1000]";
    let kind = value_parser!(u16).range(1..=65_535);
    let command = with_arg(command, limit(alloc, "CAPACITY", "capacity", help, kind))?;
    let help =
        "The output bytes beyond which a connection misses messages of QoS 0 [default: 1048576]";
    let kind = value_parser!(u32);
    with_arg(
        command,
        limit(alloc, "MAX_WAITING", "max-waiting", help, kind),
    )
}

// The command with the limits of stored sessions.
fn with_sessions<'a>(alloc: Global, command: Command<'a>) -> Result<Command<'a>, AllocError>
    ensures words { IfOk result (λ new. app_of new ≡ with_sessions (app_of command.entry)) }
    ensures local { IfOk result (λ new. (out-Command new).has_globals ≡ (out-Command command.entry).has_globals) }
{
    let help = "The maximum bytes of the messages that a session stores [default: 16777216]";
    let kind = value_parser!(u32);
    let command = with_arg(
        command,
        limit(alloc, "MAX_STORED", "max-stored", help, kind),
    )?;
    let help =
        "The seconds after which the session of an absent client is removed, or `never` [default: never]";
    with_arg(
        command,
        file_option(alloc, "SESSION_EXPIRY", "session-expiry", help),
    )
}

// The command with the options for clients that are silent or full.
fn with_patience<'a>(alloc: Global, command: Command<'a>) -> Result<Command<'a>, AllocError>
    ensures words { IfOk result (λ new. app_of new ≡ with_patience (app_of command.entry)) }
    ensures local { IfOk result (λ new. (out-Command new).has_globals ≡ (out-Command command.entry).has_globals) }
{
    let help = "The seconds within which a connection must send CONNECT, or `never` [default: 10]";
    let command = with_arg(
        command,
        file_option(alloc, "CONNECT_WITHIN", "connect-within", help),
    )?;
    let help =
        "What happens to a message for a full session: `drop`, or `close` its publisher [default: drop]";
    with_arg(command, file_option(alloc, "WHEN_FULL", "when-full", help))
}

// The command with the options of the passwords and of the metrics.
fn with_extras<'a>(alloc: Global, command: Command<'a>) -> Result<Command<'a>, AllocError>
    ensures words { IfOk result (λ new. app_of new ≡ with_extras (app_of command.entry)) }
    ensures local { IfOk result (λ new. (out-Command new).has_globals ≡ (out-Command command.entry).has_globals) }
{
    let help =
        "Accepts only the users of this file, with lines NAME:PASSWORD or of `mqtt password`";
    let command = with_arg(command, file_option(alloc, "PASSWORDS", "passwords", help))?;
    let help = "Serves metrics over HTTP at this address and port";
    with_arg(command, file_option(alloc, "METRICS", "metrics", help))
}

// The command with the options of the journal.
fn with_data<'a>(alloc: Global, command: Command<'a>) -> Result<Command<'a>, AllocError>
    ensures words { IfOk result (λ new. app_of new ≡ with_data (app_of command.entry)) }
    ensures local { IfOk result (λ new. (out-Command new).has_globals ≡ (out-Command command.entry).has_globals) }
{
    let help = "Keeps all state in a journal in this folder, and recovers it from there";
    let command = with_arg(command, file_option(alloc, "DATA", "data", help))?;
    let help =
        "The failure that the journal survives: `system`, a kill, or `disk`, a power cut [default: disk]";
    with_arg(command, file_option(alloc, "KEEP", "keep", help))
}

// The command with the option of the journal's size.
fn with_journal<'a>(alloc: Global, command: Command<'a>) -> Result<Command<'a>, AllocError>
    ensures words { IfOk result (λ new. app_of new ≡ with_journal (app_of command.entry)) }
    ensures local { IfOk result (λ new. (out-Command new).has_globals ≡ (out-Command command.entry).has_globals) }
{
    let help = "The bytes of the journal from which on a snapshot replaces it [default: 67108864]";
    let kind = value_parser!(u32);
    with_arg(
        command,
        limit(alloc, "JOURNAL_SIZE", "journal-size", help, kind),
    )
}

// The command with the options of the log.
fn with_logs<'a>(alloc: Global, command: Command<'a>) -> Result<Command<'a>, AllocError>
    ensures words { IfOk result (λ new. app_of new ≡ with_logs (app_of command.entry)) }
    ensures local { IfOk result (λ new. (out-Command new).has_globals ≡ (out-Command command.entry).has_globals) }
{
    let help = "Appends the log to this file; without it the log goes to standard error";
    let command = with_arg(command, file_option(alloc, "LOG", "log", help))?;
    let help = "Writes no log";
    let command = with_arg(command, flag(alloc, "QUIET", "quiet", help))?;
    let help = "Also logs connections without a client";
    with_arg(command, flag(alloc, "VERBOSE", "verbose", help))
}

// The command with the limits of stored sessions, and with those for silent or full clients.
fn with_times<'a>(alloc: Global, command: Command<'a>) -> Result<Command<'a>, AllocError>
    ensures words { IfOk result (λ new. app_of new ≡ with_patience (with_sessions (app_of command.entry))) }
    ensures local { IfOk result (λ new. (out-Command new).has_globals ≡ (out-Command command.entry).has_globals) }
{
    let command = with_sessions(alloc, command)?;
    with_patience(alloc, command)
}

// The command with the options of the passwords, of the metrics and of the journal.
fn with_services<'a>(alloc: Global, command: Command<'a>) -> Result<Command<'a>, AllocError>
    ensures words { IfOk result (λ new. app_of new ≡ with_journal (with_data (with_extras (app_of command.entry)))) }
    ensures local { IfOk result (λ new. (out-Command new).has_globals ≡ (out-Command command.entry).has_globals) }
{
    let command = with_extras(alloc, command)?;
    let command = with_data(alloc, command)?;
    with_journal(alloc, command)
}

/// `broker [--listen ADDR:PORT] ..`.
pub(crate) fn broker_command<'a>(alloc: Global) -> Result<Command<'a>, AllocError>
    ensures words { IfOk result (λ command. app_of command ≡ broker_words) }
    ensures local { IfOk result (λ command. (out-Command command).has_globals ≡ false) }
{
    let texts = Texts {
        name: "broker",
        about: "Runs a broker until it is stopped",
        example: "Example: mqtt broker --listen 0.0.0.0:1883",
    };
    let help =
        "The address and port to listen on; port 0 picks a free one [default: 127.0.0.1:1883]";
    let command = new_command(alloc, texts);
    let command = with_arg(command, file_option(alloc, "LISTEN", "listen", help))?;
    let command = with_tables(alloc, command)?;
    let command = with_limits(alloc, command)?;
    let command = with_times(alloc, command)?;
    let command = with_services(alloc, command)?;
    with_logs(alloc, command)
}

// A number, or its default if it was not given.
fn limit_of(matches: &ArgMatches<'_>, word: &str, default: u64) -> Option<u64>
    ensures { IfSome result (IsLimit (subcommand_rows_of matches.now) word.now default) }
{
    match given_of(matches, "broker", word)? {
        None => Some(default),
        Some(_) => number_of(matches, "broker", word),
    }
}

fn limit_of_32_bits(matches: &ArgMatches<'_>, word: &str, default: u64) -> Option<u32>
    ensures { IfSome result (IsLimit (subcommand_rows_of matches.now) word.now default) }
{
    u32::try_from(limit_of(matches, word, default)?).ok()
}

fn limit_of_16_bits(matches: &ArgMatches<'_>, word: &str, default: u64) -> Option<u16>
    ensures { IfSome result (IsLimit (subcommand_rows_of matches.now) word.now default) }
{
    u16::try_from(limit_of(matches, word, default)?).ok()
}

// A time: seconds, or `None` for `never`.
fn time_of(text: &str) -> Option<Option<u32>>
    ensures { IfSome result (IsTime text.now) }
{
    if text == "never" {
        return Some(None);
    }
    let Ok(seconds) = text.parse::<u32>() else {
        return None;
    };
    if seconds == 0 {
        return None;
    }
    Some(Some(seconds))
}

fn patience_of(matches: &ArgMatches<'_>) -> Option<Option<u32>>
    ensures { IfSome result (IsPatience (subcommand_rows_of matches.now)) }
{
    match given_of(matches, "broker", "CONNECT_WITHIN")? {
        None => Some(Some(PATIENCE)),
        Some(text) => time_of(text),
    }
}

fn expiry_of(matches: &ArgMatches<'_>) -> Option<Option<u32>>
    ensures { IfSome result (IsExpiry (subcommand_rows_of matches.now)) }
{
    match given_of(matches, "broker", "SESSION_EXPIRY")? {
        None => Some(None),
        Some(text) => time_of(text),
    }
}

// The choice of `--when-full`.
fn choice_of(text: &str) -> Option<OnFull>
    ensures { IfSome result (λ choice. text.now ≡ full_word choice) }
{
    match text {
        "drop" => Some(OnFull::Drop),
        "close" => Some(OnFull::Close),
        _ => None,
    }
}

fn on_full_of(matches: &ArgMatches<'_>) -> Option<OnFull>
    ensures { IfSome result (IsOnFull (subcommand_rows_of matches.now)) }
{
    match given_of(matches, "broker", "WHEN_FULL")? {
        None => Some(OnFull::Drop),
        Some(text) => choice_of(text),
    }
}

// The choice of `--keep`.
fn durability_of(text: &str) -> Option<Durability>
    ensures { IfSome result (λ choice. text.now ≡ keep_word choice) }
{
    match text {
        "system" => Some(Durability::System),
        "disk" => Some(Durability::Disk),
        _ => None,
    }
}

fn keep_of(matches: &ArgMatches<'_>) -> Option<Durability>
    ensures { IfSome result (IsKeep (subcommand_rows_of matches.now)) }
{
    match given_of(matches, "broker", "KEEP")? {
        None => Some(Durability::Disk),
        Some(text) => durability_of(text),
    }
}

// The folder of a path, with the options of its journal.
fn folder_of<'a>(matches: &ArgMatches<'a>, path: &'a str) -> Option<DataFolder<'a>>
    ensures path { IfSome result (λ folder. folder.path.now ≡ path.now) }
    ensures keep { IfSome result (λ folder. IsKeep (subcommand_rows_of matches.now) folder.keep) }
    ensures size { IfSome result (λ folder.
        IsLimit (subcommand_rows_of matches.now) (codes "JOURNAL_SIZE") 67108864 folder.journal_size) }
{
    let keep = keep_of(matches)?;
    let journal_size = limit_of_32_bits(matches, "JOURNAL_SIZE", 67_108_864)?;
    Some(DataFolder {
        path,
        keep,
        journal_size,
    })
}

// Whether an argument was given. `None` if it can't be found out.
fn is_given(matches: &ArgMatches<'_>, word: &str) -> Option<bool>
    ensures { IfSome result (λ is. is ≡ false → HasWord (subcommand_rows_of matches.now) (codes "broker") word.now None) }
{
    Some(given_of(matches, "broker", word)?.is_some())
}

fn data_of<'a>(matches: &ArgMatches<'a>) -> Option<Option<DataFolder<'a>>>
    ensures { IfSome result (IsData (subcommand_rows_of matches.now)) }
{
    if let Some(path) = given_of(matches, "broker", "DATA")? {
        return Some(Some(folder_of(matches, path)?));
    }
    if is_given(matches, "KEEP")? || is_given(matches, "JOURNAL_SIZE")? {
        return None;
    }
    Some(None)
}

/// The error for arguments of `broker` that the parser accepts although they are not valid.
pub(crate) fn broker_complaint(matches: &ArgMatches<'_>) -> &'static str {
    if patience_of(matches).is_none() {
        return "--connect-within wants seconds, from 1 to 4294967295, or never";
    }
    if expiry_of(matches).is_none() {
        return "--session-expiry wants seconds, from 1 to 4294967295, or never";
    }
    if keep_of(matches).is_none() {
        return "--keep wants system or disk";
    }
    match data_of(matches) {
        None => "broker wants --data DIR with --keep or --journal-size",
        Some(_) => "--when-full wants drop or close",
    }
}

/// The arguments of `broker`, if this command was given.
pub(crate) fn broker_of<'a>(matches: &ArgMatches<'a>) -> Option<Broker<'a>>
    ensures { IfSome result (IsBroker (subcommand_rows_of matches.now)) }
{
    Some(Broker {
        listen: given_of(matches, "broker", "LISTEN")?,
        max_connections: limit_of_32_bits(matches, "MAX_CONNECTIONS", 10_000)?,
        max_sessions: limit_of_32_bits(matches, "MAX_SESSIONS", 100_000)?,
        max_packet: limit_of_32_bits(matches, "MAX_PACKET", 1_048_576)?,
        capacity: limit_of_16_bits(matches, "CAPACITY", 1_000)?,
        max_stored: limit_of_32_bits(matches, "MAX_STORED", 16_777_216)?,
        max_waiting: limit_of_32_bits(matches, "MAX_WAITING", 1_048_576)?,
        max_matches: limit_of_32_bits(matches, "MAX_MATCHES", 1_000_000)?,
        session_expiry: expiry_of(matches)?,
        connect_within: patience_of(matches)?,
        when_full: on_full_of(matches)?,
        passwords: given_of(matches, "broker", "PASSWORDS")?,
        metrics: given_of(matches, "broker", "METRICS")?,
        journal: data_of(matches)?,
        log: given_of(matches, "broker", "LOG")?,
        quiet: flag_of(matches, "broker", "QUIET")?,
        verbose: flag_of(matches, "broker", "VERBOSE")?,
    })
}
