//! The arguments of the command line.

ghost use Rattle.std.specs.Prelude.{◌≡◌, ◌≤◌, ◌≢◌, [], None, codes, map, option_map, true, IfOk, IfSome};
ghost use Rattle.mq_cli.specs.Prelude.{subcommand_of, subcommand_rows_of, GivesFlag, GivesId, GivesNumber, GivesQos, GivesSource, GivesTexts, GivesWord, HasWord, IsCollect, IsCommandOf, IsDigitsJob, IsDraw, IsJobOf, IsMet, IsPublish, IsServe, IsSource, program_words};

use crate::advice::advised;
use crate::broker::{broker_complaint, broker_of};
use crate::grammar::{command_line, shown_command};
use crate::jobs::{Collect, Command, Draw, Job, Publish, Serve, Source};
use clap::error::ErrorKind;
use clap::{ArgMatches, Error as ParseError};
use mq_topic::Qos;
use std::alloc::{AllocError, Global};
use thiserror::Error;

/// The most threads that serve.
const MOST_WORKERS: u8 = 64;

/// The most bytes that a client identifier has (1.5.3).
const MOST_ID: usize = 65_535;

/// Why the arguments are not a command.
#[derive(Debug, Drop, Error)]
pub enum WordsFault {
    /// They ask for help or for the version, or they can't be read. The error says which, has the
    /// text for the user, and the status.
    #[error("{0}")]
    Words(ParseError),
    /// Memory ran out.
    #[error("out of memory")]
    Memory,
}

impl From<AllocError> for WordsFault {
    fn from(_e: AllocError) -> WordsFault {
        WordsFault::Memory
    }
}

impl From<ParseError> for WordsFault {
    fn from(error: ParseError) -> WordsFault {
        match error.kind() {
            ErrorKind::OutOfMemory => WordsFault::Memory,
            _ => WordsFault::Words(error),
        }
    }
}

// The value of an argument, if this command was given.
pub(crate) fn given_of<'a>(
    matches: &ArgMatches<'a>,
    command: &str,
    word: &str,
) -> Option<Option<&'a str>>
    ensures { IfSome result (λ value. HasWord (subcommand_rows_of matches.now)
        command.now word.now (option_map (λ text. text.now) value)) }
{
    let met = matches.subcommand_matches(command)?;
    Some(met.get_str(word))
}

fn word_of<'a>(matches: &ArgMatches<'a>, command: &str, word: &str) -> Option<&'a str>
    ensures { IfSome result (λ value.
        GivesWord (subcommand_rows_of matches.now) command.now word.now value.now) }
{
    given_of(matches, command, word)?
}

// The source that a file argument names.
fn file_or_input<'a>(word: &'a str) -> Source<'a>
    ensures { IsSource word.now result }
{
    match word {
        "-" => Source::Standard,
        name => Source::File(name),
    }
}

// The source that the file argument of this command names.
fn source_of<'a>(matches: &ArgMatches<'a>, command: &str, word: &str) -> Option<Source<'a>>
    ensures { IfSome result
        (GivesSource (subcommand_rows_of matches.now) command.now word.now) }
{
    Some(file_or_input(word_of(matches, command, word)?))
}

pub(crate) fn flag_of(matches: &ArgMatches<'_>, command: &str, word: &str) -> Option<bool>
    ensures { IfSome result
        (GivesFlag (subcommand_rows_of matches.now) command.now word.now) }
{
    let met = matches.subcommand_matches(command)?;
    Some(met.get_flag(word))
}

pub(crate) fn number_of(matches: &ArgMatches<'_>, command: &str, word: &str) -> Option<u64>
    ensures { IfSome result
        (GivesNumber (subcommand_rows_of matches.now) command.now word.now) }
{
    let met = matches.subcommand_matches(command)?;
    met.get_one(word)
}

fn count_of(matches: &ArgMatches<'_>, command: &str, word: &str) -> Option<u32>
    ensures { IfSome result
        (GivesNumber (subcommand_rows_of matches.now) command.now word.now) }
{
    u32::try_from(number_of(matches, command, word)?).ok()
}

fn port_of(matches: &ArgMatches<'_>, command: &str) -> Option<u16>
    ensures { IfSome result
        (GivesNumber (subcommand_rows_of matches.now) command.now (codes "PORT")) }
{
    u16::try_from(number_of(matches, command, "PORT")?).ok()
}

fn qos_of(matches: &ArgMatches<'_>, command: &str) -> Option<Qos>
    ensures { IfSome result (GivesQos (subcommand_rows_of matches.now) command.now) }
{
    let number = u8::try_from(number_of(matches, command, "QOS")?).ok()?;
    Qos::from_number(number)
}

// The client identifier, unless it is too long.
fn id_of<'a>(matches: &ArgMatches<'a>, command: &str) -> Option<&'a str>
    ensures { IfSome result
        (λ id. GivesId (subcommand_rows_of matches.now) command.now id.now) }
{
    let id = word_of(matches, command, "ID")?;
    if id.len() > MOST_ID {
        return None;
    }
    Some(id)
}

fn texts_of<'a>(
    alloc: Global,
    matches: &ArgMatches<'a>,
    command: &str,
    word: &str,
) -> Result<Option<Vec<&'a str>>, AllocError>
    ensures { IfOk result (λ found. IfSome found (λ texts.
        GivesTexts (subcommand_rows_of matches.now) command.now word.now
        (map (λ text. text.now) texts.items))) }
{
    let Some(met) = matches.subcommand_matches(command) else {
        return Ok(None);
    };
    match met.get_strs(word) {
        Some(texts) => Ok(Some(texts.to_vec(alloc)?)),
        None => Ok(Some(Vec::new(alloc))),
    }
}

// The job of `show` for digits, or for `-` in their place.
fn digits_job<'a>(hex: &'a str, lenient: bool) -> Job<'a>
    ensures { IsDigitsJob hex.now lenient result }
{
    match hex {
        "-" => Job::ShowFrom {
            source: Source::Standard,
            lenient,
        },
        hex => Job::Show { hex, lenient },
    }
}

// The job of `show`, with digits or a file, but not both.
fn show_job<'a>(matches: &ArgMatches<'a>) -> Option<Job<'a>>
    ensures { IfSome result (IsJobOf (subcommand_rows_of matches.now)) }
{
    let lenient = flag_of(matches, "show", "LENIENT")?;
    let hex = given_of(matches, "show", "HEX")?;
    let file = given_of(matches, "show", "FILE")?;
    match (hex, file) {
        (Some(hex), None) => Some(digits_job(hex, lenient)),
        (None, Some(file)) => Some(Job::ShowFrom {
            source: file_or_input(file),
            lenient,
        }),
        _ => None,
    }
}

fn check_job<'a>(matches: &ArgMatches<'a>) -> Option<Job<'a>>
    ensures { IfSome result (IsJobOf (subcommand_rows_of matches.now)) }
{
    let source = source_of(matches, "check", "FILE")?;
    let lenient = flag_of(matches, "check", "LENIENT")?;
    Some(Job::Check { source, lenient })
}

fn match_job<'a>(matches: &ArgMatches<'a>) -> Option<Job<'a>>
    ensures { IfSome result (IsJobOf (subcommand_rows_of matches.now)) }
{
    let filter = word_of(matches, "match", "FILTER")?;
    let name = word_of(matches, "match", "NAME")?;
    Some(Job::Match { filter, name })
}

fn replay_job<'a>(matches: &ArgMatches<'a>) -> Option<Job<'a>>
    ensures { IfSome result (IsJobOf (subcommand_rows_of matches.now)) }
{
    let source = source_of(matches, "replay", "FILE")?;
    let image = given_of(matches, "replay", "SVG")?;
    match image {
        None => Some(Job::Replay { source }),
        Some(_) => None,
    }
}

fn draw_of<'a>(matches: &ArgMatches<'a>) -> Option<Draw<'a>>
    ensures { IfSome result (IsDraw (subcommand_rows_of matches.now)) }
{
    Some(Draw {
        source: source_of(matches, "replay", "FILE")?,
        image: word_of(matches, "replay", "SVG")?,
    })
}

fn random_job<'a>(matches: &ArgMatches<'a>) -> Option<Job<'a>>
    ensures { IfSome result (IsJobOf (subcommand_rows_of matches.now)) }
{
    let start = number_of(matches, "random", "START")?;
    let steps = count_of(matches, "random", "STEPS")?;
    Some(Job::Random { start, steps })
}

// The job of the command that was met.
fn job_of<'a>(matches: &ArgMatches<'a>) -> Option<Job<'a>>
    ensures { IfSome result (IsJobOf (subcommand_rows_of matches.now)) }
{
    if let Some(job) = show_job(matches) {
        return Some(job);
    }
    if let Some(job) = check_job(matches) {
        return Some(job);
    }
    if let Some(job) = match_job(matches) {
        return Some(job);
    }
    match replay_job(matches) {
        Some(job) => Some(job),
        None => random_job(matches),
    }
}

// The number of threads, 1 to 64.
fn workers_of(matches: &ArgMatches<'_>) -> Option<u8>
    ensures { IfSome result (λ workers.
        GivesNumber (subcommand_rows_of matches.now) (codes "serve") (codes "WORKERS") workers
        × (1 ≤ workers) × (workers ≤ 64)) }
{
    let workers = u8::try_from(number_of(matches, "serve", "WORKERS")?).ok()?;
    if workers == 0 || workers > MOST_WORKERS {
        return None;
    }
    Some(workers)
}

fn serve_of(matches: &ArgMatches<'_>) -> Option<Serve>
    ensures { IfSome result (IsServe (subcommand_rows_of matches.now)) }
{
    let port = port_of(matches, "serve")?;
    let connections = count_of(matches, "serve", "CONNECTIONS")?;
    let workers = workers_of(matches)?;
    Some(Serve {
        port,
        connections,
        workers,
    })
}

fn publish_with<'a>(matches: &ArgMatches<'a>, texts: Vec<&'a str>) -> Option<Publish<'a>>
    ensures { IfSome result (λ publish. (publish.texts ≡ texts.entry)
        × (GivesTexts (subcommand_rows_of matches.now) (codes "publish") (codes "TEXT")
        (map (λ text. text.now) texts.entry.items)
        → IsPublish (subcommand_rows_of matches.now) publish)) }
{
    let session = given_of(matches, "publish", "SESSION")?;
    let forget = flag_of(matches, "publish", "FORGET")?;
    if session.is_none() && (texts.is_empty() || forget) {
        return None;
    }
    Some(Publish {
        port: port_of(matches, "publish")?,
        id: id_of(matches, "publish")?,
        topic: word_of(matches, "publish", "TOPIC")?,
        qos: qos_of(matches, "publish")?,
        retain: flag_of(matches, "publish", "RETAIN")?,
        session,
        forget,
        texts,
    })
}

fn publish_of<'a>(
    alloc: Global,
    matches: &ArgMatches<'a>,
) -> Result<Option<Publish<'a>>, AllocError>
    ensures { IfOk result (λ found. IfSome found
        (IsPublish (subcommand_rows_of matches.now))) }
{
    match texts_of(alloc, matches, "publish", "TEXT")? {
        Some(texts) => Ok(publish_with(matches, texts)),
        None => Ok(None),
    }
}

fn collect_of<'a>(matches: &ArgMatches<'a>) -> Option<Collect<'a>>
    ensures { IfSome result (IsCollect (subcommand_rows_of matches.now)) }
{
    Some(Collect {
        port: port_of(matches, "collect")?,
        id: id_of(matches, "collect")?,
        filter: word_of(matches, "collect", "FILTER")?,
        qos: qos_of(matches, "collect")?,
        count: count_of(matches, "collect", "COUNT")?,
        clean: flag_of(matches, "collect", "CLEAN")?,
    })
}

fn journal_of<'a>(matches: &ArgMatches<'a>) -> Option<&'a str>
    ensures { IfSome result (λ name.
        GivesWord (subcommand_rows_of matches.now) (codes "journal") (codes "FILE") name.now) }
{
    word_of(matches, "journal", "FILE")
}

fn password_of<'a>(matches: &ArgMatches<'a>) -> Option<&'a str>
    ensures { IfSome result (λ name.
        GivesWord (subcommand_rows_of matches.now) (codes "password") (codes "NAME") name.now) }
{
    word_of(matches, "password", "NAME")
}

fn loopback_of<'a>(matches: &ArgMatches<'a>) -> Option<Source<'a>>
    ensures { IfSome result
        (GivesSource (subcommand_rows_of matches.now) (codes "loopback") (codes "FILE")) }
{
    source_of(matches, "loopback", "FILE")
}

// Whether `completion bash` was given.
fn is_completion(matches: &ArgMatches<'_>) -> bool
    ensures { result ≡ true → GivesWord (subcommand_rows_of matches.now)
        (codes "completion") (codes "SHELL") (codes "bash") }
{
    match word_of(matches, "completion", "SHELL") {
        Some("bash") => true,
        _ => false,
    }
}

fn is_manual(matches: &ArgMatches<'_>) -> bool
    ensures { result ≡ true → IsMet (subcommand_rows_of matches.now) (codes "manual") }
{
    match given_of(matches, "manual", "help") {
        Some(_) => true,
        None => false,
    }
}

fn command_of<'a>(
    alloc: Global,
    matches: &ArgMatches<'a>,
) -> Result<Option<Command<'a>>, AllocError>
    ensures { IfOk result (λ found. IfSome found
        (IsCommandOf (subcommand_rows_of matches.now))) }
{
    if let Some(job) = job_of(matches) {
        return Ok(Some(Command::Job(job)));
    }
    if let Some(serve) = serve_of(matches) {
        return Ok(Some(Command::Serve(serve)));
    }
    if let Some(broker) = broker_of(matches) {
        return Ok(Some(Command::Broker(broker)));
    }
    if let Some(name) = journal_of(matches) {
        return Ok(Some(Command::Journal(name)));
    }
    if let Some(name) = password_of(matches) {
        return Ok(Some(Command::Password(name)));
    }
    if let Some(collect) = collect_of(matches) {
        return Ok(Some(Command::Collect(collect)));
    }
    if let Some(source) = loopback_of(matches) {
        return Ok(Some(Command::Loopback(source)));
    }
    if let Some(draw) = draw_of(matches) {
        return Ok(Some(Command::Draw(draw)));
    }
    if is_completion(matches) {
        return Ok(Some(Command::Completion));
    }
    if is_manual(matches) {
        return Ok(Some(Command::Manual));
    }
    match publish_of(alloc, matches)? {
        Some(publish) => Ok(Some(Command::Publish(publish))),
        None => Ok(None),
    }
}

// The error for arguments that the parser accepts although they are not a command.
fn complaint(matches: &ArgMatches<'_>) -> (&'static str, ErrorKind, &'static str) {
    match matches.subcommand_name() {
        Some("serve") => (
            "serve",
            ErrorKind::ValueValidation,
            "serve has 1 to 64 workers",
        ),
        Some("broker") => (
            "broker",
            ErrorKind::ValueValidation,
            broker_complaint(matches),
        ),
        Some("publish") if id_of(matches, "publish").is_none() => (
            "publish",
            ErrorKind::ValueValidation,
            "an ID has 65,535 bytes at most",
        ),
        Some("publish") => (
            "publish",
            ErrorKind::MissingRequiredArgument,
            match flag_of(matches, "publish", "FORGET") {
                Some(true) => "publish wants --session FILE with --forget",
                _ => "publish wants TEXT, or --session FILE",
            },
        ),
        Some("collect") => (
            "collect",
            ErrorKind::ValueValidation,
            "an ID has 65,535 bytes at most",
        ),
        Some("completion") => (
            "completion",
            ErrorKind::ValueValidation,
            "completion wants bash",
        ),
        _ => (
            "show",
            ErrorKind::MissingRequiredArgument,
            "show wants HEX or --file FILE, and not both",
        ),
    }
}

// The command of a command line, with the errors of the parser.
fn parsed<'a>(alloc: Global, words: &'a [&'a str]) -> Result<Command<'a>, WordsFault>
    ensures { IfOk result
        (IsCommandOf (subcommand_of program_words (map (λ word. word.now) words.entry.now))) }
{
    let mut line = command_line(alloc)?;
    let matches = line.try_get_matches_from_mut(words)?;
    match command_of(alloc, &matches)? {
        Some(command) => Ok(command),
        None => {
            let (name, kind, message) = complaint(&matches);
            Err(shown_command(alloc, name)?.error(kind, message)?.into())
        }
    }
}

/// Parses the arguments of a command line; the first is the program's name. An error has the text
/// for the user, or says that an allocation failed; the parser decides which arguments it refuses.
pub fn job<'a>(alloc: Global, words: &'a [&'a str]) -> Result<Command<'a>, WordsFault>
    ensures { IfOk result
        (IsCommandOf (subcommand_of program_words (map (λ word. word.now) words.entry.now))) }
{
    match parsed(alloc, words) {
        Err(WordsFault::Words(error)) => Err(advised(alloc, words, error)),
        done => done,
    }
}
