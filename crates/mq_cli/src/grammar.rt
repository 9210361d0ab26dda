//! The definition of the command line: the commands with their arguments, and the help texts.

ghost use Rattle.std.specs.Prelude.{◌≡◌, false, codes, map, IfOk, IfSome};
ghost use Rattle.mq_cli.specs.Prelude.{App, Shape, app_of, new_app, rule_of, shape_of, with_rule, with_subcommand, out-Command, bare_words, check_words, client_words, collect_words, command_named, file_rule, flag_rule, job_words, lenient_rule, match_words, number_rule, port_rule, program_words, publish_words, qos_rule, random_words, replay_words, serve_words, served_words, show_words, socket_words, stream_words, text_rule, texts_rule, word_words};

use crate::broker::broker_command;
use clap::builder::ValueParser;
use clap::{Arg, ArgAction, Command, value_parser};
use std::alloc::{AllocError, Global};

/// The codes and the exit statuses, for the help.
const CODES_AND_STATUSES: &str = "Codes of a topic filter or topic name (`filter N..`, `name N..`):
  N1 empty                          N4 `+` or `#` in a topic name
  N2 contains U+0000                N5 a `+` that is not alone in its level
  N3 more than 65,535 bytes         N6 a `#` that is not alone in the last level

Status:
  0  success
  1  a fault, an incomplete packet, `no`, a failed or closed connection, or an unsaved session
  2  arguments, digits, a file, a filter, a name or a line of a file that can't be read
  3  out of memory
  4  the output failed or was closed

`mqtt pub` and `mqtt sub` have the options of mosquitto_pub and mosquitto_sub.";

/// The end of the help of `match`.
const MATCH_END: &str = "Codes of an invalid argument:
  N1 empty                          N4 `+` or `#` in NAME
  N2 contains U+0000                N5 a `+` that is not alone in its level
  N3 more than 65,535 bytes         N6 a `#` that is not alone in the last level

Example: mqtt match 'sport/#' sport";

/// The end of the help of `publish`.
const PUBLISH_END: &str = "Codes of an invalid topic: N1 empty, N2 contains U+0000, N3 more than
65,535 bytes, N4 contains `+` or `#`.

`closed C4` means that the broker has no session although the session file records one. It is
unknown which pending messages arrived. Each further run reports it, until --forget gives up
the pending messages or the file is removed.

Example: mqtt publish --port 1883 --id p --topic a/b --qos 2 hi yo";

/// The end of the help of `collect`.
const COLLECT_END: &str = "Codes of an invalid filter: N1 empty, N2 contains U+0000, N3 more than
65,535 bytes, N5 a `+` that is not alone in its level, N6 a `#` that is not alone in the last
level.

Example: mqtt collect --port 1883 --id c --filter 'a/#' --qos 2 --count 2";

// The help texts of a command.
#[derive(Clone, Copy)]
pub(crate) struct Texts<'a> {
    pub(crate) name: &'a str,
    pub(crate) about: &'a str,
    pub(crate) example: &'a str,
}

// A command with one required argument.
fn word_command<'a>(
    alloc: Global,
    texts: Texts<'a>,
    word: &'a str,
    help: &'a str,
) -> Result<Command<'a>, AllocError>
    ensures words { IfOk result
        (λ command. app_of command ≡ word_words texts.entry.name.now word.now) }
    ensures local { IfOk result (λ command. (out-Command command).has_globals ≡ false) }
{
    let word = Arg::new(alloc, word).help(help).required(true);
    new_command(alloc, texts).arg(word)
}

// A command without arguments.
pub(crate) fn new_command<'a>(alloc: Global, texts: Texts<'a>) -> Command<'a>
    ensures words { app_of result ≡ new_app texts.entry.name.now }
    ensures local { (out-Command result).has_globals ≡ false }
{
    Command::new(alloc, texts.name)
        .about(texts.about)
        .after_help(texts.example)
}

// Adds an argument.
pub(crate) fn with_arg<'a>(command: Command<'a>, arg: Arg<'a>) -> Result<Command<'a>, AllocError>
    requires { arg.global ≡ false }
    ensures words { IfOk result
        (λ new. app_of new ≡ with_rule (app_of command.entry) (rule_of arg.entry)) }
    ensures local { IfOk result (λ new. (out-Command new).has_globals
        ≡ (out-Command command.entry).has_globals) }
{
    command.arg(arg)
}

// Adds a command. It alone drops the values that a command owns.
fn with_command<'a>(
    line: Command<'a>,
    command: Result<Command<'a>, AllocError>,
) -> Result<Command<'a>, AllocError>
    requires { IfOk command (λ c. (out-Command c).has_globals ≡ false) }
    ensures { (words : App) → IfOk command.entry (λ c. app_of c ≡ words)
        → IfOk result (λ new. app_of new ≡ with_subcommand (app_of line.entry) words.top) }
{
    match command {
        Ok(command) => line.subcommand(command),
        Err(error) => Err(error),
    }
}

// A flag.
pub(crate) fn flag<'a>(alloc: Global, word: &'a str, name: &'a str, help: &'a str) -> Arg<'a>
    ensures rule { rule_of result ≡ flag_rule word.now name.now }
    ensures local { result.global ≡ false }
{
    Arg::new(alloc, word)
        .long(name)
        .help(help)
        .action(ArgAction::SetTrue)
}

// The flag `--lenient`.
fn lenient_flag<'a>(alloc: Global) -> Arg<'a>
    ensures rule { rule_of result ≡ lenient_rule }
    ensures local { result.global ≡ false }
{
    let help = "Accepts remaining lengths with more bytes than necessary";
    flag(alloc, "LENIENT", "lenient", help)
}

// An optional file name.
pub(crate) fn file_option<'a>(alloc: Global, word: &'a str, name: &'a str, help: &'a str) -> Arg<'a>
    ensures rule { rule_of result ≡ file_rule word.now name.now }
    ensures local { result.global ≡ false }
{
    Arg::new(alloc, word).long(name).help(help)
}

// `show [--lenient] HEX`, or `--file FILE` in place of the digits.
fn show_command<'a>(alloc: Global) -> Result<Command<'a>, AllocError>
    ensures words { IfOk result (λ command. app_of command ≡ show_words) }
    ensures local { IfOk result (λ command. (out-Command command).has_globals ≡ false) }
{
    let texts = Texts {
        name: "show",
        about: "Prints the packets of a byte stream, one per line, and how the stream ends",
        example: "Example: mqtt show 62020001c000",
    };
    let digits = Arg::new(alloc, "HEX").help(
        "The bytes, two hexadecimal digits each; `-` reads them from standard input",
    );
    let name = "Reads the bytes of this file instead; `-` is standard input";
    let command = with_arg(new_command(alloc, texts), digits)?;
    let command = with_arg(command, file_option(alloc, "FILE", "file", name))?;
    with_arg(command, lenient_flag(alloc))
}

// `check [--lenient] FILE`.
fn check_command<'a>(alloc: Global) -> Result<Command<'a>, AllocError>
    ensures words { IfOk result (λ command. app_of command ≡ check_words) }
    ensures local { IfOk result (λ command. (out-Command command).has_globals ≡ false) }
{
    let texts = Texts {
        name: "check",
        about: "Counts the packets of a file, and prints how it ends",
        example: "Example: mqtt check stream.bin",
    };
    let file = "The file to read; `-` is standard input";
    let command = word_command(alloc, texts, "FILE", file)?;
    with_arg(command, lenient_flag(alloc))
}

// `match FILTER NAME`.
fn match_command<'a>(alloc: Global) -> Result<Command<'a>, AllocError>
    ensures words { IfOk result (λ command. app_of command ≡ match_words) }
    ensures local { IfOk result (λ command. (out-Command command).has_globals ≡ false) }
{
    let texts = Texts {
        name: "match",
        about: "Prints whether a topic filter matches a topic name",
        example: MATCH_END,
    };
    let command = word_command(alloc, texts, "FILTER", "The topic filter")?;
    let name = Arg::new(alloc, "NAME")
        .help("The topic name")
        .required(true);
    with_arg(command, name)
}

// `replay FILE [--svg SVG]`.
fn replay_command<'a>(alloc: Global) -> Result<Command<'a>, AllocError>
    ensures words { IfOk result (λ command. app_of command ≡ replay_words) }
    ensures local { IfOk result (λ command. (out-Command command).has_globals ≡ false) }
{
    let texts = Texts {
        name: "replay",
        about: "Replays a schedule between a client and a server and prints the result of each event",
        example: "Example: mqtt replay schedule.txt",
    };
    let file = "The schedule; `-` is standard input";
    let command = word_command(alloc, texts, "FILE", file)?;
    let image = "Draws the replay to this file, in SVG; a complete picture replaces the file";
    with_arg(command, file_option(alloc, "SVG", "svg", image))
}

// A required number.
fn number_option<'a>(
    alloc: Global,
    word: &'a str,
    name: &'a str,
    help: &'a str,
    kind: ValueParser<'a>,
) -> Arg<'a>
    ensures rule { rule_of result ≡ number_rule word.now name.now kind.entry }
    ensures local { result.global ≡ false }
{
    Arg::new(alloc, word)
        .long(name)
        .help(help)
        .value_parser(kind)
        .required(true)
}

// `random --start START --steps STEPS`.
fn random_command<'a>(alloc: Global) -> Result<Command<'a>, AllocError>
    ensures words { IfOk result (λ command. app_of command ≡ random_words) }
    ensures local { IfOk result (λ command. (out-Command command).has_globals ≡ false) }
{
    let texts = Texts {
        name: "random",
        about: "Prints a generated schedule for `replay`",
        example: "Example: mqtt random --start 7 --steps 300",
    };
    let seeds = "The start value; the same value gives the same schedule";
    let start = number_option(alloc, "START", "start", seeds, value_parser!(u64));
    let command = with_arg(new_command(alloc, texts), start)?;
    let counts = "The number of events";
    let steps = number_option(alloc, "STEPS", "steps", counts, value_parser!(u32));
    with_arg(command, steps)
}

// A required text.
fn text_option<'a>(alloc: Global, word: &'a str, name: &'a str, help: &'a str) -> Arg<'a>
    ensures rule { rule_of result ≡ text_rule word.now name.now }
    ensures local { result.global ≡ false }
{
    Arg::new(alloc, word).long(name).help(help).required(true)
}

// The option `--port PORT`.
fn port_option<'a>(alloc: Global, help: &'a str) -> Arg<'a>
    ensures rule { rule_of result ≡ port_rule }
    ensures local { result.global ≡ false }
{
    number_option(alloc, "PORT", "port", help, value_parser!(u16))
}

// The option `--qos QOS`.
fn qos_option<'a>(alloc: Global, help: &'a str) -> Arg<'a>
    ensures rule { rule_of result ≡ qos_rule }
    ensures local { result.global ≡ false }
{
    let kind = value_parser!(u8).range(0..=2);
    number_option(alloc, "QOS", "qos", help, kind)
}

// `serve --port PORT --connections CONNECTIONS --workers WORKERS`.
fn serve_command<'a>(alloc: Global) -> Result<Command<'a>, AllocError>
    ensures words { IfOk result (λ command. app_of command ≡ serve_words) }
    ensures local { IfOk result (λ command. (out-Command command).has_globals ≡ false) }
{
    let texts = Texts {
        name: "serve",
        about: "Runs a broker on this machine, and prints its sessions at the end",
        example: "Example: mqtt serve --port 1883 --connections 3 --workers 1",
    };
    let port = port_option(alloc, "The port to listen on; 0 picks a free one");
    let command = with_arg(new_command(alloc, texts), port)?;
    let counts = "The number of connections to serve before it ends";
    let kind = value_parser!(u32);
    let connections = number_option(alloc, "CONNECTIONS", "connections", counts, kind);
    let command = with_arg(command, connections)?;
    let threads = "The number of threads, 1 to 64";
    let kind = value_parser!(u8).range(1..=64);
    with_arg(
        command,
        number_option(alloc, "WORKERS", "workers", threads, kind),
    )
}

// A client command with the options for the broker, the client identifier, the topic and the QoS.
fn client_command<'a>(
    alloc: Global,
    texts: Texts<'a>,
    word: &'a str,
    name: &'a str,
    helps: [&'a str; 2],
) -> Result<Command<'a>, AllocError>
    ensures words { IfOk result (λ command.
        app_of command ≡ client_words texts.entry.name.now (text_rule word.now name.now)) }
    ensures local { IfOk result (λ command. (out-Command command).has_globals ≡ false) }
{
    let port = port_option(alloc, "The port of the broker on this machine");
    let command = with_arg(new_command(alloc, texts), port)?;
    let id = "The client identifier, at most 65,535 bytes";
    let command = with_arg(command, text_option(alloc, "ID", "id", id))?;
    let [topics, qos] = helps;
    let command = with_arg(command, text_option(alloc, word, name, topics))?;
    let qos = qos_option(alloc, qos);
    with_arg(command, qos)
}

// Any number of `TEXT` arguments.
fn texts_word<'a>(alloc: Global) -> Arg<'a>
    ensures rule { rule_of result ≡ texts_rule }
    ensures local { result.global ≡ false }
{
    Arg::new(alloc, "TEXT")
        .help("The texts, one message each; optional with --session. `-` is the text `-`")
        .action(ArgAction::Append)
}

// `publish --port PORT --id ID --topic TOPIC --qos QOS [--retain] [--session FILE [--forget]]
// TEXT..`.
fn publish_command<'a>(alloc: Global) -> Result<Command<'a>, AllocError>
    ensures words { IfOk result (λ command. app_of command ≡ publish_words) }
    ensures local { IfOk result (λ command. (out-Command command).has_globals ≡ false) }
{
    let texts = Texts {
        name: "publish",
        about: "Publishes texts as a client of a broker on this machine",
        example: PUBLISH_END,
    };
    let helps = [
        "The topic to publish to",
        "The quality of service to publish with",
    ];
    let command = client_command(alloc, texts, "TOPIC", "topic", helps)?;
    let retain = "Asks the broker to retain the last text for future subscribers";
    let command = with_arg(command, flag(alloc, "RETAIN", "retain", retain))?;
    let kept = "Keeps the session in this file, and continues it if the file exists";
    let command = with_arg(command, file_option(alloc, "SESSION", "session", kept))?;
    let forget = "Begins a new session, and gives up the pending messages of the one in the file";
    let command = with_arg(command, flag(alloc, "FORGET", "forget", forget))?;
    with_arg(command, texts_word(alloc))
}

// `collect --port PORT --id ID --filter FILTER --qos QOS --count COUNT [--clean]`.
fn collect_command<'a>(alloc: Global) -> Result<Command<'a>, AllocError>
    ensures words { IfOk result (λ command. app_of command ≡ collect_words) }
    ensures local { IfOk result (λ command. (out-Command command).has_globals ≡ false) }
{
    let texts = Texts {
        name: "collect",
        about: "Subscribes at a broker on this machine, and prints the messages",
        example: COLLECT_END,
    };
    let helps = [
        "The topic filter to subscribe to",
        "The maximum quality of service of the messages",
    ];
    let command = client_command(alloc, texts, "FILTER", "filter", helps)?;
    let counts = "The number of messages to wait for";
    let count = number_option(alloc, "COUNT", "count", counts, value_parser!(u32));
    let command = with_arg(command, count)?;
    let clean = "Starts with a clean session, which ends with the connection";
    with_arg(command, flag(alloc, "CLEAN", "clean", clean))
}

// `journal FILE`.
fn journal_command<'a>(alloc: Global) -> Result<Command<'a>, AllocError>
    ensures words { IfOk result
        (λ command. app_of command ≡ word_words (codes "journal") (codes "FILE")) }
    ensures local { IfOk result (λ command. (out-Command command).has_globals ≡ false) }
{
    let texts = Texts {
        name: "journal",
        about: "Prints the entries of a broker's journal, and how it ends",
        example: "Example: mqtt journal /var/lib/mqtt/journal.1",
    };
    word_command(
        alloc,
        texts,
        "FILE",
        "A file of the folder of `mqtt broker --data`",
    )
}

// `password NAME`.
fn password_command<'a>(alloc: Global) -> Result<Command<'a>, AllocError>
    ensures words { IfOk result
        (λ command. app_of command ≡ word_words (codes "password") (codes "NAME")) }
    ensures local { IfOk result (λ command. (out-Command command).has_globals ≡ false) }
{
    let texts = Texts {
        name: "password",
        about: "Reads a password from standard input, and prints a line for the file of --passwords",
        example: "Example: printf %s secret | mqtt password alice >> passwords.txt",
    };
    word_command(alloc, texts, "NAME", "The user name")
}

// `loopback FILE`.
fn loopback_command<'a>(alloc: Global) -> Result<Command<'a>, AllocError>
    ensures words { IfOk result
        (λ command. app_of command ≡ word_words (codes "loopback") (codes "FILE")) }
    ensures local { IfOk result (λ command. (out-Command command).has_globals ≡ false) }
{
    let texts = Texts {
        name: "loopback",
        about: "Runs a broker and clients in one process, and prints the messages that clients collect",
        example: "Example: mqtt loopback clients.txt",
    };
    let file = "The file with a line for each client; `-` is standard input";
    word_command(alloc, texts, "FILE", file)
}

// The command line without commands.
fn bare_line<'a>(alloc: Global) -> Command<'a>
    ensures { app_of result ≡ bare_words }
{
    Command::new(alloc, "mqtt")
        .version("0.1.0")
        .about("Reads and writes MQTT 3.1.1")
        .after_help(CODES_AND_STATUSES)
        .subcommand_required(true)
        .arg_required_else_help(true)
}

// The command line with the commands on streams of packets.
fn stream_commands<'a>(alloc: Global) -> Result<Command<'a>, AllocError>
    ensures { IfOk result (λ command. app_of command ≡ stream_words) }
{
    let line = with_command(bare_line(alloc), show_command(alloc))?;
    with_command(line, check_command(alloc))
}

// The command line with the commands that open no socket.
fn job_commands<'a>(alloc: Global) -> Result<Command<'a>, AllocError>
    ensures { IfOk result (λ command. app_of command ≡ job_words) }
{
    let line = stream_commands(alloc)?;
    let line = with_command(line, match_command(alloc))?;
    let line = with_command(line, replay_command(alloc))?;
    with_command(line, random_command(alloc))
}

// The command line with the commands of a broker and of its clients.
fn socket_commands<'a>(alloc: Global) -> Result<Command<'a>, AllocError>
    ensures { IfOk result (λ command. app_of command ≡ socket_words) }
{
    let line = job_commands(alloc)?;
    let line = with_command(line, serve_command(alloc))?;
    let line = with_command(line, publish_command(alloc))?;
    with_command(line, collect_command(alloc))
}

// `completion SHELL`.
fn completion_command<'a>(alloc: Global) -> Result<Command<'a>, AllocError>
    ensures words { IfOk result
        (λ command. app_of command ≡ word_words (codes "completion") (codes "SHELL")) }
    ensures local { IfOk result (λ command. (out-Command command).has_globals ≡ false) }
{
    let texts = Texts {
        name: "completion",
        about: "Prints a script that completes commands and options in a shell",
        example: "Example: source <(mqtt completion bash)",
    };
    word_command(alloc, texts, "SHELL", "The shell: bash")
}

// `manual`.
fn manual_command<'a>(alloc: Global) -> Result<Command<'a>, AllocError>
    ensures words { IfOk result (λ command. app_of command ≡ new_app (codes "manual")) }
    ensures local { IfOk result (λ command. (out-Command command).has_globals ≡ false) }
{
    let texts = Texts {
        name: "manual",
        about: "Prints a manual page",
        example: "Example: mqtt manual >mqtt.1; man -l mqtt.1",
    };
    Ok(new_command(alloc, texts))
}

// The command line without the commands that print texts about it.
fn served_commands<'a>(alloc: Global) -> Result<Command<'a>, AllocError>
    ensures { IfOk result (λ command. app_of command ≡ served_words) }
{
    let line = socket_commands(alloc)?;
    let line = with_command(line, broker_command(alloc))?;
    let line = with_command(line, journal_command(alloc))?;
    let line = with_command(line, password_command(alloc))?;
    with_command(line, loopback_command(alloc))
}

/// The whole command line.
pub fn command_line<'a>(alloc: Global) -> Result<Command<'a>, AllocError>
    ensures { IfOk result (λ command. app_of command ≡ program_words) }
{
    let line = served_commands(alloc)?;
    let line = with_command(line, completion_command(alloc))?;
    with_command(line, manual_command(alloc))
}

// The command with this text before its arguments in the usage line.
fn with_usage<'a>(
    command: Result<Command<'a>, AllocError>,
    usage: &str,
) -> Result<Command<'a>, AllocError>
    ensures { (shape : Shape) → IfOk command.entry (λ c. shape_of c ≡ shape)
        → IfOk result (λ new. shape_of new ≡ shape) }
{
    match command {
        Ok(command) => command.bin_name(usage),
        Err(error) => Err(error),
    }
}

/// The command of this name for the usage line of an error, or the whole command line.
pub(crate) fn shown_command<'a>(alloc: Global, name: &str) -> Result<Command<'a>, AllocError>
    ensures { IfOk result (λ command. IfSome (command_named name.now)
        (λ shape. shape_of command ≡ shape)) }
{
    match name {
        "show" => with_usage(show_command(alloc), "mqtt show"),
        "check" => with_usage(check_command(alloc), "mqtt check"),
        "match" => with_usage(match_command(alloc), "mqtt match"),
        "replay" => with_usage(replay_command(alloc), "mqtt replay"),
        "random" => with_usage(random_command(alloc), "mqtt random"),
        "serve" => with_usage(serve_command(alloc), "mqtt serve"),
        "publish" => with_usage(publish_command(alloc), "mqtt publish"),
        "collect" => with_usage(collect_command(alloc), "mqtt collect"),
        "broker" => with_usage(broker_command(alloc), "mqtt broker"),
        "journal" => with_usage(journal_command(alloc), "mqtt journal"),
        "password" => with_usage(password_command(alloc), "mqtt password"),
        "loopback" => with_usage(loopback_command(alloc), "mqtt loopback"),
        "completion" => with_usage(completion_command(alloc), "mqtt completion"),
        "manual" => with_usage(manual_command(alloc), "mqtt manual"),
        _ => command_line(alloc),
    }
}

/// Each command of the command line, with the usage line that its help shows.
pub fn command_list<'a>(alloc: Global) -> Result<Vec<Command<'a>>, AllocError>
    ensures { IfOk result (λ commands. map shape_of commands.items ≡ program_words.subs) }
{
    let line = command_line(alloc)?;
    let mut commands = Vec::new(alloc);
    for command in line.get_subcommands() {
        commands.push(shown_command(alloc, command.get_name())?)?;
    }
    Ok(commands)
}
