//! The definition of the command lines.

ghost use Rattle.std.specs.Prelude.{◌≡◌, false, map, IfOk};
ghost use Rattle.mq_pubsub_options.specs.Prelude.{app_of, rule_of, with_rule, bare_app, common_rules, named_rule_of, number_rule, publish_app, rule_of_row, subscribe_app, text_rule, with_rules};

use clap::{Arg, ArgAction, Command, value_parser};
use std::alloc::{AllocError, Global};

/// The end of both helps.
const END: &str =
    "Environment: MQTT_HOST, MQTT_PORT, MQTT_USER and MQTT_PASSWORD stand in for -h, -p, -u and -P.

Status: 0 done; 1 an error, which standard error has in a sentence; 1 to 5 the broker's code of a
refused connection; 27 the time of -W is over.";

/// The values that an option takes.
#[derive(Clone, Copy)]
enum Kind {
    /// Prints the help.
    Help,
    /// One text. A later use replaces an earlier one.
    Text,
    /// The same, for an option that has this name too.
    Renamed(&'static str),
    /// One text for each use.
    Texts,
    /// A number with these bounds.
    Number(i64, i64),
    /// No value.
    Flag,
}

/// An option.
#[derive(Clone, Copy)]
struct Row {
    /// Its name in the code.
    id: &'static str,
    short: Option<char>,
    long: Option<&'static str>,
    kind: Kind,
    /// The name of its value in the help.
    value: &'static str,
    help: &'static str,
}

/// The options of both commands.
static COMMON: [Row; 19] = [
    Row {
        id: "HELP",
        short: None,
        long: Some("help"),
        kind: Kind::Help,
        value: "",
        help: "Prints this help",
    },
    Row {
        id: "HOST",
        short: Some('h'),
        long: Some("host"),
        kind: Kind::Text,
        value: "HOST",
        help: "The broker's name or address [default: localhost]",
    },
    Row {
        id: "PORT",
        short: Some('p'),
        long: Some("port"),
        kind: Kind::Number(1, 65_535),
        value: "PORT",
        help: "The broker's port [default: 1883]",
    },
    Row {
        id: "URL",
        short: Some('L'),
        long: Some("url"),
        kind: Kind::Text,
        value: "URL",
        help: "mqtt://[USER[:PASSWORD]@]HOST[:PORT]/TOPIC in place of -u, -P, -h, -p and -t",
    },
    Row {
        id: "USER",
        short: Some('u'),
        long: Some("username"),
        kind: Kind::Text,
        value: "USER",
        help: "The user name",
    },
    Row {
        id: "PASSWORD",
        short: Some('P'),
        long: Some("pw"),
        kind: Kind::Text,
        value: "PASSWORD",
        help: "The password; other users of this machine may see it, unlike --password-file",
    },
    Row {
        id: "PASSWORD_FILE",
        short: None,
        long: Some("password-file"),
        kind: Kind::Text,
        value: "FILE",
        help: "The first line of this file is the password",
    },
    Row {
        id: "ID",
        short: Some('i'),
        long: Some("id"),
        kind: Kind::Text,
        value: "ID",
        help: "The client identifier [default: generated]",
    },
    Row {
        id: "KEEP",
        short: Some('c'),
        long: Some("disable-clean-session"),
        kind: Kind::Flag,
        value: "",
        help: "Keeps the session at the broker after the end",
    },
    Row {
        id: "SESSION",
        short: None,
        long: Some("session"),
        kind: Kind::Text,
        value: "FILE",
        help: "Keeps the session in this file from run to run; implies -c",
    },
    Row {
        id: "KEEP_ALIVE",
        short: Some('k'),
        long: Some("keepalive"),
        kind: Kind::Number(0, 65_535),
        value: "SECONDS",
        help: "Keep-alive in seconds, 0 for none [default: 60]",
    },
    Row {
        id: "RETRY",
        short: None,
        long: Some("retry"),
        kind: Kind::Text,
        value: "SECONDS",
        help: "The longest wait before a new connection, or `never` [default: 30]",
    },
    Row {
        id: "TIMEOUT",
        short: Some('W'),
        long: Some("timeout"),
        kind: Kind::Text,
        value: "SECONDS",
        help: "Ends after this time with status 27",
    },
    Row {
        id: "WILL_TOPIC",
        short: None,
        long: Some("will-topic"),
        kind: Kind::Text,
        value: "TOPIC",
        help: "The topic to which the broker publishes a will if the connection is lost",
    },
    Row {
        id: "WILL_PAYLOAD",
        short: None,
        long: Some("will-payload"),
        kind: Kind::Text,
        value: "TEXT",
        help: "The payload of the will [default: empty]",
    },
    Row {
        id: "WILL_QOS",
        short: None,
        long: Some("will-qos"),
        kind: Kind::Number(0, 2),
        value: "QOS",
        help: "The quality of service of the will [default: 0]",
    },
    Row {
        id: "WILL_RETAIN",
        short: None,
        long: Some("will-retain"),
        kind: Kind::Flag,
        value: "",
        help: "The broker retains the will",
    },
    Row {
        id: "DEBUG",
        short: Some('d'),
        long: Some("debug"),
        kind: Kind::Flag,
        value: "",
        help: "Prints each packet to standard error",
    },
    Row {
        id: "QUIET",
        short: None,
        long: Some("quiet"),
        kind: Kind::Flag,
        value: "",
        help: "Prints no errors",
    },
];

/// The options of `mqtt pub`.
static PUBLISH: [Row; 10] = [
    Row {
        id: "TOPIC",
        short: Some('t'),
        long: Some("topic"),
        kind: Kind::Text,
        value: "TOPIC",
        help: "The topic to publish to",
    },
    Row {
        id: "QOS",
        short: Some('q'),
        long: Some("qos"),
        kind: Kind::Number(0, 2),
        value: "QOS",
        help: "The quality of service, 0 to 2 [default: 0]",
    },
    Row {
        id: "TEXT",
        short: Some('m'),
        long: Some("message"),
        kind: Kind::Texts,
        value: "TEXT",
        help: "Publishes this text; may be repeated",
    },
    Row {
        id: "FILE",
        short: Some('f'),
        long: Some("file"),
        kind: Kind::Text,
        value: "FILE",
        help: "Publishes the contents of this file",
    },
    Row {
        id: "WHOLE",
        short: Some('s'),
        long: Some("stdin-file"),
        kind: Kind::Flag,
        value: "",
        help: "Publishes standard input as one message",
    },
    Row {
        id: "LINES",
        short: Some('l'),
        long: Some("stdin-line"),
        kind: Kind::Flag,
        value: "",
        help: "Publishes each line of standard input as it arrives",
    },
    Row {
        id: "EMPTY",
        short: Some('n'),
        long: Some("null-message"),
        kind: Kind::Flag,
        value: "",
        help: "Publishes an empty message",
    },
    Row {
        id: "RETAIN",
        short: Some('r'),
        long: Some("retain"),
        kind: Kind::Flag,
        value: "",
        help: "The broker retains the last message",
    },
    Row {
        id: "REPEAT",
        short: None,
        long: Some("repeat"),
        kind: Kind::Number(0, 4_294_967_295),
        value: "N",
        help: "Publishes this many times; not with -l [default: 1]",
    },
    Row {
        id: "DELAY",
        short: None,
        long: Some("delay"),
        kind: Kind::Renamed("repeat-delay"),
        value: "SECONDS",
        help: "Waits this long before each message but the first",
    },
];

/// The options of `mqtt sub`.
static SUBSCRIBE: [Row; 11] = [
    Row {
        id: "TOPIC",
        short: Some('t'),
        long: Some("topic"),
        kind: Kind::Texts,
        value: "FILTER",
        help: "The topic filter to subscribe to; may be repeated",
    },
    Row {
        id: "QOS",
        short: Some('q'),
        long: Some("qos"),
        kind: Kind::Number(0, 2),
        value: "QOS",
        help: "The maximum quality of service, 0 to 2 [default: 0]",
    },
    Row {
        id: "EXCLUDED",
        short: Some('T'),
        long: Some("filter-out"),
        kind: Kind::Texts,
        value: "FILTER",
        help: "Prints no messages whose topic matches this filter; may be repeated",
    },
    Row {
        id: "GIVEN_UP",
        short: Some('U'),
        long: Some("unsubscribe"),
        kind: Kind::Texts,
        value: "FILTER",
        help: "Unsubscribes from this filter; may be repeated",
    },
    Row {
        id: "COUNT",
        short: Some('C'),
        long: None,
        kind: Kind::Number(1, 4_294_967_295),
        value: "COUNT",
        help: "Ends after this many messages",
    },
    Row {
        id: "FRESH",
        short: Some('R'),
        long: None,
        kind: Kind::Flag,
        value: "",
        help: "Prints no retained messages",
    },
    Row {
        id: "RETAINED",
        short: None,
        long: Some("retained-only"),
        kind: Kind::Flag,
        value: "",
        help: "Prints only retained messages, and ends at the first other one",
    },
    Row {
        id: "GRANTED",
        short: Some('E'),
        long: None,
        kind: Kind::Flag,
        value: "",
        help: "Ends once the subscriptions are granted",
    },
    Row {
        id: "VERBOSE",
        short: Some('v'),
        long: Some("verbose"),
        kind: Kind::Flag,
        value: "",
        help: "Prints the topic before each payload",
    },
    Row {
        id: "BARE",
        short: Some('N'),
        long: None,
        kind: Kind::Flag,
        value: "",
        help: "Prints no line end after a message",
    },
    Row {
        id: "FORMAT",
        short: Some('F'),
        long: None,
        kind: Kind::Text,
        value: "FORMAT",
        help: "Prints by this format: %t %p %x %X %q %r %l %m %I %U %j %%, @Y and such, \\n and such",
    },
];

// An argument with the names of a row.
fn named<'a>(alloc: Global, row: &Row) -> Arg<'a>
    ensures rule { rule_of result ≡ named_rule_of row.now }
    ensures local { result.global ≡ false }
{
    let arg = Arg::new(alloc, row.id).help(row.help);
    match (row.short, row.long) {
        (Some(short), Some(long)) => arg.short(short).long(long),
        (Some(short), None) => arg.short(short),
        (None, Some(long)) => arg.long(long),
        (None, None) => arg,
    }
}

// An argument with a text.
fn texted<'a>(alloc: Global, row: &Row) -> Arg<'a>
    ensures rule { rule_of result ≡ text_rule (named_rule_of row.now) }
    ensures local { result.global ≡ false }
{
    named(alloc, row)
        .value_name(row.value)
        .allow_hyphen_values(true)
}

// An argument with a number that has these bounds.
fn numbered<'a>(alloc: Global, row: &Row, least: i64, most: i64) -> Arg<'a>
    ensures rule { rule_of result ≡ number_rule least most (named_rule_of row.now) }
    ensures local { result.global ≡ false }
{
    named(alloc, row)
        .value_name(row.value)
        .value_parser(value_parser!(u32).range(least..=most))
}

// An argument of a row.
fn arg_of<'a>(alloc: Global, row: &Row) -> Result<Arg<'a>, AllocError>
    ensures rule { IfOk result (λ arg. rule_of arg ≡ rule_of_row row.now) }
    ensures local { IfOk result (λ arg. arg.global ≡ false) }
{
    match row.kind {
        Kind::Help => Ok(named(alloc, row).action(ArgAction::Help)),
        Kind::Text => Ok(texted(alloc, row)),
        Kind::Renamed(other) => texted(alloc, row).alias(other),
        Kind::Texts => Ok(texted(alloc, row).action(ArgAction::Append)),
        Kind::Number(least, most) => Ok(numbered(alloc, row, least, most)),
        Kind::Flag => Ok(named(alloc, row).action(ArgAction::SetTrue)),
    }
}

// Adds the argument of a row.
fn with_row<'a>(command: Command<'a>, alloc: Global, row: &Row) -> Result<Command<'a>, AllocError>
    ensures { IfOk result (λ new. app_of new ≡ with_rule (app_of command.entry) (rule_of_row row.now)) }
{
    match arg_of(alloc, row) {
        Ok(arg) => command.arg(arg),
        Err(error) => {
            drop(command);
            Err(error)
        }
    }
}

// Adds the arguments of rows.
fn with_rows<'a>(
    mut command: Command<'a>,
    alloc: Global,
    rows: &[Row],
) -> Result<Command<'a>, AllocError>
    ensures { IfOk result (λ new.
        app_of new ≡ with_rules (app_of command.entry) (map rule_of_row rows.now)) }
{
    for row in rows {
        command = with_row(command, alloc, row)?;
    }
    Ok(command)
}

// A command with the options that both have, and with these.
fn command_of<'a>(
    alloc: Global,
    name: &'static str,
    about: &'static str,
    rows: &[Row],
) -> Result<Command<'a>, AllocError>
    ensures { IfOk result (λ command. app_of command ≡ with_rules
        (with_rules (bare_app name.now) common_rules) (map rule_of_row rows.now)) }
{
    let command = Command::new(alloc, name)
        .about(about)
        .after_help(END)
        .disable_help_flag(true)
        .disable_version_flag(true)
        .args_override_self(true);
    with_rows(with_rows(command, alloc, &COMMON)?, alloc, rows)
}

/// The command line of `mqtt pub`.
pub fn publish_command<'a>(alloc: Global) -> Result<Command<'a>, AllocError>
    ensures { IfOk result (λ command. app_of command ≡ publish_app) }
{
    let about = "Publishes messages, and ends once the broker has acknowledged all of them";
    command_of(alloc, "mqtt pub", about, &PUBLISH)
}

/// The command line of `mqtt sub`.
pub fn subscribe_command<'a>(alloc: Global) -> Result<Command<'a>, AllocError>
    ensures { IfOk result (λ command. app_of command ≡ subscribe_app) }
{
    let about = "Subscribes, and prints the messages that arrive";
    command_of(alloc, "mqtt sub", about, &SUBSCRIBE)
}
