//! Errors in the arguments that give advice on the right ones.

use crate::grammar::{command_line, shown_command};
use crate::words::WordsFault;
use clap::Error as ParseError;
use clap::error::ErrorKind;
use std::alloc::{AllocError, Global};

/// An option with a number.
#[derive(Clone, Copy)]
struct NumberOption {
    word: &'static str,
    least: u64,
    most: u64,
}

// The option with a number that has this name.
fn number_option(name: &str) -> Option<NumberOption> {
    let (word, least, most) = match name {
        "--port" => ("PORT", 0, 65_535),
        "--qos" => ("QOS", 0, 2),
        "--workers" => ("WORKERS", 1, 64),
        "--connections" => ("CONNECTIONS", 0, 4_294_967_295),
        "--count" => ("COUNT", 0, 4_294_967_295),
        "--steps" => ("STEPS", 0, 4_294_967_295),
        "--start" => ("START", 0, u64::MAX),
        _ => return None,
    };
    Some(NumberOption { word, least, most })
}

// The command for a word that other programs use. `mqtt` handles `pub` and `sub` itself.
fn better_command(word: &str) -> Option<&'static str> {
    match word {
        "subscribe" => Some("collect"),
        _ => None,
    }
}

// The option of a command for one that other commands or programs have.
fn better_option(command: &str, name: &str) -> Option<&'static str> {
    match (command, name) {
        ("collect", "--topic" | "-t") => Some("--filter"),
        ("publish", "--filter" | "-t") => Some("--topic"),
        ("publish" | "collect", "-p") => Some("--port"),
        ("publish" | "collect", "-i") => Some("--id"),
        ("publish" | "collect", "-q") => Some("--qos"),
        ("publish", "-r") => Some("--retain"),
        _ => None,
    }
}

// The name of an option, without a value behind `=`.
fn name_of(word: &str) -> &str {
    match word.split_once('=') {
        Some((name, _)) => name,
        None => word,
    }
}

// The first argument that is an option of another command, and the right option.
fn foreign_option<'a>(command: &str, words: &[&'a str]) -> Option<(&'a str, &'static str)> {
    let mut rest = words;
    while let [word, more @ ..] = rest {
        let name = name_of(word);
        if let Some(better) = better_option(command, name) {
            return Some((name, better));
        }
        rest = more;
    }
    None
}

// Whether a text is a whole number that the option allows.
fn is_allowed(option: NumberOption, value: &str) -> bool {
    match value.parse::<u64>() {
        Ok(number) => option.least <= number && number <= option.most,
        Err(_) => false,
    }
}

// The value of the option in the first of these words.
fn value_of<'a>(word: &'a str, next: Option<&&'a str>) -> Option<&'a str> {
    match word.split_once('=') {
        Some((_, value)) => Some(value),
        None => next.copied(),
    }
}

// The first option whose value is not a number that it allows: its name, its range and the value.
fn bad_number<'a>(words: &[&'a str]) -> Option<(&'a str, NumberOption, &'a str)> {
    let mut rest = words;
    while let [word, more @ ..] = rest {
        let name = name_of(word);
        if let Some(option) = number_option(name) {
            let value = value_of(word, more.first())?;
            if !is_allowed(option, value) {
                return Some((name, option, value));
            }
        }
        rest = more;
    }
    None
}

// The argument that follows `-h`, as a value would.
fn after_help<'a>(words: &[&'a str]) -> Option<&'a str> {
    let mut rest = words;
    while let [word, more @ ..] = rest {
        match word.as_bytes() {
            [b'-', b'h'] => return more.first().copied(),
            [b'-', b'h', ..] => return Some(word),
            _ => {}
        }
        rest = more;
    }
    None
}

// The end of the advice on `-h` for a command, since other programs give a host with it.
fn host_tip(command: &str) -> &'static str {
    match command {
        "publish" | "collect" => "; the broker is always at 127.0.0.1",
        _ => "",
    }
}

// The advice for arguments after a command.
fn advice_on(
    alloc: Global,
    kind: ErrorKind,
    command: &str,
    words: &[&str],
) -> Result<Option<String>, AllocError> {
    match kind {
        ErrorKind::UnknownArgument => match foreign_option(command, words) {
            Some((name, better)) => Ok(Some(format!(in alloc;
                "unexpected argument '{name}' found\n\n  tip: {command} has '{better}'"
            )?)),
            None => Ok(None),
        },
        ErrorKind::ValueValidation => match bad_number(words) {
            Some((name, NumberOption { word, least, most }, value)) => Ok(Some(format!(in alloc;
                "invalid value '{value}' for '{name} <{word}>': not a number from {least} to {most}"
            )?)),
            None => Ok(None),
        },
        ErrorKind::DisplayHelp => match after_help(words) {
            Some(word) => Ok(Some(format!(in alloc;
                "unexpected argument '{word}' found\n\n  tip: '-h' prints help and has no value{}",
                host_tip(command)
            )?)),
            None => Ok(None),
        },
        _ => Ok(None),
    }
}

// A better error than that of the parser, if there is one.
fn better_error(
    alloc: Global,
    kind: ErrorKind,
    words: &[&str],
) -> Result<Option<ParseError>, AllocError> {
    let [_, command, rest @ ..] = words else {
        return Ok(None);
    };
    if kind == ErrorKind::InvalidSubcommand {
        let Some(better) = better_command(command) else {
            return Ok(None);
        };
        let text = format!(in alloc;
            "unrecognized subcommand '{command}'\n\n  tip: use '{better}'"
        )?;
        return Ok(Some(command_line(alloc)?.error(kind, text.as_str())?));
    }
    let Some(text) = advice_on(alloc, kind, command, rest)? else {
        return Ok(None);
    };
    let kind = match kind {
        ErrorKind::DisplayHelp => ErrorKind::UnknownArgument,
        kind => kind,
    };
    Ok(Some(shown_command(alloc, command)?.error(kind, text.as_str())?))
}

/// The error of the parser for these arguments, or one with advice in place of it.
pub(crate) fn advised(alloc: Global, words: &[&str], error: ParseError) -> WordsFault {
    match better_error(alloc, error.kind(), words) {
        Ok(Some(better)) => WordsFault::from(better),
        Ok(None) => WordsFault::Words(error),
        Err(_) => WordsFault::Memory,
    }
}
