//! The manual page.

ghost use Rattle.std.specs.Prelude.{◌≡◌, ◌++◌, ℕ, List, OnOk, IfOk, codes, string_bytes};
ghost use Rattle.clap.specs.Words.{rule_of};
ghost use Rattle.mq_manual.specs.Manual.{AreSections, HasEntries, IsCompleted, IsEntry, IsPage, IsSection, about_of, help_of, is_listed, long_tag, short_tag, tag};

use crate::arguments::value_of;
use crate::roff::{push_block, push_bold, push_italic, push_line, push_plain, push_request};
use clap::{Arg, Command};
use std::alloc::{AllocError, Global};

// Appends a short name.
fn push_short(page: &mut String, alloc: Global, short: char) -> Result<(), AllocError>
    ensures { OnOk result (string_bytes page.new ≡ string_bytes page.old ++ short_tag short) }
{
    let name = format!(in alloc; "-{short}")?;
    push_bold(page, name.as_str())
}

// Appends a long name.
fn push_long(page: &mut String, alloc: Global, long: &str) -> Result<(), AllocError>
    ensures { OnOk result (string_bytes page.new ≡ string_bytes page.old ++ long_tag long.now) }
{
    let name = format!(in alloc; "--{long}")?;
    push_bold(page, name.as_str())
}

// Appends the names of an argument.
fn push_names(page: &mut String, alloc: Global, arg: &Arg<'_>) -> Result<(), AllocError>
    ensures { OnOk result (string_bytes page.new
        ≡ string_bytes page.old ++ tag (rule_of arg.now).short (rule_of arg.now).long) }
{
    match (arg.get_short(), arg.get_long()) {
        (Some(short), Some(long)) => {
            push_short(page, alloc, short)?;
            page.push_str(", ")?;
            push_long(page, alloc, long)
        }
        (Some(short), None) => push_short(page, alloc, short),
        (None, Some(long)) => push_long(page, alloc, long),
        (None, None) => Ok(()),
    }
}

// The value that an argument takes, as its help shows it.
fn shown_value(alloc: Global, arg: &Arg<'_>) -> Result<String, AllocError> {
    if arg.is_positional() {
        format!(in alloc; "{arg}")
    } else {
        value_of(alloc, arg)
    }
}

// The help of an argument.
fn help_of<'a>(arg: &Arg<'a>) -> &'a str
    ensures { result.now ≡ help_of arg.now }
{
    match arg.get_help() {
        Some(help) => help,
        None => "",
    }
}

// The description of a command.
fn about_of<'a>(command: &Command<'a>) -> &'a str
    ensures { result.now ≡ about_of command.now }
{
    match command.get_about() {
        Some(about) => about,
        None => "",
    }
}

// Appends the entry of an argument.
fn push_entry(page: &mut String, alloc: Global, arg: &Arg<'_>) -> Result<(), AllocError>
    ensures { OnOk result ((entry : List ℕ) × IsEntry arg.now entry
        × (string_bytes page.new ≡ string_bytes page.old ++ entry)) }
{
    page.push_str(".TP\n")?;
    push_names(page, alloc, arg)?;
    let value = shown_value(alloc, arg)?;
    push_italic(page, value.as_str())?;
    page.push_str("\n")?;
    push_line(page, help_of(arg))?;
    Ok(())
}

// Whether an argument is listed among those without names, or among those with names.
fn is_listed(arg: &Arg<'_>, without_names: bool) -> bool
    ensures { result ≡ is_listed without_names arg.now }
{
    if without_names {
        arg.is_positional()
    } else {
        !arg.is_positional()
    }
}

// Appends the arguments of a command without names, or those with names.
fn push_args(
    page: &mut String,
    alloc: Global,
    command: &Command<'_>,
    without_names: bool,
) -> Result<(), AllocError>
    ensures { OnOk result ((entries : List ℕ) × HasEntries without_names command.now entries
        × (string_bytes page.new ≡ string_bytes page.old ++ entries)) }
{
    for arg in command.get_arguments() {
        if is_listed(arg, without_names) {
            push_entry(page, alloc, arg)?;
        }
    }
    Ok(())
}

// The text behind the options in the help of a command.
fn end_of(help: &str) -> &str {
    match help.split_once("\nOptions:\n") {
        Some((_, options)) => match options.split_once("\n\n") {
            Some((_, end)) => end,
            None => "",
        },
        None => "",
    }
}

// Appends the end of the help of a command.
fn push_end(page: &mut String, command: &mut Command<'_>) -> Result<(), AllocError>
    ensures { OnOk result ((end : List ℕ)
        × (string_bytes page.new ≡ string_bytes page.old ++ end)) }
{
    let help = command.render_help()?;
    let end = end_of(help.as_str());
    if end.is_empty() {
        return Ok(());
    }
    push_block(page, end)
}

// The usage of a command, without its title.
fn usage_of(alloc: Global, command: &mut Command<'_>) -> Result<String, AllocError>
    ensures { OnOk result (IsCompleted command.old command.new) }
{
    let usage = command.render_usage()?;
    match usage.as_str().strip_prefix("Usage: ") {
        Some(usage) => String::from_str(alloc, usage),
        None => Ok(usage),
    }
}

// Appends the section of a command.
fn push_command(
    page: &mut String,
    alloc: Global,
    command: &mut Command<'_>,
) -> Result<(), AllocError>
    ensures { OnOk result ((section : List ℕ) × IsSection command.old section
        × (string_bytes page.new ≡ string_bytes page.old ++ section)) }
{
    let usage = usage_of(alloc, command)?;
    push_request(page, "SS", usage.as_str())?;
    push_line(page, about_of(command))?;
    push_args(page, alloc, command, true)?;
    push_args(page, alloc, command, false)?;
    push_end(page, command)?;
    Ok(())
}

// Appends the sections of commands.
fn push_commands(
    page: &mut String,
    alloc: Global,
    commands: &mut [Command<'_>],
) -> Result<(), AllocError>
    ensures { OnOk result ((sections : List ℕ) × AreSections commands.old sections
        × (string_bytes page.new ≡ string_bytes page.old ++ sections)) }
{
    for command in commands {
        push_command(page, alloc, command)?;
    }
    Ok(())
}

// Appends the title, the name and the synopsis of a program.
fn push_title(page: &mut String, program: &Command<'_>, usage: &str) -> Result<(), AllocError>
    ensures { OnOk result ((title : List ℕ)
        × (string_bytes page.new ≡ string_bytes page.old ++ title)) }
{
    let (name, version) = (program.get_name(), program.get_version().unwrap_or(""));
    writeln!(
        page,
        ".TH \"{name}\" 1 \"\" \"{name} {version}\" \"User Commands\""
    )?;
    page.push_str(".nh\n.ad l\n.SH NAME\n")?;
    write!(page, "{name} \\- ")?;
    push_plain(page, about_of(program))?;
    page.push_str("\n.SH SYNOPSIS\n")?;
    push_line(page, usage)
}

/// A manual page about a program and its commands.
pub fn manual_page(
    alloc: Global,
    program: &mut Command<'_>,
    commands: &mut [Command<'_>],
) -> Result<String, AllocError>
    ensures { IfOk result (λ page. IsPage program.old commands.old (string_bytes page)) }
{
    let mut page = String::from_str(alloc, ".\\\" Printed by `mqtt manual`.\n")?;
    let usage = usage_of(alloc, program)?;
    push_title(&mut page, program, usage.as_str())?;
    page.push_str(".SH OPTIONS\n")?;
    push_args(&mut page, alloc, program, false)?;
    page.push_str(".SH COMMANDS\n")?;
    push_commands(&mut page, alloc, commands)?;
    page.push_str(".SH NOTES\n")?;
    push_end(&mut page, program)?;
    Ok(page)
}
