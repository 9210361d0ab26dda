//! Texts about the commands and their options.

use clap::Command;
use mq_cli::{Failure, command_line, command_list};
use mq_manual::{completion_script, manual_page};
use mq_pubsub_options::{publish_command, subscribe_command};
use std::alloc::{AllocError, Global};
use std::io;
use std::io::{BufWriter, Write};

// Each command.
fn all_commands<'a>(alloc: Global) -> Result<Vec<Command<'a>>, AllocError> {
    let mut commands = command_list(alloc)?;
    commands.push(publish_command(alloc)?)?;
    commands.push(subscribe_command(alloc)?)?;
    Ok(commands)
}

// Prints a text to the standard output.
fn print_text(rt: &HostRuntime, text: &str) -> Result<u8, Failure> {
    let mut output = BufWriter::new(rt.alloc(), io::writer(rt))?;
    output.write_all(text.as_bytes())?;
    output.flush()?;
    Ok(0)
}

/// Prints the script that completes commands and options in bash.
pub(crate) fn print_script(rt: &HostRuntime) -> Result<u8, Failure> {
    let alloc = rt.alloc();
    let (mut program, mut commands) = (command_line(alloc)?, all_commands(alloc)?);
    let script = completion_script(alloc, &mut program, commands.as_mut_slice())?;
    print_text(rt, script.as_str())
}

/// Prints the manual page.
pub(crate) fn print_manual(rt: &HostRuntime) -> Result<u8, Failure> {
    let alloc = rt.alloc();
    let (mut program, mut commands) = (command_line(alloc)?, all_commands(alloc)?);
    let page = manual_page(alloc, &mut program, commands.as_mut_slice())?;
    print_text(rt, page.as_str())
}
