//! The completion script for bash.

ghost use Rattle.std.specs.Prelude.{◌≡◌, ◌++◌, ℕ, List, IfOk, OnOk, codes, string_bytes};
ghost use Rattle.std.specs.List.{list_any};
ghost use Rattle.clap.specs.Simple.{is_positional};
ghost use Rattle.clap.specs.Words.{rule_of, shape_of};
ghost use Rattle.mq_manual.specs.Completion.{AreCases, IsCase, IsScript, case_text, first_line, help_line, offer, option_names, options, script_text, spaced_name, spaced_names};

use crate::arguments::{name_of, value_of};
use clap::{Arg, Command};
use std::alloc::{AllocError, Global};

/// The start of the script. `word` is the word to complete, and `before` the one before it.
const START: &str =
    "# Completes the commands and options of mqtt in bash. Printed by `mqtt completion bash`.
_mqtt() {
    local word=${COMP_WORDS[COMP_CWORD]} before= words=
    if [ \"$COMP_CWORD\" -gt 1 ]; then
        before=${COMP_WORDS[COMP_CWORD - 1]}
    fi
    COMPREPLY=()
    case $COMP_CWORD:${COMP_WORDS[1]} in
";

/// The values of the argument of `completion`.
const SHELLS: &str =
    "    2:completion) case $word in -*) words='-h --help' ;; *) words='bash' ;; esac ;;
";

/// The end of the script. Without a word of the command, bash completes names of files.
const END: &str = "    esac
    COMPREPLY=($(compgen -W \"$words\" -- \"$word\"))
}
complete -o default -F _mqtt mqtt
";

// Appends the names of an option, each after this separator.
fn push_names(text: &mut String, option: &Arg<'_>, separator: &str) -> Result<(), AllocError>
    ensures { OnOk result (string_bytes text.new
        ≡ string_bytes text.old ++ option_names separator.now (rule_of option.now)) }
{
    if let Some(short) = option.get_short() {
        write!(text, "{separator}-{short}")?;
    }
    if let Some(long) = option.get_long() {
        write!(text, "{separator}--{long}")?;
    }
    Ok(())
}

// The names of the options of a command, each after a space.
fn options_of(alloc: Global, command: &Command<'_>) -> Result<String, AllocError>
    ensures { IfOk result (λ names. string_bytes names ≡ options (shape_of command.now)) }
{
    let mut names = String::new(alloc);
    for arg in command.get_arguments() {
        push_names(&mut names, arg, " ")?;
    }
    Ok(names)
}

// The names of the options of a command that take a value, each after a bar.
fn valued_options_of(alloc: Global, command: &Command<'_>) -> Result<String, AllocError> {
    let mut names = String::new(alloc);
    for arg in command.get_arguments() {
        if !value_of(alloc, arg)?.is_empty() {
            push_names(&mut names, arg, "|")?;
        }
    }
    Ok(names)
}

// Whether a command has an argument without a name.
fn has_positional(command: &Command<'_>) -> bool
    ensures { result ≡ list_any is_positional (shape_of command.now).rules }
{
    for arg in command.get_arguments() {
        if arg.is_positional() {
            return true;
        }
    }
    false
}

// Appends the line that completes the value of an option as the name of a file.
fn push_values(script: &mut String, alloc: Global, command: &Command<'_>) -> Result<(), AllocError>
    ensures { OnOk result ((values : List ℕ)
        × (string_bytes script.new ≡ string_bytes script.old ++ values)) }
{
    let valued = valued_options_of(alloc, command)?;
    match valued.as_str().strip_prefix('|') {
        Some(names) => writeln!(script, "        case $before in {names}) return ;; esac"),
        None => Ok(()),
    }
}

// Appends the words that are offered. An argument without a name is completed as that of a file.
fn push_offer(script: &mut String, has_positional: bool, words: &str) -> Result<(), AllocError>
    ensures { OnOk result (string_bytes script.new
        ≡ string_bytes script.old ++ offer has_positional words.now) }
{
    if has_positional {
        writeln!(script, "        case $word in -*) words='{words}' ;; esac")
    } else {
        writeln!(script, "        words='{words}'")
    }
}

// Appends the case of a command.
fn push_case(script: &mut String, alloc: Global, command: &Command<'_>) -> Result<(), AllocError>
    ensures { OnOk result ((values : List ℕ) × (string_bytes script.new
        ≡ string_bytes script.old ++ case_text (shape_of command.now) values)) }
{
    let name = name_of(command);
    writeln!(script, "    *:{name})")?;
    push_values(script, alloc, command)?;
    let options = options_of(alloc, command)?;
    push_offer(
        script,
        has_positional(command),
        options.as_str().trim_start(),
    )?;
    script.push_str("        ;;\n")?;
    Ok(())
}

// Appends the name of a command after a space to a text, and its case to another.
fn push_command(
    names: &mut String,
    cases: &mut String,
    alloc: Global,
    command: &mut Command<'_>,
) -> Result<(), AllocError>
    ensures names { OnOk result (string_bytes names.new
        ≡ string_bytes names.old ++ spaced_name command.old) }
    ensures cases { OnOk result ((case : List ℕ) × IsCase command.old case
        × (string_bytes cases.new ≡ string_bytes cases.old ++ case)) }
{
    command.build()?;
    write!(names, " {}", name_of(command))?;
    push_case(cases, alloc, command)?;
    Ok(())
}

// Appends the names of commands, each after a space, to a text, and their cases to another.
fn push_commands(
    names: &mut String,
    cases: &mut String,
    alloc: Global,
    commands: &mut [Command<'_>],
) -> Result<(), AllocError>
    ensures names { OnOk result (string_bytes names.new
        ≡ string_bytes names.old ++ spaced_names commands.old) }
    ensures cases { OnOk result ((text : List ℕ) × AreCases commands.old text
        × (string_bytes cases.new ≡ string_bytes cases.old ++ text)) }
{
    for command in commands {
        push_command(names, cases, alloc, command)?;
    }
    Ok(())
}

// Appends the words that are offered first.
fn push_first_line(script: &mut String, names: &str, options: &str) -> Result<(), AllocError>
    ensures { OnOk result (string_bytes script.new
        ≡ string_bytes script.old ++ first_line names.now options.now) }
{
    writeln!(script, "    1:*) words='help{names}{options}' ;;")
}

// Appends the words that are offered after `help`.
fn push_help_line(script: &mut String, names: &str) -> Result<(), AllocError>
    ensures { OnOk result (string_bytes script.new
        ≡ string_bytes script.old ++ help_line names.now) }
{
    writeln!(script, "    2:help) words='{names}' ;;")
}

// The script of these names of commands, names of the program's options, and cases.
fn script_of(alloc: Global, names: &str, options: &str, cases: &str) -> Result<String, AllocError>
    ensures { IfOk result (λ script.
        string_bytes script ≡ script_text names.now options.now cases.now) }
{
    let mut script = String::from_str(alloc, START)?;
    push_first_line(&mut script, names, options)?;
    push_help_line(&mut script, names.trim_start())?;
    script.push_str(SHELLS)?;
    script.push_str(cases)?;
    script.push_str(END)?;
    Ok(script)
}

/// A script for bash that completes the commands of the program `mqtt` and their options.
pub fn completion_script(
    alloc: Global,
    program: &mut Command<'_>,
    commands: &mut [Command<'_>],
) -> Result<String, AllocError>
    ensures { IfOk result (λ script.
        IsScript program.old commands.old (string_bytes script)) }
{
    let mut names = String::new(alloc);
    let mut cases = String::new(alloc);
    push_commands(&mut names, &mut cases, alloc, commands)?;
    program.build()?;
    let options = options_of(alloc, program)?;
    let script = script_of(alloc, names.as_str(), options.as_str(), cases.as_str())?;
    Ok(script)
}
