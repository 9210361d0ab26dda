//! The arguments and names of commands.

ghost use Rattle.std.specs.Prelude.{◌≡◌};
ghost use Rattle.clap.specs.Words.{shape_of};
ghost use Rattle.mq_manual.specs.Completion.{own_name};

use clap::{Arg, Command};
use std::alloc::{AllocError, Global};

/// The name of a command without that of its program.
pub(crate) fn name_of<'a>(command: &Command<'a>) -> &'a str
    ensures { result.now ≡ own_name (shape_of command.now).name }
{
    let name = command.get_name();
    match name.split_once(' ') {
        Some((_, own)) => own,
        None => name,
    }
}

/// The value that an option takes, as its help shows it, for example ` <FILE>`. Empty if it takes
/// none. The command of the option must be built.
pub(crate) fn value_of(alloc: Global, option: &Arg<'_>) -> Result<String, AllocError> {
    let shown = format!(in alloc; "{option}")?;
    match shown.as_str().split_once(' ') {
        Some((_, value)) => format!(in alloc; " {value}"),
        None => Ok(String::new(alloc)),
    }
}
