//! The arguments of both commands.

ghost use Rattle.std.specs.Prelude.{◌≡◌, IfOk};
ghost use Rattle.mq_pubsub_programs.specs.Prelude.{Found, IsPublish, IsSubscribe, IsFaultStatus, IsHelp};

use crate::common::defaults_of;
use crate::explain::{FAILED, NO_MEMORY};
use clap::Error as ParseError;
use mq_pubsub_options::{
    OptionFault, PublishWords, SubscribeWords, publish_words, subscribe_words,
};
use std::alloc::Global;
use std::rt::Env;

/// Reads the arguments of `mqtt pub`, without the name of the program and of the command. The
/// environment has the defaults of some.
pub fn publish_arguments<'a, R: Env + AllocGlobal>(
    rt: &R,
    alloc: Global,
    words: &'a [&'a str],
) -> Result<PublishWords<'a>, OptionFault>
    ensures { IfOk result (λ own. (given : Found) × IsPublish given own) }
{
    publish_words(alloc, words, defaults_of(rt))
}

/// Reads the arguments of `mqtt sub`, like [`publish_arguments`].
pub fn subscribe_arguments<R: Env + AllocGlobal>(
    rt: &R,
    alloc: Global,
    words: &[&str],
) -> Result<SubscribeWords, OptionFault>
    ensures { IfOk result (λ own. (given : Found) × IsSubscribe given own) }
{
    subscribe_words(alloc, words, defaults_of(rt))
}

// The status of a report of the parser: 0 if that is the help.
#[tactic(auto, using(crate::proofs::Helps::help, crate::proofs::Helps::no_help))]
fn parse_status(error: &ParseError) -> u8
    ensures help { IsHelp error.now → result ≡ 0 }
    ensures fault { ¬ IsHelp error.now → result ≡ 1 }
{
    if error.use_stderr() {
        return FAILED;
    }
    0
}

/// Prints why arguments are no command, or the help that they ask for. Returns the exit status.
pub fn report_fault<R: Print + Eprint>(rt: &R, command: &str, fault: OptionFault) -> u8
    ensures { IsFaultStatus fault result }
{
    match fault {
        OptionFault::Parse(error) => {
            let _ = error.print(rt);
            parse_status(&error)
        }
        OptionFault::Said(sentence) => {
            let sentence = sentence.as_str();
            let _ = eprintln!(rt; "mqtt {command}: {sentence}.");
            FAILED
        }
        OptionFault::Memory => {
            let _ = eprintln!(rt; "mqtt {command}: out of memory.");
            NO_MEMORY
        }
    }
}
