//! The arguments of `mqtt pub`.

ghost use Rattle.std.specs.Prelude.{◌≡◌, codes, map, option_map, string_bytes, IfOk};
ghost use Rattle.mq_pubsub_options.specs.Prelude.{first_value, found_of, one_text, Found, ArePayloads, IsCommon, IsDelay, IsFlag, IsKind, IsNumberOr, IsPublish, IsTopicOf};

use crate::address::Defaults;
use crate::common::{Common, common_of};
use crate::fault::OptionFault;
use crate::grammar::publish_command;
use crate::values::{all_of, duration_of, flag_of, name_of, said};
use clap::ArgMatches;
use mq_topic::TopicName;
use std::alloc::Global;

/// The payloads to publish.
#[derive(Debug, Drop)]
pub enum Payloads<'a> {
    /// These texts.
    Texts(Vec<&'a str>),
    /// The contents of the file of this name.
    File(&'a str),
    /// The standard input as one message.
    Whole,
    /// Each line of the standard input.
    Lines,
    /// One empty payload.
    Empty,
}

/// The arguments of `mqtt pub`.
#[derive(Drop)]
pub struct PublishWords<'a> {
    /// The options that `sub` has too.
    pub common: Common,
    /// The topic.
    pub topic: TopicName,
    /// The payloads.
    pub payloads: Payloads<'a>,
    /// The broker retains the last message.
    pub retain: bool,
    /// How many times the payloads are published.
    pub repeat: u32,
    /// The wait before each message but the first, in milliseconds.
    pub delay: u64,
}

// The payloads of the one kind that is there.
fn payloads_of<'a>(
    alloc: Global,
    texts: Vec<&'a str>,
    file: Option<&'a str>,
    whole: bool,
    lines: bool,
    empty: bool,
) -> Result<Payloads<'a>, OptionFault>
    ensures { IfOk result (IsKind (map (λ text. text.now) texts.entry.items)
        (option_map (λ name. name.now) file.entry) whole lines empty) }
{
    match (texts.is_empty(), file, whole, lines, empty) {
        (false, None, false, false, false) => Ok(Payloads::Texts(texts)),
        (true, Some(file), false, false, false) => Ok(Payloads::File(file)),
        (true, None, true, false, false) => Ok(Payloads::Whole),
        (true, None, false, true, false) => Ok(Payloads::Lines),
        (true, None, false, false, true) => Ok(Payloads::Empty),
        (true, None, false, false, false) => Err(said(
            alloc,
            "there is no message to publish: give -m TEXT, -f FILE, -s, -l or -n",
        )),
        _ => Err(said(
            alloc,
            "there is more than one kind of message: give only one of -m, -f, -s, -l and -n",
        )),
    }
}

// The payloads in the options.
fn payloads_in<'a>(alloc: Global, matches: &ArgMatches<'a>) -> Result<Payloads<'a>, OptionFault>
    ensures { IfOk result (ArePayloads (found_of matches.now)) }
{
    payloads_of(
        alloc,
        all_of(alloc, matches, "TEXT")?,
        matches.get_str("FILE"),
        flag_of(matches, "WHOLE"),
        flag_of(matches, "LINES"),
        flag_of(matches, "EMPTY"),
    )
}

// The topic of `-t`, or of `-L`.
fn topic_of(
    alloc: Global,
    matches: &ArgMatches<'_>,
    common: &Common,
) -> Result<TopicName, OptionFault>
    ensures { IfOk result (IsTopicOf (first_value (found_of matches.now) (codes "TOPIC"))
        (option_map string_bytes common.now.address.topic)) }
{
    if let Some(text) = matches.get_str("TOPIC") {
        return name_of(alloc, "-t", text);
    }
    match &common.address.topic {
        Some(text) => name_of(alloc, "-L", text.as_str()),
        None => Err(said(alloc, "there is no topic to publish to: give -t TOPIC")),
    }
}

// The number of times that the payloads are published.
fn repeat_of(matches: &ArgMatches<'_>) -> u32
    ensures { IsNumberOr 1 32 (one_text (found_of matches.now) (codes "REPEAT")) result }
{
    let repeat: Option<u32> = matches.get_one("REPEAT");
    repeat.unwrap_or(1)
}

// The options that `sub` does not have.
#[derive(Drop)]
struct Own<'a> {
    topic: TopicName,
    payloads: Payloads<'a>,
    retain: bool,
    repeat: u32,
    delay: u64,
}

fn own_of<'a>(
    alloc: Global,
    matches: &ArgMatches<'a>,
    common: &Common,
) -> Result<Own<'a>, OptionFault>
    ensures topic { IfOk result
        (λ own. IsTopicOf (first_value (found_of matches.now) (codes "TOPIC"))
        (option_map string_bytes common.now.address.topic) own.topic) }
    ensures payloads { IfOk result (λ own. ArePayloads (found_of matches.now) own.payloads) }
    ensures retain { IfOk result
        (λ own. IsFlag (one_text (found_of matches.now) (codes "RETAIN")) own.retain) }
    ensures repeat { IfOk result
        (λ own. IsNumberOr 1 32 (one_text (found_of matches.now) (codes "REPEAT")) own.repeat) }
    ensures delay { IfOk result
        (λ own. IsDelay (first_value (found_of matches.now) (codes "DELAY")) own.delay) }
{
    let delay = duration_of(alloc, matches, "DELAY", "--delay")?;
    let topic = topic_of(alloc, matches, common)?;
    let payloads = payloads_in(alloc, matches)?;
    Ok(Own {
        topic,
        payloads,
        retain: flag_of(matches, "RETAIN"),
        repeat: repeat_of(matches),
        delay: delay.unwrap_or(0),
    })
}

// The arguments that the parser matched.
fn matched<'a>(
    alloc: Global,
    matches: &ArgMatches<'a>,
    defaults: &Defaults,
) -> Result<PublishWords<'a>, OptionFault>
    ensures { IfOk result (IsPublish (found_of matches.now)) }
{
    let common = common_of(alloc, matches, defaults)?;
    match own_of(alloc, matches, &common) {
        Ok(own) => Ok(PublishWords {
            common,
            topic: own.topic,
            payloads: own.payloads,
            retain: own.retain,
            repeat: own.repeat,
            delay: own.delay,
        }),
        Err(fault) => {
            drop(common);
            Err(fault)
        }
    }
}

// Reads the arguments over these defaults.
fn read_words<'a>(
    alloc: Global,
    words: &'a [&'a str],
    defaults: &Defaults,
) -> Result<PublishWords<'a>, OptionFault>
    ensures { IfOk result (λ own. (given : Found) × IsPublish given own) }
{
    let command = publish_command(alloc)?.no_binary_name(true);
    let matches = command.try_get_matches_from(words)?;
    matched(alloc, &matches, defaults)
}

/// Reads the arguments of `mqtt pub`, without the name of the program and of the command.
pub fn publish_words<'a>(
    alloc: Global,
    words: &'a [&'a str],
    defaults: Defaults,
) -> Result<PublishWords<'a>, OptionFault>
    ensures { IfOk result (λ own. (given : Found) × IsPublish given own) }
{
    let read = read_words(alloc, words, &defaults);
    drop(defaults);
    read
}
