//! Values of options.

ghost use Rattle.std.specs.Prelude.{◌≡◌, ◌++◌, ◌∷◌, [], map, option_map, string_bytes, IfOk, OnOk};
ghost use Rattle.mq_pubsub_options.specs.Prelude.{first_value, found_of, one_text, IsFlag, IsQuality, IsTime, texts_of};

use crate::fault::OptionFault;
use crate::seconds::milliseconds_of;
use clap::ArgMatches;
use mq_topic::{Qos, TopicFault, TopicFilter, TopicName};
use std::alloc::{AllocError, Global};

/// A text of its own, if an option was given.
pub(crate) fn owned(
    alloc: Global,
    matches: &ArgMatches<'_>,
    id: &str,
) -> Result<Option<String>, AllocError>
    ensures { IfOk result (λ text. option_map string_bytes text
        ≡ first_value (found_of matches.now) id.now) }
{
    match matches.get_str(id) {
        Some(text) => Ok(Some(String::from_str(alloc, text)?)),
        None => Ok(None),
    }
}

/// The texts of an option that may be repeated.
pub(crate) fn all_of<'a>(
    alloc: Global,
    matches: &ArgMatches<'a>,
    id: &str,
) -> Result<Vec<&'a str>, AllocError>
    ensures { IfOk result (λ texts. map (λ text. text.now) texts.items
        ≡ texts_of (found_of matches.now) id.now) }
{
    match matches.get_strs(id) {
        Some(texts) => texts.to_vec(alloc),
        None => Ok(Vec::new(alloc)),
    }
}

/// Whether a flag was given.
pub(crate) fn flag_of(matches: &ArgMatches<'_>, id: &str) -> bool
    ensures { IsFlag (one_text (found_of matches.now) id.now) result }
{
    matches.get_flag(id)
}

/// The quality of service of an option, 0 without one.
pub(crate) fn qos_of(matches: &ArgMatches<'_>, id: &str) -> Qos
    ensures { IsQuality (one_text (found_of matches.now) id.now) result }
{
    let number: Option<u8> = matches.get_one(id);
    match number {
        Some(number) => Qos::from_number(number).unwrap_or(Qos::Q0),
        None => Qos::Q0,
    }
}

/// The milliseconds of an option with seconds.
pub(crate) fn duration_of(
    alloc: Global,
    matches: &ArgMatches<'_>,
    id: &str,
    option: &str,
) -> Result<Option<u64>, OptionFault>
    ensures { IfOk result (IsTime (first_value (found_of matches.now) id.now)) }
{
    let Some(text) = matches.get_str(id) else {
        return Ok(None);
    };
    match milliseconds_of(text) {
        Some(milliseconds) => Ok(Some(milliseconds)),
        None => Err(OptionFault::Said(format!(in alloc;
            "'{text}' after {option} is not a number of seconds: write one such as 2 or 0.5"
        )?)),
    }
}

// Why a text is not a topic name or filter, and what to do.
fn topic_advice(fault: TopicFault) -> &'static str {
    match fault {
        TopicFault::Empty => "it is empty: give at least one character",
        TopicFault::Nul => "it has the character U+0000: leave that out",
        TopicFault::TooLong => "it has more than 65,535 bytes: give a shorter one",
        TopicFault::Wildcard => "messages are published without wildcards: leave `+` and `#` out",
        TopicFault::Plus => "`+` has to be alone in its level, as in a/+/b",
        TopicFault::Hash => "`#` has to be alone in the last level, as in a/#",
        TopicFault::Memory => "out of memory",
    }
}

// The error of a text that is not a topic name or filter.
fn bad_topic(alloc: Global, option: &str, text: &str, fault: TopicFault) -> OptionFault {
    if fault == TopicFault::Memory {
        return OptionFault::Memory;
    }
    let advice = topic_advice(fault);
    let shown = if text.len() > 200 { "the topic" } else { text };
    match format!(in alloc; "'{shown}' after {option} is not a valid topic: {advice}") {
        Ok(said) => OptionFault::Said(said),
        Err(_) => OptionFault::Memory,
    }
}

/// The topic name of an option.
pub(crate) fn name_of(alloc: Global, option: &str, text: &str) -> Result<TopicName, OptionFault>
    ensures { IfOk result (λ name. name ≡ text.now) }
{
    match TopicName::parse(alloc, text) {
        Ok(name) => Ok(name),
        Err(fault) => Err(bad_topic(alloc, option, text, fault)),
    }
}

// The topic filter of an option.
fn filter_of(alloc: Global, option: &str, text: &str) -> Result<TopicFilter, OptionFault>
    ensures { IfOk result (λ filter. filter ≡ text.now) }
{
    match TopicFilter::parse(alloc, text) {
        Ok(filter) => Ok(filter),
        Err(fault) => Err(bad_topic(alloc, option, text, fault)),
    }
}

/// Adds the topic filter of an option to a list.
pub(crate) fn add_filter(
    alloc: Global,
    filters: &mut Vec<TopicFilter>,
    option: &str,
    text: &str,
) -> Result<(), OptionFault>
    ensures { OnOk result (filters.new.items ≡ filters.old.items ++ text.now ∷ []) }
{
    match filters.push(filter_of(alloc, option, text)?) {
        Ok(()) => Ok(()),
        Err(_) => Err(OptionFault::Memory),
    }
}

// The topic filters of an option.
fn filters_of(alloc: Global, option: &str, texts: &[&str]) -> Result<Vec<TopicFilter>, OptionFault>
    ensures { IfOk result (λ filters. filters.items ≡ map (λ text. text.now) texts.now) }
{
    let mut filters = Vec::new(alloc);
    for text in texts {
        add_filter(alloc, &mut filters, option, text)?;
    }
    Ok(filters)
}

/// The topic filters of the option that has this name in the code.
pub(crate) fn filters_at(
    alloc: Global,
    matches: &ArgMatches<'_>,
    id: &str,
    option: &str,
) -> Result<Vec<TopicFilter>, OptionFault>
    ensures { IfOk result
        (λ filters. filters.items ≡ texts_of (found_of matches.now) id.now) }
{
    let texts = all_of(alloc, matches, id)?;
    filters_of(alloc, option, texts.as_slice())
}

/// An error of a sentence.
pub(crate) fn said(alloc: Global, sentence: &str) -> OptionFault {
    match String::from_str(alloc, sentence) {
        Ok(sentence) => OptionFault::Said(sentence),
        Err(_) => OptionFault::Memory,
    }
}
