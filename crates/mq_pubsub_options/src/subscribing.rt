//! The arguments of `mqtt sub`.

ghost use Rattle.std.specs.Prelude.{◌≡◌, codes, option_map, string_bytes, IfOk};
ghost use Rattle.mq_pubsub_options.specs.Prelude.{first_value, found_of, one_text, Found, AreFilters, IsCommon, IsNumber, IsPrinted, IsRetained, IsStyle, IsSubscribe, filters_of, texts_of};

use crate::address::Defaults;
use crate::common::{Common, common_of};
use crate::fault::OptionFault;
use crate::grammar::subscribe_command;
use crate::values::{add_filter, filters_at, flag_of, said};
use clap::ArgMatches;
use mq_format::{Format, FormatFault, Style};
use mq_topic::TopicFilter;
use std::alloc::Global;

/// The arguments of `mqtt sub`.
#[derive(Drop)]
pub struct SubscribeWords {
    /// The options that `pub` has too.
    pub common: Common,
    /// The filters to subscribe to.
    pub filters: Vec<TopicFilter>,
    /// The filters to unsubscribe from.
    pub given_up: Vec<TopicFilter>,
    /// Messages whose topic matches one of these are not printed.
    pub excluded: Vec<TopicFilter>,
    /// The number of messages to print before the end.
    pub count: Option<u64>,
    /// Retained messages are not printed.
    pub skips_retained: bool,
    /// The first message that is not retained ends the run.
    pub only_retained: bool,
    /// The run ends once the subscriptions are granted.
    pub ends_when_granted: bool,
    /// How messages are printed.
    pub style: Style,
    /// A line end follows each message.
    pub has_line_end: bool,
}

// Why a format can't be read, and what to do.
fn bad_format(alloc: Global, text: &str, fault: FormatFault) -> OptionFault {
    if fault == FormatFault::Memory {
        return OptionFault::Memory;
    }
    let said = format!(in alloc;
        "the format '{text}' after -F can't be read: {fault}; `mqtt sub --help` lists the fields"
    );
    match said {
        Ok(said) => OptionFault::Said(said),
        Err(_) => OptionFault::Memory,
    }
}

// The style of a format, or of `-v` without one.
fn style_of(alloc: Global, format: Option<&str>, verbose: bool) -> Result<Style, OptionFault>
    ensures { IfOk result (IsStyle (option_map (λ text. text.now) format.entry) verbose) }
{
    let Some(text) = format else {
        return Ok(if verbose {
            Style::Verbose
        } else {
            Style::Payload
        });
    };
    match Format::parse(alloc, text) {
        Ok(format) => Ok(Style::Format(format)),
        Err(fault) => Err(bad_format(alloc, text, fault)),
    }
}

// How messages are printed, and whether a line end follows each.
fn printed_of(alloc: Global, matches: &ArgMatches<'_>) -> Result<(Style, bool), OptionFault>
    ensures { IfOk result (λ printed. IsPrinted (found_of matches.now) printed.0 printed.1) }
{
    let (verbose, bare) = (flag_of(matches, "VERBOSE"), flag_of(matches, "BARE"));
    let style = style_of(alloc, matches.get_str("FORMAT"), verbose)?;
    Ok((style, !bare))
}

// The filters of `-t`, and then the one of `-L`.
fn topics_of(
    alloc: Global,
    matches: &ArgMatches<'_>,
    common: &Common,
) -> Result<Vec<TopicFilter>, OptionFault>
    ensures { IfOk result (λ filters. filters.items
        ≡ filters_of (texts_of (found_of matches.now) (codes "TOPIC"))
        (option_map string_bytes common.now.address.topic)) }
{
    let mut filters = filters_at(alloc, matches, "TOPIC", "-t")?;
    if let Some(text) = &common.address.topic {
        add_filter(alloc, &mut filters, "-L", text.as_str())?;
    }
    Ok(filters)
}

// The filters to subscribe to and to unsubscribe from.
#[derive(Drop)]
struct Filters {
    filters: Vec<TopicFilter>,
    given_up: Vec<TopicFilter>,
}

fn filters_in(
    alloc: Global,
    matches: &ArgMatches<'_>,
    common: &Common,
) -> Result<Filters, OptionFault>
    ensures { IfOk result (λ both. AreFilters (found_of matches.now)
        (option_map string_bytes common.now.address.topic)
        both.filters.items both.given_up.items) }
{
    let filters = topics_of(alloc, matches, common)?;
    let given_up = filters_at(alloc, matches, "GIVEN_UP", "-U")?;
    if filters.is_empty() && given_up.is_empty() {
        return Err(said(alloc, "there is no topic to subscribe to: give -t FILTER"));
    }
    Ok(Filters { filters, given_up })
}

// Whether retained messages are skipped, and whether they alone are printed.
fn retained_of(alloc: Global, matches: &ArgMatches<'_>) -> Result<(bool, bool), OptionFault>
    ensures { IfOk result (λ both. IsRetained (found_of matches.now) both.0 both.1) }
{
    let (skips_retained, only_retained) = (flag_of(matches, "FRESH"), flag_of(matches, "RETAINED"));
    if skips_retained && only_retained {
        return Err(said(
            alloc,
            "-R and --retained-only together print nothing: give only one of them",
        ));
    }
    Ok((skips_retained, only_retained))
}

// The number of `-C`.
fn count_of(matches: &ArgMatches<'_>) -> Option<u64>
    ensures { IsNumber 64 (one_text (found_of matches.now) (codes "COUNT")) result }
{
    matches.get_one("COUNT")
}

// The options that `pub` does not have.
#[derive(Drop)]
struct Own {
    filters: Filters,
    excluded: Vec<TopicFilter>,
    skips_retained: bool,
    only_retained: bool,
    style: Style,
    has_line_end: bool,
}

fn own_of(alloc: Global, matches: &ArgMatches<'_>, common: &Common) -> Result<Own, OptionFault>
    ensures filters { IfOk result (λ own. AreFilters (found_of matches.now)
        (option_map string_bytes common.now.address.topic)
        own.filters.filters.items own.filters.given_up.items) }
    ensures excluded { IfOk result
        (λ own. own.excluded.items ≡ texts_of (found_of matches.now) (codes "EXCLUDED")) }
    ensures retained { IfOk result
        (λ own. IsRetained (found_of matches.now) own.skips_retained own.only_retained) }
    ensures printed { IfOk result
        (λ own. IsPrinted (found_of matches.now) own.style own.has_line_end) }
{
    let (skips_retained, only_retained) = retained_of(alloc, matches)?;
    let filters = filters_in(alloc, matches, common)?;
    let excluded = filters_at(alloc, matches, "EXCLUDED", "-T")?;
    let (style, has_line_end) = printed_of(alloc, matches)?;
    Ok(Own {
        filters,
        excluded,
        skips_retained,
        only_retained,
        style,
        has_line_end,
    })
}

// The arguments that the parser matched.
fn matched(
    alloc: Global,
    matches: &ArgMatches<'_>,
    defaults: &Defaults,
) -> Result<SubscribeWords, OptionFault>
    ensures { IfOk result (IsSubscribe (found_of matches.now)) }
{
    let common = common_of(alloc, matches, defaults)?;
    match own_of(alloc, matches, &common) {
        Ok(own) => Ok(SubscribeWords {
            common,
            filters: own.filters.filters,
            given_up: own.filters.given_up,
            excluded: own.excluded,
            count: count_of(matches),
            skips_retained: own.skips_retained,
            only_retained: own.only_retained,
            ends_when_granted: flag_of(matches, "GRANTED"),
            style: own.style,
            has_line_end: own.has_line_end,
        }),
        Err(fault) => {
            drop(common);
            Err(fault)
        }
    }
}

// Reads the arguments over these defaults.
fn read_words(
    alloc: Global,
    words: &[&str],
    defaults: &Defaults,
) -> Result<SubscribeWords, OptionFault>
    ensures { IfOk result (λ own. (given : Found) × IsSubscribe given own) }
{
    let command = subscribe_command(alloc)?.no_binary_name(true);
    let matches = command.try_get_matches_from(words)?;
    matched(alloc, &matches, defaults)
}

/// Reads the arguments of `mqtt sub`, without the name of the program and of the command.
pub fn subscribe_words(
    alloc: Global,
    words: &[&str],
    defaults: Defaults,
) -> Result<SubscribeWords, OptionFault>
    ensures { IfOk result (λ own. (given : Found) × IsSubscribe given own) }
{
    let read = read_words(alloc, words, &defaults);
    drop(defaults);
    read
}
