//! Values of the layers below packets, limits, codes and errors.

use crate::fields::{add_hex, bytes_of};
use crate::texts::parse;
use crate::words::Words;
use crate::wrong::Wrong;
use crate::{encoding, errors, topics, wire};
use mq_end::BoxedList;
use mq_topic::{TopicFilter, TopicName};
use mq_wire::Text;
use std::alloc::Global;

// `limits N`, `limits lenient N`: the greatest remaining length.
fn limits(words: &mut Words<'_>, told: &mut String) -> Result<(), Wrong> {
    match words.limits() {
        Ok(limits) => Ok(write!(told, "{}", limits.max_packet())?),
        Err(_) => Ok(told.push_str("none")?),
    }
}

// `copied BYTES`: the bytes as a list that is copied and then moved out.
fn copied(alloc: Global, words: &mut Words<'_>, told: &mut String) -> Result<(), Wrong> {
    let items = BoxedList::from_vec(bytes_of(alloc, words)?);
    let copy = items.clone()?;
    write!(told, "{} ", copy.as_slice().len())?;
    let moved = copy.into_vec();
    Ok(add_hex(alloc, told, moved.as_slice())?)
}

fn tell_numbers(act: &str, words: &mut Words<'_>, told: &mut String) -> Result<(), Wrong> {
    match act {
        "qos" => topics::qos(words, told),
        "greater" => topics::greater(words, told),
        "topic-fault" => topics::fault(words, told),
        "refusal" => encoding::refusal(words, told),
        "suback" => encoding::sub_ack_code(words, told),
        "id" => encoding::id(words, told),
        "kind" => errors::kind(words, told),
        "limits" => limits(words, told),
        "decode-error" => errors::decode_error(words, told),
        "read-error" => errors::read_error(words, told),
        "publish-refusal" => errors::publish_refusal(words, told),
        "close-reason" => errors::close_reason(words, told),
        "load-error" => errors::load_error(words, told),
        _ => Err(Wrong::Words),
    }
}

/// The acts of values.
pub(crate) fn tell(alloc: Global, words: &mut Words<'_>, told: &mut String) -> Result<(), Wrong> {
    match words.word()? {
        "put" => wire::put(alloc, words, told),
        "length" => wire::length(alloc, words, told, false),
        "loose" => wire::length(alloc, words, told, true),
        "numbers" => wire::numbers(alloc, words, told),
        "text" => parse::<Text>(alloc, words, told),
        "name" => parse::<TopicName>(alloc, words, told),
        "filter" => parse::<TopicFilter>(alloc, words, told),
        "valid" => topics::valid(alloc, words, told),
        "text-at" => wire::text_in_bytes(alloc, words, told),
        "both" => topics::both(alloc, words, told),
        "copied" => copied(alloc, words, told),
        "matches" => topics::is_match(alloc, words, told),
        kind => tell_numbers(kind, words, told),
    }
}
