//! The values of single words.

ghost use Rattle.std.specs.Prelude.{◌≡◌, ◌<◌, ◌^◌, ℕ, false, length, IfOk, IfSome, IsErr, MatchOption, Option};
ghost use Rattle.mq_schedule.specs.Prelude.{non_zero_u16_get, IsBytes, qos_number, IsTopicName, escaped, IsAmount, IsNumber, IsWindow, bytes_word, number_of, side_word, Finds, IsCapacity, IsLimit, last_word};

use crate::printed::{hex_bytes, unescaped};
use bytes::Bytes;
use mq_decode::Limits;
use mq_packet::Payload;
use mq_topic::{Qos, TopicFault, TopicName};
use mq_world::Side;
use std::alloc::{AllocError, Global};
use std::num::NonZeroU16;

// A side: `c` or `s`.
pub(crate) fn side(word: &str) -> Option<Side>
    ensures { Finds (λ side. word.now ≡ side_word side) result }
{
    match word {
        "c" => Some(Side::Client),
        "s" => Some(Side::Server),
        _ => None,
    }
}

/// The number of decimal digits, without a sign.
pub fn number(word: &str) -> Option<u64>
    ensures { Finds (λ n. IsNumber n word.now) result }
{
    if word.starts_with('+') {
        return None;
    }
    word.parse().ok()
}

// A number of bytes; `all` is the maximum.
pub(crate) fn amount(word: &str) -> Option<usize>
    ensures { Finds (λ n. IsAmount n word.now) result }
{
    if word == "all" {
        return Some(usize::MAX);
    }
    Some(number(word)? as usize)
}

/// A quality of service (4.3).
pub fn qos(word: &str) -> Option<Qos>
    ensures { Finds (λ qos. IsNumber (qos_number qos) word.now) result }
{
    Qos::from_number(u8::try_from(number(word)?).ok()?)
}

// A bound on the remaining length (2.2.3).
pub(crate) fn limits(word: &str) -> Option<Limits>
    ensures limit { MatchOption result ((n : ℕ) → ¬ IsLimit n word.now)
        (λ limits. IsLimit limits.most word.now) }
    ensures strict { IfSome result (λ limits. limits.lenient ≡ false) }
{
    Limits::new(u32::try_from(number(word)?).ok()?)
}

// How many packet identifiers may be in use (2.3.1).
pub(crate) fn capacity(word: &str) -> Option<NonZeroU16>
    ensures { MatchOption result ((n : ℕ) → ¬ IsCapacity n word.now)
        (λ capacity. IsCapacity (non_zero_u16_get capacity) word.now) }
{
    NonZeroU16::new(u16::try_from(number(word)?).ok()?)
}

// A receiving window, or none (4.3.3).
pub(crate) fn window(word: Option<&str>) -> Option<Option<NonZeroU16>>
    ensures { MatchOption result ((n : Option ℕ) → ¬ IsWindow n (last_word word.entry))
        (λ window. IsWindow (number_of window) (last_word word.entry)) }
{
    match word {
        Some(word) => Some(Some(capacity(word)?)),
        None => Some(None),
    }
}

// An invalid name is no value; a failed allocation is an error.
fn no_name(fault: TopicFault) -> Result<Option<TopicName>, AllocError>
    ensures none { IfOk result (λ name. name ≡ None) }
    ensures memory { fault ≡ TopicFault.Memory → IsErr result }
{
    match fault {
        TopicFault::Memory => Err(AllocError),
        _ => Ok(None),
    }
}

/// A topic name (4.7), as it is printed.
pub fn topic(alloc: Global, word: &str) -> Result<Option<TopicName>, AllocError>
    ensures { IfOk result (Finds (λ name. IsTopicName name × (word.now ≡ escaped name))) }
{
    let Some(bytes) = unescaped(alloc, word.as_bytes())? else {
        return Ok(None);
    };
    let Ok(text) = str::from_utf8(&bytes) else {
        return Ok(None);
    };
    match TopicName::parse(alloc, text) {
        Ok(name) => Ok(Some(name)),
        Err(fault) => no_name(fault),
    }
}

/// A payload as hexadecimal digits, or `-` for none.
pub fn payload(alloc: Global, word: &str) -> Result<Option<Payload>, AllocError>
    ensures { IfOk result (Finds (λ payload. IsBytes payload × (length payload < 2 ^ 28)
        × (word.now ≡ bytes_word payload))) }
{
    if word == "-" {
        return Ok(Payload::new(Bytes::new()));
    }
    if word.is_empty() {
        return Ok(None);
    }
    let Some(bytes) = hex_bytes(alloc, word.as_bytes())? else {
        return Ok(None);
    };
    Ok(Payload::new(Bytes::from_vec(bytes)?))
}
