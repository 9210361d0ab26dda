//! Tests of topics and saved sessions.

ghost use Rattle.std.specs.Prelude.{◌≡◌, ◌↔◌, ◌<◌, false, true, length, IsOk, IsTrue, IfOk, IfErr, IfSome, IsSome};
ghost use Rattle.mq_bytes.specs.Prelude.{IsText, IsTopicFilter, IsTopicName, Match, IsRefused, IsSavedSession};

use crate::fault::CheckFault;
use mq_flow::{LoadError, Saved};
use mq_topic::{TopicFilter, TopicName, is_topic_filter, is_topic_name, matches};
use std::alloc::Global;

/// The bytes as an MQTT string (1.5.3): UTF-8 of at most 65,535 bytes without U+0000.
#[tactic(auto, using(crate::proofs::Texts::is_text, crate::proofs::Texts::long_is_no_text, crate::proofs::Texts::nul_is_no_text, crate::proofs::Texts::no_utf8_is_no_text))]
pub(crate) fn text(bytes: &[u8]) -> Option<&str>
    ensures text { IsSome result ↔ IsText bytes.now }
    ensures value { IfSome result (λ t. t.now ≡ bytes.now) }
{
    if bytes.len() > 65_535 {
        return None;
    }
    if bytes.contains(&0) {
        return None;
    }
    match std::str::from_utf8(bytes) {
        Ok(text) => Some(text),
        Err(_) => None,
    }
}

/// Returns `Ok` if the bytes are a topic name (4.7).
pub fn check_name(bytes: &[u8]) -> Result<(), CheckFault>
    ensures name { IsOk result ↔ IsTopicName bytes.now }
    ensures text { IfErr result (λ why. (why ≡ CheckFault.Text) ↔ (IsText bytes.now → ⊥)) }
    ensures only { IfErr result (IsRefused CheckFault.Name) }
{
    let Some(text) = text(bytes) else {
        return Err(CheckFault::Text);
    };
    if !is_topic_name(text) {
        return Err(CheckFault::Name);
    }
    Ok(())
}

/// Returns `Ok` if the bytes are a topic filter (4.7).
pub fn check_filter(bytes: &[u8]) -> Result<(), CheckFault>
    ensures filter { IsOk result ↔ IsTopicFilter bytes.now }
    ensures text { IfErr result (λ why. (why ≡ CheckFault.Text) ↔ (IsText bytes.now → ⊥)) }
    ensures only { IfErr result (IsRefused CheckFault.Filter) }
{
    let Some(text) = text(bytes) else {
        return Err(CheckFault::Text);
    };
    if !is_topic_filter(text) {
        return Err(CheckFault::Filter);
    }
    Ok(())
}

// The topic filter in these bytes.
fn filter(alloc: Global, bytes: &[u8]) -> Result<TopicFilter, CheckFault>
    ensures value { IfOk result (λ filter. filter ≡ bytes.now) }
    ensures refused { IfErr result (λ why. IsTopicFilter bytes.now → why ≡ CheckFault.Memory) }
{
    check_filter(bytes)?;
    let text = text(bytes).unwrap();
    TopicFilter::parse(alloc, text).map_err(|_| CheckFault::Memory)
}

// The topic name in these bytes.
fn name(alloc: Global, bytes: &[u8]) -> Result<TopicName, CheckFault>
    ensures value { IfOk result (λ name. name ≡ bytes.now) }
    ensures refused { IfErr result (λ why. IsTopicName bytes.now → why ≡ CheckFault.Memory) }
{
    check_name(bytes)?;
    let text = text(bytes).unwrap();
    TopicName::parse(alloc, text).map_err(|_| CheckFault::Memory)
}

/// Returns whether a topic filter matches a topic name (4.7). Errors: `Text` or `Filter` if
/// `filter_bytes` are not a topic filter, `Text` or `Name` if `name_bytes` are not a topic name,
/// `Memory` if an allocation fails.
pub fn is_match(alloc: Global, filter_bytes: &[u8], name_bytes: &[u8]) -> Result<bool, CheckFault>
    ensures matches { IfOk result (λ yes. IsTrue yes ↔ Match filter_bytes.now name_bytes.now) }
    ensures filter { IfOk result (λ yes. IsTopicFilter filter_bytes.now) }
    ensures name { IfOk result (λ yes. IsTopicName name_bytes.now) }
    ensures refused { IfErr result (λ why. IsTopicFilter filter_bytes.now
        → IsTopicName name_bytes.now → why ≡ CheckFault.Memory) }
{
    let filter = filter(alloc, filter_bytes)?;
    let name = name(alloc, name_bytes)?;
    Ok(matches(&filter, &name))
}

/// Returns `Ok` if the bytes are the saved form of a session, version 1 or 2 (4.1). Errors:
/// `Session` if they are not, `Memory` if an allocation fails.
#[tactic(auto, using(crate::proofs::Texts::saved_session))]
pub fn check_session(alloc: Global, bytes: &[u8]) -> Result<(), CheckFault>
    ensures saved { IsOk result → IsSavedSession bytes.now }
    ensures refused { IsSavedSession bytes.now → IfErr result (λ why. why ≡ CheckFault.Memory) }
{
    let saved = match Saved::load(alloc, bytes) {
        Ok(saved) => saved,
        Err(LoadError::Memory) => return Err(CheckFault::Memory),
        Err(_) => return Err(CheckFault::Session),
    };
    drop(saved);
    Ok(())
}
