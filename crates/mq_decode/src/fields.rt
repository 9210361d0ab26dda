//! Single fields at the front of the bytes of a packet (1.5). Each reader gives the value and the
//! bytes after it. Never allocates.

ghost use Rattle.std.specs.Prelude.{◌≡◌, ◌+◌, ◌<◌, ◌≤◌, slice_range, ℕ, Option, true, length, drop, IfOk, Ok};
ghost use Rattle.mq_topic.specs.Topic.{is_topic_name, is_topic_filter};
ghost use Rattle.mq_decode.specs.Inside.Gives.{Same};
ghost use Rattle.mq_decode.specs.Fields.{number_at, identifier_at, text_at, name_at, filter_at, binary_at, end_at, text_fault};

use crate::fault::{BadField, FaultKind};
use bytes::Bytes;
use mq_packet::{Binary, PacketId};
use mq_topic::{TopicFilter, is_topic_filter, is_topic_name};
use mq_wire::{FieldFault, TextRef};
use std::alloc::{AllocError, Global};
use std::marker::Model;

/// A borrowed binary field: at most 65,535 bytes.
#[derive(Debug, Drop)]
pub struct BinaryView<'a> {
    bytes: &'a [u8],
}

impl<'a> Model for BinaryView<'a> {
    ghost use Rattle.std.specs.Prelude.{ℕ, List, ◌<◌, length};

    ghost Value = { List ℕ };

    ghost view = { λ b. b.bytes.now };

    ghost invariant = { λ b. length b.bytes.now < 65536 };
}

impl<'a> BinaryView<'a> {
    /// The bytes.
    pub fn as_slice(&self) -> &'a [u8]
        ensures value { result.now ≡ self.now }
        ensures short { length self.now < 65536 }
    {
        self.bytes
    }

    /// A field of its own, with the same bytes.
    pub fn owned(&self, alloc: Global) -> Result<Binary, AllocError>
        ensures { IfOk result (λ b. b ≡ self.now) }
    {
        let bytes = Bytes::copy_from_slice(alloc, self.as_slice())?;
        Ok(Binary::new(bytes).unwrap())
    }
}

/// A borrowed topic filter (4.7).
#[derive(Debug, Drop)]
pub struct FilterView<'a> {
    text: TextRef<'a>,
}

impl<'a> Model for FilterView<'a> {
    ghost use Rattle.std.specs.Prelude.{◌≡◌, ℕ, List, true};
    ghost use Rattle.mq_topic.specs.Topic.{is_topic_filter};

    ghost Value = { List ℕ };

    ghost view = { λ f. f.text };

    ghost invariant = { λ f. is_topic_filter f.text ≡ true };
}

impl<'a> FilterView<'a> {
    /// The topic filter as a `&str`.
    pub fn as_str(&self) -> &'a str
        ensures value { result.now ≡ self.now }
        ensures filter { is_topic_filter self.now ≡ true }
    {
        self.text.as_str()
    }

    /// A topic filter of its own, with the same bytes.
    pub fn owned(&self, alloc: Global) -> Result<TopicFilter, AllocError>
        ensures { IfOk result (λ f. f ≡ self.now) }
    {
        Ok(TopicFilter::from_text(self.text.to_text(alloc)?))
    }
}

/// The field at the front of `bytes` is bad.
pub(crate) fn bad_at<T>(kind: FaultKind, bytes: &[u8]) -> Result<T, BadField>
    ensures { result ≡ Err (record { kind = kind; left = length bytes.now }) }
{
    Err(BadField {
        kind,
        left: bytes.len(),
    })
}

#[tactic(auto, unfolding(crate::specs::Fields::number_at))]
pub(crate) fn number(bytes: &[u8]) -> Result<(u16, &[u8]), BadField>
    ensures read { Same (λ x. (x.0, x.1.now)) result (number_at bytes.now) }
    ensures shorter { IfOk result (λ x. length x.1.now < length bytes.now) }
    ensures within { IfOk result (λ x. 2 ≤ length bytes.now) }
    ensures after { IfOk result (λ x. x.1.now ≡ drop 2 bytes.now) }
{
    if bytes.len() < 2 {
        return bad_at(FaultKind::PastEnd, bytes);
    }
    let (_, rest) = bytes.split_at(2);
    Ok((mq_wire::number_at(bytes, 0), rest))
}

#[tactic(auto, unfolding(crate::specs::Fields::identifier_at))]
pub(crate) fn identifier(bytes: &[u8]) -> Result<(PacketId, &[u8]), BadField>
    ensures read { Same (λ x. (x.0, x.1.now)) result (identifier_at bytes.now) }
    ensures within { IfOk result (λ x. 2 ≤ length bytes.now) }
    ensures after { IfOk result (λ x. x.1.now ≡ drop 2 bytes.now) }
{
    let (number, rest) = number(bytes)?;
    match PacketId::new(number) {
        Some(id) => Ok((id, rest)),
        None => bad_at(FaultKind::ZeroIdentifier, bytes),
    }
}

fn text_fault(fault: FieldFault) -> FaultKind
    ensures { result ≡ text_fault fault }
{
    match fault {
        FieldFault::Past => FaultKind::PastEnd,
        FieldFault::NotUtf8 => FaultKind::NotUtf8,
        FieldFault::Nul => FaultKind::Nul,
    }
}

#[tactic(auto, unfolding(crate::specs::Fields::text_at))]
pub(crate) fn text(bytes: &[u8]) -> Result<(TextRef<'_>, &[u8]), BadField>
    ensures read { Same (λ x. (x.0, x.1.now)) result (text_at bytes.now) }
    ensures shorter { IfOk result (λ x. length x.1.now < length bytes.now) }
    ensures within { IfOk result (λ x. 2 + length x.0 ≤ length bytes.now) }
    ensures stands { IfOk result (λ x. slice_range bytes.now 2 (2 + length x.0) ≡ x.0) }
    ensures after { IfOk result (λ x. x.1.now ≡ drop (2 + length x.0) bytes.now) }
{
    let (text, end) = match mq_wire::text_at(bytes, 0) {
        Ok(field) => field,
        Err(fault) => return bad_at(text_fault(fault), bytes),
    };
    let (_, rest) = bytes.split_at(end);
    Ok((text, rest))
}

#[tactic(auto, unfolding(crate::specs::Fields::name_at))]
pub(crate) fn name(bytes: &[u8]) -> Result<(TextRef<'_>, &[u8]), BadField>
    ensures read { Same (λ x. (x.0, x.1.now)) result (name_at bytes.now) }
    ensures name { IfOk result (λ x. is_topic_name x.0 ≡ true) }
    ensures within { IfOk result (λ x. 2 + length x.0 ≤ length bytes.now) }
    ensures stands { IfOk result (λ x. slice_range bytes.now 2 (2 + length x.0) ≡ x.0) }
    ensures after { IfOk result (λ x. x.1.now ≡ drop (2 + length x.0) bytes.now) }
{
    match text(bytes) {
        Ok((name, rest)) => {
            if !is_topic_name(name.as_str()) {
                return bad_at(FaultKind::NotTopicName, bytes);
            }
            Ok((name, rest))
        }
        Err(bad) => Err(bad),
    }
}

#[tactic(auto, unfolding(crate::specs::Fields::filter_at))]
pub(crate) fn filter(bytes: &[u8]) -> Result<(FilterView<'_>, &[u8]), BadField>
    ensures read { Same (λ x. (x.0, x.1.now)) result (filter_at bytes.now) }
    ensures shorter { IfOk result (λ x. length x.1.now < length bytes.now) }
{
    match text(bytes) {
        Ok((text, rest)) => {
            if !is_topic_filter(text.as_str()) {
                return bad_at(FaultKind::NotTopicFilter, bytes);
            }
            Ok((FilterView { text }, rest))
        }
        Err(bad) => Err(bad),
    }
}

#[tactic(auto, unfolding(crate::specs::Fields::binary_at))]
pub(crate) fn binary(bytes: &[u8]) -> Result<(BinaryView<'_>, &[u8]), BadField>
    ensures { Same (λ x. (x.0, x.1.now)) result (binary_at bytes.now) }
{
    let (count, rest) = number(bytes)?;
    let count = usize::from(count);
    if rest.len() < count {
        return bad_at(FaultKind::PastEnd, bytes);
    }
    let (bytes, rest) = rest.split_at(count);
    Ok((BinaryView { bytes }, rest))
}

pub(crate) fn end(bytes: &[u8]) -> Result<(), BadField>
    ensures { result ≡ end_at bytes.now }
{
    if bytes.is_empty() {
        return Ok(());
    }
    bad_at(FaultKind::BytesLeft, bytes)
}
