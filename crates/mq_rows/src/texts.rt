//! Texts, topic names and topic filters.

use crate::fields::{bytes_in, bytes_of};
use crate::words::Words;
use crate::wrong::Wrong;
use mq_topic::{TopicFault, TopicFilter, TopicName};
use mq_wire::{Text, TextFault};
use std::alloc::Global;
use std::fmt::Debug;

/// A kind of text, which has rules of its own.
pub(crate) trait Kind: Clone + Sized {
    /// Why a text is refused.
    type Fault: Debug + Drop;

    /// Checks a text and copies it.
    fn parse(alloc: Global, text: &str) -> Result<Self, Self::Fault>;

    /// Returns the string slice.
    fn text(&self) -> &str;
}

impl Kind for Text {
    type Fault = TextFault;

    fn parse(alloc: Global, text: &str) -> Result<Text, TextFault> {
        Text::new(alloc, text)
    }

    fn text(&self) -> &str {
        self.as_str()
    }
}

impl Kind for TopicName {
    type Fault = TopicFault;

    fn parse(alloc: Global, text: &str) -> Result<TopicName, TopicFault> {
        TopicName::parse(alloc, text)
    }

    fn text(&self) -> &str {
        self.as_str()
    }
}

impl Kind for TopicFilter {
    type Fault = TopicFault;

    fn parse(alloc: Global, text: &str) -> Result<TopicFilter, TopicFault> {
        TopicFilter::parse(alloc, text)
    }

    fn text(&self) -> &str {
        self.as_str()
    }
}

/// Bytes as a text.
pub(crate) fn text_in(bytes: &[u8]) -> Result<&str, Wrong> {
    match str::from_utf8(bytes) {
        Ok(text) => Ok(text),
        Err(_) => Err(Wrong::Words),
    }
}

/// The text of a word, of the kind that is needed.
pub(crate) fn parsed_in<T: Kind>(alloc: Global, word: &str) -> Result<T, Wrong> {
    let bytes = bytes_in(alloc, word)?;
    T::parse(alloc, text_in(bytes.as_slice())?)
        .ok()
        .ok_or(Wrong::Bytes)
}

/// The text of the next word, of the kind that is needed.
pub(crate) fn parsed_of<T: Kind>(alloc: Global, words: &mut Words<'_>) -> Result<T, Wrong> {
    parsed_in(alloc, words.word()?)
}

fn is_copied<T: Kind>(parsed: &T, wanted: &str) -> Result<bool, Wrong> {
    let copy = parsed.clone()?;
    Ok(copy.text() == wanted)
}

/// `text TEXT`, `name TEXT`, `filter TEXT`: whether a clone of the parsed text is unchanged, or the
/// text's fault.
pub(crate) fn parse<T: Kind>(
    alloc: Global,
    words: &mut Words<'_>,
    told: &mut String,
) -> Result<(), Wrong> {
    let bytes = bytes_of(alloc, words)?;
    let text = text_in(bytes.as_slice())?;
    match T::parse(alloc, text) {
        Ok(parsed) => {
            let is_same = is_copied(&parsed, text)?;
            Ok(told.push_str(if is_same { "unchanged" } else { "changed" })?)
        }
        Err(fault) => Ok(write!(told, "{fault:?}")?),
    }
}
