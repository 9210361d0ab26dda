//! The words of an act, taken from the left.

use crate::wrong::Wrong;
use mq_decode::Limits;
use mq_packet::PacketId;
use mq_topic::Qos;
use std::str::{FromStr, SplitWhitespace};

/// The words that remain, with a space between each two.
#[derive(Clone, Copy)]
pub(crate) struct Words<'a> {
    left: &'a str,
}

impl<'a> Words<'a> {
    /// The words of a text.
    pub(crate) fn new(text: &'a str) -> Words<'a> {
        Words { left: text }
    }

    /// Whether none is left.
    pub(crate) fn is_empty(&self) -> bool {
        self.left.is_empty()
    }

    pub(crate) fn next(&mut self) -> Option<&'a str> {
        if self.left.is_empty() {
            return None;
        }
        let (word, left) = self.left.split_once(' ').unwrap_or((self.left, ""));
        self.left = left;
        Some(word)
    }

    /// The next word.
    pub(crate) fn word(&mut self) -> Result<&'a str, Wrong> {
        self.next().ok_or(Wrong::Words)
    }

    /// Whether a word is the next one, which is taken then.
    pub(crate) fn begin_with(&mut self, word: &str) -> bool {
        match self.left.split_once(' ') {
            Some((first, left)) if first == word => {
                self.left = left;
                true
            }
            _ => false,
        }
    }

    /// The number behind a word, if this word is the next one.
    pub(crate) fn after(&mut self, word: &str) -> Result<Option<u64>, Wrong> {
        if !self.begin_with(word) {
            return Ok(None);
        }
        Ok(Some(self.number()?))
    }

    /// All that remain.
    pub(crate) fn rest(&mut self) -> SplitWhitespace<'a> {
        let left = self.left;
        self.left = "";
        left.split_whitespace()
    }

    /// The number of the next word.
    pub(crate) fn number<N: FromStr + Drop>(&mut self) -> Result<N, Wrong>
    where
        N::Err: Drop,
    {
        self.word()?.parse().ok().ok_or(Wrong::Words)
    }

    /// A number of two bytes, if a word is left.
    pub(crate) fn short_if_any(&mut self) -> Result<Option<u16>, Wrong> {
        if self.is_empty() {
            return Ok(None);
        }
        Ok(Some(self.number()?))
    }

    /// A bit, 0 or 1.
    pub(crate) fn bit(&mut self) -> Result<bool, Wrong> {
        Ok(self.word()? == "1")
    }

    /// A packet identifier.
    pub(crate) fn id(&mut self) -> Result<PacketId, Wrong> {
        PacketId::new(self.number()?).ok_or(Wrong::Words)
    }

    /// A quality of service.
    pub(crate) fn qos(&mut self) -> Result<Qos, Wrong> {
        Qos::from_number(self.number()?).ok_or(Wrong::Words)
    }

    /// The limits with a greatest remaining length: `64`, or `lenient 64`.
    pub(crate) fn limits(&mut self) -> Result<Limits, Wrong> {
        let limits = match self.word()? {
            "lenient" => Limits::lenient(self.number()?),
            most => Limits::new(most.parse().ok().ok_or(Wrong::Words)?),
        };
        limits.ok_or(Wrong::Words)
    }
}
