//! Why a text is not a topic name or topic filter.

ghost use Rattle.std.specs.Prelude.{◌≡◌};
ghost use Rattle.mq_topic.specs.Prelude.{text_fault, topic_code, TopicLaws};

use thiserror::Error;

/// Why a text is not a topic name or topic filter (4.7).
#[derive(Clone, Copy, Debug, PartialEq, Eq, Error)]
pub enum TopicFault {
    /// It is empty.
    #[error("the text is empty")]
    Empty,
    /// It contains the character U+0000.
    #[error("the text has the character U+0000")]
    Nul,
    /// It is longer than 65,535 bytes.
    #[error("the text has over 65,535 bytes")]
    TooLong,
    /// A topic name contains `+` or `#`.
    #[error("a topic name has a wildcard")]
    Wildcard,
    /// A `+` is not alone in its level.
    #[error("a + is not alone in its level")]
    Plus,
    /// A `#` is not alone in its level, or its level is not the last.
    #[error("a # is not alone in the last level")]
    Hash,
    /// An allocation failed.
    #[error("out of memory")]
    Memory,
}

impl TopicFault {
    /// The code of the fault, `N1` to `N7`.
    pub fn code(self) -> &'static str
        ensures { result.now ≡ topic_code self }
    {
        match self {
            TopicFault::Empty => "N1",
            TopicFault::Nul => "N2",
            TopicFault::TooLong => "N3",
            TopicFault::Wildcard => "N4",
            TopicFault::Plus => "N5",
            TopicFault::Hash => "N6",
            TopicFault::Memory => "N7",
        }
    }
}

/// The faults that topic names and topic filters share.
pub(crate) fn text_fault(text: &str) -> Option<TopicFault>
    ensures { result ≡ text_fault text.now }
{
    if text.is_empty() {
        return Some(TopicFault::Empty);
    }
    if text.as_bytes().contains(&0) {
        return Some(TopicFault::Nul);
    }
    if text.len() > 65_535 {
        return Some(TopicFault::TooLong);
    }
    None
}

/// The laws of names and filters: a text has no fault exactly if it is valid, and `matches` agrees
/// with the standard's relation of levels.
pub fn topic_laws()
    ensures { TopicLaws }
{}
