//! Topic names (4.7).

ghost use Rattle.std.specs.Prelude.{◌≡◌, true, IfOk, IfErr, IfSome, IfNone, IsErrOf};
ghost use Rattle.mq_topic.specs.Prelude.{list_any, name_fault, IsTopicName, is_topic_name, is_wildcard};

use crate::fault::{TopicFault, text_fault};
use mq_wire::Text;
use std::alloc::{AllocError, Global};
use std::marker::Model;

/// A topic name (4.7): at least one character, and neither `+` nor `#`. Clones share its bytes.
#[derive(Debug, Drop)]
pub struct TopicName {
    text: Text,
}

impl Model for TopicName {
    ghost use Rattle.std.specs.Prelude.{ℕ, List};
    ghost use Rattle.mq_topic.specs.Topic.{IsTopicName};

    ghost Value = { List ℕ };

    ghost view = { λ n. n.text };

    ghost invariant = { λ n. IsTopicName n.text };
}

/// Returns whether an MQTT string (1.5.3) is a topic name (4.7): at least one character, and
/// neither `+` nor `#`. Does not test for U+0000 and the length, which `Text` guarantees.
pub fn is_topic_name(text: &str) -> bool
    ensures { result ≡ is_topic_name text.now }
{
    !text.is_empty() && !has_wildcard(text)
}

// Reads every byte before it returns, so that the compiler can test many at once.
#[tactic(auto, using(std::proofs::lemmas::List::Folds::list_any_more))]
fn has_wildcard(text: &str) -> bool
    ensures { result ≡ list_any is_wildcard text.now }
{
    let mut found = false;
    for byte in text.as_bytes() {
        found |= (*byte == b'+') | (*byte == b'#');
    }
    found
}

fn name_fault(text: &str) -> Option<TopicFault>
    ensures { result ≡ name_fault text.now }
{
    match text_fault(text) {
        None if has_wildcard(text) => Some(TopicFault::Wildcard),
        fault => fault,
    }
}

impl TopicName {
    /// Copies a `&str`. Returns the first fault otherwise: `Empty`, `Nul`, `TooLong`, `Wildcard`.
    /// `Memory` if the allocation fails.
    pub fn parse(alloc: Global, text: &str) -> Result<TopicName, TopicFault>
        ensures value { IfOk result (λ name. name ≡ text.now) }
        ensures refused { IfSome (name_fault text.now) (λ fault. IsErrOf result fault) }
        ensures memory { IfNone (name_fault text.now)
            (IfErr result (λ fault. fault ≡ TopicFault.Memory)) }
    {
        if let Some(fault) = name_fault(text) {
            return Err(fault);
        }
        match Text::new(alloc, text) {
            Ok(text) => Ok(TopicName { text }),
            Err(_) => Err(TopicFault::Memory),
        }
    }

    /// Wraps a text, which must be a topic name.
    pub fn from_text(text: Text) -> TopicName
        requires { is_topic_name text ≡ true }
        ensures { result ≡ text }
    {
        let _ = text.as_str();
        TopicName { text }
    }

    /// Returns the string slice.
    pub fn as_str(&self) -> &str
        ensures value { result.now ≡ self.now }
        ensures name { IsTopicName self.now }
    {
        self.text.as_str()
    }
}

impl Clone for TopicName {
    ghost is_clone = { λ name copy. copy ≡ name };

    /// Returns another owner of the same bytes.
    fn clone(&self) -> Result<TopicName, AllocError> {
        let text = self.text.clone()?;
        Ok(TopicName { text })
    }
}
