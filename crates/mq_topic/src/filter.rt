//! Topic filters (4.7).

ghost use Rattle.std.specs.Prelude.{◌≡◌, true, nat_eq, refl, Some, IfOk, IfErr, IfSome, IfNone, IsErrOf};
ghost use Rattle.mq_topic.specs.Prelude.{partial_equiv_from_equiv, pointwise, slice_cmp, nat_list_eq_equiv, nat_list_cmp_total, texts_ties, texts_po, hashing, nat_cmp, filter_fault, IsTopicFilter, is_topic_filter};
ghost use Rattle.std.specs.Hash as fed;
ghost use Rattle.std.proofs.Common.{rules};

use crate::fault::{TopicFault, text_fault};
use crate::level::levels_fault;
use mq_wire::Text;
use std::alloc::{AllocError, Global};
use std::cmp::Ordering;
use std::hash::{Hash, Hasher};
use std::marker::Model;

/// A topic filter (4.7): at least one character, each `+` alone in its level, and `#` only alone in
/// the last level. Clones share its bytes.
#[derive(Debug, Drop)]
pub struct TopicFilter {
    text: Text,
}

impl Model for TopicFilter {
    ghost use Rattle.std.specs.Prelude.{ℕ, List};
    ghost use Rattle.mq_topic.specs.Topic.{IsTopicFilter};

    ghost Value = { List ℕ };

    ghost view = { λ f. f.text };

    ghost invariant = { λ f. IsTopicFilter f.text };
}

/// Returns whether a text is a topic filter (4.7): at least one character, each `+` alone in its
/// level, and `#` only alone in the last level.
pub fn is_topic_filter(text: &str) -> bool
    ensures { result ≡ is_topic_filter text.now }
{
    !text.is_empty() && levels_fault(text).is_none()
}

fn filter_fault(text: &str) -> Option<TopicFault>
    ensures { result ≡ filter_fault text.now }
{
    text_fault(text).or_else(|| levels_fault(text))
}

impl TopicFilter {
    /// Copies a `&str`. Returns the first fault otherwise: `Empty`, `Nul`, `TooLong`, and then
    /// level by level `Plus` or `Hash`. `Memory` if the allocation fails.
    pub fn parse(alloc: Global, text: &str) -> Result<TopicFilter, TopicFault>
        ensures value { IfOk result (λ filter. filter ≡ text.now) }
        ensures refused { IfSome (filter_fault text.now) (λ fault. IsErrOf result fault) }
        ensures memory { IfNone (filter_fault text.now)
            (IfErr result (λ fault. fault ≡ TopicFault.Memory)) }
    {
        if let Some(fault) = filter_fault(text) {
            return Err(fault);
        }
        match Text::new(alloc, text) {
            Ok(text) => Ok(TopicFilter { text }),
            Err(_) => Err(TopicFault::Memory),
        }
    }

    /// Wraps a text, which must be a topic filter.
    pub fn from_text(text: Text) -> TopicFilter
        requires { is_topic_filter text ≡ true }
        ensures { result ≡ text }
    {
        let _ = text.as_str();
        TopicFilter { text }
    }

    /// Returns the string slice.
    pub fn as_str(&self) -> &str
        ensures value { result.now ≡ self.now }
        ensures filter { IsTopicFilter self.now }
    {
        self.text.as_str()
    }
}

impl Clone for TopicFilter {
    ghost is_clone = { λ filter copy. copy ≡ filter };

    /// Returns another owner of the same bytes.
    fn clone(&self) -> Result<TopicFilter, AllocError> {
        let text = self.text.clone()?;
        Ok(TopicFilter { text })
    }
}

impl PartialEq for TopicFilter {
    ghost eq = { pointwise nat_eq };

    ghost laws = { partial_equiv_from_equiv nat_list_eq_equiv };

    fn eq(&self, other: &TopicFilter) -> bool {
        self.as_str() == other.as_str()
    }
}

impl Eq for TopicFilter {
    ghost laws = { nat_list_eq_equiv };
}

impl PartialOrd for TopicFilter {
    ghost partial_cmp = { λ x y. Some (slice_cmp nat_cmp x y) };

    ghost laws = { texts_po };

    fn partial_cmp(&self, other: &TopicFilter) -> Option<Ordering> {
        Some(self.cmp(other))
    }
}

impl Ord for TopicFilter {
    ghost cmp = { slice_cmp nat_cmp };

    ghost total = { nat_list_cmp_total };

    ghost matches_partial_cmp = { λ x y. refl };

    ghost matches_eq = { texts_ties };

    /// Filters are ordered by their bytes.
    fn cmp(&self, other: &TopicFilter) -> Ordering {
        self.as_str().cmp(other.as_str())
    }
}

impl Hash for TopicFilter {
    ghost hash_input = { fed.str };

    ghost respects_eq = { Prim.search (hashing, rules) };

    fn hash<H: Hasher>(&self, state: &mut H) {
        self.as_str().hash(state);
    }
}
