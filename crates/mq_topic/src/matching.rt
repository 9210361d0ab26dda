//! Matching of topic filters and topic names (4.7).

ghost use Rattle.std.specs.Prelude.{◌≡◌, ◌∷◌, ◌<◌, ◌↔◌, IfSome, IsTrue, length};
ghost use Rattle.mq_topic.specs.Prelude.{Match, levels, fits, fits_level, is_hash_alone, is_hidden, is_match, levels_left};

use crate::filter::TopicFilter;
use crate::name::TopicName;
use memchr::memchr;

/// The first level of a text, and the text behind it unless it is the last level.
pub(crate) fn first_level(text: &str) -> (&str, Option<&str>)
    ensures levels { levels text.now ≡ result.0.now ∷ levels_left result.1 }
    ensures shorter { IfSome result.1 (λ after. length after.now < length text.now) }
{
    match memchr(b'/', text.as_bytes()) {
        Some(end) => (&text[..end], Some(&text[end + 1..])),
        None => (text, None),
    }
}

// Whether the rest of a filter is `#` alone.
fn is_hash_alone(level: &str, after: Option<&str>) -> bool
    ensures { result ≡ is_hash_alone (level.now ∷ levels_left after.entry) }
{
    level == "#" && after.is_none()
}

// Whether a level of a filter matches a level of a name.
fn fits_level(level: &str, name_level: &str) -> bool
    ensures { result ≡ fits_level level.now name_level.now }
{
    level == "+" || level == name_level
}

// Whether the levels of a filter fit those of a name.
fn levels_fit(filter: &str, name: &str) -> bool
    ensures { result ≡ fits (levels filter.now) (levels name.now) }
{
    let mut filter_left = Some(filter);
    let mut name_left = Some(name);
    'levels: while let Some(filter) = filter_left {
        let (level, levels_after) = first_level(filter);
        if is_hash_alone(level, levels_after) {
            return true;
        }
        let Some(name) = name_left else {
            return false;
        };
        let (name_level, name_after) = first_level(name);
        if !fits_level(level, name_level) {
            return false;
        }
        filter_left = levels_after;
        name_left = name_after;
    }
    name_left.is_none()
}

// Whether a filter that begins with a wildcard meets a name that begins with `$` (4.7.2).
fn is_hidden(filter: &str, name: &str) -> bool
    ensures { result ≡ is_hidden filter.now name.now }
{
    let first = filter.as_bytes().first();
    matches!(first, Some(b'+' | b'#')) && name.as_bytes().first() == Some(&b'$')
}

// Whether a filter matches a name.
fn is_match(filter: &str, name: &str) -> bool
    ensures { result ≡ is_match filter.now name.now }
{
    levels_fit(filter, name) && !is_hidden(filter, name)
}

/// Returns whether a topic filter matches a topic name (4.7): `+` matches exactly one level, which
/// may be empty, and `#` any number of levels, also none. A filter that begins with a wildcard
/// matches no name that begins with `$`.
pub fn matches(filter: &TopicFilter, name: &TopicName) -> bool
    ensures value { result ≡ is_match filter.now name.now }
    ensures standard { IsTrue result ↔ Match filter.now name.now }
{
    is_match(filter.as_str(), name.as_str())
}
