//! The levels of a topic filter, separated by `/` (4.7.1).

ghost use Rattle.std.specs.Prelude.{◌≡◌};
ghost use Rattle.mq_topic.specs.Prelude.{level_fault, levels, levels_fault};

use crate::fault::TopicFault;

fn level_fault(level: &str, is_last: bool) -> Option<TopicFault>
    ensures { result ≡ level_fault is_last level.now }
{
    let is_alone = level.len() == 1;
    if level.as_bytes().contains(&b'+') && !is_alone {
        return Some(TopicFault::Plus);
    }
    if level.as_bytes().contains(&b'#') && !(is_last && is_alone) {
        return Some(TopicFault::Hash);
    }
    None
}

/// The fault of the first invalid level of a filter.
pub(crate) fn levels_fault(filter: &str) -> Option<TopicFault>
    ensures { result ≡ levels_fault (levels filter.now) }
{
    let mut rest = filter;
    'levels: while let Some((level, after)) = rest.split_once('/') {
        let fault = level_fault(level, false);
        if fault.is_some() {
            return fault;
        }
        rest = after;
    }
    level_fault(rest, true)
}
