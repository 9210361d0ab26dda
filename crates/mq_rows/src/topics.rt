//! Topic names, topic filters, and qualities of service.

ghost use Rattle.std.specs.Prelude.{◌≡◌, true};
ghost use Rattle.mq_topic.specs.Topic.{is_topic_filter, is_topic_name};

use crate::fields::bytes_of;
use crate::texts::{parsed_of, text_in};
use crate::words::Words;
use crate::wrong::Wrong;
use mq_topic::{Qos, TopicFault, TopicFilter, TopicName, is_topic_filter, is_topic_name, matches};
use mq_wire::Text;
use std::alloc::Global;

/// `valid TEXT`: whether a text is a topic name, and whether it is a filter.
pub(crate) fn valid(alloc: Global, words: &mut Words<'_>, told: &mut String) -> Result<(), Wrong> {
    let bytes = bytes_of(alloc, words)?;
    let text = text_in(bytes.as_slice())?;
    Ok(write!(told, "{} {}", is_topic_name(text), is_topic_filter(text))?)
}

fn add_both(text: Text, copy: Text, told: &mut String) -> Result<(), Wrong>
    requires name { is_topic_name copy ≡ true }
    requires filter { is_topic_filter text ≡ true }
{
    let name = TopicName::from_text(copy);
    let filter = TopicFilter::from_text(text);
    Ok(write!(told, "{} {}", name.as_str(), filter.as_str())?)
}

/// `both TEXT`: a text as a filter, and a copy of its borrowed form as a name.
pub(crate) fn both(alloc: Global, words: &mut Words<'_>, told: &mut String) -> Result<(), Wrong> {
    let text: Text = parsed_of(alloc, words)?;
    let copy = text.as_ref().to_text(alloc)?;
    if !is_topic_name(copy.as_str()) || !is_topic_filter(text.as_str()) {
        return Err(Wrong::Bytes);
    }
    add_both(text, copy, told)
}

/// `matches FILTER NAME`
pub(crate) fn is_match(
    alloc: Global,
    words: &mut Words<'_>,
    told: &mut String,
) -> Result<(), Wrong> {
    let filter = parsed_of(alloc, words)?;
    let name = parsed_of(alloc, words)?;
    Ok(write!(told, "{}", matches(&filter, &name))?)
}

static FAULTS: [TopicFault; 7] = [
    TopicFault::Empty,
    TopicFault::Nul,
    TopicFault::TooLong,
    TopicFault::Wildcard,
    TopicFault::Plus,
    TopicFault::Hash,
    TopicFault::Memory,
];

/// `topic-fault PLACE`: a fault with its code and text.
pub(crate) fn fault(words: &mut Words<'_>, told: &mut String) -> Result<(), Wrong> {
    let place: usize = words.number()?;
    let fault = FAULTS.get(place).ok_or(Wrong::Words)?;
    Ok(write!(told, "{fault:?} {} {fault}", fault.code())?)
}

/// `qos NUMBER`: the quality of service with it, and its number.
pub(crate) fn qos(words: &mut Words<'_>, told: &mut String) -> Result<(), Wrong> {
    match Qos::from_number(words.number()?) {
        Some(qos) => Ok(write!(told, "{qos:?} {}", qos.number())?),
        None => Ok(told.push_str("none")?),
    }
}

/// `greater QOS QOS`
pub(crate) fn greater(words: &mut Words<'_>, told: &mut String) -> Result<(), Wrong> {
    let (first, second) = (words.qos()?, words.qos()?);
    Ok(write!(told, "{:?}", first.greater(second))?)
}
