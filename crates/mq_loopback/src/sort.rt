//! The order in which messages are printed.

ghost use Rattle.std.specs.Prelude.{IfOk, map};
ghost use Rattle.mq_loopback.specs.Prelude.{AllZip, IsOrdered};

use mq_packet::Message;
use std::alloc::{AllocError, Global};

/// Sorts messages by the bytes of their topic names; messages of one topic keep their order.
pub fn ordered(messages: Vec<Message>) -> Result<Vec<Message>, AllocError>
    ensures { IfOk result (λ list. IsOrdered messages.items list.items) }
{
    let mut messages = messages;
    messages.sort_by(|one, other| one.topic.cmp(&other.topic))?;
    Ok(messages)
}

/// Sorts the messages of each list like `ordered`.
pub fn all_ordered(alloc: Global, lists: Vec<Vec<Message>>) -> Result<Vec<Vec<Message>>, AllocError>
    ensures { IfOk result (λ all. AllZip IsOrdered (map (λ v. v.items) lists.items) (map (λ v. v.items) all.items)) }
{
    let mut all = Vec::with_capacity(alloc, lists.len())?;
    for messages in lists {
        all.push(ordered(messages)?)?;
    }
    Ok(all)
}
