//! The acts of a broker as text.

use crate::rows::wrong::Wrong;
use mq_hub::{Act, HubReply};
use mq_packet::Message;
use mq_topic::ClientKey;
use std::alloc::{AllocError, Global};

/// Adds bytes as hexadecimal digits.
pub(crate) fn add_digits(text: &mut String, bytes: &[u8]) -> Result<(), AllocError> {
    for byte in bytes {
        write!(text, "{byte:02x}")?;
    }
    Ok(())
}

// Adds a message of a client: its key, topic name, QoS, `r` if RETAIN is set, and the payload in
// hexadecimal, or `-`.
fn add_message(
    text: &mut String,
    what: &str,
    key: ClientKey,
    message: &Message,
) -> Result<(), AllocError> {
    let (topic, qos) = (message.topic.as_str(), message.qos.number());
    let retain = if message.retain { "r" } else { "" };
    write!(text, "{what} k{} {topic} {qos}{retain} ", key.get())?;
    if message.payload.as_slice().is_empty() {
        text.push_str("-")?;
    }
    add_digits(text, message.payload.as_slice())
}

// Adds an act: connections by their numbers, clients by their keys.
fn add_act(text: &mut String, act: &Act) -> Result<(), AllocError> {
    match act {
        Act::Up(conn, key, present) => {
            let again = if *present { "again" } else { "new" };
            write!(text, "up {} k{} {again}", conn.nth, key.get())
        }
        Act::Took(key, message) => add_message(text, "took", *key, message),
        Act::Placed(key, message) => add_message(text, "placed", *key, message),
        Act::Missed(key, message) => add_message(text, "missed", *key, message),
        Act::Will(key, message) => add_message(text, "will", *key, message),
        Act::Subscribed(key, filter, qos) => {
            let (filter, qos) = (filter.as_str(), qos.number());
            write!(text, "set k{} {filter} {qos}", key.get())
        }
        Act::Unsubscribed(key, filter) => {
            write!(text, "unset k{} {}", key.get(), filter.as_str())
        }
        Act::WillDropped(key) => write!(text, "will dropped k{}", key.get()),
        Act::Closed(conn, why) => write!(text, "closed {} {}", conn.nth, why.code()),
        Act::Removed(key) => write!(text, "removed k{}", key.get()),
    }
}

/// Adds acts, with a comma between each two of them.
pub(crate) fn add_acts(text: &mut String, acts: &[Act]) -> Result<(), AllocError> {
    for act in acts {
        if !matches!(text.as_bytes().last(), None | Some(b'|' | b'\n')) {
            text.push_str(", ")?;
        }
        add_act(text, act)?;
    }
    Ok(())
}

/// Adds a reply: the acts, then the collected bytes, and `.` if the connection is not open.
pub(crate) fn add_reply(text: &mut String, reply: &HubReply) -> Result<(), AllocError> {
    add_acts(text, reply.acts.as_slice())?;
    add_digits(text, reply.output.as_slice())?;
    text.push_str(if reply.alive { "" } else { "." })
}

/// The text of a reply.
pub(crate) fn told(alloc: Global, reply: &HubReply) -> Result<String, Wrong> {
    let mut text = String::new(alloc);
    add_reply(&mut text, reply)?;
    Ok(text)
}
