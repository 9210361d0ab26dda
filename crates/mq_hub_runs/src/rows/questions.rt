//! Questions to a broker, and runs.

ghost use Rattle.std.specs.Prelude.{◌<◌, IfSome};

use crate::rows::events::{bytes_of, conn, conn_of};
use crate::rows::portions::add_size;
use crate::rows::told::add_reply;
use crate::rows::wrong::Wrong;
use bytes::Bytes;
use mq_hub::{ClientLog, Hub, HubConfig, HubEvent, HubReply, hub_run};
use mq_wire::Text;
use std::alloc::{AllocError, Global};

/// `known 1`: whether a connection exists.
pub(crate) fn known(hub: &Hub, word: &str, told: &mut String) -> Result<(), Wrong> {
    Ok(write!(told, "{}", hub.knows(conn_of(word)?))?)
}

fn add_names(told: &mut String, names: &[Text]) -> Result<(), AllocError> {
    for (index, name) in names.iter().enumerate() {
        if index > 0 {
            told.push_str(" ")?;
        }
        told.push_str(name.as_str())?;
    }
    Ok(())
}

/// `sessions`: the clients that have one.
pub(crate) fn sessions(hub: &Hub, told: &mut String) -> Result<(), Wrong> {
    let names = hub.sessions()?;
    Ok(add_names(told, names.as_slice())?)
}

/// `counts`: those of the broker, and of each session.
pub(crate) fn counts(hub: &Hub, told: &mut String) -> Result<(), Wrong> {
    let counts = hub.counts();
    write!(
        told,
        "{} {} {}",
        counts.sessions, counts.retained, counts.stored
    )?;
    for index in 0..counts.sessions {
        if let (Some(client), Some(each)) = (hub.session_client(index), hub.session_counts(index)) {
            let name = client.as_str();
            write!(told, ", {name} {} {}", each.stored, each.is_full)?;
        }
    }
    Ok(())
}

fn add_replies(told: &mut String, replies: &[HubReply]) -> Result<(), AllocError> {
    for reply in replies {
        add_reply(told, reply)?;
        told.push_str("|")?;
    }
    Ok(())
}

fn add_accounts(told: &mut String, accounts: &[ClientLog]) -> Result<(), AllocError> {
    for account in accounts {
        let (taken, placed) = (account.taken.as_slice(), account.placed.as_slice());
        write!(told, " {}-{}", taken.len(), placed.len())?;
    }
    Ok(())
}

/// `run`: the trace and the sessions of a run of these events, or why it is refused.
pub(crate) fn run(
    alloc: Global,
    config: HubConfig,
    events: &[HubEvent],
    told: &mut String,
) -> Result<(), Wrong>
    requires capacity { 0 < config.capacity }
    requires window { IfSome config.window (λ most. 0 < most) }
{
    match hub_run(alloc, config, events) {
        Ok((hub, trace)) => {
            add_replies(told, trace.replies.as_slice())?;
            add_accounts(told, trace.accounts.as_slice())?;
            told.push_str("; ")?;
            sessions(&hub, told)
        }
        Err(why) => Ok(told.push_str(why.code())?),
    }
}

// A CONNECT up to its client identifier of four bytes, and a SUBSCRIBE to `a` of QoS 0.
const CONNECT: &[u8] = b"\x10\x10\x00\x04MQTT\x04\x02\x00\x00\x00\x04";

const SUBSCRIBE: &[u8] = b"\x82\x06\x00\x01\x00\x01a\x00";

fn arrival(alloc: Global, nth: u32) -> Result<HubEvent, Wrong> {
    let name = format!(in alloc; "{nth:04}")?;
    let mut bytes = Vec::from_slice(alloc, CONNECT)?;
    bytes.extend_from_slice(name.as_bytes())?;
    bytes.extend_from_slice(SUBSCRIBE)?;
    Ok(HubEvent::Bytes(conn(nth), Bytes::from_vec(bytes)?))
}

/// `crowd 1000`: clients connect, on connections from 0 on, and subscribe to `a`.
pub(crate) fn crowd(alloc: Global, hub: &mut Hub, word: &str) -> Result<(), Wrong> {
    let count = word.parse().ok().ok_or(Wrong::Words)?;
    for nth in 0..count {
        hub.step(&HubEvent::Opened(conn(nth)))?;
        hub.step(&arrival(alloc, nth)?)?;
    }
    Ok(())
}

/// `portion 0 1000 3004..`: the size of a portion.
pub(crate) fn portion(
    alloc: Global,
    hub: &mut Hub,
    words: &str,
    told: &mut String,
) -> Result<(), Wrong> {
    let (number, words) = words.split_once(' ').ok_or(Wrong::Words)?;
    let (most, digits) = words.split_once(' ').unwrap_or((words, ""));
    let most_acts = most.parse().ok().ok_or(Wrong::Words)?;
    let bytes = bytes_of(alloc, digits)?;
    add_size(hub, conn_of(number)?, bytes.as_slice(), most_acts, told)
}
