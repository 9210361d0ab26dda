//! The results of bytes, packets and calls as short texts.

use crate::messages::add_word;
use crate::wrong::Wrong;
use mq_end::{CloseReason, Happening, PacketOutcome, Progress, PublishRefusal, SmallList, State};
use mq_flow::Session;
use mq_packet::{Message, PacketId};
use std::alloc::AllocError;

fn add_handed(told: &mut String, message: &Message) -> Result<(), AllocError> {
    let topic = message.topic.as_str();
    let qos = message.qos.number();
    let retain = if message.retain { "r" } else { "" };
    write!(told, "handed {topic} {qos}{retain} ")?;
    add_word(told, message.payload.as_slice())
}

// Adds a happening.
fn add_happening(told: &mut String, happening: &Happening) -> Result<(), AllocError> {
    match happening {
        Happening::Up { session_present } => write!(told, "up {session_present}"),
        Happening::Handed(message) => add_handed(told, message),
        Happening::Subscribe { id, requests } => {
            let count = requests.as_slice().len();
            write!(told, "subscribe {} {count}", id.get())
        }
        Happening::Unsubscribe { id, filters } => {
            let count = filters.as_slice().len();
            write!(told, "unsubscribe {} {count}", id.get())
        }
        Happening::SubAck { id, codes } => {
            let count = codes.as_slice().len();
            write!(told, "suback {} {count}", id.get())
        }
        Happening::UnsubAck(id) => write!(told, "unsuback {}", id.get()),
        Happening::Pong => told.push_str("pong"),
    }
}

fn add_comma(told: &mut String) -> Result<(), AllocError> {
    if told.is_empty() {
        return Ok(());
    }
    told.push_str(", ")
}

pub(crate) fn add_happenings(
    told: &mut String,
    happenings: &[Happening],
) -> Result<(), AllocError> {
    for happening in happenings {
        add_comma(told)?;
        add_happening(told, happening)?;
    }
    Ok(())
}

/// Adds happenings that are taken out of their list one by one.
pub(crate) fn add_each(told: &mut String, happenings: SmallList<Happening>) -> Result<(), Wrong> {
    for happening in happenings {
        add_comma(told)?;
        add_happening(told, &happening)?;
    }
    Ok(())
}

fn add_acknowledged(told: &mut String, acknowledged: &[PacketId]) -> Result<(), AllocError> {
    for id in acknowledged {
        add_comma(told)?;
        write!(told, "acknowledged {}", id.get())?;
    }
    Ok(())
}

fn add_closed(told: &mut String, closed: Option<CloseReason>) -> Result<(), AllocError> {
    if let Some(closed) = closed {
        add_comma(told)?;
        write!(told, "closed {closed:?}")?;
    }
    Ok(())
}

fn add_parts(told: &mut String, progress: &Progress) -> Result<(), AllocError> {
    add_happenings(told, progress.happenings.as_slice())?;
    add_acknowledged(told, progress.acknowledged.as_slice())?;
    add_closed(told, progress.closed)
}

pub(crate) fn add_progress(told: &mut String, progress: &Progress) -> Result<(), Wrong> {
    let copy = progress.clone()?;
    Ok(add_parts(told, &copy)?)
}

pub(crate) fn add_outcome(told: &mut String, outcome: &PacketOutcome) -> Result<(), Wrong> {
    if let Some(happening) = &outcome.happening {
        add_happening(told, happening)?;
    }
    if let Some(id) = outcome.acknowledged {
        add_comma(told)?;
        write!(told, "acknowledged {}", id.get())?;
    }
    Ok(add_closed(told, outcome.closed)?)
}

/// Adds a state.
pub(crate) fn add_state(told: &mut String, state: State) -> Result<(), Wrong> {
    Ok(write!(told, "{state:?}")?)
}

/// Adds the identifier that a message got, if any, or why it was refused.
pub(crate) fn add_published(
    told: &mut String,
    answer: Result<Option<PacketId>, PublishRefusal>,
) -> Result<(), Wrong> {
    match answer {
        Ok(Some(id)) => write!(told, "published {}", id.get())?,
        Ok(None) => told.push_str("published")?,
        Err(why) => write!(told, "refused {why:?}")?,
    }
    Ok(())
}

/// Adds the identifier of a request, or why it was refused.
pub(crate) fn add_asked(
    told: &mut String,
    answer: Result<PacketId, PublishRefusal>,
) -> Result<(), Wrong> {
    match answer {
        Ok(id) => write!(told, "asked {}", id.get())?,
        Err(why) => write!(told, "refused {why:?}")?,
    }
    Ok(())
}

/// Adds that a call was made, or why it was refused.
pub(crate) fn add_done(told: &mut String, answer: Result<(), PublishRefusal>) -> Result<(), Wrong> {
    match answer {
        Ok(()) => told.push_str("done")?,
        Err(why) => write!(told, "refused {why:?}")?,
    }
    Ok(())
}

pub(crate) fn add_late(told: &mut String, closed: Option<CloseReason>) -> Result<(), Wrong> {
    Ok(write!(told, "{closed:?}")?)
}

pub(crate) fn add_deadline(told: &mut String, deadline: Option<u64>) -> Result<(), Wrong> {
    Ok(write!(told, "{deadline:?}")?)
}

/// Adds a session: whether it is idle, for how many identifiers it has room, and how many of them
/// are left.
pub(crate) fn add_session(told: &mut String, session: Option<&Session>) -> Result<(), Wrong> {
    let Some(session) = session else {
        return Ok(told.push_str("none")?);
    };
    let sender = &session.sender;
    told.push_str(if sender.is_idle() { "idle" } else { "busy" })?;
    Ok(write!(told, " {} {}", sender.capacity(), sender.left())?)
}
