//! Answers of a world, as short texts.

use mq_end::{Happening, Progress};
use mq_packet::{Message, PacketId};
use mq_world::{Answer, DeliveredBytes, Opening, Settling};
use std::alloc::{AllocError, Global};

// Adds bytes as hexadecimal digits.
pub(crate) fn add_hex(text: &mut String, bytes: &[u8]) -> Result<(), AllocError> {
    for byte in bytes {
        write!(text, "{byte:02x}")?;
    }
    Ok(())
}

fn add_message(text: &mut String, message: &Message) -> Result<(), AllocError> {
    let topic = message.topic.as_str();
    let qos = message.qos.number();
    write!(text, ", handed {topic} {qos} ")?;
    add_hex(text, message.payload.as_slice())
}

fn add_happening(text: &mut String, happening: &Happening) -> Result<(), AllocError> {
    match happening {
        Happening::Up { session_present } => write!(text, ", up {session_present}"),
        Happening::Handed(message) => add_message(text, message),
        Happening::Pong => text.push_str(", pong"),
        _ => text.push_str(", other"),
    }
}

fn add_happenings(text: &mut String, happenings: &[Happening]) -> Result<(), AllocError> {
    for happening in happenings {
        add_happening(text, happening)?;
    }
    Ok(())
}

fn add_acknowledged(text: &mut String, acknowledged: &[PacketId]) -> Result<(), AllocError> {
    for id in acknowledged {
        write!(text, ", acknowledged {}", id.get())?;
    }
    Ok(())
}

fn add_progress(text: &mut String, progress: &Progress) -> Result<(), AllocError> {
    add_happenings(text, progress.happenings.as_slice())?;
    add_acknowledged(text, progress.acknowledged.as_slice())?;
    match progress.closed {
        Some(closed) => write!(text, ", closed {closed:?}"),
        None => Ok(()),
    }
}

fn add_delivery(text: &mut String, delivery: &DeliveredBytes) -> Result<(), AllocError> {
    add_hex(text, delivery.bytes.as_slice())?;
    if delivery.lost {
        text.push_str(", lost")?;
    }
    add_progress(text, &delivery.progress)
}

fn add_opening(text: &mut String, opening: Opening) -> Result<(), AllocError> {
    text.push_str("opened")?;
    if opening.client_dropped {
        text.push_str(", client dropped")?;
    }
    if opening.server_dropped {
        text.push_str(", server dropped")?;
    }
    if opening.refused {
        text.push_str(", refused")?;
    }
    Ok(())
}

// Adds the opening, the deliveries, each behind a semicolon, and whether the ends are idle.
fn add_settling(text: &mut String, settling: &Settling) -> Result<(), AllocError> {
    add_opening(text, settling.opening)?;
    for delivery in settling.deliveries.as_slice() {
        text.push_str("; ")?;
        add_delivery(text, delivery)?;
    }
    write!(text, "; idle {}", settling.idle)
}

fn add_answer(text: &mut String, answer: &Answer) -> Result<(), AllocError> {
    match answer {
        Answer::Published(_, Ok(Some(id))) => write!(text, "published {}", id.get())?,
        Answer::Published(_, Ok(None)) => text.push_str("published")?,
        Answer::Published(_, Err(why)) => write!(text, "refused {why:?}")?,
        Answer::Delivered(delivery) => add_delivery(text, delivery)?,
        Answer::Dropped(_, was_open) => write!(text, "dropped {was_open}")?,
        Answer::Restarted(was_open, Ok(())) => write!(text, "restarted {was_open}")?,
        Answer::Restarted(_, Err(why)) => write!(text, "refused {why:?}")?,
        Answer::Left(Ok(())) => text.push_str("left")?,
        Answer::Left(Err(why)) => write!(text, "refused {why:?}")?,
        Answer::Opened(opening) => add_opening(text, *opening)?,
        Answer::Ticked(_, Ok(Some(closed))) => write!(text, "ticked, closed {closed:?}")?,
        Answer::Ticked(_, Ok(None)) => text.push_str("ticked")?,
        Answer::Ticked(_, Err(why)) => write!(text, "refused {why:?}")?,
        Answer::Settled(settling) => add_settling(text, settling)?,
    }
    Ok(())
}

pub(crate) fn told(alloc: Global, answer: &Answer) -> Result<String, AllocError> {
    let mut text = String::new(alloc);
    add_answer(&mut text, answer)?;
    Ok(text)
}

pub(crate) fn told_of_copy(alloc: Global, answer: Answer) -> Result<String, AllocError> {
    let copy = answer.clone()?;
    told(alloc, &copy)
}
