//! Bytes that a broker handles in portions.

use crate::rows::told::add_acts;
use crate::rows::wrong::Wrong;
use mq_hub::{Conn, Hub, HubReply};
use std::alloc::Global;

// A piece of at most this many packets.
const MOST_PORTIONS: usize = 10_000;

// Adds the acts of a portion, and whether the connection is closed behind the last one.
fn add_portion(text: &mut String, reply: &HubReply, is_last: bool) -> Result<(), Wrong> {
    add_acts(text, reply.acts.as_slice())?;
    if is_last && !reply.alive {
        text.push_str(".")?;
    }
    Ok(())
}

// Handles a portion, and adds its acts. Returns the bytes behind those that were used.
fn take_portion<'a>(
    hub: &mut Hub,
    conn: Conn,
    piece: &'a [u8],
    most_acts: usize,
    text: &mut String,
) -> Result<&'a [u8], Wrong> {
    match hub.step_some(conn, piece, most_acts) {
        Ok((reply, used)) => {
            let rest = piece.get(used..).unwrap_or(b"");
            add_portion(text, &reply, rest.is_empty())?;
            Ok(rest)
        }
        Err(why) => {
            text.push_str(why.code())?;
            Ok(b"")
        }
    }
}

/// The acts of a piece that is handled in portions.
pub(crate) fn in_portions(
    alloc: Global,
    hub: &mut Hub,
    conn: Conn,
    piece: &[u8],
    most_acts: usize,
) -> Result<String, Wrong> {
    let mut text = String::new(alloc);
    let mut rest = piece;
    for _ in 0..MOST_PORTIONS {
        rest = take_portion(hub, conn, rest, most_acts, &mut text)?;
        if rest.is_empty() {
            break;
        }
    }
    Ok(text)
}

/// Adds the number of bytes that a portion uses, and of its acts, or the refusal.
pub(crate) fn add_size(
    hub: &mut Hub,
    conn: Conn,
    piece: &[u8],
    most_acts: usize,
    told: &mut String,
) -> Result<(), Wrong> {
    match hub.step_some(conn, piece, most_acts) {
        Ok((reply, used)) => write!(told, "{used} {}", reply.acts.as_slice().len())?,
        Err(why) => told.push_str(why.code())?,
    }
    Ok(())
}
