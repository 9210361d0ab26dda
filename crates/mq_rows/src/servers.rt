//! Server ends: the result and the output of each call.

use crate::arrivals::{receive, take_view};
use crate::brief::{
    add_deadline, add_done, add_late, add_outcome, add_progress, add_published, add_session,
    add_state,
};
use crate::fields::bytes_of;
use crate::messages::{add_short, message, packet_of};
use crate::sessions::Books;
use crate::words::Words;
use crate::wrong::Wrong;
use mq_end::{ByteQueue, ServerConfig, ServerEnd};
use mq_packet::{Message, NonEmpty, Packet, SubAckCode};
use std::alloc::Global;

fn config(words: &mut Words<'_>) -> Result<ServerConfig, Wrong> {
    let capacity = words.number()?;
    let limits = words.limits()?;
    let window = words.short_if_any()?;
    Ok(ServerConfig {
        limits,
        capacity,
        window,
    })
}

/// `new server ROOM LIMIT [WINDOW]`.
pub(crate) fn new_server(alloc: Global, words: &mut Words<'_>) -> Result<ServerEnd, Wrong> {
    let config = config(words)?;
    if config.capacity == 0 || config.window == Some(0) {
        return Err(Wrong::Words);
    }
    Ok(ServerEnd::new(alloc, config))
}

pub(crate) fn resume(
    alloc: Global,
    books: Books,
    words: &mut Words<'_>,
) -> Result<Option<ServerEnd>, Wrong> {
    let config = config(words)?;
    if config.window.is_some() {
        return Err(Wrong::Words);
    }
    Ok(ServerEnd::with_session(alloc, config, books.session))
}

fn take_whole(
    alloc: Global,
    server: &mut ServerEnd,
    moment: u64,
    words: &mut Words<'_>,
    told: &mut String,
) -> Result<(), Wrong> {
    let packet = packet_of(alloc, words)?;
    write!(told, "{}", server.would_hand(&packet))?;
    add_progress(told, &server.on_packet(moment, packet))
}

fn take(
    alloc: Global,
    server: &mut ServerEnd,
    moment: u64,
    words: &mut Words<'_>,
    told: &mut String,
) -> Result<(), Wrong> {
    let packet = packet_of(alloc, words)?;
    add_outcome(told, &server.take_packet(moment, packet)?)
}

// `hand BYTES`: the message of a PUBLISH arrives, which stays here.
fn hand(
    alloc: Global,
    server: &mut ServerEnd,
    moment: u64,
    words: &mut Words<'_>,
    told: &mut String,
) -> Result<(), Wrong> {
    let Packet::Publish(publish) = packet_of(alloc, words)? else {
        return Err(Wrong::Words);
    };
    let delivery = publish.delivery();
    let message = publish.into_message();
    let handing = server.receive_publish(moment, &message, delivery)?;
    Ok(write!(told, "{handing:?}")?)
}

// `publish QOS BYTES`: a message to `t`.
fn publish(
    alloc: Global,
    server: &mut ServerEnd,
    words: &mut Words<'_>,
    told: &mut String,
) -> Result<(), Wrong> {
    let qos = words.qos()?;
    let message = message(alloc, "t", qos, bytes_of(alloc, words)?)?;
    add_published(told, server.publish(message))
}

fn suback(
    alloc: Global,
    server: &mut ServerEnd,
    words: &mut Words<'_>,
    told: &mut String,
) -> Result<(), Wrong> {
    let id = words.id()?;
    let codes = vec![in alloc; SubAckCode::Failure; words.number()?]?;
    if codes.is_empty() {
        return Err(Wrong::Words);
    }
    add_done(told, server.suback(id, NonEmpty::from_vec(codes)))
}

// `unsuback ID`: an UNSUBSCRIBE is answered.
fn unsuback(server: &mut ServerEnd, words: &mut Words<'_>, told: &mut String) -> Result<(), Wrong> {
    add_done(told, server.unsuback(words.id()?))
}

// Adds messages with a payload, of the qualities of service that the other words are.
fn add_messages(
    alloc: Global,
    messages: &mut Vec<Message>,
    payload: &[u8],
    words: &mut Words<'_>,
) -> Result<(), Wrong> {
    for word in words.rest() {
        let payload = Vec::from_slice(alloc, payload)?;
        messages.push(message(alloc, "t", Words::new(word).qos()?, payload)?)?;
    }
    Ok(())
}

// The messages of the other words: `BYTES QOS ..`.
fn messages(alloc: Global, words: &mut Words<'_>) -> Result<Vec<Message>, Wrong> {
    let payload = bytes_of(alloc, words)?;
    let mut messages = Vec::new(alloc);
    add_messages(alloc, &mut messages, payload.as_slice(), words)?;
    Ok(messages)
}

fn ready(
    alloc: Global,
    server: &mut ServerEnd,
    words: &mut Words<'_>,
    told: &mut String,
) -> Result<(), Wrong> {
    let more = words.number()?;
    let messages = messages(alloc, words)?;
    match server.ready(messages.as_slice(), more) {
        Ok(()) => told.push_str("ready")?,
        Err(why) => write!(told, "{why:?}")?,
    }
    Ok(())
}

fn add_ready(
    server: &mut ServerEnd,
    packet: &Packet,
    messages: &[Message],
    more: usize,
    told: &mut String,
) -> Result<(), Wrong> {
    let Packet::Connect(connect) = packet else {
        return Err(Wrong::Words);
    };
    match server.reserve_connect(connect.as_connect(), messages, more) {
        Ok(()) => told.push_str("ready")?,
        Err(_) => told.push_str("no memory")?,
    }
    Ok(())
}

// `reserve_connect MORE PACKET BYTES QOS ..`
fn reserve_connect(
    alloc: Global,
    server: &mut ServerEnd,
    words: &mut Words<'_>,
    told: &mut String,
) -> Result<(), Wrong> {
    let more = words.number()?;
    let packet = packet_of(alloc, words)?;
    let messages = messages(alloc, words)?;
    add_ready(server, &packet, messages.as_slice(), more, told)
}

// `swap BYTES`: these for the pending output.
fn swap(
    alloc: Global,
    server: &mut ServerEnd,
    words: &mut Words<'_>,
    told: &mut String,
) -> Result<(), Wrong> {
    let bytes = bytes_of(alloc, words)?;
    let mut queue = ByteQueue::new(alloc);
    queue.append(bytes.as_slice())?;
    server.swap_output(&mut queue);
    Ok(add_short(told, queue.as_slice())?)
}

fn tell_of_server(
    alloc: Global,
    server: &mut ServerEnd,
    act: &str,
    words: &mut Words<'_>,
    told: &mut String,
) -> Result<(), Wrong> {
    match act {
        "suback" => suback(alloc, server, words, told),
        "unsuback" => unsuback(server, words, told),
        "deadline" => add_deadline(told, server.next_deadline()),
        "ready" => ready(alloc, server, words, told),
        "reserve_connect" => reserve_connect(alloc, server, words, told),
        _ => Err(Wrong::Words),
    }
}

pub(crate) fn tell(
    alloc: Global,
    server: &mut ServerEnd,
    moment: u64,
    words: &mut Words<'_>,
    told: &mut String,
) -> Result<(), Wrong> {
    let act = words.word()?;
    match act {
        "open" => {
            server.opened(moment);
            add_state(told, server.state())
        }
        "receive" => receive(alloc, server, moment, words, told),
        "view" => take_view(alloc, server, moment, words, told),
        "packet" => take_whole(alloc, server, moment, words, told),
        "take" => take(alloc, server, moment, words, told),
        "hand" => hand(alloc, server, moment, words, told),
        "publish" => publish(alloc, server, words, told),
        "tick" => add_late(told, server.tick(moment)),
        "lose" => {
            server.dropped();
            add_state(told, server.state())
        }
        "session" => add_session(told, server.session()),
        "swap" => swap(alloc, server, words, told),
        _ => tell_of_server(alloc, server, act, words, told),
    }
}

pub(crate) fn see(
    server: &mut ServerEnd,
    written: Option<usize>,
    seen: &mut String,
) -> Result<(), Wrong> {
    let Some(written) = written else {
        let output = server.take_all_output();
        return Ok(add_short(seen, output.as_slice())?);
    };
    if server.output().len() < written {
        return Err(Wrong::Words);
    }
    server.take_output(written);
    Ok(add_short(seen, server.output())?)
}
