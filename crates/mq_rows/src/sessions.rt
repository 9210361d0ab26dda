//! Sessions: what each call on their books answers, and what the books are then.

ghost use Rattle.std.specs.Prelude.{◌≡◌, IfOk, OnOk};
ghost use Rattle.mq_topic.specs.declared.qos.Qos.TheVariants.{Q0};

use crate::fields::bytes_of;
use crate::messages::{add_short, message};
use crate::words::Words;
use crate::wrong::Wrong;
use mq_flow::{Claim, Reaction, ReceiveRefusal, Refusal, Sender, Session};
use mq_packet::{Message, Packet, PacketId};
use mq_topic::Qos;
use mq_wire::Text;
use std::alloc::{AllocError, Global};

/// A session, and the receiving window of its end.
#[derive(Drop)]
pub(crate) struct Books {
    pub(crate) session: Session,
    window: Option<u16>,
}

/// `new session ROOM [WINDOW]`.
pub(crate) fn new_books(alloc: Global, words: &mut Words<'_>) -> Result<Books, Wrong> {
    let capacity = words.number()?;
    let window = words.short_if_any()?;
    if capacity == 0 {
        return Err(Wrong::Words);
    }
    let session = Session::new(alloc, capacity);
    Ok(Books { session, window })
}

/// `new loaded BYTES`: the session of which these are the saved form.
pub(crate) fn loaded_books(alloc: Global, words: &mut Words<'_>) -> Result<Books, Wrong> {
    let bytes = bytes_of(alloc, words)?;
    match Session::load(alloc, bytes.as_slice()) {
        Ok(session) => Ok(Books {
            session,
            window: None,
        }),
        Err(_) => Err(Wrong::Words),
    }
}

// Adds the identifier that was given, or why none was.
fn add_given(told: &mut String, given: Result<PacketId, Refusal>) -> Result<(), Wrong> {
    match given {
        Ok(id) => write!(told, "{}", id.get())?,
        Err(why) => write!(told, "{why:?}")?,
    }
    Ok(())
}

// `accept TOPIC QOS [BYTES]`: a message with the payload of these bytes, or `78`.
fn accept(
    alloc: Global,
    sender: &mut Sender,
    words: &mut Words<'_>,
    told: &mut String,
) -> Result<(), Wrong> {
    let message = next_message(alloc, words)?;
    if message.qos == Qos::Q0 {
        return Err(Wrong::Words);
    }
    add_given(told, sender.accept(message))
}

fn next_message(alloc: Global, words: &mut Words<'_>) -> Result<Message, Wrong> {
    let topic = words.word()?;
    let qos = words.qos()?;
    let payload = if words.is_empty() {
        vec![in alloc; b'x']?
    } else {
        bytes_of(alloc, words)?
    };
    message(alloc, topic, qos, payload)
}

fn claim(session: &mut Session, words: &mut Words<'_>, told: &mut String) -> Result<(), Wrong> {
    let given = if words.is_empty() {
        session.claim_id(Claim::Unsubscribe, 1)
    } else {
        session.claim_id(Claim::Subscribe, words.number()?)
    };
    add_given(told, given)
}

fn awaits(sender: &Sender, words: &mut Words<'_>, told: &mut String) -> Result<(), Wrong> {
    let id = words.id()?;
    let awaits = if words.is_empty() {
        sender.awaits_unsuback(id)
    } else {
        sender.awaits_suback(id, words.number()?)
    };
    write!(told, "{awaits}")?;
    Ok(())
}

// Adds the lines of packets.
fn add_lines(told: &mut String, packets: &[Packet]) -> Result<(), AllocError> {
    for packet in packets {
        write!(told, "{packet};")?;
    }
    Ok(())
}

fn resend(alloc: Global, sender: &mut Sender, told: &mut String) -> Result<(), Wrong> {
    let mut packets = Vec::new(alloc);
    sender.resend(&mut packets)?;
    add_lines(told, packets.as_slice())?;
    Ok(())
}

fn add_received(
    told: &mut String,
    received: &Result<(Option<Message>, Packet), ReceiveRefusal>,
) -> Result<(), Wrong> {
    match received {
        Ok((handed, answer)) => write!(told, "{} {answer}", handed.is_some())?,
        Err(why) => write!(told, "{why}")?,
    }
    Ok(())
}

// A message that a PUBLISH of this quality of service, 1 or 2, carries.
fn received_message(alloc: Global, qos: Qos) -> Result<Message, Wrong>
    ensures own { IfOk result (λ message. qos ≡ message.qos) }
    ensures acknowledged { OnOk result (qos ≡ Q0 → ⊥) }
{
    if qos == Qos::Q0 {
        return Err(Wrong::Words);
    }
    message(alloc, "t", qos, vec![in alloc; b'x']?)
}

// `receive ID QOS`: a message arrives.
fn receive(
    alloc: Global,
    books: &mut Books,
    words: &mut Words<'_>,
    told: &mut String,
) -> Result<(), Wrong> {
    let id = words.id()?;
    let qos = words.qos()?;
    let message = received_message(alloc, qos)?;
    let receiver = &mut books.session.receiver;
    add_received(told, &receiver.on_publish(id, qos, message, books.window))
}

// `pubrel ID`: a PUBREL comes.
fn release(session: &mut Session, words: &mut Words<'_>, told: &mut String) -> Result<(), Wrong> {
    let answer = session.receiver.on_pubrel(words.id()?);
    write!(told, "{answer}")?;
    Ok(())
}

// `save`, or `save CLIENT` of a client's session that is established: the saved form, behind a byte
// that was there.
fn save(
    alloc: Global,
    session: &Session,
    words: &mut Words<'_>,
    told: &mut String,
) -> Result<(), Wrong> {
    let mut out = vec![in alloc; 7]?;
    add_form(alloc, session, words, &mut out)?;
    add_short(told, out.as_slice())?;
    Ok(())
}

fn add_form(
    alloc: Global,
    session: &Session,
    words: &mut Words<'_>,
    out: &mut Vec<u8>,
) -> Result<(), Wrong> {
    let Some(client) = words.next() else {
        return Ok(session.save(out)?);
    };
    let client = Text::new(alloc, client).ok().ok_or(Wrong::Words)?;
    Ok(session.save_with_client(&client, true, out)?)
}

fn add_reaction(told: &mut String, reaction: Reaction) -> Result<(), Wrong> {
    Ok(write!(told, "{reaction:?}")?)
}

/// Adds the identifier that comes next.
pub(crate) fn add_next(told: &mut String, sender: &Sender) -> Result<(), Wrong> {
    match sender.next_id() {
        Some(id) => write!(told, "{}", id.get())?,
        None => told.push_str("none")?,
    }
    Ok(())
}

// An act of the sender's.
fn tell_of_sender(
    alloc: Global,
    sender: &mut Sender,
    act: &str,
    words: &mut Words<'_>,
    told: &mut String,
) -> Result<(), Wrong> {
    match act {
        "accept" => accept(alloc, sender, words, told),
        "awaits" => awaits(sender, words, told),
        "resend" => resend(alloc, sender, told),
        "next" => add_next(told, sender),
        "puback" => add_reaction(told, sender.on_puback(words.id()?)),
        "pubrec" => add_reaction(told, sender.on_pubrec(words.id()?)),
        "pubcomp" => add_reaction(told, sender.on_pubcomp(words.id()?)),
        "reserve" => Ok(sender.reserve(words.number()?)?),
        _ => Err(Wrong::Words),
    }
}

pub(crate) fn tell(
    alloc: Global,
    books: &mut Books,
    words: &mut Words<'_>,
    told: &mut String,
) -> Result<(), Wrong> {
    let act = words.word()?;
    match act {
        "receive" => return receive(alloc, books, words, told),
        "pubrel" => return release(&mut books.session, words, told),
        "save" => return save(alloc, &books.session, words, told),
        "stored" => write!(told, "{}", books.session.receiver.identifiers())?,
        "claim" => return claim(&mut books.session, words, told),
        "release" => books.session.release_id(words.id()?),
        "free" => books.session.sender.free_claims(),
        "sent" => books.session.sender.mark_sent(),
        _ => return tell_of_sender(alloc, &mut books.session.sender, act, words, told),
    }
    Ok(())
}

// Adds the messages of a sender.
fn add_entries(text: &mut String, sender: &Sender) -> Result<(), AllocError> {
    for entry in sender.entries() {
        let sent = if entry.sent { "+" } else { "" };
        let topic = entry.message.topic.as_str();
        write!(text, "{}{topic}{sent} ", entry.id.get())?;
    }
    Ok(())
}

/// Adds the messages in order, each with its identifier and a + if it was sent; then the numbers
/// of released, claimed and free identifiers.
pub(crate) fn see(session: &Session, seen: &mut String) -> Result<(), Wrong> {
    let sender = &session.sender;
    add_entries(seen, sender)?;
    let (released, claims) = (sender.released(), session.pending().len());
    write!(seen, "{released} {claims} {}", sender.left())?;
    Ok(())
}
