//! The texts of a diagram.

ghost use Rattle.std.specs.Prelude.{◌≡◌, Some, take};
ghost use Rattle.mq_picture.specs.Prelude.{DisplaysOnOk, escaped_byte, EscapeLaw, accepted_text, arrow_text, delivered_text, dots, dup_text, fate_text, id_text, kind_text, note_text, short_payload, short_topic, summary_text, xml_byte, xml_text};

use crate::entry::Note;
use crate::rows::{Arrow, Fate};
use crate::summary::{Kind, Summary};
use mq_packet::{Hex, Message, PacketId};
use std::fmt;

// The most bytes of a topic name and of a payload that a diagram shows.
const TOPIC_BYTES: usize = 16;

const PAYLOAD_BYTES: usize = 4;

// Writes a byte that is not special in XML.
fn write_other<W: fmt::Write>(f: &mut fmt::Formatter<W>, byte: u8) -> fmt::Result
    ensures { DisplaysOnOk W.write_str_gives f.old result (Some (escaped_byte byte)) f.new }
{
    if byte.is_ascii_graphic() && byte != b'%' {
        return f.write_char(char::from(byte));
    }
    let (high, low) = (byte / 16, byte % 16);
    write!(f, "%{high:x}{low:x}")
}

// Writes a byte of a text in XML. A byte outside 21 to 7e (hexadecimal), and `%`, is written as
// `%` and two hexadecimal digits.
fn write_xml_byte<W: fmt::Write>(f: &mut fmt::Formatter<W>, byte: u8) -> fmt::Result
    ensures { DisplaysOnOk W.write_str_gives f.old result (Some (xml_byte byte)) f.new }
{
    match byte {
        b'<' => f.write_str("&lt;"),
        b'>' => f.write_str("&gt;"),
        b'&' => f.write_str("&amp;"),
        b'"' => f.write_str("&quot;"),
        _ => write_other(f, byte),
    }
}

/// Displays bytes of a text in XML, in printable ASCII.
#[derive(Clone, Copy)]
pub struct XmlText<'a>(pub &'a [u8]);

impl fmt::Display for XmlText<'_> {
    ghost output = { λ text. Some (xml_text text.0.now) };

    fn fmt<W: fmt::Write>(&self, f: &mut fmt::Formatter<W>) -> fmt::Result {
        for byte in self.0 {
            write_xml_byte(f, *byte)?;
        }
        Ok(())
    }
}

/// States that the bytes of a text in XML have no raw `<`, `>`, `&` or `"`. Does nothing.
pub fn escapes()
    ensures { EscapeLaw }
{}

// The first bytes of a list.
fn first(bytes: &[u8], most: usize) -> &[u8]
    ensures { result.now ≡ take most bytes.now }
{
    &bytes[..bytes.len().min(most)]
}

// Writes two dots if a list has more bytes than are shown.
fn write_dots<W: fmt::Write>(f: &mut fmt::Formatter<W>, bytes: &[u8], most: usize) -> fmt::Result
    ensures { DisplaysOnOk W.write_str_gives f.old result (Some (dots most bytes.now)) f.new }
{
    if bytes.len() > most {
        return f.write_str("..");
    }
    Ok(())
}

// Writes the beginning of a topic name.
fn write_topic<W: fmt::Write>(f: &mut fmt::Formatter<W>, topic: &[u8]) -> fmt::Result
    ensures { DisplaysOnOk W.write_str_gives f.old result (Some (short_topic topic.now)) f.new }
{
    let shown = XmlText(first(topic, TOPIC_BYTES));
    write!(f, "{shown}")?;
    write_dots(f, topic, TOPIC_BYTES)
}

// Writes the beginning of a payload.
fn write_payload<W: fmt::Write>(f: &mut fmt::Formatter<W>, payload: &[u8]) -> fmt::Result
    ensures { DisplaysOnOk W.write_str_gives f.old result (Some (short_payload payload.now)) f.new }
{
    let shown = Hex(first(payload, PAYLOAD_BYTES));
    write!(f, "{shown}")?;
    write_dots(f, payload, PAYLOAD_BYTES)
}

// Writes that a message is delivered.
fn write_delivered<W: fmt::Write>(f: &mut fmt::Formatter<W>, message: &Message) -> fmt::Result
    ensures { DisplaysOnOk W.write_str_gives f.old result (Some (delivered_text message.now)) f.new }
{
    f.write_str("delivered: ")?;
    write_topic(f, message.topic.as_str().as_bytes())?;
    f.write_str(" ")?;
    write_payload(f, message.payload.as_slice())
}

// Writes that a message is accepted.
fn write_accepted<W: fmt::Write>(f: &mut fmt::Formatter<W>, id: Option<PacketId>) -> fmt::Result
    ensures { DisplaysOnOk W.write_str_gives f.old result (Some (accepted_text id)) f.new }
{
    match id {
        Some(id) => write!(f, "message {} accepted", id.get()),
        None => f.write_str("message accepted"),
    }
}

/// The text of a note.
#[derive(Clone, Copy)]
pub(crate) struct NoteText<'a>(pub(crate) &'a Note);

impl fmt::Display for NoteText<'_> {
    ghost output = { λ text. Some (note_text text.0.now) };

    fn fmt<W: fmt::Write>(&self, f: &mut fmt::Formatter<W>) -> fmt::Result {
        match self.0 {
            Note::Up(true) => f.write_str("connected, session present"),
            Note::Up(false) => f.write_str("connected, new session"),
            Note::Delivered(message) => write_delivered(f, message),
            Note::Accepted(id) => write_accepted(f, *id),
            Note::Refused(why) => write!(f, "refused {}", why.code()),
            Note::Closed(why) => write!(f, "closed {}", why.code()),
            Note::Dropped => f.write_str("connection lost"),
            Note::Restarted => f.write_str("restarted"),
            Note::Pong => f.write_str("answer to PINGREQ"),
        }
    }
}

// The name of a packet (2.2.1).
fn name_of(kind: Kind) -> &'static str
    ensures { result.now ≡ kind_text kind }
{
    match kind {
        Kind::Connect => "CONNECT",
        Kind::ConnAck => "CONNACK",
        Kind::Publish => "PUBLISH",
        Kind::PubAck => "PUBACK",
        Kind::PubRec => "PUBREC",
        Kind::PubRel => "PUBREL",
        Kind::PubComp => "PUBCOMP",
        Kind::Subscribe => "SUBSCRIBE",
        Kind::SubAck => "SUBACK",
        Kind::Unsubscribe => "UNSUBSCRIBE",
        Kind::UnsubAck => "UNSUBACK",
        Kind::PingReq => "PINGREQ",
        Kind::PingResp => "PINGRESP",
        Kind::Disconnect => "DISCONNECT",
    }
}

// Writes the identifier of a packet, if it has one (2.3.1).
fn write_id<W: fmt::Write>(f: &mut fmt::Formatter<W>, id: Option<PacketId>) -> fmt::Result
    ensures { DisplaysOnOk W.write_str_gives f.old result (Some (id_text id)) f.new }
{
    match id {
        Some(id) => write!(f, " {}", id.get()),
        None => Ok(()),
    }
}

// Writes DUP if it is set.
fn write_dup<W: fmt::Write>(f: &mut fmt::Formatter<W>, dup: bool) -> fmt::Result
    ensures { DisplaysOnOk W.write_str_gives f.old result (Some (dup_text dup)) f.new }
{
    if dup {
        return f.write_str(" DUP");
    }
    Ok(())
}

// Writes the name of a packet, its identifier and DUP.
fn write_summary<W: fmt::Write>(f: &mut fmt::Formatter<W>, packet: Summary) -> fmt::Result
    ensures { DisplaysOnOk W.write_str_gives f.old result (Some (summary_text packet)) f.new }
{
    f.write_str(name_of(packet.kind))?;
    write_id(f, packet.id)?;
    write_dup(f, packet.dup)
}

// Writes how the way of a packet ends.
fn write_fate<W: fmt::Write>(
    f: &mut fmt::Formatter<W>,
    fate: Fate,
    arrived: usize,
    size: u32,
) -> fmt::Result
    ensures { DisplaysOnOk W.write_str_gives f.old result (Some (fate_text fate arrived size)) f.new }
{
    match fate {
        Fate::Arrived => Ok(()),
        Fate::Discarded => f.write_str(": not connected"),
        Fate::Cut => write!(f, ": {arrived} of {size} bytes"),
        Fate::InFlight => write!(f, ": {arrived} of {size} bytes so far"),
    }
}

/// The text of an arrow: the packet, and how its way ends.
#[derive(Clone, Copy)]
pub(crate) struct ArrowText(pub(crate) Arrow);

impl fmt::Display for ArrowText {
    ghost output = { λ text. Some (arrow_text text.0) };

    fn fmt<W: fmt::Write>(&self, f: &mut fmt::Formatter<W>) -> fmt::Result {
        write_summary(f, self.0.packet)?;
        write_fate(f, self.0.fate, self.0.arrived, self.0.packet.size)
    }
}
