//! Texts, bytes and packets as they are printed, each on one line without the line's end.

ghost use Rattle.std.specs.Prelude.{◌≡◌, Some};
ghost use Rattle.mq_packet.specs.Prelude.{flat_map, DisplaysOnOk, code_text, connack_text, connect_text, delivery_text, escaped, escaped_byte, filter_text, hex_of, identified, is_dup, login_text, packet_text, password_text, publish_text, request_text, will_text};

use crate::binary::Binary;
use crate::connack::ConnAck;
use crate::connect::{Connect, Login, Will};
use crate::id::PacketId;
use crate::packet::{Packet, Request, SubAckCode};
use crate::publish::{Delivery, Publish};
use mq_topic::TopicFilter;
use std::fmt;

/// Displays a packet on one line, without a line end: its name and fields. Texts are displayed as
/// by `Escaped`, other bytes as by `Hex`, and truth values as 0 and 1.
impl fmt::Display for Packet {
    ghost output = { λ packet. Some (packet_text packet) };

    fn fmt<W: fmt::Write>(&self, f: &mut fmt::Formatter<W>) -> fmt::Result {
        match self {
            Packet::Connect(connect) => write_connect(f, connect.as_connect()),
            Packet::ConnAck(answer) => write_connack(f, *answer),
            Packet::Publish(publish) => write_publish(f, publish),
            Packet::PubAck(id) => write_identified(f, "PUBACK", *id),
            Packet::PubRec(id) => write_identified(f, "PUBREC", *id),
            Packet::PubRel(id) => write_identified(f, "PUBREL", *id),
            Packet::PubComp(id) => write_identified(f, "PUBCOMP", *id),
            Packet::Subscribe { id, requests } => {
                write_identified(f, "SUBSCRIBE", *id)?;
                write_requests(f, requests.as_slice())
            }
            Packet::SubAck { id, codes } => {
                write_identified(f, "SUBACK", *id)?;
                write_codes(f, codes.as_slice())
            }
            Packet::Unsubscribe { id, filters } => {
                write_identified(f, "UNSUBSCRIBE", *id)?;
                write_filters(f, filters.as_slice())
            }
            Packet::UnsubAck(id) => write_identified(f, "UNSUBACK", *id),
            Packet::PingReq => f.write_str("PINGREQ"),
            Packet::PingResp => f.write_str("PINGRESP"),
            Packet::Disconnect => f.write_str("DISCONNECT"),
        }
    }
}

// Writes a byte of a text: as it is if it is 21 to 7e (hexadecimal) and not `%`, else as `%` and
// two hexadecimal digits.
fn write_escaped<W: fmt::Write>(f: &mut fmt::Formatter<W>, byte: u8) -> fmt::Result
    ensures { DisplaysOnOk W.write_str_gives f.old result (Some (escaped_byte byte)) f.new }
{
    if byte.is_ascii_graphic() && byte != b'%' {
        return f.write_char(char::from(byte));
    }
    let (high, low) = (byte / 16, byte % 16);
    write!(f, "%{high:x}{low:x}")
}

/// Displays a text: its bytes 21 to 7e (hexadecimal) as they are, except `%`; each other byte, and
/// `%`, as `%` and two hexadecimal digits in lower case.
#[derive(Clone, Copy)]
pub struct Escaped<'a>(pub &'a str);

impl fmt::Display for Escaped<'_> {
    ghost output = { λ text. Some (escaped text.0.now) };

    fn fmt<W: fmt::Write>(&self, f: &mut fmt::Formatter<W>) -> fmt::Result {
        for byte in self.0.as_bytes() {
            write_escaped(f, *byte)?;
        }
        Ok(())
    }
}

/// Displays bytes as two hexadecimal digits each, in lower case.
#[derive(Clone, Copy)]
pub struct Hex<'a>(pub &'a [u8]);

impl fmt::Display for Hex<'_> {
    ghost output = { λ bytes. Some (hex_of bytes.0.now) };

    fn fmt<W: fmt::Write>(&self, f: &mut fmt::Formatter<W>) -> fmt::Result {
        for byte in self.0 {
            let (high, low) = (*byte / 16, *byte % 16);
            write!(f, "{high:x}{low:x}")?;
        }
        Ok(())
    }
}

// Writes the name of a packet and its identifier.
fn write_identified<W: fmt::Write>(
    f: &mut fmt::Formatter<W>,
    name: &str,
    id: PacketId,
) -> fmt::Result
    ensures { DisplaysOnOk W.write_str_gives f.old result (Some (identified name.now id)) f.new }
{
    write!(f, "{name} id={}", id.get())
}

// Writes a CONNECT (3.1).
fn write_connect<W: fmt::Write>(f: &mut fmt::Formatter<W>, connect: &Connect) -> fmt::Result
    ensures { DisplaysOnOk W.write_str_gives f.old result (Some (connect_text connect.now)) f.new }
{
    let id = Escaped(connect.client_id.as_str());
    let clean = u8::from(connect.clean_session);
    let keep = connect.keep_alive;
    write!(f, "CONNECT id={id} clean={clean} keep={keep}")?;
    write_will(f, &connect.will)?;
    write_login(f, &connect.login)
}

// Writes the will of a CONNECT, or nothing if there is none (3.1.2.5).
fn write_will<W: fmt::Write>(f: &mut fmt::Formatter<W>, will: &Option<Will>) -> fmt::Result
    ensures { DisplaysOnOk W.write_str_gives f.old result (Some (will_text will.now)) f.new }
{
    let Some(will) = will else {
        return Ok(());
    };
    let topic = Escaped(will.topic.as_str());
    let qos = will.qos.number();
    let retain = u8::from(will.retain);
    let message = Hex(will.message.as_slice());
    write!(
        f,
        " will={topic} wqos={qos} wretain={retain} wmsg={message}"
    )
}

// Writes the user name and the password of a CONNECT, or nothing if there are none (3.1.2.8).
fn write_login<W: fmt::Write>(f: &mut fmt::Formatter<W>, login: &Option<Login>) -> fmt::Result
    ensures { DisplaysOnOk W.write_str_gives f.old result (Some (login_text login.now)) f.new }
{
    let Some(login) = login else {
        return Ok(());
    };
    let name = Escaped(login.name.as_str());
    write!(f, " user={name}")?;
    write_password(f, &login.password)
}

// Writes the password of a CONNECT, or nothing if there is none (3.1.2.9).
fn write_password<W: fmt::Write>(
    f: &mut fmt::Formatter<W>,
    password: &Option<Binary>,
) -> fmt::Result
    ensures { DisplaysOnOk W.write_str_gives f.old result (Some (password_text password.now)) f.new }
{
    let Some(password) = password else {
        return Ok(());
    };
    let password = Hex(password.as_slice());
    write!(f, " pass={password}")
}

// Writes a CONNACK (3.2).
fn write_connack<W: fmt::Write>(f: &mut fmt::Formatter<W>, answer: ConnAck) -> fmt::Result
    ensures { DisplaysOnOk W.write_str_gives f.old result (Some (connack_text answer)) f.new }
{
    match answer {
        ConnAck::Accepted { session_present } => {
            let session = u8::from(session_present);
            write!(f, "CONNACK session={session} code=0")
        }
        ConnAck::Refused(refusal) => {
            let code = refusal.number();
            write!(f, "CONNACK session=0 code={code}")
        }
    }
}

// Returns whether a PUBLISH may have come before (3.3.1.1).
fn is_dup(delivery: Option<Delivery>) -> bool
    ensures { result ≡ is_dup delivery }
{
    match delivery {
        Some(delivery) => delivery.dup,
        None => false,
    }
}

// Writes the packet identifier of a PUBLISH, or nothing if it has none (3.3.2.2).
fn write_delivery<W: fmt::Write>(
    f: &mut fmt::Formatter<W>,
    delivery: Option<Delivery>,
) -> fmt::Result
    ensures { DisplaysOnOk W.write_str_gives f.old result (Some (delivery_text delivery)) f.new }
{
    match delivery {
        Some(delivery) => write!(f, " id={}", delivery.id.get()),
        None => Ok(()),
    }
}

// Writes a PUBLISH (3.3).
fn write_publish<W: fmt::Write>(f: &mut fmt::Formatter<W>, publish: &Publish) -> fmt::Result
    ensures { DisplaysOnOk W.write_str_gives f.old result (Some (publish_text publish.now)) f.new }
{
    let message = publish.message();
    let topic = Escaped(message.topic.as_str());
    let qos = message.qos.number();
    let dup = u8::from(is_dup(publish.delivery()));
    let retain = u8::from(message.retain);
    write!(
        f,
        "PUBLISH topic={topic} qos={qos} dup={dup} retain={retain}"
    )?;
    write_delivery(f, publish.delivery())?;
    let payload = Hex(message.payload.as_slice());
    write!(f, " payload={payload}")
}

// Writes the filters of a SUBSCRIBE, each with the quality of service that is asked for (3.8.3).
fn write_requests<W: fmt::Write>(f: &mut fmt::Formatter<W>, requests: &[Request]) -> fmt::Result
    ensures { DisplaysOnOk W.write_str_gives f.old result
        (Some (flat_map request_text requests.now)) f.new }
{
    for request in requests {
        let filter = Escaped(request.filter.as_str());
        let qos = request.qos.number();
        write!(f, " {filter}:{qos}")?;
    }
    Ok(())
}

// Writes the codes of a SUBACK (3.9.3).
fn write_codes<W: fmt::Write>(f: &mut fmt::Formatter<W>, codes: &[SubAckCode]) -> fmt::Result
    ensures { DisplaysOnOk W.write_str_gives f.old result
        (Some (flat_map code_text codes.now)) f.new }
{
    for code in codes {
        let number = code.number();
        write!(f, " {number}")?;
    }
    Ok(())
}

// Writes the filters of an UNSUBSCRIBE (3.10.3).
fn write_filters<W: fmt::Write>(f: &mut fmt::Formatter<W>, filters: &[TopicFilter]) -> fmt::Result
    ensures { DisplaysOnOk W.write_str_gives f.old result
        (Some (flat_map filter_text filters.now)) f.new }
{
    for filter in filters {
        let filter = Escaped(filter.as_str());
        write!(f, " {filter}")?;
    }
    Ok(())
}
