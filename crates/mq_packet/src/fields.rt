//! Size and encoding of the fields behind the fixed header (chapter 3).

ghost use Rattle.std.specs.Prelude.{◌≡◌, ℕ, ◌+◌, ◌<◌, ◌≤◌, ◌^◌, ◌++◌, ◌↔◌, length, vec_len, vec_capacity, true, IfSome, IsSome};
ghost use Rattle.mq_packet.specs.Prelude.{IsPacket, IsBinary, IsConnect, IsPublication, IsWill, IsLogin, IsList, IsIdentifier, fits_delivery, publication, flat_map, number, fields, connect_protocol, connect_head, connect_fields, connect_flags, will_fields, login_fields, connack_fields, delivery_fields, password_fields, publish_fields, IsText, counted};

use crate::binary::Binary;
use crate::connack::ConnAck;
use crate::connect::{Connect, Login, Will};
use crate::encoded::{ListItem, put_all, put_bytes, put_counted, put_number, size_of_all};
use crate::id::PacketId;
use crate::list::NonEmpty;
use crate::packet::Packet;
use crate::publish::{Delivery, MessageRef};

fn will_len(will: &Option<Will>) -> u32
    ensures len { result ≡ length (will_fields will.now) }
    ensures small { result < 131_075 }
{
    match will {
        None => 0,
        Some(will) => {
            4 + will.topic.as_str().len() as u32 + will.message.as_slice().len() as u32
        }
    }
}

fn login_len(login: &Option<Login>) -> u32
    ensures len { result ≡ length (login_fields login.now) }
    ensures small { result < 131_075 }
{
    match login {
        None => 0,
        Some(login) => {
            let password = match &login.password {
                None => 0,
                Some(password) => 2 + password.as_slice().len() as u32,
            };
            2 + login.name.as_str().len() as u32 + password
        }
    }
}

fn connect_len(connect: &Connect) -> u32
    ensures len { result ≡ length (connect_fields connect.now) }
    ensures small { result < 2 ^ 28 }
{
    let id = connect.client_id.as_str().len() as u32;
    12 + id + will_len(&connect.will) + login_len(&connect.login)
}

/// Returns the size of the fields of a PUBLISH, or `None` if it exceeds 268,435,455 (2.2.3, 3.3).
pub(crate) fn publish_len(message: MessageRef<'_>, delivery: &Option<Delivery>) -> Option<u32>
    ensures fits { IsSome result ↔ (length (publish_fields (publication message.entry delivery.now)) < 2 ^ 28) }
    ensures len { IfSome result (λ n. n ≡ length (publish_fields (publication message.entry delivery.now))) }
{
    let id = match delivery {
        None => 0,
        Some(_) => 2,
    };
    let topic = message.topic.as_str().len() as u32;
    let len = 2 + topic + id + message.payload.as_slice().len() as u32;
    if len > 268_435_455 { None } else { Some(len) }
}

fn list_len<T: ListItem>(items: &NonEmpty<T>) -> Option<u32>
    ensures fits { IsSome result ↔ (2 + length (flat_map T.encoding items.now) < 2 ^ 28) }
    ensures len { IfSome result (λ n. n ≡ 2 + length (flat_map T.encoding items.now)) }
{
    let len = 2 + size_of_all(items.as_slice())?;
    if len > 268_435_455 { None } else { Some(len) }
}

/// Returns the size of the fields, or `None` if it exceeds 268,435,455 (2.2.3).
pub(crate) fn fields_len(packet: &Packet) -> Option<u32>
    ensures fits { IsSome result ↔ (length (fields packet.now) < 2 ^ 28) }
    ensures len { IfSome result (λ n. n ≡ length (fields packet.now)) }
{
    match packet {
        Packet::Connect(connect) => Some(connect_len(connect.as_connect())),
        Packet::ConnAck(_) => Some(2),
        Packet::Publish(publish) => publish_len(publish.message(), publish.delivery_ref()),
        Packet::PubAck(_)
        | Packet::PubRec(_)
        | Packet::PubRel(_)
        | Packet::PubComp(_)
        | Packet::UnsubAck(_) => Some(2),
        Packet::Subscribe { id: _, requests } => list_len(requests),
        Packet::SubAck { id: _, codes } => list_len(codes),
        Packet::Unsubscribe { id: _, filters } => list_len(filters),
        Packet::PingReq | Packet::PingResp | Packet::Disconnect => Some(0),
    }
}

fn put_binary(out: &mut Vec<u8>, binary: &Binary)
    requires { vec_len out.old + length (counted binary.now) ≤ vec_capacity out.old }
    ensures items { out.new.items ≡ out.old.items ++ counted binary.now }
    ensures capacity { vec_capacity out.old ≤ vec_capacity out.new }
    ensures binary { length binary.now < 65_536 }
{
    put_counted(out, binary.as_slice());
}

fn put_will(out: &mut Vec<u8>, will: &Option<Will>)
    requires { vec_len out.old + length (will_fields will.now) ≤ vec_capacity out.old }
    ensures items { out.new.items ≡ out.old.items ++ will_fields will.now }
    ensures capacity { vec_capacity out.old ≤ vec_capacity out.new }
    ensures will { IfSome will.now IsWill }
{
    if let Some(will) = will {
        put_counted(out, will.topic.as_str().as_bytes());
        put_binary(out, &will.message);
    }
}

fn put_password(out: &mut Vec<u8>, password: &Option<Binary>)
    requires { vec_len out.old + length (password_fields password.now) ≤ vec_capacity out.old }
    ensures items { out.new.items ≡ out.old.items ++ password_fields password.now }
    ensures capacity { vec_capacity out.old ≤ vec_capacity out.new }
    ensures password { IfSome password.now IsBinary }
{
    if let Some(password) = password {
        put_binary(out, password);
    }
}

fn put_login(out: &mut Vec<u8>, login: &Option<Login>)
    requires { vec_len out.old + length (login_fields login.now) ≤ vec_capacity out.old }
    ensures items { out.new.items ≡ out.old.items ++ login_fields login.now }
    ensures capacity { vec_capacity out.old ≤ vec_capacity out.new }
    ensures login { IfSome login.now IsLogin }
{
    if let Some(login) = login {
        put_counted(out, login.name.as_str().as_bytes());
        put_password(out, &login.password);
    }
}

// The flags of CONNECT (3.1.2.3).
fn connect_flags(connect: &Connect) -> u8
    ensures { result ≡ connect_flags connect.now }
{
    let will = match &connect.will {
        None => 0,
        Some(will) => 4 + 8 * will.qos.number() + 32 * u8::from(will.retain),
    };
    let login = match &connect.login {
        None => 0,
        Some(login) => match &login.password {
            None => 128,
            Some(_) => 192,
        },
    };
    2 * u8::from(connect.clean_session) + will + login
}

// Protocol name, level, flags and keep-alive (3.1.2).
fn put_protocol(out: &mut Vec<u8>, connect: &Connect)
    requires { vec_len out.old + 10 ≤ vec_capacity out.old }
    ensures items { out.new.items ≡ out.old.items ++ connect_protocol connect.now }
    ensures capacity { vec_capacity out.old ≤ vec_capacity out.new }
    ensures keep_alive { connect.now.keep_alive < 65_536 }
{
    let flags = connect_flags(connect);
    put_bytes(out, &[0, 4, b'M', b'Q', b'T', b'T', 4, flags]);
    put_number(out, connect.keep_alive);
}

// The fields of every CONNECT (3.1.2, 3.1.3.1).
fn put_connect_head(out: &mut Vec<u8>, connect: &Connect)
    requires { vec_len out.old + length (connect_head connect.now) ≤ vec_capacity out.old }
    ensures items { out.new.items ≡ out.old.items ++ connect_head connect.now }
    ensures capacity { vec_capacity out.old ≤ vec_capacity out.new }
    ensures head { IsText connect.now.client_id × (connect.now.keep_alive < 65_536) }
{
    put_protocol(out, connect);
    put_counted(out, connect.client_id.as_str().as_bytes());
}

fn put_connect(out: &mut Vec<u8>, connect: &Connect)
    requires { vec_len out.old + length (connect_fields connect.now) ≤ vec_capacity out.old }
    ensures items { out.new.items ≡ out.old.items ++ connect_fields connect.now }
    ensures capacity { vec_capacity out.old ≤ vec_capacity out.new }
    ensures connect { IsConnect connect.now }
{
    put_connect_head(out, connect);
    put_will(out, &connect.will);
    put_login(out, &connect.login);
}

// The packet identifier of a PUBLISH with QoS 1 or 2 (3.3.2.2).
fn put_delivery(out: &mut Vec<u8>, delivery: &Option<Delivery>)
    requires { vec_len out.old + length (delivery_fields delivery.now) ≤ vec_capacity out.old }
    ensures items { out.new.items ≡ out.old.items ++ delivery_fields delivery.now }
    ensures capacity { vec_capacity out.old ≤ vec_capacity out.new }
    ensures id { IfSome delivery.now (λ d. IsIdentifier d.id) }
{
    if let Some(delivery) = delivery {
        put_number(out, delivery.id.get());
    }
}

/// Appends the fields of a PUBLISH (3.3). The vector must have room for them.
pub(crate) fn put_publish(out: &mut Vec<u8>, message: MessageRef<'_>, delivery: &Option<Delivery>)
    requires fits { fits_delivery message.qos delivery.now ≡ true }
    requires room { vec_len out.old + length (publish_fields (publication message delivery.now)) ≤ vec_capacity out.old }
    ensures items { out.new.items ≡ out.old.items ++ publish_fields (publication message.entry delivery.now) }
    ensures capacity { vec_capacity out.old ≤ vec_capacity out.new }
    ensures publish { IsPublication (publication message.entry delivery.now) }
{
    put_counted(out, message.topic.as_str().as_bytes());
    put_delivery(out, delivery);
    put_bytes(out, message.payload.as_slice());
}

fn put_connack(out: &mut Vec<u8>, connack: ConnAck)
    requires { vec_len out.old + 2 ≤ vec_capacity out.old }
    ensures items { out.new.items ≡ out.old.items ++ connack_fields connack }
    ensures capacity { vec_capacity out.old ≤ vec_capacity out.new }
{
    match connack {
        ConnAck::Accepted { session_present } => {
            put_bytes(out, &[u8::from(session_present), 0]);
        }
        ConnAck::Refused(code) => put_bytes(out, &[0, code.number()]),
    }
}

fn put_id(out: &mut Vec<u8>, id: PacketId)
    requires { vec_len out.old + 2 ≤ vec_capacity out.old }
    ensures items { out.new.items ≡ out.old.items ++ number id }
    ensures capacity { vec_capacity out.old ≤ vec_capacity out.new }
    ensures id { IsIdentifier id }
{
    put_number(out, id.get());
}

fn put_list<T: ListItem>(out: &mut Vec<u8>, id: PacketId, items: &NonEmpty<T>)
    requires { vec_len out.old + (2 + length (flat_map T.encoding items.now)) ≤ vec_capacity out.old }
    ensures items { out.new.items ≡ out.old.items ++ (number id ++ flat_map T.encoding items.now) }
    ensures capacity { vec_capacity out.old ≤ vec_capacity out.new }
    ensures list { IsList T.is_item id items.now }
{
    put_id(out, id);
    put_all(out, items.as_slice());
}

/// Appends the fields of a packet. The vector must have room for them.
pub(crate) fn put_fields(out: &mut Vec<u8>, packet: &Packet)
    requires { vec_len out.old + length (fields packet.now) ≤ vec_capacity out.old }
    ensures items { out.new.items ≡ out.old.items ++ fields packet.now }
    ensures capacity { vec_capacity out.old ≤ vec_capacity out.new }
    ensures packet { IsPacket packet.now }
{
    match packet {
        Packet::Connect(connect) => put_connect(out, connect.as_connect()),
        Packet::ConnAck(connack) => put_connack(out, *connack),
        Packet::Publish(publish) => put_publish(out, publish.message(), publish.delivery_ref()),
        Packet::PubAck(id)
        | Packet::PubRec(id)
        | Packet::PubRel(id)
        | Packet::PubComp(id)
        | Packet::UnsubAck(id) => put_id(out, *id),
        Packet::Subscribe { id, requests } => put_list(out, *id, requests),
        Packet::SubAck { id, codes } => put_list(out, *id, codes),
        Packet::Unsubscribe { id, filters } => put_list(out, *id, filters),
        Packet::PingReq | Packet::PingResp | Packet::Disconnect => {}
    }
}
