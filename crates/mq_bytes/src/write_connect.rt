//! The encoding of CONNECT into a caller's buffer (3.1).

ghost use Rattle.std.specs.Prelude.{◌≡◌, ◌↔◌, ◌+◌, ◌*◌, ◌<◌, ◌≤◌, ◌^◌, ◌∷◌, ◌++◌, ℕ, List, true, length, IsTrue, IfNone, IfOk, IfSome};
ghost use Rattle.mq_bytes.specs.Prelude.{number, IsText, qos_number, bit, protocol, IsConnectOf, IsLoginOf, IsWillOf, EncodesParts, Filled, Gives, LoginWith, NoLogin, NoWill, WillWith, counted_if};

use crate::buffer::{begin, put};
use crate::check::text;
use crate::encode::number;
use crate::fault::EncodeFault;
use crate::write_publish::{bit, is_name};
use mq_topic::Qos;
use mq_wire::length_laws;

// The flags of a will (3.1.2.5 to 3.1.2.7).
fn will_bits(qos: Qos, retain: bool) -> u8
    ensures value { result ≡ 4 + 8 * qos_number qos + 32 * bit retain }
    ensures small { result ≤ 52 }
{
    let retain = 32 * bit(retain);
    match qos {
        Qos::Q0 => 4 + retain,
        Qos::Q1 => 12 + retain,
        Qos::Q2 => 20 + retain,
    }
}

// The flags of a will that the parts give, which may be none.
#[tactic(auto, using(crate::proofs::Connecting::no_will, crate::proofs::Connecting::some_will, crate::proofs::Connecting::bad_will_qos, crate::proofs::Connecting::bad_will_topic, crate::proofs::Connecting::bad_will_message))]
fn will_flags(has_will: bool, topic: &[u8], message: &[u8], qos: u8, retain: bool) -> Option<u8>
    ensures some { IfSome result (WillWith has_will topic.now message.now qos retain) }
    ensures none { IfNone result (NoWill has_will topic.now message.now qos retain) }
    ensures topic { IfSome result (λ flags. has_will ≡ true → length topic.now < 65536) }
    ensures message { IfSome result (λ flags. has_will ≡ true → length message.now < 65536) }
    ensures small { IfSome result (λ flags. flags ≤ 52) }
{
    if !has_will {
        return Some(0);
    }
    let qos = Qos::from_number(qos)?;
    if !is_name(topic) {
        return None;
    }
    if message.len() > 65_535 {
        return None;
    }
    Some(will_bits(qos, retain))
}

// Whether the bytes are an MQTT string (1.5.3).
fn is_text(bytes: &[u8]) -> bool
    ensures text { IsTrue result ↔ IsText bytes.now }
    ensures short { IsTrue result → length bytes.now < 65536 }
{
    text(bytes).is_some()
}

// The flags of the user name and password that the parts give, which may be none.
#[tactic(auto, using(crate::proofs::Connecting::no_login, crate::proofs::Connecting::name_alone, crate::proofs::Connecting::name_and_password, crate::proofs::Connecting::password_alone, crate::proofs::Connecting::bad_name, crate::proofs::Connecting::bad_password))]
fn login_flags(
    has_user_name: bool,
    user_name: &[u8],
    has_password: bool,
    password: &[u8],
) -> Option<u8>
    ensures some { IfSome result (LoginWith has_user_name user_name.now has_password password.now) }
    ensures none { IfNone result (NoLogin has_user_name user_name.now has_password password.now) }
    ensures name { IfSome result (λ flags. has_user_name ≡ true → length user_name.now < 65536) }
    ensures password { IfSome result (λ flags. has_password ≡ true → length password.now < 65536) }
    ensures small { IfSome result (λ flags. flags ≤ 192) }
{
    if !has_user_name {
        return if has_password { None } else { Some(0) };
    }
    if !is_text(user_name) {
        return None;
    }
    if !has_password {
        return Some(128);
    }
    if password.len() > 65_535 {
        return None;
    }
    Some(192)
}

// The fields before the client identifier, with its size.
fn head(flags: u8, keep_alive: u16, size: u16) -> [u8; 12]
    ensures { result ≡ protocol ++ (flags ∷ (number keep_alive ++ number size)) }
{
    let [high, low] = number(keep_alive);
    let [size_high, size_low] = number(size);
    [
        0, 4, 77, 81, 84, 84, 4, flags, high, low, size_high, size_low,
    ]
}

// The number of bytes of a field with its size, if it is there.
fn size_if(there: bool, bytes: &[u8]) -> usize
    ensures { result ≡ length (counted_if there bytes.now) }
{
    if there { 2 + bytes.len() } else { 0 }
}

// Writes a field with its size, if it is there.
#[tactic(auto, using(crate::proofs::Connecting::counted_put, crate::proofs::Connecting::nothing_put))]
fn put_if(out: &mut [u8], at: usize, there: bool, bytes: &[u8]) -> usize
    requires room { at + length (counted_if there bytes.now) ≤ length out.old }
    requires short { there ≡ true → length bytes.now < 65536 }
    ensures end { result ≡ at + length (counted_if there bytes.now) }
    ensures length { length out.new ≡ length out.old }
    ensures written { (old front : List ℕ) → Filled old front out.old → at ≡ length front
        → Filled old (front ++ counted_if there bytes.now) out.new }
{
    if !there {
        return at;
    }
    let at = put(out, at, &number(bytes.len() as u16));
    put(out, at, bytes)
}

// Writes two such fields.
#[tactic(auto, using(crate::proofs::Filling::puts_then))]
fn put_pair(
    out: &mut [u8],
    at: usize,
    has_first: bool,
    first: &[u8],
    has_second: bool,
    second: &[u8],
) -> usize
    requires room { at + length (counted_if has_first first.now ++ counted_if has_second second.now) ≤ length out.old }
    requires first { has_first ≡ true → length first.now < 65536 }
    requires second { has_second ≡ true → length second.now < 65536 }
    ensures end { result ≡ at + length (counted_if has_first first.now ++ counted_if has_second second.now) }
    ensures length { length out.new ≡ length out.old }
    ensures written { (old front : List ℕ) → Filled old front out.old → at ≡ length front
        → Filled old (front ++ (counted_if has_first first.now ++ counted_if has_second second.now)) out.new }
{
    let at = put_if(out, at, has_first, first);
    put_if(out, at, has_second, second)
}

// Writes the packet with these fields.
#[tactic(auto, using(crate::proofs::Connecting::connect_framed))]
fn encode_fields(
    out: &mut [u8],
    head: &[u8],
    client_id: &[u8],
    has_will: bool,
    topic: &[u8],
    message: &[u8],
    has_user_name: bool,
    user_name: &[u8],
    has_password: bool,
    password: &[u8],
) -> Result<usize, EncodeFault>
    requires head { length head.now ≡ 12 }
    requires client_id { length client_id.now < 65536 }
    requires topic { has_will ≡ true → length topic.now < 65536 }
    requires message { has_will ≡ true → length message.now < 65536 }
    requires name { has_user_name ≡ true → length user_name.now < 65536 }
    requires password { has_password ≡ true → length password.now < 65536 }
    ensures small { IfOk result (λ n. n < 2 ^ 29) }
    ensures parts { EncodesParts 0x10 (head.now ++ (client_id.now
        ++ ((counted_if has_will topic.now ++ counted_if has_will message.now)
        ++ (counted_if has_user_name user_name.now ++ counted_if has_password password.now))))
        out.old out.new result }
{
    let will = size_if(has_will, topic) + size_if(has_will, message);
    let login = size_if(has_user_name, user_name) + size_if(has_password, password);
    let rest = head.len() + client_id.len() + will + login;
    let at = begin(out, 0x10, rest)?;
    let behind = put(out, at, head);
    let behind = put(out, behind, client_id);
    let behind = put_pair(out, behind, has_will, topic, has_will, message);
    Ok(put_pair(
        out,
        behind,
        has_user_name,
        user_name,
        has_password,
        password,
    ))
}

/// Encodes CONNECT (3.1). There is a will if `has_will`, a user name if `has_user_name`, and a
/// password if `has_password`, for which there must be a user name.
#[tactic(auto, using(crate::proofs::Connecting::connect_gives, crate::proofs::Connecting::no_identifier, crate::proofs::Connecting::without_will, crate::proofs::Connecting::without_login))]
pub fn encode_connect(
    client_id: &[u8],
    keep_alive: u16,
    clean_session: bool,
    has_user_name: bool,
    user_name: &[u8],
    has_password: bool,
    password: &[u8],
    has_will: bool,
    topic: &[u8],
    message: &[u8],
    qos: u8,
    retain: bool,
    out: &mut [u8],
) -> Result<usize, EncodeFault>
    ensures small { IfOk result (λ n. n < 2 ^ 29) }
    ensures gives { Gives (IsConnectOf client_id.now keep_alive clean_session
        (IsWillOf has_will topic.now message.now qos retain)
        (IsLoginOf has_user_name user_name.now has_password password.now)) out.old out.new result }
{
    length_laws();
    if !is_text(client_id) {
        return Err(EncodeFault::Argument);
    }
    let Some(will) = will_flags(has_will, topic, message, qos, retain) else {
        return Err(EncodeFault::Argument);
    };
    let Some(login) = login_flags(has_user_name, user_name, has_password, password) else {
        return Err(EncodeFault::Argument);
    };
    let flags = 2 * bit(clean_session) + will + login;
    let head = head(flags, keep_alive, client_id.len() as u16);
    encode_fields(
        out,
        &head,
        client_id,
        has_will,
        topic,
        message,
        has_user_name,
        user_name,
        has_password,
        password,
    )
}
