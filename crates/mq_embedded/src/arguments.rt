//! Values from the bytes of a caller.

ghost use Rattle.std.specs.Prelude.{◌≡◌, ◌≤◌, ◌<◌, ◌^◌, ◌∷◌, [], true, Some, length, IfOk, IfErr};
ghost use Rattle.mq_embedded.specs.Prelude.{IsText, qos_number, IsTopicFilter, IsTopicName, strict, IsLoginOf, IsMessageOf, IsPasswordOf, IsWillOf, AreLoginParts, AreMessageParts, AreRequestParts, AreWillParts, IsArgumentFault, IsPasswordPart, IsRequestOf};

use crate::fault::CallFault;
use bytes::Bytes;
use mq_bytes::{check_filter, check_name};
use mq_decode::Limits;
use mq_packet::{Binary, Login, Message, NonEmpty, Payload, Request, Will};
use mq_topic::{Qos, TopicFilter, TopicName};
use mq_wire::{Text, TextFault};
use std::alloc::Global;

/// The bound on the remaining length of packets, 64 to 268,435,455 (2.2.3).
pub fn bounds(max_packet: u32) -> Result<Limits, CallFault>
    ensures ok { IfOk result (λ limits. limits ≡ strict max_packet) }
    ensures refused { IfErr result (IsArgumentFault ((64 ≤ max_packet) × (max_packet < 2 ^ 28))) }
{
    Limits::new(max_packet).ok_or(CallFault::Argument)
}

/// The text (1.5.3) of these bytes.
pub fn text(alloc: Global, bytes: &[u8]) -> Result<Text, CallFault>
    ensures ok { IfOk result (λ text. text ≡ bytes.now) }
    ensures refused { IfErr result (IsArgumentFault (IsText bytes.now)) }
{
    let text = match std::str::from_utf8(bytes) {
        Ok(text) => text,
        Err(_) => return Err(CallFault::Argument),
    };
    match Text::new(alloc, text) {
        Ok(text) => Ok(text),
        Err(TextFault::Memory) => Err(CallFault::Memory),
        Err(TextFault::TooLong | TextFault::Nul) => Err(CallFault::Argument),
    }
}

// Bytes that were tested.
fn str_of(bytes: &[u8]) -> &str
    requires { IsText bytes.now }
    ensures { result.now ≡ bytes.now }
{
    std::str::from_utf8(bytes).unwrap()
}

fn topic_name(alloc: Global, bytes: &[u8]) -> Result<TopicName, CallFault>
    ensures ok { IfOk result (λ name. name ≡ bytes.now) }
    ensures refused { IfErr result (IsArgumentFault (IsTopicName bytes.now)) }
{
    if check_name(bytes).is_err() {
        return Err(CallFault::Argument);
    }
    match TopicName::parse(alloc, str_of(bytes)) {
        Ok(name) => Ok(name),
        Err(_) => Err(CallFault::Memory),
    }
}

/// The topic filter (4.7) of these bytes.
pub(crate) fn topic_filter(alloc: Global, bytes: &[u8]) -> Result<TopicFilter, CallFault>
    ensures ok { IfOk result (λ filter. filter ≡ bytes.now) }
    ensures refused { IfErr result (IsArgumentFault (IsTopicFilter bytes.now)) }
{
    if check_filter(bytes).is_err() {
        return Err(CallFault::Argument);
    }
    match TopicFilter::parse(alloc, str_of(bytes)) {
        Ok(filter) => Ok(filter),
        Err(_) => Err(CallFault::Memory),
    }
}

// The quality of service with this number (4.3).
fn qos_of(number: u8) -> Result<Qos, CallFault>
    ensures ok { IfOk result (λ qos. qos_number qos ≡ number) }
    ensures refused { IfErr result (IsArgumentFault (number < 3)) }
{
    match number {
        0 => Ok(Qos::Q0),
        1 => Ok(Qos::Q1),
        2 => Ok(Qos::Q2),
        _ => Err(CallFault::Argument),
    }
}

fn copied(alloc: Global, bytes: &[u8]) -> Result<Bytes, CallFault>
    ensures ok { IfOk result (λ copy. copy ≡ bytes.now) }
    ensures refused { IfErr result (λ why. why ≡ CallFault.Memory) }
{
    match Bytes::copy_from_slice(alloc, bytes) {
        Ok(copy) => Ok(copy),
        Err(_) => Err(CallFault::Memory),
    }
}

fn binary(alloc: Global, bytes: &[u8]) -> Result<Binary, CallFault>
    ensures ok { IfOk result (λ binary. binary ≡ bytes.now) }
    ensures refused { IfErr result (IsArgumentFault (length bytes.now < 65536)) }
{
    Binary::new(copied(alloc, bytes)?).ok_or(CallFault::Argument)
}

fn payload_of(alloc: Global, bytes: &[u8]) -> Result<Payload, CallFault>
    ensures ok { IfOk result (λ payload. payload ≡ bytes.now) }
    ensures refused { IfErr result (IsArgumentFault (length bytes.now < 2 ^ 28)) }
{
    Payload::new(copied(alloc, bytes)?).ok_or(CallFault::Argument)
}

/// The message with these parts (3.3).
pub(crate) fn message(
    alloc: Global,
    topic: &[u8],
    payload: &[u8],
    qos: u8,
    retain: bool,
) -> Result<Message, CallFault>
    ensures ok { IfOk result (IsMessageOf topic.now payload.now qos retain) }
    ensures refused { IfErr result (IsArgumentFault (AreMessageParts topic.now payload.now qos)) }
{
    let qos = qos_of(qos)?;
    let topic = topic_name(alloc, topic)?;
    let payload = payload_of(alloc, payload)?;
    Ok(Message {
        topic,
        payload,
        qos,
        retain,
    })
}

fn some_will(
    alloc: Global,
    topic: &[u8],
    payload: &[u8],
    qos: u8,
    retain: bool,
) -> Result<Will, CallFault>
    ensures ok { IfOk result (λ will. IsWillOf true topic.now payload.now qos retain (Some will)) }
    ensures refused { IfErr result (IsArgumentFault (AreWillParts topic.now payload.now qos)) }
{
    let qos = qos_of(qos)?;
    let topic = topic_name(alloc, topic)?;
    let message = binary(alloc, payload)?;
    Ok(Will {
        topic,
        message,
        qos,
        retain,
    })
}

/// The will with these parts (3.1.3.2, 3.1.3.3), if `has_will`.
pub fn will(
    alloc: Global,
    has_will: bool,
    topic: &[u8],
    payload: &[u8],
    qos: u8,
    retain: bool,
) -> Result<Option<Will>, CallFault>
    ensures ok { IfOk result (IsWillOf has_will topic.now payload.now qos retain) }
    ensures refused { IfErr result (IsArgumentFault (has_will ≡ true → AreWillParts topic.now payload.now qos)) }
{
    if !has_will {
        return Ok(None);
    }
    match some_will(alloc, topic, payload, qos, retain) {
        Ok(will) => Ok(Some(will)),
        Err(fault) => Err(fault),
    }
}

fn some_password(
    alloc: Global,
    has_password: bool,
    password: &[u8],
) -> Result<Option<Binary>, CallFault>
    ensures ok { IfOk result (IsPasswordOf has_password password.now) }
    ensures refused { IfErr result (IsArgumentFault (IsPasswordPart has_password password.now)) }
{
    if !has_password {
        return Ok(None);
    }
    match binary(alloc, password) {
        Ok(password) => Ok(Some(password)),
        Err(fault) => Err(fault),
    }
}

// The user name (3.1.3.4) with the password (3.1.3.5), if `has_password`.
fn some_login(
    alloc: Global,
    user_name: &[u8],
    has_password: bool,
    password: &[u8],
) -> Result<Login, CallFault>
    ensures ok { IfOk result (λ login. IsLoginOf true user_name.now has_password password.now (Some login)) }
    ensures refused { IfErr result (IsArgumentFault (AreLoginParts true user_name.now has_password password.now)) }
{
    let name = text(alloc, user_name)?;
    let password = some_password(alloc, has_password, password)?;
    Ok(Login { name, password })
}

/// The user name (3.1.3.4), if `has_user_name`, with the password (3.1.3.5), if `has_password`.
pub fn login(
    alloc: Global,
    has_user_name: bool,
    user_name: &[u8],
    has_password: bool,
    password: &[u8],
) -> Result<Option<Login>, CallFault>
    ensures ok { IfOk result (IsLoginOf has_user_name user_name.now has_password password.now) }
    ensures refused { IfErr result (IsArgumentFault (AreLoginParts has_user_name user_name.now has_password password.now)) }
{
    if !has_user_name {
        return if has_password {
            Err(CallFault::Argument)
        } else {
            Ok(None)
        };
    }
    match some_login(alloc, user_name, has_password, password) {
        Ok(login) => Ok(Some(login)),
        Err(fault) => Err(fault),
    }
}

/// A list of one request (3.8).
pub(crate) fn requests(
    alloc: Global,
    filter: &[u8],
    qos: u8,
) -> Result<NonEmpty<Request>, CallFault>
    ensures ok { IfOk result (IsRequestOf filter.now qos) }
    ensures refused { IfErr result (IsArgumentFault (AreRequestParts filter.now qos)) }
{
    let qos = qos_of(qos)?;
    let filter = topic_filter(alloc, filter)?;
    let mut requests = Vec::new(alloc);
    match requests.push(Request { filter, qos }) {
        Ok(()) => Ok(NonEmpty::from_vec(requests)),
        Err(_) => Err(CallFault::Memory),
    }
}

/// A list of one filter (3.10).
pub(crate) fn filters(alloc: Global, filter: &[u8]) -> Result<NonEmpty<TopicFilter>, CallFault>
    ensures ok { IfOk result (λ filters. filters ≡ filter.now ∷ []) }
    ensures refused { IfErr result (IsArgumentFault (IsTopicFilter filter.now)) }
{
    let filter = topic_filter(alloc, filter)?;
    let mut filters = Vec::new(alloc);
    match filters.push(filter) {
        Ok(()) => Ok(NonEmpty::from_vec(filters)),
        Err(_) => Err(CallFault::Memory),
    }
}
