//! The codes and the texts of errors.

use crate::words::Words;
use crate::wrong::Wrong;
use mq_decode::{DecodeError, DecodeFault, FaultKind, ReadError};
use mq_end::{CloseReason, PublishRefusal};
use mq_flow::LoadError;
use mq_packet::RefusalCode;
use std::alloc::AllocError;
use std::fmt::Display;
use std::io;
use std::io::ErrorKind;

static KINDS: [FaultKind; 20] = [
    FaultKind::ForbiddenType,
    FaultKind::WrongFlags,
    FaultKind::ForbiddenQos,
    FaultKind::DupWithoutDelivery,
    FaultKind::LengthTooLong,
    FaultKind::LengthOverlong,
    FaultKind::OverLimit,
    FaultKind::WrongSize,
    FaultKind::PastEnd,
    FaultKind::NotUtf8,
    FaultKind::Nul,
    FaultKind::ProtocolName,
    FaultKind::ProtocolLevel,
    FaultKind::ForbiddenFlags,
    FaultKind::NotTopicName,
    FaultKind::NotTopicFilter,
    FaultKind::ZeroIdentifier,
    FaultKind::ForbiddenCode,
    FaultKind::EmptyList,
    FaultKind::BytesLeft,
];

/// `kind PLACE`: the kind of a fault and its code.
pub(crate) fn kind(words: &mut Words<'_>, told: &mut String) -> Result<(), Wrong> {
    let place: usize = words.number()?;
    let kind = KINDS.get(place).ok_or(Wrong::Words)?;
    Ok(write!(told, "{kind:?} {kind}")?)
}

fn say<E: Display + Drop>(told: &mut String, error: E) -> Result<(), AllocError> {
    write!(told, "{error}")
}

// The fault of a forbidden type.
const FIRST_BYTE: DecodeFault = DecodeFault {
    kind: FaultKind::ForbiddenType,
    place: 0,
};

/// `decode-error WHY`, with `fault` or `memory`.
pub(crate) fn decode_error(words: &mut Words<'_>, told: &mut String) -> Result<(), Wrong> {
    let error = match words.word()? {
        "fault" => DecodeError::Fault(FIRST_BYTE),
        "memory" => DecodeError::Memory,
        _ => return Err(Wrong::Words),
    };
    Ok(say(told, error)?)
}

/// `read-error WHY`, with `cut`, `io`, `fault` or `memory`.
pub(crate) fn read_error(words: &mut Words<'_>, told: &mut String) -> Result<(), Wrong> {
    let error = match words.word()? {
        "cut" => ReadError::Cut,
        "io" => ReadError::Io(io::Error::from(ErrorKind::ConnectionReset)),
        "fault" => ReadError::Fault(FIRST_BYTE),
        "memory" => ReadError::Memory,
        _ => return Err(Wrong::Words),
    };
    Ok(say(told, error)?)
}

static REFUSALS: [PublishRefusal; 5] = [
    PublishRefusal::NotConnected,
    PublishRefusal::NoSession,
    PublishRefusal::TooLarge,
    PublishRefusal::Full,
    PublishRefusal::Memory,
];

/// `publish-refusal PLACE`: the code of a refusal, and its text.
pub(crate) fn publish_refusal(words: &mut Words<'_>, told: &mut String) -> Result<(), Wrong> {
    let place: usize = words.number()?;
    let refusal = REFUSALS.get(place).ok_or(Wrong::Words)?;
    Ok(write!(told, "{} {refusal}", refusal.code())?)
}

static REASONS: [CloseReason; 8] = [
    CloseReason::Fault(FIRST_BYTE),
    CloseReason::Unexpected,
    CloseReason::Refused(RefusalCode::NotAuthorized),
    CloseReason::SessionLost,
    CloseReason::KeepAlive,
    CloseReason::Memory,
    CloseReason::Left,
    CloseReason::Window,
];

/// `close-reason PLACE`: the code of a reason, and its text.
pub(crate) fn close_reason(words: &mut Words<'_>, told: &mut String) -> Result<(), Wrong> {
    let place: usize = words.number()?;
    let reason = REASONS.get(place).ok_or(Wrong::Words)?;
    Ok(write!(told, "{} {reason}", reason.code())?)
}

static LOAD_ERRORS: [LoadError; 5] = [
    LoadError::Version,
    LoadError::Malformed { place: 12 },
    LoadError::Memory,
    LoadError::AnotherClient,
    LoadError::TooLarge,
];

/// `load-error PLACE`: the text of an error.
pub(crate) fn load_error(words: &mut Words<'_>, told: &mut String) -> Result<(), Wrong> {
    let place: usize = words.number()?;
    let error = LOAD_ERRORS.get(place).ok_or(Wrong::Words)?;
    Ok(write!(told, "{error}")?)
}
