//! Lists of at least one item (3.8.3, 3.9.3, 3.10.3).

ghost use Rattle.std.specs.Prelude.{◌≡◌, ◌<◌, List, ℕ, Result, length, IfOk, IsOk};
ghost use Rattle.mq_decode.specs.Prelude.{BadField, Gives, Same, filter_at, code_byte_at, Tests, items_of, rest_of, list_at, list_with, request_at, suback_code_at, qos_from};

use crate::fault::{BadField, FaultKind, FieldsError};
use crate::fields::{FilterView, bad_at, filter, identifier};
use mq_packet::{NonEmpty, PacketId, Request, SubAckCode};
use mq_topic::{Qos, TopicFilter};
use std::alloc::{AllocError, Global};
use std::marker::Model;

/// A borrowed item of a SUBSCRIBE (3.8.3).
#[derive(Debug, Drop)]
pub struct RequestView<'a> {
    filter: FilterView<'a>,
    qos: Qos,
}

impl<'a> Model for RequestView<'a> {
    ghost use Rattle.mq_packet.specs.declared.packet.Request.{Request};

    ghost Value = { Request };

    ghost view = { λ r. record { filter = r.filter; qos = r.qos } };
}

impl<'a> RequestView<'a> {
    /// Which topic names.
    pub fn filter(&self) -> &FilterView<'a>
        ensures { result.now ≡ self.now.filter }
    {
        &self.filter
    }

    /// The greatest quality of service asked for.
    pub fn qos(&self) -> Qos
        ensures { result ≡ self.now.qos }
    {
        self.qos
    }

    /// A request of its own.
    pub fn owned(&self, alloc: Global) -> Result<Request, AllocError>
        ensures { IfOk result (λ r. r ≡ self.now) }
    {
        let filter = self.filter.owned(alloc)?;
        Ok(Request {
            filter,
            qos: self.qos,
        })
    }
}

/// An item of a list in a packet.
pub(crate) trait Item: Sized {
    ghost item_at: { List ℕ → Result (Self × List ℕ) BadField };

    /// The bytes after the item at the front.
    fn skip(bytes: &[u8]) -> Result<&[u8], BadField>
        ensures read { Same (λ x. x.now) result (rest_of (item_at bytes.now)) }
        ensures shorter { IfOk result (λ x. length x.now < length bytes.now) };

    /// The item at the front, and the bytes after it.
    fn read(alloc: Global, bytes: &[u8]) -> Result<(Self, &[u8]), FieldsError>
        ensures read { Gives (λ x. (x.0, x.1.now)) result (item_at bytes.now) }
        ensures shorter { IfOk result (λ x. length x.1.now < length bytes.now) };
}

impl Item for TopicFilter {
    ghost item_at = { filter_at };

    fn skip(bytes: &[u8]) -> Result<&[u8], BadField> {
        match filter(bytes) {
            Ok((_, rest)) => Ok(rest),
            Err(bad) => Err(bad),
        }
    }

    fn read(alloc: Global, bytes: &[u8]) -> Result<(TopicFilter, &[u8]), FieldsError> {
        let (filter, rest) = match filter(bytes) {
            Ok(field) => field,
            Err(bad) => return Err(FieldsError::Bad(bad)),
        };
        let filter = filter.owned(alloc)?;
        Ok((filter, rest))
    }
}

// A quality of service (3.8.3.1).
fn qos(bytes: &[u8]) -> Result<(Qos, &[u8]), BadField>
    ensures read { Same (λ x. (x.0, x.1.now)) result (code_byte_at qos_from bytes.now) }
    ensures shorter { IfOk result (λ x. length x.1.now < length bytes.now) }
{
    let Some((byte, rest)) = bytes.split_first() else {
        return bad_at(FaultKind::PastEnd, bytes);
    };
    match Qos::from_number(*byte) {
        Some(qos) => Ok((qos, rest)),
        None => bad_at(FaultKind::ForbiddenCode, bytes),
    }
}

/// An item of SUBSCRIBE, and the bytes after it.
#[tactic(auto, unfolding(crate::specs::Lists::request_at))]
pub(crate) fn request(bytes: &[u8]) -> Result<(RequestView<'_>, &[u8]), BadField>
    ensures read { Same (λ x. (x.0, x.1.now)) result (request_at bytes.now) }
    ensures shorter { IfOk result (λ x. length x.1.now < length bytes.now) }
{
    let (filter, rest) = match filter(bytes) {
        Ok(field) => field,
        Err(bad) => return Err(bad),
    };
    match qos(rest) {
        Ok((qos, rest)) => Ok((RequestView { filter, qos }, rest)),
        Err(bad) => Err(bad),
    }
}

impl Item for Request {
    ghost item_at = { request_at };

    fn skip(bytes: &[u8]) -> Result<&[u8], BadField> {
        match request(bytes) {
            Ok((_, rest)) => Ok(rest),
            Err(bad) => Err(bad),
        }
    }

    fn read(alloc: Global, bytes: &[u8]) -> Result<(Request, &[u8]), FieldsError> {
        let (request, rest) = match request(bytes) {
            Ok(field) => field,
            Err(bad) => return Err(FieldsError::Bad(bad)),
        };
        let request = request.owned(alloc)?;
        Ok((request, rest))
    }
}

/// A code of SUBACK, and the bytes after it.
#[tactic(auto, unfolding(crate::specs::Lists::suback_code_at))]
pub(crate) fn suback_code(bytes: &[u8]) -> Result<(SubAckCode, &[u8]), BadField>
    ensures read { Same (λ x. (x.0, x.1.now)) result (suback_code_at bytes.now) }
    ensures shorter { IfOk result (λ x. length x.1.now < length bytes.now) }
{
    let Some((byte, rest)) = bytes.split_first() else {
        return bad_at(FaultKind::PastEnd, bytes);
    };
    match SubAckCode::from_number(*byte) {
        Some(code) => Ok((code, rest)),
        None => bad_at(FaultKind::ForbiddenCode, bytes),
    }
}

impl Item for SubAckCode {
    ghost item_at = { suback_code_at };

    fn skip(bytes: &[u8]) -> Result<&[u8], BadField> {
        match suback_code(bytes) {
            Ok((_, rest)) => Ok(rest),
            Err(bad) => Err(bad),
        }
    }

    fn read(_alloc: Global, bytes: &[u8]) -> Result<(SubAckCode, &[u8]), FieldsError> {
        match suback_code(bytes) {
            Ok(field) => Ok(field),
            Err(bad) => Err(FieldsError::Bad(bad)),
        }
    }
}

// Tests the items up to the end of the packet, of which there is to be at least one.
fn test_list<T: Item>(bytes: &[u8]) -> Result<(), BadField>
    ensures { Tests result (list_at T.item_at bytes.now) }
{
    if bytes.is_empty() {
        return bad_at(FaultKind::EmptyList, bytes);
    }
    let mut rest = bytes;
    while !rest.is_empty() {
        match T::skip(rest) {
            Ok(after) => rest = after,
            Err(bad) => return Err(bad),
        }
    }
    Ok(())
}

/// An identifier, and the bytes of a list of at least one item, which ends the packet.
#[tactic(auto, unfolding(crate::specs::Lists::list_with))]
pub(crate) fn tested_list<T: Item>(bytes: &[u8]) -> Result<(PacketId, &[u8]), BadField>
    ensures read { Same (λ x. (x.0, items_of (list_at T.item_at x.1.now))) result
        (list_with T.item_at bytes.now) }
    ensures tested { IfOk result (λ x. IsOk (list_at T.item_at x.1.now)) }
{
    let (id, rest) = match identifier(bytes) {
        Ok(field) => field,
        Err(bad) => return Err(bad),
    };
    match test_list::<T>(rest) {
        Ok(()) => Ok((id, rest)),
        Err(bad) => Err(bad),
    }
}

/// The items of a list that was tested.
pub(crate) fn list<T: Item + Drop>(alloc: Global, bytes: &[u8]) -> Result<NonEmpty<T>, AllocError>
    requires { IsOk (list_at T.item_at bytes.now) }
    ensures { IfOk result (λ l. l ≡ items_of (list_at T.item_at bytes.now)) }
{
    let mut items = Vec::new(alloc);
    let mut rest = bytes;
    while !rest.is_empty() {
        match T::read(alloc, rest) {
            Ok((item, after)) => {
                items.push(item)?;
                rest = after;
            }
            Err(FieldsError::Memory) => return Err(AllocError),
            Err(FieldsError::Bad(_)) => unreachable!(),
        }
    }
    Ok(NonEmpty::from_vec(items))
}
