//! Borrowed lists (3.8.3, 3.9.3, 3.10.3). They were validated as a whole; items are decoded on
//! access.

ghost use Rattle.std.specs.Prelude.{◌≡◌, [], ◌∷◌, length, IfOk, IfSome, IsOk, MatchOption};
ghost use Rattle.mq_decode.specs.Fields.{filter_at};
ghost use Rattle.mq_decode.specs.Lent.{IsLeft, items_of, left_in};
ghost use Rattle.mq_decode.specs.Lists.{list_at, request_at, suback_code_at};

use crate::fields::{FilterView, filter};
use crate::lists::{RequestView, list, request, suback_code};
use mq_packet::{NonEmpty, Request, SubAckCode};
use mq_topic::TopicFilter;
use mq_wire::{length_laws, number_laws, text_laws};
use std::alloc::{AllocError, Global};
use std::marker::Model;

/// The subscriptions of a borrowed SUBSCRIBE (3.8.3).
#[derive(Debug, Drop)]
pub struct RequestsView<'a> {
    bytes: &'a [u8],
}

impl<'a> Model for RequestsView<'a> {
    ghost use Rattle.std.specs.Prelude.{List, IsOk};
    ghost use Rattle.mq_packet.specs.declared.packet.Request.{Request};
    ghost use Rattle.mq_decode.specs.Lent.{items_of};
    ghost use Rattle.mq_decode.specs.Lists.{list_at, request_at};

    ghost Value = { List Request };

    ghost view = { λ l. items_of (list_at request_at l.bytes.now) };

    ghost invariant = { λ l. IsOk (list_at request_at l.bytes.now) };
}

impl<'a> RequestsView<'a> {
    /// The items in these bytes, which were tested.
    pub(crate) fn new(bytes: &'a [u8]) -> RequestsView<'a>
        requires { IsOk (list_at request_at bytes.now) }
        ensures { result ≡ items_of (list_at request_at bytes.now) }
    {
        RequestsView { bytes }
    }

    /// The items one after another.
    pub fn iter(&self) -> Requests<'a>
        ensures value { result ≡ self.now }
    {
        Requests { rest: self.bytes }
    }

    /// A list of its own.
    pub fn owned(&self, alloc: Global) -> Result<NonEmpty<Request>, AllocError>
        ensures { IfOk result (λ l. l ≡ self.now) }
    {
        list::<Request>(alloc, self.bytes)
    }
}

/// An iterator over the items of a SUBSCRIBE.
#[derive(Debug, Drop)]
pub struct Requests<'a> {
    rest: &'a [u8],
}

impl<'a> Model for Requests<'a> {
    ghost use Rattle.std.specs.Prelude.{List};
    ghost use Rattle.mq_packet.specs.declared.packet.Request.{Request};
    ghost use Rattle.mq_decode.specs.Lent.{IsLeft, left_in};
    ghost use Rattle.mq_decode.specs.Lists.{request_at};

    ghost Value = { List Request };

    ghost view = { λ s. left_in request_at s.rest.now };

    ghost invariant = { λ s. IsLeft request_at s.rest.now };
}

impl<'a> Iterator for Requests<'a> {
    ghost use Rattle.mq_decode.specs.Prelude.{at_most, TakesFirst};

    type Item = RequestView<'a>;

    ghost next_gives = { TakesFirst (λ x. x) };

    ghost remaining = { λ s. at_most (length s) };

    fn next(&mut self) -> Option<RequestView<'a>> {
        let Some((item, rest)) = first_request(self.rest) else {
            return None;
        };
        self.rest = rest;
        Some(item)
    }
}

// The first of the remaining requests, and the bytes after it.
fn first_request(bytes: &[u8]) -> Option<(RequestView<'_>, &[u8])>
    requires { IsLeft request_at bytes.now }
    ensures items { MatchOption result (left_in request_at bytes.now ≡ [])
        (λ x. left_in request_at bytes.now ≡ x.0 ∷ left_in request_at x.1.now) }
    ensures left { IfSome result (λ x. IsLeft request_at x.1.now) }
{
    number_laws();
    text_laws();
    length_laws();
    if bytes.is_empty() {
        return None;
    }
    match request(bytes) {
        Ok(found) => Some(found),
        Err(_) => unreachable!(),
    }
}

/// The codes of a borrowed SUBACK (3.9.3).
#[derive(Debug, Drop)]
pub struct CodesView<'a> {
    bytes: &'a [u8],
}

impl<'a> Model for CodesView<'a> {
    ghost use Rattle.std.specs.Prelude.{List, IsOk};
    ghost use Rattle.mq_packet.specs.declared.packet.SubAckCode.{SubAckCode};
    ghost use Rattle.mq_decode.specs.Lent.{items_of};
    ghost use Rattle.mq_decode.specs.Lists.{list_at, suback_code_at};

    ghost Value = { List SubAckCode };

    ghost view = { λ l. items_of (list_at suback_code_at l.bytes.now) };

    ghost invariant = { λ l. IsOk (list_at suback_code_at l.bytes.now) };
}

impl<'a> CodesView<'a> {
    /// The codes in these bytes, which were tested.
    pub(crate) fn new(bytes: &'a [u8]) -> CodesView<'a>
        requires { IsOk (list_at suback_code_at bytes.now) }
        ensures { result ≡ items_of (list_at suback_code_at bytes.now) }
    {
        CodesView { bytes }
    }

    /// The codes one after another.
    pub fn iter(&self) -> Codes<'a>
        ensures value { result ≡ self.now }
    {
        Codes { rest: self.bytes }
    }

    /// A list of its own.
    pub fn owned(&self, alloc: Global) -> Result<NonEmpty<SubAckCode>, AllocError>
        ensures { IfOk result (λ l. l ≡ self.now) }
    {
        list::<SubAckCode>(alloc, self.bytes)
    }
}

/// An iterator over the codes of a SUBACK.
#[derive(Debug, Drop)]
pub struct Codes<'a> {
    rest: &'a [u8],
}

impl<'a> Model for Codes<'a> {
    ghost use Rattle.std.specs.Prelude.{List};
    ghost use Rattle.mq_packet.specs.declared.packet.SubAckCode.{SubAckCode};
    ghost use Rattle.mq_decode.specs.Lent.{IsLeft, left_in};
    ghost use Rattle.mq_decode.specs.Lists.{suback_code_at};

    ghost Value = { List SubAckCode };

    ghost view = { λ s. left_in suback_code_at s.rest.now };

    ghost invariant = { λ s. IsLeft suback_code_at s.rest.now };
}

impl<'a> Iterator for Codes<'a> {
    ghost use Rattle.mq_decode.specs.Prelude.{at_most, TakesFirst};

    type Item = SubAckCode;

    ghost next_gives = { TakesFirst (λ x. x) };

    ghost remaining = { λ s. at_most (length s) };

    fn next(&mut self) -> Option<SubAckCode> {
        let Some((item, rest)) = first_code(self.rest) else {
            return None;
        };
        self.rest = rest;
        Some(item)
    }
}

// The first of the remaining codes, and the bytes after it.
fn first_code(bytes: &[u8]) -> Option<(SubAckCode, &[u8])>
    requires { IsLeft suback_code_at bytes.now }
    ensures items { MatchOption result (left_in suback_code_at bytes.now ≡ [])
        (λ x. left_in suback_code_at bytes.now ≡ x.0 ∷ left_in suback_code_at x.1.now) }
    ensures left { IfSome result (λ x. IsLeft suback_code_at x.1.now) }
{
    if bytes.is_empty() {
        return None;
    }
    match suback_code(bytes) {
        Ok(found) => Some(found),
        Err(_) => unreachable!(),
    }
}

/// The filters of a borrowed UNSUBSCRIBE (3.10.3).
#[derive(Debug, Drop)]
pub struct FiltersView<'a> {
    bytes: &'a [u8],
}

impl<'a> Model for FiltersView<'a> {
    ghost use Rattle.std.specs.Prelude.{ℕ, List, IsOk};
    ghost use Rattle.mq_decode.specs.Fields.{filter_at};
    ghost use Rattle.mq_decode.specs.Lent.{items_of};
    ghost use Rattle.mq_decode.specs.Lists.{list_at};

    ghost Value = { List (List ℕ) };

    ghost view = { λ l. items_of (list_at filter_at l.bytes.now) };

    ghost invariant = { λ l. IsOk (list_at filter_at l.bytes.now) };
}

impl<'a> FiltersView<'a> {
    /// The filters in these bytes, which were tested.
    pub(crate) fn new(bytes: &'a [u8]) -> FiltersView<'a>
        requires { IsOk (list_at filter_at bytes.now) }
        ensures { result ≡ items_of (list_at filter_at bytes.now) }
    {
        FiltersView { bytes }
    }

    /// The filters one after another.
    pub fn iter(&self) -> Filters<'a>
        ensures value { result ≡ self.now }
    {
        Filters { rest: self.bytes }
    }

    /// A list of its own.
    pub fn owned(&self, alloc: Global) -> Result<NonEmpty<TopicFilter>, AllocError>
        ensures { IfOk result (λ l. l ≡ self.now) }
    {
        list::<TopicFilter>(alloc, self.bytes)
    }
}

/// An iterator over the filters of an UNSUBSCRIBE.
#[derive(Debug, Drop)]
pub struct Filters<'a> {
    rest: &'a [u8],
}

impl<'a> Model for Filters<'a> {
    ghost use Rattle.std.specs.Prelude.{ℕ, List};
    ghost use Rattle.mq_decode.specs.Fields.{filter_at};
    ghost use Rattle.mq_decode.specs.Lent.{IsLeft, left_in};

    ghost Value = { List (List ℕ) };

    ghost view = { λ s. left_in filter_at s.rest.now };

    ghost invariant = { λ s. IsLeft filter_at s.rest.now };
}

impl<'a> Iterator for Filters<'a> {
    ghost use Rattle.mq_decode.specs.Prelude.{at_most, TakesFirst};

    type Item = FilterView<'a>;

    ghost next_gives = { TakesFirst (λ x. x) };

    ghost remaining = { λ s. at_most (length s) };

    fn next(&mut self) -> Option<FilterView<'a>> {
        let Some((item, rest)) = first_filter(self.rest) else {
            return None;
        };
        self.rest = rest;
        Some(item)
    }
}

// The first of the remaining filters, and the bytes after it.
fn first_filter(bytes: &[u8]) -> Option<(FilterView<'_>, &[u8])>
    requires { IsLeft filter_at bytes.now }
    ensures items { MatchOption result (left_in filter_at bytes.now ≡ [])
        (λ x. left_in filter_at bytes.now ≡ x.0 ∷ left_in filter_at x.1.now) }
    ensures left { IfSome result (λ x. IsLeft filter_at x.1.now) }
{
    number_laws();
    text_laws();
    length_laws();
    if bytes.is_empty() {
        return None;
    }
    match filter(bytes) {
        Ok(found) => Some(found),
        Err(_) => unreachable!(),
    }
}
