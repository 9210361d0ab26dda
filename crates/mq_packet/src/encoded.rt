//! Encoding of list items.

ghost use Rattle.std.specs.Prelude.{◌≡◌, ◌+◌, ◌<◌, ◌≤◌, ◌^◌, ◌++◌, List, ℕ, length, vec_len, vec_capacity, IfSome, IsSome, ◌↔◌};
ghost use Rattle.mq_packet.specs.Prelude.{flat_map, AllByRecursion, number, counted, IsRequest, Always, request_fields, code_fields, IsTopicFilter};

use crate::packet::{Request, SubAckCode};
use byteorder::{BigEndian, ByteOrder};
use mq_topic::TopicFilter;

/// An item of a list in a packet.
pub(crate) trait ListItem {
    ghost encoding: { Self → List ℕ };

    ghost is_item: { Self → Type 0 };

    /// Its size in bytes.
    fn size(&self) -> u32
        ensures size { result ≡ length (encoding self.now) }
        ensures small { result < 65_540 };

    /// Appends its bytes. The vector must have room for them.
    fn put(&self, out: &mut Vec<u8>)
        requires { vec_len out.old + length (encoding self.now) ≤ vec_capacity out.old }
        ensures items { out.new.items ≡ out.old.items ++ encoding self.now }
        ensures capacity { vec_capacity out.old ≤ vec_capacity out.new }
        ensures item { is_item self.now };
}

/// Appends bytes. The vector must have room for them.
pub(crate) fn put_bytes(out: &mut Vec<u8>, bytes: &[u8])
    requires { vec_len out.old + length bytes.now ≤ vec_capacity out.old }
    ensures items { out.new.items ≡ out.old.items ++ bytes.now }
    ensures capacity { vec_capacity out.old ≤ vec_capacity out.new }
{
    let _ = out.extend_from_slice(bytes);
}

/// Appends a number in two bytes (1.5.2). The vector must have room for them.
pub(crate) fn put_number(out: &mut Vec<u8>, n: u16)
    requires { vec_len out.old + 2 ≤ vec_capacity out.old }
    ensures items { out.new.items ≡ out.old.items ++ number n }
    ensures capacity { vec_capacity out.old ≤ vec_capacity out.new }
{
    let mut bytes = [0u8; 2];
    BigEndian::write_u16(&mut bytes, n);
    put_bytes(out, &bytes);
}

/// Appends a length in two bytes and the bytes. The vector must have room for them.
pub(crate) fn put_counted(out: &mut Vec<u8>, bytes: &[u8])
    requires short { length bytes.now < 65_536 }
    requires room { vec_len out.old + length (counted bytes.now) ≤ vec_capacity out.old }
    ensures items { out.new.items ≡ out.old.items ++ counted bytes.now }
    ensures capacity { vec_capacity out.old ≤ vec_capacity out.new }
{
    put_number(out, bytes.len() as u16);
    put_bytes(out, bytes);
}

impl ListItem for TopicFilter {
    ghost encoding = { counted };

    ghost is_item = { IsTopicFilter };

    fn size(&self) -> u32 {
        2 + self.as_str().len() as u32
    }

    fn put(&self, out: &mut Vec<u8>) {
        put_counted(out, self.as_str().as_bytes());
    }
}

impl ListItem for Request {
    ghost encoding = { request_fields };

    ghost is_item = { IsRequest };

    fn size(&self) -> u32 {
        3 + self.filter.as_str().len() as u32
    }

    fn put(&self, out: &mut Vec<u8>) {
        put_counted(out, self.filter.as_str().as_bytes());
        out.push_reserved(self.qos.number());
    }
}

impl ListItem for SubAckCode {
    ghost encoding = { code_fields };

    ghost is_item = { Always };

    fn size(&self) -> u32 {
        1
    }

    fn put(&self, out: &mut Vec<u8>) {
        out.push_reserved(self.number());
    }
}

/// Returns the size of all items, or `None` if it exceeds 268,435,455.
pub(crate) fn size_of_all<T: ListItem>(items: &[T]) -> Option<u32>
    ensures fits { IsSome result ↔ (length (flat_map T.encoding items.now) < 2 ^ 28) }
    ensures size { IfSome result (λ n. n ≡ length (flat_map T.encoding items.now)) }
{
    let mut size = 0;
    for item in items {
        size += item.size();
        if size > 268_435_455 {
            return None;
        }
    }
    Some(size)
}

/// Appends all items in order. The vector must have room for them.
pub(crate) fn put_all<T: ListItem>(out: &mut Vec<u8>, items: &[T])
    requires { vec_len out.old + length (flat_map T.encoding items.now) ≤ vec_capacity out.old }
    ensures items { out.new.items ≡ out.old.items ++ flat_map T.encoding items.now }
    ensures capacity { vec_capacity out.old ≤ vec_capacity out.new }
    ensures each { AllByRecursion T.is_item items.now }
{
    for item in items {
        item.put(out);
    }
}
