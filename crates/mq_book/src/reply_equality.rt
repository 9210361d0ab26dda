//! Equality of replies.

ghost use Rattle.std.specs.Prelude.{◌≡◌, ◌↔◌, IsTrue};

use mq_packet::Message;
use mq_route::{Act, Conn, HubClose, HubReply};
use mq_topic::Qos;

fn are_same_bytes(one: &[u8], other: &[u8]) -> bool
    ensures { IsTrue result ↔ (one.now ≡ other.now) }
{
    one == other
}

fn are_same_qos(one: Qos, other: Qos) -> bool
    ensures { IsTrue result ↔ (one ≡ other) }
{
    one == other
}

fn are_same_conns(one: Conn, other: Conn) -> bool
    ensures { IsTrue result ↔ (one ≡ other) }
{
    one == other
}

fn are_same_closes(one: HubClose, other: HubClose) -> bool
    ensures { IsTrue result ↔ (one ≡ other) }
{
    one == other
}

fn are_same_messages(one: &Message, other: &Message) -> bool
    ensures { IsTrue result ↔ (one.now ≡ other.now) }
{
    are_same_bytes(
        one.topic.as_str().as_bytes(),
        other.topic.as_str().as_bytes(),
    ) && are_same_bytes(one.payload.as_slice(), other.payload.as_slice())
        && are_same_qos(one.qos, other.qos)
        && one.retain == other.retain
}

fn are_same_acts(one: &Act, other: &Act) -> bool
    ensures { IsTrue result ↔ (one.now ≡ other.now) }
{
    match (one, other) {
        (Act::Up(conn, key, present), Act::Up(conn2, key2, present2)) => {
            are_same_conns(*conn, *conn2) && key.get() == key2.get() && *present == *present2
        }
        (Act::Took(key, message), Act::Took(key2, message2))
        | (Act::Placed(key, message), Act::Placed(key2, message2))
        | (Act::Missed(key, message), Act::Missed(key2, message2))
        | (Act::Will(key, message), Act::Will(key2, message2)) => {
            key.get() == key2.get() && are_same_messages(message, message2)
        }
        (Act::Subscribed(key, filter, qos), Act::Subscribed(key2, filter2, qos2)) => {
            key.get() == key2.get()
                && are_same_bytes(filter.as_str().as_bytes(), filter2.as_str().as_bytes())
                && are_same_qos(*qos, *qos2)
        }
        (Act::Unsubscribed(key, filter), Act::Unsubscribed(key2, filter2)) => {
            key.get() == key2.get()
                && are_same_bytes(filter.as_str().as_bytes(), filter2.as_str().as_bytes())
        }
        (Act::WillDropped(key), Act::WillDropped(key2)) | (Act::Removed(key), Act::Removed(key2)) =>
            key.get() == key2.get(),
        (Act::Closed(conn, why), Act::Closed(conn2, why2)) => {
            are_same_conns(*conn, *conn2) && are_same_closes(*why, *why2)
        }
        _ => false,
    }
}

fn are_all_same(one: &[Act], other: &[Act]) -> bool
    ensures { IsTrue result ↔ (one.now ≡ other.now) }
{
    let mut left = one;
    let mut right = other;
    while let [first, rest @ ..] = left {
        let [first2, rest2 @ ..] = right else {
            return false;
        };
        if !are_same_acts(first, first2) {
            return false;
        }
        left = rest;
        right = rest2;
    }
    right.is_empty()
}

/// Whether two replies are equal.
pub fn are_same_replies(one: &HubReply, other: &HubReply) -> bool
    ensures { IsTrue result ↔ (one.now ≡ other.now) }
{
    one.alive == other.alive
        && are_same_bytes(one.output.as_slice(), other.output.as_slice())
        && are_all_same(one.acts.as_slice(), other.acts.as_slice())
}
