//! The room of a session.

ghost use Rattle.std.specs.Prelude.{◌≡◌, ◌==◌, ◌||◌, ◌+◌, length, not, true};
ghost use Rattle.mq_tables.specs.Prelude.{has_identifier, message_bytes, stored_bytes, fits_left, left_of, skips, space_after, space_of};

use crate::rules::CopyRules;
use crate::sessions::session::free_of;
use mq_end::{ServerEnd, publish_len};
use mq_flow::message_bytes;
use mq_packet::Message;
use mq_topic::Qos;

/// The room of a session. `None`: there is no limit.
#[derive(Clone, Copy)]
pub struct Space {
    /// The number of free packet identifiers (2.3.1).
    pub free: usize,
    /// The number of further bytes that the session may store.
    pub stored: Option<u64>,
    /// The number of further pending output bytes with a copy of QoS 0.
    pub waiting: Option<u64>,
}

/// The space of a client without a session.
pub(crate) const NO_SPACE: Space = Space {
    free: 0,
    stored: Some(0),
    waiting: Some(0),
};

/// Whether a message has a packet identifier: its quality of service is 1 or 2 (2.3.1).
pub fn has_identifier(message: &Message) -> bool
    ensures { result ≡ has_identifier message.now.qos }
{
    message.qos != Qos::Q0
}

/// The rest of a limit.
pub(crate) fn left_of(most: Option<u64>, used: u64) -> Option<u64>
    ensures { result ≡ left_of most used }
{
    Some(most?.saturating_sub(used))
}

/// Whether this number fits in the rest of a limit.
pub fn fits_left(left: Option<u64>, more: u64) -> bool
    ensures { result ≡ fits_left left more }
{
    match left {
        Some(left) => more <= left,
        None => true,
    }
}

/// Returns the number of further bytes that an end may store; 0 if it has no session.
pub(crate) fn stored_left(end: &ServerEnd, most_stored: Option<u64>) -> Option<u64>
    ensures { end.now.end.known ≡ true → result ≡ left_of most_stored (stored_bytes end.now.end.book) }
{
    match end.session() {
        Some(session) => left_of(most_stored, session.sender.stored_bytes()),
        None => Some(0),
    }
}

/// Returns the number of further pending output bytes, after this number of bytes is queued.
pub(crate) fn waiting_left(end: &ServerEnd, most_waiting: Option<u64>, queued: usize) -> Option<u64>
    ensures { result ≡ left_of most_waiting (queued + length end.now.output) }
{
    let rest = left_of(most_waiting, queued as u64);
    left_of(rest, end.output().len() as u64)
}

/// Returns the room of an end's session, after this number of bytes is queued.
pub(crate) fn space_of(end: &ServerEnd, rules: CopyRules, queued: usize) -> Space
    ensures { end.now.end.known ≡ true → result ≡ space_of rules queued end.now }
{
    Space {
        free: free_of(end),
        stored: stored_left(end, rules.most_stored),
        waiting: waiting_left(end, rules.most_waiting, queued),
    }
}

impl Space {
    // Whether no identifier is free for a message, or its bytes may not be stored.
    fn is_short(&self, message: &Message) -> bool
        ensures { result ≡ (self.now.free == 0 || not (fits_left self.now.stored (message_bytes message.now))) }
    {
        self.free == 0 || !fits_left(self.stored, message_bytes(message))
    }

    /// Whether a message is missed.
    pub fn skips(&self, rules: CopyRules, message: &Message) -> bool
        ensures { result ≡ skips rules self.now message.now }
    {
        if !has_identifier(message) {
            return !fits_left(self.waiting, publish_len(message) as u64);
        }
        if !rules.drops_copies() {
            return false;
        }
        self.is_short(message)
    }

    /// Returns the rest after a message is queued for a connected client.
    pub fn after(self, message: &Message) -> Space
        ensures { result ≡ space_after message.now self }
    {
        let waiting = left_of(self.waiting, publish_len(message) as u64);
        if !has_identifier(message) {
            return Space {
                free: self.free,
                stored: self.stored,
                waiting,
            };
        }
        Space {
            free: self.free.saturating_sub(1),
            stored: left_of(self.stored, message_bytes(message)),
            waiting,
        }
    }
}
