//! Room that an end makes for messages before they are published.

ghost use Rattle.std.specs.Prelude.{◌≡◌, ◌-◌, ◌&&◌, ℕ, List, not, nat_lt, length, filter, IfSome, IfNone, IfErr, OnOk, Err};
ghost use Rattle.mq_end.specs.Prelude.{list_any, uses, is_up, has_identifier, HasRoom, publishes_size, size_at_once, ready_refusal, publish_size};

use crate::endpoint::Endpoint;
use crate::publish::publish_size;
use crate::refusal::PublishRefusal;
use crate::state::State;
use mq_packet::Message;
use mq_topic::Qos;
use std::alloc::AllocError;

// Whether one of the messages has quality of service 0 (4.3.1).
fn has_at_most_once(messages: &[Message]) -> bool
    ensures { result ≡ list_any (λ m. not (has_identifier m.qos)) messages.now }
{
    for message in messages {
        if message.qos == Qos::Q0 {
            return true;
        }
    }
    false
}

// Whether the PUBLISH of one of the messages is over a limit (2.2.3, 3.3).
fn has_too_large(messages: &[Message], limit: u32) -> bool
    ensures { result ≡ list_any (λ m. nat_lt limit (publish_size m)) messages.now }
{
    for message in messages {
        if publish_size(message) > limit as usize {
            return true;
        }
    }
    false
}

/// How many of the messages get an identifier (2.3.1).
pub(crate) fn count_identified(messages: &[Message]) -> usize
    ensures { result ≡ length (filter (λ m. has_identifier m.qos) messages.now) }
{
    let mut count = 0;
    for message in messages {
        if message.qos != Qos::Q0 {
            count += 1;
        }
    }
    count
}

/// An upper bound on the size of their PUBLISH packets, or `None` if it exceeds `usize`.
pub(crate) fn size_of_all(messages: &[Message]) -> Option<usize>
    ensures { IfSome result (λ size. size ≡ publishes_size messages.now) }
{
    let mut size: usize = 0;
    for message in messages {
        let whole = publish_size(message).checked_add(5)?;
        size = size.checked_add(whole)?;
    }
    Some(size)
}

impl Endpoint {
    /// Whether the end is connected (3.2).
    fn is_up(&self) -> bool
        ensures { result ≡ is_up self.now.end.state }
    {
        self.state == State::Connected
    }

    /// Whether one of the messages is refused for lack of a session (3.1.2.4).
    fn lacks_session(&self, messages: &[Message]) -> bool
        ensures { result ≡ list_any (λ m. not self.now.end.known) messages.now }
    {
        !self.known && !messages.is_empty()
    }

    /// Whether one of the messages is refused for lack of a connection (4.3.1).
    fn lacks_connection(&self, messages: &[Message]) -> bool
        ensures { result ≡ list_any (λ m. not (has_identifier m.qos) && not (is_up self.now.end.state)) messages.now }
    {
        !self.is_up() && has_at_most_once(messages)
    }

    /// Whether fewer identifiers are free than the messages need (2.3.1).
    fn lacks_identifiers(&self, messages: &[Message]) -> bool
        ensures { result ≡ nat_lt (self.now.capacity - length (uses self.now.end.book)) (length (filter (λ m. has_identifier m.qos) messages.now)) }
    {
        self.session.sender.left() < count_identified(messages)
    }

    /// Why not all of the messages could be published one after another, unless an allocation
    /// fails.
    fn ready_refusal(&self, messages: &[Message]) -> Option<PublishRefusal>
        ensures { result ≡ ready_refusal self.now.limit.most self.now.capacity messages.now self.now.end }
    {
        if self.lacks_session(messages) {
            return Some(PublishRefusal::NoSession);
        }
        if self.lacks_connection(messages) {
            return Some(PublishRefusal::NotConnected);
        }
        if has_too_large(messages, self.limits.max_packet()) {
            return Some(PublishRefusal::TooLarge);
        }
        if self.lacks_identifiers(messages) {
            return Some(PublishRefusal::Full);
        }
        None
    }

    /// An upper bound on the size of the messages that are sent at once, or `None` if it exceeds
    /// `usize`.
    fn size_at_once(&self, messages: &[Message]) -> Option<usize>
        ensures { IfSome result (λ size. size ≡ size_at_once self.now.end.state messages.now) }
    {
        if !self.is_up() {
            return Some(0);
        }
        size_of_all(messages)
    }

    /// Reserves room for messages and for `more` bytes.
    fn make_room(&mut self, messages: &[Message], more: usize) -> Result<(), AllocError>
        ensures room { OnOk result (HasRoom messages.now more self.new) }
        ensures same { self.new ≡ record self.old { room = self.new.room } }
        ensures before { (ms : List Message) (n : ℕ) → HasRoom ms n self.old → HasRoom ms n self.new }
    {
        let Some(size) = self.size_at_once(messages) else {
            return Err(AllocError);
        };
        let Some(bytes) = size.checked_add(more) else {
            return Err(AllocError);
        };
        self.session.sender.reserve(count_identified(messages))?;
        self.output.reserve(bytes)
    }

    /// Reserves room for messages and for `more` bytes next to their PUBLISH packets.
    pub(crate) fn ready(&mut self, messages: &[Message], more: usize) -> Result<(), PublishRefusal>
        ensures refused { IfSome (ready_refusal self.old.limit.most self.old.capacity messages.now self.old.end)
            (λ why. result ≡ Err why) }
        ensures memory { IfNone (ready_refusal self.old.limit.most self.old.capacity messages.now self.old.end)
            (IfErr result (λ why. why ≡ PublishRefusal.Memory)) }
        ensures room { OnOk result (HasRoom messages.now more self.new) }
        ensures same { self.new ≡ record self.old { room = self.new.room } }
        ensures before { (ms : List Message) (n : ℕ) → HasRoom ms n self.old → HasRoom ms n self.new }
    {
        if let Some(why) = self.ready_refusal(messages) {
            return Err(why);
        }
        match self.make_room(messages, more) {
            Ok(()) => Ok(()),
            Err(_) => Err(PublishRefusal::Memory),
        }
    }
}
