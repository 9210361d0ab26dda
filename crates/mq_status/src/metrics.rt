//! Counting.

ghost use Rattle.std.specs.Prelude.{◌≡◌, ◌+◌, ◌<◌, length};
ghost use Rattle.mq_status.specs.Counting.{place, size};
ghost use Rattle.mq_status.specs.declared.counter.Counter as declared;

use crate::counter::{COUNTERS, Counter, miss_reason};
use mq_end::CloseReason;
use mq_packet::Message;
use mq_route::{Act, HubClose, HubReply};
use std::marker::Model;

/// Numbers that the caller measures. They may decrease.
#[derive(Clone, Copy, Default)]
pub struct Gauges {
    /// Connections that are open.
    pub connections: u64,
    /// Sessions that are stored, of connected clients or not.
    pub sessions: u64,
    /// Subscriptions that are stored.
    pub subscriptions: u64,
    /// Retained messages.
    pub retained: u64,
    /// Messages that sessions store.
    pub stored_messages: u64,
    /// Bytes pending on all connections.
    pub pending_bytes: u64,
}

/// The counters and gauges of a broker. Calls may come in any order.
#[derive(Drop)]
pub struct Metrics {
    counts: [u64; COUNTERS],
    gauges: Gauges,
}

impl Model for Metrics {
    ghost use Rattle.mq_status.specs.Counting.{Numbers};

    ghost Value = { Numbers };

    ghost view = { λ m. record { counts = m.counts; gauges = m.gauges } };
}

impl Metrics {
    ghost use Rattle.mq_status.specs.Prelude.{Grows, act_adds, acts_add, refusal_adds, share, value, BytesRead, BytesWritten, Closed, RoundMicroseconds, Rounds};

    /// Returns metrics that are all 0.
    pub fn new() -> Metrics
        ensures { (counter : declared.Counter) → value result counter ≡ 0 }
    {
        Metrics {
            counts: [0; COUNTERS],
            gauges: Gauges::default(),
        }
    }

    /// Returns the value of a counter.
    pub fn count(&self, counter: Counter) -> u64
        ensures { result ≡ value self.now counter }
    {
        self.counts[counter.place()]
    }

    /// Returns the gauges.
    pub fn gauges(&self) -> Gauges
        ensures { result ≡ self.now.gauges }
    {
        self.gauges
    }

    /// Replaces the gauges.
    pub fn set_gauges(&mut self, gauges: Gauges)
        ensures counts { self.new.counts ≡ self.old.counts }
        ensures gauges { self.new.gauges ≡ gauges }
    {
        self.gauges = gauges;
    }

    /// Adds `amount` to a counter, which stops at the greatest `u64`.
    pub fn add(&mut self, counter: Counter, amount: u64)
        ensures { Grows self.old self.new (share counter amount) }
    {
        let place = counter.place();
        self.counts[place] = self.counts[place].saturating_add(amount);
    }

    /// Counts the acts of a reply. Call it once for each reply of the broker.
    #[tactic(auto, using(crate::proofs::Growing::grows_more))]
    pub fn count_reply(&mut self, reply: &HubReply)
        ensures { Grows self.old self.new (λ counter. acts_add counter reply.now.acts) }
    {
        for act in reply.acts.as_slice() {
            self.count_act(act);
        }
    }

    /// Counts an act.
    pub fn count_act(&mut self, act: &Act)
        ensures { Grows self.old self.new (λ counter. act_adds counter act.now) }
    {
        match act {
            Act::Took(_, message) => {
                self.add(Counter::MessagesIn(message.qos), 1);
                self.add(Counter::MessageBytesIn(message.qos), size_of(message));
            }
            Act::Placed(_, message) => {
                self.add(Counter::MessagesOut(message.qos), 1);
                self.add(Counter::MessageBytesOut(message.qos), size_of(message));
            }
            Act::Missed(_, message) => self.add(Counter::Missed(miss_reason(message.qos)), 1),
            Act::Closed(_, reason) => self.count_close(*reason),
            Act::Up(..) => self.add(Counter::Connected, 1),
            Act::Removed(_) => self.add(Counter::SessionsEnded, 1),
            Act::Subscribed(..) => self.add(Counter::Subscribed, 1),
            Act::Unsubscribed(..) => self.add(Counter::Unsubscribed, 1),
            Act::Will(..) => self.add(Counter::Wills, 1),
            Act::WillDropped(_) => self.add(Counter::WillsDropped, 1),
        }
    }

    // Counts a close, and the refusal of a CONNECT.
    fn count_close(&mut self, reason: HubClose)
        ensures { Grows self.old self.new (λ counter.
            share (Closed reason) 1 counter + refusal_adds counter reason) }
    {
        self.add(Counter::Closed(reason), 1);
        if let HubClose::Own(CloseReason::Refused(code)) = reason {
            self.add(Counter::Refused(code), 1);
        }
    }

    /// Counts bytes that were read from a connection.
    pub fn count_read(&mut self, bytes: usize)
        ensures { Grows self.old self.new (share BytesRead bytes) }
    {
        self.add(Counter::BytesRead, bytes as u64);
    }

    /// Counts bytes that were written to a connection.
    pub fn count_written(&mut self, bytes: usize)
        ensures { Grows self.old self.new (share BytesWritten bytes) }
    {
        self.add(Counter::BytesWritten, bytes as u64);
    }

    /// Counts a round of the event loop, which took this time without waiting.
    pub fn count_round(&mut self, microseconds: u64)
        ensures { Grows self.old self.new (λ counter.
            share Rounds 1 counter + share RoundMicroseconds microseconds counter) }
    {
        self.add(Counter::Rounds, 1);
        self.add(Counter::RoundMicroseconds, microseconds);
    }

    // The counters in the order of their places.
    pub(crate) fn counts(&self) -> &[u64; COUNTERS]
        ensures { result.now ≡ self.now.counts }
    {
        &self.counts
    }
}

// The bytes of the topic and the payload of a message.
fn size_of(message: &Message) -> u64
    ensures { result ≡ size message.now }
{
    message.topic.as_str().len() as u64 + message.payload.as_slice().len() as u64
}
