//! The counters of a broker.

ghost use Rattle.std.specs.Prelude.{◌≡◌, ◌<◌};
ghost use Rattle.mq_status.specs.Prelude.{close_number, miss_reason, place};

use mq_end::CloseReason;
use mq_packet::RefusalCode;
use mq_route::HubClose;
use mq_topic::Qos;

/// The number of counters.
pub const COUNTERS: usize = 43;

/// Why a client misses a message.
#[derive(Clone, Copy)]
pub enum MissReason {
    /// Its session has no room for a message of quality of service 1 or 2.
    SessionFull,
    /// Its connection has no room for a message of quality of service 0.
    OutputFull,
}

/// Why a client misses a copy of this quality of service.
pub(crate) fn miss_reason(qos: Qos) -> MissReason
    ensures { result ≡ miss_reason qos }
{
    match qos {
        Qos::Q0 => MissReason::OutputFull,
        Qos::Q1 | Qos::Q2 => MissReason::SessionFull,
    }
}

/// A counter of a broker. Each starts at 0, never decreases, and stops at the greatest `u64`.
#[derive(Clone, Copy)]
pub enum Counter {
    /// Messages accepted from clients (4.3).
    MessagesIn(Qos),
    /// The bytes of their topics and payloads.
    MessageBytesIn(Qos),
    /// Copies of messages placed for clients (3.3.5).
    MessagesOut(Qos),
    /// The bytes of their topics and payloads.
    MessageBytesOut(Qos),
    /// Copies that a client misses.
    Missed(MissReason),
    /// Connections that the broker closed, by reason.
    Closed(HubClose),
    /// CONNECT packets that were refused, by return code (3.2.2.3).
    Refused(RefusalCode),
    /// CONNECT packets that were accepted.
    Connected,
    /// Sessions that were removed.
    SessionsEnded,
    /// Subscriptions that were stored.
    Subscribed,
    /// Subscriptions that were removed by UNSUBSCRIBE.
    Unsubscribed,
    /// Wills that were published.
    Wills,
    /// Wills that were dropped.
    WillsDropped,
    /// Bytes read from connections.
    BytesRead,
    /// Bytes written to connections.
    BytesWritten,
    /// Connections closed at once, because there were too many.
    TurnedAway,
    /// Rounds of the event loop.
    Rounds,
    /// The time spent in rounds, in microseconds, without waiting.
    RoundMicroseconds,
}

// The number of a close's code: 5 for `C5`.
fn close_number(reason: HubClose) -> usize
    ensures value { result ≡ close_number reason }
    ensures bound { result < 14 }
{
    match reason {
        HubClose::Own(CloseReason::Fault(_)) => 1,
        HubClose::Own(CloseReason::Unexpected) => 2,
        HubClose::Own(CloseReason::Refused(_)) => 3,
        HubClose::Own(CloseReason::SessionLost) => 4,
        HubClose::Own(CloseReason::KeepAlive) => 5,
        HubClose::Own(CloseReason::Memory) => 6,
        HubClose::Own(CloseReason::Left) => 7,
        HubClose::TargetFull => 8,
        HubClose::TakenOver => 9,
        HubClose::PeerEnded => 10,
        HubClose::Own(CloseReason::Window) => 11,
        HubClose::NoConnect => 12,
        HubClose::TooManyMatches => 13,
    }
}

impl Counter {
    /// Returns the place of the counter among all, below [`COUNTERS`].
    pub fn place(self) -> usize
        ensures value { result ≡ place self }
        ensures bound { result < 43 }
    {
        match self {
            Counter::MessagesIn(qos) => usize::from(qos.number()),
            Counter::MessageBytesIn(qos) => 3 + usize::from(qos.number()),
            Counter::MessagesOut(qos) => 6 + usize::from(qos.number()),
            Counter::MessageBytesOut(qos) => 9 + usize::from(qos.number()),
            Counter::Missed(MissReason::SessionFull) => 12,
            Counter::Missed(MissReason::OutputFull) => 13,
            Counter::Closed(reason) => 13 + close_number(reason),
            Counter::Refused(code) => 26 + usize::from(code.number()),
            Counter::Connected => 32,
            Counter::SessionsEnded => 33,
            Counter::Subscribed => 34,
            Counter::Unsubscribed => 35,
            Counter::Wills => 36,
            Counter::WillsDropped => 37,
            Counter::BytesRead => 38,
            Counter::BytesWritten => 39,
            Counter::TurnedAway => 40,
            Counter::Rounds => 41,
            Counter::RoundMicroseconds => 42,
        }
    }
}
