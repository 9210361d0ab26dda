//! The options of a subscriber.

use crate::choice::Choice;
use crate::retry::Retry;
use mq_packet::{NonEmpty, Request};
use mq_topic::TopicFilter;

/// The requests of a subscriber, and the messages that it prints.
#[derive(Clone, Copy, Debug)]
pub struct SubscribeOptions<'a> {
    /// The subscriptions to request.
    pub requests: Option<&'a NonEmpty<Request>>,
    /// The subscriptions to give up.
    pub given_up: Option<&'a NonEmpty<TopicFilter>>,
    /// The messages to print.
    pub choice: Choice<'a>,
    /// The number of messages to print before the run ends.
    pub count: Option<u64>,
    /// The run ends once the subscriptions are granted.
    pub ends_when_granted: bool,
    /// The clean session flag of each connection (3.1.2.4).
    pub clean: bool,
    /// How the run continues after a loss.
    pub retry: Retry,
}
