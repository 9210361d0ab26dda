//! The clients of a loopback file.

use mq_end::BoxedList;
use mq_packet::Payload;
use mq_topic::{Qos, TopicFilter, TopicName};
use mq_wire::Text;

/// A client of a loopback file.
#[derive(Debug, Drop)]
pub struct Client {
    /// Its client identifier (3.1.3.1).
    pub name: Text,
    /// Its role.
    pub role: Role,
}

/// The role of a client in a loopback file.
#[derive(Debug, Drop)]
pub enum Role {
    /// It collects messages.
    Collector(Collector),
    /// It publishes messages.
    Publisher(Publisher),
}

/// A subscription.
#[derive(Debug, Drop)]
pub struct Collector {
    /// Which topic names (4.7).
    pub filter: TopicFilter,
    /// The greatest quality of service asked for (3.8.3).
    pub qos: Qos,
    /// How many messages, at least.
    pub count: u32,
}

/// Messages to publish.
#[derive(Debug, Drop)]
pub struct Publisher {
    /// The topic to publish them to (4.7).
    pub topic: TopicName,
    /// The quality of service to publish them with (4.3).
    pub qos: Qos,
    /// The payloads, at least one.
    pub payloads: BoxedList<Payload>,
}
