//! Schedules: events between two ends, step by step.

ghost use Rattle.std.specs.Prelude.{◌≡◌, false};

use mq_decode::Limits;
use mq_world::Event;
use std::num::NonZeroU16;

/// A step of a schedule.
#[derive(Debug, Drop)]
pub enum Step {
    /// An event.
    Event(Event),
    /// Opens a connection, then delivers all bytes in flight, three times to each side (4.4).
    Settle,
}

/// A world and its steps.
#[derive(Debug, Drop)]
pub struct Schedule {
    /// The bound on the remaining length of packets (2.2.3). It is not lenient.
    pub limits: Limits,
    /// How many packet identifiers may be in use at a side (2.3.1).
    pub capacity: NonZeroU16,
    /// How many messages of quality of service 2 a side has in its receiving window at most, if it
    /// has one (4.3.3).
    pub window: Option<NonZeroU16>,
    /// The steps, in order.
    pub steps: Vec<Step>,
    pub ghost strict: { limits.lenient ≡ false },
}
