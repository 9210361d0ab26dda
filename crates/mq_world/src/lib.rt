//! Two ends that are joined by two wires of bytes, under a list of events, and the promise of every
//! run. A call that may allocate says so in its return type; other calls never allocate.
//!
//! The definitions are in `specs/`: the machine of two ends and two queues of packets, its moves,
//! the headline, settling, and the world over bytes that carries such a machine.
#![tactic(auto)]

mod account;
mod answer;
mod event;
mod laws;
mod pair;
mod random;
mod restart;
mod side;
mod trace;
mod world;

pub use crate::account::Account;
pub use crate::answer::{Answer, DeliveredBytes, Opening, Settling};
pub use crate::event::Event;
pub use crate::laws::{
    arrivals_at_once, carried, event_by_event, examples, headline, identifiers, over_bytes, runs,
    sessions, settles_over_bytes, settling,
};
pub use crate::random::made_up;
pub use crate::side::Side;
pub use crate::trace::Trace;
pub use crate::world::World;
