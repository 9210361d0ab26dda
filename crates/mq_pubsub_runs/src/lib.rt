//! The runs of `mqtt pub` and `mqtt sub`, over any stream, clock, network and session saver.
//!
//! One client end lives over all connections of a run: [`publish`] and [`subscribe`] make a new
//! connection after each loss, and the session continues.
//!
//! A call that may allocate says so in its return type; other calls never allocate.
//! On `Err` the receiver is unchanged unless stated otherwise.
#![tactic(auto)]

mod network;
mod outbox;
mod packet_stream;
mod publisher;
mod redial;
mod stop;
mod subscriber;
mod visit;

pub use crate::network::Network;
pub use crate::outbox::Tally;
pub use crate::packet_stream::PacketStream;
pub use crate::publisher::{PublishOptions, Published, publish};
pub use crate::subscriber::{Subscribed, subscribe};
pub use crate::visit::discard;
