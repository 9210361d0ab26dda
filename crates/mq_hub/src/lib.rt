//! An MQTT 3.1.1 broker without I/O: events go in, acts and output come out (3.1 to 3.14, 4.3).
//!
//! Order of calls: [`HubOver::step`] with `Opened` for each new connection, `Bytes` for its input,
//! `Collect` to take its pending output, `Ended` when it is over, and `Tick` with the current time
//! in milliseconds at least at each [`HubOver::next_deadline`].
//!
//! Unless stated otherwise, a call that allocates returns a `Result`, and leaves the receiver
//! unchanged on `Err`.
#![tactic(auto)]

mod accounts;
mod acts;
mod begin;
mod close;
mod connect;
mod connections;
mod hub;
mod input;
mod keep_alive;
mod numbers;
mod publish;
mod run;
mod sessions;
mod snapshot;
mod step;
mod subscribe;
mod subscriptions;
mod unsubscribe;
mod will;

pub use crate::hub::{Hub, HubOver};
pub use crate::numbers::{HubCounts, SessionCounts};
pub use crate::run::{hub_run, hub_run_over};
pub use mq_route::{
    Act, ClientLog, Conn, HashedUser, HubClose, HubConfig, HubEvent, HubRefusal, HubReply,
    HubTrace, User, WhenFull,
};
pub use mq_snapshot::SnapshotFault;
