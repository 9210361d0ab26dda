//! The rules of an MQTT broker as definitions and laws: who gets a message, and the result of each
//! event (3.1 to 3.14, 4.3).
//!
//! The definitions are in `specs/`. The crate has the types that they share with the code, and one
//! function for each set of laws.
#![tactic(auto)]

mod act;
mod bound_laws;
mod close;
mod config;
mod conn;
mod connection_state;
mod event;
mod laws;
mod refusal;
mod reply;
mod trace;

pub use crate::act::Act;
pub use crate::bound_laws::{bounds_laws, broker_laws, sharp_laws};
pub use crate::close::HubClose;
pub use crate::config::{HashedUser, HubConfig, User, WhenFull};
pub use crate::conn::Conn;
pub use crate::connection_state::{ConnectionState, ConnectionTerms};
pub use crate::event::HubEvent;
pub use crate::laws::{
    accept_laws, begun_laws, broad_laws, client_laws, examples, expiry_laws, full_laws,
    history_laws, name_laws, output_laws, read_laws, routing_laws, silent_laws, snapshot_laws,
    taking_laws, will_laws,
};
pub use crate::refusal::HubRefusal;
pub use crate::reply::HubReply;
pub use crate::trace::{ClientLog, HubTrace};
