//! The two ends of an MQTT connection as state machines without I/O: [`ClientEnd`] and
//! [`ServerEnd`]. A call that may allocate says so in its return type; other calls never allocate.
//! On `Err` the receiver is unchanged unless stated otherwise.
//!
//! The definitions are in `specs/`; this crate has the types that they share with the code.
#![tactic(auto)]

mod block;
mod boxed_list;
mod buffer;
mod client;
mod config;
mod deadline;
mod endpoint;
mod first_packet;
mod flows;
mod happening;
mod laws;
mod lazy_decoder;
mod output;
mod packet_outcome;
mod packets;
mod prepared;
mod progress;
mod progress_builder;
mod publish;
mod publish_outcome;
mod queue;
mod ready;
mod reason;
mod receive;
mod refusal;
mod requests;
mod resend;
mod reserve_connect;
mod resume;
mod role;
mod server;
mod size;
mod small_list;
mod state;
mod views;

pub use crate::boxed_list::BoxedList;
pub use crate::client::ClientEnd;
pub use crate::config::{ClientConfig, ServerConfig};
pub use crate::deadline::is_late;
pub use crate::happening::Happening;
pub use crate::laws::{
    closing_laws, keep_alive_laws, ready_laws, size_laws, sound_laws, window_laws,
};
pub use crate::packet_outcome::PacketOutcome;
pub use crate::prepared::PreparedMessage;
pub use crate::progress::Progress;
pub use crate::publish_outcome::PublishOutcome;
pub use crate::queue::ByteQueue;
pub use crate::reason::CloseReason;
pub use crate::refusal::PublishRefusal;
pub use crate::server::ServerEnd;
pub use crate::size::{packet_len, publish_len};
pub use crate::small_list::{SmallList, SmallListIntoIter};
pub use crate::state::State;
