//! The commands `publish`, `collect`, `serve`, `broker`, `journal`, `password`, `loopback` and
//! `replay --svg`, over the sockets and files of the system and into any output.
//!
//! A call that may allocate says so in its return type; other calls never allocate.
//! On `Err` the receiver is unchanged unless stated otherwise.
#![tactic(auto)]

mod broker;
mod clients;
mod drawing;
mod journal;
mod kept;
mod loopback;
mod password;
mod reason;
mod server;

pub use crate::broker::run_broker_command;
pub use crate::clients::{run_client, run_collect, run_publish};
pub use crate::drawing::run_draw;
pub use crate::journal::run_journal;
pub use crate::loopback::run_loopback;
pub use crate::password::run_password;
pub use crate::server::{run_serve, run_serve_on};
