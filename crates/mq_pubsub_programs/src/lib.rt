//! The commands `mqtt pub` and `mqtt sub`, over the sockets, files and streams of the system.
//!
//! Call [`publish_arguments`] and then [`run_pub`], or [`subscribe_arguments`] and then
//! [`run_sub`]. [`report_fault`] reports why arguments are no command.
//!
//! A call that may allocate says so in its return type; other calls never allocate.
//! On `Err` the receiver is unchanged unless stated otherwise.
#![tactic(auto)]

mod arguments;
mod common;
mod explain;
mod fault;
mod feed;
mod known;
mod link;
mod polled;
mod printing;
mod publishing;
mod runs;
mod session;
mod subscribing;
mod supplies;
mod supply;
mod trace;
mod watch;

pub use crate::arguments::{publish_arguments, report_fault, subscribe_arguments};
pub use crate::publishing::run_pub;
pub use crate::subscribing::run_sub;
