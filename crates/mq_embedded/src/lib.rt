//! A client for callers in other languages: its calls take and return bytes and numbers. It is a
//! `ClientEnd` of `mq_end` with the queue of its events.
//!
//! A call that may allocate says so in its return type; other calls never allocate.
//! On `Err` the receiver is unchanged unless stated otherwise.
#![tactic(auto)]

mod arguments;
mod client;
mod event;
mod fault;
mod queue;

pub use crate::arguments::{bounds, login, text, will};
pub use crate::client::Client;
pub use crate::event::Event;
pub use crate::fault::CallFault;
