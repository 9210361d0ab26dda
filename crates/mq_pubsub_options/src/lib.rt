//! The options of `mqtt pub` and `mqtt sub`, which are those of `mosquitto_pub` and
//! `mosquitto_sub` if those have the same option.
//!
//! A call that may allocate says so in its return type; other calls never allocate.
//! On `Err` the receiver is unchanged unless stated otherwise.
#![tactic(auto)]

mod address;
mod common;
mod fault;
mod grammar;
mod publishing;
mod seconds;
mod subscribing;
mod values;

pub use crate::address::{Address, Defaults};
pub use crate::common::{Common, WillOptions};
pub use crate::fault::OptionFault;
pub use crate::grammar::{publish_command, subscribe_command};
pub use crate::publishing::{Payloads, PublishWords, publish_words};
pub use crate::seconds::milliseconds_of;
pub use crate::subscribing::{SubscribeWords, subscribe_words};
