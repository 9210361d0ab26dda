//! The decisions of `mqtt pub` and `mqtt sub`: which messages are printed, when a run ends, and
//! when it continues after a loss.
//!
//! A call that may allocate says so in its return type; other calls never allocate.
//! On `Err` the receiver is unchanged unless stated otherwise.
#![tactic(auto)]

mod backoff;
mod choice;
mod error;
mod inbox;
mod options;
mod printer;
mod retry;
mod setup;
mod source;

pub use crate::backoff::Backoff;
pub use crate::choice::{Choice, Verdict};
pub use crate::error::RunError;
pub use crate::inbox::Inbox;
pub use crate::options::SubscribeOptions;
pub use crate::printer::{Notice, Printer};
pub use crate::retry::Retry;
pub use crate::setup::Setup;
pub use crate::source::{Next, Source};
