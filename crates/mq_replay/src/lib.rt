//! Replays: the result of a schedule between two ends, printed line by line.
//!
//! A call that may allocate says so in its return type; other calls never allocate.
//! On `Err` the receiver is unchanged unless stated otherwise.
#![tactic(auto)]

mod answers;
mod run;
mod totals;
mod words;

pub use crate::run::{ReplayFault, replay};
