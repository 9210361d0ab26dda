//! The command line of `mqtt` as functions: parses the arguments, and runs jobs over any input and
//! writer.
//!
//! A call that may allocate says so in its return type; other calls never allocate.
//! On `Err` the receiver is unchanged unless stated otherwise.
#![tactic(auto)]

mod advice;
mod broker;
mod count;
mod failure;
mod front;
mod grammar;
mod input;
mod jobs;
mod output;
mod random;
mod replaying;
mod show;
mod stream;
mod streaming;
mod words;

pub use crate::broker::{Broker, DataFolder, Durability, OnFull};
pub use crate::count::{CountEnd, CountFault, PacketCount, count_packets};
pub use crate::failure::{Failure, exit_status};
pub use crate::grammar::{command_line, command_list};
pub use crate::input::{Fallible, JobInput};
pub use crate::jobs::{Collect, Command, Draw, Job, Publish, Serve, Source};
pub use crate::output::{perform, perform_file, perform_opened};
pub use crate::show::{ShowFault, shown};
pub use crate::stream::{Shown, StreamEnd};
pub use crate::words::{WordsFault, job};
