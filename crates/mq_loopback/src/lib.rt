//! Loopback files: a broker and its clients in one process, over sockets of this machine.
//!
//! A file has a line for each client. The clients run in threads, with one broker worker for each.
//! Then the program prints the collected messages, whether the journal of the broker replays, and
//! whether the receipts of each worker are in it.
//!
//! A call that may allocate says so in its return type; other calls never allocate.
//! On `Err` the receiver is unchanged unless stated otherwise.
#![tactic(auto)]

mod client;
mod client_run;
mod client_threads;
mod laws;
mod print;
mod program;
mod read;
mod rig;
mod sort;
mod start_barrier;
mod verdict;

pub use crate::client::{Client, Collector, Publisher, Role};
pub use crate::client_threads::{ClientStart, ClientThreads};
pub use crate::laws::file_laws;
pub use crate::print::write_played;
pub use crate::program::{loopback, loopback_file, print_result, run};
pub use crate::read::{ClientsFault, read_clients};
pub use crate::rig::{RunError, RunResult, play};
pub use crate::sort::{all_ordered, ordered};
pub use crate::verdict::{Verdict, judge};
