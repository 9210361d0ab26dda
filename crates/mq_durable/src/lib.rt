//! A broker that outlives its process: its events are in a journal before their output is sent.
//!
//! Order of calls:
//!
//! 1. After a start, [`Recovery::of`] with the broker of the snapshot, or with a new one. Then
//!    [`Recovery::replay`] with the bytes of the journal's file, and [`Recovery::end_all`].
//! 2. [`Durable::new`] with that broker and an empty file. A snapshot of the broker must be durable
//!    before the first commit.
//! 3. In each round [`Durable::step`] or [`Durable::step_some`] for the events that arrived, then
//!    [`Durable::commit`], then [`Durable::collect`] for each connection that may have output.
//! 4. If the file is long, [`Durable::continue_in`] after a commit, and then a new snapshot.
//! 5. If `commit` returns an error, the process must end without sending any output. It continues
//!    at 1.
//!
//! `collect` requires that no event is pending. So at any time the snapshot and the file have each
//! event that arrived before the last output was collected.
//!
//! The events of a file are those of its entries. `Collect` is not recorded: it only takes pending
//! output, which a crash discards.
//!
//! A call that allocates returns a `Result`; other calls never allocate. On `Err` the receiver is
//! unchanged unless stated otherwise.
#![tactic(auto)]

mod condition;
mod durable;
mod fault;
mod laws;
mod noted;
mod outcome;
mod progress;
mod recovery;
mod report;

pub use crate::condition::Condition;
pub use crate::durable::Durable;
pub use crate::fault::{CommitError, RecoverError, StepRefusal};
pub use crate::laws::{durable_laws, replay_laws};
pub use crate::recovery::Recovery;
pub use crate::report::reports_memory;
