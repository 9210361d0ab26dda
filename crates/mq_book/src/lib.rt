//! Several workers over one broker (4.2).
//!
//! Each worker makes its steps under one lock, and a journal records every step of the broker.
//!
//! A call that may allocate says so in its return type; other calls never allocate.
//! On `Err` the receiver is unchanged unless stated otherwise. The definitions of the contracts are
//! in `specs/`: `Pages` (a book and its journal), `Replays` (the contents of a journal),
//! `Receipts`, `Connection` (the events of a connection) and `Workers` (the steps of a worker).
#![tactic(auto)]

mod audited_worker;
mod book;
mod connection;
mod entry;
mod entry_log;
mod journal;
mod observer;
mod receipt_audit;
mod refusal;
mod reply;
mod reply_equality;
mod share;
mod shared;
mod work_end;
mod worker;

pub use crate::audited_worker::{AuditedWorker, work};
pub use crate::book::Book;
pub use crate::connection::{ConnectionSource, Stepper, serve_connection};
pub use crate::entry::{Entry, Receipt};
pub use crate::journal::Journal;
pub use crate::observer::{NoObserver, StepObserver};
pub use crate::receipt_audit::audit;
pub use crate::refusal::BookRefusal;
pub use crate::reply::{SharedReply, step_twice};
pub use crate::reply_equality::are_same_replies;
pub use crate::share::Share;
pub use crate::shared::{SharedHub, gather};
pub use crate::work_end::{OnFull, WorkEnd};
pub use crate::worker::{Worker, serve_connections};
