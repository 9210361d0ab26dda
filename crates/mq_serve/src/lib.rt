//! A broker over sockets: workers in threads share it, and each serves one connection after another
//! (4.2).
//!
//! A call that may allocate says so in its return type; other calls never allocate.
//! On `Err` the receiver is unchanged unless stated otherwise.
#![tactic(auto)]

mod acceptor;
mod audited_connections;
mod broker;
mod caller;
mod lines;
mod output;
mod pending_output;
mod polled_stream;
mod program;
mod read_order;
mod serve_end;
mod server;
mod wakers;
mod workers;

pub use crate::acceptor::{Accepted, Acceptor, AfterFailure, WorkerAcceptor};
pub use crate::audited_connections::serve_connections_audited;
pub use crate::broker::broker_config;
pub use crate::caller::{Caller, WakerCaller};
pub use crate::lines::write_end;
pub use crate::output::{Duplex, Patience, WriteNext, write_front};
pub use crate::pending_output::PendingOutput;
pub use crate::polled_stream::{PolledStream, ReadTurn, WorkerPoll};
pub use crate::program::{ServeOptions, serve, serve_on};
pub use crate::read_order::{ReadOrder, ReadSeat};
pub use crate::serve_end::ServeEnd;
pub use crate::server::{FinishedServer, Retention, Server, WorkerResult, WorkerStart};
pub use crate::wakers::{ReadTurns, WakeOthers, Wakers};
pub use crate::workers::{Workers, run_all, run_both};
