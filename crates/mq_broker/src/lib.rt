//! A broker over sockets of the system: one event loop serves all connections, until it is stopped
//! (4.2).
//!
//! Unless stated otherwise, a call that allocates returns a `Result`. The crate is the edge of
//! `mq_loop`: it accepts connections, waits until some are ready, and writes the log.
#![tactic(auto)]

mod acceptor;
mod counted;
mod end;
mod kept;
mod log;
mod missed;
mod open_error;
mod options;
mod peers;
mod recovered;
mod rows;
mod server;
mod site;
mod snapshot;
mod status_port;

pub use crate::end::BrokerEnd;
pub use crate::log::{Log, LogLevel};
pub use crate::open_error::OpenError;
pub use crate::options::BrokerOptions;
pub use crate::recovered::RecoveredBroker;
pub use crate::server::run_broker;
