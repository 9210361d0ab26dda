//! The status of a running broker: counters as Prometheus text, a status page, log lines, and the
//! file of passwords. Pure functions, without sockets, files or clocks.
//!
//! - [`Metrics`] counts the acts of a broker's replies, and the bytes that the caller reads and
//!   writes. [`Gauges`] holds the numbers that the caller measures.
//! - [`write_prometheus`] and [`write_page`] print both.
//! - [`request`] decides how an HTTP server for these two answers the head of a request, and
//!   [`write_response`] writes the answer.
//! - [`write_log`] writes one line of a log.
//! - [`read_users`] reads a file of passwords, and [`password_line`] makes a line of one.
//!
//! A call that allocates returns a `Result`; other calls never allocate. A call that writes appends
//! to its output, and returns the output's error.
#![tactic(auto)]

mod counter;
mod html;
mod http;
mod log;
mod metrics;
mod page;
mod passwords;
mod prometheus;
mod response;

pub use crate::counter::{COUNTERS, Counter, MissReason};
pub use crate::html::{HtmlEscaped, html_laws};
pub use crate::http::{Answer, MAX_HEAD, Reply, Resource, Status, request};
pub use crate::log::{LogLine, log_laws, write_log};
pub use crate::metrics::{Gauges, Metrics};
pub use crate::page::{MAX_ROWS, RowState, SessionRow, write_page};
pub use crate::passwords::{
    PasswordEntry, PasswordFault, PasswordLineError, PasswordsError, Stored, UserTables,
    password_laws, password_line, read_passwords, read_users,
};
pub use crate::prometheus::write_prometheus;
pub use crate::response::write_response;
