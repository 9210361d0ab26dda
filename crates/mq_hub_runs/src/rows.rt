//! Rows of events at brokers, with the acts that must come of them.
//!
//! A list begins with a line `new broker` and the limits of the broker: `connections=1`,
//! `sessions=1`, `capacity=1` (identifiers of a session), `window=1`, `stored=5`, `waiting=20`
//! (bytes), `matches=2`, `connect-within=1000`, `session-expiry=1000` (milliseconds); and `drop`
//! (copies for full sessions), `lenient`, `user` and `hashed-user` (the user `u` with the password
//! `p`).
//!
//! Each further line is a row: an event or a question, ` = ` and its result, if it has one. The
//! events are `open 1`, `send 1 c000`, `end 1`, `tick 1000` and `take 1`, which collects the output
//! of a connection. Their result is the acts, the output, and `.` if the connection is not open.
//!
//! The questions:
//!
//! - `known 1`: whether this connection exists.
//! - `sessions`: the clients that have one.
//! - `counts`: the sessions, retained messages and stored messages; then of each session its
//!   client, its stored messages, and whether it is full.
//! - `run`: the replies of `hub_run` for the events so far, the numbers of messages taken from and
//!   placed for each client, and the clients; or the refusal.
//! - `saved`: the number of events after each of which a broker is saved and loaded. The loaded one
//!   must have the same replies and snapshots later. Pending output is taken before it is saved.
//! - `damaged`: the outcomes if a byte of the snapshot is changed, or the snapshot ends there:
//!   `refused`, or `same` if the loaded broker has exactly this snapshot.
//! - `crowd 1000`: 1,000 clients connect and subscribe to `a`.
//! - `portion 0 1000 3004.. = 6 1001`: of these bytes on connection 0, with an act limit of 1000, a
//!   portion uses 6 and has 1,001 acts.
//!
//! Every event happens to brokers over both stores, and to brokers that handle bytes in portions of
//! several sizes. A result that differs is added. A line that begins with `#` is a comment; the
//! last one is printed with a row that differs.

mod answer;
mod brokers;
pub(crate) mod config;
pub(crate) mod events;
mod portions;
mod questions;
mod saving;
pub(crate) mod told;
mod walk;
pub(crate) mod wrong;

pub(crate) use walk::walk_text;
