//! The parts of a broker's snapshot as bytes (3.1.2.4, 4.1).
//!
//! A snapshot is the signature `MQB` with a version, the clock, the next key, and four lists:
//! subscriptions, retained messages, sessions and connections. Each list begins with the number of
//! its items. Numbers are in big-endian order. Pending output is not stored.
//!
//! | Part | Fields |
//! |---|---|
//! | Signature | `4d 51 42`, version `01` |
//! | Clock, next key, number of items | eight bytes each |
//! | Subscription | key in four bytes, filter after its length in two, QoS in one |
//! | Message | QoS and RETAIN in one byte each, name after two, payload after four |
//! | Session | key in four bytes, time of leaving in eight, client after two, session after eight |
//! | Connection | worker in two, number in four, opened in eight, state, held bytes after eight |
//! | State | `00` awaits CONNECT, `01` connected, with the next row, `02` closed |
//! | Connected | key in four, last packet in eight, clean in one, keep-alive in two, will |
//! | Will | `00`, or `01` and a message |
//!
//! The session of an end is version 1 of the saved form of `mq_flow` without its signature and its
//! capacity.
//!
//! A reader returns a part and the bytes behind it. Reading all parts takes time linear in their
//! bytes, and a malformed number of items reserves no memory.
//!
//! A call that allocates returns a `Result`; other calls never allocate.
#![tactic(auto)]

mod connection;
mod fault;
mod fields;
mod read;
mod write;

pub use crate::connection::{SavedConnection, read_connection};
pub use crate::fault::SnapshotFault;
pub use crate::fields::read_eight;
pub use crate::read::{SavedSession, read_message, read_rows, read_session, read_signature};
pub use crate::write::{
    put_connection, put_eight, put_message, put_rows, put_session, put_signature,
};
