//! The events of a broker as bytes, for a journal from which the broker can be restored.
//!
//! The encoding of an event is a tag, and then its fields. Numbers are in big-endian order.
//!
//! | Event | Tag | Fields |
//! |---|---|---|
//! | `Opened(conn)` | 1 | `conn.worker` in two bytes, `conn.nth` in four |
//! | `Bytes(conn, piece)` | 2 | the same, the length of the piece in four bytes, the piece |
//! | `Ended(conn)` | 3 | as for `Opened` |
//! | `Tick(now)` | 4 | `now` in eight bytes |
//!
//! `Collect` is not recorded. It only takes pending output, and a crash ends the connection on
//! which it is pending. [`is_recorded`] tests for it.
//!
//! Record the events of an entry with [`encode_event`], one behind the other. [`decode_events`]
//! reads the entry back. [`encode_piece`] and [`shorten_piece`] record a piece of which a broker
//! takes only the front.
//!
//! A call that allocates returns a `Result`; other calls never allocate. On `Err` the receiver is
//! unchanged unless stated otherwise.
#![tactic(auto)]

mod decode;
mod encode;
mod fault;
mod laws;
mod numbers;

pub use crate::decode::{decode_event, decode_events};
pub use crate::encode::{encode_event, encode_piece, is_recorded, shorten_piece};
pub use crate::fault::{EncodeFault, RecordFault};
pub use crate::laws::record_laws;
