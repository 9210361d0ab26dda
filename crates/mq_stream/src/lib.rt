//! Streams of bytes in both directions, and clocks: the surroundings of a connection (4.2).
//!
//! No call of this crate allocates.
#![tactic(auto)]

mod clock;
mod stream;

pub use crate::clock::{Clock, Elapsed};
pub use crate::stream::{
    OnInterrupt, ReadOutcome, Retry, Socket, SocketStream, Stream, StreamError, write_bytes,
};
