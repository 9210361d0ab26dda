//! The lines that `mqtt sub` prints for messages: payloads, topics with payloads, and formats with
//! fields such as `%t` and `%p`.
//!
//! A call that may allocate says so in its return type; other calls never allocate.
#![tactic(auto)]

mod fault;
mod field;
mod fields;
mod format;
mod instant;
mod json;
mod line;
mod moment;
mod pad;
mod piece;
mod style;

pub use crate::fault::FormatFault;
pub use crate::field::{Field, Layout};
pub use crate::format::Format;
pub use crate::moment::{Moment, TimeField};
pub use crate::piece::Piece;
pub use crate::style::{Envelope, Style};
