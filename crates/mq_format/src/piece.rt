//! The pieces of a format.

use crate::field::{Field, Layout};
use crate::moment::TimeField;

/// A piece of a format.
#[derive(Clone, Copy, Debug, PartialEq, Eq)]
pub enum Piece {
    /// A byte as it is.
    Byte(u8),
    /// A field of the message.
    Field(Field, Layout),
    /// A field of the time.
    Time(TimeField),
}
