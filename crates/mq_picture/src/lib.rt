//! A replay as a sequence diagram, in SVG.
//!
//! `record_of` runs a schedule and lists the events of its packets and sides. `rows_of` turns this
//! record into the rows of a diagram, and `write_rows` writes them as an SVG image. `write_picture`
//! does all three.
//!
//! A call that may allocate says so in its return type; other calls never allocate.
//! On `Err` the receiver is unchanged unless stated otherwise.
#![tactic(auto)]

mod entry;
mod picture;
mod record;
mod rows;
mod summary;
mod svg;
mod texts;

pub use crate::entry::{Note, RecordEntry};
pub use crate::picture::{PictureFault, write_picture};
pub use crate::record::record_of;
pub use crate::rows::{Arrow, Fate, Row, rows_of};
pub use crate::summary::{Kind, Summary};
pub use crate::svg::write_rows;
pub use crate::texts::escapes;
