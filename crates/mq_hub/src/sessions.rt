//! Sessions: their names, and ending them (3.1.2.4).

pub(crate) mod names;
pub(crate) mod remove;
