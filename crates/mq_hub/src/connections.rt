//! Connections: the events that open and end them, and their output (4.2).

pub(crate) mod names;
pub(crate) mod on_end;
pub(crate) mod on_open;
pub(crate) mod output;
