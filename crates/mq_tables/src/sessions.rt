//! The table of sessions (3.1.2.4).

pub(crate) mod call;
pub(crate) mod connect;
pub(crate) mod ends;
pub(crate) mod session;
pub(crate) mod snapshot;
pub(crate) mod table;
