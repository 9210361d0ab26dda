//! Closing a connection (4.8).

pub(crate) mod by_broker;
pub(crate) mod disconnect;
pub(crate) mod fault;
