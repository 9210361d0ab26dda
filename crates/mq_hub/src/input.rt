//! From the bytes of a connection to the handlers of its packets (4.2).

pub(crate) mod decoder;
pub(crate) mod dispatch;
pub(crate) mod next_packet;
pub(crate) mod on_bytes;
pub(crate) mod on_packet;
pub(crate) mod requests;
