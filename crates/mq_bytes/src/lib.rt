//! Packets, topics and saved sessions as functions over bytes and numbers, for callers in other
//! languages: the packet at the front of a buffer with the places of its fields, the encoding of
//! packets into a buffer, and tests of topics and saved sessions.
//!
//! Only the calls that are passed an allocator allocate.
#![tactic(auto)]

mod buffer;
mod check;
mod connect_places;
mod encode;
mod fault;
mod frequent;
mod front_fields;
mod items;
mod places;
mod write_connect;
mod write_list;
mod write_publish;

pub use crate::buffer::put;
pub use crate::check::{check_filter, check_name, check_session, is_match};
pub use crate::encode::{encode_acknowledgement, encode_bare};
pub use crate::fault::{CheckFault, EncodeFault};
pub use crate::front_fields::locate;
pub use crate::places::{Field, Front, PacketFields};
pub use crate::write_connect::encode_connect;
pub use crate::write_list::encode_list;
pub use crate::write_publish::{encode_connack, encode_publish};
