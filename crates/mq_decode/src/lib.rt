//! Control packets out of an ordered stream of bytes, cut anywhere (chapters 2 and 3).
//!
//! A call that may allocate says so in its return type; other calls never allocate.
//! On `Err` the receiver is unchanged unless stated otherwise.
#![tactic(auto)]

mod ahead;
mod body;
mod connect;
mod decoder;
mod fault;
mod fields;
mod flags;
mod front;
mod header;
mod held;
mod kind;
mod laws;
mod limits;
mod list_views;
mod lists;
mod packet_view;
mod publish;
mod read;
mod size;
mod take;

pub use crate::connect::{ConnectFields, ConnectView, LoginView, WillView};
pub use crate::decoder::{Decoder, decode_pieces};
pub use crate::fault::{DecodeError, DecodeFault, FaultKind};
pub use crate::fields::{BinaryView, FilterView};
pub use crate::front::view;
pub use crate::laws::{
    each_reads, faulty_fields, one_reading, pending_is_short, reads_again, reads_on,
};
pub use crate::limits::Limits;
pub use crate::list_views::{Codes, CodesView, Filters, FiltersView, Requests, RequestsView};
pub use crate::lists::RequestView;
pub use crate::packet_view::{PacketView, View};
pub use crate::publish::PublishView;
pub use crate::read::{ReadError, read_packet, read_sized};
pub use crate::size::packet_len;
