//! The fourteen control packets of MQTT 3.1.1 as values (chapter 3), and their encoding.
//!
//! Only well-formed values can be constructed. A call that may allocate says so in its return type;
//! other calls never allocate. On `Err` the receiver is unchanged unless stated otherwise.
#![tactic(auto)]

mod binary;
mod connack;
mod connect;
mod encode;
mod encoded;
mod fields;
mod id;
mod laws;
mod list;
mod message;
mod packet;
mod publish;
mod text;
mod write;

pub use crate::binary::{Binary, Payload};
pub use crate::connack::{ConnAck, RefusalCode};
pub use crate::connect::{BoxedConnect, Connect, Login, Will};
pub use crate::encode::{EncodeError, encode_into, encode_publish_into, encoded_len};
pub use crate::id::PacketId;
pub use crate::laws::encoding_laws;
pub use crate::list::NonEmpty;
pub use crate::message::Message;
pub use crate::packet::{Packet, Request, SubAckCode};
pub use crate::publish::{Delivery, MessageRef, Publish};
pub use crate::text::{Escaped, Hex};
pub use crate::write::{WriteError, write_packet};
