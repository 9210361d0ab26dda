//! The state of message delivery in both directions (4.3, 4.4), its saved form, and the laws of
//! both.
//!
//! The definitions are in `specs/`: the sender's book and its moves, the receiver's book and its
//! moves.
//!
//! A call that may allocate says so in its return type; other calls never allocate.
//! On `Err` the receiver is unchanged unless stated otherwise.
#![tactic(auto)]

mod acknowledge;
mod claim;
mod entry;
mod iter;
mod laws;
mod load;
mod queue;
mod reaction;
mod receiver;
mod resend;
mod save;
mod saved;
mod sender;
mod session;
mod stored;
mod table;

pub use crate::claim::{Claim, Claimed};
pub use crate::entry::SenderEntry;
pub use crate::iter::{Entries, Releases};
pub use crate::laws::{
    identifier_laws, next_laws, receiver_laws, saved_laws, saved_two_laws, sending_laws, stray_laws,
};
pub use crate::load::LoadError;
pub use crate::reaction::{Reaction, ReceiveRefusal, Refusal};
pub use crate::receiver::Receiver;
pub use crate::saved::Saved;
pub use crate::sender::Sender;
pub use crate::session::Session;
pub use crate::stored::message_bytes;
