//! The two client programs, `publish` and `collect`.
//!
//! They run over any stream, clock and session saver. [`publish_texts`], [`publish_session`] and
//! [`collect_messages`] are the whole programs, over connections that are made for them and, for
//! `publish --session`, over a session in a file.
//!
//! A [`Peer`] is a client end at a stream. Its contracts say that the calls of the end explain the
//! bytes that were received and sent.
//!
//! A call that may allocate says so in its return type; other calls never allocate.
//! On `Err` the receiver is unchanged unless stated otherwise.
#![tactic(auto)]

mod client;
mod collector;
mod dial;
mod disk;
mod error;
mod lines;
mod peer;
mod programs;
mod publisher;
mod saver;
mod session_file;
mod session_lock;
mod stop;

pub use crate::client::{LoadFailure, Loaded, load, new_client, saved_client};
pub use crate::collector::{CollectGoal, begin, collect};
pub use crate::dial::{Connection, Dial, Loopback};
pub use crate::disk::{Disk, SystemDisk};
pub use crate::error::ClientError;
pub use crate::lines::write_halt;
pub use crate::peer::Peer;
pub use crate::programs::{SessionOptions, collect_messages, publish_session, publish_texts};
pub use crate::publisher::{Publications, publish, publish_all, resume};
pub use crate::saver::{NoSaver, SaveError, SavingTo, SessionSaver, Store};
pub use crate::session_file::SessionFile;
pub use crate::session_lock::{SessionLock, linked_name};
pub use crate::stop::{Halt, Stop};
