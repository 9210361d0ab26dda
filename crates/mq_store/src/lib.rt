//! The folder of a broker: a snapshot, and the journal of the events after it.
//!
//! [`open_store`] locks the folder, restores the broker, makes a new snapshot, and begins the next
//! journal. The result is a `Durable` of `mq_durable`: an event must be committed before its output
//! is sent. If [`DataFolder::is_full`] after a commit, call [`DataFolder::begin_next`].
//!
//! | Part of the file `snapshot` | Bytes |
//! |---|---|
//! | Signature | `4d 51 44`, version `01` |
//! | Number of the journal | eight |
//! | Configuration | its number of bytes in eight, its bytes |
//! | Broker, as `Hub::save` returns it | its number of bytes in eight, its bytes |
//! | SHA-256 of all these bytes | 32 |
//!
//! Unless stated otherwise, a call that allocates returns a `Result`, and leaves the receiver
//! unchanged on `Err`.
#![tactic(auto)]

mod configuration;
mod data_folder;
mod fault;
mod listing;
mod restoring;
mod saved_config;
mod snapshot_file;
mod store;

pub use crate::configuration::config_bytes;
pub use crate::data_folder::{DataFolder, StoreOptions};
pub use crate::fault::StoreError;
pub use crate::listing::list_journal;
pub use crate::store::{Store, open_store};
