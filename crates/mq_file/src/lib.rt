//! A file of the system as a `Disk` of `mq_log`, and the folder that has it.
//!
//! Contracts see a file or a folder by the record of its calls, from which the content and the
//! outcomes of a crash follow. Whether a real one does what the calls report is not proved.
//!
//! Unless stated otherwise, a call that allocates returns a `Result`.
#![tactic(auto)]

mod error;
mod folder;
mod folder_record;
mod journal_file;
mod named_files;
mod record;

pub use crate::error::FolderError;
pub use crate::folder::{Folder, has_file, read_file};
pub use crate::journal_file::{JournalFile, Keep};
pub use crate::named_files::{NamedFiles, replace, switch};
