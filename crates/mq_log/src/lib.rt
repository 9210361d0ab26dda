//! A journal: a file of entries, each of them durable before `put` returns `Ok`.
//!
//! An entry is any list of bytes shorter than 2^32. The file is a list of blocks, and a closed gate
//! behind the last one. A block has four parts:
//!
//! - the gate, one byte: 1 if open, 0 if closed
//! - the length of the entry, in four bytes, high byte first
//! - the checksum of the entry, in four bytes, high byte first
//! - the entry
//!
//! Order of calls:
//!
//! 1. [`begin`] prepares an empty file, and [`Journal::new`] opens it.
//! 2. [`Journal::put`] appends an entry. Acknowledge the entry to others only after its `Ok`.
//! 3. After a crash or an `Err`, [`read_journal`] returns the entries of the file. Append to a new
//!    file, since a file with a torn end is not repaired.
//!
//! [`Disk`] is the model of a file on a device that can crash. That a real file meets its clauses
//! can't be proved. The crash clauses assume nothing of the checksum: `put` opens the gate of a
//! block only after the block is synced. The checksum detects damage that no crash causes.
//!
//! A call that allocates returns a `Result`; other calls never allocate. On `Err` the receiver is
//! unchanged unless stated otherwise.
#![tactic(auto)]

mod disk;
mod freezing;
mod journal;
mod laws;
mod memory;
mod reader;
mod sum;

pub use crate::disk::{Disk, DiskError};
pub use crate::freezing::FreezingDisk;
pub use crate::journal::{Journal, begin};
pub use crate::laws::journal_laws;
pub use crate::memory::MemoryDisk;
pub use crate::reader::{Contents, Tail, first_block, read_journal};
pub use crate::sum::checksum;
