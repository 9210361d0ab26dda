//! Notes about the reads from one connection.

/// Notes about the reads from the connection at a place.
#[derive(Clone, Copy)]
pub(crate) struct Reading {
    /// The time at which it was opened, in milliseconds.
    pub(crate) opened_at: u64,
    /// The age of the newest connection when this one last had nothing to read.
    pub(crate) empty_at: u64,
    /// The connection is in the list of those that may have bytes to read.
    pub(crate) is_ready: bool,
    /// A read of this round was large.
    pub(crate) had_large_read: bool,
    /// The peer will send nothing more.
    pub(crate) has_hung_up: bool,
}

impl Reading {
    /// Notes about a connection of this age that is opened.
    pub(crate) fn new(age: u64, now: u64) -> Reading {
        Reading {
            opened_at: now,
            empty_at: age,
            is_ready: false,
            had_large_read: false,
            has_hung_up: false,
        }
    }
}
