//! Whether a durable broker may continue.

/// Whether a durable broker may continue.
#[derive(Clone, Copy, Debug, PartialEq, Eq)]
pub enum Condition {
    /// No step reported that an allocation failed, and no commit failed.
    Sound,
    /// A step reported that an allocation failed. Nothing is committed any more, because a replay
    /// of its events could lead to another broker.
    OutOfMemory,
    /// A commit failed. Every later call is refused.
    Broken,
}
