//! The result of a section.

use std::fmt;

/// The result of a section that ran twice.
#[derive(Clone, Copy, Debug, PartialEq, Eq)]
pub(crate) enum Outcome {
    /// Twice the same.
    Same,
    /// It stopped because an allocation failed, and its previous results are the same.
    Stopped,
    /// An allocation of a call failed and the call was repeated; all results are the same.
    Again,
    /// The first other answer names the refusal.
    GoesOn,
    /// Another answer came in the place of a refusal.
    Other,
}

impl Outcome {
    /// Whether this may come.
    pub(crate) fn may_come(self) -> bool {
        self != Outcome::Other
    }
}

impl fmt::Display for Outcome {
    fn fmt<W: fmt::Write>(&self, f: &mut fmt::Formatter<W>) -> fmt::Result {
        f.write_str(match self {
            Outcome::Same => "the same",
            Outcome::Stopped => "out of memory",
            Outcome::Again => "asked again",
            Outcome::GoesOn => "goes on",
            Outcome::Other => "another answer",
        })
    }
}
