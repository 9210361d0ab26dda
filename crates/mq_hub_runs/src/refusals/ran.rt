//! The result of running a section once.

use crate::refusals::outcome::Outcome;
use std::alloc::{AllocError, Global};

/// The result of a section: one line for each answer.
#[derive(Drop)]
pub(crate) struct Ran {
    /// The answers, a line each.
    pub(crate) lines: String,
    /// Whether it reached its end.
    pub(crate) whole: bool,
    /// How often a call was refused, and made again.
    pub(crate) again: u64,
}

impl Ran {
    /// Nothing came yet.
    pub(crate) fn new(alloc: Global) -> Result<Ran, AllocError> {
        Ok(Ran {
            lines: String::with_capacity(alloc, 65_536)?,
            whole: true,
            again: 0,
        })
    }

    /// A call is made again.
    pub(crate) fn ask_again(&mut self) {
        self.again = self.again.saturating_add(1);
    }
}

fn names_refusal(line: &str) -> bool {
    [" C6", "will dropped", "Memory"]
        .iter()
        .any(|words| line.contains(words))
}

/// The first line that differs from the line in its place, or that has none there.
pub(crate) fn first_other<'a>(lines: &'a str, others: &str) -> Option<&'a str> {
    let mut others = others.lines();
    for line in lines.lines() {
        if others.next() != Some(line) {
            return Some(line);
        }
    }
    None
}

fn outcome_of(ran: &Ran, plain: &Ran) -> Outcome {
    let (lines, others) = (ran.lines.as_str(), plain.lines.as_str());
    if !plain.whole || plain.again > 0 {
        return Outcome::Other;
    }
    if !ran.whole {
        return if others.starts_with(lines) {
            Outcome::Stopped
        } else {
            Outcome::Other
        };
    }
    match first_other(lines, others) {
        Some(line) if names_refusal(line) => Outcome::GoesOn,
        None if lines == others && ran.again > 0 => Outcome::Again,
        None if lines == others => Outcome::Same,
        _ => Outcome::Other,
    }
}

pub(crate) fn outcome(first: &Ran, second: &Ran) -> Outcome {
    match outcome_of(first, second) {
        Outcome::Other => outcome_of(second, first),
        outcome => outcome,
    }
}
