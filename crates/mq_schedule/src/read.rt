//! Schedules as they are read.

ghost use Rattle.std.specs.Prelude.{◌≡◌, ◌∷◌, ◌++◌, [], ℕ, IfOk, OnOk, IsErrOf};
ghost use Rattle.mq_schedule.specs.Prelude.{strip_last, IsBadLine, IsSchedule, lines_of, AreSteps, StopsAt, parts};

use crate::schedule::{Schedule, Step};
use crate::steps::{step, world};
use crate::words::first_part;
use std::alloc::{AllocError, Global};
use thiserror::Error;

/// Why a text is not a schedule.
#[derive(Clone, Copy, Debug, PartialEq, Eq, Error)]
pub enum ScheduleFault {
    /// This line is the first of no kind, counted from 1.
    #[error("line {0}: not an event")]
    Line(usize),
    /// Memory ran out.
    #[error("out of memory")]
    Memory,
}

impl From<AllocError> for ScheduleFault {
    ghost use Rattle.std.specs.Prelude.{◌≡◌};
    ghost use Rattle.mq_schedule.specs.Prelude.{Memory};

    ghost from_gives = { λ _ fault. fault ≡ Memory };

    fn from(_e: AllocError) -> ScheduleFault {
        ScheduleFault::Memory
    }
}

// A text without the line feed at its end.
fn without_feed(text: &str) -> &str
    ensures { result.now ≡ strip_last 10 text.now }
{
    text.strip_suffix('\n').unwrap_or(text)
}

// Puts a step behind others.
fn push(steps: &mut Vec<Step>, step: Step) -> Result<(), AllocError>
    ensures { OnOk result (steps.new.items ≡ steps.old.items ++ step ∷ []) }
{
    steps.push(step)?;
    Ok(())
}

// The steps of lines, the first of which has the number 2.
fn read_steps(alloc: Global, lines: &str) -> Result<Vec<Step>, ScheduleFault>
    ensures steps { IfOk result (λ steps. AreSteps steps.items (parts 10 lines.now)) }
    ensures line { (n : ℕ) → IsErrOf result (ScheduleFault.Line n) → StopsAt (parts 10 lines.now) n }
{
    let mut steps = Vec::new(alloc);
    for line in lines.split('\n') {
        let number = steps.len() + 2;
        let step = step(alloc, line)?.ok_or(ScheduleFault::Line(number))?;
        push(&mut steps, step)?;
    }
    Ok(steps)
}

/// Reads a schedule: a line for the world, followed by a line for each step. A text is at most one
/// schedule (`schedule_laws`). Errors: `Line` with the number of the first invalid line, `Memory`
/// if an allocation fails.
pub fn read_schedule(alloc: Global, text: &str) -> Result<Schedule, ScheduleFault>
    ensures reads { IfOk result (IsSchedule (lines_of text.now)) }
    ensures line { (number : ℕ) → IsErrOf result (ScheduleFault.Line number)
        → IsBadLine (lines_of text.now) number }
{
    let (first, others) = first_part(without_feed(text), '\n');
    let (limits, capacity, window) = world(first).ok_or(ScheduleFault::Line(1))?;
    let steps = match others {
        Some(lines) => read_steps(alloc, lines)?,
        None => Vec::new(alloc),
    };
    Ok(Schedule {
        limits,
        capacity,
        window,
        steps,
    })
}
