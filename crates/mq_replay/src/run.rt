//! Schedules that are run.

ghost use Rattle.std.specs.Prelude.{◌≡◌, ◌<◌, IfErr, IfOk, IfSome, OnOk};
ghost use Rattle.mq_replay.specs.Prelude.{non_zero_u16_get, Appends, Prints, Answer, Wired, IsNew, number_of, answer_lines, IsCutReplay, IsReplay, StepDoes, OnMemory};

use crate::answers::write_answer;
use crate::totals::write_totals;
use mq_decode::Limits;
use mq_schedule::{Schedule, Step};
use mq_world::{Answer, World, over_bytes};
use std::alloc::{AllocError, Global};
use std::io;
use std::io::Write;
use std::num::NonZeroU16;
use thiserror::Error;

/// Why a replay stops before its end.
#[derive(Debug, Drop, Error)]
pub enum ReplayFault {
    /// A write failed.
    #[error("the output failed: {0}")]
    Io(io::Error),
    /// Memory ran out.
    #[error("out of memory")]
    Memory,
}

impl From<io::Error> for ReplayFault {
    ghost use Rattle.std.specs.Prelude.{◌≡◌};
    ghost use Rattle.mq_replay.specs.Prelude.{Io};

    ghost from_gives = { λ error fault. fault ≡ Io error };

    fn from(error: io::Error) -> ReplayFault {
        ReplayFault::Io(error)
    }
}

impl From<AllocError> for ReplayFault {
    ghost use Rattle.std.specs.Prelude.{◌≡◌};
    ghost use Rattle.mq_replay.specs.Prelude.{Memory};

    ghost from_gives = { λ _ fault. fault ≡ Memory };

    fn from(_e: AllocError) -> ReplayFault {
        ReplayFault::Memory
    }
}

// A new world with these limits exists, even if memory does not suffice to create it.
fn begins(limits: Limits, capacity: u16, window: Option<u16>)
    ensures { (start : Wired) × IsNew limits capacity window start }
{
    over_bytes();
    let _least = limits.max_packet();
}

// A new world of these bounds.
fn new_world(
    alloc: Global,
    limits: Limits,
    capacity: u16,
    window: Option<u16>,
) -> Result<World, AllocError>
    requires capacity { 0 < capacity }
    requires window { IfSome window (λ n. 0 < n) }
    ensures new { IfOk result (λ world. IsNew limits capacity window world.wired) }
    ensures limit { IfOk result (λ world. world.limit ≡ limits) }
    ensures capacity { IfOk result (λ world. world.capacity ≡ capacity) }
{
    match window {
        Some(window) => World::with_window(alloc, limits, capacity, window),
        None => World::new(alloc, limits, capacity),
    }
}

// The number of places of a receiving window, if there is one.
fn places(window: Option<NonZeroU16>) -> Option<u16>
    ensures places { result ≡ number_of window }
    ensures some { IfSome result (λ n. 0 < n) }
{
    match window {
        Some(window) => Some(window.get()),
        None => None,
    }
}

// Processes a step and returns its result.
fn make(world: &mut World, step: &Step) -> Result<Answer, AllocError>
    ensures does { IfOk result (λ answer. StepDoes world.old.limit world.old.capacity step.now answer world.old.wired world.new.wired) }
    ensures limit { world.new.limit ≡ world.old.limit }
    ensures capacity { world.new.capacity ≡ world.old.capacity }
{
    match step {
        Step::Event(event) => world.step(event),
        Step::Settle => world.settle(),
    }
}

// Processes a step and prints its result.
fn advance<W: Write>(world: &mut World, step: &Step, output: &mut W) -> Result<(), ReplayFault>
    ensures does { OnOk result ((answer : Answer)
        × StepDoes world.old.limit world.old.capacity step.now answer world.old.wired world.new.wired
        × Appends (W.contents output.old) (W.contents output.new) (answer_lines answer)) }
    ensures memory { IfErr result (λ fault. OnMemory fault (output.new ≡ output.old)) }
    ensures limit { world.new.limit ≡ world.old.limit }
    ensures capacity { world.new.capacity ≡ world.old.capacity }
{
    let answer = make(world, step)?;
    write_answer(output, &answer)?;
    Ok(())
}

// Runs a schedule in a world that is new.
fn run<W: Write>(world: &mut World, schedule: &Schedule, output: &mut W) -> Result<(), ReplayFault>
    requires new { IsNew schedule.now.limits (non_zero_u16_get schedule.now.capacity) (number_of schedule.now.window) world.old.wired }
    requires limit { world.old.limit ≡ schedule.now.limits }
    requires capacity { world.old.capacity ≡ non_zero_u16_get schedule.now.capacity }
    ensures printed { OnOk result
        (Prints (W.contents output.old) (W.contents output.new) (IsReplay schedule.now)) }
    ensures memory { IfErr result (λ fault. OnMemory fault
        (Prints (W.contents output.old) (W.contents output.new) (IsCutReplay schedule.now))) }
{
    for step in &schedule.steps {
        advance(world, step, output)?;
    }
    write_totals(output, world)?;
    Ok(())
}

/// Runs a schedule in a new world and prints the result of each step at once, then four lines: for
/// each direction, and for QoS 1 and 2 (4.3), the number of messages that were accepted, delivered
/// and are stored. Errors: `Io` if a write fails; `Memory` if an allocation for the world fails,
/// after the results of the previous steps were printed. An end whose allocation fails closes,
/// which is a result like any other.
pub fn replay<W: Write>(
    alloc: Global,
    schedule: &Schedule,
    output: &mut W,
) -> Result<(), ReplayFault>
    ensures printed { OnOk result
        (Prints (W.contents output.old) (W.contents output.new) (IsReplay schedule.now)) }
    ensures memory { IfErr result (λ fault. OnMemory fault
        (Prints (W.contents output.old) (W.contents output.new) (IsCutReplay schedule.now))) }
{
    let capacity = schedule.capacity.get();
    let window = places(schedule.window);
    begins(schedule.limits, capacity, window);
    let mut world = new_world(alloc, schedule.limits, capacity, window)?;
    run(&mut world, schedule, output)
}
