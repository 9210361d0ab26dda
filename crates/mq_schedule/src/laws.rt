//! The laws of schedules as texts.

ghost use Rattle.mq_schedule.specs.Prelude.{ScheduleLaws};

/// A text is at most one schedule, and none if a line is invalid; the text form of a schedule
/// within its bounds is read back.
pub fn schedule_laws()
    ensures { ScheduleLaws }
{}
