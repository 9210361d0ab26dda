//! Schedules of events between two ends as texts. Reading names the first invalid line. A call that
//! may allocate says so in its return type; other calls never allocate.
#![tactic(auto)]

mod fields;
mod laws;
mod printed;
mod read;
mod schedule;
mod steps;
mod words;
mod writing;

pub use crate::fields::{number, payload, qos, topic};
pub use crate::laws::schedule_laws;
pub use crate::printed::unescaped;
pub use crate::read::{ScheduleFault, read_schedule};
pub use crate::schedule::{Schedule, Step};
pub use crate::words::{Words, first_part, first_word};
pub use crate::writing::{BytesWord, SideWord, write_schedule};
