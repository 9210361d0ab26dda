//! The condition of a broker after a step.

ghost use Rattle.std.specs.Prelude.{◌≡◌, Ok};
ghost use Rattle.mq_durable.specs.Prelude.{after_refusal, after_sound_step, after_step, reply_in};

use crate::condition::Condition;
use crate::fault::StepRefusal;
use crate::report::reports_memory;
use mq_route::{HubRefusal, HubReply};

fn after_reply(reply: &HubReply) -> Condition
    ensures { result ≡ after_sound_step (Ok reply.now) }
{
    if reports_memory(reply) {
        Condition::OutOfMemory
    } else {
        Condition::Sound
    }
}

fn after_refusal(why: StepRefusal) -> Condition
    ensures { result ≡ after_refusal why }
{
    match why {
        StepRefusal::Hub(HubRefusal::Memory) => Condition::OutOfMemory,
        StepRefusal::Hub(HubRefusal::UnknownConn | HubRefusal::ConnInUse)
        | StepRefusal::EntryFull
        | StepRefusal::Broken => Condition::Sound,
    }
}

/// The condition after a step.
pub(crate) fn condition_after(
    stepped: &Result<HubReply, StepRefusal>,
    condition: Condition,
) -> Condition
    ensures { result ≡ after_step stepped.now condition }
{
    match condition {
        Condition::Sound => match stepped {
            Ok(reply) => after_reply(reply),
            Err(why) => after_refusal(*why),
        },
        Condition::OutOfMemory => Condition::OutOfMemory,
        Condition::Broken => Condition::Broken,
    }
}

/// The condition after a step for the front of a piece.
pub(crate) fn condition_after_some(
    stepped: &Result<(HubReply, usize), StepRefusal>,
    condition: Condition,
) -> Condition
    ensures { result ≡ after_step (reply_in stepped.now) condition }
{
    match condition {
        Condition::Sound => match stepped {
            Ok((reply, _)) => after_reply(reply),
            Err(why) => after_refusal(*why),
        },
        Condition::OutOfMemory => Condition::OutOfMemory,
        Condition::Broken => Condition::Broken,
    }
}
