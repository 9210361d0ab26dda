//! Replies that report that an allocation failed.

ghost use Rattle.std.specs.Prelude.{◌≡◌};
ghost use Rattle.mq_durable.specs.Prelude.{is_for_memory, is_memory, lacks_memory, reports_memory};

use mq_end::CloseReason;
use mq_route::{Act, HubClose, HubReply};

fn is_memory(reason: CloseReason) -> bool
    ensures { result ≡ is_memory reason }
{
    matches!(reason, CloseReason::Memory)
}

fn is_for_memory(why: HubClose) -> bool
    ensures { result ≡ is_for_memory why }
{
    match why {
        HubClose::Own(reason) => is_memory(reason),
        _ => false,
    }
}

#[tactic(auto, unfolding(crate::specs::Memory::lacks_memory))]
fn lacks_memory(act: &Act) -> bool
    ensures { result ≡ lacks_memory act.now }
{
    match act {
        Act::Closed(_, why) => is_for_memory(*why),
        Act::WillDropped(_) => true,
        _ => false,
    }
}

/// Whether an act of the reply reports that an allocation failed: a connection is closed with that
/// reason, or a will is dropped.
///
/// A dropped will counts whatever its cause, because the act does not name it. Under
/// `WhenFull::DropCopy` a failed allocation is the only cause.
pub fn reports_memory(reply: &HubReply) -> bool
    ensures { result ≡ reports_memory reply.now }
{
    reply.acts.as_slice().iter().any(
        |act: &Act| -> bool
            ensures { result ≡ lacks_memory act.now }
        { lacks_memory(act) },
    )
}
