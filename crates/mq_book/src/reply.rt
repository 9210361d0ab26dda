//! Replies that a journal and a worker share.

ghost use Rattle.std.specs.Prelude.{◌≡◌, IfOk, IfErr, IfSome, OnOk, OnErr, None, Err};
ghost use Rattle.mq_route.specs.Step.{HubStep, event_refusal};

use bytes::Bytes;
use mq_end::BoxedList;
use mq_hub::HubOver;
use mq_route::{HubEvent, HubRefusal, HubReply};
use mq_topic::FilterStore;
use std::alloc::{AllocError, Global};
use std::marker::Model;
use std::sync::{Arc, Wait};

/// A broker's reply with several owners.
#[derive(Debug, Drop)]
pub struct SharedReply {
    cell: Arc<HubReply>,
}

impl Model for SharedReply {
    ghost use Rattle.std.specs.Arc.{arc_value};
    ghost use Rattle.mq_route.specs.declared.reply.HubReply.{HubReply};

    ghost Value = { HubReply };

    ghost view = { λ s. arc_value s.cell };
}

impl SharedReply {
    /// A reply with one owner.
    pub fn new(alloc: Global, reply: HubReply) -> Result<SharedReply, AllocError>
        ensures { IfOk result (λ s. s ≡ reply) }
    {
        match Arc::new(alloc, reply) {
            Ok(cell) => Ok(SharedReply { cell }),
            Err(_) => Err(AllocError),
        }
    }

    /// The reply.
    pub fn as_reply(&self) -> &HubReply
        ensures { result.now ≡ self.now }
    {
        &self.cell
    }

    // A blank reply, to be replaced by that of a step.
    fn room(alloc: Global) -> Result<SharedReply, AllocError> {
        let blank = HubReply {
            acts: BoxedList::from_vec(Vec::new(alloc)),
            output: Bytes::new(),
            alive: false,
        };
        SharedReply::new(alloc, blank)
    }

    // Makes a step of a broker, and stores its reply here. `self` must have one owner.
    fn take_step<S: FilterStore>(
        &mut self,
        hub: &mut HubOver<S>,
        event: &HubEvent,
    ) -> Result<(), HubRefusal>
        requires { event_refusal event.now hub.old ≡ None }
        ensures step { OnOk result (HubStep hub.old event.now self.new hub.new) }
        ensures memory { IfErr result (λ why. why ≡ HubRefusal.Memory) }
        ensures err { OnErr result (hub.new ≡ hub.old) }
    {
        let Some(slot) = Arc::get_mut(&mut self.cell) else {
            return Err(HubRefusal::Memory);
        };
        *slot = hub.step(event)?;
        Ok(())
    }

    /// Another owner of the reply. Waits while the reply has 2^63 owners, the maximum.
    pub(crate) fn another<R: Wait>(&self, rt: &R) -> SharedReply
        ensures { result ≡ self.now }
    {
        for _ in rt.forever() {
            if let Ok(cell) = Arc::try_clone(&self.cell) {
                return SharedReply { cell };
            }
        }
        unreachable!()
    }
}

/// Makes a step as [`HubOver::step`] does, and returns its reply twice.
///
/// The two replies share one allocation, which is made before the step. On error the broker is
/// unchanged.
pub fn step_twice<S: FilterStore, R: Wait>(
    rt: &R,
    alloc: Global,
    hub: &mut HubOver<S>,
    event: &HubEvent,
) -> Result<(SharedReply, SharedReply), HubRefusal>
    ensures step { IfOk result (λ r. HubStep hub.old event.now r.0 hub.new) }
    ensures twice { IfOk result (λ r. r.1 ≡ r.0) }
    ensures refused { IfSome (event_refusal event.now hub.old) (λ why. result ≡ Err why) }
    ensures memory { event_refusal event.now hub.old ≡ None → IfErr result (λ why. why ≡ HubRefusal.Memory) }
    ensures err { OnErr result (hub.new ≡ hub.old) }
{
    if let Some(why) = hub.refusal(event) {
        return Err(why);
    }
    let Ok(mut reply) = SharedReply::room(alloc) else {
        return Err(HubRefusal::Memory);
    };
    reply.take_step(hub, event)?;
    let again = reply.another(rt);
    Ok((reply, again))
}
