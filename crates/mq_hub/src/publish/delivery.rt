//! The plan of a delivery: the message to retain and the copies to place (3.3.1.3, 3.3.5).

ghost use Rattle.std.specs.Prelude.{◌≡◌, ◌+◌, ◌≤◌, ◌++◌, [], length, true, IfOk, Ok};
ghost use Rattle.mq_hub.specs.Prelude.{HubState, have_room, AreSameButRoom, AreStillReady, rules_of, AreApart, AreFor, AreReady, HasSessions, Settles, answer_for};

use crate::acts::ActLog;
use crate::publish::enqueue::{PlannedCopy, make_room, push_placed};
use crate::publish::queued_answer::QueuedAnswer;
use crate::publish::settle::{SettledCopies, settle};
use mq_route::Act;
use mq_tables::{CopyRules, RetainedEntry, Sessions};
use std::alloc::{AllocError, Global};
use std::mem;

/// Everything that delivering a message needs, besides the message.
#[derive(Drop)]
pub(crate) struct DeliveryPlan {
    /// The message to retain.
    pub(crate) kept: Option<RetainedEntry>,
    /// The copies for the subscribers.
    pub(crate) copies: Vec<PlannedCopy>,
    /// The acts that report the copies as placed or missed; none before room is reserved.
    pub(crate) acts: Vec<Act>,
}

/// Appends acts for which there is room.
pub(crate) fn push_all(log: &mut ActLog, acts: Vec<Act>)
    requires { length acts.items ≤ log.old.room }
    ensures acts { log.new.acts ≡ log.old.acts ++ acts.items }
    ensures room { log.old.room ≤ log.new.room + length acts.items }
{
    for act in acts {
        log.push(act);
    }
}

impl DeliveryPlan {
    /// Makes room in each subscriber's session for its copy, and for `more` bytes besides, and
    /// prepares the acts. Copies that are missed are dropped from the plan. The answer is queued
    /// before the copies. Returns `false` if a session has no room for its copy (2.3.1) and the
    /// rules do not drop it.
    #[inline(always)]
    pub(crate) fn make_room(
        &mut self,
        alloc: Global,
        sessions: &mut Sessions,
        rules: CopyRules,
        answer: Option<QueuedAnswer>,
        more: usize,
    ) -> Result<bool, AllocError>
        requires apart { AreApart self.old.copies.items }
        requires due { AreFor sessions.old.list self.old.copies.items }
        requires acts { self.old.acts.items ≡ [] }
        ensures enough { IfOk result (λ enough. (h : HubState) → HasSessions sessions.old.list h → rules_of h.config ≡ rules
            → enough ≡ have_room self.old.copies.items h) }
        ensures settles { result ≡ Ok true → (h : HubState) → HasSessions sessions.old.list h → rules_of h.config ≡ rules
            → Settles h.config (answer_for answer) sessions.old.list self.old.copies.items self.new.copies.items self.new.acts.items }
        ensures apart { result ≡ Ok true → AreApart self.new.copies.items }
        ensures ready { result ≡ Ok true → AreReady more sessions.new.list self.new.copies.items }
        ensures count { result ≡ Ok true → length self.new.acts.items ≡ length self.old.copies.items }
        ensures kept { self.new.kept ≡ self.old.kept }
        ensures same { AreSameButRoom sessions.old.list sessions.new.list }
        ensures still { AreStillReady sessions.old.list sessions.new.list }
        ensures room { sessions.new.room ≡ sessions.old.room }
    {
        if !rules.may_miss() {
            push_placed(&mut self.acts, self.copies.as_slice())?;
            return make_room(sessions, rules.most_stored, self.copies.as_slice(), more);
        }
        let copies = mem::replace(&mut self.copies, Vec::new(alloc));
        match settle(alloc, sessions, rules, answer, copies, more)? {
            Some(SettledCopies { kept, acts }) => {
                self.copies = kept;
                self.acts = acts;
                Ok(true)
            }
            None => Ok(false),
        }
    }
}
