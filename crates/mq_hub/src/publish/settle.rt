//! Decides which of the due copies are placed, and reserves room for these (2.3.1).

ghost use Rattle.std.specs.Prelude.{◌≡◌, ◌⊎◌, ◌+◌, ◌++◌, ◌∷◌, ◌&&◌, [], ℕ, List, true, false, is_some, length, Ok, IfOk, IfSome};
ghost use Rattle.mq_hub.specs.Prelude.{Message, HubState, for_key, all_fit, drops_copies, have_room, AreSameButRoom, AreStillReady, IsReadyAt, rules_of, space_of, session_at, is_among, is_cut, placed_acts, AreApart, AreFor, AreReady, HasSessions, IsFor, Settles, first_fitting, fitting_acts, answer_for, IsSettled, IsSettledAs, IsSettledFor};

use crate::publish::enqueue::{PlannedCopy, make_room_for};
use crate::publish::queued_answer::{QueuedAnswer, answer_for};
use mq_end::{PreparedMessage, publish_len};
use mq_packet::Message;
use mq_route::Act;
use mq_tables::{CopyRules, Sessions, Space, fits_left, has_identifier};
use mq_topic::ClientKey;
use std::alloc::{AllocError, Global};
use std::slice;

/// Copies to place, and the acts that report them and the missed ones.
#[derive(Drop)]
pub(crate) struct SettledCopies {
    /// The copies to place.
    pub(crate) kept: Vec<PlannedCopy>,
    /// The acts that report each copy as placed or missed, in order.
    pub(crate) acts: Vec<Act>,
}

/// Messages to place for a client, and the acts that report them and the missed ones.
#[derive(Drop)]
pub(crate) struct SettledMessages {
    /// The messages to place.
    pub(crate) kept: Vec<Message>,
    /// The acts that report each message as placed or missed, in order.
    pub(crate) acts: Vec<Act>,
}

// Whether a copy has QoS 0, and the pending output of its client may not have its bytes after this
// number of bytes is queued.
fn is_cut(
    sessions: &Sessions,
    most_waiting: Option<u64>,
    queued: usize,
    key: ClientKey,
    message: &Message,
) -> bool
    requires { IsFor key (message.now ∷ []) sessions.now.list }
    ensures { result ≡ is_cut most_waiting queued sessions.now.list (key, message.now) }
{
    if has_identifier(message) {
        return false;
    }
    let left = sessions.waiting_left(key, most_waiting, queued);
    !fits_left(left, publish_len(message) as u64)
}

// Settles the copy of a client, for which this number of bytes is queued first: makes room in its
// session for the copy, and for `more` bytes besides, and keeps it, or reports it as missed.
// Returns `false` if the session has no room (2.3.1) and the rules do not drop the copy.
fn settle_copy(
    sessions: &mut Sessions,
    rules: CopyRules,
    queued: usize,
    key: ClientKey,
    message: PreparedMessage,
    more: usize,
    settled: &mut SettledCopies,
) -> Result<bool, AllocError>
    requires { IsFor key (message ∷ []) sessions.old.list }
    ensures settles { result ≡ Ok true → (h : HubState) → HasSessions sessions.old.list h → rules_of h.config ≡ rules
        → IsSettled h.config (λ k. queued) sessions.old.list (key, message) settled.old settled.new }
    ensures enough { IfOk result (λ enough. (cs : List (ℕ × Message)) (h : HubState) → HasSessions sessions.old.list h → rules_of h.config ≡ rules
        → is_among key cs ≡ false → drops_copies rules.when_full ≡ false → all_fit ((key, message) ∷ cs) h ≡ (enough && all_fit cs h)) }
    ensures dropped { drops_copies rules.when_full ≡ true → IfOk result (λ enough. enough ≡ true) }
    ensures ready { result ≡ Ok true → AreReady more sessions.old.list settled.old.kept.items → AreReady more sessions.new.list settled.new.kept.items }
    ensures kept { result ≡ Ok true → (settled.new.kept.items ≡ settled.old.kept.items) ⊎ (settled.new.kept.items ≡ settled.old.kept.items ++ (key, message) ∷ []) }
    ensures count { result ≡ Ok true → length settled.new.acts.items ≡ length settled.old.acts.items + 1 }
    ensures same { AreSameButRoom sessions.old.list sessions.new.list }
    ensures still { AreStillReady sessions.old.list sessions.new.list }
    ensures room { sessions.new.room ≡ sessions.old.room }
{
    if is_cut(sessions, rules.most_waiting, queued, key, message.message()) {
        settled.acts.push(Act::Missed(key, message.into_message()))?;
        return Ok(true);
    }
    if make_room_for(
        sessions,
        rules.most_stored,
        key,
        slice::from_ref(message.message()),
        more,
    )? {
        let placed = message.message().clone()?;
        settled.acts.push(Act::Placed(key, placed))?;
        settled.kept.push((key, message))?;
        return Ok(true);
    }
    if !rules.drops_copies() {
        return Ok(false);
    }
    settled.acts.push(Act::Missed(key, message.into_message()))?;
    Ok(true)
}

/// Settles copies for different clients, after this answer is queued for one of them. Makes room in
/// the sessions for those that are placed, and for `more` bytes besides. Returns `None` if a copy
/// has no room (2.3.1) and the rules do not drop it.
pub(crate) fn settle(
    alloc: Global,
    sessions: &mut Sessions,
    rules: CopyRules,
    answer: Option<QueuedAnswer>,
    copies: Vec<PlannedCopy>,
    more: usize,
) -> Result<Option<SettledCopies>, AllocError>
    requires apart { AreApart copies.items }
    requires due { AreFor sessions.old.list copies.items }
    ensures enough { IfOk result (λ o. (h : HubState) → HasSessions sessions.old.list h → rules_of h.config ≡ rules
        → is_some o ≡ have_room copies.items h) }
    ensures settles { IfOk result (λ o. IfSome o (λ s. (h : HubState) → HasSessions sessions.old.list h → rules_of h.config ≡ rules
        → Settles h.config (answer_for answer) sessions.old.list copies.items s.kept.items s.acts.items)) }
    ensures apart { IfOk result (λ o. IfSome o (λ s. AreApart s.kept.items)) }
    ensures ready { IfOk result (λ o. IfSome o (λ s. AreReady more sessions.new.list s.kept.items)) }
    ensures count { IfOk result (λ o. IfSome o (λ s. length s.acts.items ≡ length copies.items)) }
    ensures same { AreSameButRoom sessions.old.list sessions.new.list }
    ensures still { AreStillReady sessions.old.list sessions.new.list }
    ensures room { sessions.new.room ≡ sessions.old.room }
{
    let mut settled = SettledCopies {
        kept: Vec::new(alloc),
        acts: Vec::new(alloc),
    };
    for (key, message) in copies {
        let queued = answer_for(answer, key);
        if !settle_copy(sessions, rules, queued, key, message, more, &mut settled)? {
            return Ok(None);
        }
    }
    Ok(Some(settled))
}

// The acts that report messages as placed for a client. They share the messages' bytes.
fn placed_for(alloc: Global, key: ClientKey, messages: &[Message]) -> Result<Vec<Act>, AllocError>
    ensures { IfOk result (λ acts. acts.items ≡ placed_acts (for_key key messages.now)) }
{
    let mut acts = Vec::new(alloc);
    for message in messages {
        acts.push(Act::Placed(key, message.clone()?))?;
    }
    Ok(acts)
}

// Keeps a message for a connected client whose session has this room, or reports it as missed.
// Returns the room that the session then has.
fn settle_message(
    rules: CopyRules,
    key: ClientKey,
    message: Message,
    space: Space,
    settled: &mut SettledMessages,
) -> Result<Space, AllocError>
    ensures { IfOk result (λ left. IsSettledFor rules key message space left settled.old settled.new) }
{
    if space.skips(rules, &message) {
        settled.acts.push(Act::Missed(key, message))?;
        return Ok(space);
    }
    let left = space.after(&message);
    settled.acts.push(Act::Placed(key, message.clone()?))?;
    settled.kept.push(message)?;
    Ok(left)
}

// Keeps the messages for which there is room, one after another, and prepares the acts that report
// all messages.
fn settle_messages(
    alloc: Global,
    rules: CopyRules,
    key: ClientKey,
    messages: Vec<Message>,
    space: Space,
) -> Result<SettledMessages, AllocError>
    ensures kept { IfOk result (λ s. s.kept.items ≡ first_fitting rules space messages.items) }
    ensures acts { IfOk result (λ s. s.acts.items ≡ fitting_acts rules key space messages.items) }
    ensures count { IfOk result (λ s. length s.acts.items ≡ length messages.items) }
{
    let mut left = space;
    let mut settled = SettledMessages {
        kept: Vec::new(alloc),
        acts: Vec::new(alloc),
    };
    for message in messages {
        left = settle_message(rules, key, message, left, &mut settled)?;
    }
    Ok(settled)
}

// Whether a client's session has room for messages (2.3.1), or the rules drop those without room.
fn have_room_for(
    sessions: &Sessions,
    rules: CopyRules,
    key: ClientKey,
    messages: &[Message],
) -> bool
    requires { IsFor key messages.now sessions.now.list }
    ensures { (h : HubState) → HasSessions sessions.now.list h → rules_of h.config ≡ rules → result ≡ have_room (for_key key messages.now) h }
{
    if rules.drops_copies() {
        return true;
    }
    sessions.has_room(key, rules.most_stored, messages)
}

// As [`settle_for`], if messages may be missed. There is room for all of QoS 1 and 2, or the rules
// drop those without room.
fn settle_first(
    alloc: Global,
    sessions: &mut Sessions,
    rules: CopyRules,
    key: ClientKey,
    messages: Vec<Message>,
    queued: usize,
    more: usize,
) -> Result<Option<SettledMessages>, AllocError>
    requires { IsFor key messages.items sessions.old.list }
    ensures enough { IfOk result (λ o. (h : HubState) → HasSessions sessions.old.list h → rules_of h.config ≡ rules
        → is_some o ≡ have_room (for_key key messages.items) h) }
    ensures settles { IfOk result (λ o. IfSome o (λ s. IfSome (session_at key sessions.old.list) (λ t.
        (s.kept.items ≡ first_fitting rules (space_of rules queued t.end) messages.items)
        × (s.acts.items ≡ fitting_acts rules key (space_of rules queued t.end) messages.items)))) }
    ensures ready { IfOk result (λ o. IfSome o (λ s. IsReadyAt key s.kept.items more sessions.new.list)) }
    ensures count { IfOk result (λ o. IfSome o (λ s. length s.acts.items ≡ length messages.items)) }
    ensures same { AreSameButRoom sessions.old.list sessions.new.list }
    ensures still { AreStillReady sessions.old.list sessions.new.list }
    ensures room { sessions.new.room ≡ sessions.old.room }
{
    if !have_room_for(sessions, rules, key, messages.as_slice()) {
        return Ok(None);
    }
    let space = sessions.space(key, rules, queued);
    let settled = settle_messages(alloc, rules, key, messages, space)?;
    if make_room_for(
        sessions,
        rules.most_stored,
        key,
        settled.kept.as_slice(),
        more,
    )? {
        return Ok(Some(settled));
    }
    // Not reached: the messages that were kept fit.
    Err(AllocError)
}

/// Settles messages for a connected client, after this number of bytes is queued for it. Makes room
/// in its session for those that are placed, and for `more` bytes besides. Returns `None` if the
/// session has no room for those of QoS 1 and 2 (2.3.1) and the rules do not drop them.
pub(crate) fn settle_for(
    alloc: Global,
    sessions: &mut Sessions,
    rules: CopyRules,
    key: ClientKey,
    messages: Vec<Message>,
    queued: usize,
    more: usize,
) -> Result<Option<SettledMessages>, AllocError>
    requires { IsFor key messages.items sessions.old.list }
    ensures enough { IfOk result (λ o. (h : HubState) → HasSessions sessions.old.list h → rules_of h.config ≡ rules
        → is_some o ≡ have_room (for_key key messages.items) h) }
    ensures settles { IfOk result (λ o. IfSome o (λ s. IsSettledAs rules queued key sessions.old.list messages.items s)) }
    ensures ready { IfOk result (λ o. IfSome o (λ s. IsReadyAt key s.kept.items more sessions.new.list)) }
    ensures count { IfOk result (λ o. IfSome o (λ s. length s.acts.items ≡ length messages.items)) }
    ensures same { AreSameButRoom sessions.old.list sessions.new.list }
    ensures still { AreStillReady sessions.old.list sessions.new.list }
    ensures room { sessions.new.room ≡ sessions.old.room }
{
    if rules.may_miss() {
        return settle_first(alloc, sessions, rules, key, messages, queued, more);
    }
    if !make_room_for(sessions, rules.most_stored, key, messages.as_slice(), more)? {
        return Ok(None);
    }
    let acts = placed_for(alloc, key, messages.as_slice())?;
    Ok(Some(SettledMessages {
        kept: messages,
        acts,
    }))
}
