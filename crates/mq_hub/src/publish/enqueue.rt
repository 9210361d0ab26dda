//! The copies of a message, and their place in the sessions of the subscribers (3.3.5, 3.8.4).

ghost use Rattle.std.specs.Prelude.{◌≡◌, ◌≤◌, ◌++◌, ◌∷◌, ◌&&◌, ◌||◌, [], ℕ, List, not, true, false, is_some, IfOk, OnOk, Ok};
ghost use Rattle.mq_hub.specs.Prelude.{Message, HubState, copies_of, for_key, up_on, Act, HubConfig, all_fit, lacks_room, enqueue_all, retained_copies, has_identifier, publish_size, AreSameButRoom, AreStillReady, IsReadyAt, HubTables, AreShared, Refines, HubInvariant, copies_found, is_among, placed_all, AreApart, AreFor, AreReady, AreUpAlike, Settles, placed_acts, with_list, AreHeard, CanPlace, HasSessions, IsFor, hub_of};

use crate::publish::shared_copies::SharedCopies;
use mq_end::PreparedMessage;
use mq_packet::{Message, Request};
use mq_route::Act;
use mq_tables::{Connections, Retained, Sessions, is_hidden_name, lesser};
use mq_topic::{ClientKey, FilterStore, Qos};
use std::alloc::{AllocError, Global};
use std::slice;

/// A planned copy of a message: the key of the client that it is for, and the message.
pub(crate) type PlannedCopy = (ClientKey, PreparedMessage);

// Whether a copy of this quality of service may go to a client. One of QoS 0 may while the client
// is connected (4.3.1).
fn may_go_to(connections: &Connections, key: ClientKey, qos: Qos) -> bool
    ensures { result ≡ (has_identifier qos || is_some (up_on key connections.now.connections)) }
{
    qos != Qos::Q0 || connections.up_on(key).is_some()
}

// Returns a copy for each client that was found, by the greatest quality of service of its matching
// subscriptions.
#[inline(always)]
fn copies_found(
    alloc: Global,
    found: Vec<(ClientKey, Qos)>,
    connections: &Connections,
    message: &Message,
    shared: &SharedCopies,
) -> Result<Vec<PlannedCopy>, AllocError>
    requires { AreShared message.now shared.now }
    ensures { IfOk result (λ copies. copies.items ≡ copies_found connections.now.connections message.now found.items) }
{
    let mut copies = Vec::new(alloc);
    for (key, qos) in found {
        let may_go = may_go_to(connections, key, lesser(message.qos, qos));
        if let Some(copy) = shared.copy_by(message, qos, may_go)? {
            copies.push((key, copy))?;
        }
    }
    Ok(copies)
}

/// Returns the copies of a message: one for each client with a matching subscription, by ascending
/// key (3.3.5). They share the message's bytes.
#[inline(always)]
pub(crate) fn copies_of<S: FilterStore>(
    alloc: Global,
    store: &S,
    connections: &Connections,
    sessions: &Sessions,
    message: &Message,
) -> Result<Vec<PlannedCopy>, AllocError>
    ensures copies { IfOk result (λ copies. (h : HubState) → h.rows ≡ S.rows store.now → AreUpAlike h.connections connections.now.connections
        → copies.items ≡ copies_of message.now h) }
    ensures apart { IfOk result (λ copies. AreApart copies.items) }
    ensures due { IfOk result (λ copies. (config : HubConfig) (next_key : ℕ) (t : HubTables) → t.rows ≡ S.rows store.now → t.connections ≡ connections.now
        → HubInvariant config next_key t → publish_size message.now ≤ config.limits.most → AreFor t.sessions.list copies.items) }
{
    if is_hidden_name(&message.topic) {
        return Ok(Vec::new(alloc));
    }
    let found = store.matching(&message.topic)?;
    if found.is_empty() {
        return Ok(Vec::new(alloc));
    }
    let shared = SharedCopies::new(alloc, message, found.as_slice(), connections, sessions);
    copies_found(alloc, found, connections, message, &shared)
}

/// Returns the retained messages for the new subscriptions of a client, request by request
/// (3.3.1.3, 3.8.4). They share the bytes of the stored messages.
pub(crate) fn retained_copies(
    alloc: Global,
    retained: &Retained,
    requests: &[Request],
) -> Result<Vec<Message>, AllocError>
    ensures { IfOk result (λ ms. (key : ℕ) → for_key key ms.items ≡ retained_copies key requests.now retained.now.messages) }
{
    let mut messages = Vec::new(alloc);
    for request in requests {
        let mut found = retained.matching(alloc, &request.filter, request.qos)?;
        messages.append(&mut found)?;
    }
    Ok(messages)
}

/// Makes room in the session of a client for messages, and for `more` bytes besides their
/// PUBLISHes. Returns `false` if the session has too few free identifiers (2.3.1), or may not store
/// the messages' bytes. The room that other sessions have stays.
pub(crate) fn make_room_for(
    sessions: &mut Sessions,
    most_stored: Option<u64>,
    key: ClientKey,
    messages: &[Message],
    more: usize,
) -> Result<bool, AllocError>
    requires { IsFor key messages.now sessions.old.list }
    ensures enough { IfOk result (λ enough. (cs : List (ℕ × Message)) (h : HubState) → HasSessions sessions.old.list h
        → h.config.most_stored ≡ most_stored → is_among key cs ≡ false → all_fit (for_key key messages.now ++ cs) h ≡ (enough && all_fit cs h)) }
    ensures one { IfOk result (λ enough. (m : Message) (h : HubState) → HasSessions sessions.old.list h
        → h.config.most_stored ≡ most_stored → messages.now ≡ m ∷ [] → lacks_room key m h ≡ not enough) }
    ensures ready { result ≡ Ok true → IsReadyAt key messages.now more sessions.new.list }
    ensures same { AreSameButRoom sessions.old.list sessions.new.list }
    ensures still { AreStillReady sessions.old.list sessions.new.list }
    ensures room { sessions.new.room ≡ sessions.old.room }
{
    if !sessions.has_room(key, most_stored, messages) {
        return Ok(false);
    }
    match sessions.ready(key, messages, more) {
        Ok(()) => Ok(true),
        Err(_) => Err(AllocError),
    }
}

/// Makes room in each subscriber's session for its copy, and for `more` bytes besides. Returns
/// `false` if a session has no room for its copy (2.3.1).
pub(crate) fn make_room(
    sessions: &mut Sessions,
    most_stored: Option<u64>,
    copies: &[PlannedCopy],
    more: usize,
) -> Result<bool, AllocError>
    requires apart { AreApart copies.now }
    requires due { AreFor sessions.old.list copies.now }
    ensures enough { IfOk result (λ enough. (h : HubState) → HasSessions sessions.old.list h → h.config.most_stored ≡ most_stored
        → enough ≡ all_fit copies.now h) }
    ensures ready { result ≡ Ok true → AreReady more sessions.new.list copies.now }
    ensures same { AreSameButRoom sessions.old.list sessions.new.list }
    ensures still { AreStillReady sessions.old.list sessions.new.list }
    ensures room { sessions.new.room ≡ sessions.old.room }
{
    for due in copies {
        if !make_room_for(
            sessions,
            most_stored,
            due.0,
            slice::from_ref(due.1.message()),
            more,
        )? {
            return Ok(false);
        }
    }
    Ok(true)
}

/// Places messages for a client, whose session must have room for them (3.3.5).
pub(crate) fn enqueue_for(sessions: &mut Sessions, key: ClientKey, messages: Vec<Message>)
    requires { IsReadyAt key messages.items 0 sessions.old.list }
    ensures goes { (config : HubConfig) (clock : ℕ) (next_key : ℕ) (t : HubTables) (said says : List Act) (due : List (ℕ × Message))
        → t.sessions.list ≡ sessions.old.list → CanPlace t → AreHeard t.connections.connections due → Settles config (λ k. 0) sessions.old.list due (for_key key messages.items) says
        → Refines (enqueue_all due) (hub_of config clock next_key t) said (hub_of config clock next_key (with_list sessions.new.list t)) (said ++ says) }
    ensures list { sessions.new.list ≡ placed_all (for_key key messages.items) sessions.old.list }
    ensures room { sessions.new.room ≡ sessions.old.room }
{
    for message in messages {
        sessions.publish(key, PreparedMessage::new(message));
    }
}

/// Places each copy for its client, whose session must have room for it (3.3.5).
pub(crate) fn enqueue_all(sessions: &mut Sessions, copies: Vec<PlannedCopy>)
    requires apart { AreApart copies.items }
    requires ready { AreReady 0 sessions.old.list copies.items }
    ensures goes { (config : HubConfig) (clock : ℕ) (next_key : ℕ) (t : HubTables) (said says : List Act) (due : List (ℕ × Message))
        → t.sessions.list ≡ sessions.old.list → CanPlace t → AreHeard t.connections.connections due → Settles config (λ k. 0) sessions.old.list due copies.items says
        → Refines (enqueue_all due) (hub_of config clock next_key t) said (hub_of config clock next_key (with_list sessions.new.list t)) (said ++ says) }
    ensures list { sessions.new.list ≡ placed_all copies.items sessions.old.list }
    ensures room { sessions.new.room ≡ sessions.old.room }
{
    for (key, message) in copies {
        sessions.publish(key, message);
    }
}

/// Appends the acts that report copies as placed. They share the messages' bytes.
#[inline(always)]
pub(crate) fn push_placed(acts: &mut Vec<Act>, copies: &[PlannedCopy]) -> Result<(), AllocError>
    ensures { OnOk result (acts.new.items ≡ acts.old.items ++ placed_acts copies.now) }
{
    for due in copies {
        acts.push(Act::Placed(due.0, due.1.message().clone()?))?;
    }
    Ok(())
}
