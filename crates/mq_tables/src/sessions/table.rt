//! The table of sessions (3.1.2.4, 3.1.3.1).

ghost use Rattle.std.specs.Prelude.{◌≡◌, ◌+◌, ◌-◌, ◌^◌, ◌≤◌, ◌<◌, ℕ, List, [], ◌∷◌, ◌++◌, true, Some, None, length, map, min, nat_lt, slice_get, vec_capacity, if◌then◌else◌, OnOk, IfOk, IsSome, IfSome};
ghost use Rattle.mq_tables.specs.Prelude.{get, AllByRecursion, prefix_len, bytes_eq, option_copied, IsFirstFree, key_of, all_stored, output_of, parted, MayGo, has_room, left_of, space_of, marked_at, sessions_of, session_at, with_server, without_key, AreBelow, AreAscending};
ghost use Rattle.std.specs.HashMap.{spare};

use crate::rules::CopyRules;
use crate::sessions::session::{BoxedSession, BrokerSession, has_room, next_id, stored_of};
use crate::space::{NO_SPACE, Space, space_of, waiting_left};
use mq_end::{ByteQueue, ServerEnd};
use mq_packet::{Message, PacketId};
use mq_topic::ClientKey;
use mq_wire::Text;
use std::alloc::{AllocError, Global};
use std::collections::HashMap;
use std::marker::Model;

// The keys of the sessions by client identifier.
type Keys = HashMap<Text, ClientKey>;

/// The sessions by ascending key. A hash table finds a session by its client identifier; a guess,
/// or else binary search, finds it by its key.
#[derive(Drop)]
pub struct Sessions {
    pub(crate) list: Vec<BoxedSession>,
    keys: Keys,
}

impl Model for Sessions {
    ghost use Rattle.std.specs.Prelude.{◌-◌, min, length, nat_eq, vec_capacity};
    ghost use Rattle.std.specs.Coded.{codes, coded_ℕ};
    ghost use Rattle.std.specs.Cmp.Lexicographic.{pointwise};
    ghost use Rattle.std.specs.FinSet as set;
    ghost use Rattle.std.specs.HashMap.{get, spare};
    ghost use Rattle.std.specs.Ordering.{nat_cmp};
    ghost use Rattle.mq_tables.specs.Sessions.{SessionTable, AreSessions};

    ghost Value = { SessionTable };

    ghost coded = { Prim.hlevel (codes, set.code {R = nat_cmp} coded_ℕ) };

    ghost view = { λ t. record { list = t.list.items; room = min (vec_capacity t.list - length t.list.items) (spare t.keys) } };

    ghost invariant = { λ t. AreSessions t.list.items (get (pointwise nat_eq) t.keys) };
}

// The index of a key if no session between it and the first has ended. Keys are given in order.
fn guess_index(list: &[BoxedSession], key: ClientKey) -> Option<usize>
    requires { AreAscending list.now }
    ensures value { IfSome result (λ at. at ≡ prefix_len (λ t. nat_lt t.key key) list.now) }
    ensures bound { IfSome result (λ at. at ≤ length list.now) }
{
    let first = list.first()?.session().key;
    let at = key.get().checked_sub(first.get())? as usize;
    if at < list.len() && list[at].session().key == key {
        Some(at)
    } else {
        None
    }
}

// The number of sessions with a key below this one.
pub(crate) fn place(list: &[BoxedSession], key: ClientKey) -> usize
    requires { AreAscending list.now }
    ensures value { result ≡ prefix_len (λ t. nat_lt t.key key) list.now }
    ensures bound { result ≤ length list.now }
{
    if let Some(at) = guess_index(list, key) {
        return at;
    }
    list.partition_point(
        |boxed: &BoxedSession| -> bool
            ensures { result ≡ nat_lt boxed.now.key key }
        { boxed.session().key.get() < key.get() },
    )
}

fn session_in(list: &[BoxedSession], key: ClientKey) -> Option<&BrokerSession>
    requires { AreAscending list.now }
    ensures { option_copied result ≡ session_at key list.now }
{
    let at = place(list, key);
    if at == list.len() {
        return None;
    }
    let session = list[at].session();
    if session.key == key {
        Some(session)
    } else {
        None
    }
}

// Whether the session of a key has room for messages.
fn has_room_in(
    list: &[BoxedSession],
    key: ClientKey,
    most_stored: Option<u64>,
    messages: &[Message],
) -> bool
    requires { AreAscending list.now }
    ensures { IfSome (session_at key list.now) (λ t. AllByRecursion (λ m. MayGo m t.end) messages.now → result ≡ has_room most_stored messages.now t.end) }
{
    match session_in(list, key) {
        Some(session) => has_room(&session.end, most_stored, messages),
        None => false,
    }
}

fn take_at(list: &mut Vec<BoxedSession>, key: ClientKey) -> Option<BrokerSession>
    requires { AreAscending list.old.items }
    ensures list { list.new.items ≡ without_key key list.old.items }
    ensures taken { result ≡ session_at key list.old.items }
    ensures capacity { vec_capacity list.new ≡ vec_capacity list.old }
{
    if session_in(list.as_slice(), key).is_none() {
        return None;
    }
    let at = place(list.as_slice(), key);
    Some(list.remove(at).into_session())
}

fn write_key(keys: &mut Keys, name: Text, key: ClientKey)
    requires { 0 < spare keys.old }
    ensures named { (n : List ℕ) → get bytes_eq keys.new n ≡ (if bytes_eq name n then Some key else get bytes_eq keys.old n) }
    ensures spare { spare keys.old ≤ spare keys.new + 1 }
{
    let _ = keys.insert(name, key);
}

fn drop_key(keys: &mut Keys, name: &Text)
    ensures named { (n : List ℕ) → get bytes_eq keys.new n ≡ (if bytes_eq name.now n then None else get bytes_eq keys.old n) }
    ensures spare { spare keys.old ≤ spare keys.new }
{
    let _ = keys.remove(name);
}

impl Sessions {
    pub(crate) fn new(alloc: Global) -> Sessions
        ensures { result.list ≡ [] }
    {
        Sessions {
            list: Vec::new(alloc),
            keys: HashMap::new(alloc),
        }
    }

    /// Returns the number of sessions.
    pub fn len(&self) -> usize
        ensures { result ≡ length self.now.list }
    {
        self.list.len()
    }

    /// Returns the sessions by ascending key.
    pub fn as_slice(&self) -> &[BoxedSession]
        ensures { result.now ≡ self.now.list }
    {
        self.list.as_slice()
    }

    /// Makes room for this many more sessions.
    pub fn reserve(&mut self, count: usize) -> Result<(), AllocError>
        ensures ok { OnOk result (count ≤ self.new.room) }
        ensures same { self.new.list ≡ self.old.list }
        ensures room { self.old.room ≤ self.new.room }
    {
        self.list.reserve(count)?;
        self.keys.reserve(count)
    }

    /// Returns the key of the session with this client identifier (3.1.3.1).
    pub fn key_of(&self, client: &Text) -> Option<ClientKey>
        ensures { result ≡ key_of client.now (sessions_of self.now.list) }
    {
        self.keys.get(client).copied()
    }

    /// Returns the room of a client's session, after this number of bytes is queued.
    pub fn space(&self, key: ClientKey, rules: CopyRules, queued: usize) -> Space
        ensures { IfSome (session_at key self.now.list) (λ t. t.end.end.known ≡ true → result ≡ space_of rules queued t.end) }
    {
        match self.get(key) {
            Some(session) => space_of(&session.end, rules, queued),
            None => NO_SPACE,
        }
    }

    /// Whether a client's session has room for messages: enough free identifiers (2.3.1), and it
    /// may store their bytes.
    pub fn has_room(&self, key: ClientKey, most_stored: Option<u64>, messages: &[Message]) -> bool
        ensures room { IfSome (session_at key self.now.list) (λ t. AllByRecursion (λ m. MayGo m t.end) messages.now → result ≡ has_room most_stored messages.now t.end) }
        ensures ascending { AreAscending self.now.list }
    {
        has_room_in(self.list.as_slice(), key, most_stored, messages)
    }

    /// Returns the number of further pending output bytes of a client's session, after this number
    /// of bytes is queued. `None`: there is no limit.
    pub fn waiting_left(
        &self,
        key: ClientKey,
        most_waiting: Option<u64>,
        queued: usize,
    ) -> Option<u64>
        ensures { IfSome (session_at key self.now.list) (λ t. result ≡ left_of most_waiting (queued + length t.end.output)) }
    {
        match self.get(key) {
            Some(session) => waiting_left(&session.end, most_waiting, queued),
            None => Some(0),
        }
    }

    /// Returns the number of pending output bytes of the end of a session; 0 if there is none of
    /// this key.
    pub fn pending(&self, key: ClientKey) -> usize
        ensures { result ≡ length (output_of key self.now.list) }
    {
        match self.get(key) {
            Some(session) => session.end.output().len(),
            None => 0,
        }
    }

    /// Returns the identifier of the next message of a session (2.3.1). `None` if none is free.
    pub fn next_id(&self, key: ClientKey) -> Option<PacketId>
        ensures first { IfSome (session_at key self.now.list)
            (λ t. IfSome result (IsFirstFree t.end.end.last t.end.end.book)) }
        ensures none { session_at key self.now.list ≡ None → result ≡ None }
    {
        match self.get(key) {
            Some(session) => next_id(&session.end),
            None => None,
        }
    }

    /// Returns the session at an index.
    pub fn at(&self, index: usize) -> Option<&BrokerSession>
        ensures { option_copied result ≡ slice_get self.now.list index }
    {
        let boxed = self.list.get(index)?;
        Some(boxed.session())
    }

    /// Returns the session of a key.
    pub fn get(&self, key: ClientKey) -> Option<&BrokerSession>
        ensures { option_copied result ≡ session_at key self.now.list }
    {
        session_in(self.list.as_slice(), key)
    }

    /// Adds a session (3.1.2.4). Its key must be above all others, and its client must have no
    /// other session.
    pub(crate) fn insert(&mut self, name: Text, boxed: BoxedSession)
        requires name { name ≡ boxed.client }
        requires key { AreBelow boxed.key self.old.list }
        requires client { key_of boxed.client (sessions_of self.old.list) ≡ None }
        requires room { 0 < self.old.room }
        ensures list { self.new.list ≡ self.old.list ++ boxed ∷ [] }
        ensures room { self.old.room ≤ self.new.room + 1 }
    {
        write_key(&mut self.keys, name, boxed.session().key);
        self.list.push_reserved(boxed);
    }

    /// Exchanges the end of a session for another.
    pub(crate) fn swap_end(&mut self, key: ClientKey, end: &mut ServerEnd)
        requires { IsSome (session_at key self.old.list) }
        ensures list { self.new.list ≡ with_server key end.old self.old.list }
        ensures end { IfSome (session_at key self.old.list) (λ t. end.new ≡ t.end) }
        ensures room { self.new.room ≡ self.old.room }
    {
        let list = self.list.as_mut_slice();
        let at = place(list, key);
        list[at].swap_end(end);
    }

    /// The end of a session loses its connection (3.1.2.4). Its pending output is exchanged for
    /// `output`, which is then dropped.
    pub fn detach(&mut self, key: ClientKey, output: &mut ByteQueue)
        requires { IsSome (session_at key self.old.list) }
        ensures list { IfSome (session_at key self.old.list) (λ t. self.new.list ≡ with_server key (parted t.end) self.old.list) }
        ensures output { IfSome (session_at key self.old.list) (λ t. output.new ≡ t.end.output) }
        ensures room { self.new.room ≡ self.old.room }
    {
        let list = self.list.as_mut_slice();
        let at = place(list, key);
        list[at].detach(output);
    }

    /// Stores this time as that of a client's last disconnect, if it has a session of this key.
    pub fn mark_left(&mut self, key: ClientKey, now: u64)
        ensures list { self.new.list ≡ marked_at key now self.old.list }
        ensures room { self.new.room ≡ self.old.room }
    {
        if self.get(key).is_some() {
            let list = self.list.as_mut_slice();
            let at = place(list, key);
            list[at].mark_left(now);
        }
    }

    /// Ends a session (3.1.2.4) and returns it, or `None` if there is none of this key.
    pub fn remove(&mut self, key: ClientKey) -> Option<BrokerSession>
        ensures list { self.new.list ≡ without_key key self.old.list }
        ensures taken { result ≡ session_at key self.old.list }
        ensures client { (n : List ℕ) → key_of n (sessions_of self.old.list) ≡ Some key → key_of n (sessions_of self.new.list) ≡ None }
        ensures room { self.old.room ≤ self.new.room }
    {
        let session = take_at(&mut self.list, key)?;
        drop_key(&mut self.keys, &session.client);
        Some(session)
    }
}

fn clients_of(alloc: Global, list: &[BoxedSession]) -> Result<Vec<Text>, AllocError>
    ensures { IfOk result (λ names. names.items ≡ map (λ t. t.client) list.now) }
{
    let mut names = Vec::with_capacity(alloc, list.len())?;
    for boxed in list {
        names.push(boxed.session().client.clone()?)?;
    }
    Ok(names)
}

impl Sessions {
    /// Returns the client identifiers of the sessions, by ascending key (3.1.3.1).
    pub fn clients(&self, alloc: Global) -> Result<Vec<Text>, AllocError>
        ensures { IfOk result (λ names. names.items ≡ map (λ t. t.client) self.now.list) }
    {
        clients_of(alloc, self.list.as_slice())
    }
}

// The number of messages that the ends of these sessions store (4.3).
fn stored_in(list: &[BoxedSession]) -> u64
    ensures { result ≡ min (all_stored list.now) (2 ^ 64 - 1) }
{
    let mut total = 0_u64;
    for boxed in list {
        total = total.saturating_add(stored_of(&boxed.session().end) as u64);
    }
    total
}

impl Sessions {
    /// Returns the number of messages that the sessions store (4.3).
    pub fn stored(&self) -> u64
        ensures { result ≡ min (all_stored self.now.list) (2 ^ 64 - 1) }
    {
        stored_in(self.list.as_slice())
    }
}
