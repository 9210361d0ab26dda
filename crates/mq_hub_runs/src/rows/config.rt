//! The configuration of a list's brokers.

ghost use Rattle.std.specs.Prelude.{◌<◌, IfOk, IfSome};

use crate::rows::wrong::Wrong;
use bytes::Bytes;
use mq_decode::Limits;
use mq_end::BoxedList;
use mq_hub::{HashedUser, HubConfig, User, WhenFull};
use mq_packet::Binary;
use mq_wire::Text;
use std::alloc::Global;

/// The limits and the users of the brokers of a list.
#[derive(Clone, Copy)]
pub(crate) struct Kind {
    capacity: u16,
    window: Option<u16>,
    max_conns: usize,
    max_sessions: usize,
    has_user: bool,
    has_hashed_user: bool,
    when_full: WhenFull,
    connect_within: Option<u64>,
    session_expiry: Option<u64>,
    most_stored: Option<u64>,
    most_waiting: Option<u64>,
    most_matches: Option<u64>,
    lenient: bool,
}

const WIDE: Kind = Kind {
    capacity: 100,
    window: None,
    max_conns: 100,
    max_sessions: 100,
    has_user: false,
    has_hashed_user: false,
    when_full: WhenFull::ClosePublisher,
    connect_within: None,
    session_expiry: None,
    most_stored: None,
    most_waiting: None,
    most_matches: None,
    lenient: false,
};

fn short(number: u64) -> u16 {
    u16::try_from(number).unwrap_or(u16::MAX)
}

fn set_number(kind: &mut Kind, name: &str, number: u64) -> Result<(), Wrong> {
    match name {
        "capacity" => kind.capacity = short(number),
        "window" => kind.window = Some(short(number)),
        "connections" => kind.max_conns = number as usize,
        "sessions" => kind.max_sessions = number as usize,
        "connect-within" => kind.connect_within = Some(number),
        "session-expiry" => kind.session_expiry = Some(number),
        "stored" => kind.most_stored = Some(number),
        "waiting" => kind.most_waiting = Some(number),
        "matches" => kind.most_matches = Some(number),
        _ => return Err(Wrong::Words),
    }
    Ok(())
}

fn set(kind: &mut Kind, word: &str) -> Result<(), Wrong> {
    match word {
        "drop" => kind.when_full = WhenFull::DropCopy,
        "lenient" => kind.lenient = true,
        "user" => kind.has_user = true,
        "hashed-user" => kind.has_hashed_user = true,
        _ => {
            let (name, number) = word.split_once('=').ok_or(Wrong::Words)?;
            return set_number(kind, name, number.parse().ok().ok_or(Wrong::Words)?);
        }
    }
    Ok(())
}

/// The kind of the words behind `new broker`.
pub(crate) fn kind_of(words: &str) -> Result<Kind, Wrong> {
    let mut kind = WIDE;
    for word in words.split_whitespace() {
        set(&mut kind, word)?;
    }
    Ok(kind)
}

fn one_user(alloc: Global) -> Result<BoxedList<User>, Wrong> {
    let user = User {
        name: Text::new(alloc, "u").ok().ok_or(Wrong::Memory)?,
        password: Binary::new(Bytes::from_static(b"p")).ok_or(Wrong::Words)?,
    };
    Ok(BoxedList::from_vec(vec![in alloc; user]?))
}

// The salt is `s`; the digest was computed by another program.
fn one_hashed_user(alloc: Global) -> Result<BoxedList<HashedUser>, Wrong> {
    let user = HashedUser {
        name: Text::new(alloc, "u").ok().ok_or(Wrong::Memory)?,
        salt: Binary::new(Bytes::from_static(b"s")).ok_or(Wrong::Words)?,
        digest: [
            0xbe, 0x18, 0xb8, 0x5f, 0x77, 0xfc, 0x02, 0x4d, 0xb3, 0x79, 0xac, 0xf1, 0x9e, 0x8a,
            0x1c, 0xe6, 0x23, 0x07, 0xab, 0x7b, 0xb1, 0xbc, 0xa3, 0x95, 0x38, 0x9e, 0xcf, 0xc2,
            0xda, 0xfa, 0xf7, 0x41,
        ],
    };
    Ok(BoxedList::from_vec(vec![in alloc; user]?))
}

fn users(alloc: Global, kind: Kind) -> Result<Option<BoxedList<User>>, Wrong> {
    if kind.has_user {
        return Ok(Some(one_user(alloc)?));
    }
    Ok(None)
}

fn hashed_users(alloc: Global, kind: Kind) -> Result<Option<BoxedList<HashedUser>>, Wrong> {
    if kind.has_hashed_user {
        return Ok(Some(one_hashed_user(alloc)?));
    }
    Ok(None)
}

/// The configuration of brokers of a kind.
pub(crate) fn config(alloc: Global, kind: Kind) -> Result<HubConfig, Wrong>
    ensures capacity { IfOk result (λ c. 0 < c.capacity) }
    ensures window { IfOk result (λ c. IfSome c.window (λ most. 0 < most)) }
{
    let limits = if kind.lenient {
        Limits::lenient(1_048_576)
    } else {
        Limits::new(1_048_576)
    };
    Ok(HubConfig {
        limits: limits.ok_or(Wrong::Words)?,
        capacity: kind.capacity.max(1),
        window: kind.window.map(|most| most.max(1)),
        max_conns: kind.max_conns,
        max_sessions: kind.max_sessions,
        users: users(alloc, kind)?,
        hashed_users: hashed_users(alloc, kind)?,
        when_full: kind.when_full,
        connect_within: kind.connect_within,
        session_expiry: kind.session_expiry,
        most_stored: kind.most_stored,
        most_waiting: kind.most_waiting,
        most_matches: kind.most_matches,
    })
}
