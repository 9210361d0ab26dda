//! Reading a configuration.

ghost use Rattle.std.specs.Prelude.{◌≡◌, ◌<◌, ◌++◌, length, IfOk, IfSome, IsTrue};
ghost use Rattle.mq_store.specs.Prelude.{config_bytes, text_bytes};

use crate::configuration::config_bytes;
use bytes::Bytes;
use mq_decode::Limits;
use mq_end::BoxedList;
use mq_packet::Binary;
use mq_route::{HashedUser, HubConfig, User, WhenFull};
use mq_snapshot::{SnapshotFault, read_eight};
use mq_wire::{Text, TextFault};
use std::alloc::Global;

// Reads a number that may be missing.
fn read_option(bytes: &[u8]) -> Result<(Option<u64>, &[u8]), SnapshotFault> {
    let (is_set, rest) = read_eight(bytes)?;
    if is_set == 0 {
        return Ok((None, rest));
    }
    let (number, rest) = read_eight(rest)?;
    Ok((Some(number), rest))
}

// Reads a number of two bytes.
fn read_short(bytes: &[u8]) -> Result<(u16, &[u8]), SnapshotFault> {
    let (number, rest) = read_eight(bytes)?;
    if number > 65_535 {
        return Err(SnapshotFault::Malformed);
    }
    Ok((number as u16, rest))
}

// Reads a number of two bytes that may be missing.
fn read_short_option(bytes: &[u8]) -> Result<(Option<u16>, &[u8]), SnapshotFault> {
    let (is_set, rest) = read_eight(bytes)?;
    if is_set == 0 {
        return Ok((None, rest));
    }
    let (number, rest) = read_short(rest)?;
    Ok((Some(number), rest))
}

// The limits of packets of these numbers.
fn limits_of(most: u64, is_lenient: u64) -> Result<Limits, SnapshotFault> {
    if most > 268_435_455 {
        return Err(SnapshotFault::Malformed);
    }
    let limits = if is_lenient == 0 {
        Limits::new(most as u32)
    } else {
        Limits::lenient(most as u32)
    };
    match limits {
        Some(limits) => Ok(limits),
        None => Err(SnapshotFault::Malformed),
    }
}

// The treatment of a full session with this number.
fn when_full_of(number: u64) -> WhenFull {
    if number == 0 {
        WhenFull::ClosePublisher
    } else {
        WhenFull::DropCopy
    }
}

/// Splits the bytes behind this number of them.
pub(crate) fn split(bytes: &[u8], size: u64) -> Result<(&[u8], &[u8]), SnapshotFault>
    ensures parts { IfOk result (λ r. bytes.now ≡ r.0.now ++ r.1.now) }
    ensures size { IfOk result (λ r. length r.0.now ≡ size) }
{
    if (bytes.len() as u64) < size {
        return Err(SnapshotFault::Malformed);
    }
    Ok(bytes.split_at(size as usize))
}

/// Reads bytes after their number.
#[tactic(auto, using(std::proofs::Common::append_assoc))]
pub(crate) fn read_sized(bytes: &[u8]) -> Result<(&[u8], &[u8]), SnapshotFault>
    ensures { IfOk result (λ r. bytes.now ≡ text_bytes r.0.now ++ r.1.now) }
{
    let (size, rest) = read_eight(bytes)?;
    let (text, rest) = split(rest, size)?;
    Ok((text, rest))
}

// Reads a name of a user.
fn read_name(alloc: Global, bytes: &[u8]) -> Result<(Text, &[u8]), SnapshotFault> {
    let (name, rest) = read_sized(bytes)?;
    let Ok(name) = str::from_utf8(name) else {
        return Err(SnapshotFault::Malformed);
    };
    match Text::new(alloc, name) {
        Ok(name) => Ok((name, rest)),
        Err(TextFault::Memory) => Err(SnapshotFault::Memory),
        Err(_) => Err(SnapshotFault::Malformed),
    }
}

// Reads a password or a salt.
fn read_binary(alloc: Global, bytes: &[u8]) -> Result<(Binary, &[u8]), SnapshotFault> {
    let (field, rest) = read_sized(bytes)?;
    match Binary::new(Bytes::copy_from_slice(alloc, field)?) {
        Some(field) => Ok((field, rest)),
        None => Err(SnapshotFault::Malformed),
    }
}

// Reads a digest.
fn read_digest(bytes: &[u8]) -> Result<([u8; 32], &[u8]), SnapshotFault> {
    let (field, rest) = read_sized(bytes)?;
    if field.len() != 32 {
        return Err(SnapshotFault::Malformed);
    }
    let mut digest = [0; 32];
    digest.copy_from_slice(field);
    Ok((digest, rest))
}

fn read_user(alloc: Global, bytes: &[u8]) -> Result<(User, &[u8]), SnapshotFault> {
    let (name, rest) = read_name(alloc, bytes)?;
    let (password, rest) = read_binary(alloc, rest)?;
    Ok((User { name, password }, rest))
}

fn read_hashed_user(alloc: Global, bytes: &[u8]) -> Result<(HashedUser, &[u8]), SnapshotFault> {
    let (name, rest) = read_name(alloc, bytes)?;
    let (salt, rest) = read_binary(alloc, rest)?;
    let (digest, rest) = read_digest(rest)?;
    Ok((HashedUser { name, salt, digest }, rest))
}

// Reads the users that may connect, if they are restricted.
fn read_user_table(
    alloc: Global,
    bytes: &[u8],
) -> Result<(Option<BoxedList<User>>, &[u8]), SnapshotFault> {
    let (count, first) = read_option(bytes)?;
    let Some(count) = count else {
        return Ok((None, first));
    };
    let mut users = Vec::new(alloc);
    let mut rest = first;
    for _ in 0..count {
        let (user, more) = read_user(alloc, rest)?;
        users.push(user)?;
        rest = more;
    }
    Ok((Some(BoxedList::from_vec(users)), rest))
}

// Reads the users with digests that may connect, if they are restricted.
fn read_hashed_table(
    alloc: Global,
    bytes: &[u8],
) -> Result<(Option<BoxedList<HashedUser>>, &[u8]), SnapshotFault> {
    let (count, first) = read_option(bytes)?;
    let Some(count) = count else {
        return Ok((None, first));
    };
    let mut users = Vec::new(alloc);
    let mut rest = first;
    for _ in 0..count {
        let (user, more) = read_hashed_user(alloc, rest)?;
        users.push(user)?;
        rest = more;
    }
    Ok((Some(BoxedList::from_vec(users)), rest))
}

// The numbers of a configuration.
#[derive(Clone, Copy)]
struct Numbers {
    most: u64,
    is_lenient: u64,
    capacity: u16,
    window: Option<u16>,
    max_conns: usize,
    max_sessions: usize,
}

// Reads the limits of packets, sessions and connections.
fn read_numbers(bytes: &[u8]) -> Result<(Numbers, &[u8]), SnapshotFault> {
    let (most, rest) = read_eight(bytes)?;
    let (is_lenient, rest) = read_eight(rest)?;
    let (capacity, rest) = read_short(rest)?;
    let (window, rest) = read_short_option(rest)?;
    let (max_conns, rest) = read_eight(rest)?;
    let (max_sessions, rest) = read_eight(rest)?;
    let numbers = Numbers {
        most,
        is_lenient,
        capacity,
        window,
        max_conns: max_conns as usize,
        max_sessions: max_sessions as usize,
    };
    Ok((numbers, rest))
}

// The limits of messages, and the times.
#[derive(Clone, Copy)]
struct Bounds {
    when_full: WhenFull,
    connect_within: Option<u64>,
    session_expiry: Option<u64>,
    most_stored: Option<u64>,
    most_waiting: Option<u64>,
    most_matches: Option<u64>,
}

// Reads the limits of messages, and the times.
fn read_bounds(bytes: &[u8]) -> Result<(Bounds, &[u8]), SnapshotFault> {
    let (when_full, rest) = read_eight(bytes)?;
    let (connect_within, rest) = read_option(rest)?;
    let (session_expiry, rest) = read_option(rest)?;
    let (most_stored, rest) = read_option(rest)?;
    let (most_waiting, rest) = read_option(rest)?;
    let (most_matches, rest) = read_option(rest)?;
    let bounds = Bounds {
        when_full: when_full_of(when_full),
        connect_within,
        session_expiry,
        most_stored,
        most_waiting,
        most_matches,
    };
    Ok((bounds, rest))
}

// A configuration of which these bytes may be the encoding.
fn read_fields(alloc: Global, bytes: &[u8]) -> Result<HubConfig, SnapshotFault> {
    let (numbers, rest) = read_numbers(bytes)?;
    let limits = limits_of(numbers.most, numbers.is_lenient)?;
    let (bounds, rest) = read_bounds(rest)?;
    let (users, rest) = read_user_table(alloc, rest)?;
    let (hashed_users, _) = read_hashed_table(alloc, rest)?;
    Ok(HubConfig {
        limits,
        capacity: numbers.capacity,
        window: numbers.window,
        max_conns: numbers.max_conns,
        max_sessions: numbers.max_sessions,
        users,
        hashed_users,
        when_full: bounds.when_full,
        connect_within: bounds.connect_within,
        session_expiry: bounds.session_expiry,
        most_stored: bounds.most_stored,
        most_waiting: bounds.most_waiting,
        most_matches: bounds.most_matches,
    })
}

// Whether a broker may have this configuration.
fn is_usable(config: &HubConfig) -> bool
    ensures capacity { IsTrue result → 0 < config.now.capacity }
    ensures window { IsTrue result → IfSome config.now.window (λ window. 0 < window) }
{
    let is_open = match config.window {
        Some(window) => window > 0,
        None => true,
    };
    config.capacity > 0 && is_open
}

/// Reads a configuration with which a broker can be made. `Malformed` if the bytes are no encoding
/// of one.
pub(crate) fn read_config(alloc: Global, bytes: &[u8]) -> Result<HubConfig, SnapshotFault>
    ensures bytes { IfOk result (λ config. config_bytes config ≡ bytes.now) }
    ensures capacity { IfOk result (λ config. 0 < config.capacity) }
    ensures window { IfOk result (λ config. IfSome config.window (λ window. 0 < window)) }
{
    let config = read_fields(alloc, bytes)?;
    // The encoding of the fields that were read decides whether these bytes are one.
    let again = config_bytes(alloc, &config)?;
    if again.as_slice() == bytes && is_usable(&config) {
        Ok(config)
    } else {
        Err(SnapshotFault::Malformed)
    }
}
