//! The configuration of a broker as bytes.

ghost use Rattle.std.specs.Prelude.{◌≡◌, ◌++◌, OnOk, IfOk};
ghost use Rattle.mq_store.specs.Prelude.{eight, bool_number, bound_bytes, config_bytes, hashed_bytes, hashed_table, hashed_users_bytes, limit_bytes, option_bytes, packet_bytes, text_bytes, user_bytes, user_table, users_bytes, when_full_number};

use mq_decode::Limits;
use mq_end::BoxedList;
use mq_route::{HashedUser, HubConfig, User, WhenFull};
use mq_snapshot::put_eight;
use std::alloc::{AllocError, Global};

// Appends a number that may be missing.
fn put_option(out: &mut Vec<u8>, number: Option<u64>) -> Result<(), AllocError>
    ensures { OnOk result (out.new.items ≡ out.old.items ++ option_bytes number) }
{
    match number {
        None => put_eight(out, 0),
        Some(number) => {
            put_eight(out, 1)?;
            put_eight(out, number)
        }
    }
}

/// Appends bytes behind their number.
pub(crate) fn put_text(out: &mut Vec<u8>, bytes: &[u8]) -> Result<(), AllocError>
    ensures { OnOk result (out.new.items ≡ out.old.items ++ text_bytes bytes.now) }
{
    put_eight(out, bytes.len() as u64)?;
    out.extend_from_slice(bytes)?;
    Ok(())
}

fn put_user(out: &mut Vec<u8>, user: &User) -> Result<(), AllocError>
    ensures { OnOk result (out.new.items ≡ out.old.items ++ user_bytes user.now) }
{
    put_text(out, user.name.as_str().as_bytes())?;
    put_text(out, user.password.as_slice())
}

fn put_hashed_user(out: &mut Vec<u8>, user: &HashedUser) -> Result<(), AllocError>
    ensures { OnOk result (out.new.items ≡ out.old.items ++ hashed_bytes user.now) }
{
    put_text(out, user.name.as_str().as_bytes())?;
    put_text(out, user.salt.as_slice())?;
    put_text(out, &user.digest)
}

fn put_users(out: &mut Vec<u8>, users: &[User]) -> Result<(), AllocError>
    ensures { OnOk result (out.new.items ≡ out.old.items ++ users_bytes users.now) }
{
    for user in users {
        put_user(out, user)?;
    }
    Ok(())
}

fn put_hashed_users(out: &mut Vec<u8>, users: &[HashedUser]) -> Result<(), AllocError>
    ensures { OnOk result (out.new.items ≡ out.old.items ++ hashed_users_bytes users.now) }
{
    for user in users {
        put_hashed_user(out, user)?;
    }
    Ok(())
}

// Appends the users that may connect, if they are restricted.
fn put_user_table(out: &mut Vec<u8>, users: &Option<BoxedList<User>>) -> Result<(), AllocError>
    ensures { OnOk result (out.new.items ≡ out.old.items ++ user_table users.now) }
{
    match users {
        None => put_eight(out, 0),
        Some(users) => {
            let users = users.as_slice();
            put_eight(out, 1)?;
            put_eight(out, users.len() as u64)?;
            put_users(out, users)
        }
    }
}

// Appends the users with digests that may connect, if they are restricted.
fn put_hashed_table(
    out: &mut Vec<u8>,
    users: &Option<BoxedList<HashedUser>>,
) -> Result<(), AllocError>
    ensures { OnOk result (out.new.items ≡ out.old.items ++ hashed_table users.now) }
{
    match users {
        None => put_eight(out, 0),
        Some(users) => {
            let users = users.as_slice();
            put_eight(out, 1)?;
            put_eight(out, users.len() as u64)?;
            put_hashed_users(out, users)
        }
    }
}

fn bool_number(value: bool) -> u64
    ensures { result ≡ bool_number value }
{
    if value { 1 } else { 0 }
}

fn when_full_number(choice: WhenFull) -> u64
    ensures { result ≡ when_full_number choice }
{
    match choice {
        WhenFull::ClosePublisher => 0,
        WhenFull::DropCopy => 1,
    }
}

fn wide(number: Option<u16>) -> Option<u64>
    ensures { result ≡ number }
{
    match number {
        None => None,
        Some(number) => Some(u64::from(number)),
    }
}

// Appends the limits of packets.
fn put_packets(out: &mut Vec<u8>, limits: Limits) -> Result<(), AllocError>
    ensures { OnOk result (out.new.items ≡ out.old.items ++ packet_bytes limits) }
{
    put_eight(out, u64::from(limits.max_packet()))?;
    put_eight(out, bool_number(limits.is_lenient()))
}

// Appends the limits of packets, sessions and connections.
fn put_limits(out: &mut Vec<u8>, config: &HubConfig) -> Result<(), AllocError>
    ensures { OnOk result (out.new.items ≡ out.old.items ++ limit_bytes config.now) }
{
    put_packets(out, config.limits)?;
    put_eight(out, u64::from(config.capacity))?;
    put_option(out, wide(config.window))?;
    put_eight(out, config.max_conns as u64)?;
    put_eight(out, config.max_sessions as u64)
}

// Appends the limits of messages, and the times.
fn put_bounds(out: &mut Vec<u8>, config: &HubConfig) -> Result<(), AllocError>
    ensures { OnOk result (out.new.items ≡ out.old.items ++ bound_bytes config.now) }
{
    put_eight(out, when_full_number(config.when_full))?;
    put_option(out, config.connect_within)?;
    put_option(out, config.session_expiry)?;
    put_option(out, config.most_stored)?;
    put_option(out, config.most_waiting)?;
    put_option(out, config.most_matches)
}

/// A configuration as bytes.
pub fn config_bytes(alloc: Global, config: &HubConfig) -> Result<Vec<u8>, AllocError>
    ensures { IfOk result (λ out. out.items ≡ config_bytes config.now) }
{
    let mut out = Vec::new(alloc);
    put_limits(&mut out, config)?;
    put_bounds(&mut out, config)?;
    put_user_table(&mut out, &config.users)?;
    put_hashed_table(&mut out, &config.hashed_users)?;
    Ok(out)
}
