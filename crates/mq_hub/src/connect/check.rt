//! The checks of a CONNECT, and the client identifier of its session (3.1.3.1, 3.1.3.4, 3.2.2.3).

ghost use Rattle.std.specs.Prelude.{◌≡◌, ℕ, ◌==◌, ◌&&◌, ◌++◌, not, Option, length, IfOk};
ghost use Rattle.mq_hub.specs.Prelude.{list_any, HubState, key_of, sessions_of, IsCounted, IsStatusOf, client_of, has_digest, has_password, is_hashed_login, is_hashed_one, is_one_of, is_unavailable, login_refusal, made_up, made_up_from, refusal, refusal_by_tables, sha256};

use mq_packet::{Connect, Login, RefusalCode};
use mq_route::{HashedUser, HubConfig, User};
use mq_tables::Sessions;
use mq_wire::Text;
use sha2::{Digest, Sha256};
use std::alloc::{AllocError, Global};

// The client identifier that the broker makes from a number (3.1.3.1).
fn made_up(alloc: Global, number: usize) -> Result<Text, AllocError>
    ensures { IfOk result (λ name. name ≡ made_up number) }
{
    let mut text = String::new(alloc);
    write!(text, "auto-{}", number)?;
    match Text::new(alloc, text.as_str()) {
        Ok(text) => Ok(text),
        Err(_) => Err(AllocError),
    }
}

// The made-up client identifier with the least number that no session has (3.1.3.1).
fn least_made_up(alloc: Global, sessions: &Sessions) -> Result<Text, AllocError>
    ensures { IfOk result (λ name. name
        ≡ made_up_from (length (sessions_of sessions.now.list)) 0 (sessions_of sessions.now.list)) }
{
    let most = sessions.len();
    for number in 0..most {
        let name = made_up(alloc, number)?;
        if sessions.key_of(&name).is_none() {
            return Ok(name);
        }
    }
    made_up(alloc, most)
}

/// Returns the client identifier of the session that a CONNECT is for: its own, or one that the
/// broker makes up if it is empty (3.1.3.1).
pub(crate) fn client_of(
    alloc: Global,
    connect: &Connect,
    sessions: &Sessions,
) -> Result<Text, AllocError>
    ensures { IfOk result (λ name. name ≡ client_of connect.now (sessions_of sessions.now.list)) }
{
    if connect.client_id.as_str().is_empty() {
        return least_made_up(alloc, sessions);
    }
    connect.client_id.clone()
}

// Whether one of these users has this name and this password (3.1.3.4, 3.1.3.5).
fn has_user(users: &[User], name: &str, password: &[u8]) -> bool
    ensures { result ≡ list_any (has_password name.now password.now) users.now }
{
    users.iter().any(
        |user: &User| -> bool
            ensures { result ≡ has_password name.entry.now password.entry.now user.now }
        { user.name.as_str() == name && user.password.as_slice() == password },
    )
}

fn is_one_of(users: &[User], login: &Login) -> bool
    ensures { result ≡ is_one_of users.now login.now.name login.now.password }
{
    match &login.password {
        Some(password) => has_user(users, login.name.as_str(), password.as_slice()),
        None => false,
    }
}

// The code for a login that must be one of these users.
fn refusal_of(users: &[User], login: &Option<Login>) -> Option<RefusalCode>
    ensures { result ≡ login_refusal (Some users.now) login.now }
{
    match login {
        None => Some(RefusalCode::NotAuthorized),
        Some(login) if is_one_of(users, login) => None,
        Some(_) => Some(RefusalCode::BadUserNameOrPassword),
    }
}

// SHA-256 of a salt followed by a password.
fn digest_of(salt: &[u8], password: &[u8]) -> [u8; 32]
    ensures { result ≡ sha256 (salt.now ++ password.now) }
{
    let mut hasher = Sha256::new();
    hasher.update(salt);
    hasher.update(password);
    hasher.finalize()
}

// Whether the user has this name and this password (3.1.3.4, 3.1.3.5).
fn has_digest(user: &HashedUser, name: &str, password: &[u8]) -> bool
    ensures { result ≡ has_digest name.now password.now user.now }
{
    user.name.as_str() == name
        && user.digest.as_slice() == digest_of(user.salt.as_slice(), password).as_slice()
}

fn is_hashed_one(users: &[HashedUser], name: &str, password: &[u8]) -> bool
    ensures { result ≡ list_any (has_digest name.now password.now) users.now }
{
    users.iter().any(
        |user: &HashedUser| -> bool
            ensures { result ≡ has_digest name.entry.now password.entry.now user.now }
        { has_digest(user, name, password) },
    )
}

fn is_hashed_login(users: &[HashedUser], login: &Option<Login>) -> bool
    ensures { result ≡ is_hashed_login users.now login.now }
{
    let Some(login) = login else {
        return false;
    };
    match &login.password {
        Some(password) => is_hashed_one(users, login.name.as_str(), password.as_slice()),
        None => false,
    }
}

/// Returns the code with which the login of a CONNECT is refused (3.1.3.4, 3.1.3.5). Without tables
/// of users every login is accepted.
pub(crate) fn login_refusal(config: &HubConfig, connect: &Connect) -> Option<RefusalCode>
    ensures { result
        ≡ refusal_by_tables config.now.users config.now.hashed_users connect.now.login }
{
    match (&config.users, &config.hashed_users) {
        (None, None) => None,
        (Some(users), None) => refusal_of(users.as_slice(), &connect.login),
        (_, Some(hashed)) if is_hashed_login(hashed.as_slice(), &connect.login) => None,
        (Some(users), Some(_)) => refusal_of(users.as_slice(), &connect.login),
        (None, Some(_)) => refusal_of(&[], &connect.login),
    }
}

/// The numbers that limit who may connect.
#[derive(Clone, Copy)]
pub(crate) struct Counts {
    /// The number of connected clients.
    pub(crate) up: usize,
    /// The number of sessions.
    pub(crate) sessions: usize,
    /// The key of the next new session.
    pub(crate) next_key: u64,
}

/// The state of a client's session.
#[derive(Clone, Copy)]
pub(crate) struct SessionStatus {
    /// The client is connected.
    pub(crate) is_up: bool,
    /// The session ends with that connection (3.1.2.4).
    pub(crate) ends: bool,
}

// Whether the broker has no place for the connection or the session, or no key for a new session
// (3.2.2.3).
fn is_unavailable(
    config: &HubConfig,
    connect: &Connect,
    status: Option<SessionStatus>,
    counts: Counts,
) -> bool
    ensures { (h : HubState) (key : Option ℕ) → h.config ≡ config.now → IsCounted counts h → IsStatusOf status key h
        → result ≡ is_unavailable connect.now key h }
{
    let (stands, is_up, ends) = match status {
        Some(status) => (true, status.is_up, status.ends),
        None => (false, false, false),
    };
    let up = counts.up.saturating_sub(if is_up { 1 } else { 0 });
    let needs_new = !stands || connect.clean_session || ends;
    config.max_conns <= up
        || (!stands && config.max_sessions <= counts.sessions)
        || (needs_new && counts.next_key >= 0x1_0000_0000)
}

// Whether the identifier is empty although the session is to continue (3.1.3.1).
fn is_rejected(connect: &Connect) -> bool
    ensures { result ≡ (length connect.now.client_id == 0 && not connect.now.clean_session) }
{
    connect.client_id.as_str().is_empty() && !connect.clean_session
}

/// Returns the code of the first check that a CONNECT fails (3.1.3.1, 3.1.3.4, 3.2.2.3), or `None`
/// if it passes all. `status` is `None` if its client has no session.
pub(crate) fn refusal(
    config: &HubConfig,
    connect: &Connect,
    status: Option<SessionStatus>,
    counts: Counts,
) -> Option<RefusalCode>
    ensures { (h : HubState) → h.config ≡ config.now → IsCounted counts h
        → IsStatusOf status (key_of (client_of connect.now h.sessions) h.sessions) h → result ≡ refusal connect.now h }
{
    if is_rejected(connect) {
        return Some(RefusalCode::IdentifierRejected);
    }
    if let Some(code) = login_refusal(config, connect) {
        return Some(code);
    }
    if is_unavailable(config, connect, status, counts) {
        return Some(RefusalCode::ServerUnavailable);
    }
    None
}
