//! The file of passwords.

ghost use Rattle.std.specs.Prelude.{◌≡◌, ◌++◌, ◌↔◌, true, false, map, Ok, IfOk, IfErr, IsErrOf};
ghost use Rattle.mq_status.specs.Prelude.{string_bytes, list_all, result_ok, lines, decode_sized, sha256, Adds, AreTablesOf, Gives, PasswordLaws, ReadsTables, Refuses, RefusesLine, RefusesLines, accepts, entry_of, field_in, file_gives, fits, hash_in, is_field, is_field_byte, is_name, is_skipped, line_gives, lines_give, name_in, password_line, plain_of, stored_in};

use bytes::Bytes;
use hex::FromHex;
use mq_end::BoxedList;
use mq_packet::Binary;
use mq_route::{HashedUser, User};
use mq_wire::{Text, TextFault};
use sha2::{Digest, Sha256};
use simdutf8::basic::from_utf8;
use std::alloc::{AllocError, AllocFailed, Global};
use thiserror::Error;

/// Why a line of the file is wrong.
#[derive(Clone, Copy, Debug, PartialEq, Eq, Error)]
pub enum PasswordFault {
    /// The line has no colon.
    #[error("no colon follows the name")]
    NoColon,
    /// The name is empty.
    #[error("the name is empty")]
    NoName,
    /// The name has more than 65,535 bytes or contains U+0000 (1.5.3).
    #[error("the name is not a text of MQTT")]
    NotText,
    /// The password has more than 65,535 bytes (3.1.3.5).
    #[error("the password has over 65,535 bytes")]
    TooLong,
    /// `sha256:` is not followed by a salt, a colon and 64 hexadecimal digits.
    #[error("a salt, a colon and 64 hexadecimal digits must follow \"sha256:\"")]
    NotHash,
}

/// Why a file of passwords can't be used. No password appears in the text.
#[derive(Debug, Drop, Error)]
pub enum PasswordsError {
    /// A line is wrong. Lines are counted from 1.
    #[error("line {line}: {fault}")]
    Line { line: usize, fault: PasswordFault },
    /// The file is not UTF-8.
    #[error("the file is not UTF-8")]
    NotUtf8,
    /// An allocation failed.
    #[error("out of memory")]
    Memory,
}

impl From<AllocError> for PasswordsError {
    ghost use Rattle.std.specs.Prelude.{◌≡◌};
    ghost use Rattle.mq_status.specs.declared.passwords.PasswordsError.TheVariants.{Memory};

    ghost from_gives = { λ _ e. e ≡ Memory };

    fn from(_e: AllocError) -> PasswordsError {
        PasswordsError::Memory
    }
}

impl<T: Drop> From<AllocFailed<T>> for PasswordsError {
    ghost use Rattle.std.specs.Prelude.{◌≡◌};
    ghost use Rattle.mq_status.specs.declared.passwords.PasswordsError.TheVariants.{Memory};

    ghost from_gives = { λ _ e. e ≡ Memory };

    fn from(_e: AllocFailed<T>) -> PasswordsError {
        PasswordsError::Memory
    }
}

// Why a line gives no entry.
#[derive(Drop)]
enum LineError {
    Fault(PasswordFault),
    Memory,
}

impl From<AllocError> for LineError {
    ghost use Rattle.std.specs.Prelude.{◌≡◌};
    ghost use Rattle.mq_status.specs.declared.passwords.LineError.TheVariants.{Memory};

    ghost from_gives = { λ _ e. e ≡ Memory };

    fn from(_e: AllocError) -> LineError {
        LineError::Memory
    }
}

/// A stored password.
#[derive(Drop)]
pub enum Stored {
    /// The password.
    Plain(Binary),
    /// The SHA-256 digest of the salt followed by the password.
    Sha256 { salt: Binary, digest: [u8; 32] },
}

/// An entry of the file.
#[derive(Drop)]
pub struct PasswordEntry {
    /// The number of its line, from 1 on.
    pub line: usize,
    /// The user name (3.1.3.4).
    pub name: Text,
    /// The password.
    pub stored: Stored,
}

// The digest of a salt followed by a password.
fn digest_of(salt: &[u8], password: &[u8]) -> [u8; 32]
    ensures { result ≡ sha256 (salt.now ++ password.now) }
{
    let mut hasher = Sha256::new();
    hasher.update(salt);
    hasher.update(password);
    hasher.finalize()
}

impl Stored {
    /// Returns whether this is the stored password.
    pub fn check(&self, password: &[u8]) -> bool
        ensures { result ≡ accepts self.now password.now }
    {
        match self {
            Stored::Plain(stored) => stored.as_slice() == password,
            Stored::Sha256 { salt, digest } => {
                digest.as_slice() == digest_of(salt.as_slice(), password).as_slice()
            }
        }
    }
}

// Copies a password or a salt.
fn copy_field(alloc: Global, text: &str) -> Result<Binary, LineError>
    ensures { Gives (field_in text.now) result }
{
    let bytes = Bytes::copy_from_slice(alloc, text.as_bytes())?;
    match Binary::new(bytes) {
        Some(field) => Ok(field),
        None => Err(LineError::Fault(PasswordFault::TooLong)),
    }
}

// Reads `HEX`.
fn read_digest(digits: &str) -> Option<[u8; 32]>
    ensures { result ≡ result_ok (decode_sized digits.now 32) }
{
    <[u8; 32] as FromHex>::from_hex(digits).ok()
}

// Reads `SALT:HEX`.
fn read_hash(alloc: Global, text: &str) -> Result<Stored, LineError>
    ensures { Gives (hash_in text.now) result }
{
    let Some((salt, digits)) = text.split_once(':') else {
        return Err(LineError::Fault(PasswordFault::NotHash));
    };
    let Some(digest) = read_digest(digits) else {
        return Err(LineError::Fault(PasswordFault::NotHash));
    };
    let salt = copy_field(alloc, salt)?;
    Ok(Stored::Sha256 { salt, digest })
}

// Reads a plain password.
fn read_plain(alloc: Global, text: &str) -> Result<Stored, LineError>
    ensures { Gives (plain_of (field_in text.now)) result }
{
    match copy_field(alloc, text) {
        Ok(password) => Ok(Stored::Plain(password)),
        Err(error) => Err(error),
    }
}

// Reads a stored password, plain or hashed.
fn read_stored(alloc: Global, text: &str) -> Result<Stored, LineError>
    ensures { Gives (stored_in text.now) result }
{
    if let Some((kind, hash)) = text.split_once(':') {
        if kind == "sha256" {
            return read_hash(alloc, hash);
        }
    }
    read_plain(alloc, text)
}

// Reads a name.
fn read_name(alloc: Global, text: &str) -> Result<Text, LineError>
    ensures { Gives (name_in text.now) result }
{
    if text.is_empty() {
        return Err(LineError::Fault(PasswordFault::NoName));
    }
    match Text::new(alloc, text) {
        Ok(name) => Ok(name),
        Err(TextFault::Memory) => Err(LineError::Memory),
        Err(TextFault::TooLong) => Err(LineError::Fault(PasswordFault::NotText)),
        Err(TextFault::Nul) => Err(LineError::Fault(PasswordFault::NotText)),
    }
}

// Returns whether a line is empty or a comment.
fn is_skipped(line: &str) -> bool
    ensures { result ≡ is_skipped line.now }
{
    let bytes = line.as_bytes();
    bytes.is_empty() || bytes[0] == b'#'
}

// Reads an entry.
fn read_entry(
    alloc: Global,
    number: usize,
    name: &str,
    password: &str,
) -> Result<PasswordEntry, LineError>
    ensures { Gives (entry_of number (name_in name.now) (stored_in password.now)) result }
{
    let name = read_name(alloc, name)?;
    let stored = read_stored(alloc, password)?;
    Ok(PasswordEntry {
        line: number,
        name,
        stored,
    })
}

// Reads a line.
fn read_line(alloc: Global, number: usize, line: &str) -> Result<Option<PasswordEntry>, LineError>
    ensures { Gives (line_gives number line.now) result }
{
    if is_skipped(line) {
        return Ok(None);
    }
    match line.split_once(':') {
        Some((name, password)) => match read_entry(alloc, number, name, password) {
            Ok(entry) => Ok(Some(entry)),
            Err(error) => Err(error),
        },
        None => Err(LineError::Fault(PasswordFault::NoColon)),
    }
}

// The lines of a text.
fn lines_of(alloc: Global, text: &str) -> Result<Vec<&str>, AllocError>
    ensures { IfOk result (λ parts. map (λ x. x.now) parts.items ≡ lines text.now) }
{
    text.lines().collect(alloc)
}

// Reads a line, and adds its entry, if it has one.
fn push_line(
    alloc: Global,
    number: usize,
    line: &str,
    entries: &mut Vec<PasswordEntry>,
) -> Result<(), PasswordsError>
    ensures entries { IfOk result (λ _.
        Adds (line_gives number line.now) entries.old.items entries.new.items) }
    ensures refusal { IfErr result (RefusesLine number (line_gives number line.now)) }
{
    match read_line(alloc, number, line) {
        Ok(None) => Ok(()),
        Ok(Some(entry)) => Ok(entries.push(entry)?),
        Err(LineError::Fault(fault)) => Err(PasswordsError::Line {
            line: number,
            fault,
        }),
        Err(LineError::Memory) => Err(PasswordsError::Memory),
    }
}

// Reads lines.
#[tactic(auto, using(crate::proofs::Joined::behind_none, crate::proofs::Joined::line_next, crate::proofs::Joined::line_refused))]
fn read_lines(alloc: Global, lines: &[&str]) -> Result<Vec<PasswordEntry>, PasswordsError>
    ensures entries { IfOk result (λ entries.
        lines_give 1 (map (λ x. x.now) lines.now) ≡ Ok entries.items) }
    ensures refusal { IfErr result (RefusesLines (lines_give 1 (map (λ x. x.now) lines.now))) }
{
    let mut entries = Vec::new(alloc);
    for (index, line) in lines.iter().enumerate() {
        if let Err(error) = push_line(alloc, index + 1, *line, &mut entries) {
            return Err(error);
        }
    }
    Ok(entries)
}

/// Reads a file of passwords. A line is `NAME:PASSWORD` or `NAME:sha256:SALT:HEX`, where HEX is the
/// SHA-256 digest of SALT followed by the password, in hexadecimal. Empty lines and lines that
/// begin with `#` are skipped. A name may have several lines, each with a password of its own.
pub fn read_passwords(alloc: Global, file: &[u8]) -> Result<Vec<PasswordEntry>, PasswordsError>
    ensures entries { IfOk result (λ entries. file_gives file.now ≡ Ok entries.items) }
    ensures refusal { IfErr result (Refuses file.now) }
{
    let Ok(text) = from_utf8(file) else {
        return Err(PasswordsError::NotUtf8);
    };
    let lines = lines_of(alloc, text)?;
    read_lines(alloc, lines.as_slice())
}

/// The users that may connect to a broker: its two tables.
#[derive(Drop)]
pub struct UserTables {
    /// The users with plain passwords.
    pub users: BoxedList<User>,
    /// The users whose passwords are stored as digests.
    pub hashed_users: BoxedList<HashedUser>,
}

// The tables with the users of the entries, in order.
#[tactic(auto, using(crate::proofs::Logins::one_more))]
fn tables_of(alloc: Global, entries: Vec<PasswordEntry>) -> Result<UserTables, AllocError>
    ensures { IfOk result (λ tables.
        AreTablesOf entries.items tables.users tables.hashed_users) }
{
    let mut users = Vec::new(alloc);
    let mut hashed_users = Vec::new(alloc);
    for entry in entries {
        let PasswordEntry { name, stored, .. } = entry;
        match stored {
            Stored::Plain(password) => users.push(User { name, password })?,
            Stored::Sha256 { salt, digest } => {
                hashed_users.push(HashedUser { name, salt, digest })?;
            }
        }
    }
    Ok(UserTables {
        users: BoxedList::from_vec(users),
        hashed_users: BoxedList::from_vec(hashed_users),
    })
}

/// Reads a file of passwords, as [`read_passwords`] does. Returns the tables of a broker, which
/// accepts a login if and only if a line of the file does.
#[tactic(auto, using(crate::proofs::Logins::read_tables))]
pub fn read_users(alloc: Global, file: &[u8]) -> Result<UserTables, PasswordsError>
    ensures tables { IfOk result (λ tables.
        ReadsTables file.now tables.users tables.hashed_users) }
    ensures refusal { IfErr result (Refuses file.now) }
{
    let entries = read_passwords(alloc, file)?;
    Ok(tables_of(alloc, entries)?)
}

/// The laws of files of passwords: the tables of the entries refuse the logins that no entry
/// accepts, and a line that [`password_line`] returns reads as its name, salt and digest.
pub fn password_laws()
    ensures { PasswordLaws }
{}

/// Why a line of a file of passwords can't be written.
#[derive(Debug, Drop, Error)]
pub enum PasswordLineError {
    /// The name is empty, begins with `#`, has over 65,535 bytes, or has a colon or a control
    /// character.
    #[error("the name is not allowed in a file of passwords")]
    Name,
    /// The salt has over 65,535 bytes, or has a colon or a control character.
    #[error("the salt is not allowed in a file of passwords")]
    Salt,
    /// The password has over 65,535 bytes, so no CONNECT can have it (3.1.3.5).
    #[error("the password has over 65,535 bytes")]
    Password,
    /// An allocation failed.
    #[error("out of memory")]
    Memory,
}

impl From<AllocError> for PasswordLineError {
    ghost use Rattle.std.specs.Prelude.{◌≡◌};
    ghost use Rattle.mq_status.specs.declared.passwords.PasswordLineError.TheVariants.{Memory};

    ghost from_gives = { λ _ e. e ≡ Memory };

    fn from(_e: AllocError) -> PasswordLineError {
        PasswordLineError::Memory
    }
}

// Returns whether a byte can be part of a field of a line.
fn is_field_byte(byte: u8) -> bool
    ensures { result ≡ is_field_byte byte }
{
    byte >= 32 && byte != b':'
}

// Returns whether each byte can be part of a field of a line.
fn has_field_bytes(text: &[u8]) -> bool
    ensures { result ≡ list_all is_field_byte text.now }
{
    text.iter().all(|byte| is_field_byte(*byte))
}

// Returns whether a text can be a field of a line.
fn is_field(text: &str) -> bool
    ensures { result ≡ is_field text.now }
{
    text.len() <= 65_535 && has_field_bytes(text.as_bytes())
}

// Returns whether a text can be the name in a line.
fn is_name(text: &str) -> bool
    ensures { result ≡ is_name text.now }
{
    !is_skipped(text) && is_field(text)
}

/// Returns the line `NAME:sha256:SALT:HEX`, without a line end, for a file of passwords. The salt
/// should be random, and of at least 16 characters.
pub fn password_line(
    alloc: Global,
    name: &str,
    salt: &str,
    password: &[u8],
) -> Result<String, PasswordLineError>
    ensures line { IfOk result (λ line.
        string_bytes line ≡ password_line name.now salt.now password.now) }
    ensures name { IsErrOf result PasswordLineError.Name ↔ (is_name name.now ≡ false) }
    ensures salt { IsErrOf result PasswordLineError.Salt
        ↔ ((is_name name.now ≡ true) × (is_field salt.now ≡ false)) }
    ensures password { IsErrOf result PasswordLineError.Password
        ↔ ((is_name name.now ≡ true) × (is_field salt.now ≡ true) × (fits password.now ≡ false)) }
{
    if !is_name(name) {
        return Err(PasswordLineError::Name);
    }
    if !is_field(salt) {
        return Err(PasswordLineError::Salt);
    }
    if password.len() > 65_535 {
        return Err(PasswordLineError::Password);
    }
    let digest = digest_of(salt.as_bytes(), password);
    let digits = hex::encode(alloc, digest.as_slice())?;
    Ok(format!(in alloc; "{name}:sha256:{salt}:{digits}")?)
}
