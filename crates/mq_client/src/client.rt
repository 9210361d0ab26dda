//! The client of the programs: new, or with a saved session.

ghost use Rattle.std.specs.Prelude.{◌≡◌, ℕ, List, true, IfErr, IfOk, MatchOption};
ghost use Rattle.mq_client.specs.Prelude.{unloaded_status, Contains, IsMissing, marked_form, CanGoOn, GoesOn, IsNewClient, program_config};
ghost use Rattle.mq_flow.specs.declared.saved.Saved as value;

use crate::disk::Disk;
use crate::lines::write_bytes;
use mq_decode::Limits;
use mq_end::{ClientConfig, ClientEnd};
use mq_flow::{LoadError, Saved};
use mq_wire::Text;
use std::alloc::{AllocError, Global};
use std::io;
use std::io::ErrorKind;
use thiserror::Error;

/// The maximum remaining length of packets that are sent or received (2.2.3).
const MOST_PACKET: u32 = 1_048_576;

/// The maximum number of packet identifiers in use, for a new session (2.3.1).
const CAPACITY: u16 = 100;

/// Keep-alive in seconds (3.1.2.10).
const KEEP_ALIVE: u16 = 60;

/// Why a session was not loaded.
#[derive(Clone, Copy, Debug, PartialEq, Eq, Error)]
pub enum LoadFailure {
    /// The file could not be read.
    #[error("the file was not read: {0}")]
    Unread(ErrorKind),
    /// Its bytes are not a session that the client can continue with.
    #[error("{0}")]
    Session(LoadError),
    /// An allocation failed.
    #[error("out of memory")]
    Memory,
}

impl LoadFailure {
    /// The status of the program: 3 for `Memory`, else 2.
    pub fn status(self) -> u8
        ensures { result ≡ unloaded_status self }
    {
        match self {
            LoadFailure::Memory => 3,
            LoadFailure::Unread(_) | LoadFailure::Session(_) => 2,
        }
    }
}

// The configuration of the programs' client.
fn config_of(id: Text) -> ClientConfig
    ensures { result ≡ program_config id }
{
    ClientConfig {
        id,
        keep_alive: KEEP_ALIVE,
        will: None,
        login: None,
        limits: Limits::new(MOST_PACKET).unwrap(),
        capacity: CAPACITY,
        window: None,
    }
}

/// A client with this identifier, without a session.
pub fn new_client(alloc: Global, id: &Text) -> Result<ClientEnd, AllocError>
    ensures { IfOk result (IsNewClient id.now) }
{
    Ok(ClientEnd::new(alloc, config_of(id.clone()?)))
}

/// A client with this identifier and the session that `bytes` are the saved form of (4.1).
pub fn saved_client(alloc: Global, id: &Text, bytes: &[u8]) -> Result<ClientEnd, LoadError>
    ensures ok { IfOk result (GoesOn id.now bytes.now) }
    ensures loads { (saved : value.Saved) → CanGoOn id.now bytes.now saved
        → IfErr result (λ why. why ≡ LoadError.Memory) }
{
    let saved = Saved::load(alloc, bytes)?;
    match id.clone() {
        Ok(id) => ClientEnd::with_saved(alloc, config_of(id), saved),
        Err(_) => Err(LoadError::Memory),
    }
}

// The failure of a file that could not be read.
fn unread(error: &io::Error) -> LoadFailure {
    match error.kind() {
        ErrorKind::OutOfMemory => LoadFailure::Memory,
        kind => LoadFailure::Unread(kind),
    }
}

/// The client with the session in a file.
#[derive(Drop)]
pub struct Loaded {
    /// The client.
    pub client: ClientEnd,
    /// The file says that the server lost the session.
    pub is_lost: bool,
}

// The form of a session without its mark, and whether it has one.
fn unmarked(bytes: &[u8]) -> (&[u8], bool)
    ensures { bytes.now ≡ marked_form result.1 result.0.now }
{
    match bytes {
        [b'L', b'O', b'S', b'T', form @ ..] => (form, true),
        _ => (bytes, false),
    }
}

/// The form of a session, with the mark that the server lost it.
pub(crate) fn lost_form(alloc: Global, form: &[u8]) -> io::Result<Vec<u8>>
    ensures { IfOk result (λ marked. marked.items ≡ marked_form true form.now) }
{
    let mut marked = Vec::new(alloc);
    write_bytes(&mut marked, b"LOST")?;
    write_bytes(&mut marked, form)?;
    Ok(marked)
}

/// A client with this identifier and the session in a file. Returns `None` only if there is no file
/// of this name.
pub fn load<D: Disk>(
    alloc: Global,
    disk: &D,
    name: &str,
    id: &Text,
) -> Result<Option<Loaded>, LoadFailure>
    ensures { IfOk result (λ found. MatchOption found (IsMissing (D.history disk.now) name.now)
        (λ loaded. (form : List ℕ)
        × Contains (D.history disk.now) name.now (marked_form loaded.is_lost form)
        × GoesOn id.now form loaded.client)) }
{
    match disk.read(alloc, name) {
        Ok(Some(bytes)) => {
            let (form, is_lost) = unmarked(bytes.as_slice());
            match saved_client(alloc, id, form) {
                Ok(client) => Ok(Some(Loaded { client, is_lost })),
                Err(LoadError::Memory) => Err(LoadFailure::Memory),
                Err(why) => Err(LoadFailure::Session(why)),
            }
        }
        Ok(None) => Ok(None),
        Err(error) => Err(unread(&error)),
    }
}
