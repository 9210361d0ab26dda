//! Session savers.

ghost use Rattle.std.specs.Prelude.{ℕ, List, Option, None, [], ◌∷◌, OnErr, OnOk};
ghost use Rattle.mq_client.specs.Prelude.{Holds, saved_of};

use mq_end::ClientEnd;
use std::alloc::Global;
use std::io::ErrorKind;
use thiserror::Error;

/// Why a session was not saved.
#[derive(Clone, Copy, Debug, PartialEq, Eq, Error)]
pub enum SaveError {
    /// It could not be written.
    #[error("the session was not written: {0}")]
    Unwritten(ErrorKind),
    /// An allocation failed.
    #[error("out of memory")]
    Memory,
}

/// Saves the session of a client, for example to a file.
pub trait SessionSaver {
    /// The bytes that are saved, if they are known.
    ghost kept: { Self → Option (List ℕ) } = { λ _. None };

    /// Saves the session of the client as it is now. A [`Peer`](crate::Peer) calls this each time
    /// before it sends bytes, also if the session has not changed. After an error it sends nothing.
    fn keep(&mut self, client: &ClientEnd) -> Result<(), SaveError>
        ensures ok { OnOk result (Holds (kept self.old) (kept self.new) (saved_of client.now ∷ [])) }
        ensures err { OnErr result (Holds (kept self.old) (kept self.new) []) };
}

/// Saves nothing: the session ends with the program.
#[derive(Clone, Copy, Debug, PartialEq, Eq)]
pub struct NoSaver;

impl SessionSaver for NoSaver {
    fn keep(&mut self, _client: &ClientEnd) -> Result<(), SaveError> {
        Ok(())
    }
}

/// A place for the saved form of one session.
pub trait Store {
    /// The bytes that are stored, if they are known.
    ghost stands: { Self → Option (List ℕ) } = { λ _. None };

    /// Replaces the stored bytes by these. After an error the old ones are still stored.
    fn replace(&mut self, form: Vec<u8>) -> Result<(), SaveError>
        ensures ok { OnOk result (Holds (stands self.old) (stands self.new) (form.items ∷ [])) }
        ensures err { OnErr result (Holds (stands self.old) (stands self.new) []) };
}

/// Saves the whole session to a store, each time anew.
#[derive(Drop)]
pub struct SavingTo<S: Store> {
    /// The allocator of the saved form.
    pub alloc: Global,
    /// The store.
    pub store: S,
}

impl<S: Store> SessionSaver for SavingTo<S> {
    ghost kept = { λ s. S.stands s.store };

    fn keep(&mut self, client: &ClientEnd) -> Result<(), SaveError> {
        let mut form = Vec::new(self.alloc);
        if client.save(&mut form).is_err() {
            return Err(SaveError::Memory);
        }
        self.store.replace(form)
    }
}
