//! Sessions in files.

use crate::common::said;
use crate::fault::Fault;
use mq_client::{Disk, SessionFile, SessionLock, SystemDisk, linked_name};
use mq_end::ClientEnd;
use mq_flow::{LoadError, Saved};
use mq_pubsub::Setup;
use mq_wire::Text;
use std::alloc::{AllocError, Global};
use std::fs::File;
use std::io::ErrorKind;
use std::rt::Files;

/// The session in a file, which this run alone uses.
#[derive(Drop)]
pub(crate) struct Session<'a, R: Files<File = File>> {
    rt: &'a R,
    alloc: Global,
    /// The name of the file, without symbolic links.
    pub(crate) name: String,
    lock: SessionLock<'a, R>,
    form: Option<Vec<u8>>,
    /// The file says that the broker lost the session.
    pub(crate) is_lost: bool,
}

// The error of a session file.
fn file_fault<'a>(alloc: Global, name: &'a str, why: &'a str, advice: &'a str) -> Fault {
    match format!(in alloc; "the session file '{name}' {why}: {advice}") {
        Ok(said) => Fault::Said(said),
        Err(_) => Fault::Memory,
    }
}

// The form of a session without its mark, and whether it has one.
fn unmarked(alloc: Global, bytes: Vec<u8>) -> Result<(Vec<u8>, bool), Fault> {
    match bytes.as_slice() {
        [b'L', b'O', b'S', b'T', form @ ..] => Ok((form.to_vec(alloc)?, true)),
        _ => Ok((bytes, false)),
    }
}

// A copy of an identifier, if it is there.
fn copy_of(id: &Option<Text>) -> Result<Option<Text>, AllocError> {
    match id {
        Some(id) => Ok(Some(id.clone()?)),
        None => Ok(None),
    }
}

// Takes the lock of the session in a file, which the user knows by this name.
fn lock_of<'a, R: Files<File = File>>(
    rt: &'a R,
    alloc: Global,
    name: &str,
    linked: &str,
) -> Result<SessionLock<'a, R>, Fault> {
    match SessionLock::take(rt, alloc, linked) {
        Ok(Some(lock)) => Ok(lock),
        Ok(None) => {
            let advice = "wait for that run to end, or name another file";
            Err(file_fault(alloc, name, "is used by another run", advice))
        }
        Err(_) => {
            let advice = "check that its folder can be written";
            Err(file_fault(alloc, name, "cannot be locked", advice))
        }
    }
}

// The form of the session in a file, if there is one, and whether the file says that it is lost.
fn form_of<R: Files<File = File>>(
    rt: &R,
    alloc: Global,
    name: &str,
    linked: &str,
) -> Result<(Option<Vec<u8>>, bool), Fault> {
    match SystemDisk(rt).read(alloc, linked) {
        Ok(Some(bytes)) => {
            let (form, is_lost) = unmarked(alloc, bytes)?;
            Ok((Some(form), is_lost))
        }
        Ok(None) => Ok((None, false)),
        Err(error) => match error.kind() {
            ErrorKind::OutOfMemory => Err(Fault::Memory),
            _ => {
                let advice = "check its name and its rights";
                Err(file_fault(alloc, name, "cannot be read", advice))
            }
        },
    }
}

impl<'a, R: Files<File = File>> Session<'a, R> {
    /// The session in the file of this name, if there is one. The run must `close` it, also after
    /// an error.
    pub(crate) fn open(rt: &'a R, alloc: Global, name: &str) -> Result<Session<'a, R>, Fault> {
        let Ok(linked) = linked_name(rt, alloc, name) else {
            return Err(file_fault(alloc, name, "cannot be used", "check its name"));
        };
        let lock = lock_of(rt, alloc, name, linked.as_str())?;
        match form_of(rt, alloc, name, linked.as_str()) {
            Ok((form, is_lost)) => Ok(Session {
                rt,
                alloc,
                name: linked,
                lock,
                form,
                is_lost,
            }),
            Err(fault) => {
                lock.release();
                Err(fault)
            }
        }
    }

    /// The file has a session.
    pub(crate) fn is_there(&self) -> bool {
        self.form.is_some()
    }

    /// The identifier of the client that the session belongs to.
    pub(crate) fn client_id(&self) -> Result<Option<Text>, Fault> {
        let Some(form) = &self.form else {
            return Ok(None);
        };
        match Saved::load(self.alloc, form.as_slice()) {
            Ok(saved) => {
                let id = copy_of(&saved.client);
                drop(saved);
                Ok(id?)
            }
            Err(why) => Err(self.unloaded(why)),
        }
    }

    // The error of a form that is not a session of the client.
    fn unloaded(&self, why: LoadError) -> Fault {
        match why {
            LoadError::Memory => Fault::Memory,
            LoadError::AnotherClient => file_fault(
                self.alloc,
                self.name.as_str(),
                "has the session of another client identifier",
                "give that with -i, or name another file",
            ),
            _ => file_fault(
                self.alloc,
                self.name.as_str(),
                "has no session",
                "remove it, or name another file",
            ),
        }
    }

    /// The client with the session, or a new one.
    pub(crate) fn client(&self, setup: &Setup) -> Result<ClientEnd, Fault> {
        match &self.form {
            Some(form) => match setup.saved_client(self.alloc, form.as_slice()) {
                Ok(client) => Ok(client),
                Err(why) => Err(self.unloaded(why)),
            },
            None => Ok(setup.client(self.alloc)?),
        }
    }

    /// The file, for the saver of a run.
    pub(crate) fn file(&self) -> SessionFile<'_, SystemDisk<'a, R>> {
        SessionFile::new(self.alloc, SystemDisk(self.rt), self.name.as_str())
    }

    /// Ends the use of the file.
    pub(crate) fn close(self) {
        let Session {
            rt: _,
            alloc: _,
            name,
            lock,
            form,
            is_lost: _,
        } = self;
        drop(name);
        drop(form);
        lock.release();
    }

    /// The error of a session that the broker lost in an earlier run.
    pub(crate) fn lost(&self) -> Fault {
        file_fault(
            self.alloc,
            self.name.as_str(),
            "has a session that the broker lost, so some of its messages may not have arrived",
            "remove the file to give them up",
        )
    }
}

/// The name of the file of a session, if there is one.
pub(crate) fn name_of<'b, R: Files<File = File>>(
    session: &'b Option<Session<'_, R>>,
) -> Option<&'b str> {
    match session {
        Some(session) => Some(session.name.as_str()),
        None => None,
    }
}

/// The identifier of the client that a session belongs to, if there is one.
pub(crate) fn saved_id<R: Files<File = File>>(
    session: &Option<Session<'_, R>>,
) -> Result<Option<Text>, Fault> {
    match session {
        Some(session) => session.client_id(),
        None => Ok(None),
    }
}

/// The error of a clock that can't be read.
pub(crate) fn no_clock(alloc: Global) -> Fault {
    said(alloc, "the system's clock cannot be read: check the system")
}
