//! The whole programs, over any connections and disks.

ghost use Rattle.std.specs.Prelude.{◌≡◌, true, IfOk, OnOk, MatchOption};
ghost use Rattle.mq_client.specs.Prelude.{Appends, Prints, Replaced, history_of, stands_of, halt_status, marked_form, saved_of, halt_line, IsNewClient, IsAbsent, IsClientOf, IsDiscarded, IsKeptDone, IsLoadedOf, IsLostDone, IsMessagesDone, IsSessionDone, IsTextsDone, resumed_of};

use crate::client::{LoadFailure, Loaded, load, new_client};
use crate::collector::{CollectGoal, collect};
use crate::dial::Dial;
use crate::disk::Disk;
use crate::error::ClientError;
use crate::lines::{write_halt, write_unloaded};
use crate::peer::{Peer, in_use};
use crate::publisher::{Publications, publish, publish_all, resume};
use crate::saver::{NoSaver, SaveError, SavingTo, SessionSaver};
use crate::session_file::SessionFile;
use crate::stop::{Halt, Stop};
use mq_end::{ClientEnd, CloseReason};
use mq_stream::{Clock, Stream};
use mq_wire::Text;
use std::alloc::Global;
use std::io;
use std::io::Write;

// A client at a connection that is made for it.
fn connected<S: Stream, C: Clock, K: SessionSaver, D: Dial<S, C>>(
    client: ClientEnd,
    dialer: &mut D,
    keeper: K,
) -> Result<Peer<S, C, K>, ClientError>
where
    K: Drop,
    ensures client { IfOk result (λ peer. peer.client ≡ client) }
    ensures kept { IfOk result (λ peer. peer.kept ≡ K.kept keeper) }
{
    match dialer.dial() {
        Ok(connection) => Ok(Peer::new(client, connection.stream, connection.clock, keeper)),
        Err(_) => {
            drop(client);
            drop(keeper);
            Err(ClientError::Lost)
        }
    }
}

// A new client at a connection that is made for it. Its session ends with the program.
fn newly_connected<S: Stream, C: Clock, D: Dial<S, C>>(
    alloc: Global,
    id: &Text,
    dialer: &mut D,
) -> Result<Peer<S, C, NoSaver>, ClientError>
    ensures { IfOk result (λ peer. IsNewClient id.now peer.client) }
{
    connected(new_client(alloc, id)?, dialer, NoSaver)
}

// Writes why a program stops before its first message, and returns its status.
fn write_early<W: Write>(
    stop: &mut Option<Stop>,
    output: &mut W,
    halt: ClientError,
) -> io::Result<u8>
    ensures printed { OnOk result
        (Appends (W.contents output.old) (W.contents output.new) (halt_line halt)) }
    ensures status { IfOk result (λ status. status ≡ halt_status halt) }
{
    *stop = Some(Stop::Halted(Halt::early(halt)));
    write_halt(output, halt)
}

/// Makes a connection and publishes texts over a clean session, as [`publish`] does.
pub fn publish_texts<S: Stream + Drop, C: Clock + Drop, D: Dial<S, C>, W: Write>(
    alloc: Global,
    id: &Text,
    texts: &Publications<'_>,
    dialer: &mut D,
    stop: &mut Option<Stop>,
    output: &mut W,
) -> io::Result<u8>
    ensures { IfOk result (λ status. Prints (W.contents output.old) (W.contents output.new)
        (IsTextsDone id.now texts.now status)) }
{
    match newly_connected(alloc, id, dialer) {
        Ok(mut peer) => {
            let status = publish(alloc, &mut peer, texts, true, stop, output);
            drop(peer);
            status
        }
        Err(halt) => write_early(stop, output, halt),
    }
}

/// Makes a connection and prints the messages that come, as [`collect`] does.
pub fn collect_messages<S: Stream + Drop, C: Clock + Drop, D: Dial<S, C>, W: Write>(
    alloc: Global,
    id: &Text,
    goal: &CollectGoal<'_>,
    clean: bool,
    dialer: &mut D,
    stop: &mut Option<Stop>,
    output: &mut W,
) -> io::Result<u8>
    ensures { IfOk result (λ status. Prints (W.contents output.old) (W.contents output.new)
        (IsMessagesDone id.now clean goal.now status)) }
{
    match newly_connected(alloc, id, dialer) {
        Ok(mut peer) => {
            let status = collect(alloc, &mut peer, goal, clean, stop, output);
            drop(peer);
            status
        }
        Err(halt) => write_early(stop, output, halt),
    }
}

// Connects with a clean session and leaves, so that the server discards its session of the client
// (3.1.2.4, 3.14).
fn discard_session<S: Stream + Drop, C: Clock + Drop, D: Dial<S, C>>(
    alloc: Global,
    id: &Text,
    texts: &Publications<'_>,
    dialer: &mut D,
) -> Result<(), ClientError>
    ensures { OnOk result (IsDiscarded id.now) }
{
    let mut peer = newly_connected(alloc, id, dialer)?;
    let none = Publications {
        texts: &[],
        ..*texts
    };
    let done = publish_all(alloc, &mut peer, &none, true);
    drop(peer);
    done
}

// Why a program ends before it continues with a session.
#[derive(Clone, Copy)]
enum Unstarted {
    LoadFailure(LoadFailure),
    Halted(ClientError),
}

/// The session of `publish --session`.
#[derive(Clone, Copy, Debug)]
pub struct SessionOptions<'a> {
    /// The name of its file.
    pub name: &'a str,
    /// The session in the file is given up, and a new one begins.
    pub is_forgotten: bool,
}

// A new client whose session begins empty at both ends.
fn anew<S: Stream + Drop, C: Clock + Drop, D: Dial<S, C>>(
    alloc: Global,
    id: &Text,
    texts: &Publications<'_>,
    dialer: &mut D,
) -> Result<ClientEnd, ClientError>
    ensures client { IfOk result (IsNewClient id.now) }
    ensures discarded { OnOk result (IsDiscarded id.now) }
{
    discard_session(alloc, id, texts, dialer)?;
    Ok(new_client(alloc, id)?)
}

// The client with the session in a file, unless it is forgotten.
fn loaded<F: Disk>(
    alloc: Global,
    id: &Text,
    disk: &F,
    session: SessionOptions<'_>,
) -> Result<Option<Loaded>, LoadFailure>
    ensures { IfOk result (λ found. MatchOption found
        (IsAbsent (F.history disk.now) session.entry.name.now session.entry.is_forgotten)
        (λ loaded. IsLoadedOf (F.history disk.now) session.entry.name.now id.now loaded.is_lost loaded.client)) }
{
    if session.is_forgotten {
        return Ok(None);
    }
    load(alloc, disk, session.name, id)
}

// The client with the session in a file, or a new one if there is none to continue with.
fn client_of<S: Stream + Drop, C: Clock + Drop, D: Dial<S, C>, F: Disk>(
    alloc: Global,
    id: &Text,
    texts: &Publications<'_>,
    disk: &F,
    session: SessionOptions<'_>,
    dialer: &mut D,
) -> Result<Loaded, Unstarted>
    ensures { IfOk result (λ l. IsClientOf (F.history disk.now) session.entry.name.now
        session.entry.is_forgotten id.now l.is_lost l.client) }
{
    match loaded(alloc, id, disk, session) {
        Ok(Some(loaded)) => Ok(loaded),
        Ok(None) => match anew(alloc, id, texts, dialer) {
            Ok(client) => Ok(Loaded {
                client,
                is_lost: false,
            }),
            Err(halt) => Err(Unstarted::Halted(halt)),
        },
        Err(why) => Err(Unstarted::LoadFailure(why)),
    }
}

// The number of messages of the client's session that are not finished (4.3.2, 4.3.3).
fn unfinished(client: &ClientEnd) -> usize
    ensures { result ≡ resumed_of client.now.link.end }
{
    match client.session() {
        Some(session) => in_use(&session.sender),
        None => 0,
    }
}

// Reports that the server lost the session of a client, as an earlier run found out. The status of
// the program.
fn write_lost<W: Write>(client: &ClientEnd, output: &mut W) -> io::Result<u8>
    ensures { IfOk result (λ status. Prints (W.contents output.old) (W.contents output.new)
        (IsLostDone client.now status)) }
{
    let resumed = unfinished(client);
    writeln!(output, "resumed {resumed}")?;
    write_halt(output, ClientError::Closed(CloseReason::SessionLost))
}

// Whether the program stopped because the server lost the session.
fn is_lost(stop: &Option<Stop>) -> bool {
    match stop {
        Some(Stop::Halted(halt)) => halt.error == ClientError::Closed(CloseReason::SessionLost),
        _ => false,
    }
}

// Marks the session of a client, which is in a file, as lost at the server.
fn mark_lost<F: Disk>(
    alloc: Global,
    client: &ClientEnd,
    file: &mut SessionFile<'_, F>,
) -> Result<(), SaveError>
    ensures { OnOk result (Replaced file.old file.new (marked_form true (saved_of client.now))) }
{
    let mut form = Vec::new(alloc);
    if client.save(&mut form).is_err() {
        return Err(SaveError::Memory);
    }
    file.mark_lost(form.as_slice())
}

// Publishes texts over the session of a client, which is saved to a file.
fn publish_kept<S: Stream + Drop, C: Clock + Drop, D: Dial<S, C>, F: Disk + Drop, W: Write>(
    alloc: Global,
    client: ClientEnd,
    texts: &Publications<'_>,
    file: SessionFile<'_, F>,
    dialer: &mut D,
    stop: &mut Option<Stop>,
    output: &mut W,
) -> io::Result<u8>
    ensures { IfOk result (λ status. Prints (W.contents output.old) (W.contents output.new)
        (IsKeptDone (stands_of file.entry) client texts.now status)) }
{
    let keeper = SavingTo { alloc, store: file };
    match connected(client, dialer, keeper) {
        Ok(mut peer) => {
            let status = resume(alloc, &mut peer, texts, stop, output);
            let (client, mut keeper) = peer.into_parts();
            // Without the mark, the next run continues with the server's new session.
            if is_lost(stop)
                && let Err(why) = mark_lost(alloc, &client, &mut keeper.store)
            {
                *stop = Some(Stop::Unmarked(why));
            }
            drop(client);
            drop(keeper);
            status
        }
        Err(halt) => write_early(stop, output, halt),
    }
}

/// Publishes texts over the session in a file, as [`resume`] does.
///
/// If there is no file of this name, or its session is forgotten, a connection with a clean session
/// is made first and left, so that the session begins empty at both ends. The file is first written
/// after that.
///
/// If the server lost the session, the file is marked. Further runs report that and make no
/// connection, until the session is forgotten or the file removed.
pub fn publish_session<S: Stream + Drop, C: Clock + Drop, D: Dial<S, C>, F: Disk + Drop, W: Write>(
    alloc: Global,
    id: &Text,
    texts: &Publications<'_>,
    disk: F,
    session: SessionOptions<'_>,
    dialer: &mut D,
    stop: &mut Option<Stop>,
    output: &mut W,
) -> io::Result<u8>
    ensures { IfOk result (λ status. Prints (W.contents output.old) (W.contents output.new)
        (IsSessionDone (F.history disk) session.entry.name.now session.entry.is_forgotten id.now texts.now status)) }
{
    match client_of(alloc, id, texts, &disk, session, dialer) {
        Ok(loaded) => {
            if loaded.is_lost {
                let lost = ClientError::Closed(CloseReason::SessionLost);
                *stop = Some(Stop::Halted(Halt::early(lost)));
                return write_lost(&loaded.client, output);
            }
            let file = SessionFile::new(alloc, disk, session.name);
            publish_kept(alloc, loaded.client, texts, file, dialer, stop, output)
        }
        Err(Unstarted::LoadFailure(why)) => {
            *stop = Some(Stop::Unloaded(why));
            write_unloaded(output, why)
        }
        Err(Unstarted::Halted(halt)) => write_early(stop, output, halt),
    }
}
