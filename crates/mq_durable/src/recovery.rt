//! Restoring a broker from its journal.

ghost use Rattle.std.specs.Prelude.{◌≡◌, ◌≢◌, ◌⊎◌, ◌∷◌, [], List, true, IfOk, OnOk};
ghost use Rattle.mq_durable.specs.Prelude.{gate, rest, Closed, Torn, Conn, IsReadable, events_of, AreKnownAmong, HasEnded, latest, Replays};

use crate::fault::RecoverError;
use crate::progress::{Progress, replay_on};
use mq_hub::Hub;
use mq_log::{Tail, read_journal};
use mq_route::{Conn, HubEvent};
use std::alloc::{AllocError, Global};
use std::marker::Model;

/// A broker that is being restored from its journal. Contracts see it as that broker.
#[derive(Drop)]
pub struct Recovery {
    alloc: Global,
    progress: Progress,
}

impl Model for Recovery {
    ghost use Rattle.std.specs.Coded.{codes, coded_ℕ};
    ghost use Rattle.std.specs.FinSet as set;
    ghost use Rattle.std.specs.Ordering.{nat_cmp};
    ghost use Rattle.mq_route.specs.Hub.{HubState};
    ghost use Rattle.mq_durable.specs.Recovering.{IsRecovering};

    ghost Value = { HubState };

    ghost coded = { Prim.hlevel (codes, set.code {R = nat_cmp} coded_ℕ) };

    ghost view = { λ r. r.progress.hub };

    ghost invariant = { λ r. IsRecovering r.progress };
}

// Whether a crash may leave a file that ends so.
fn is_whole(tail: Tail) -> bool
    ensures { result ≡ true → (tail ≡ Closed) ⊎ (tail ≡ Torn) }
{
    match tail {
        Tail::Closed => true,
        Tail::Torn => true,
        Tail::CutShort | Tail::Damaged => false,
    }
}

impl Recovery {
    /// Begins to restore a broker: a new one, or that of a snapshot, with its connections.
    pub fn of(alloc: Global, hub: Hub) -> Result<Recovery, AllocError>
        ensures { IfOk result (λ recovery. recovery ≡ hub) }
    {
        let opened = hub.connections(alloc)?;
        let progress = Progress { hub, opened };
        Ok(Recovery { alloc, progress })
    }

    /// The broker after the events that were read.
    pub fn hub(&self) -> &Hub
        ensures { result.now ≡ self.now }
    {
        &self.progress.hub
    }

    /// Steps the broker through the events of a file of the journal.
    ///
    /// A crash may leave a torn end, which is ignored. Errors:
    ///
    /// - `Damaged` if an open gate follows the entries. No crash leaves it.
    /// - `Unreadable` if an entry is not the encoding of events.
    /// - `Refused` if the broker refuses an event.
    /// - `Memory` if an allocation fails, or if a reply reports that one failed.
    pub fn replay(self, file: &[u8]) -> Result<Recovery, RecoverError>
        ensures hub { IfOk result (λ hub. Replays self (events_of file.now) hub) }
        ensures clock { IfOk result (λ hub. hub.clock ≡ latest self.clock (events_of file.now)) }
        ensures readable { OnOk result (IsReadable file.now) }
        ensures whole { OnOk result (gate (rest file.now) ≢ 1) }
    {
        let Recovery { alloc, progress } = self;
        let contents = read_journal(alloc, file)?;
        if !is_whole(contents.tail) {
            return Err(RecoverError::Damaged(contents.tail));
        }
        let progress = progress.after(alloc, contents.entries.as_slice())?;
        Ok(Recovery { alloc, progress })
    }

    /// Ends each connection, and returns the broker. Its clock is the latest time that the events
    /// report, in milliseconds: the clock of the process must continue from it.
    ///
    /// Errors:
    ///
    /// - `Refused` if the broker refuses an end.
    /// - `Memory` if an allocation fails, or if a reply reports that one failed.
    pub fn end_all(self) -> Result<Hub, RecoverError>
        ensures ended { IfOk result (λ hub. HasEnded self hub) }
        ensures clock { IfOk result (λ hub. hub.clock ≡ self.clock) }
        ensures none { IfOk result (λ hub. hub.connections ≡ []) }
    {
        let Recovery { progress, .. } = self;
        let Progress { hub, opened } = progress;
        let mut hub = hub;
        end_each(&mut hub, opened.as_slice())?;
        Ok(hub)
    }
}

// Ends a connection, if the broker knows it. On `Err` the broker must be dropped.
fn end_one(hub: &mut Hub, conn: Conn) -> Result<(), RecoverError>
    ensures ended { OnOk result (HasEnded hub.old hub.new) }
    ensures known { OnOk result ((others : List Conn)
        → AreKnownAmong (conn ∷ others) hub.old → AreKnownAmong others hub.new) }
{
    if !hub.knows(conn) {
        return Ok(());
    }
    replay_on(hub, &HubEvent::Ended(conn))?;
    Ok(())
}

// Ends the connections among these that the broker knows. On `Err` the broker must be dropped.
fn end_each(hub: &mut Hub, conns: &[Conn]) -> Result<(), RecoverError>
    requires { AreKnownAmong conns.now hub.old }
    ensures ended { OnOk result (HasEnded hub.old hub.new) }
    ensures none { OnOk result (AreKnownAmong [] hub.new) }
{
    for conn in conns {
        end_one(hub, *conn)?;
    }
    Ok(())
}
