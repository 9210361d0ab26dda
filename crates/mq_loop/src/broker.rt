//! Brokers of a loop, whose steps are committed before their output is collected.

ghost use Rattle.std.specs.Prelude.{◌≡◌, Bool, List, Option, None, true, take, ◌∷◌, [], IfOk, OnErr, OnOk};
ghost use Rattle.mq_loop.specs.Prelude.{SnapshotNote, Bytes, Collect, HubState, HubStep, HubStepSome, Continues, is_input, Call, commit, step, with_calls};

use mq_hub::Hub;
use mq_route::{Conn, HubEvent, HubRefusal, HubReply};
use std::alloc::Global;
use thiserror::Error;

/// Why the steps of a broker were not committed.
#[derive(Clone, Copy, Debug, PartialEq, Eq, Error)]
pub enum CommitFailure {
    /// An allocation failed.
    #[error("out of memory")]
    Memory,
    /// The storage of the broker failed.
    #[error("the storage failed")]
    Storage,
    /// The storage of the broker is full.
    #[error("the storage is full")]
    Full,
}

/// A note about a snapshot that a broker wrote. The broker served no client in the meantime.
#[derive(Clone, Copy, Debug, PartialEq, Eq)]
pub struct SnapshotNote {
    /// The number of bytes of the snapshot.
    pub bytes: u64,
    /// The number of sessions of the broker.
    pub sessions: u64,
    /// The pause, in milliseconds.
    pub milliseconds: u64,
}

/// A broker whose steps are committed before their output is collected.
///
/// A commit makes all steps durable, if the broker has a storage. Contracts see the broker's state,
/// whether all its steps are committed, and whether a commit can fail; and also which calls were
/// made, and which snapshots, as far as an implementation says so.
pub trait Broker {
    /// The state of the broker.
    ghost state: { Self → HubState };

    /// Whether all steps are committed.
    ghost committed: { Self → Bool };

    /// Whether a commit can fail.
    ghost can_fail: { Bool };

    /// The calls that succeeded, if they are known.
    ghost calls: { Self → Option (List Call) } = { λ _. None };

    /// The notes about snapshots that no log has yet.
    ghost notes: { Self → List SnapshotNote } = { λ _. [] };

    /// The broker without its storage.
    fn hub(&self) -> &Hub
        ensures { result.now ≡ state self.now };

    /// Makes the step for an event. Use [`collect`](Broker::collect) for `Collect`.
    ///
    /// Errors are those of `Hub::step`, and `Memory` if the broker can't note the event.
    fn step(&mut self, event: &HubEvent) -> Result<HubReply, HubRefusal>
        requires input { is_input event.now ≡ true }
        ensures step { IfOk result (λ reply. HubStep (state self.old) event.now reply (state self.new)) }
        ensures err { OnErr result (state self.new ≡ state self.old) }
        ensures uncommitted { OnErr result (committed self.new ≡ committed self.old) }
        ensures notes { notes self.new ≡ notes self.old }
        ensures calls { IfOk result (λ reply. calls self.new ≡ with_calls (calls self.old) (step event.now reply ∷ [])) }
        ensures uncalled { OnErr result (calls self.new ≡ calls self.old) };

    /// Makes the step for the front of bytes that come on a connection. Returns the reply and the
    /// number of bytes used.
    ///
    /// Errors are those of `Hub::step_some`, and `Memory` if the broker can't note the event.
    fn step_some(
        &mut self,
        conn: Conn,
        piece: &[u8],
        most_acts: usize,
    ) -> Result<(HubReply, usize), HubRefusal>
        ensures step { IfOk result (λ r. HubStepSome (state self.old) conn piece.now most_acts r.0 r.1 (state self.new)) }
        ensures err { OnErr result (state self.new ≡ state self.old) }
        ensures notes { notes self.new ≡ notes self.old }
        ensures calls { IfOk result (λ r. calls self.new ≡ with_calls (calls self.old) (step (Bytes conn (take r.1 piece.now)) r.0 ∷ [])) }
        ensures uncalled { OnErr result (calls self.new ≡ calls self.old) };

    /// Takes the pending output of a connection. All steps must be committed.
    fn collect(&mut self, conn: Conn) -> Result<HubReply, HubRefusal>
        requires committed { committed self.old ≡ true }
        ensures step { IfOk result (λ reply. HubStep (state self.old) (Collect conn) reply (state self.new)) }
        ensures err { OnErr result (state self.new ≡ state self.old) }
        ensures still { committed self.new ≡ committed self.old }
        ensures notes { notes self.new ≡ notes self.old }
        ensures calls { IfOk result (λ reply. calls self.new ≡ with_calls (calls self.old) (step (Collect conn) reply ∷ [])) }
        ensures uncalled { OnErr result (calls self.new ≡ calls self.old) };

    /// Commits all steps. After an error the program must end.
    fn commit(&mut self) -> Result<(), CommitFailure>
        ensures ok { OnOk result (committed self.new ≡ true) }
        ensures state { state self.new ≡ state self.old }
        ensures notes { Continues (notes self.old) (notes self.new) }
        ensures sure { OnErr result (can_fail ≡ true) }
        ensures calls { OnOk result (calls self.new ≡ with_calls (calls self.old) (commit ∷ [])) }
        ensures uncalled { OnErr result (calls self.new ≡ calls self.old) };
}

/// A broker that makes notes about its snapshots, for a log.
pub trait SnapshotBroker: Broker {
    /// Takes the notes.
    fn take_notes(&mut self, alloc: Global) -> Vec<SnapshotNote>
        ensures taken { result.items ≡ Self.notes self.old }
        ensures left { Self.notes self.new ≡ [] }
        ensures state { Self.state self.new ≡ Self.state self.old }
        ensures committed { Self.committed self.new ≡ Self.committed self.old }
        ensures calls { Self.calls self.new ≡ Self.calls self.old };
}
