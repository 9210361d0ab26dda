//! A broker that is kept in a folder.

ghost use Rattle.std.specs.Prelude.{◌≡◌, ◌≢◌, length, IfErr, IfOk};
ghost use Rattle.mq_broker.specs.Prelude.{configuration, IsPacketLimit, MayBegin, IsFound};
ghost use Rattle.mq_broker.specs.declared.end.BrokerEnd.TheVariants as ends;
ghost use Rattle.mq_broker.specs.declared.open_error.OpenError.TheVariants as errors;

use crate::end::BrokerEnd;
use crate::kept::Kept;
use crate::log::Log;
use crate::open_error::OpenError;
use crate::options::BrokerOptions;
use crate::server::run_at;
use crate::site::Site;
use mq_store::{Store, StoreOptions, open_store};
use std::alloc::Global;
use std::fs::File;
use std::io::Write;
use std::marker::Model;
use std::net::Net;
use std::rt::Files;
use std::time;

/// A broker that was recovered from a folder, and that keeps its snapshot and its journal there.
///
/// Contracts see the broker, and the number of events that were recovered.
#[derive(Drop)]
pub struct RecoveredBroker {
    site: Site,
    store: Store,
}

impl Model for RecoveredBroker {
    ghost use Rattle.std.specs.Coded.{codes, coded_ℕ};
    ghost use Rattle.std.specs.FinSet as set;
    ghost use Rattle.std.specs.Ordering.{nat_cmp};
    ghost use Rattle.mq_broker.specs.Recovered.{RecoveredState};
    ghost use Rattle.mq_loop.specs.Rounds.{IsReached};

    ghost Value = { RecoveredState };

    ghost coded = { Prim.hlevel (codes, set.code {R = nat_cmp} coded_ℕ) };

    ghost view = { λ b. record { hub = b.store.durable.hub; events = b.store.events } };

    ghost invariant = { λ b. IsReached b.store.durable.hub };
}

impl RecoveredBroker {
    /// Locks the folder, which is created if it is missing, and recovers the broker from its
    /// snapshot and its journal. The connections of the broker are ended. The options may differ
    /// from those under which the folder was written.
    #[tactic(auto, using(crate::proofs::Begins::begun_reached))]
    pub fn open<R: Files<File = File>>(
        rt: &R,
        alloc: Global,
        options: BrokerOptions,
        folder: &str,
        store: StoreOptions,
    ) -> Result<RecoveredBroker, OpenError>
        ensures recovered { IfOk result (λ broker. IsFound (configuration options) broker.hub broker.events) }
        ensures begins { IfOk result (λ broker. MayBegin broker.hub) }
        ensures allowed { IfOk result (λ _. IsPacketLimit options.max_packet) }
        ensures refused { IfErr result (λ error.
            error ≡ errors.PacketLimit → ¬ (IsPacketLimit options.max_packet)) }
    {
        let Some(packets) = options.packets() else {
            return Err(OpenError::PacketLimit);
        };
        let site = Site::new(&options, packets);
        match open_store(rt, alloc, folder, store, options.into_config(packets)) {
            Ok(store) => Ok(RecoveredBroker { site, store }),
            Err(error) => Err(OpenError::Store(error)),
        }
    }

    /// The number of events that were recovered.
    pub fn events(&self) -> u64
        ensures { result ≡ self.now.events }
    {
        self.store.events
    }

    /// The number of sessions of the broker (3.1.2.4).
    pub fn sessions(&self) -> usize
        ensures { result ≡ length self.now.hub.sessions }
    {
        self.store.durable.hub().counts().sessions
    }

    /// Runs the broker, as [`run_broker`](crate::run_broker).
    pub fn run<R: Net + time::Clock + Files<File = File>, W: Write, L: Write + Drop>(
        self,
        rt: &R,
        alloc: Global,
        output: &mut W,
        log: Log<L>,
    ) -> BrokerEnd
        ensures { result ≢ ends.PacketLimit }
    {
        let RecoveredBroker { site, store } = self;
        let Store {
            durable,
            folder,
            clock,
            ..
        } = store;
        let kept = Kept {
            rt,
            alloc,
            durable,
            folder,
            notes: Vec::new(alloc),
        };
        match run_at(rt, alloc, site, kept, clock, output, log) {
            Ok(()) => BrokerEnd::Listener,
            Err(end) => end,
        }
    }
}
