//! Loading a broker (3.1.2.4, 4.1).

ghost use Rattle.std.specs.Prelude.{◌≡◌, ◌<◌, [], IfOk, IfSome, OnOk};
ghost use Rattle.mq_hub.specs.Prelude.{new_hub, quiet, snapshot, IsKeptWhole, IsStorable, HaveNoOutput};

use crate::hub::HubOver;
use mq_route::HubConfig;
use mq_snapshot::{SnapshotFault, read_eight, read_rows, read_signature};
use mq_topic::{FilterStore, TrieStore};
use std::alloc::Global;

// Keys are below this number.
const MOST_KEYS: u64 = 4_294_967_296;

impl HubOver<TrieStore> {
    /// Makes a broker from its snapshot (3.1.2.4, 4.1), with its connections and without pending
    /// output. It may have another configuration than the broker that was saved.
    /// `config.capacity` must be above 0, and so must `config.window` if it is set. The cost is
    /// n log n in the number of bytes.
    ///
    /// Errors:
    ///
    /// - `Version` if the bytes have another signature.
    /// - `Malformed` if they are no snapshot, or one that the configuration does not allow.
    /// - `TooLarge` if a stored message or a will exceeds the configured size limit.
    /// - `Memory` if an allocation fails.
    pub fn load(
        alloc: Global,
        config: HubConfig,
        bytes: &[u8],
    ) -> Result<HubOver<TrieStore>, SnapshotFault>
        requires capacity { 0 < config.capacity }
        requires window { IfSome config.window (λ window. 0 < window) }
        ensures bytes { IfOk result (λ hub. snapshot hub ≡ bytes.now) }
        ensures config { IfOk result (λ hub. hub.config ≡ config) }
        ensures quiet { IfOk result (λ hub. quiet hub ≡ hub) }
        ensures storable { IfOk result IsStorable }
        ensures kept { IfOk result IsKeptWhole }
    {
        HubOver::load_with(alloc, config, TrieStore::new(alloc), bytes)
    }
}

impl<S: FilterStore + Drop> HubOver<S> {
    /// Makes a broker from its snapshot over an empty store of subscriptions, as [`Hub::load`].
    ///
    /// [`Hub::load`]: HubOver::load
    pub fn load_with(
        alloc: Global,
        config: HubConfig,
        store: S,
        bytes: &[u8],
    ) -> Result<HubOver<S>, SnapshotFault>
        requires store { S.rows store ≡ [] }
        requires capacity { 0 < config.capacity }
        requires window { IfSome config.window (λ window. 0 < window) }
        ensures bytes { IfOk result (λ hub. snapshot hub ≡ bytes.now) }
        ensures config { IfOk result (λ hub. hub.config ≡ config) }
        ensures quiet { IfOk result (λ hub. quiet hub ≡ hub) }
        ensures storable { IfOk result IsStorable }
        ensures kept { IfOk result IsKeptWhole }
    {
        let mut hub = HubOver::with_store(alloc, config, store);
        hub.load_parts(bytes)?;
        let saved = hub.save()?;
        if saved.as_slice() == bytes {
            Ok(hub)
        } else {
            Err(SnapshotFault::Malformed)
        }
    }
}

impl<S: FilterStore> HubOver<S> {
    // Sets the clock and the next key of a broker without sessions.
    fn load_numbers(&mut self, clock: u64, next_key: u64) -> Result<(), SnapshotFault>
        requires { self.old.sessions ≡ [] }
        ensures { self.new ≡ record self.old { clock = self.new.clock; next_key = self.new.next_key } }
    {
        if next_key > MOST_KEYS {
            return Err(SnapshotFault::Malformed);
        }
        self.clock = clock;
        self.next_key = next_key;
        Ok(())
    }

    // Adds the parts of a snapshot to a new broker. The bytes may still differ from its snapshot.
    fn load_parts(&mut self, bytes: &[u8]) -> Result<(), SnapshotFault>
        requires { self.old ≡ new_hub self.old.config }
        ensures config { OnOk result (self.new.config ≡ self.old.config) }
        ensures quiet { OnOk result (HaveNoOutput self.new.connections) }
    {
        let rest = read_signature(bytes)?;
        let (clock, rest) = read_eight(rest)?;
        let (next_key, rest) = read_eight(rest)?;
        self.load_numbers(clock, next_key)?;
        let (rows, rest) = read_rows(self.alloc, rest)?;
        let rest = self.load_messages(rest)?;
        let rest = self.load_sessions(rest)?;
        self.load_rows(rows)?;
        self.load_connections(rest)
    }
}
