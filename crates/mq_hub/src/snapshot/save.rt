//! Saving a broker (3.1.2.4, 4.1).

ghost use Rattle.std.specs.Prelude.{◌≡◌, ◌++◌, IfOk, OnOk};
ghost use Rattle.mq_hub.specs.Prelude.{quiet, restored, snapshot, IsStorable};

use crate::hub::HubOver;
use mq_snapshot::{put_eight, put_rows, put_signature};
use mq_topic::{FilterStore, StoreRow};
use std::alloc::AllocError;

impl<S: FilterStore> HubOver<S> {
    // Returns the snapshot of the broker. These rows must be those of the store.
    #[tactic(auto, unfolding(mq_route::specs::Snapshot::snapshot), using(std::proofs::Common::append_assoc, crate::proofs::SavedConnections::listed_seen))]
    fn save_with(&self, rows: &[StoreRow]) -> Result<Vec<u8>, AllocError>
        requires { rows.now ≡ self.now.rows }
        ensures bytes { IfOk result (λ bytes. bytes.items ≡ snapshot self.now) }
        ensures storable { OnOk result (IsStorable self.now) }
    {
        let mut out = Vec::new(self.alloc);
        put_signature(&mut out)?;
        put_eight(&mut out, self.clock)?;
        put_eight(&mut out, self.next_key)?;
        put_rows(&mut out, rows)?;
        self.tables.retained.save(&mut out)?;
        self.tables.sessions.save(self.alloc, &mut out)?;
        self.tables.connections.save(&mut out)?;
        Ok(out)
    }

    /// Returns the snapshot of the broker (3.1.2.4, 4.1): clock, next key, subscriptions, retained
    /// messages, sessions and connections. It has neither the configuration nor the pending output,
    /// and nothing else is lost. The cost is linear in its size.
    pub fn save(&self) -> Result<Vec<u8>, AllocError>
        ensures bytes { IfOk result (λ bytes. bytes.items ≡ snapshot self.now) }
        ensures storable { OnOk result (IsStorable self.now) }
        ensures kept { restored self.now.config self.now ≡ quiet self.now }
    {
        let rows = self.tables.store.list()?;
        self.save_with(rows.as_slice())
    }
}
