//! The client identifiers of the sessions (3.1.2.4).

ghost use Rattle.std.specs.Prelude.{◌≡◌, map, IfOk};
ghost use Rattle.mq_hub.specs.Prelude.{slice_cmp, IsPermutation, IsSorted, nat_cmp};

use crate::hub::HubOver;
use mq_topic::FilterStore;
use mq_wire::Text;
use std::alloc::AllocError;

impl<S: FilterStore> HubOver<S> {
    // The client identifiers of the sessions, by ascending key.
    fn clients(&self) -> Result<Vec<Text>, AllocError>
        ensures { IfOk result (λ names. names.items ≡ map (λ s. s.client) self.now.sessions) }
    {
        self.tables.sessions.clients(self.alloc)
    }

    /// Returns the client identifiers of the sessions, sorted by their bytes (3.1.3.1).
    pub fn sessions(&self) -> Result<Vec<Text>, AllocError>
        ensures clients { IfOk result (λ names. IsPermutation (map (λ s. s.client) self.now.sessions) names.items) }
        ensures sorted { IfOk result (λ names. IsSorted (slice_cmp nat_cmp) names.items) }
    {
        let mut names = self.clients()?;
        names.sort()?;
        Ok(names)
    }
}
