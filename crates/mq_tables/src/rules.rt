//! The configuration that decides which copies are placed.

ghost use Rattle.std.specs.Prelude.{◌≡◌, ◌||◌, is_some};
ghost use Rattle.mq_tables.specs.Prelude.{drops_copies, rules_of};

use mq_route::{HubConfig, WhenFull};

/// The configuration that decides which copies are placed.
#[derive(Clone, Copy)]
pub struct CopyRules {
    /// The treatment of a copy of QoS 1 or 2 whose session has no room.
    pub when_full: WhenFull,
    /// The maximum number of bytes that a session stores.
    pub most_stored: Option<u64>,
    /// The maximum number of pending output bytes with a copy of QoS 0.
    pub most_waiting: Option<u64>,
}

/// The rules of a configuration.
pub fn rules_of(config: &HubConfig) -> CopyRules
    ensures { result ≡ rules_of config.now }
{
    CopyRules {
        when_full: config.when_full,
        most_stored: config.most_stored,
        most_waiting: config.most_waiting,
    }
}

impl CopyRules {
    /// Whether copies of QoS 1 or 2 without room are missed.
    pub fn drops_copies(self) -> bool
        ensures { result ≡ drops_copies self.when_full }
    {
        match self.when_full {
            WhenFull::ClosePublisher => false,
            WhenFull::DropCopy => true,
        }
    }

    /// Whether copies may be missed.
    pub fn may_miss(self) -> bool
        ensures { result ≡ (drops_copies self.when_full || is_some self.most_waiting) }
    {
        self.drops_copies() || self.most_waiting.is_some()
    }
}
