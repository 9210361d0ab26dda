//! How a run continues after a loss.

ghost use Rattle.std.specs.Prelude.{◌≡◌, ◌↔◌, IsTrue};
ghost use Rattle.mq_pubsub.specs.Prelude.{IsOver, cut_wait};

/// How a run continues after a loss.
#[derive(Clone, Copy, Debug, PartialEq, Eq)]
pub struct Retry {
    /// The longest wait before a new connection, in milliseconds. `None` makes no new connection.
    pub longest_wait: Option<u64>,
    /// The time of the network at which the run ends.
    pub deadline: Option<u64>,
}

impl Retry {
    /// Whether the run has no time left at this time of the network.
    pub fn is_over(self, now: u64) -> bool
        ensures { IsTrue result ↔ IsOver self.deadline now }
    {
        match self.deadline {
            Some(deadline) => now >= deadline,
            None => false,
        }
    }

    /// A wait that ends at the deadline at the latest.
    pub fn cut(self, now: u64, wait: u64) -> u64
        ensures { result ≡ cut_wait self.deadline now wait }
    {
        match self.deadline {
            Some(deadline) => wait.min(deadline.saturating_sub(now)),
            None => wait,
        }
    }
}
