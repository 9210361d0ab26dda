//! The waits between connections.

ghost use Rattle.std.specs.Prelude.{◌≡◌};
ghost use Rattle.mq_pubsub.specs.Prelude.{first_wait, wait_after};

/// The first wait, in milliseconds.
const FIRST_WAIT: u64 = 100;

/// The waits between connections, in milliseconds: 100 first, then each twice the one before, and
/// none over the limit.
#[derive(Clone, Copy, Debug, PartialEq, Eq)]
pub struct Backoff {
    /// The longest wait.
    pub limit: u64,
    /// The next wait.
    pub next: u64,
}

impl Backoff {
    /// Waits up to this limit.
    pub fn new(limit: u64) -> Backoff
        ensures limit { result.limit ≡ limit }
        ensures next { result.next ≡ first_wait limit }
    {
        Backoff {
            limit,
            next: FIRST_WAIT.min(limit),
        }
    }

    /// The next wait.
    pub fn wait(&mut self) -> u64
        ensures value { result ≡ self.old.next }
        ensures limit { self.new.limit ≡ self.old.limit }
        ensures next { self.new.next ≡ wait_after self.old.limit self.old.next }
    {
        let wait = self.next;
        self.next = if wait > self.limit / 2 {
            self.limit
        } else {
            wait * 2
        };
        wait
    }

    /// Begins again with the first wait.
    pub fn reset(&mut self)
        ensures limit { self.new.limit ≡ self.old.limit }
        ensures next { self.new.next ≡ first_wait self.old.limit }
    {
        *self = Backoff::new(self.limit);
    }
}
