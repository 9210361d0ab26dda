//! When `tick` next does something (3.1.2.10).

ghost use Rattle.std.specs.Prelude.{◌≡◌};
ghost use Rattle.mq_end.specs.Prelude.{IsDeadline, is_late, is_overdue, pings};

use crate::endpoint::Endpoint;
use crate::state::State;

/// Whether more than one and a half times the keep-alive, in seconds, has passed since the last
/// packet. Times are in milliseconds. A keep-alive of 0 switches the check off (3.1.2.10).
pub fn is_late(last_activity: u64, keep_alive: u16, now: u64) -> bool
    ensures { result ≡ is_late last_activity keep_alive now }
{
    let wait = 1_500 * u64::from(keep_alive);
    wait > 0 && now > last_activity && now - last_activity > wait
}

impl Endpoint {
    /// The time from which on `tick_client` sends a PINGREQ (3.12).
    pub(crate) fn ping_deadline(&self) -> Option<u64>
        ensures { IsDeadline (λ now. pings self.now.last_activity now self.now.end) result }
    {
        if self.state != State::Connected || self.keep_alive == 0 {
            return None;
        }
        let wait = 1_000 * u64::from(self.keep_alive);
        self.last_activity.checked_add(wait)
    }

    /// The time from which on `tick_server` closes the end (3.1.2.10).
    pub(crate) fn close_deadline(&self) -> Option<u64>
        ensures { IsDeadline (λ now. is_overdue self.now.last_activity now self.now.end) result }
    {
        if self.state != State::Connected || self.keep_alive == 0 {
            return None;
        }
        let wait = 1_500 * u64::from(self.keep_alive) + 1;
        self.last_activity.checked_add(wait)
    }
}
