//! The decision to make another connection.

ghost use Rattle.std.specs.Prelude.{◌≡◌, true, is_some, Err, IfNone, IfSome, OnErr, OnOk};
ghost use Rattle.mq_pubsub_runs.specs.Prelude.{IsBroken, IsConnection, IsErr, IsOk};

use crate::network::Network;
use crate::stop::Stop;
use mq_client::{Peer, SessionSaver};
use mq_pubsub::{Backoff, Retry, RunError};
use mq_stream::{Clock, Stream};

/// The connections of a run so far.
#[derive(Clone, Copy)]
pub(crate) struct Redial {
    pub(crate) retry: Retry,
    backoff: Backoff,
    // A connection was made.
    has_dialed: bool,
    // A server accepted one.
    was_up: bool,
}

impl Redial {
    /// No connection so far.
    pub(crate) fn new(retry: Retry) -> Redial {
        Redial {
            retry,
            backoff: Backoff::new(retry.longest_wait.unwrap_or(0)),
            has_dialed: false,
            was_up: false,
        }
    }

    /// A connection was made.
    pub(crate) fn dialed(&mut self) {
        self.has_dialed = true;
    }

    /// The error of a connection that could not be made.
    pub(crate) fn missed(&self) -> Stop
        ensures { IsConnection result }
    {
        if self.has_dialed {
            return Stop::Connection(RunError::Lost);
        }
        Stop::Connection(RunError::Unreachable)
    }

    /// Notes whether the client is connected.
    pub(crate) fn note<S: Stream, C: Clock, K: SessionSaver>(&mut self, peer: &Peer<S, C, K>) {
        if peer.is_up() {
            self.was_up = true;
            self.backoff.reset();
        }
    }

    /// Returns whether the time of the run is over.
    pub(crate) fn is_over<S: Stream, C: Clock, N: Network<S, C>>(&self, network: &mut N) -> bool {
        self.retry.is_over(network.now())
    }

    // Whether another connection is made after an error. `renews` means that a lost session is
    // replaced by a new one.
    fn goes_on(&self, stop: Stop, renews: bool) -> bool
        ensures broken { result ≡ true → IsConnection stop }
        ensures lost { stop ≡ Stop.Connection RunError.Lost
            → is_some self.now.retry.longest_wait ≡ true → result ≡ true }
    {
        if renews && stop.is_session_lost() {
            return true;
        }
        self.retry.longest_wait.is_some() && stop.is_loss(self.was_up)
    }

    // Waits before another connection. Returns false if the time of the run is over.
    fn wait<S: Stream, C: Clock, N: Network<S, C>>(&mut self, network: &mut N) -> bool {
        let now = network.now();
        if self.retry.is_over(now) {
            return false;
        }
        let wait = self.retry.cut(now, self.backoff.wait());
        network.pause(wait);
        true
    }

    /// Decides after the work over a connection, which ended like this. Returns the end of the run,
    /// or `None` after a wait if another connection is made.
    pub(crate) fn next<S: Stream, C: Clock, N: Network<S, C>>(
        &mut self,
        end: Result<(), Stop>,
        renews: bool,
        network: &mut N,
    ) -> Option<Result<(), RunError>>
        ensures done { IfSome result (λ final. OnOk final (IsOk end)) }
        ensures failed { IfSome result (λ final. OnErr final (IsErr end)) }
        ensures again { IfNone result (IsBroken end) }
        ensures retries { end ≡ Err (Stop.Connection RunError.Lost)
            → is_some self.old.retry.longest_wait ≡ true
            → IfSome result (λ final. final ≡ Err RunError.TimedOut) }
    {
        let Err(stop) = end else {
            return Some(Ok(()));
        };
        if !self.goes_on(stop, renews) {
            return Some(Err(stop.error()));
        }
        if !self.wait(network) {
            return Some(Err(RunError::TimedOut));
        }
        None
    }
}
