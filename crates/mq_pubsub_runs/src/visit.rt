//! Discarding the session that a server has.

ghost use Rattle.std.specs.Prelude.{◌≡◌, None, true, IfOk, OnOk};
ghost use Rattle.mq_pubsub_runs.specs.Prelude.{blank_end, is_up, Moment, Discards, Hears};

use crate::network::Network;
use crate::stop::run_error;
use mq_client::{ClientError, Connection, NoSaver, Peer};
use mq_end::ClientEnd;
use mq_pubsub::{Retry, RunError, Setup};
use mq_stream::{Clock, Stream};
use std::alloc::Global;

// Waits until the client is connected or the time is over. Returns whether it is connected.
fn await_connection<S: Stream, C: Clock, N: Network<S, C>>(
    peer: &mut Peer<S, C, NoSaver>,
    network: &mut N,
    retry: Retry,
) -> Result<bool, ClientError>
    ensures hears { OnOk result (Hears peer.old peer.new) }
    ensures up { IfOk result
        (λ connected. connected ≡ true → is_up peer.new.client.link.end.state ≡ true) }
{
    for _ in 0..u64::MAX {
        peer.listen()?;
        if peer.is_up() {
            return Ok(true);
        }
        if retry.is_over(network.now()) {
            return Ok(false);
        }
    }
    Ok(false)
}

// Connects with a clean session, and leaves once the client is connected. Returns whether that was
// before the time was over.
fn visit<S: Stream, C: Clock, N: Network<S, C>>(
    peer: &mut Peer<S, C, NoSaver>,
    network: &mut N,
    retry: Retry,
) -> Result<bool, ClientError>
    ensures { IfOk result (λ connected. connected ≡ true → Discards peer.old peer.new) }
{
    peer.open(true)?;
    let connected = await_connection(peer, network, retry)?;
    if !connected {
        return Ok(false);
    }
    peer.leave()?;
    Ok(true)
}

// The same over a new connection.
fn visit_once<S: Stream + Drop, C: Clock + Drop, N: Network<S, C>>(
    client: ClientEnd,
    connection: Connection<S, C>,
    network: &mut N,
    retry: Retry,
) -> Result<(), RunError>
    ensures { OnOk result
        ((a : Moment) × (b : Moment) × (a.client ≡ client) × Discards a b) }
{
    let mut peer = Peer::new(client, connection.stream, connection.clock, NoSaver);
    let visited = visit(&mut peer, network, retry);
    drop(peer);
    match visited {
        Ok(true) => Ok(()),
        Ok(false) => Err(RunError::TimedOut),
        Err(error) => Err(run_error(error)),
    }
}

/// Connects with a clean session and leaves, so that the server has no session of the client any
/// more (3.1.2.4).
pub fn discard<S: Stream + Drop, C: Clock + Drop, N: Network<S, C>>(
    alloc: Global,
    setup: &Setup,
    network: &mut N,
    retry: Retry,
) -> Result<(), RunError>
    ensures { OnOk result ((start : Moment) × (end : Moment)
        × (start.client.config.id ≡ setup.now.id) × (start.client.link.end ≡ blank_end None)
        × Discards start end) }
{
    let client = setup.client(alloc)?;
    let Ok(connection) = network.dial() else {
        drop(client);
        return Err(RunError::Unreachable);
    };
    visit_once(client, connection, network, retry)
}
