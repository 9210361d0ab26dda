//! The run of `mqtt pub`.

ghost use Rattle.std.specs.Prelude.{◌≡◌, [], None, true, IfErr, IfOk, OnErr, OnOk};
ghost use Rattle.mq_pubsub_runs.specs.Prelude.{is_up, IsIdle, Leaves, Moment, AllPosted, IsLast, PartPosted, Posted, Progress, ProgressUntil, PublishEnds, Remembers, StartsWith, IsConnection};

use crate::network::Network;
use crate::outbox::{Filled, Outbox, Tally};
use crate::redial::Redial;
use crate::stop::Stop;
use mq_client::{Connection, Peer, SessionSaver};
use mq_end::ClientEnd;
use mq_pubsub::{Retry, RunError, Source};
use mq_stream::{Clock, Stream};

/// How messages are published.
#[derive(Clone, Copy, Debug, PartialEq, Eq)]
pub struct PublishOptions {
    /// The clean session flag of each connection that begins without unacknowledged messages
    /// (3.1.2.4). A connection with some continues with the session.
    pub clean: bool,
    /// How the run continues after a loss.
    pub retry: Retry,
}

/// The end of a run.
#[derive(Drop)]
pub struct Published<K: SessionSaver> {
    /// The client.
    pub client: ClientEnd,
    /// The session saver.
    pub keeper: K,
    /// How many messages are done.
    pub tally: Tally,
    /// `Ok` if the source is at its end and all messages are done.
    pub end: Result<(), RunError>,
}

// A client between two connections.
#[derive(Drop)]
struct Sitting<K: SessionSaver> {
    client: ClientEnd,
    keeper: K,
    // The end of the work over the last connection.
    end: Result<(), Stop>,
}

// Whether a connection discards the session: only if it has no unacknowledged message.
fn may_discard<S: Stream, C: Clock, K: SessionSaver>(peer: &Peer<S, C, K>, clean: bool) -> bool
    ensures { result ≡ true → IsIdle peer.now.client.link.end }
{
    clean && peer.is_idle()
}

// Begins a connection.
fn open<S: Stream, C: Clock, K: SessionSaver>(
    peer: &mut Peer<S, C, K>,
    clean: bool,
) -> Result<(), Stop>
    ensures posted { Posted peer.old peer.new [] [] }
    ensures stop { IfErr result IsConnection }
{
    let clean = may_discard(peer, clean);
    peer.open(clean)?;
    Ok(())
}

// Receives packets and answers, unless there is more to publish.
fn listen<S: Stream, C: Clock, K: SessionSaver>(
    peer: &mut Peer<S, C, K>,
    filled: Filled,
) -> Result<(), Stop>
    ensures posted { Posted peer.old peer.new [] [] }
    ensures stop { IfErr result IsConnection }
{
    if filled == Filled::Enough {
        return Ok(());
    }
    peer.listen()?;
    Ok(())
}

// Publishes messages of the source and sends the output.
fn send<S: Stream, C: Clock, K: SessionSaver, M: Source>(
    peer: &mut Peer<S, C, K>,
    source: &mut M,
    outbox: &mut Outbox,
) -> Result<Filled, Stop>
    ensures ok { OnOk result (Progress peer.old peer.new outbox.old.next outbox.new.next
        outbox.old.lost outbox.new.lost (M.coming source.old) (M.coming source.new)) }
    ensures err { IfErr result (ProgressUntil peer.old peer.new outbox.old.next outbox.new.next
        outbox.old.lost outbox.new.lost (M.coming source.old) (M.coming source.new)) }
    ensures none { IfOk result
        (λ why. why ≡ Filled.Ended → IsLast outbox.new.next outbox.new.is_ended) }
    ensures remembers { Remembers outbox.old.is_ended (M.ended source.old)
        → Remembers outbox.new.is_ended (M.ended source.new) }
{
    let filled = match outbox.fill(peer, source) {
        Ok(filled) => filled,
        Err(error) => return Err(Stop::Application(error)),
    };
    outbox.flush(peer)?;
    Ok(filled)
}

// Whether everything that was published is acknowledged, and the client is connected.
fn is_acknowledged<S: Stream, C: Clock, K: SessionSaver>(peer: &Peer<S, C, K>) -> bool
    ensures idle { result ≡ true → IsIdle peer.now.client.link.end }
    ensures up { result ≡ true → is_up peer.now.client.link.end.state ≡ true }
{
    peer.is_up() && peer.is_idle()
}

// Leaves. Fails if a message of QoS 0 may not have been written.
fn finish<S: Stream, C: Clock, K: SessionSaver>(
    peer: &mut Peer<S, C, K>,
    lost: u64,
) -> Result<(), Stop>
    requires { is_up peer.old.client.link.end.state ≡ true }
    ensures ok { OnOk result (Leaves peer.old peer.new) }
    ensures whole { OnOk result (lost ≡ 0) }
    ensures posted { Posted peer.old peer.new [] [] }
    ensures stop { IfErr result IsConnection }
{
    if lost > 0 {
        return Err(Stop::Connection(RunError::Unwritten));
    }
    peer.leave()?;
    Ok(())
}

// Publishes over one connection.
fn publish_over<S: Stream, C: Clock, K: SessionSaver, N: Network<S, C>, M: Source>(
    peer: &mut Peer<S, C, K>,
    network: &mut N,
    source: &mut M,
    outbox: &mut Outbox,
    clean: bool,
    redial: &mut Redial,
) -> Result<(), Stop>
    ensures ends { PublishEnds peer.old peer.new outbox.old.next outbox.new.next
        outbox.old.lost outbox.new.lost (M.coming source.old) (M.coming source.new) result }
    ensures last { OnOk result (outbox.new.is_ended ≡ true) }
    ensures remembers { Remembers outbox.old.is_ended (M.ended source.old)
        → Remembers outbox.new.is_ended (M.ended source.new) }
{
    open(peer, clean)?;
    for _ in 0..u64::MAX {
        let filled = send(peer, source, outbox)?;
        if filled == Filled::Ended && is_acknowledged(peer) {
            return finish(peer, outbox.lost);
        }
        if redial.is_over(network) {
            return Err(Stop::Connection(RunError::TimedOut));
        }
        listen(peer, filled)?;
        redial.note(peer);
        let tally = outbox.tally(peer.client());
        source.report(tally.done, tally.taken);
    }
    Err(Stop::Connection(RunError::Lost))
}

// Publishes over a new connection.
fn publish_once<S: Stream + Drop, C: Clock + Drop, K: SessionSaver, N: Network<S, C>, M: Source>(
    sitting: Sitting<K>,
    connection: Connection<S, C>,
    network: &mut N,
    source: &mut M,
    outbox: &mut Outbox,
    clean: bool,
    redial: &mut Redial,
) -> Sitting<K>
    ensures ends { (a : Moment) × (b : Moment)
        × StartsWith a sitting.client (K.kept sitting.keeper)
        × StartsWith b result.client (K.kept result.keeper)
        × PublishEnds a b outbox.old.next outbox.new.next outbox.old.lost outbox.new.lost
        (M.coming source.old) (M.coming source.new) result.end }
    ensures last { OnOk result.end (outbox.new.is_ended ≡ true) }
    ensures remembers { Remembers outbox.old.is_ended (M.ended source.old)
        → Remembers outbox.new.is_ended (M.ended source.new) }
{
    redial.dialed();
    let mut peer = Peer::new(
        sitting.client,
        connection.stream,
        connection.clock,
        sitting.keeper,
    );
    peer.set_quiet_limit(u64::MAX);
    let end = publish_over(&mut peer, network, source, outbox, clean, redial);
    let (client, keeper) = peer.into_parts();
    Sitting {
        client,
        keeper,
        end,
    }
}

// Makes a connection and publishes over it.
fn publish_next<S: Stream + Drop, C: Clock + Drop, K: SessionSaver, N: Network<S, C>, M: Source>(
    sitting: Sitting<K>,
    network: &mut N,
    source: &mut M,
    outbox: &mut Outbox,
    clean: bool,
    redial: &mut Redial,
) -> Sitting<K>
    ensures ends { (a : Moment) × (b : Moment)
        × StartsWith a sitting.client (K.kept sitting.keeper)
        × StartsWith b result.client (K.kept result.keeper)
        × PublishEnds a b outbox.old.next outbox.new.next outbox.old.lost outbox.new.lost
        (M.coming source.old) (M.coming source.new) result.end }
    ensures last { OnOk result.end (outbox.new.is_ended ≡ true) }
    ensures remembers { Remembers outbox.old.is_ended (M.ended source.old)
        → Remembers outbox.new.is_ended (M.ended source.new) }
{
    let Ok(connection) = network.dial() else {
        return Sitting {
            client: sitting.client,
            keeper: sitting.keeper,
            end: Err(redial.missed()),
        };
    };
    publish_once(sitting, connection, network, source, outbox, clean, redial)
}

// The end of a run.
fn end_of<K: SessionSaver>(
    sitting: Sitting<K>,
    outbox: Outbox,
    end: Result<(), RunError>,
) -> Published<K>
    ensures client { result.client ≡ sitting.client }
    ensures kept { K.kept result.keeper ≡ K.kept sitting.keeper }
    ensures end { result.end ≡ end }
{
    let tally = outbox.tally(&sitting.client);
    drop(outbox);
    Published {
        client: sitting.client,
        keeper: sitting.keeper,
        tally,
        end,
    }
}

/// Publishes the messages of a source, in order, over as many connections as it takes: after a loss
/// it waits, connects again, and continues with the session.
///
/// Ends once all are acknowledged (QoS 1 and 2) or written (QoS 0). If a message of QoS 0 may not
/// have been written before a connection was lost, the run continues, and ends with an error.
pub fn publish<S: Stream + Drop, C: Clock + Drop, K: SessionSaver, N: Network<S, C>, M: Source>(
    client: ClientEnd,
    keeper: K,
    network: &mut N,
    source: &mut M,
    options: PublishOptions,
) -> Published<K>
    ensures ok { OnOk result.end ((start : Moment) × (end : Moment)
        × StartsWith start client (K.kept keeper) × StartsWith end result.client (K.kept result.keeper)
        × AllPosted start end (M.coming source.old) (M.coming source.new)) }
    ensures err { OnErr result.end ((start : Moment) × (end : Moment)
        × StartsWith start client (K.kept keeper) × StartsWith end result.client (K.kept result.keeper)
        × PartPosted start end) }
    ensures ended { OnOk result.end (M.ended source.new) }
{
    let mut outbox = Outbox::new(&client);
    let mut redial = Redial::new(options.retry);
    let end = Err(redial.missed());
    let mut sitting = Sitting {
        client,
        keeper,
        end,
    };
    for _ in 0..u64::MAX {
        sitting = publish_next(
            sitting,
            network,
            source,
            &mut outbox,
            options.clean,
            &mut redial,
        );
        if let Some(end) = redial.next(sitting.end, false, network) {
            return end_of(sitting, outbox, end);
        }
    }
    end_of(sitting, outbox, Err(RunError::Lost))
}
