//! The run of `mqtt sub`.

ghost use Rattle.std.specs.Prelude.{◌≡◌, ◌∷◌, [], true, false, IfErr, OnErr, OnOk};
ghost use Rattle.mq_pubsub_runs.specs.Prelude.{Moment, Opening, Went, WentFirst, StartsWith, IsConnection, Stays, SubscribeEnds, Watched, WatchedPart, WatchedUntil, first_inbox, requests_of, subscriptions_of, unsubscriptions_of};

use crate::network::Network;
use crate::redial::Redial;
use crate::stop::Stop;
use mq_client::{Connection, Peer, SessionSaver};
use mq_end::{ClientEnd, CloseReason};
use mq_pubsub::{Inbox, Notice, Printer, RunError, Setup, SubscribeOptions};
use mq_stream::{Clock, Stream};
use std::alloc::Global;

/// The end of a run.
#[derive(Drop)]
pub struct Subscribed<K: SessionSaver> {
    /// The session saver.
    pub keeper: K,
    /// How far the subscriber came.
    pub inbox: Inbox,
    /// `Ok` if the run came to its end.
    pub end: Result<(), RunError>,
}

// A client between two connections.
#[derive(Drop)]
struct Sitting<K: SessionSaver> {
    client: ClientEnd,
    keeper: K,
    // The end of the work over the last connection.
    end: Result<(), Stop>,
}

// A subscriber that begins.
fn first_inbox(options: &SubscribeOptions<'_>) -> Inbox
    ensures { result ≡ first_inbox options.now }
{
    Inbox {
        left: options.count,
        only_gives_up: options.requests.is_none(),
        is_granted: false,
        is_due: true,
        is_ended: false,
    }
}

// Begins a connection.
fn open<S: Stream, C: Clock, K: SessionSaver>(
    peer: &mut Peer<S, C, K>,
    clean: bool,
) -> Result<(), Stop>
    ensures went { WentFirst peer.old peer.new (Opening clean ∷ []) [] [] }
    ensures stop { IfErr result IsConnection }
{
    peer.open(clean)?;
    Ok(())
}

// Receives the bytes of one read, and prints the messages that they complete. Sends nothing.
// Returns why the client closed, if it did.
fn read<S: Stream, C: Clock, K: SessionSaver, P: Printer>(
    peer: &mut Peer<S, C, K>,
    inbox: &mut Inbox,
    options: &SubscribeOptions<'_>,
    printer: &mut P,
) -> Result<Option<CloseReason>, Stop>
    ensures ok { OnOk result (Watched options.now
        peer.old inbox.old (P.shown printer.old) peer.new inbox.new (P.shown printer.new)) }
    ensures err { IfErr result (WatchedUntil options.now
        peer.old inbox.old (P.shown printer.old) peer.new inbox.new (P.shown printer.new)) }
{
    let progress = peer.hear()?;
    let happenings = progress.happenings.as_slice();
    let output = peer.client().output();
    let ends = options.ends_when_granted;
    let taken = inbox.take_all(&options.choice, ends, happenings, output, printer);
    let closed = progress.closed;
    drop(progress);
    match taken {
        Ok(()) => Ok(closed),
        Err(error) => Err(Stop::Application(error)),
    }
}

// Requests subscriptions, if there are some.
fn subscribe_to<S: Stream, C: Clock, K: SessionSaver>(
    peer: &mut Peer<S, C, K>,
    options: &SubscribeOptions<'_>,
) -> Result<(), Stop>
    ensures ok { OnOk result (Went peer.old peer.new (subscriptions_of options.now) [] []) }
    ensures err { OnErr result (Went peer.old peer.new [] [] []) }
    ensures stop { IfErr result IsConnection }
{
    let Some(requests) = options.requests else {
        return Ok(());
    };
    peer.subscribe(requests.clone()?)?;
    Ok(())
}

// Requests the end of subscriptions, if some are given up.
fn unsubscribe_from<S: Stream, C: Clock, K: SessionSaver>(
    peer: &mut Peer<S, C, K>,
    options: &SubscribeOptions<'_>,
) -> Result<(), Stop>
    ensures ok { OnOk result (Went peer.old peer.new (unsubscriptions_of options.now) [] []) }
    ensures err { OnErr result (Went peer.old peer.new [] [] []) }
    ensures stop { IfErr result IsConnection }
{
    let Some(filters) = options.given_up else {
        return Ok(());
    };
    peer.unsubscribe(filters.clone()?)?;
    Ok(())
}

// Makes the requests.
fn request<S: Stream, C: Clock, K: SessionSaver>(
    peer: &mut Peer<S, C, K>,
    options: &SubscribeOptions<'_>,
) -> Result<(), Stop>
    ensures ok { OnOk result (Went peer.old peer.new (requests_of options.now) [] []) }
    ensures err { OnErr result (WentFirst peer.old peer.new (requests_of options.now) [] []) }
    ensures stop { IfErr result IsConnection }
{
    subscribe_to(peer, options)?;
    unsubscribe_from(peer, options)
}

// Sends the output, and first the requests if they are due.
fn answer<S: Stream, C: Clock, K: SessionSaver>(
    peer: &mut Peer<S, C, K>,
    options: &SubscribeOptions<'_>,
    is_due: bool,
    closed: Option<CloseReason>,
) -> Result<(), Stop>
    ensures due { is_due ≡ true
        → WentFirst peer.old peer.new (requests_of options.now) [] [] }
    ensures not_due { is_due ≡ false → Went peer.old peer.new [] [] [] }
    ensures stop { IfErr result IsConnection }
{
    if is_due {
        request(peer, options)?;
        peer.answer(closed)?;
        return Ok(());
    }
    peer.answer(closed)?;
    Ok(())
}

// Whether the requests are made now: they are due, and the client has just been connected.
fn is_due<S: Stream, C: Clock, K: SessionSaver>(
    peer: &Peer<S, C, K>,
    inbox: &Inbox,
    was_up: bool,
) -> bool
    ensures { result ≡ true → inbox.now.is_due ≡ true }
{
    inbox.is_due && !was_up && peer.is_up()
}

// Receives the bytes of one read, prints the messages that they complete, and then answers.
fn attend<S: Stream, C: Clock, K: SessionSaver, P: Printer>(
    peer: &mut Peer<S, C, K>,
    inbox: &mut Inbox,
    options: &SubscribeOptions<'_>,
    printer: &mut P,
) -> Result<(), Stop>
    ensures ok { OnOk result (Watched options.now
        peer.old inbox.old (P.shown printer.old) peer.new inbox.new (P.shown printer.new)) }
    ensures err { IfErr result (WatchedUntil options.now
        peer.old inbox.old (P.shown printer.old) peer.new inbox.new (P.shown printer.new)) }
{
    let was_up = peer.is_up();
    let closed = read(peer, inbox, options, printer)?;
    let is_due = is_due(peer, inbox, was_up);
    answer(peer, options, is_due, closed)
}

// Leaves, if the client is connected.
fn leave<S: Stream, C: Clock, K: SessionSaver>(peer: &mut Peer<S, C, K>) -> Result<(), Stop>
    ensures went { Went peer.old peer.new [] [] [] }
    ensures stop { IfErr result IsConnection }
{
    if !peer.is_up() {
        return Ok(());
    }
    peer.leave()?;
    Ok(())
}

// Leaves, because the time of the run is over.
fn give_up<S: Stream, C: Clock, K: SessionSaver>(peer: &mut Peer<S, C, K>) -> Stop
    ensures went { Went peer.old peer.new [] [] [] }
    ensures stop { IsConnection result }
{
    match leave(peer) {
        Ok(()) => Stop::Connection(RunError::TimedOut),
        Err(stop) => stop,
    }
}

// Subscribes over one connection, and prints the messages.
fn subscribe_over<S: Stream, C: Clock, K: SessionSaver, N: Network<S, C>, P: Printer>(
    peer: &mut Peer<S, C, K>,
    network: &mut N,
    inbox: &mut Inbox,
    options: &SubscribeOptions<'_>,
    printer: &mut P,
    redial: &mut Redial,
) -> Result<(), Stop>
    ensures { SubscribeEnds options.now peer.old inbox.old (P.shown printer.old)
        peer.new inbox.new (P.shown printer.new) result }
{
    open(peer, options.clean)?;
    for _ in 0..u64::MAX {
        attend(peer, inbox, options, printer)?;
        redial.note(peer);
        if inbox.is_ended {
            return leave(peer);
        }
        if redial.is_over(network) {
            return Err(give_up(peer));
        }
    }
    Err(Stop::Connection(RunError::Lost))
}

// Subscribes over a new connection.
fn subscribe_once<S: Stream + Drop, C: Clock + Drop, K: SessionSaver, N: Network<S, C>, P: Printer>(
    sitting: Sitting<K>,
    connection: Connection<S, C>,
    network: &mut N,
    inbox: &mut Inbox,
    options: &SubscribeOptions<'_>,
    printer: &mut P,
    redial: &mut Redial,
) -> Sitting<K>
    ensures { (a : Moment) × (b : Moment)
        × StartsWith a sitting.client (K.kept sitting.keeper)
        × StartsWith b result.client (K.kept result.keeper)
        × SubscribeEnds options.now a inbox.old (P.shown printer.old)
        b inbox.new (P.shown printer.new) result.end }
{
    redial.dialed();
    let mut peer = Peer::new(
        sitting.client,
        connection.stream,
        connection.clock,
        sitting.keeper,
    );
    peer.set_quiet_limit(u64::MAX);
    let end = subscribe_over(&mut peer, network, inbox, options, printer, redial);
    let (client, keeper) = peer.into_parts();
    Sitting {
        client,
        keeper,
        end,
    }
}

// Makes a connection and subscribes over it.
fn subscribe_next<S: Stream + Drop, C: Clock + Drop, K: SessionSaver, N: Network<S, C>, P: Printer>(
    sitting: Sitting<K>,
    network: &mut N,
    inbox: &mut Inbox,
    options: &SubscribeOptions<'_>,
    printer: &mut P,
    redial: &mut Redial,
) -> Sitting<K>
    ensures { (a : Moment) × (b : Moment)
        × StartsWith a sitting.client (K.kept sitting.keeper)
        × StartsWith b result.client (K.kept result.keeper)
        × SubscribeEnds options.now a inbox.old (P.shown printer.old)
        b inbox.new (P.shown printer.new) result.end }
{
    let Ok(connection) = network.dial() else {
        return Sitting {
            client: sitting.client,
            keeper: sitting.keeper,
            end: Err(redial.missed()),
        };
    };
    subscribe_once(
        sitting, connection, network, inbox, options, printer, redial,
    )
}

// Replaces the client by a new one if the server lost the session.
fn renew<K: SessionSaver, P: Printer>(
    alloc: Global,
    setup: &Setup,
    sitting: Sitting<K>,
    inbox: &mut Inbox,
    printer: &mut P,
) -> Sitting<K>
    ensures shown { P.shown printer.new ≡ P.shown printer.old }
    ensures kept { K.kept result.keeper ≡ K.kept sitting.keeper }
    ensures client { Stays sitting.client result.client inbox.old inbox.new }
    ensures end { result.end ≡ sitting.end }
{
    let Err(stop) = sitting.end else {
        return sitting;
    };
    if !stop.is_session_lost() {
        return sitting;
    }
    let Ok(client) = setup.client(alloc) else {
        return sitting;
    };
    printer.notice(Notice::SessionLost);
    inbox.is_granted = false;
    let Sitting {
        client: lost,
        keeper,
        end,
    } = sitting;
    drop(lost);
    Sitting {
        client,
        keeper,
        end,
    }
}

// The end of a run.
fn end_of<K: SessionSaver>(
    sitting: Sitting<K>,
    inbox: Inbox,
    end: Result<(), RunError>,
) -> Subscribed<K>
    ensures inbox { result.inbox ≡ inbox }
    ensures end { result.end ≡ end }
{
    let Sitting { client, keeper, .. } = sitting;
    drop(client);
    Subscribed { keeper, inbox, end }
}

/// Subscribes, and prints the messages that are delivered, in order, over as many connections as it
/// takes: after a loss it waits, connects again, and continues with the session.
///
/// The subscriptions are requested on the first connection, and again on each one for which the
/// server has no session or in whose session it has not granted them. A message is printed and
/// flushed before it is acknowledged.
pub fn subscribe<S: Stream + Drop, C: Clock + Drop, K: SessionSaver, N: Network<S, C>, P: Printer>(
    alloc: Global,
    setup: &Setup,
    client: ClientEnd,
    keeper: K,
    network: &mut N,
    options: &SubscribeOptions<'_>,
    printer: &mut P,
) -> Subscribed<K>
    ensures ok { OnOk result.end ((start : Moment) × StartsWith start client (K.kept keeper)
        × (end : Moment) × Watched options.now
        start (first_inbox options.now) (P.shown printer.old)
        end result.inbox (P.shown printer.new)) }
    ensures ended { OnOk result.end (result.inbox.is_ended ≡ true) }
    ensures err { OnErr result.end ((start : Moment) × StartsWith start client (K.kept keeper)
        × WatchedPart options.now
        start (first_inbox options.now) (P.shown printer.old) (P.shown printer.new)) }
{
    let mut inbox = first_inbox(options);
    let mut redial = Redial::new(options.retry);
    let end = Err(redial.missed());
    let mut sitting = Sitting {
        client,
        keeper,
        end,
    };
    for _ in 0..u64::MAX {
        sitting = subscribe_next(sitting, network, &mut inbox, options, printer, &mut redial);
        if let Some(end) = redial.next(sitting.end, true, network) {
            return end_of(sitting, inbox, end);
        }
        sitting = renew(alloc, setup, sitting, &mut inbox, printer);
    }
    end_of(sitting, inbox, Err(RunError::Lost))
}
