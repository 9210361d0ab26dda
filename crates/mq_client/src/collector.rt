//! The program `collect`.

ghost use Rattle.std.specs.Prelude.{◌≡◌, ◌-◌, ◌<◌, ◌∷◌, ◌⊎◌, ℕ, List, [], true, false, length, IfOk, IfSome, OnErr, OnOk};
ghost use Rattle.mq_client.specs.Prelude.{flat_map, Prints, none_received, is_up, Opening, Subscription, Went, closes_of, Gathers, IsAnswered, IsCollectDone, KeepsFirst, Unacknowledged, Unprinted, collects, grants, handed, request_of};
ghost use Rattle.std.specs.Io.KnownBytes.{Keeps as Silent};
ghost use Rattle.mq_client.specs.Collecting.{Keeps};

use crate::error::ClientError;
use crate::lines::{print_told, write_bytes, write_halt};
use crate::peer::Peer;
use crate::saver::SessionSaver;
use crate::stop::Stop;
use mq_end::Happening;
use mq_packet::{NonEmpty, Request, SubAckCode};
use mq_stream::{Clock, Stream};
use mq_topic::{Qos, TopicFilter};
use std::alloc::Global;
use std::io;
use std::io::Write;

/// The messages to collect.
#[derive(Clone, Copy, Debug)]
pub struct CollectGoal<'a> {
    /// The filter of their topics.
    pub filter: &'a TopicFilter,
    /// The maximum quality of service to request.
    pub qos: Qos,
    /// The minimum number of messages.
    pub count: u32,
}

// The subscription to request.
fn requests_of(alloc: Global, goal: &CollectGoal<'_>) -> Result<NonEmpty<Request>, ClientError>
    ensures ok { IfOk result (λ requests. requests ≡ request_of goal.now ∷ []) }
    ensures goes_on { closes_of result ≡ [] }
{
    let request = Request {
        filter: goal.filter.clone()?,
        qos: goal.qos,
    };
    let mut requests = Vec::new(alloc);
    match requests.push(request) {
        Ok(()) => Ok(NonEmpty::from_vec(requests)),
        Err(_) => Err(ClientError::Memory),
    }
}

// Whether a SUBACK grants the subscription (3.9.3).
fn grants(codes: &[SubAckCode]) -> bool
    ensures { result ≡ grants codes.now }
{
    match codes {
        [SubAckCode::Granted(_), ..] => true,
        [SubAckCode::Failure, ..] | [] => false,
    }
}

// Whether the server granted the subscription, if it has answered.
fn answer_in(happenings: &[Happening]) -> Option<bool>
    ensures { IfSome result (λ granted. IsAnswered granted happenings.now) }
{
    for happening in happenings {
        if let Happening::SubAck { codes, .. } = happening {
            return Some(grants(codes.as_slice()));
        }
    }
    None
}

// The number of messages that are delivered.
fn handed(happening: &Happening) -> u32
    ensures { result ≡ length (handed happening.now) }
{
    match happening {
        Happening::Handed(_) => 1,
        Happening::Up { .. }
        | Happening::Subscribe { .. }
        | Happening::Unsubscribe { .. }
        | Happening::SubAck { .. }
        | Happening::UnsubAck(_)
        | Happening::Pong => 0,
    }
}

// The number of messages that are still wanted after these.
fn left_after(happenings: &[Happening], left: u32) -> u32
    ensures { result ≡ left - length (flat_map handed happenings.now) }
{
    let mut left = left;
    for happening in happenings {
        left = left.saturating_sub(handed(happening));
    }
    left
}

// Whether a message is delivered.
fn has_message(happenings: &[Happening]) -> bool
    ensures { result ≡ false → flat_map handed happenings.now ≡ [] }
{
    left_after(happenings, 1) == 0
}

// Receives the bytes of one read, and appends the happenings. Sends nothing.
fn keep<S: Stream, C: Clock, K: SessionSaver>(
    peer: &mut Peer<S, C, K>,
    kept: &mut Vec<Happening>,
) -> Result<(), ClientError>
    ensures kept { Keeps peer.old peer.new [] kept.old.items kept.new.items result }
    ensures silent { Silent peer.old.written peer.new.written }
{
    let progress = peer.hear()?;
    let closed = progress.closed;
    let mut told = progress.happenings.into_vec()?;
    if let Err(_) = kept.append(&mut told) {
        return Err(ClientError::Memory);
    }
    match closed {
        Some(reason) => Err(ClientError::Closed(reason)),
        None => Ok(()),
    }
}

// Waits until the client is connected.
fn await_up<S: Stream, C: Clock, K: SessionSaver>(
    peer: &mut Peer<S, C, K>,
    kept: &mut Vec<Happening>,
) -> Result<(), ClientError>
    ensures kept { Keeps peer.old peer.new [] kept.old.items kept.new.items result }
    ensures silent { Silent peer.old.written peer.new.written }
{
    for _ in 0..u64::MAX {
        keep(peer, kept)?;
        if peer.is_up() {
            return Ok(());
        }
    }
    Err(ClientError::Lost)
}

// Sends the output, unless a message is delivered: it is printed before its acknowledgement is
// sent.
fn send<S: Stream, C: Clock, K: SessionSaver>(
    peer: &mut Peer<S, C, K>,
    kept: &[Happening],
) -> Result<(), ClientError>
    ensures went { Went peer.old peer.new [] [] [] }
    ensures sent { (flat_map handed kept.now ≡ []) ⊎ (peer.new ≡ peer.old) }
    ensures goes_on { closes_of result ≡ [] }
{
    if has_message(kept) {
        return Ok(());
    }
    peer.write()
}

// Waits until the server answers the subscription.
fn await_answer<S: Stream, C: Clock, K: SessionSaver>(
    peer: &mut Peer<S, C, K>,
    kept: &mut Vec<Happening>,
) -> Result<(), ClientError>
    ensures kept { Keeps peer.old peer.new [] kept.old.items kept.new.items result }
    ensures granted { OnOk result (IsAnswered true kept.new.items) }
    ensures unacknowledged { Unacknowledged peer.old peer.new }
{
    for _ in 0..u64::MAX {
        keep(peer, kept)?;
        match answer_in(kept.as_slice()) {
            Some(true) => return Ok(()),
            Some(false) => return Err(ClientError::NotSubscribed),
            None => {}
        }
        send(peer, kept.as_slice())?;
    }
    Err(ClientError::Lost)
}

// Connects, and waits until the client is connected.
fn rise<S: Stream, C: Clock, K: SessionSaver>(
    peer: &mut Peer<S, C, K>,
    clean: bool,
    kept: &mut Vec<Happening>,
) -> Result<(), ClientError>
    ensures ok { OnOk result
        (Keeps peer.old peer.new (Opening clean ∷ []) kept.old.items kept.new.items result) }
    ensures err { OnErr result
        (KeepsFirst peer.old peer.new (Opening clean ∷ []) kept.old.items kept.new.items result) }
    ensures unacknowledged { Unacknowledged peer.old peer.new }
{
    peer.open(clean)?;
    await_up(peer, kept)
}

// Subscribes, and waits until the server grants the subscription.
fn ask<S: Stream, C: Clock, K: SessionSaver>(
    alloc: Global,
    peer: &mut Peer<S, C, K>,
    goal: &CollectGoal<'_>,
    kept: &mut Vec<Happening>,
) -> Result<(), ClientError>
    ensures ok { OnOk result (Keeps peer.old peer.new (Subscription (request_of goal.now ∷ []) ∷ [])
        kept.old.items kept.new.items result) }
    ensures granted { OnOk result (IsAnswered true kept.new.items) }
    ensures err { OnErr result (KeepsFirst peer.old peer.new
        (Subscription (request_of goal.now ∷ []) ∷ []) kept.old.items kept.new.items result) }
    ensures unacknowledged { Unacknowledged peer.old peer.new }
{
    peer.subscribe(requests_of(alloc, goal)?)?;
    peer.write()?;
    await_answer(peer, kept)
}

/// Connects, subscribes, and waits until the server grants the subscription. `clean` is the clean
/// session flag. Appends the happenings to `kept`.
///
/// Messages may come before the subscription is granted. Their acknowledgements stay in the output
/// until the next [`Peer::answer`] or [`Peer::write`], also after an error.
pub fn begin<S: Stream, C: Clock, K: SessionSaver>(
    alloc: Global,
    peer: &mut Peer<S, C, K>,
    goal: &CollectGoal<'_>,
    clean: bool,
    kept: &mut Vec<Happening>,
) -> Result<(), ClientError>
    ensures ok { OnOk result
        (Keeps peer.old peer.new (collects clean goal.now) kept.old.items kept.new.items result) }
    ensures granted { OnOk result (IsAnswered true kept.new.items) }
    ensures err { OnErr result (KeepsFirst peer.old peer.new (collects clean goal.now)
        kept.old.items kept.new.items result) }
    ensures unacknowledged { Unacknowledged peer.old peer.new }
{
    rise(peer, clean, kept)?;
    // SUBSCRIBE would be sent behind an acknowledgement. `Peer::hear` reads CONNACK alone, so there
    // is none.
    if has_message(kept.as_slice()) {
        return Err(ClientError::Lost);
    }
    ask(alloc, peer, goal, kept)
}

// Whether enough messages are delivered, all are released, and the client is connected.
fn is_enough<S: Stream, C: Clock, K: SessionSaver>(peer: &Peer<S, C, K>, left: u32) -> bool
    ensures yes { result ≡ true → (left ≡ 0) × (peer.now.client.link.end.received ≡ none_received)
        × (is_up peer.now.client.link.end.state ≡ true) }
    ensures no { result ≡ false → (0 < left) ⊎ ((peer.now.client.link.end.received ≡ none_received → ⊥)
        ⊎ (is_up peer.now.client.link.end.state ≡ false)) }
{
    left == 0 && peer.is_released() && peer.is_up()
}

// Prints the messages that come, until `count` are delivered and all are released. A message is
// printed and flushed before its acknowledgement is sent.
fn gather<S: Stream, C: Clock, K: SessionSaver, W: Write>(
    alloc: Global,
    peer: &mut Peer<S, C, K>,
    count: u32,
    output: &mut W,
) -> io::Result<Result<(), ClientError>>
    ensures ok { IfOk result (Gathers peer.old peer.new (W.contents output.old) (W.contents output.new) count) }
    ensures err { OnErr result (Unprinted peer.old peer.new [] (W.contents output.old) (W.contents output.new)) }
{
    let mut left = count;
    for _ in 0..u64::MAX {
        if is_enough(peer, left) {
            return Ok(Ok(()));
        }
        let progress = match peer.hear() {
            Ok(progress) => progress,
            Err(halt) => return Ok(Err(halt)),
        };
        print_told(alloc, output, progress.happenings.as_slice())?;
        left = left_after(progress.happenings.as_slice(), left);
        if let Err(halt) = peer.answer(progress.closed) {
            return Ok(Err(halt));
        }
    }
    Ok(Err(ClientError::Lost))
}

/// Connects, subscribes, prints `subscribed` and then each message that is delivered, until there
/// are enough and all are released; then it leaves. `clean` is the clean session flag. If it stops
/// earlier, `stop` gets the reason. Returns the status of the program.
///
/// A message is printed and flushed before its acknowledgement is sent, also if it comes before the
/// subscription is granted.
pub fn collect<S: Stream, C: Clock, K: SessionSaver, W: Write>(
    alloc: Global,
    peer: &mut Peer<S, C, K>,
    goal: &CollectGoal<'_>,
    clean: bool,
    stop: &mut Option<Stop>,
    output: &mut W,
) -> io::Result<u8>
    ensures ok { IfOk result (λ status. Prints (W.contents output.old) (W.contents output.new)
        (IsCollectDone peer.old peer.new clean goal.now status)) }
    ensures err { OnErr result ((line : List ℕ)
        × Unprinted peer.old peer.new line (W.contents output.old) (W.contents output.new)) }
{
    let mut kept = Vec::new(alloc);
    let begun = begin(alloc, peer, goal, clean, &mut kept);
    if let Err(halt) = begun {
        print_told(alloc, output, kept.as_slice())?;
        *stop = Some(Stop::Halted(peer.collect_halt(halt)));
        return write_halt(output, halt);
    }
    write_bytes(output, b"subscribed\n")?;
    print_told(alloc, output, kept.as_slice())?;
    if let Err(halt) = peer.write() {
        *stop = Some(Stop::Halted(peer.collect_halt(halt)));
        return write_halt(output, halt);
    }
    let left = left_after(kept.as_slice(), goal.count);
    if let Err(halt) = gather(alloc, peer, left, output)? {
        *stop = Some(Stop::Halted(peer.collect_halt(halt)));
        return write_halt(output, halt);
    }
    if let Err(halt) = peer.leave() {
        *stop = Some(Stop::Halted(peer.collect_halt(halt)));
        return write_halt(output, halt);
    }
    Ok(0)
}
