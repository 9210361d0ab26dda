//! A worker serves one connection (4.2).

ghost use Rattle.std.specs.Prelude.{◌≡◌, None, Some, true, false, IfOk, IfErr, OnOk, OnErr};
ghost use Rattle.mq_book.specs.Prelude.{Keeps, HubEvent, HubReply, WorkEnd, Breaks, Closes, Collects, Ends, Makes, Stops, Turned, bytes_events, is_known, outside, tick_events};

use crate::reply::SharedReply;
use crate::work_end::WorkEnd;
use bytes::Bytes;
use mq_route::{Conn, HubEvent};
use mq_stream::{Clock, Stream};
use std::alloc::Global;

/// Makes the steps of a broker.
pub trait Stepper {
    /// Defines a step, from one state to another, by an event and its reply.
    ghost steps_to: { Self → HubEvent → HubReply → Self → Type 0 };

    /// Why no step is made for an event.
    ghost stops: { Self → HubEvent → WorkEnd → Type 0 };

    /// Makes the step of an event. An error means that no further step must be made.
    fn step(&mut self, event: HubEvent) -> Result<SharedReply, WorkEnd>
        ensures ok { IfOk result (λ reply. steps_to self.old event reply self.new) }
        ensures err { OnErr result (self.new ≡ self.old) }
        ensures stop { IfErr result (λ why. stops self.old event why) };
}

/// A source of connections.
pub trait ConnectionSource {
    /// The stream of a connection. Its reads have a time limit.
    type Stream: Stream + Drop;

    /// The next connection. Returns `None` if no more are to be served.
    fn next(&mut self) -> Option<Self::Stream>;
}

// Passes the time to the broker, unless the broker knows it already.
fn tick<S: Stepper>(stepper: &mut S, told: &mut Option<u64>, now: u64) -> Result<(), WorkEnd>
    ensures told { told.new ≡ Some now }
    ensures ok { OnOk result (Makes S.steps_to (tick_events told.old now) stepper.old stepper.new) }
    ensures err { OnErr result (stepper.new ≡ stepper.old) }
{
    let is_known = is_known(*told, now);
    *told = Some(now);
    if is_known {
        return Ok(());
    }
    stepper.step(HubEvent::Tick(now))?;
    Ok(())
}

// Whether the last time that the broker knows is this one.
fn is_known(last: Option<u64>, now: u64) -> bool
    ensures { result ≡ is_known last now }
{
    match last {
        Some(last) => last == now,
        None => false,
    }
}

// Passes bytes to the broker, if there are some.
fn take_in<S: Stepper>(
    stepper: &mut S,
    alloc: Global,
    conn: Conn,
    bytes: &[u8],
) -> Result<(), WorkEnd>
    ensures ok { OnOk result (Makes S.steps_to (bytes_events conn bytes.now) stepper.old stepper.new) }
    ensures err { OnErr result (stepper.new ≡ stepper.old) }
{
    if bytes.is_empty() {
        return Ok(());
    }
    let Ok(bytes) = Bytes::copy_from_slice(alloc, bytes) else {
        return Err(WorkEnd::Memory);
    };
    stepper.step(HubEvent::Bytes(conn, bytes))?;
    Ok(())
}

// Collects the pending output of a connection and writes it. Returns whether the connection
// continues.
#[tactic(auto, using(crate::proofs::Connections::collected, crate::proofs::Connections::collected_cut))]
fn give_out<S: Stepper, T: Stream>(
    stepper: &mut S,
    conn: Conn,
    stream: &mut T,
) -> Result<bool, WorkEnd>
    ensures coming { Keeps (T.coming stream.old) (T.coming stream.new) }
    ensures ok { IfOk result (λ on. Collects S.steps_to conn on (T.closed stream.new) stepper.old stepper.new
        (T.written stream.old) (T.written stream.new)) }
    ensures err { OnErr result
        ((stepper.new ≡ stepper.old) × Keeps (T.written stream.old) (T.written stream.new)) }
{
    let shared = stepper.step(HubEvent::Collect(conn))?;
    let reply = shared.as_reply();
    match stream.write_all(reply.output.as_slice()) {
        Ok(()) => Ok(reply.alive),
        Err(_) => Ok(false),
    }
}

// One turn: reads, passes the time and the bytes to the broker, and writes its output. Returns
// whether the connection continues.
fn turn<S: Stepper, T: Stream, C: Clock>(
    stepper: &mut S,
    alloc: Global,
    conn: Conn,
    stream: &mut T,
    clock: &mut C,
    told: &mut Option<u64>,
    buffer: &mut [u8],
) -> Result<bool, WorkEnd>
    ensures on { IfOk result (λ on. on ≡ true → Turned S.steps_to conn told.old told.new stepper.old stepper.new
        (outside (T.coming stream.old) (T.written stream.old) (T.closed stream.old) (C.reported clock.old))
        (outside (T.coming stream.new) (T.written stream.new) (T.closed stream.new) (C.reported clock.new))) }
    ensures off { IfOk result (λ on. on ≡ false → Ends S.steps_to conn told.old stepper.old stepper.new
        (outside (T.coming stream.old) (T.written stream.old) (T.closed stream.old) (C.reported clock.old))
        (outside (T.coming stream.new) (T.written stream.new) (T.closed stream.new) (C.reported clock.new))) }
    ensures err { OnErr result (Stops S.steps_to conn told.old stepper.old stepper.new
        (outside (T.coming stream.old) (T.written stream.old) (T.closed stream.old) (C.reported clock.old))
        (outside (T.coming stream.new) (T.written stream.new) (T.closed stream.new) (C.reported clock.new))) }
{
    let Some(count) = stream.read(buffer).count() else {
        return Ok(false);
    };
    let now = clock.now();
    tick(stepper, told, now)?;
    take_in(stepper, alloc, conn, &buffer[..count])?;
    give_out(stepper, conn, stream)
}

// Turn after turn, until the connection ends.
fn turns<S: Stepper, T: Stream, C: Clock>(
    stepper: &mut S,
    alloc: Global,
    conn: Conn,
    stream: &mut T,
    clock: &mut C,
    buffer: &mut [u8],
) -> Result<(), WorkEnd>
    ensures off { OnOk result (Ends S.steps_to conn None stepper.old stepper.new
        (outside (T.coming stream.old) (T.written stream.old) (T.closed stream.old) (C.reported clock.old))
        (outside (T.coming stream.new) (T.written stream.new) (T.closed stream.new) (C.reported clock.new))) }
    ensures err { OnErr result (Stops S.steps_to conn None stepper.old stepper.new
        (outside (T.coming stream.old) (T.written stream.old) (T.closed stream.old) (C.reported clock.old))
        (outside (T.coming stream.new) (T.written stream.new) (T.closed stream.new) (C.reported clock.new))) }
{
    let mut told = None;
    for nth in 0..u64::MAX {
        if !turn(stepper, alloc, conn, stream, clock, &mut told, buffer)? {
            return Ok(());
        }
    }
    Ok(())
}

/// Serves a connection until it ends.
///
/// The events of the connection are `Opened`; in each turn `Tick` if the time changed, `Bytes` if
/// some came, and `Collect`; and at last `Ended`. A turn reads into `buffer`, which must not be
/// empty, and writes the output that it collected. The connection ends when the broker closes it,
/// or when a read or a write fails.
///
/// On error no further step must be made, and the broker may still have the connection.
pub fn serve_connection<S: Stepper, T: Stream, C: Clock>(
    stepper: &mut S,
    alloc: Global,
    conn: Conn,
    stream: &mut T,
    clock: &mut C,
    buffer: &mut [u8],
) -> Result<(), WorkEnd>
    ensures closes { OnOk result (Closes S.steps_to conn stepper.old stepper.new
        (outside (T.coming stream.old) (T.written stream.old) (T.closed stream.old) (C.reported clock.old))
        (outside (T.coming stream.new) (T.written stream.new) (T.closed stream.new) (C.reported clock.new))) }
    ensures breaks { OnErr result (Breaks S.steps_to conn stepper.old stepper.new
        (outside (T.coming stream.old) (T.written stream.old) (T.closed stream.old) (C.reported clock.old))
        (outside (T.coming stream.new) (T.written stream.new) (T.closed stream.new) (C.reported clock.new))) }
{
    stepper.step(HubEvent::Opened(conn))?;
    turns(stepper, alloc, conn, stream, clock, buffer)?;
    stepper.step(HubEvent::Ended(conn))?;
    Ok(())
}
