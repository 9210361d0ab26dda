//! Wakers of workers that are waiting at their connections.

ghost use Rattle.std.specs.Prelude.{◌≡◌, ◌<◌, ℕ, IfOk, length, slice_index_or, vec_len};
ghost use Rattle.mq_serve.specs.Prelude.{Appends, numbers_from, after_act, after_acts, call_if, must_wake, serves, uncalled, vacant};

use crate::caller::{Caller, WakerCaller};
use crate::read_order::ReadOrder;
use mio::Waker;
use mq_book::StepObserver;
use mq_route::{Act, HubReply};
use mq_topic::ClientKey;
use std::alloc::{AllocError, Global};
use std::marker::Model;
use std::sync::{Mutex, Wait};

// A worker: the client that it serves, and whether it must be woken.
#[derive(Clone, Copy, Debug)]
struct WorkerSeat {
    client: Option<ClientKey>,
    is_called: bool,
}

const VACANT: WorkerSeat = WorkerSeat {
    client: None,
    is_called: false,
};

/// The wakers of all workers, and the clients that these serve.
#[derive(Drop)]
pub struct Wakers {
    seats: Mutex<Vec<WorkerSeat>>,
    order: Mutex<ReadOrder>,
    wakers: Vec<Waker>,
}

impl Model for Wakers {
    ghost use Rattle.std.specs.Prelude.{ℕ, vec_len};

    // the number of workers
    ghost Value = { ℕ };

    ghost view = { λ w. vec_len w.wakers };
}

impl Wakers {
    /// The wakers of workers, in the order of their numbers. No worker serves a client yet.
    pub fn new(alloc: Global, wakers: Vec<Waker>) -> Result<Wakers, AllocError>
        ensures { IfOk result (λ all. all ≡ vec_len wakers) }
    {
        let seats = vec![in alloc; VACANT; wakers.len()]?;
        let order = ReadOrder::new(alloc, wakers.len())?;
        Ok(Wakers {
            seats: Mutex::new(seats),
            order: Mutex::new(order),
            wakers,
        })
    }
}

/// A worker's access to the order in which workers pass on the bytes that they read.
#[derive(Clone, Copy)]
pub struct ReadTurns<'a> {
    /// The wakers of all workers.
    pub wakers: &'a Wakers,
    /// The number of the worker.
    pub worker: u16,
}

impl<'a> ReadTurns<'a> {
    /// The access of this worker.
    pub fn new(wakers: &'a Wakers, worker: u16) -> ReadTurns<'a>
        ensures { result.worker ≡ worker }
    {
        ReadTurns { wakers, worker }
    }

    /// The worker accepted a connection. Returns its number. Must be called before another worker
    /// accepts a connection.
    pub fn accept<R: Wait>(&self, rt: &R) -> u64
        ensures { 0 < result }
    {
        let wakers = self.wakers;
        wakers.order.lock(rt).accept(self.worker)
    }

    /// The connection of the worker ended. Wakes the workers that wait for their turn.
    pub fn leave<R: Wait>(&self, rt: &R) {
        let wakers = self.wakers;
        let mut caller = WakerCaller(wakers.wakers.as_slice());
        wakers.order.lock(rt).leave(self.worker, &mut caller);
    }

    /// A read of the worker left nothing. Wakes the workers that wait for their turn.
    pub fn note_empty<R: Wait>(&self, rt: &R) {
        let wakers = self.wakers;
        let mut caller = WakerCaller(wakers.wakers.as_slice());
        wakers.order.lock(rt).note_empty(self.worker, &mut caller);
    }

    /// Whether the first bytes of this connection may be passed on. If not, the worker waits.
    pub fn is_turn<R: Wait>(&self, rt: &R, number: u64) -> bool {
        let wakers = self.wakers;
        wakers.order.lock(rt).take_turn(self.worker, number)
    }

    /// Wakes the other workers that serve a connection, so that they read it.
    pub fn wake_readers<R: Wait>(&self, rt: &R) {
        let wakers = self.wakers;
        let mut caller = WakerCaller(wakers.wakers.as_slice());
        wakers.order.lock(rt).call_readers(self.worker, &mut caller);
    }

    /// The worker waits no more for its turn.
    pub fn give_up<R: Wait>(&self, rt: &R) {
        let wakers = self.wakers;
        wakers.order.lock(rt).give_up(self.worker);
    }
}

/// Wakes the other workers whose connections have new output, or were closed, by a worker's step.
///
/// A worker that doesn't wait for its connection at that time doesn't wait the next time either.
#[derive(Drop)]
pub struct WakeOthers<'a>(pub &'a Wakers);

impl StepObserver for WakeOthers<'_> {
    fn on_step<R: Wait>(&mut self, rt: &R, worker: u16, reply: &HubReply) {
        let acts = reply.acts.as_slice();
        if acts.is_empty() {
            return;
        }
        let wakers = self.0;
        let mut caller = WakerCaller(wakers.wakers.as_slice());
        call_others(&mut wakers.seats.lock(rt), acts, worker, &mut caller);
    }
}

// Notes the acts of a step, and calls the other workers that must be woken.
fn call_others<C: Caller>(seats: &mut [WorkerSeat], acts: &[Act], stepped: u16, caller: &mut C)
    ensures noted { (number : ℕ) → number < length seats.old → slice_index_or seats.new number vacant
        ≡ after_acts number acts.now (uncalled (slice_index_or seats.old number vacant)) }
    ensures called { Appends (C.called caller.old) (C.called caller.new)
        (numbers_from (must_wake stepped) 0 seats.new) }
{
    note_acts(seats, acts);
    call_noted(seats, stepped, caller);
}

// Each worker serves the client, and is called, as these acts say.
fn note_acts(seats: &mut [WorkerSeat], acts: &[Act])
    ensures { (number : ℕ) → number < length seats.old → slice_index_or seats.new number vacant
        ≡ after_acts number acts.now (uncalled (slice_index_or seats.old number vacant)) }
{
    for number in 0..seats.len() {
        let before = uncalled(&seats[number]);
        seats[number] = after_acts(before, number, acts);
    }
}

// The worker is not called.
fn uncalled(seat: &WorkerSeat) -> WorkerSeat
    ensures { result ≡ uncalled seat.now }
{
    WorkerSeat {
        client: seat.client,
        is_called: false,
    }
}

// Calls the workers that must be woken, except the one that made the step.
fn call_noted<C: Caller>(seats: &[WorkerSeat], stepped: u16, caller: &mut C)
    ensures { Appends (C.called caller.old) (C.called caller.new)
        (numbers_from (must_wake stepped) 0 seats.now) }
{
    for (number, seat) in seats.iter().enumerate() {
        if must_wake(stepped, number, seat) {
            caller.call(number);
        }
    }
}

// Whether the worker with this number must be woken after a step of another one.
fn must_wake(stepped: u16, number: usize, seat: &WorkerSeat) -> bool
    ensures { result ≡ must_wake stepped number seat.now }
{
    seat.is_called && number != usize::from(stepped)
}

// The worker with this number after these acts.
fn after_acts(seat: WorkerSeat, number: usize, acts: &[Act]) -> WorkerSeat
    ensures { result ≡ after_acts number acts.now seat }
{
    let mut seat = seat;
    let mut rest = acts;
    while let [act, more @ ..] = rest {
        seat = after_act(seat, number, act);
        rest = more;
    }
    seat
}

fn after_act(seat: WorkerSeat, number: usize, act: &Act) -> WorkerSeat
    ensures { result ≡ after_act number act.now seat }
{
    match act {
        Act::Up(conn, client, _) if usize::from(conn.worker) == number => WorkerSeat {
            client: Some(*client),
            is_called: seat.is_called,
        },
        Act::Placed(client, _) => {
            let must_wake = serves(&seat, *client);
            call_if(seat, must_wake)
        }
        Act::Closed(conn, _) => call_if(seat, usize::from(conn.worker) == number),
        _ => seat,
    }
}

fn call_if(mut seat: WorkerSeat, must_wake: bool) -> WorkerSeat
    ensures { result ≡ call_if must_wake seat }
{
    seat.is_called = seat.is_called || must_wake;
    seat
}

fn serves(seat: &WorkerSeat, client: ClientKey) -> bool
    ensures { result ≡ serves client seat.now }
{
    match &seat.client {
        Some(key) => key.get() == client.get(),
        None => false,
    }
}
