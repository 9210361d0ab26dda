//! The order in which workers pass on the bytes that they read.

ghost use Rattle.std.specs.Prelude.{◌≡◌, ◌+◌, ◌-◌, ◌^◌, IfOk, false, min, not, replicate};
ghost use Rattle.mq_serve.specs.Prelude.{Appends, list_all, numbers_from, after_empty_read, idle, is_later, is_read, reads_beside, seat_of, serving, waits, with_seat, with_waiting};

use crate::caller::Caller;
use std::alloc::{AllocError, Global};
use std::marker::Model;

/// The reading of a worker.
#[derive(Clone, Copy, Debug, PartialEq, Eq)]
pub struct ReadSeat {
    /// The connection that it serves.
    pub connection: Option<u64>,
    /// A read left nothing after this connection was accepted.
    pub emptied: u64,
    /// The last connection that was accepted when the last read left nothing.
    pub seen: u64,
    /// The worker waits until it may pass on the first bytes of its connection.
    pub is_waiting: bool,
}

/// The readings of all workers. Connections are numbered in the order in which they were accepted.
///
/// A client that leaves and connects again may be served by another worker. Its first connection
/// must be read to its end before the first bytes of the second one are passed to the broker.
#[derive(Drop)]
pub struct ReadOrder {
    last: u64,
    seats: Vec<ReadSeat>,
}

impl Model for ReadOrder {
    ghost use Rattle.mq_serve.specs.ReadOrder.{Readings, readings_of};

    ghost Value = { Readings };

    ghost view = { λ o. readings_of o.last o.seats.items };
}

const IDLE: ReadSeat = ReadSeat {
    connection: None,
    emptied: 0,
    seen: 0,
    is_waiting: false,
};

fn is_later(number: u64, connection: Option<u64>) -> bool
    ensures { result ≡ is_later number connection }
{
    match connection {
        Some(own) => number <= own,
        None => true,
    }
}

fn is_read(number: u64, seat: &ReadSeat) -> bool
    ensures { result ≡ is_read number seat.now }
{
    is_later(number, seat.connection) || number <= seat.emptied
}

fn are_read(number: u64, seats: &[ReadSeat]) -> bool
    ensures { result ≡ list_all (is_read number) seats.now }
{
    let mut rest = seats;
    while let [seat, more @ ..] = rest {
        if !is_read(number, seat) {
            return false;
        }
        rest = more;
    }
    true
}

fn after_empty_read(last: u64, seat: ReadSeat) -> ReadSeat
    ensures { result ≡ after_empty_read last seat }
{
    ReadSeat {
        emptied: seat.seen,
        seen: last,
        ..seat
    }
}

impl ReadOrder {
    /// The order of this number of workers, which serve nothing yet.
    pub fn new(alloc: Global, workers: usize) -> Result<ReadOrder, AllocError>
        ensures { IfOk result (λ order. order ≡ record { last = 0; seats = replicate workers idle }) }
    {
        let seats = vec![in alloc; IDLE; workers]?;
        Ok(ReadOrder { last: 0, seats })
    }

    // The reading of a worker changes, if there is such a worker.
    fn put(&mut self, worker: u16, seat: ReadSeat)
        ensures { self.new ≡ with_seat worker seat self.old }
    {
        let at = usize::from(worker);
        if at < self.seats.len() {
            self.seats[at] = seat;
        }
    }

    // The reading of a worker; an idle one if there is no such worker.
    fn seat(&self, worker: u16) -> ReadSeat
        ensures { result ≡ seat_of worker self.now }
    {
        let at = usize::from(worker);
        if at < self.seats.len() {
            self.seats[at]
        } else {
            IDLE
        }
    }

    /// A worker serves a connection that was accepted now. Returns the number of the connection.
    pub fn accept(&mut self, worker: u16) -> u64
        ensures number { result ≡ min (self.old.last + 1) (2 ^ 64 - 1) }
        ensures seats { self.new ≡ with_seat worker (serving result) (record self.old { last = result }) }
    {
        let number = self.last.saturating_add(1);
        self.last = number;
        self.put(
            worker,
            ReadSeat {
                connection: Some(number),
                ..IDLE
            },
        );
        number
    }

    /// The connection of a worker ended, and everything that was read of it is passed on. Calls the
    /// workers that wait for their turn.
    pub fn leave<C: Caller>(&mut self, worker: u16, caller: &mut C)
        ensures seats { self.new ≡ with_seat worker idle self.old }
        ensures called { Appends (C.called caller.old) (C.called caller.new)
            (numbers_from waits 0 self.new.seats) }
    {
        self.put(worker, IDLE);
        call_waiting(self.seats.as_slice(), caller);
    }

    /// A read of a worker left nothing, and everything that was read before is passed on. Calls the
    /// workers that wait for their turn.
    pub fn note_empty<C: Caller>(&mut self, worker: u16, caller: &mut C)
        ensures seats { self.new ≡ with_seat worker (after_empty_read self.old.last (seat_of worker self.old)) self.old }
        ensures called { Appends (C.called caller.old) (C.called caller.new)
            (numbers_from waits 0 self.new.seats) }
    {
        let seat = after_empty_read(self.last, self.seat(worker));
        self.put(worker, seat);
        call_waiting(self.seats.as_slice(), caller);
    }

    /// Returns whether the first bytes of this connection may be passed on. If not, the worker
    /// waits for its turn.
    pub fn take_turn(&mut self, worker: u16, number: u64) -> bool
        ensures turn { result ≡ list_all (is_read number) self.old.seats }
        ensures seats { self.new ≡ with_seat worker (with_waiting (not result) (seat_of worker self.old)) self.old }
    {
        let is_turn = are_read(number, self.seats.as_slice());
        self.set_waiting(worker, !is_turn);
        is_turn
    }

    /// A worker waits no more for its turn.
    pub fn give_up(&mut self, worker: u16)
        ensures { self.new ≡ with_seat worker (with_waiting false (seat_of worker self.old)) self.old }
    {
        self.set_waiting(worker, false);
    }

    /// Calls the other workers that serve a connection.
    pub fn call_readers<C: Caller>(&self, worker: u16, caller: &mut C)
        ensures { Appends (C.called caller.old) (C.called caller.new)
            (numbers_from (reads_beside worker) 0 self.now.seats) }
    {
        call_readers(self.seats.as_slice(), worker, caller);
    }

    // A worker waits for its turn, or waits no more.
    fn set_waiting(&mut self, worker: u16, is_waiting: bool)
        ensures { self.new ≡ with_seat worker (with_waiting is_waiting (seat_of worker self.old)) self.old }
    {
        let mut seat = self.seat(worker);
        seat.is_waiting = is_waiting;
        self.put(worker, seat);
    }
}

// Calls the workers that wait for their turn.
fn call_waiting<C: Caller>(seats: &[ReadSeat], caller: &mut C)
    ensures { Appends (C.called caller.old) (C.called caller.new)
        (numbers_from waits 0 seats.now) }
{
    for (number, seat) in seats.iter().enumerate() {
        if waits(seat) {
            caller.call(number);
        }
    }
}

// Whether the worker waits for its turn.
fn waits(seat: &ReadSeat) -> bool
    ensures { result ≡ seat.now.is_waiting }
{
    seat.is_waiting
}

// Calls the workers that serve a connection, except this one.
fn call_readers<C: Caller>(seats: &[ReadSeat], worker: u16, caller: &mut C)
    ensures { Appends (C.called caller.old) (C.called caller.new)
        (numbers_from (reads_beside worker) 0 seats.now) }
{
    for (number, seat) in seats.iter().enumerate() {
        if reads_beside(worker, number, seat) {
            caller.call(number);
        }
    }
}

// Whether the worker with this number serves a connection, and is another one than `worker`.
fn reads_beside(worker: u16, number: usize, seat: &ReadSeat) -> bool
    ensures { result ≡ reads_beside worker number seat.now }
{
    seat.connection.is_some() && number != usize::from(worker)
}
