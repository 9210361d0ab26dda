//! The state that both ends share: session, connection and pending bytes.

ghost use Rattle.std.specs.Prelude.{◌≡◌, ◌+◌, ◌<◌, ◌≤◌, ◌^◌, ◌++◌, ◌∷◌, [], List, ℕ, length, true, false, IsOk, OnOk, OnErr};
ghost use Rattle.mq_end.specs.Prelude.{Encodes, fields, blank_book, all_sent, none_received, End, blank_end, over, renewed, whole_size, opens, no_bytes, no_room};
ghost use Rattle.mq_end.specs.declared.state.State.TheVariants as states;

use crate::lazy_decoder::LazyDecoder;
use crate::output::Output;
use crate::queue::ByteQueue;
use crate::reason::CloseReason;
use crate::state::State;
use mq_decode::Limits;
use mq_flow::Session;
use mq_packet::Packet;
use std::alloc::{AllocError, Global};
use std::marker::Model;
use std::mem;

/// An end of a connection, which both ends are made of.
#[derive(Debug, Drop)]
pub(crate) struct Endpoint {
    pub(crate) alloc: Global,
    pub(crate) session: Session,
    pub(crate) known: bool,
    pub(crate) state: State,
    pub(crate) clean: bool,
    pub(crate) keep_alive: u16,
    pub(crate) window: Option<u16>,
    pub(crate) limits: Limits,
    pub(crate) last_activity: u64,
    pub(crate) decoder: LazyDecoder,
    pub(crate) output: Output,
}

impl Model for Endpoint {
    ghost use Rattle.std.specs.Prelude.{◌≡◌, ◌<◌};
    ghost use Rattle.std.specs.Coded.{codes, coded_ℕ};
    ghost use Rattle.std.specs.FinSet as set;
    ghost use Rattle.std.specs.Ordering.{nat_cmp};
    ghost use Rattle.mq_end.specs.State.{EndState};

    ghost Value = { EndState };

    ghost coded = { Prim.hlevel (codes, set.code {R = nat_cmp} coded_ℕ) };

    ghost view = { λ l. record {
      end = record {
        book = l.session.sender.book;
        received = l.session.receiver;
        last = l.session.sender.last;
        state = l.state;
        known = l.known;
        clean = l.clean;
        keep_alive = l.keep_alive;
        window = l.window;
      };
      capacity = l.session.sender.capacity;
      limit = l.limits;
      held = l.decoder.held;
      output = l.output.bytes;
      last_activity = l.last_activity;
      room = record { messages = l.session.sender.room; bytes = l.output.room };
    } };

    ghost invariant = { λ l. l.decoder.limit ≡ l.limits };
}

impl Endpoint {
    /// An end without a session and without a connection.
    pub(crate) fn new(alloc: Global, limits: Limits, capacity: u16, window: Option<u16>) -> Endpoint
        requires { 0 < capacity }
        ensures { result ≡ record { end = blank_end window; capacity = capacity; limit = limits; held = []; output = []; last_activity = 0; room = no_room } }
    {
        Endpoint::with_session(alloc, limits, window, Session::new(alloc, capacity), false)
    }

    /// Discards the session (3.1.2.4): it is new, apart from its room, and not established.
    fn forget(&mut self)
        ensures { self.new ≡ record self.old { end = record self.old.end { book = blank_book; received = none_received; last = 0; known = false } } }
    {
        self.session.discard();
        self.known = false;
    }

    /// Ends the connection (3.1.2.4). Pending output stays.
    pub(crate) fn end_connection(&mut self)
        ensures { self.new ≡ record self.old { end = over self.old.end; held = [] } }
    {
        if self.clean {
            self.forget();
        } else {
            self.session.sender.free_claims();
        }
        self.state = State::Disconnected;
        self.clean = false;
        self.keep_alive = 0;
        self.decoder.reset();
    }

    /// The end closes its connection (4.8).
    pub(crate) fn close(&mut self, reason: CloseReason) -> CloseReason
        ensures reason { result ≡ reason }
        ensures state { self.new ≡ record self.old { end = over self.old.end; held = [] } }
    {
        self.end_connection();
        reason
    }

    /// A connection begins, with clean session or not (3.1.2.4).
    pub(crate) fn renew(&mut self, clean: bool)
        ensures { self.new ≡ record self.old { end = renewed clean self.old.end } }
    {
        if clean {
            self.forget();
        }
        self.clean = clean;
    }

    /// Marks the end as connected and all of its messages as sent (4.4).
    pub(crate) fn connect_end(&mut self)
        ensures { self.new ≡ record self.old { end = record self.old.end { state = states.Connected; known = true; book = all_sent self.old.end.book } } }
    {
        self.session.sender.mark_sent();
        self.known = true;
        self.state = State::Connected;
    }

    /// Ends a lost connection and discards pending output (4.2).
    pub(crate) fn drop_connection(&mut self)
        ensures { self.new ≡ record self.old { end = over self.old.end; held = []; output = [] } }
    {
        self.end_connection();
        self.output.clear();
    }

    /// Opens a connection at time `now`; drops an open one first (4.2).
    pub(crate) fn open_connection(&mut self, now: u64)
        ensures { self.new ≡ record self.old { end = (opens self.old.end).end; held = []; output = []; last_activity = now } }
    {
        self.drop_connection();
        self.state = State::Connecting;
        self.last_activity = now;
    }

    /// Begins a client's connection with these CONNECT fields at time `now`; ends an open one
    /// first.
    pub(crate) fn begin(&mut self, clean: bool, keep_alive: u16, now: u64)
        ensures { self.new ≡ record self.old {
          end = record (renewed clean (over self.old.end)) { state = states.Connecting; keep_alive = keep_alive };
          held = [];
          last_activity = now;
        } }
    {
        self.end_connection();
        self.renew(clean);
        self.state = State::Connecting;
        self.keep_alive = keep_alive;
        self.last_activity = now;
    }

    /// Removes and returns all pending output.
    pub(crate) fn take_all_output(&mut self) -> ByteQueue
        ensures bytes { result ≡ self.old.output }
        ensures left { self.new ≡ record self.old { output = []; room = no_bytes self.old.room } }
    {
        let output = mem::replace(&mut self.output, Output::new(self.alloc));
        ByteQueue { output }
    }

    /// Exchanges the pending output for another queue, which has no room.
    pub(crate) fn swap_output(&mut self, other: &mut ByteQueue)
        ensures end { self.new ≡ record self.old { output = other.old; room = no_bytes self.old.room } }
        ensures other { other.new ≡ self.old.output }
    {
        mem::swap(&mut self.output, &mut other.output);
        self.output.forget_room();
    }

    /// Sends a packet. Can't fail within the room.
    pub(crate) fn write(&mut self, packet: &Packet) -> Result<(), AllocError>
        ensures ok { OnOk result ((b : List ℕ) × Encodes packet.now b × (self.new ≡ record self.old { output = self.old.output ++ b })) }
        ensures within { length (fields packet.now) < 2 ^ 28
            → length self.old.output + whole_size (length (fields packet.now)) ≤ self.old.room.bytes → IsOk result }
        ensures err { OnErr result (self.new ≡ self.old) }
    {
        self.output.append_packet(packet)
    }
}
