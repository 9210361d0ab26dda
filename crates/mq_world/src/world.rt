//! A client and a server under a list of events.

ghost use Rattle.std.specs.Prelude.{◌≡◌, ◌<◌, ◌≤◌, ◌↔◌, All, None, Some, ◌∷◌, ◌++◌, [], true, false, Ok, IfOk, IfSome, IsSome, IsErr, OnOk, OnErr};
ghost use Rattle.mq_world.specs.Prelude.{Spans, Wired, HaveWindow, seen, Headline, Machine, Stands, near, AcceptedGrows, HandedGrows, FreedGrows, accepted_in, handed_in, SettledFrom, Does, IsNeverFull, IsNew, Leads, MetNoWant, Settles};

use crate::account::Account;
use crate::answer::Answer;
use crate::event::Event;
use crate::laws::over_bytes;
use crate::pair::Pair;
use crate::restart::{Terms, client_config};
use crate::side::Side;
use crate::trace::Trace;
use mq_decode::Limits;
use mq_end::{ByteQueue, ClientEnd, ServerConfig, ServerEnd};
use mq_flow::Session;
use std::alloc::{AllocError, Global};
use std::marker::Model;

/// A client and a server that are joined by two wires of bytes, and the trace of the events so far.
/// The client has the identifier `w`, clean session 0 and a keep-alive of 60 seconds.
///
/// If an allocation for a wire, the trace or a copy of a message fails, the event fails, and so
/// does each later one; nothing changes any more.
#[derive(Debug, Drop)]
pub struct World {
    pair: Pair,
    limits: Limits,
    capacity: u16,
    window: Option<u16>,
    failed: bool,
}

impl Model for World {
    ghost use Rattle.std.specs.Prelude.{◌≡◌, ◌<◌, false, IfSome};
    ghost use Rattle.std.specs.Coded.{codes, coded_ℕ};
    ghost use Rattle.std.specs.FinSet as set;
    ghost use Rattle.std.specs.Ordering.{nat_cmp};
    ghost use Rattle.mq_end.specs.Publishing.{connect_of};
    ghost use Rattle.mq_world.specs.Carries.{HaveWindow};
    ghost use Rattle.mq_world.specs.Machine.{Machine, first_packet};
    ghost use Rattle.mq_world.specs.OverBytes.{Stands};
    ghost use Rattle.mq_world.specs.World.{WorldState};
    ghost use Rattle.mq_world.specs.Pairs.{wired_of};

    ghost Value = { WorldState };

    ghost coded = { Prim.hlevel (codes, set.code {R = nat_cmp} coded_ℕ) };

    ghost view = { λ w. record {
      wired = wired_of w.pair;
      limit = w.limits;
      capacity = w.capacity;
      window = w.window;
      failed = w.failed;
      answers = w.pair.trace.answers.items;
    } };

    ghost invariant = { λ w. (connect_of w.pair.client.config false ≡ first_packet) × IfSome w.window (λ window. 0 < window)
        × (w.failed ≡ false → (m : Machine) × Stands w.limits w.capacity (wired_of w.pair) m × HaveWindow w.window (wired_of w.pair)) };
}

// Returns the value if the action on it succeeded, and drops it otherwise.
fn given<T: Drop>(value: T, done: Result<(), AllocError>) -> Result<T, AllocError>
    ensures ok { OnOk done (result ≡ Ok value) }
    ensures err { OnErr done (IsErr result) }
{
    match done {
        Ok(()) => Ok(value),
        Err(error) => Err(error),
    }
}

impl World {
    /// A world without events. Packets are within `limits` at both sides, and at most `capacity`
    /// packet identifiers are in use at each. No side has a receive window.
    pub fn new(alloc: Global, limits: Limits, capacity: u16) -> Result<World, AllocError>
        requires { 0 < capacity }
        ensures new { IfOk result (λ world. IsNew limits capacity None world.wired) }
        ensures limit { IfOk result (λ world. world.limit ≡ limits) }
        ensures capacity { IfOk result (λ world. world.capacity ≡ capacity) }
        ensures window { IfOk result (λ world. world.window ≡ None) }
        ensures failed { IfOk result (λ world. world.failed ≡ false) }
        ensures answers { IfOk result (λ world. world.answers ≡ []) }
    {
        World::begin(alloc, limits, capacity, None)
    }

    /// Like `new`, but both sides have this receive window: a side closes with C11 if a new QoS 2
    /// message exceeds it.
    pub fn with_window(
        alloc: Global,
        limits: Limits,
        capacity: u16,
        window: u16,
    ) -> Result<World, AllocError>
        requires capacity { 0 < capacity }
        requires window { 0 < window }
        ensures new { IfOk result (λ world. IsNew limits capacity (Some window) world.wired) }
        ensures limit { IfOk result (λ world. world.limit ≡ limits) }
        ensures capacity { IfOk result (λ world. world.capacity ≡ capacity) }
        ensures window { IfOk result (λ world. world.window ≡ Some window) }
        ensures failed { IfOk result (λ world. world.failed ≡ false) }
        ensures answers { IfOk result (λ world. world.answers ≡ []) }
    {
        World::begin(alloc, limits, capacity, Some(window))
    }

    fn begin(
        alloc: Global,
        limits: Limits,
        capacity: u16,
        window: Option<u16>,
    ) -> Result<World, AllocError>
        requires capacity { 0 < capacity }
        requires window { IfSome window (λ window. 0 < window) }
        ensures new { IfOk result (λ world. IsNew limits capacity window world.wired) }
        ensures limit { IfOk result (λ world. world.limit ≡ limits) }
        ensures capacity { IfOk result (λ world. world.capacity ≡ capacity) }
        ensures window { IfOk result (λ world. world.window ≡ window) }
        ensures failed { IfOk result (λ world. world.failed ≡ false) }
        ensures answers { IfOk result (λ world. world.answers ≡ []) }
    {
        over_bytes();
        let _least = limits.max_packet();
        let terms = Terms {
            limits,
            capacity,
            window,
        };
        let config = client_config(alloc, terms)?;
        let server = ServerConfig {
            limits,
            capacity,
            window,
        };
        let trace = Trace {
            answers: Vec::new(alloc),
            client: Account::new(alloc),
            server: Account::new(alloc),
        };
        let pair = Pair {
            alloc,
            client: ClientEnd::new(alloc, config),
            server: ServerEnd::new(alloc, server),
            client_clock: 0,
            server_clock: 0,
            to_client: ByteQueue::new(alloc),
            to_server: ByteQueue::new(alloc),
            trace,
        };
        Ok(World {
            pair,
            limits,
            capacity,
            window,
            failed: false,
        })
    }

    /// Processes an event and returns its result. On `Err` each later call fails too and changes
    /// nothing.
    pub fn step(&mut self, event: &Event) -> Result<Answer, AllocError>
        ensures does { IfOk result (λ answer. Does self.old.limit self.old.capacity event.now answer self.old.wired self.new.wired) }
        ensures answers { IfOk result (λ answer. self.new.answers ≡ self.old.answers ++ answer ∷ []) }
        ensures headline { OnOk result (Headline (seen self.new.wired)) }
        ensures fits { IfOk result (λ answer. Spans self.old.window self.old.capacity → IsNeverFull answer) }
        ensures ok { OnOk result (self.new.failed ≡ false) }
        ensures failed { OnErr result (self.new.failed ≡ true) }
        ensures before { self.old.failed ≡ true → IsErr result }
        ensures stays { self.old.failed ≡ true → self.new ≡ self.old }
        ensures kept { OnErr result (self.new.answers ≡ self.old.answers) }
        ensures at_client { AcceptedGrows self.old.wired.client.accepted self.new.wired.client.accepted }
        ensures at_server { AcceptedGrows self.old.wired.server.accepted self.new.wired.server.accepted }
        ensures handed_at_client { HandedGrows self.old.wired.client.handed self.new.wired.client.handed }
        ensures handed_at_server { HandedGrows self.old.wired.server.handed self.new.wired.server.handed }
        ensures freed_at_client { FreedGrows self.old.wired.client.freed self.new.wired.client.freed }
        ensures freed_at_server { FreedGrows self.old.wired.server.freed self.new.wired.server.freed }
        ensures limit { self.new.limit ≡ self.old.limit }
        ensures capacity { self.new.capacity ≡ self.old.capacity }
        ensures window { self.new.window ≡ self.old.window }
    {
        over_bytes();
        if self.failed {
            return Err(AllocError);
        }
        self.failed = true;
        let terms = Terms {
            limits: self.limits,
            capacity: self.capacity,
            window: self.window,
        };
        let answer = self.pair.make(event, terms)?;
        self.pair.trace.answers.push(answer.clone()?)?;
        self.failed = false;
        Ok(answer)
    }

    /// Opens a connection and makes three exchanges, in each of which all bytes in flight to the
    /// server are delivered, then all in flight to the client (4.4).
    ///
    /// If no allocation fails, and the capacity is at most the window, both sides are idle
    /// afterwards, and each accepted QoS 1 or 2 message was delivered, QoS 2 exactly once and
    /// in order. On `Err` each later call fails too and changes nothing.
    pub fn settle(&mut self) -> Result<Answer, AllocError>
        ensures settles { IfOk result (λ answer. Settles self.old.limit self.old.capacity answer self.old.wired self.new.wired) }
        ensures settled { IfOk result (λ answer. Spans self.old.window self.old.capacity → MetNoWant answer → SettledFrom self.old.wired self.new.wired) }
        ensures answers { IfOk result (λ answer. self.new.answers ≡ self.old.answers ++ answer ∷ []) }
        ensures headline { OnOk result (Headline (seen self.new.wired)) }
        ensures fits { IfOk result (λ answer. Spans self.old.window self.old.capacity → IsNeverFull answer) }
        ensures ok { OnOk result (self.new.failed ≡ false) }
        ensures failed { OnErr result (self.new.failed ≡ true) }
        ensures before { self.old.failed ≡ true → IsErr result }
        ensures stays { self.old.failed ≡ true → self.new ≡ self.old }
        ensures kept { OnErr result (self.new.answers ≡ self.old.answers) }
        ensures at_client { self.new.wired.client.accepted ≡ self.old.wired.client.accepted }
        ensures at_server { self.new.wired.server.accepted ≡ self.old.wired.server.accepted }
        ensures handed_at_client { HandedGrows self.old.wired.client.handed self.new.wired.client.handed }
        ensures handed_at_server { HandedGrows self.old.wired.server.handed self.new.wired.server.handed }
        ensures freed_at_client { FreedGrows self.old.wired.client.freed self.new.wired.client.freed }
        ensures freed_at_server { FreedGrows self.old.wired.server.freed self.new.wired.server.freed }
        ensures limit { self.new.limit ≡ self.old.limit }
        ensures capacity { self.new.capacity ≡ self.old.capacity }
        ensures window { self.new.window ≡ self.old.window }
    {
        over_bytes();
        if self.failed {
            return Err(AllocError);
        }
        self.failed = true;
        let answer = Answer::Settled(self.pair.settle()?);
        self.pair.trace.answers.push(answer.clone()?)?;
        self.failed = false;
        Ok(answer)
    }

    /// Creates a world like `new` and processes the events in order. Each side has then delivered
    /// the messages that the other accepted as their QoS promises (4.3).
    pub fn run(
        alloc: Global,
        limits: Limits,
        capacity: u16,
        events: &[Event],
    ) -> Result<World, AllocError>
        requires { 0 < capacity }
        ensures headline { IfOk result (λ world. Headline (seen world.wired)) }
        ensures events { IfOk result (λ world. (start : Wired) × IsNew limits capacity None start
            × Leads limits capacity events.now world.answers start world.wired) }
        ensures limit { IfOk result (λ world. world.limit ≡ limits) }
        ensures capacity { IfOk result (λ world. world.capacity ≡ capacity) }
        ensures window { IfOk result (λ world. world.window ≡ None) }
        ensures failed { IfOk result (λ world. world.failed ≡ false) }
    {
        World::run_with(alloc, limits, capacity, None, events)
    }

    /// Creates a world like `with_window` and processes the events in order. Makes the same promise
    /// as `run`, for each window. If the capacity is at most the window, no answer reports a close
    /// with C11.
    pub fn run_with_window(
        alloc: Global,
        limits: Limits,
        capacity: u16,
        window: u16,
        events: &[Event],
    ) -> Result<World, AllocError>
        requires capacity { 0 < capacity }
        requires window { 0 < window }
        ensures headline { IfOk result (λ world. Headline (seen world.wired)) }
        ensures events { IfOk result (λ world. (start : Wired) × IsNew limits capacity (Some window) start
            × Leads limits capacity events.now world.answers start world.wired) }
        ensures fits { IfOk result (λ world. capacity ≤ window → All IsNeverFull world.answers) }
        ensures limit { IfOk result (λ world. world.limit ≡ limits) }
        ensures capacity { IfOk result (λ world. world.capacity ≡ capacity) }
        ensures window { IfOk result (λ world. world.window ≡ Some window) }
        ensures failed { IfOk result (λ world. world.failed ≡ false) }
    {
        World::run_with(alloc, limits, capacity, Some(window), events)
    }

    fn run_with(
        alloc: Global,
        limits: Limits,
        capacity: u16,
        window: Option<u16>,
        events: &[Event],
    ) -> Result<World, AllocError>
        requires capacity { 0 < capacity }
        requires window { IfSome window (λ window. 0 < window) }
        ensures headline { IfOk result (λ world. Headline (seen world.wired)) }
        ensures events { IfOk result (λ world. (start : Wired) × IsNew limits capacity window start
            × Leads limits capacity events.now world.answers start world.wired) }
        ensures fits { IfOk result (λ world. Spans window capacity → All IsNeverFull world.answers) }
        ensures limit { IfOk result (λ world. world.limit ≡ limits) }
        ensures capacity { IfOk result (λ world. world.capacity ≡ capacity) }
        ensures window { IfOk result (λ world. world.window ≡ window) }
        ensures failed { IfOk result (λ world. world.failed ≡ false) }
    {
        let mut world = World::begin(alloc, limits, capacity, window)?;
        let made = world.make_all(events);
        given(world, made)
    }

    // Processes events in order in a new world.
    fn make_all(&mut self, events: &[Event]) -> Result<(), AllocError>
        requires new { self.old.answers ≡ [] }
        requires stands { self.old.failed ≡ false }
        ensures headline { OnOk result (Headline (seen self.new.wired)) }
        ensures events { OnOk result (Leads self.old.limit self.old.capacity events.now self.new.answers self.old.wired self.new.wired) }
        ensures fits { OnOk result (Spans self.old.window self.old.capacity → All IsNeverFull self.new.answers) }
        ensures limit { self.new.limit ≡ self.old.limit }
        ensures capacity { self.new.capacity ≡ self.old.capacity }
        ensures window { self.new.window ≡ self.old.window }
        ensures failed { OnOk result (self.new.failed ≡ false) }
    {
        for event in events {
            self.step(event)?;
        }
        self.promise();
        Ok(())
    }

    /// Does nothing. Its contract is the invariant of every world in which no event failed: it
    /// carries a machine that a run reaches, so the laws of each run hold for it, and its sides
    /// delivered accepted messages as promised (4.3).
    pub fn promise(&self)
        ensures carries { self.now.failed ≡ false → (m : Machine) × Stands self.now.limit self.now.capacity self.now.wired m }
        ensures window { self.now.failed ≡ false → HaveWindow self.now.window self.now.wired }
        ensures headline { self.now.failed ≡ false → Headline (seen self.now.wired) }
    {
        over_bytes();
        let _failed = self.failed;
    }

    /// Returns the answers to all events so far, and the messages that each side accepted and
    /// delivered.
    pub fn trace(&self) -> &Trace
        ensures answers { result.now.answers.items ≡ self.now.answers }
        ensures accepted_at_client { accepted_in result.now.client ≡ self.now.wired.client.accepted }
        ensures handed_at_client { handed_in result.now.client ≡ self.now.wired.client.handed }
        ensures freed_at_client { result.now.client.freed.items ≡ self.now.wired.client.freed }
        ensures accepted_at_server { accepted_in result.now.server ≡ self.now.wired.server.accepted }
        ensures handed_at_server { handed_in result.now.server ≡ self.now.wired.server.handed }
        ensures freed_at_server { result.now.server.freed.items ≡ self.now.wired.server.freed }
        ensures headline { self.now.failed ≡ false → Headline (seen self.now.wired) }
    {
        over_bytes();
        &self.pair.trace
    }

    /// Returns the session of a side, or `None` if the server has none (3.1.2.4).
    pub fn session(&self, side: Side) -> Option<&Session>
        ensures book { IfSome result (λ session. session.now.sender.book ≡ (near side self.now.wired).state.end.book) }
        ensures received { IfSome result (λ session. session.now.receiver ≡ (near side self.now.wired).state.end.received) }
        ensures last { IfSome result (λ session. session.now.sender.last ≡ (near side self.now.wired).state.end.last) }
        ensures capacity { IfSome result (λ session. session.now.sender.capacity ≡ (near side self.now.wired).state.capacity) }
        ensures client { side ≡ Side.Client → IsSome result }
        ensures server { side ≡ Side.Server → (IsSome result ↔ (self.now.wired.server.state.end.known ≡ true)) }
    {
        match side {
            Side::Client => self.pair.client.session(),
            Side::Server => self.pair.server.session(),
        }
    }

    /// Returns the bytes in flight to a side, oldest first.
    pub fn wire(&self, side: Side) -> &[u8]
        ensures { result.now ≡ (near side self.now.wired).wire }
    {
        match side {
            Side::Client => self.pair.to_client.as_slice(),
            Side::Server => self.pair.to_server.as_slice(),
        }
    }

    /// Returns whether an event failed because memory ran out.
    pub fn has_failed(&self) -> bool
        ensures { result ≡ self.now.failed }
    {
        self.failed
    }
}
