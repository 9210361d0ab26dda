//! The client.

ghost use Rattle.std.specs.Prelude.{◌≡◌, ◌↔◌, ◌<◌, [], IsTrue, IfSome, IfOk, IfErr};
ghost use Rattle.mq_embedded.specs.Prelude.{IsSavedAs, IsDeadline, pings, Connects, Drops, Hears, IsIdle, Leaves, Pings, Publishes, Receives, Saves, Subscribes, TakesEvent, TakesOutput, Unsubscribes, IsBlank, IsLoadFault, Loads, Starts};

use crate::arguments::{filters, message, requests};
use crate::event::Event;
use crate::fault::{CallFault, publish_fault};
use crate::queue::Queue;
use mq_bytes::put;
use mq_end::{ClientConfig, ClientEnd, CloseReason};
use mq_flow::{LoadError, Saved};
use std::alloc::Global;
use std::marker::Model;

/// A client's end of its connections with the queue of its events. Call `connect` for each new
/// connection, `receive` for received bytes, then `next_event` until there is none, `take_output`
/// after each call, `tick` regularly, and `dropped` when the connection is lost.
#[derive(Drop)]
pub struct Client {
    alloc: Global,
    end: ClientEnd,
    queue: Queue,
}

impl Model for Client {
    ghost use Rattle.std.specs.Coded.{codes, coded_ℕ};
    ghost use Rattle.std.specs.FinSet as set;
    ghost use Rattle.std.specs.Ordering.{nat_cmp};
    ghost use Rattle.mq_embedded.specs.Calls.{WithEvents};
    ghost use Rattle.mq_embedded.specs.Queue.{queued};

    ghost Value = { WithEvents };

    ghost coded = { Prim.hlevel (codes, set.code {R = nat_cmp} coded_ℕ) };

    ghost view = { λ c. record { end = c.end; events = queued c.queue } };
}

fn load(alloc: Global, bytes: &[u8]) -> Result<Saved, CallFault>
    ensures ok { IfOk result (λ saved. IsSavedAs saved bytes.now) }
    ensures refused { IfErr result (IsLoadFault bytes.now) }
{
    match Saved::load(alloc, bytes) {
        Ok(saved) => Ok(saved),
        Err(LoadError::Memory) => Err(CallFault::Memory),
        Err(_) => Err(CallFault::Session),
    }
}

impl Client {
    fn of(alloc: Global, end: ClientEnd) -> Client
        ensures end { result.end ≡ end }
        ensures events { result.events ≡ [] }
    {
        Client {
            alloc,
            end,
            queue: Queue::new(),
        }
    }

    fn blank(alloc: Global, config: ClientConfig) -> Client
        requires capacity { 0 < config.capacity }
        requires window { IfSome config.window (λ window. 0 < window) }
        ensures { IsBlank config result }
    {
        Client::of(alloc, ClientEnd::new(alloc, config))
    }

    fn resume(alloc: Global, config: ClientConfig, saved: Saved) -> Result<Client, CallFault>
        requires { IfSome config.window (λ window. 0 < window) }
        ensures { Loads config saved result }
    {
        match ClientEnd::with_saved(alloc, config, saved) {
            Ok(end) => Ok(Client::of(alloc, end)),
            Err(LoadError::AnotherClient) => Err(CallFault::AnotherClient),
            Err(_) => Err(CallFault::TooLarge),
        }
    }

    /// A client without a connection. It has no session if `saved` has no bytes, otherwise it
    /// continues the saved one. Errors: `Session` if the bytes are not a saved session,
    /// `AnotherClient`, `TooLarge`, `Memory`.
    pub fn start(alloc: Global, config: ClientConfig, saved: &[u8]) -> Result<Client, CallFault>
        requires capacity { 0 < config.capacity }
        requires window { IfSome config.window (λ window. 0 < window) }
        ensures { Starts config saved.now result }
    {
        if saved.is_empty() {
            return Ok(Client::blank(alloc, config));
        }
        match load(alloc, saved) {
            Ok(saved) => Client::resume(alloc, config, saved),
            Err(fault) => {
                drop(config);
                Err(fault)
            }
        }
    }

    /// Begins a connection at time `now` (3.1). `clean` discards the session. On `Err` nothing
    /// changes.
    pub fn connect(&mut self, now: u64, clean: bool) -> Result<(), CallFault>
        ensures { Connects now clean self.old self.new result }
    {
        match self.end.connect(now, clean) {
            Ok(()) => Ok(()),
            Err(_) => Err(CallFault::Memory),
        }
    }

    // Processes bytes if no event is pending.
    fn hear(&mut self, now: u64, bytes: &[u8]) -> Option<CloseReason>
        ensures { Hears bytes.now self.old self.new result }
    {
        let progress = self.end.receive(now, bytes);
        self.queue.refill(progress)
    }

    /// Processes bytes from the server, received at time `now`. Returns the reason if the end
    /// closed. Errors: `Events` if an event was not taken yet; then nothing changes.
    pub fn receive(&mut self, now: u64, bytes: &[u8]) -> Result<Option<CloseReason>, CallFault>
        ensures { Receives bytes.now self.old self.new result }
    {
        if !self.queue.is_empty() {
            return Err(CallFault::Events);
        }
        Ok(self.hear(now, bytes))
    }

    /// Moves pending output to the front of the buffer, as much as fits, and returns its number of
    /// bytes.
    pub fn take_output(&mut self, out: &mut [u8]) -> usize
        ensures { TakesOutput result self.old self.new out.old out.new }
    {
        let output = self.end.output();
        let count = output.len().min(out.len());
        put(out, 0, &output[..count]);
        self.end.take_output(count);
        count
    }

    /// Publishes a message (3.3). Returns its packet identifier, 0 for quality of service 0. On
    /// `Err` nothing changes. Errors: `Argument`, `NotConnected`, `TooLarge`, `Full`, `Memory`.
    pub fn publish(
        &mut self,
        topic: &[u8],
        payload: &[u8],
        qos: u8,
        retain: bool,
    ) -> Result<u16, CallFault>
        ensures { Publishes topic.now payload.now qos retain self.old self.new result }
    {
        let message = message(self.alloc, topic, payload, qos, retain)?;
        match self.end.publish(message) {
            Ok(Some(id)) => Ok(id.get()),
            Ok(None) => Ok(0),
            Err(refusal) => Err(publish_fault(refusal)),
        }
    }

    /// Subscribes to a filter (3.8). Returns the packet identifier. On `Err` nothing changes.
    /// Errors: `Argument`, `NotConnected`, `TooLarge`, `Full`, `Memory`.
    pub fn subscribe(&mut self, filter: &[u8], qos: u8) -> Result<u16, CallFault>
        ensures { Subscribes filter.now qos self.old self.new result }
    {
        let requests = requests(self.alloc, filter, qos)?;
        match self.end.subscribe(requests) {
            Ok(id) => Ok(id.get()),
            Err(refusal) => Err(publish_fault(refusal)),
        }
    }

    /// Unsubscribes from a filter (3.10). Returns the packet identifier. On `Err` nothing changes.
    /// Errors: `Argument`, `NotConnected`, `TooLarge`, `Full`, `Memory`.
    pub fn unsubscribe(&mut self, filter: &[u8]) -> Result<u16, CallFault>
        ensures { Unsubscribes filter.now self.old self.new result }
    {
        let filters = filters(self.alloc, filter)?;
        match self.end.unsubscribe(filters) {
            Ok(id) => Ok(id.get()),
            Err(refusal) => Err(publish_fault(refusal)),
        }
    }

    /// Takes the next event: its bytes go to the front of the buffer. Returns an event of kind 0 if
    /// there is none. Errors: `Room`, and the event with its sizes, if the buffer is too small;
    /// then the event stays.
    pub fn next_event(&mut self, event: &mut Event, out: &mut [u8]) -> Result<(), CallFault>
        ensures event { TakesEvent self.old.events self.new.events event.new out.old out.new result }
        ensures end { self.new.end ≡ self.old.end }
    {
        self.queue.take(event, out)
    }

    /// Queues a PINGREQ if the keep-alive has elapsed (3.1.2.10). Call it at `next_deadline`.
    pub fn tick(&mut self, now: u64) -> Result<(), CallFault>
        ensures { Pings now self.old self.new result }
    {
        match self.end.tick(now) {
            Ok(_) => Ok(()),
            Err(_) => Err(CallFault::Memory),
        }
    }

    /// The time from which `tick` does something, or `None`.
    pub fn next_deadline(&self) -> Option<u64>
        ensures { IsDeadline (λ now. pings self.now.end.link.last_activity now self.now.end.link.end) result }
    {
        self.end.next_deadline()
    }

    /// Reports that the connection is lost (4.2). Discards pending output.
    pub fn dropped(&mut self)
        ensures { Drops self.old self.new }
    {
        self.end.dropped();
    }

    /// Sends DISCONNECT and closes (3.14). On `Err` nothing changes. Errors: `NotConnected`,
    /// `Memory`.
    pub fn disconnect(&mut self) -> Result<(), CallFault>
        ensures { Leaves self.old self.new result }
    {
        match self.end.disconnect() {
            Ok(()) => Ok(()),
            Err(refusal) => Err(publish_fault(refusal)),
        }
    }

    /// Writes the saved form of the session to the front of the buffer, and returns its number of
    /// bytes (4.1). On `Err` the buffer is unchanged. Errors: `Room`, `Memory`.
    pub fn save(&self, out: &mut [u8]) -> Result<usize, CallFault>
        ensures { Saves self.now out.old out.new result }
    {
        let mut bytes = Vec::new(self.alloc);
        if self.end.save(&mut bytes).is_err() {
            return Err(CallFault::Memory);
        }
        if bytes.len() > out.len() {
            return Err(CallFault::Room);
        }
        Ok(put(out, 0, bytes.as_slice()))
    }

    /// Whether no sent message waits for an acknowledgement (4.3).
    pub fn is_idle(&self) -> bool
        ensures { IsTrue result ↔ IsIdle self.now }
    {
        match self.end.session() {
            Some(session) => session.sender.is_idle(),
            None => true,
        }
    }
}
