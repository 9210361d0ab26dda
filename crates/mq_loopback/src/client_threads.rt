//! The clients of a loopback file, each in a thread of its own.

ghost use Rattle.std.specs.Prelude.{◌≡◌, IfOk, IfSome, map, take, vec_len};
ghost use Rattle.mq_loopback.specs.Prelude.{count_by, IsClientRun, IsRoleDone, is_collector};

use crate::client::{Client, Collector, Role};
use crate::client_run::{client_end, collect, publish, subscribe};
use crate::start_barrier::StartBarrier;
use mq_client::{ClientError, NoSaver, Peer};
use mq_packet::Message;
use mq_serve::Workers;
use mq_stream::{Elapsed, SocketStream};
use std::alloc::{AllocError, Global};
use std::marker::Model;
use std::net::TcpStream;
use std::sync::Wait;
use std::time::{Clock, Instant};

// A client at its connection.
type Player<'a, R> = Peer<SocketStream<TcpStream>, Elapsed<'a, R>, NoSaver>;

/// The number of reads in a row without bytes after which a connection counts as lost.
const MOST_QUIET: u64 = 600;

/// The connection and the role with which a client starts.
#[derive(Drop)]
pub struct ClientStart<'a> {
    /// The client.
    pub client: &'a Client,
    /// Its connection to the broker.
    pub stream: TcpStream,
}

/// The clients of a loopback file. Publishers start when every collector is subscribed.
#[derive(Drop)]
pub struct ClientThreads<'a> {
    alloc: Global,
    clients: &'a [Client],
    start: StartBarrier,
}

impl<'a> Model for ClientThreads<'a> {
    ghost use Rattle.std.specs.Prelude.{List};
    ghost use Rattle.mq_loopback.specs.declared.client.Client.{Client};

    ghost Value = { List Client };

    ghost view = { λ t. t.clients.now };
}

fn is_collector(client: &Client) -> bool
    ensures { result ≡ is_collector client.now }
{
    match client.role {
        Role::Collector(_) => true,
        Role::Publisher(_) => false,
    }
}

// How many of the clients are collectors.
#[tactic(auto, using(crate::proofs::Runs::counted_yes, crate::proofs::Runs::counted_no))]
fn count_collectors(clients: &[Client]) -> usize
    ensures { result ≡ count_by is_collector clients.now }
{
    let mut count = 0;
    for client in clients {
        if is_collector(client) {
            count += 1;
        }
    }
    count
}

impl<'a> ClientThreads<'a> {
    /// None has begun yet.
    pub fn new(alloc: Global, clients: &'a [Client]) -> ClientThreads<'a>
        ensures { result ≡ clients.now }
    {
        ClientThreads {
            alloc,
            clients,
            start: StartBarrier::after(count_collectors(clients)),
        }
    }

    /// The start of each client in order, with one connection for each. Further clients or
    /// connections are left out.
    #[tactic(auto, using(crate::proofs::Runs::start_more, crate::proofs::Runs::start_none))]
    pub fn starts(&self, streams: Vec<TcpStream>) -> Result<Vec<ClientStart<'a>>, AllocError>
        ensures { IfOk result (λ starts.
            map (λ s. s.client.now) starts.items ≡ take (vec_len streams) self.now) }
    {
        let mut starts = Vec::new(self.alloc);
        let mut rest = self.clients;
        for stream in streams {
            if let [client, more @ ..] = rest {
                starts.push(ClientStart { client, stream })?;
                rest = more;
            }
        }
        Ok(starts)
    }

    /// The first fault of a client, if any had one.
    pub fn into_fault(self) -> Option<ClientError> {
        let ClientThreads {
            alloc: _,
            clients: _,
            start,
        } = self;
        start.into_fault()
    }

    // Collects the messages that a client receives.
    #[tactic(auto, using(crate::proofs::Runs::collector_done))]
    fn collect<R: Wait + Clock>(
        &self,
        rt: &R,
        player: &mut Player<'_, R>,
        collector: &Collector,
    ) -> Result<Vec<Message>, ClientError>
        ensures { IfOk result (λ messages.
            IsRoleDone (Role.Collector collector.now) player.old player.new messages.items) }
    {
        let mut messages = Vec::new(self.alloc);
        let grant = subscribe(self.alloc, player, collector, &mut messages)?;
        self.start.count(rt, grant);
        collect(player, collector, &mut messages)?;
        Ok(messages)
    }

    // Runs a client over its connection, and returns the messages that it collected. `None` if it
    // is a publisher that must not start.
    #[tactic(auto, using(crate::proofs::Runs::publisher_done))]
    fn run_over<R: Wait + Clock>(
        &self,
        rt: &R,
        player: &mut Player<'_, R>,
        client: &Client,
    ) -> Result<Option<Vec<Message>>, ClientError>
        ensures { IfOk result (λ done. IfSome done (λ messages.
            IsRoleDone client.now.role player.old player.new messages.items)) }
    {
        match &client.role {
            Role::Collector(collector) => Ok(Some(self.collect(rt, player, collector)?)),
            Role::Publisher(publisher) => {
                let Some(start) = self.start.wait(rt) else {
                    return Ok(None);
                };
                publish(player, publisher, start)?;
                Ok(Some(Vec::new(self.alloc)))
            }
        }
    }

    // Runs a client, and returns the messages that it collected. `None` if it is a publisher that
    // must not start.
    #[tactic(auto, using(crate::proofs::Runs::client_ran))]
    fn play<R: Wait + Clock>(
        &self,
        rt: &R,
        start: ClientStart<'a>,
    ) -> Result<Option<Vec<Message>>, ClientError>
        ensures { IfOk result (λ done. IfSome done (λ messages.
            IsClientRun start.entry.client.now messages.items)) }
    {
        let ClientStart { client, stream } = start;
        let Ok(start) = Instant::now(rt) else {
            return Err(ClientError::Lost);
        };
        let mut player = Peer::new(
            client_end(self.alloc, &client.name)?,
            SocketStream(stream),
            Elapsed::since(rt, start),
            NoSaver,
        );
        player.set_quiet_limit(MOST_QUIET);
        self.run_over(rt, &mut player, client)
    }
}

impl<'a> Workers for ClientThreads<'a> {
    ghost use Rattle.std.specs.Prelude.{IfSome};
    ghost use Rattle.mq_loopback.specs.Prelude.{IsClientRun};

    ghost does = { λ _ part outcome. IfSome outcome (λ messages. IsClientRun part.client.now messages.items) };

    type Part = ClientStart<'a>;

    /// The messages that a client collected. `None` if it or another client had a fault.
    type Outcome = Option<Vec<Message>>;

    /// Runs a client. Keeps a fault for the end, and stops publishers that have not started.
    fn run_one<R: Wait + Clock>(&self, rt: &R, part: ClientStart<'a>) -> Option<Vec<Message>> {
        match self.play(rt, part) {
            Ok(done) => done,
            Err(fault) => {
                self.start.call_off(rt, fault);
                None
            }
        }
    }
}
