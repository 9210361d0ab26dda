//! The server: a shared broker, and the workers that serve its connections.

ghost use Rattle.std.specs.Prelude.{◌≡◌, ◌⊎◌, ◌+◌, ◌<◌, ◌≤◌, ℕ, [], All, Err, IfErr, IfOk, IfSome, OnOk, None, Some, length, map, vec_len};
ghost use Rattle.mq_serve.specs.Prelude.{os_error_kind, sum_by, below, WorkEnd, end_of_work, first_stop, retention_limit, stop_of, AreReceipts, HasWorked, Memory};

use crate::acceptor::{Acceptor, WorkerAcceptor};
use crate::audited_connections::serve_connections_audited;
use crate::broker::broker_config;
use crate::polled_stream::WorkerPoll;
use crate::serve_end::ServeEnd;
use crate::wakers::{ReadTurns, WakeOthers, Wakers};
use crate::workers::Workers;
use mq_book::{
    AuditedWorker, Book, OnFull, Receipt, Share, SharedHub, WorkEnd, Worker, gather,
    serve_connections,
};
use mq_stream::Elapsed;
use std::alloc::{AllocError, Global};
use std::io::ErrorKind;
use std::net::Net;
use std::sync::ledger::{Blank, Ledger};
use std::sync::{Mutex, Wait};
use std::time::{Clock, Instant};

/// The maximum number of bytes of a read.
const CHUNK: usize = 65_536;

/// How a server keeps the journal and the receipts.
#[derive(Clone, Copy, Debug, PartialEq, Eq)]
pub enum Retention {
    /// The journal has at most this number of entries. It is dropped when it is full or larger than
    /// 16 MiB. No receipts are kept.
    Passing(usize),
    /// The journal has at most this number of entries. No further step is made when it is full.
    /// Receipts are kept.
    Kept(usize),
}

impl Retention {
    // The maximum number of entries of the journal.
    fn limit(self) -> usize
        ensures { result ≡ retention_limit self }
    {
        match self {
            Retention::Passing(limit) | Retention::Kept(limit) => limit,
        }
    }
}

/// The parts with which a worker starts.
#[derive(Drop)]
pub struct WorkerStart<L: Ledger> {
    /// Its share.
    pub share: Share<L>,
    /// Its poll, which waits for bytes of its connections and for calls of other workers.
    pub poll: WorkerPoll,
}

/// The result of a worker.
#[derive(Drop)]
pub struct WorkerResult<L: Ledger> {
    /// Its share.
    pub share: Share<L>,
    /// The receipts that it kept, in order.
    pub receipts: Vec<Receipt>,
    /// The number of connections that it served, or the reason why it stopped.
    pub end: Result<u32, WorkEnd>,
}

/// A broker that workers share, and the acceptor of its connections.
///
/// Run it with [`run_all`](crate::run_all) over the starts that [`Server::open`] returns, and pass
/// the results to [`Server::close`].
#[derive(Drop)]
pub struct Server<L: Ledger> {
    alloc: Global,
    shared: SharedHub<L>,
    acceptor: Mutex<Acceptor>,
    wakers: Wakers,
    start: Instant,
    retention: Retention,
}

/// A server whose workers are done.
#[derive(Drop)]
pub struct FinishedServer<L: Ledger> {
    /// The broker, with its journal.
    pub book: Book<L>,
    /// The receipts of each worker.
    pub receipts: Vec<Vec<Receipt>>,
}

impl<L: Ledger> Server<L> {
    /// A server with a new broker, and a start for each worker. `start` is time 0 of the broker.
    ///
    /// Errors: `Net` if a poll can't be made; `Memory` if an allocation fails.
    pub fn open<N: Net>(
        net: &N,
        alloc: Global,
        blank: Blank,
        workers: u16,
        acceptor: Acceptor,
        start: Instant,
        retention: Retention,
    ) -> Result<(Server<L>, Vec<WorkerStart<L>>), ServeEnd>
        requires name { blank.name ≡ L.name }
        requires parts { blank.parts ≡ L.parts }
        requires each { blank.parts ≡ workers }
        requires some { (0 < workers) × (workers ≤ 64) }
        requires limit { 0 < retention_limit retention }
        ensures count { IfOk result (λ r. vec_len r.1 ≡ workers) }
        ensures numbers { IfOk result (λ r.
            map (λ s. s.worker) (map (λ s. s.share) r.1.items) ≡ below workers) }
        ensures fresh { IfOk result (λ r. All (λ s. s.count ≡ 0) (map (λ s. s.share) r.1.items)) }
    {
        let (shared, shares) = SharedHub::new(
            alloc,
            blank,
            workers,
            broker_config(),
            retention.limit(),
        )?;
        let (starts, wakers) = worker_starts(net, alloc, shares)?;
        let server = Server {
            alloc,
            shared,
            acceptor: Mutex::new(acceptor),
            wakers,
            start,
            retention,
        };
        Ok((server, starts))
    }

    // Serves connections until no more are to be accepted. Keeps no receipts.
    fn serve_passing<'x, R: Wait + Clock>(
        &'x self,
        rt: &'x R,
        share: Share<L>,
        poll: &'x Mutex<WorkerPoll>,
        buffer: &mut [u8],
    ) -> WorkerResult<L>
        ensures worked { HasWorked share result.share result.end }
        ensures receipts { result.receipts.items ≡ [] }
    {
        let (on_full, observer) = (OnFull::Checkpoint, WakeOthers(&self.wakers));
        let turns = ReadTurns::new(&self.wakers, share.worker());
        let mut worker = Worker::new(rt, &self.shared, share, on_full, observer);
        let mut source = WorkerAcceptor::new(rt, self.alloc, &self.acceptor, poll, Some(turns));
        let mut clock = Elapsed::since(rt, self.start);
        let end = serve_connections(&mut worker, self.alloc, &mut source, &mut clock, buffer);
        WorkerResult {
            share: worker.into_share(),
            receipts: Vec::new(self.alloc),
            end,
        }
    }

    // The same, with receipts.
    #[tactic(auto, using(crate::proofs::AuditedRuns::kept_worked, crate::proofs::AuditedRuns::kept_receipts))]
    fn serve_keeping<'x, R: Wait + Clock>(
        &'x self,
        rt: &'x R,
        share: Share<L>,
        poll: &'x Mutex<WorkerPoll>,
        buffer: &mut [u8],
    ) -> WorkerResult<L>
        ensures worked { HasWorked share result.share result.end }
        ensures receipts { (limit : ℕ)
            → AreReceipts (Retention.Kept limit) share result.share result.receipts.items }
    {
        let alloc = self.alloc;
        let (on_full, observer) = (OnFull::Stop, WakeOthers(&self.wakers));
        let mut worker = AuditedWorker::new(rt, alloc, &self.shared, share, on_full, observer);
        let mut source = WorkerAcceptor::new(rt, alloc, &self.acceptor, poll, None);
        let mut clock = Elapsed::since(rt, self.start);
        let end = serve_connections_audited(&mut worker, alloc, &mut source, &mut clock, buffer);
        let (share, receipts) = worker.into_parts();
        WorkerResult {
            share,
            receipts,
            end,
        }
    }

    /// The book and the receipts, once all workers are done.
    ///
    /// The number of entries since the beginning, dropped or not, is the number of steps that the
    /// workers made. On error the server is dropped. Errors: the reason of the first worker that
    /// stopped early; `Net` if not all connections were accepted; `Memory` if an allocation fails.
    pub fn close(self, results: Vec<WorkerResult<L>>) -> Result<FinishedServer<L>, ServeEnd>
        requires all { vec_len results ≡ L.parts }
        requires some { 0 < vec_len results }
        ensures counted { IfOk result (λ c.
            c.book.first + length c.book.entries ≡ sum_by (λ s. s.share.count) results.items) }
        ensures served { OnOk result (first_stop (map (λ s. s.end) results.items) ≡ None) }
        ensures stopped { (why : WorkEnd) → first_stop (map (λ s. s.end) results.items) ≡ Some why
            → result ≡ Err (end_of_work why) }
        ensures receipts { IfOk result (λ c. c.receipts.items ≡ map (λ s. s.receipts) results.items) }
    {
        let Server {
            alloc,
            shared,
            acceptor,
            ..
        } = self;
        finish(alloc, shared, acceptor.into_inner(), results)
    }
}

impl<L: Ledger> Workers for Server<L> {
    ghost use Rattle.mq_serve.specs.Prelude.{AreReceipts, HasWorked};

    ghost does = { λ server part outcome. HasWorked part.share outcome.share outcome.end
        × AreReceipts server.retention part.share outcome.share outcome.receipts.items };

    type Part = WorkerStart<L>;

    type Outcome = WorkerResult<L>;

    fn run_one<R: Wait + Clock>(&self, rt: &R, part: WorkerStart<L>) -> WorkerResult<L> {
        let WorkerStart { share, poll } = part;
        let Ok(mut buffer) = vec![in self.alloc; 0u8; CHUNK] else {
            return WorkerResult {
                share,
                receipts: Vec::new(self.alloc),
                end: Err(WorkEnd::Memory),
            };
        };
        let (poll, buffer) = (Mutex::new(poll), buffer.as_mut_slice());
        match self.retention {
            Retention::Passing(_) => self.serve_passing(rt, share, &poll, buffer),
            Retention::Kept(_) => self.serve_keeping(rt, share, &poll, buffer),
        }
    }
}

// A start for each share, and the wakers of all workers.
fn worker_starts<L: Ledger, N: Net>(
    net: &N,
    alloc: Global,
    shares: Vec<Share<L>>,
) -> Result<(Vec<WorkerStart<L>>, Wakers), ServeEnd>
    ensures { IfOk result (λ r. map (λ s. s.share) r.0.items ≡ shares.items) }
{
    let mut starts = Vec::with_capacity(alloc, shares.len())?;
    let mut wakers = Vec::with_capacity(alloc, shares.len())?;
    for share in shares {
        let (poll, waker) = match WorkerPoll::new(net, alloc) {
            Ok(made) => made,
            Err(error) => return Err(ServeEnd::Net(error.kind())),
        };
        let Ok(()) = starts.push(WorkerStart { share, poll }) else {
            return Err(ServeEnd::Memory);
        };
        let Ok(()) = wakers.push(waker) else {
            return Err(ServeEnd::Memory);
        };
    }
    Ok((starts, Wakers::new(alloc, wakers)?))
}

// The reason of the first worker that stopped early.
fn first_stop<L: Ledger>(results: &[WorkerResult<L>]) -> Option<WorkEnd>
    ensures { result ≡ first_stop (map (λ s. s.end) results.now) }
{
    let mut rest = results;
    while let [one, more @ ..] = rest {
        if let Err(why) = one.end {
            return Some(why);
        }
        rest = more;
    }
    None
}

// Why a server is not finished: a worker stopped early, or connections were not accepted.
fn stop(stopped: Option<WorkEnd>, left: u32, failure: ErrorKind) -> Option<ServeEnd>
    ensures { result ≡ stop_of stopped left failure }
{
    match stopped {
        Some(why) => Some(ServeEnd::from(why)),
        None if left > 0 => Some(ServeEnd::Net(failure)),
        None => None,
    }
}

// The book and the receipts, if no worker stopped early and all connections were accepted.
#[tactic(auto, using(crate::proofs::Reports::none_stopped, crate::proofs::Reports::first_stopped))]
fn finish<L: Ledger>(
    alloc: Global,
    shared: SharedHub<L>,
    acceptor: Acceptor,
    results: Vec<WorkerResult<L>>,
) -> Result<FinishedServer<L>, ServeEnd>
    requires all { vec_len results ≡ L.parts }
    requires some { 0 < vec_len results }
    ensures counted { IfOk result (λ c.
        c.book.first + length c.book.entries ≡ sum_by (λ s. s.share.count) results.items) }
    ensures receipts { IfOk result (λ c. c.receipts.items ≡ map (λ s. s.receipts) results.items) }
    ensures served { OnOk result (first_stop (map (λ s. s.end) results.items) ≡ None) }
    ensures accepted { OnOk result (acceptor.left ≡ 0) }
    ensures stopped { (why : WorkEnd) → first_stop (map (λ s. s.end) results.items) ≡ Some why
        → result ≡ Err (end_of_work why) }
    ensures why { IfErr result (λ why. (why ≡ Memory) ⊎ (stop_of (first_stop (map (λ s. s.end) results.items))
        acceptor.left (os_error_kind acceptor.code) ≡ Some why)) }
{
    let (left, failure) = (acceptor.left(), acceptor.failure());
    drop(acceptor);
    if let Some(why) = stop(first_stop(results.as_slice()), left, failure) {
        return Err(why);
    }
    let (shares, receipts) = shares_and_receipts(alloc, results)?;
    Ok(FinishedServer {
        book: gather(shares, shared),
        receipts,
    })
}

fn shares_and_receipts<L: Ledger>(
    alloc: Global,
    results: Vec<WorkerResult<L>>,
) -> Result<(Vec<Share<L>>, Vec<Vec<Receipt>>), AllocError>
    ensures shares { IfOk result (λ r. r.0.items ≡ map (λ s. s.share) results.items) }
    ensures receipts { IfOk result (λ r. r.1.items ≡ map (λ s. s.receipts) results.items) }
{
    let mut shares = Vec::with_capacity(alloc, results.len())?;
    let mut receipts = Vec::with_capacity(alloc, results.len())?;
    for one in results {
        shares.push(one.share)?;
        receipts.push(one.receipts)?;
    }
    Ok((shares, receipts))
}
