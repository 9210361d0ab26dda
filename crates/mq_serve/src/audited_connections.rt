//! A worker that keeps receipts serves connections.

ghost use Rattle.std.specs.Prelude.{◌*◌, IfOk};
ghost use Rattle.mq_serve.specs.Prelude.{Worked};

use mq_book::{AuditedWorker, ConnectionSource, StepObserver, WorkEnd, work};
use mq_route::Conn;
use mq_stream::Clock;
use std::alloc::Global;
use std::sync::Wait;
use std::sync::ledger::Ledger;

/// Serves connections one after another, until there is no next one. Returns their number.
///
/// The worker keeps a receipt for each step, and makes at least two steps for each connection.
#[tactic(auto, using(crate::proofs::AuditedRuns::worked_none, crate::proofs::AuditedRuns::worked_then, crate::proofs::AuditedRuns::worked_some, crate::proofs::AuditedRuns::worked_least))]
pub fn serve_connections_audited<
    'a,
    L: Ledger,
    R: Wait,
    H: StepObserver,
    D: ConnectionSource,
    C: Clock,
>(
    worker: &mut AuditedWorker<'a, L, R, H>,
    alloc: Global,
    source: &mut D,
    clock: &mut C,
    buffer: &mut [u8],
) -> Result<u32, WorkEnd>
    ensures worked { Worked 0 worker.old worker.new }
    ensures served { IfOk result (λ n. Worked (2 * n) worker.old worker.new) }
{
    let number = worker.worker();
    for nth in 0..u32::MAX {
        let Some(mut stream) = source.next() else {
            return Ok(nth);
        };
        let conn = Conn {
            worker: number,
            nth,
        };
        work(worker, alloc, conn, &mut stream, clock, buffer)?;
    }
    Ok(u32::MAX)
}
