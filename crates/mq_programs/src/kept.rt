//! A broker that is ready to run, with a journal or without one.

ghost use Rattle.std.specs.Prelude.{◌≡◌, IfErr, IfOk};
ghost use Rattle.mq_programs.specs.Prelude.{configuration, IsPacketLimit, PacketLimit, MayEnd, keep_of, IsFound};

use mq_broker::{BrokerEnd, BrokerOptions, Log, OpenError, RecoveredBroker, run_broker};
use mq_cli::{DataFolder, Durability};
use mq_file::Keep;
use mq_store::StoreOptions;
use std::alloc::Global;
use std::fs::File;
use std::io;
use std::io::Write;
use std::net::Net;
use std::rt::Files;
use std::time::{Clock, Instant};

/// A broker that is ready to run.
#[derive(Drop)]
pub(crate) enum Ready {
    /// All its state is in memory.
    Plain(BrokerOptions),
    /// It keeps a journal.
    Kept(RecoveredBroker),
}

impl Ready {
    /// Runs the broker until it ends.
    pub(crate) fn run<R: Net + Clock + Files<File = File>, W: Write, L: Write + Drop>(
        self,
        rt: &R,
        alloc: Global,
        output: &mut W,
        log: Log<L>,
    ) -> BrokerEnd
        ensures { MayEnd self result }
    {
        match self {
            Ready::Plain(options) => run_broker(rt, alloc, options, output, log),
            Ready::Kept(broker) => broker.run(rt, alloc, output, log),
        }
    }
}

fn keep_of(keep: Durability) -> Keep
    ensures { result ≡ keep_of keep }
{
    match keep {
        Durability::System => Keep::System,
        Durability::Disk => Keep::Disk,
    }
}

// The options of the folder.
fn store_options(folder: DataFolder<'_>) -> StoreOptions
    ensures keep { result.keep ≡ keep_of folder.entry.keep }
    ensures size { result.journal_size ≡ folder.entry.journal_size }
{
    StoreOptions {
        keep: keep_of(folder.keep),
        journal_size: u64::from(folder.journal_size),
    }
}

// The milliseconds since a time. 0 if the system has no clock.
fn milliseconds_since<R: Clock>(rt: &R, began: io::Result<Instant>) -> u128 {
    let Ok(began) = began else {
        return 0;
    };
    match began.elapsed(rt) {
        Ok(time) => time.as_millis(),
        Err(_) => 0,
    }
}

/// Recovers a broker from its folder, and writes to `errors` how much was recovered.
pub(crate) fn recover<R: Clock + Files<File = File>, E: Write>(
    rt: &R,
    alloc: Global,
    options: BrokerOptions,
    data: DataFolder<'_>,
    errors: &mut E,
) -> Result<RecoveredBroker, OpenError>
    ensures recovered { IfOk result (λ broker. IsFound (configuration options) broker.hub broker.events) }
    ensures allowed { IfOk result (λ _. IsPacketLimit options.max_packet) }
    ensures refused { IfErr result (λ error. error ≡ PacketLimit → ¬ (IsPacketLimit options.max_packet)) }
{
    let began = Instant::now(rt);
    let broker = RecoveredBroker::open(rt, alloc, options, data.path, store_options(data))?;
    let (events, sessions) = (broker.events(), broker.sessions());
    let time = milliseconds_since(rt, began);
    let _ = writeln!(
        errors,
        "recovered {events} events, {sessions} sessions in {time} ms"
    );
    Ok(broker)
}
