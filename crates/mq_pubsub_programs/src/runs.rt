//! The runs of both commands, with a session file or without one.

ghost use Rattle.std.specs.Prelude.{IfOk, OnOk};
ghost use Rattle.mq_pubsub_programs.specs.Prelude.{Completes, ComesToEnd};

use crate::fault::Fault;
use crate::session::Session;
use mq_client::{NoSaver, SavingTo, SessionFile, SystemDisk};
use mq_end::ClientEnd;
use mq_pubsub::{Printer, Retry, RunError, Setup, Source, SubscribeOptions};
use mq_pubsub_options::PublishWords;
use mq_pubsub_runs::{Network, PublishOptions, Published, Tally, discard, publish, subscribe};
use mq_stream::{Clock, Stream};
use mq_topic::Qos;
use std::alloc::Global;
use std::fs::File;
use std::rt::Files;

/// How the session of a publisher begins and ends.
#[derive(Clone, Copy)]
pub(crate) struct Plan {
    options: PublishOptions,
    // The broker's session is discarded before the first message.
    begins_anew: bool,
    // The broker's session is discarded after the last message.
    ends_with_run: bool,
}

/// The plan for these arguments. `has_saved` means that there is a session in a file.
pub(crate) fn plan_of(words: &PublishWords<'_>, has_saved: bool) -> Plan {
    let common = &words.common;
    let retry = Retry {
        longest_wait: common.longest_wait,
        deadline: common.timeout,
    };
    let clean = !common.keeps && (common.qos == Qos::Q0 || common.longest_wait.is_none());
    let ends_with_run = !common.keeps && !clean;
    Plan {
        options: PublishOptions { clean, retry },
        begins_anew: common.id.is_some()
            && !has_saved
            && (ends_with_run || common.session.is_some()),
        ends_with_run,
    }
}

/// The end of a publisher's run.
#[derive(Clone, Copy)]
pub(crate) struct Outcome {
    /// How many messages are done.
    pub(crate) tally: Tally,
    /// `Ok` if all are done.
    pub(crate) end: Result<(), RunError>,
}

// The tally of a run that published nothing.
const NOTHING: Tally = Tally { done: 0, taken: 0 };

// Discards the broker's session, if the plan says so before the first message.
fn begin<S: Stream + Drop, C: Clock + Drop, N: Network<S, C>>(
    alloc: Global,
    setup: &Setup,
    network: &mut N,
    plan: Plan,
) -> Result<(), RunError> {
    if !plan.begins_anew {
        return Ok(());
    }
    discard(alloc, setup, network, plan.options.retry)
}

// Publishes without a session file.
#[tactic(auto, using(crate::proofs::Deliveries::on_completes))]
fn publish_plain<S: Stream + Drop, C: Clock + Drop, N: Network<S, C>, M: Source>(
    alloc: Global,
    setup: &Setup,
    network: &mut N,
    source: &mut M,
    plan: Plan,
) -> Result<Outcome, Fault>
    ensures done { IfOk result (λ outcome. OnOk outcome.end
        (Completes (M.coming source.old) (M.coming source.new))) }
    ensures ended { IfOk result (λ outcome. OnOk outcome.end (M.ended source.new)) }
{
    if let Err(error) = begin(alloc, setup, network, plan) {
        return Ok(Outcome {
            tally: NOTHING,
            end: Err(error),
        });
    }
    let client = setup.client(alloc)?;
    let Published {
        client,
        tally,
        end,
        ..
    } = publish(client, NoSaver, network, source, plan.options);
    drop(client);
    if plan.ends_with_run && end.is_ok() {
        // All messages are acknowledged, so that a failure here changes nothing for the user.
        let _ = discard(alloc, setup, network, plan.options.retry);
    }
    Ok(Outcome { tally, end })
}

// Marks the session in a file as lost at the broker.
fn mark_lost<R: Files<File = File>>(
    alloc: Global,
    client: &ClientEnd,
    file: &mut SessionFile<'_, SystemDisk<'_, R>>,
) {
    let mut form = Vec::new(alloc);
    if client.save(&mut form).is_ok() {
        let _ = file.mark_lost(form.as_slice());
    }
}

// Publishes as this client, with its session in a file.
#[tactic(auto, using(crate::proofs::Deliveries::on_completes))]
fn publish_saving<
    R: Files<File = File>,
    S: Stream + Drop,
    C: Clock + Drop,
    N: Network<S, C>,
    M: Source,
>(
    alloc: Global,
    client: ClientEnd,
    session: &Session<'_, R>,
    network: &mut N,
    source: &mut M,
    options: PublishOptions,
) -> Outcome
    ensures done { OnOk result.end (Completes (M.coming source.old) (M.coming source.new)) }
    ensures ended { OnOk result.end (M.ended source.new) }
{
    let keeper = SavingTo {
        alloc,
        store: session.file(),
    };
    let Published {
        client,
        mut keeper,
        tally,
        end,
    } = publish(client, keeper, network, source, options);
    if let Err(error) = end {
        if error.is_session_lost() {
            mark_lost(alloc, &client, &mut keeper.store);
        }
    }
    drop(client);
    drop(keeper);
    Outcome { tally, end }
}

// Publishes with the session in a file.
fn publish_kept<
    R: Files<File = File>,
    S: Stream + Drop,
    C: Clock + Drop,
    N: Network<S, C>,
    M: Source,
>(
    alloc: Global,
    setup: &Setup,
    session: &Session<'_, R>,
    network: &mut N,
    source: &mut M,
    plan: Plan,
) -> Result<Outcome, Fault>
    ensures done { IfOk result (λ outcome. OnOk outcome.end
        (Completes (M.coming source.old) (M.coming source.new))) }
    ensures ended { IfOk result (λ outcome. OnOk outcome.end (M.ended source.new)) }
{
    if session.is_lost {
        return Err(session.lost());
    }
    if let Err(error) = begin(alloc, setup, network, plan) {
        return Ok(Outcome {
            tally: NOTHING,
            end: Err(error),
        });
    }
    let client = session.client(setup)?;
    Ok(publish_saving(alloc, client, session, network, source, plan.options))
}

/// Publishes the messages of a source with a session file or without one.
pub(crate) fn publish_with<
    R: Files<File = File>,
    S: Stream + Drop,
    C: Clock + Drop,
    N: Network<S, C>,
    M: Source,
>(
    alloc: Global,
    setup: &Setup,
    words: &PublishWords<'_>,
    session: &Option<Session<'_, R>>,
    network: &mut N,
    source: &mut M,
) -> Result<Outcome, Fault>
    ensures done { IfOk result (λ outcome. OnOk outcome.end
        (Completes (M.coming source.old) (M.coming source.new))) }
    ensures ended { IfOk result (λ outcome. OnOk outcome.end (M.ended source.new)) }
{
    match session {
        Some(session) => {
            let plan = plan_of(words, session.is_there());
            publish_kept(alloc, setup, session, network, source, plan)
        }
        None => publish_plain(alloc, setup, network, source, plan_of(words, false)),
    }
}

// Subscribes without a session file.
#[tactic(auto, using(crate::proofs::Deliveries::on_ended))]
fn subscribe_plain<S: Stream + Drop, C: Clock + Drop, N: Network<S, C>, P: Printer>(
    alloc: Global,
    setup: &Setup,
    network: &mut N,
    options: &SubscribeOptions<'_>,
    printer: &mut P,
) -> Result<Result<(), RunError>, Fault>
    ensures { IfOk result (λ end. OnOk end
        (ComesToEnd options.now (P.shown printer.old) (P.shown printer.new))) }
{
    let client = setup.client(alloc)?;
    let done = subscribe(alloc, setup, client, NoSaver, network, options, printer);
    Ok(done.end)
}

// Subscribes with the session in a file.
#[tactic(auto, using(crate::proofs::Deliveries::on_ended))]
fn subscribe_kept<
    R: Files<File = File>,
    S: Stream + Drop,
    C: Clock + Drop,
    N: Network<S, C>,
    P: Printer,
>(
    alloc: Global,
    setup: &Setup,
    session: &Session<'_, R>,
    network: &mut N,
    options: &SubscribeOptions<'_>,
    printer: &mut P,
) -> Result<Result<(), RunError>, Fault>
    ensures { IfOk result (λ end. OnOk end
        (ComesToEnd options.now (P.shown printer.old) (P.shown printer.new))) }
{
    let client = session.client(setup)?;
    let keeper = SavingTo {
        alloc,
        store: session.file(),
    };
    let done = subscribe(alloc, setup, client, keeper, network, options, printer);
    Ok(done.end)
}

/// Subscribes with a session file or without one.
pub(crate) fn subscribe_with<
    R: Files<File = File>,
    S: Stream + Drop,
    C: Clock + Drop,
    N: Network<S, C>,
    P: Printer,
>(
    alloc: Global,
    setup: &Setup,
    session: &Option<Session<'_, R>>,
    network: &mut N,
    options: &SubscribeOptions<'_>,
    printer: &mut P,
) -> Result<Result<(), RunError>, Fault>
    ensures { IfOk result (λ end. OnOk end
        (ComesToEnd options.now (P.shown printer.old) (P.shown printer.new))) }
{
    match session {
        Some(session) => subscribe_kept(alloc, setup, session, network, options, printer),
        None => subscribe_plain(alloc, setup, network, options, printer),
    }
}
