//! The command `mqtt sub`.

ghost use Rattle.std.specs.Prelude.{◌≡◌, ⊤, [], map, option_map, unwrap_or, IfOk, OnOk, Result};
ghost use Rattle.mq_pubsub_programs.specs.Prelude.{Follows, IsRun, request_of, IsStatus, status_of};
ghost use Rattle.mq_pubsub.specs.declared.error.RunError.{RunError as Failure};

use crate::common::{identifier, setup_of};
use crate::explain::{Work, tell_fault};
use crate::fault::Fault;
use crate::link::{Link, PacketLink};
use crate::printing::Lines;
use crate::runs::subscribe_with;
use crate::session::{Session, name_of, no_clock, saved_id};
use crate::watch::Watch;
use mq_packet::{NonEmpty, Request};
use mq_pubsub::{Choice, Retry, Setup, SubscribeOptions};
use mq_pubsub_options::SubscribeWords;
use mq_topic::{Qos, TopicFilter};
use mq_wire::Text;
use std::alloc::Global;
use std::fs::File;
use std::io::Input;
use std::net::Net;
use std::random::RandomSource;
use std::rt::Files;
use std::time::{Clock, Instant};

// A list, if it has an item.
fn some_of<T: Drop>(items: Vec<T>) -> Option<NonEmpty<T>>
    ensures { unwrap_or result [] ≡ items.items }
{
    if items.is_empty() {
        return None;
    }
    Some(NonEmpty::from_vec(items))
}

// The subscriptions to request.
fn requests_of(
    alloc: Global,
    filters: &[TopicFilter],
    qos: Qos,
) -> Result<Option<NonEmpty<Request>>, Fault>
    ensures { IfOk result (λ requests. unwrap_or requests []
        ≡ map (request_of qos) filters.now) }
{
    let mut requests = Vec::new(alloc);
    for filter in filters {
        let filter = filter.clone()?;
        if requests.push(Request { filter, qos }).is_err() {
            return Err(Fault::Memory);
        }
    }
    Ok(some_of(requests))
}

// The subscriptions to give up.
fn given_up_of(
    alloc: Global,
    filters: &[TopicFilter],
) -> Result<Option<NonEmpty<TopicFilter>>, Fault>
    ensures { IfOk result (λ given_up. unwrap_or given_up [] ≡ filters.now) }
{
    let mut given_up = Vec::new(alloc);
    for filter in filters {
        if given_up.push(filter.clone()?).is_err() {
            return Err(Fault::Memory);
        }
    }
    Ok(some_of(given_up))
}

// The requests of a run.
#[derive(Drop)]
struct Wishes {
    requests: Option<NonEmpty<Request>>,
    given_up: Option<NonEmpty<TopicFilter>>,
}

// The requests of the arguments.
fn wishes_of(alloc: Global, words: &SubscribeWords) -> Result<Wishes, Fault>
    ensures requests { IfOk result (λ wishes. unwrap_or wishes.requests []
        ≡ map (request_of words.now.common.qos) words.now.filters.items) }
    ensures given_up { IfOk result
        (λ wishes. unwrap_or wishes.given_up [] ≡ words.now.given_up.items) }
{
    let requests = requests_of(alloc, words.filters.as_slice(), words.common.qos)?;
    let given_up = given_up_of(alloc, words.given_up.as_slice())?;
    Ok(Wishes { requests, given_up })
}

// The options of a run.
fn options_of<'a>(words: &'a SubscribeWords, wishes: &'a Wishes) -> SubscribeOptions<'a>
    requires requests { unwrap_or wishes.now.requests []
        ≡ map (request_of words.now.common.qos) words.now.filters.items }
    requires given_up { unwrap_or wishes.now.given_up [] ≡ words.now.given_up.items }
    ensures { IsRun words.now result }
{
    let common = &words.common;
    SubscribeOptions {
        requests: wishes.requests.as_ref(),
        given_up: wishes.given_up.as_ref(),
        choice: Choice {
            skips_retained: words.skips_retained,
            only_retained: words.only_retained,
            excluded: words.excluded.as_slice(),
        },
        count: words.count,
        ends_when_granted: words.ends_when_granted,
        clean: !common.keeps,
        retry: Retry {
            longest_wait: common.longest_wait,
            deadline: common.timeout,
        },
    }
}

// The printer of the messages.
fn lines_of<'a, R>(
    rt: &'a R,
    alloc: Global,
    words: &'a SubscribeWords,
    wishes: &'a Wishes,
) -> Lines<'a, R> {
    Lines {
        rt,
        alloc,
        style: &words.style,
        has_line_end: words.has_line_end,
        requests: match &wishes.requests {
            Some(requests) => requests.as_slice(),
            None => &[],
        },
        is_quiet: words.common.quiet,
        printed: 0,
    }
}

// Makes these requests, prints the messages, and says why it stopped early.
fn subscribe_to<'x, R>(
    rt: &'x R,
    alloc: Global,
    words: &'x SubscribeWords,
    session: &Option<Session<'_, R>>,
    setup: &Setup,
    wishes: &'x Wishes,
    start: Instant,
) -> Result<u8, Fault>
where
    R: Net + Clock + Files<File = File> + Print + Eprint,
    requires requests { unwrap_or wishes.now.requests []
        ≡ map (request_of words.now.common.qos) words.now.filters.items }
    requires given_up { unwrap_or wishes.now.given_up [] ≡ words.now.given_up.items }
    ensures { IfOk result (λ status. (end : Result ⊤ Failure) × (status ≡ status_of end)
        × OnOk end (Follows words.now)) }
{
    let watch = Watch::new();
    let mut link = Link::new(rt, alloc, &words.common, &watch, start);
    let options = options_of(words, wishes);
    let mut printer = lines_of(rt, alloc, words, wishes);
    let mut packets = PacketLink(&mut link);
    let end = subscribe_with(alloc, setup, session, &mut packets, &options, &mut printer)?;
    let work = Work::Printed(printer.printed);
    Ok(link.report("sub", &words.common, name_of(session), end, work))
}

// Subscribes as a client with this configuration.
fn subscribe_of<R>(
    rt: &R,
    alloc: Global,
    words: &SubscribeWords,
    session: &Option<Session<'_, R>>,
    setup: &Setup,
) -> Result<u8, Fault>
where
    R: Net + Clock + Files<File = File> + Print + Eprint,
    ensures { IfOk result (λ status. (end : Result ⊤ Failure) × (status ≡ status_of end)
        × OnOk end (Follows words.now)) }
{
    let wishes = wishes_of(alloc, words)?;
    let Ok(start) = Instant::now(rt) else {
        drop(wishes);
        return Err(no_clock(alloc));
    };
    let status = subscribe_to(rt, alloc, words, session, setup, &wishes, start);
    drop(wishes);
    status
}

// Subscribes as a client with this identifier.
fn subscribe_as<R>(
    rt: &R,
    alloc: Global,
    words: &SubscribeWords,
    session: &Option<Session<'_, R>>,
    id: Text,
) -> Result<u8, Fault>
where
    R: Net + Clock + Files<File = File> + Print + Eprint,
    ensures { IfOk result (λ status. (end : Result ⊤ Failure) × (status ≡ status_of end)
        × OnOk end (Follows words.now)) }
{
    let setup = setup_of(rt, alloc, &words.common, id)?;
    let status = subscribe_of(rt, alloc, words, session, &setup);
    drop(setup);
    status
}

// Subscribes as the client of the options or of the session.
fn subscribe_named<R>(
    rt: &R,
    alloc: Global,
    words: &SubscribeWords,
    session: &Option<Session<'_, R>>,
) -> Result<u8, Fault>
where
    R: Net + Clock + Files<File = File> + Print + Eprint + RandomSource,
    ensures { IfOk result (λ status. (end : Result ⊤ Failure) × (status ≡ status_of end)
        × OnOk end (Follows words.now)) }
{
    let saved = saved_id(session)?;
    let id = identifier(rt, alloc, "sub", &words.common, saved.as_ref())?;
    drop(saved);
    subscribe_as(rt, alloc, words, session, id)
}

// Subscribes with the session file of the options, or without one.
fn subscribe_words<R>(rt: &R, alloc: Global, words: &SubscribeWords) -> Result<u8, Fault>
where
    R: Net + Clock + Files<File = File> + Print + Eprint + RandomSource,
    ensures { IfOk result (λ status. (end : Result ⊤ Failure) × (status ≡ status_of end)
        × OnOk end (Follows words.now)) }
{
    let Some(name) = &words.common.session else {
        return subscribe_named(rt, alloc, words, &None);
    };
    let session = Some(Session::open(rt, alloc, name.as_str())?);
    let status = subscribe_named(rt, alloc, words, &session);
    if let Some(session) = session {
        session.close();
    }
    status
}

/// Runs `mqtt sub` with these arguments. Returns its exit status.
pub fn run_sub<R>(rt: &R, alloc: Global, words: &SubscribeWords) -> u8
where
    R: Net + Clock + Files<File = File> + Input + Print + Eprint + RandomSource,
    ensures done { result ≡ 0 → Follows words.now }
    ensures status { IsStatus result }
{
    match subscribe_words(rt, alloc, words) {
        Ok(status) => status,
        Err(fault) => tell_fault(rt, "sub", fault),
    }
}
