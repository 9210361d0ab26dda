//! The command `mqtt pub`.

ghost use Rattle.std.specs.Prelude.{◌≡◌, ⊤, IfOk, OnOk, Result};
ghost use Rattle.mq_pubsub_programs.specs.Prelude.{Delivers, IsSupply, IsStatus, status_of};
ghost use Rattle.mq_pubsub.specs.declared.error.RunError.{RunError as Failure};

use crate::common::{identifier, setup_of};
use crate::explain::{Work, tell_fault};
use crate::fault::Fault;
use crate::feed::{Feed, Supply};
use crate::link::Link;
use crate::runs::publish_with;
use crate::session::{Session, name_of, no_clock, saved_id};
use crate::supplies::supply_of;
use crate::watch::Watch;
use mq_pubsub::Setup;
use mq_pubsub_options::PublishWords;
use mq_wire::Text;
use std::alloc::Global;
use std::fs::File;
use std::io::Input;
use std::net::Net;
use std::random::RandomSource;
use std::rt::Files;
use std::time::{Clock, Instant};

// The source of the messages.
fn feed_of<'a, R>(
    rt: &'a R,
    alloc: Global,
    words: &'a PublishWords<'_>,
    supply: Supply,
    watch: &'a Watch,
    start: Instant,
    is_watched: bool,
) -> Feed<'a, R>
    ensures topic { result.topic.now ≡ words.now.topic }
    ensures qos { result.qos ≡ words.now.common.qos }
    ensures retain { result.retain ≡ words.now.retain }
    ensures supply { result.supply ≡ supply }
{
    Feed {
        rt,
        alloc,
        start,
        watch,
        topic: &words.topic,
        qos: words.common.qos,
        retain: words.retain,
        supply,
        delay: words.delay,
        is_watched: is_watched && !words.common.quiet,
        taken: 0,
        due: 0,
        shown: 0,
    }
}

// Publishes the payloads of a supply, and says why it stopped early.
fn publish_from<R>(
    rt: &R,
    alloc: Global,
    words: &PublishWords<'_>,
    session: &Option<Session<'_, R>>,
    setup: &Setup,
    supply: Supply,
    start: Instant,
    is_watched: bool,
) -> Result<u8, Fault>
where
    R: Net + Clock + Files<File = File> + Eprint,
    requires { IsSupply words.now supply }
    ensures { IfOk result (λ status. (end : Result ⊤ Failure) × (status ≡ status_of end)
        × OnOk end (Delivers words.now)) }
{
    let watch = Watch::new();
    let mut link = Link::new(rt, alloc, &words.common, &watch, start);
    let mut feed = feed_of(rt, alloc, words, supply, &watch, start, is_watched);
    let ended = publish_with(alloc, setup, words, session, &mut link, &mut feed);
    feed.end_progress();
    drop(feed);
    let outcome = ended?;
    let work = Work::Published(outcome.tally, words.common.qos);
    Ok(link.report("pub", &words.common, name_of(session), outcome.end, work))
}

// Publishes as a client with this configuration.
fn publish_of<R>(
    rt: &R,
    alloc: Global,
    words: &PublishWords<'_>,
    session: &Option<Session<'_, R>>,
    setup: &Setup,
    is_watched: bool,
) -> Result<u8, Fault>
where
    R: Net + Clock + Files<File = File> + Input + Eprint,
    ensures { IfOk result (λ status. (end : Result ⊤ Failure) × (status ≡ status_of end)
        × OnOk end (Delivers words.now)) }
{
    let supply = supply_of(rt, alloc, words)?;
    let Ok(start) = Instant::now(rt) else {
        drop(supply);
        return Err(no_clock(alloc));
    };
    publish_from(rt, alloc, words, session, setup, supply, start, is_watched)
}

// Publishes as a client with this identifier.
fn publish_as<R>(
    rt: &R,
    alloc: Global,
    words: &PublishWords<'_>,
    session: &Option<Session<'_, R>>,
    id: Text,
    is_watched: bool,
) -> Result<u8, Fault>
where
    R: Net + Clock + Files<File = File> + Input + Eprint,
    ensures { IfOk result (λ status. (end : Result ⊤ Failure) × (status ≡ status_of end)
        × OnOk end (Delivers words.now)) }
{
    let setup = setup_of(rt, alloc, &words.common, id)?;
    let status = publish_of(rt, alloc, words, session, &setup, is_watched);
    drop(setup);
    status
}

// Publishes as the client of the options or of the session.
fn publish_named<R>(
    rt: &R,
    alloc: Global,
    words: &PublishWords<'_>,
    session: &Option<Session<'_, R>>,
    is_watched: bool,
) -> Result<u8, Fault>
where
    R: Net + Clock + Files<File = File> + Input + Eprint + RandomSource,
    ensures { IfOk result (λ status. (end : Result ⊤ Failure) × (status ≡ status_of end)
        × OnOk end (Delivers words.now)) }
{
    let saved = saved_id(session)?;
    let id = identifier(rt, alloc, "pub", &words.common, saved.as_ref())?;
    drop(saved);
    publish_as(rt, alloc, words, session, id, is_watched)
}

// Publishes with the session file of the options, or without one.
fn publish_words<R>(
    rt: &R,
    alloc: Global,
    words: &PublishWords<'_>,
    is_watched: bool,
) -> Result<u8, Fault>
where
    R: Net + Clock + Files<File = File> + Input + Eprint + RandomSource,
    ensures { IfOk result (λ status. (end : Result ⊤ Failure) × (status ≡ status_of end)
        × OnOk end (Delivers words.now)) }
{
    let Some(name) = &words.common.session else {
        return publish_named(rt, alloc, words, &None, is_watched);
    };
    let session = Some(Session::open(rt, alloc, name.as_str())?);
    let status = publish_named(rt, alloc, words, &session, is_watched);
    if let Some(session) = session {
        session.close();
    }
    status
}

/// Runs `mqtt pub` with these arguments. Returns its exit status. `is_watched` means that standard
/// error is a terminal.
pub fn run_pub<R>(rt: &R, alloc: Global, words: &PublishWords<'_>, is_watched: bool) -> u8
where
    R: Net + Clock + Files<File = File> + Input + Print + Eprint + RandomSource,
    ensures done { result ≡ 0 → Delivers words.now }
    ensures status { IsStatus result }
{
    match publish_words(rt, alloc, words, is_watched) {
        Ok(status) => status,
        Err(fault) => tell_fault(rt, "pub", fault),
    }
}
