//! The client programs, over sockets and files of the system.

ghost use Rattle.std.specs.Prelude.{◌≡◌, ◌≢◌, Some, IfOk, OnOk};
ghost use Rattle.mq_programs.specs.Prelude.{Appends, Prints, topic_line, AreTextsOf, IsBadTopic, IsClientRun, IsCollectRun, IsCollected, IsLockedRun, IsPublishRun, IsPublished, IsSessionRun};

use crate::reason::{
    Progress, Stopped, explain_in_use, explain_stop, explain_topic, explain_unlocked,
};
use mq_cli::{Collect, Command, Failure, Publish};
use mq_client::{
    ClientError, CollectGoal, Loopback, Publications, SessionLock, SessionOptions, Stop,
    SystemDisk, collect_messages, linked_name, publish_session, publish_texts, write_halt,
};
use mq_topic::{TopicFault, TopicFilter, TopicName};
use mq_wire::{Text, TextFault};
use std::alloc::Global;
use std::fs::File;
use std::io;
use std::io::{ErrorKind, Write};
use std::net::Net;
use std::rt::Files;
use std::time::Clock;

// The client identifier of an argument.
fn identifier(alloc: Global, id: &str) -> Result<Text, Failure>
    ensures { IfOk result (λ t. t ≡ id.now) }
{
    match Text::new(alloc, id) {
        Ok(id) => Ok(id),
        Err(TextFault::Memory) => Err(Failure::Memory),
        Err(TextFault::TooLong | TextFault::Nul) => Err(Failure::Words),
    }
}

// Writes that an argument is not a topic name, or no topic filter.
fn write_bad_topic<W: Write>(output: &mut W, kind: &str, fault: TopicFault) -> io::Result<()>
    ensures { OnOk result
        (Appends (W.contents output.old) (W.contents output.new) (topic_line kind.now fault)) }
{
    let code = fault.code();
    writeln!(output, "{kind} {code}")
}

// The same, with the status.
fn bad_topic<E: Write, W: Write>(
    errors: &mut E,
    output: &mut W,
    kind: &str,
    topic: &str,
    fault: TopicFault,
) -> Result<u8, Failure>
    ensures other { IfOk result (λ _. fault ≢ TopicFault.Memory) }
    ensures told { IfOk result (λ status. Prints (W.contents output.old) (W.contents output.new)
        (IsBadTopic kind.now (Some fault) status)) }
{
    if fault == TopicFault::Memory {
        return Err(Failure::Memory);
    }
    write_bad_topic(output, kind, fault)?;
    explain_topic(errors, kind, topic, fault);
    Ok(2)
}

/// Runs `publish`. Returns its status. `errors` gets a line that says why it stopped early.
pub fn run_publish<R: Net + Clock + Files<File = File>, E: Write, W: Write>(
    rt: &R,
    alloc: Global,
    words: &Publish<'_>,
    errors: &mut E,
    output: &mut W,
) -> Result<u8, Failure>
    ensures { IfOk result (λ status. Prints (W.contents output.old) (W.contents output.new)
        (IsPublishRun words.now status)) }
{
    match TopicName::parse(alloc, words.topic) {
        Ok(topic) => publish_to(rt, alloc, words, &topic, errors, output),
        Err(fault) => bad_topic(errors, output, "name", words.topic, fault),
    }
}

// Publishes texts to a topic, over a clean session or over the session in a file.
fn publish_to<R: Net + Clock + Files<File = File>, E: Write, W: Write>(
    rt: &R,
    alloc: Global,
    words: &Publish<'_>,
    topic: &TopicName,
    errors: &mut E,
    output: &mut W,
) -> Result<u8, Failure>
    requires { topic.now ≡ words.now.topic.now }
    ensures { IfOk result (λ status. Prints (W.contents output.old) (W.contents output.new)
        (IsPublished words.now status)) }
{
    let id = identifier(alloc, words.id)?;
    Ok(publish_as(rt, alloc, words, topic, &id, errors, output)?)
}

// Publishes texts over the session in a file, unless another run does so.
fn publish_locked<R: Net + Clock + Files<File = File>, E: Write, W: Write>(
    rt: &R,
    alloc: Global,
    id: &Text,
    texts: &Publications<'_>,
    session: SessionOptions<'_>,
    dialer: &mut Loopback<'_, R>,
    stop: &mut Option<Stop>,
    errors: &mut E,
    output: &mut W,
) -> io::Result<u8>
    ensures { IfOk result (λ status. Prints (W.contents output.old) (W.contents output.new)
        (IsLockedRun session.entry.name.now session.entry.is_forgotten id.now texts.now status)) }
{
    match SessionLock::take(rt, alloc, session.name) {
        Ok(Some(lock)) => {
            let disk = SystemDisk(rt);
            let status = publish_session(alloc, id, texts, disk, session, dialer, stop, output);
            lock.release();
            status
        }
        Ok(None) => {
            explain_in_use(errors, session.name);
            writeln!(output, "session in use")?;
            Ok(1)
        }
        Err(error) => {
            explain_unlocked(errors, session.name, error.kind());
            write_halt(output, unlocked(error))
        }
    }
}

// The error of a lock that could not be taken.
fn unlocked(error: io::Error) -> ClientError {
    match error.kind() {
        ErrorKind::OutOfMemory => ClientError::Memory,
        kind => ClientError::SaveError(kind),
    }
}

// Publishes texts over the session in the file that a name leads to.
fn publish_linked<R: Net + Clock + Files<File = File>, E: Write, W: Write>(
    rt: &R,
    alloc: Global,
    id: &Text,
    texts: &Publications<'_>,
    session: SessionOptions<'_>,
    dialer: &mut Loopback<'_, R>,
    stop: &mut Option<Stop>,
    errors: &mut E,
    output: &mut W,
) -> io::Result<u8>
    ensures { IfOk result (λ status. Prints (W.contents output.old) (W.contents output.new)
        (IsSessionRun session.entry.is_forgotten id.now texts.now status)) }
{
    match linked_name(rt, alloc, session.name) {
        Ok(name) => {
            let session = SessionOptions {
                name: name.as_str(),
                ..session
            };
            publish_locked(rt, alloc, id, texts, session, dialer, stop, errors, output)
        }
        Err(error) => {
            explain_unlocked(errors, session.name, error.kind());
            write_halt(output, unlocked(error))
        }
    }
}

// Publishes texts over a clean session, or over the session in a file.
fn publish_over<R: Net + Clock + Files<File = File>, E: Write, W: Write>(
    rt: &R,
    alloc: Global,
    words: &Publish<'_>,
    id: &Text,
    texts: &Publications<'_>,
    dialer: &mut Loopback<'_, R>,
    stop: &mut Option<Stop>,
    errors: &mut E,
    output: &mut W,
) -> io::Result<u8>
    requires texts { AreTextsOf words.now texts.now }
    requires id { id.now ≡ words.now.id.now }
    ensures { IfOk result (λ status. Prints (W.contents output.old) (W.contents output.new)
        (IsPublished words.now status)) }
{
    match words.session {
        Some(name) => {
            let session = SessionOptions {
                name,
                is_forgotten: words.forget,
            };
            publish_linked(rt, alloc, id, texts, session, dialer, stop, errors, output)
        }
        None => publish_texts(alloc, id, texts, dialer, stop, output),
    }
}

// Publishes texts as a client with this identifier.
fn publish_as<R: Net + Clock + Files<File = File>, E: Write, W: Write>(
    rt: &R,
    alloc: Global,
    words: &Publish<'_>,
    topic: &TopicName,
    id: &Text,
    errors: &mut E,
    output: &mut W,
) -> io::Result<u8>
    requires topic { topic.now ≡ words.now.topic.now }
    requires id { id.now ≡ words.now.id.now }
    ensures { IfOk result (λ status. Prints (W.contents output.old) (W.contents output.new)
        (IsPublished words.now status)) }
{
    let texts = Publications {
        topic,
        qos: words.qos,
        retain: words.retain,
        texts: words.texts.as_slice(),
    };
    let (mut dialer, mut stop) = (Loopback::new(rt, words.port), None);
    let status = publish_over(
        rt,
        alloc,
        words,
        id,
        &texts,
        &mut dialer,
        &mut stop,
        errors,
        output,
    );
    let stopped = Stopped {
        port: words.port,
        session: words.session,
        failure: dialer.failure,
        progress: Progress::Texts(words.texts.len(), words.qos),
    };
    explain_stop(errors, &stopped, stop);
    status
}

/// Runs `collect`. Returns its status. `errors` gets a line that says why it stopped early.
pub fn run_collect<R: Net + Clock, E: Write, W: Write>(
    rt: &R,
    alloc: Global,
    words: &Collect<'_>,
    errors: &mut E,
    output: &mut W,
) -> Result<u8, Failure>
    ensures { IfOk result (λ status. Prints (W.contents output.old) (W.contents output.new)
        (IsCollectRun words.now status)) }
{
    match TopicFilter::parse(alloc, words.filter) {
        Ok(filter) => collect_of(rt, alloc, words, &filter, errors, output),
        Err(fault) => bad_topic(errors, output, "filter", words.filter, fault),
    }
}

// Prints the messages of a filter.
fn collect_of<R: Net + Clock, E: Write, W: Write>(
    rt: &R,
    alloc: Global,
    words: &Collect<'_>,
    filter: &TopicFilter,
    errors: &mut E,
    output: &mut W,
) -> Result<u8, Failure>
    requires { filter.now ≡ words.now.filter.now }
    ensures { IfOk result (λ status. Prints (W.contents output.old) (W.contents output.new)
        (IsCollected words.now status)) }
{
    let id = identifier(alloc, words.id)?;
    Ok(collect_as(rt, alloc, words, filter, &id, errors, output)?)
}

// The same, as a client with this identifier.
fn collect_as<R: Net + Clock, E: Write, W: Write>(
    rt: &R,
    alloc: Global,
    words: &Collect<'_>,
    filter: &TopicFilter,
    id: &Text,
    errors: &mut E,
    output: &mut W,
) -> io::Result<u8>
    requires filter { filter.now ≡ words.now.filter.now }
    requires id { id.now ≡ words.now.id.now }
    ensures { IfOk result (λ status. Prints (W.contents output.old) (W.contents output.new)
        (IsCollected words.now status)) }
{
    let goal = CollectGoal {
        filter,
        qos: words.qos,
        count: words.count,
    };
    let (mut dialer, mut stop) = (Loopback::new(rt, words.port), None);
    let status = collect_messages(
        alloc,
        id,
        &goal,
        words.clean,
        &mut dialer,
        &mut stop,
        output,
    );
    let stopped = Stopped {
        port: words.port,
        session: None,
        failure: dialer.failure,
        progress: Progress::Messages(words.count, words.filter),
    };
    explain_stop(errors, &stopped, stop);
    status
}

/// Runs `publish` or `collect`. Returns the status, or `Words` for another command. `errors` gets a
/// line that says why the program stopped early.
pub fn run_client<R: Net + Clock + Files<File = File>, E: Write, W: Write>(
    rt: &R,
    alloc: Global,
    command: &Command<'_>,
    errors: &mut E,
    output: &mut W,
) -> Result<u8, Failure>
    ensures { IfOk result (λ status. Prints (W.contents output.old) (W.contents output.new)
        (IsClientRun command.now status)) }
{
    match command {
        Command::Publish(words) => run_publish(rt, alloc, words, errors, output),
        Command::Collect(words) => run_collect(rt, alloc, words, errors, output),
        Command::Job(_)
        | Command::Serve(_)
        | Command::Broker(_)
        | Command::Journal(_)
        | Command::Password(_)
        | Command::Loopback(_)
        | Command::Draw(_)
        | Command::Completion
        | Command::Manual => Err(Failure::Words),
    }
}
