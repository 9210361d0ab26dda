//! Client ends: the result and the output of each call.

ghost use Rattle.std.specs.Prelude.{◌≡◌, IfOk, None};

use crate::arrivals::{receive, take_view};
use crate::brief::{
    add_asked, add_deadline, add_done, add_each, add_happenings, add_late, add_published,
    add_session, add_state,
};
use crate::fields::bytes_of;
use crate::messages::{add_short, message};
use crate::sessions::Books;
use crate::words::Words;
use crate::wrong::Wrong;
use mq_decode::Limits;
use mq_end::{ByteQueue, ClientConfig, ClientEnd};
use mq_flow::Saved;
use mq_packet::{NonEmpty, Request};
use mq_topic::{Qos, TopicFilter};
use mq_wire::Text;
use std::alloc::Global;

fn config(alloc: Global, words: &mut Words<'_>) -> Result<ClientConfig, Wrong>
    ensures { IfOk result (λ config. config.window ≡ None) }
{
    let capacity = words.number()?;
    let limits = words.limits()?;
    Ok(ClientConfig {
        id: Text::new(alloc, "w").ok().ok_or(Wrong::Words)?,
        keep_alive: 60,
        will: None,
        login: None,
        limits,
        capacity,
        window: None,
    })
}

/// `new client ROOM LIMIT`.
pub(crate) fn new_client(alloc: Global, words: &mut Words<'_>) -> Result<ClientEnd, Wrong> {
    let config = config(alloc, words)?;
    if config.capacity == 0 {
        return Err(Wrong::Words);
    }
    Ok(ClientEnd::new(alloc, config))
}

pub(crate) fn resume(
    alloc: Global,
    books: Books,
    words: &mut Words<'_>,
) -> Result<Option<ClientEnd>, Wrong> {
    let config = config(alloc, words)?;
    if config.window.is_some() {
        return Err(Wrong::Words);
    }
    Ok(ClientEnd::with_session(alloc, config, books.session))
}

fn save(alloc: Global, client: &ClientEnd, told: &mut String) -> Result<(), Wrong> {
    let mut out = Vec::new(alloc);
    client.save(&mut out)?;
    Ok(add_short(told, out.as_slice())?)
}

fn go_on(alloc: Global, config: ClientConfig, saved: Saved, told: &mut String) -> Result<(), Wrong>
    requires { config.window ≡ None }
{
    match ClientEnd::with_saved(alloc, config, saved) {
        Ok(client) => save(alloc, &client, told),
        Err(why) => Ok(write!(told, "{why:?}")?),
    }
}

pub(crate) fn go_on_with(
    alloc: Global,
    form: &[u8],
    words: &mut Words<'_>,
    told: &mut String,
) -> Result<(), Wrong> {
    match Saved::load(alloc, form) {
        Ok(saved) => go_on(alloc, config(alloc, words)?, saved, told),
        Err(_) => Err(Wrong::Words),
    }
}

// `open`, or `open clean`: the client connects.
fn open(
    client: &mut ClientEnd,
    moment: u64,
    words: &mut Words<'_>,
    told: &mut String,
) -> Result<(), Wrong> {
    let clean = words.next() == Some("clean");
    client.connect(moment, clean)?;
    add_state(told, client.state())
}

// `moved BYTES` and `each BYTES`: receives bytes, and takes the happenings out, as a vector or one
// by one.
fn take_out(
    alloc: Global,
    client: &mut ClientEnd,
    moment: u64,
    words: &mut Words<'_>,
    told: &mut String,
    is_moved: bool,
) -> Result<(), Wrong> {
    let bytes = bytes_of(alloc, words)?;
    let happenings = client.receive(moment, bytes.as_slice()).happenings;
    if is_moved {
        return Ok(add_happenings(told, happenings.into_vec()?.as_slice())?);
    }
    add_each(told, happenings)
}

// `publish QOS BYTES`: a message to `t`.
fn publish(
    alloc: Global,
    client: &mut ClientEnd,
    words: &mut Words<'_>,
    told: &mut String,
) -> Result<(), Wrong> {
    let qos = words.qos()?;
    let message = message(alloc, "t", qos, bytes_of(alloc, words)?)?;
    add_published(told, client.publish(message))
}

// Adds the filters that the other words are.
fn add_filters(
    alloc: Global,
    filters: &mut Vec<TopicFilter>,
    words: &mut Words<'_>,
) -> Result<(), Wrong> {
    for word in words.rest() {
        filters.push(TopicFilter::parse(alloc, word).ok().ok_or(Wrong::Words)?)?;
    }
    Ok(())
}

// Adds a request with quality of service 1 for each.
fn add_requests(
    alloc: Global,
    requests: &mut Vec<Request>,
    words: &mut Words<'_>,
) -> Result<(), Wrong> {
    for word in words.rest() {
        let filter = TopicFilter::parse(alloc, word).ok().ok_or(Wrong::Words)?;
        let qos = Qos::Q1;
        requests.push(Request { filter, qos })?;
    }
    Ok(())
}

// `subscribe FILTER ..`
fn subscribe(
    alloc: Global,
    client: &mut ClientEnd,
    words: &mut Words<'_>,
    told: &mut String,
) -> Result<(), Wrong> {
    let mut requests = Vec::new(alloc);
    add_requests(alloc, &mut requests, words)?;
    if requests.is_empty() {
        return Err(Wrong::Words);
    }
    add_asked(told, client.subscribe(NonEmpty::from_vec(requests)))
}

// `unsubscribe FILTER ..`
fn unsubscribe(
    alloc: Global,
    client: &mut ClientEnd,
    words: &mut Words<'_>,
    told: &mut String,
) -> Result<(), Wrong> {
    let mut filters = Vec::new(alloc);
    add_filters(alloc, &mut filters, words)?;
    if filters.is_empty() {
        return Err(Wrong::Words);
    }
    add_asked(told, client.unsubscribe(NonEmpty::from_vec(filters)))
}

// `swap BYTES`: these for the pending output.
fn swap(
    alloc: Global,
    client: &mut ClientEnd,
    words: &mut Words<'_>,
    told: &mut String,
) -> Result<(), Wrong> {
    let bytes = bytes_of(alloc, words)?;
    let mut queue = ByteQueue::new(alloc);
    queue.append(bytes.as_slice())?;
    client.swap_output(&mut queue);
    Ok(add_short(told, queue.as_slice())?)
}

pub(crate) fn tell(
    alloc: Global,
    client: &mut ClientEnd,
    moment: u64,
    words: &mut Words<'_>,
    told: &mut String,
) -> Result<(), Wrong> {
    match words.word()? {
        "open" => open(client, moment, words, told),
        "receive" => receive(alloc, client, moment, words, told),
        "view" => take_view(alloc, client, moment, words, told),
        "moved" => take_out(alloc, client, moment, words, told, true),
        "each" => take_out(alloc, client, moment, words, told, false),
        "publish" => publish(alloc, client, words, told),
        "subscribe" => subscribe(alloc, client, words, told),
        "unsubscribe" => unsubscribe(alloc, client, words, told),
        "leave" => add_done(told, client.disconnect()),
        "tick" => add_late(told, client.tick(moment)?),
        "lose" => {
            client.dropped();
            add_state(told, client.state())
        }
        "deadline" => add_deadline(told, client.next_deadline()),
        "save" => save(alloc, client, told),
        "session" => add_session(told, client.session()),
        "swap" => swap(alloc, client, words, told),
        _ => Err(Wrong::Words),
    }
}

pub(crate) fn see(
    client: &mut ClientEnd,
    written: Option<usize>,
    seen: &mut String,
) -> Result<(), Wrong> {
    let Some(written) = written else {
        let output = client.take_all_output();
        return Ok(add_short(seen, output.as_slice())?);
    };
    if client.output().len() < written {
        return Err(Wrong::Words);
    }
    client.take_output(written);
    Ok(add_short(seen, client.output())?)
}
