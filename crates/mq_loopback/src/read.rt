//! Loopback files as they are read.

ghost use Rattle.std.specs.Prelude.{◌≡◌, ◌<◌, ◌≤◌, ◌∷◌, ◌++◌, [], ℕ, List, codes, length, None, IfOk, IsErr, IsErrOf, IsTrue, OnOk, ◌↔◌};
ghost use Rattle.mq_loopback.specs.Prelude.{strip_last, IsText, IsTopicFilter, escaped, Finds, lines_of, words_of, AreClients, ArePayloads, IsBadLine, IsCount, IsFresh, Joins, Says};

use crate::client::{Client, Collector, Publisher, Role};
use mq_end::BoxedList;
use mq_packet::Payload;
use mq_schedule::{Words, first_word, number, payload, qos, topic, unescaped};
use mq_topic::{TopicFault, TopicFilter};
use mq_wire::{Text, TextFault};
use std::alloc::{AllocError, Global};
use thiserror::Error;

/// The maximum number of clients of a file.
const MOST_CLIENTS: usize = 64;

/// Why a text is not a loopback file.
#[derive(Clone, Copy, Debug, PartialEq, Eq, Error)]
pub enum ClientsFault {
    /// The line with this number, counted from 1, is not a client.
    #[error("line {0}: not a client")]
    Line(usize),
    /// Memory ran out.
    #[error("out of memory")]
    Memory,
}

impl From<AllocError> for ClientsFault {
    ghost use Rattle.std.specs.Prelude.{◌≡◌};
    ghost use Rattle.mq_loopback.specs.declared.read.ClientsFault.TheVariants.{Memory};

    ghost from_gives = { λ _ fault. fault ≡ Memory };

    fn from(_e: AllocError) -> ClientsFault {
        ClientsFault::Memory
    }
}

// A text without the line feed at its end.
fn without_feed(text: &str) -> &str
    ensures { result.now ≡ strip_last 10 text.now }
{
    text.strip_suffix('\n').unwrap_or(text)
}

// An invalid text is no value; a failed allocation is an error.
fn no_text(fault: TextFault) -> Result<Option<Text>, AllocError>
    ensures none { IfOk result (λ text. text ≡ None) }
    ensures memory { fault ≡ TextFault.Memory → IsErr result }
{
    match fault {
        TextFault::Memory => Err(AllocError),
        TextFault::TooLong | TextFault::Nul => Ok(None),
    }
}

// The same for a topic filter.
fn no_filter(fault: TopicFault) -> Result<Option<TopicFilter>, AllocError>
    ensures none { IfOk result (λ filter. filter ≡ None) }
    ensures memory { fault ≡ TopicFault.Memory → IsErr result }
{
    match fault {
        TopicFault::Memory => Err(AllocError),
        _ => Ok(None),
    }
}

// A text as it is printed (3.1.3.1).
fn name(alloc: Global, word: &str) -> Result<Option<Text>, AllocError>
    ensures { IfOk result (Finds (λ name. IsText name × (word.now ≡ escaped name))) }
{
    let Some(bytes) = unescaped(alloc, word.as_bytes())? else {
        return Ok(None);
    };
    let Ok(text) = str::from_utf8(&bytes) else {
        return Ok(None);
    };
    match Text::new(alloc, text) {
        Ok(name) => Ok(Some(name)),
        Err(fault) => no_text(fault),
    }
}

// A topic filter (4.7), as it is printed.
fn filter(alloc: Global, word: &str) -> Result<Option<TopicFilter>, AllocError>
    ensures { IfOk result (Finds (λ filter. IsTopicFilter filter × (word.now ≡ escaped filter))) }
{
    let Some(text) = name(alloc, word)? else {
        return Ok(None);
    };
    match TopicFilter::parse(alloc, text.as_str()) {
        Ok(filter) => Ok(Some(filter)),
        Err(fault) => no_filter(fault),
    }
}

// How many messages, at least.
fn count(word: &str) -> Option<u32>
    ensures { Finds (λ n. IsCount n word.now) result }
{
    u32::try_from(number(word)?).ok()
}

// The payloads of words, one each.
fn payloads(alloc: Global, words: Words<'_>) -> Result<Option<BoxedList<Payload>>, AllocError>
    ensures { IfOk result (Finds (λ payloads. ArePayloads payloads words.entry)) }
{
    let mut words = words;
    let mut payloads = Vec::new(alloc);
    while let Some(word) = words.next() {
        let Some(payload) = payload(alloc, word)? else {
            return Ok(None);
        };
        payloads.push(payload)?;
    }
    if payloads.is_empty() {
        return Ok(None);
    }
    Ok(Some(BoxedList::from_vec(payloads)))
}

// The collector of the words after `collect`.
fn collector(alloc: Global, words: Words<'_>) -> Result<Option<Client>, AllocError>
    ensures { IfOk result (Finds (λ client. Says client (codes "collect" ∷ words.entry))) }
{
    let Some((name_word, filter_word, qos_word, count_word)) = words.four() else {
        return Ok(None);
    };
    let (Some(qos), Some(count)) = (qos(qos_word), count(count_word)) else {
        return Ok(None);
    };
    let Some(name) = name(alloc, name_word)? else {
        return Ok(None);
    };
    let Some(filter) = filter(alloc, filter_word)? else {
        return Ok(None);
    };
    let role = Role::Collector(Collector { filter, qos, count });
    Ok(Some(Client { name, role }))
}

// The publisher of the words after `publish`.
fn publisher(alloc: Global, words: Words<'_>) -> Result<Option<Client>, AllocError>
    ensures { IfOk result (Finds (λ client. Says client (codes "publish" ∷ words.entry))) }
{
    let mut words = words;
    let (Some(name_word), Some(topic_word), Some(qos_word)) = (
        words.next(),
        words.next(),
        words.next(),
    ) else {
        return Ok(None);
    };
    let Some(qos) = qos(qos_word) else {
        return Ok(None);
    };
    let Some(name) = name(alloc, name_word)? else {
        return Ok(None);
    };
    let Some(topic) = topic(alloc, topic_word)? else {
        return Ok(None);
    };
    let Some(payloads) = payloads(alloc, words)? else {
        return Ok(None);
    };
    let role = Role::Publisher(Publisher {
        topic,
        qos,
        payloads,
    });
    Ok(Some(Client { name, role }))
}

// The client of a line.
fn client(alloc: Global, line: &str) -> Result<Option<Client>, AllocError>
    ensures { IfOk result (Finds (λ client. Says client (words_of line.now))) }
{
    let (command, words) = first_word(line);
    match command {
        "collect" => collector(alloc, words),
        "publish" => publisher(alloc, words),
        _ => Ok(None),
    }
}

// Whether two lists of bytes are the same.
fn are_same(one: &[u8], other: &[u8]) -> bool
    ensures { IsTrue result ↔ (one.now ≡ other.now) }
{
    one == other
}

// Whether a client has this name.
fn has_name(client: &Client, name: &Text) -> bool
    ensures { IsTrue result ↔ (client.now.name ≡ name.now) }
{
    are_same(client.name.as_str().as_bytes(), name.as_str().as_bytes())
}

// Whether none of the clients has this name.
fn is_fresh(clients: &[Client], name: &Text) -> bool
    ensures { IsTrue result ↔ IsFresh name.now clients.now }
{
    let mut left = clients;
    while let [client, others @ ..] = left {
        if has_name(client, name) {
            return false;
        }
        left = others;
    }
    true
}

// The client of a line that comes after those of these clients.
fn next_client(alloc: Global, clients: &[Client], line: &str) -> Result<Option<Client>, AllocError>
    ensures { IfOk result (Finds (λ client. Joins clients.now client line.now)) }
{
    if clients.len() >= MOST_CLIENTS {
        return Ok(None);
    }
    let Some(client) = client(alloc, line)? else {
        return Ok(None);
    };
    if !is_fresh(clients, &client.name) {
        return Ok(None);
    }
    Ok(Some(client))
}

// Puts a client behind others.
fn push(clients: &mut Vec<Client>, client: Client) -> Result<(), AllocError>
    ensures { OnOk result (clients.new.items ≡ clients.old.items ++ client ∷ []) }
{
    clients.push(client)?;
    Ok(())
}

/// Reads a loopback file: a line for each client. A text is at most one list of clients, and has at
/// most one first invalid line (`file_laws`). Errors: `Line` with that line, `Memory` if an
/// allocation fails.
pub fn read_clients(alloc: Global, text: &str) -> Result<Vec<Client>, ClientsFault>
    ensures reads { IfOk result (λ clients. AreClients clients.items (lines_of text.now)) }
    ensures line { (n : ℕ) → IsErrOf result (ClientsFault.Line n) → IsBadLine (lines_of text.now) n }
    ensures some { IfOk result (λ clients. 0 < length clients.items) }
{
    let mut clients = Vec::new(alloc);
    for line in without_feed(text).split('\n') {
        let number = clients.len() + 1;
        let client = next_client(alloc, clients.as_slice(), line)?.ok_or(ClientsFault::Line(
            number,
        ))?;
        push(&mut clients, client)?;
    }
    Ok(clients)
}
