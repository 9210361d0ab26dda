//! Calls of stores of subscriptions.

use crate::refusals::outcome::Outcome;
use crate::refusals::ran::{Ran, outcome};
use crate::rows::wrong::Wrong;
use mq_topic::{
    ClientKey, FilterStore, ListStore, Qos, TopicFault, TopicFilter, TopicName, TrieStore,
};
use std::alloc::Global;

fn client(word: &str) -> Result<ClientKey, Wrong> {
    Ok(ClientKey::new(word.parse().ok().ok_or(Wrong::Words)?))
}

fn filter(alloc: Global, word: &str) -> Result<TopicFilter, Wrong> {
    match TopicFilter::parse(alloc, word) {
        Ok(filter) => Ok(filter),
        Err(TopicFault::Memory) => Err(Wrong::Memory),
        Err(_) => Err(Wrong::Words),
    }
}

fn name(alloc: Global, word: &str) -> Result<TopicName, Wrong> {
    match TopicName::parse(alloc, word) {
        Ok(name) => Ok(name),
        Err(TopicFault::Memory) => Err(Wrong::Memory),
        Err(_) => Err(Wrong::Words),
    }
}

fn qos(word: &str) -> Result<Qos, Wrong> {
    match word {
        "0" => Ok(Qos::Q0),
        "1" => Ok(Qos::Q1),
        "2" => Ok(Qos::Q2),
        _ => Err(Wrong::Words),
    }
}

fn set<S: FilterStore>(
    alloc: Global,
    store: &mut S,
    words: &str,
    ran: &mut Ran,
) -> Result<(), Wrong> {
    let (key, rest) = words.split_once(' ').ok_or(Wrong::Words)?;
    let (text, digit) = rest.split_once(' ').ok_or(Wrong::Words)?;
    let (client, qos) = (client(key)?, qos(digit)?);
    let (row, again) = (filter(alloc, text)?, filter(alloc, text)?);
    if store.set(client, row, qos).is_err() {
        ran.ask_again();
        store.set(client, again, qos)?;
    }
    Ok(())
}

fn find<S: FilterStore>(alloc: Global, store: &S, word: &str, ran: &mut Ran) -> Result<(), Wrong> {
    let name = name(alloc, word)?;
    let found = match store.matching(&name) {
        Ok(found) => found,
        Err(_) => {
            ran.ask_again();
            store.matching(&name)?
        }
    };
    for (client, qos) in &found {
        write!(ran.lines, "{} {qos:?} ", client.get())?;
    }
    Ok(())
}

/// `remove CLIENT FILTER`.
fn remove<S: FilterStore>(
    alloc: Global,
    store: &mut S,
    words: &str,
    ran: &mut Ran,
) -> Result<(), Wrong> {
    let (key, text) = words.split_once(' ').ok_or(Wrong::Words)?;
    let there = store.remove(client(key)?, &filter(alloc, text)?);
    Ok(write!(ran.lines, "{there}")?)
}

fn call<S: FilterStore>(
    alloc: Global,
    store: &mut S,
    line: &str,
    ran: &mut Ran,
) -> Result<(), Wrong> {
    let (what, words) = line.split_once(' ').ok_or(Wrong::Words)?;
    match what {
        "set" => set(alloc, store, words, ran)?,
        "match" => find(alloc, store, words, ran)?,
        "remove" => remove(alloc, store, words, ran)?,
        "leave" => store.remove_client(client(words)?),
        _ => return Err(Wrong::Words),
    }
    Ok(ran.lines.push('\n')?)
}

fn run<S: FilterStore>(alloc: Global, store: &mut S, text: &str) -> Result<Ran, Wrong> {
    let mut ran = Ran::new(alloc)?;
    for line in text.lines() {
        call(alloc, store, line, &mut ran)?;
    }
    Ok(ran)
}

/// The calls are made to a trie, and to a list; in the end no row is left, and the trie has one
/// node.
pub(crate) fn judge(alloc: Global, text: &str) -> Result<Outcome, Wrong> {
    let mut store = TrieStore::new(alloc);
    let trie = run(alloc, &mut store, text)?;
    let list = run(alloc, &mut ListStore::new(alloc), text)?;
    if store.nodes() != 1 {
        return Ok(Outcome::Other);
    }
    Ok(outcome(&trie, &list))
}
