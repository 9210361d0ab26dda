//! Both stores of subscriptions, side by side.

ghost use Rattle.std.specs.Prelude.{◌<◌, ◌≡◌, IfOk};
ghost use Rattle.mq_topic.specs.Rows.{matched};

use crate::texts::parsed_of;
use crate::words::Words;
use crate::wrong::Wrong;
use mq_topic::{
    ClientKey, FilterStore, ListStore, Qos, TopicName, TrieStore, is_topic_filter, is_topic_name,
};
use rand_core::utils::NextWord;
use rand_pcg::Pcg32;
use std::alloc::{AllocError, Global};

/// A list and a trie, which get the same rows.
#[derive(Drop)]
pub(crate) struct Stores {
    list: ListStore,
    trie: TrieStore,
}

// Requires that the type is `Send`.
fn crosses<T: Send>(_value: &T) {}

// The clients that a name finds in any store.
fn found<S: FilterStore>(store: &S, name: &TopicName) -> Result<Vec<(ClientKey, Qos)>, AllocError>
    ensures { IfOk result (λ found. found.items ≡ matched name.now (S.rows store.now)) }
{
    store.matching(name)
}

// Adds each client's key and QoS.
fn add_clients(told: &mut String, clients: &[(ClientKey, Qos)]) -> Result<(), AllocError> {
    for (client, qos) in clients {
        write!(told, "{} {qos:?};", client.get())?;
    }
    Ok(())
}

// `find NAME`: the clients that it finds, in order.
fn find<S: FilterStore>(
    alloc: Global,
    store: &S,
    words: &mut Words<'_>,
    told: &mut String,
) -> Result<(), Wrong> {
    let name = parsed_of(alloc, words)?;
    let clients = found(store, &name)?;
    Ok(add_clients(told, clients.as_slice())?)
}

// `set CLIENT FILTER QOS`, `get CLIENT FILTER`, `remove CLIENT FILTER`
fn tell_row<S: FilterStore>(
    alloc: Global,
    store: &mut S,
    kind: &str,
    words: &mut Words<'_>,
    told: &mut String,
) -> Result<(), Wrong> {
    let client = ClientKey::new(words.number()?);
    let filter = parsed_of(alloc, words)?;
    match kind {
        "set" => Ok(store.set(client, filter, words.qos()?)?),
        "get" => Ok(write!(told, "{:?}", store.get(client, &filter))?),
        "remove" => Ok(write!(told, "{}", store.remove(client, &filter))?),
        _ => Err(Wrong::Words),
    }
}

// The acts of a store: those of a row, `find NAME`, and `leave CLIENT`, which removes its rows.
fn tell_store<S: FilterStore>(
    alloc: Global,
    store: &mut S,
    words: &mut Words<'_>,
    told: &mut String,
) -> Result<(), Wrong> {
    match words.word()? {
        "find" => find(alloc, store, words, told),
        "leave" => {
            store.remove_client(ClientKey::new(words.number()?));
            Ok(())
        }
        kind => tell_row(alloc, store, kind, words, told),
    }
}

impl Stores {
    /// Both without rows.
    pub(crate) fn new(alloc: Global) -> Stores {
        let trie = TrieStore::new(alloc);
        crosses(&trie);
        Stores {
            list: ListStore::new(alloc),
            trie,
        }
    }

    // Performs an act on both stores. Returns whether the results are the same; otherwise that of
    // the trie is added too.
    fn tell_both(
        &mut self,
        alloc: Global,
        words: &mut Words<'_>,
        told: &mut String,
    ) -> Result<bool, Wrong> {
        let mut again = *words;
        let mut other = String::new(alloc);
        tell_store(alloc, &mut self.list, words, told)?;
        tell_store(alloc, &mut self.trie, &mut again, &mut other)?;
        let is_same = other.as_str() == told.as_str();
        if !is_same {
            write!(told, ", but {} in the trie", other.as_str())?;
        }
        Ok(is_same)
    }

    // Performs an act of the walk, and adds it if the results differ.
    fn compare(&mut self, alloc: Global, act: &str, told: &mut String) -> Result<(), Wrong> {
        let mut result = String::new(alloc);
        if !self.tell_both(alloc, &mut Words::new(act), &mut result)? {
            write!(told, "{act}: {}; ", result.as_str())?;
        }
        Ok(())
    }

    // Two calls with a filter: `get`, and one that a number selects.
    fn call(
        &mut self,
        alloc: Global,
        numbers: &mut Numbers,
        client: u32,
        filter: &str,
        told: &mut String,
    ) -> Result<(), Wrong> {
        let get = format!(in alloc; "get {client} '{filter}")?;
        self.compare(alloc, get.as_str(), told)?;
        let act = numbers.act(alloc, client, filter)?;
        self.compare(alloc, act.as_str(), told)
    }

    // Calls with a generated filter and a generated name, if the texts are valid ones.
    fn step(
        &mut self,
        alloc: Global,
        numbers: &mut Numbers,
        told: &mut String,
    ) -> Result<(), Wrong> {
        let client = numbers.below(4);
        let filter = numbers.text(alloc)?;
        if is_topic_filter(filter.as_str()) {
            self.call(alloc, numbers, client, filter.as_str(), told)?;
        }
        let name = numbers.text(alloc)?;
        if is_topic_name(name.as_str()) {
            let find = format!(in alloc; "find '{}", name.as_str())?;
            self.compare(alloc, find.as_str(), told)?;
        }
        Ok(())
    }

    // `walk STEPS`: generated calls of both stores; adds those whose results differ.
    fn walk(
        &mut self,
        alloc: Global,
        words: &mut Words<'_>,
        told: &mut String,
    ) -> Result<(), Wrong> {
        let mut numbers = Numbers {
            words: Pcg32::new(1, 1),
        };
        for _ in 0..words.number()? {
            self.step(alloc, &mut numbers, told)?;
        }
        Ok(())
    }

    /// The acts of both stores; `nodes` is the number of nodes of the trie.
    pub(crate) fn tell(
        &mut self,
        alloc: Global,
        words: &mut Words<'_>,
        told: &mut String,
    ) -> Result<(), Wrong> {
        let mut first = *words;
        match first.word()? {
            "walk" => {
                *words = first;
                self.walk(alloc, words, told)
            }
            "nodes" => {
                *words = first;
                Ok(write!(told, "{}", self.trie.nodes())?)
            }
            _ => {
                self.tell_both(alloc, words, told)?;
                Ok(())
            }
        }
    }
}

// A pseudorandom sequence of numbers.
#[derive(Drop)]
struct Numbers {
    words: Pcg32,
}

impl Numbers {
    // The next number below a bound.
    fn below(&mut self, bound: u32) -> u32
        requires { 0 < bound }
        ensures { result < bound }
    {
        self.words.next_word() % bound
    }

    fn level(&mut self) -> &'static str {
        match self.below(6) {
            0 => "a",
            1 => "b",
            2 => "+",
            3 => "",
            4 => "$x",
            _ => "#",
        }
    }

    // A text of one to three levels.
    fn text(&mut self, alloc: Global) -> Result<String, AllocError> {
        let mut text = String::new(alloc);
        text.push_str(self.level())?;
        for _ in 0..self.below(3) {
            text.push('/')?;
            text.push_str(self.level())?;
        }
        Ok(text)
    }

    // A call with a filter.
    fn act(&mut self, alloc: Global, client: u32, filter: &str) -> Result<String, AllocError> {
        match self.below(20) {
            0 => format!(in alloc; "leave {client}"),
            1..=6 => format!(in alloc; "remove {client} '{filter}"),
            _ => format!(in alloc; "set {client} '{filter} {}", self.below(3)),
        }
    }
}
