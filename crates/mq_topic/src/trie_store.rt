//! The store of subscriptions that finds them by walking a name.

ghost use Rattle.std.specs.Prelude.{◌≡◌, ◌+◌, ◌-◌, ◌^◌, ◌≤◌, ℕ, [], List, None, IfOk, OnOk, OnErr, is_some, length, min, sum_by, IsTrue};
ghost use Rattle.mq_topic.specs.Prelude.{slice_cmp, find, is_sorted, nat_cmp, PrefixCount, IsAscending, IsMatched, Row, matched, row_qos, with_row, without_client, without_row, levels, IsLinked, IsTrieOf, Leads, RowMap, row_with, without, without_all, tree};

use crate::client::ClientKey;
use crate::client_rows::{ClientRows, OwnRows};
use crate::filter::TopicFilter;
use crate::name::TopicName;
use crate::qos::Qos;
use crate::store::{FilterStore, StoreRow};
use crate::trie_nodes::{NodeId, Trie};
use crate::trie_walk::{open, prune, reach, search};
use std::alloc::{AllocError, Global};
use std::collections::BTreeMap;
use std::marker::Model;

/// A store of subscriptions for many filters: a trie of levels. The cost of `set`, `get` and
/// `remove` depends on the number of levels of the filter, that of `remove_client` on the client's
/// rows, and that of `matching` on the levels of the name and the clients found. Contracts see the
/// list of its rows.
#[derive(Drop)]
pub struct TrieStore {
    alloc: Global,
    rows: ClientRows,
    trie: Trie,
}

impl Model for TrieStore {
    ghost use Rattle.std.specs.Prelude.{List};
    ghost use Rattle.mq_topic.specs.Rows.{IsAscending, Row, row_qos};
    ghost use Rattle.mq_topic.specs.Tree.{IsTrieOf};
    ghost use Rattle.mq_topic.specs.TrieView.{tree};

    ghost Value = { List Row };

    ghost view = { λ s. s.rows };

    ghost invariant = { λ s. IsAscending s.rows × IsTrieOf (λ c f. row_qos c f s.rows) (tree s.trie) };
}

impl TrieStore {
    /// A store without rows. Allocates when the first row is set.
    pub fn new(alloc: Global) -> TrieStore
        ensures { result ≡ [] }
    {
        TrieStore {
            alloc,
            rows: ClientRows::new(alloc),
            trie: Trie::new(alloc),
        }
    }

    /// The number of nodes of the trie: the root, and one for each distinct prefix of the levels of
    /// its rows' filters.
    pub fn nodes(&self) -> usize
        ensures count { (count : ℕ) × PrefixCount self.now count × (result ≡ min (1 + count) (2 ^ 64 - 1)) }
        ensures bound { result ≤ 1 + sum_by (λ row. length (levels row.0.1)) self.now }
    {
        self.trie.len().saturating_add(1)
    }
}

impl FilterStore for TrieStore {
    ghost rows = { λ s. s };

    fn set(&mut self, client: ClientKey, filter: TopicFilter, qos: Qos) -> Result<(), AllocError> {
        let at = link(&mut self.trie, client, &filter, qos)?;
        match self.rows.set(client, filter, qos) {
            Ok(()) => Ok(()),
            Err(error) => {
                leave(&mut self.trie, at, client);
                Err(error)
            }
        }
    }

    fn get(&self, client: ClientKey, filter: &TopicFilter) -> Option<Qos> {
        self.rows.get(client, filter)
    }

    fn len(&self) -> usize {
        self.rows.len()
    }

    fn remove(&mut self, client: ClientKey, filter: &TopicFilter) -> bool {
        let found = self.rows.get(client, filter).is_some();
        if found {
            self.rows.remove(client, filter);
            unlink(&mut self.trie, client, filter);
        }
        found
    }

    fn remove_client(&mut self, client: ClientKey) {
        if let Some(own) = self.rows.take_client(client) {
            unlink_all(&mut self.trie, client, &own);
        }
    }

    fn matching(&self, name: &TopicName) -> Result<Vec<(ClientKey, Qos)>, AllocError> {
        let found = search(self.alloc, &self.trie, name.as_str())?;
        listed(self.alloc, &found)
    }

    fn list(&self) -> Result<Vec<StoreRow>, AllocError> {
        self.rows.list()
    }
}

// Sets a client's QoS at the node of a filter, which is made if there is none, and gives the node.
fn link(
    trie: &mut Trie,
    client: ClientKey,
    filter: &TopicFilter,
    qos: Qos,
) -> Result<Option<NodeId>, AllocError>
    requires { IsLinked (tree trie.old) }
    ensures linked { OnOk result ((row : RowMap) → IsTrieOf row (tree trie.old) → IsTrieOf (row_with client filter.now qos row) (tree trie.new)) }
    ensures leads { IfOk result (λ at. Leads (tree trie.new) None (levels filter.now) at) }
    ensures unchanged { OnErr result ((row : RowMap) → IsTrieOf row (tree trie.old) → IsTrieOf row (tree trie.new)) }
    ensures refused { OnErr result ((row : RowMap) → IsTrieOf row (tree trie.old) → row client filter.now ≡ None) }
{
    let at = open(trie, filter.as_str())?;
    if let Some(id) = at {
        if let Err(error) = trie.set_client(id, client, qos) {
            prune(trie, at);
            return Err(error);
        }
    }
    Ok(at)
}

// Takes a client away from a node, and the nodes that are bare then.
fn leave(trie: &mut Trie, at: Option<NodeId>, client: ClientKey)
    ensures { (row : RowMap) (f : List ℕ) → IsTrieOf row (tree trie.old) → Leads (tree trie.old) None (levels f) at
        → IsTrieOf (without client f row) (tree trie.new) }
{
    if let Some(id) = at {
        trie.drop_client(id, client);
        prune(trie, at);
    }
}

// Takes a client away from the node of a filter.
fn unlink(trie: &mut Trie, client: ClientKey, filter: &TopicFilter)
    ensures { (row : RowMap) → IsTrieOf row (tree trie.old) → IsTrieOf (without client filter.now row) (tree trie.new) }
{
    if let Some(id) = reach(trie, filter.as_str()) {
        leave(trie, Some(id), client);
    }
}

// Takes a client away from the nodes of all its filters.
fn unlink_all(trie: &mut Trie, client: ClientKey, own: &OwnRows)
    ensures { (row : RowMap) → ((f : List ℕ) → row client f ≡ find (slice_cmp nat_cmp) f own.now.entries)
        → IsTrieOf row (tree trie.old) → IsTrieOf (without_all client row) (tree trie.new) }
{
    'rows: for (filter, _) in own.iter() {
        unlink(trie, client, filter);
    }
}

// The clients that were found, as a list.
fn listed(
    alloc: Global,
    found: &BTreeMap<ClientKey, Qos>,
) -> Result<Vec<(ClientKey, Qos)>, AllocError>
    ensures items { IfOk result (λ list. list.items ≡ found.now.entries) }
    ensures ascending { IfOk result (λ list. IsTrue (is_sorted nat_cmp list.items)) }
{
    let mut list = Vec::with_capacity(alloc, found.len())?;
    'found: for (client, qos) in found.iter() {
        list.push((*client, *qos))?;
    }
    Ok(list)
}
