//! How a trie of levels is walked: along a filter, and along a name.

ghost use Rattle.std.specs.Prelude.{◌≡◌, ◌+◌, ◌⊎◌, ◌↔◌, ◌∷◌, [], ℕ, List, Some, None, Option, true, IfOk, OnOk, OnErr, MatchOption};
ghost use Rattle.mq_topic.specs.Prelude.{lookup, is_eq, nat_cmp, Among, Finds, Gathers, IsAt, IsThere, Steps, begins, is_dollar, is_match, levels_left, client_in, greater_of, levels, IsLinked, IsPlace, IsTrieOf, IsTrieUpTo, Leads, RowMap, SameTree, child_of, tree, NodeId};

use crate::client::ClientKey;
use crate::clients::Clients;
use crate::matching::first_level;
use crate::qos::Qos;
use crate::trie_nodes::{NodeId, Trie};
use std::alloc::{AllocError, Global};
use std::collections::BTreeMap;

// The clients found so far.
type Found = BTreeMap<ClientKey, Qos>;

/// The node to which the levels of a filter lead.
pub(crate) fn reach(trie: &Trie, filter: &str) -> Option<NodeId>
    ensures { MatchOption result ((k : NodeId) → Leads (tree trie.now) None (levels filter.now) (Some k) → ⊥)
        (λ k. Leads (tree trie.now) None (levels filter.now) (Some k)) }
{
    let mut at = None;
    let mut left = Some(filter);
    'levels: while let Some(text) = left {
        let (level, after) = first_level(text);
        at = Some(trie.child(at, level)?);
        left = after;
    }
    at
}

/// Takes nodes without children and clients away, from one on up to the root.
pub(crate) fn prune(trie: &mut Trie, from: Option<NodeId>)
    ensures { (row : RowMap) → IsTrieUpTo from row (tree trie.old) → IsTrieOf row (tree trie.new) }
{
    let mut at = from;
    'nodes: while let Some(id) = at {
        if !trie.is_bare(id) {
            return;
        }
        at = trie.cut(id);
    }
}

// The child of a node at a level, which is made if there is none.
fn enter(trie: &mut Trie, at: Option<NodeId>, level: &str) -> Result<NodeId, AllocError>
    requires linked { IsLinked (tree trie.old) }
    requires place { IsPlace (tree trie.old) at }
    ensures child { IfOk result (λ k. child_of trie.new at level.now ≡ Some k) }
    ensures linked { IfOk result (λ k. IsLinked (tree trie.new) × IsPlace (tree trie.new) (Some k)) }
    ensures entered { IfOk result (λ k. (row : RowMap) → IsTrieUpTo at row (tree trie.old) → IsTrieUpTo (Some k) row (tree trie.new)) }
    ensures leads { OnOk result ((path : List (List ℕ)) (from to : Option NodeId) → Leads (tree trie.old) from path to → Leads (tree trie.new) from path to) }
    ensures unchanged { OnErr result (SameTree (tree trie.old) (tree trie.new)) }
    ensures refused { OnErr result (child_of trie.old at level.now ≡ None) }
{
    match trie.child(at, level) {
        Some(id) => Ok(id),
        None => trie.grow(at, level),
    }
}

/// Returns the node to which the levels of a filter lead, and creates missing nodes.
pub(crate) fn open(trie: &mut Trie, filter: &str) -> Result<Option<NodeId>, AllocError>
    requires { IsLinked (tree trie.old) }
    ensures leads { IfOk result (λ at. Leads (tree trie.new) None (levels filter.now) at × IsPlace (tree trie.new) at) }
    ensures opened { IfOk result (λ at. (row : RowMap) → IsTrieOf row (tree trie.old) → IsTrieUpTo at row (tree trie.new)) }
    ensures unchanged { OnErr result ((row : RowMap) → IsTrieOf row (tree trie.old) → IsTrieOf row (tree trie.new)) }
    ensures refused { OnErr result ((to : Option NodeId) → Leads (tree trie.old) None (levels filter.now) to → ⊥) }
{
    let mut at = None;
    let mut left = Some(filter);
    'levels: while let Some(text) = left {
        let (level, after) = first_level(text);
        match enter(trie, at, level) {
            Ok(id) => at = Some(id),
            Err(error) => {
                prune(trie, at);
                return Err(error);
            }
        }
        left = after;
    }
    Ok(at)
}

// The greater of a QoS and another that there may be.
fn greater_of(qos: Qos, other: Option<Qos>) -> Qos
    ensures { result ≡ greater_of qos other }
{
    match other {
        Some(other) => other.greater(qos),
        None => qos,
    }
}

// Notes that a row of a client matches.
fn note(found: &mut Found, client: ClientKey, qos: Qos) -> Result<(), AllocError>
    ensures { OnOk result (Gathers (λ c q. (c ≡ client) × (q ≡ qos)) found.old.entries found.new.entries) }
{
    let greatest = greater_of(qos, found.get(&client).copied());
    found.insert(client, greatest)?;
    Ok(())
}

// Notes the clients of a map.
fn gather_map(clients: &BTreeMap<ClientKey, Qos>, found: &mut Found) -> Result<(), AllocError>
    ensures { OnOk result (Gathers (λ c q. lookup (λ d. is_eq (nat_cmp c d)) clients.now.entries ≡ Some q) found.old.entries found.new.entries) }
{
    if found.is_empty() {
        *found = clients.clone()?;
        return Ok(());
    }
    'clients: for (client, qos) in clients.iter() {
        note(found, *client, *qos)?;
    }
    Ok(())
}

// Notes clients.
fn gather_clients(clients: &Clients, found: &mut Found) -> Result<(), AllocError>
    ensures { OnOk result (Gathers (λ c q. client_in c clients.now ≡ Some q) found.old.entries found.new.entries) }
{
    match clients {
        Clients::Nobody => Ok(()),
        Clients::One(client, qos) => note(found, *client, *qos),
        Clients::Several(clients) => gather_map(clients, found),
    }
}

// Notes the clients of a node.
fn gather(trie: &Trie, at: Option<NodeId>, found: &mut Found) -> Result<(), AllocError>
    ensures { OnOk result (Gathers (IsAt (tree trie.now) at) found.old.entries found.new.entries) }
{
    match trie.clients(at) {
        Some(clients) => gather_clients(clients, found),
        None => Ok(()),
    }
}

// Notes the clients of the nodes, whose levels are those of the whole name.
fn gather_ends(trie: &Trie, nodes: &[Option<NodeId>], found: &mut Found) -> Result<(), AllocError>
    ensures { OnOk result (Gathers (λ c q. Among (λ at. IsAt (tree trie.now) at c q) nodes.now) found.old.entries found.new.entries) }
{
    'nodes: for at in nodes {
        gather(trie, *at, found)?;
    }
    Ok(())
}

// Adds the clients of the `#` children of the nodes: `#` matches all remaining levels.
#[inline(always)]
fn gather_rests(trie: &Trie, nodes: &[Option<NodeId>], found: &mut Found) -> Result<(), AllocError>
    ensures { OnOk result (Gathers (λ c q. Among (λ at. IsAt (tree trie.now) (child_of trie.now at (35 ∷ [])) c q) nodes.now)
        found.old.entries found.new.entries) }
{
    'nodes: for at in nodes {
        gather(trie, trie.child(*at, "#"), found)?;
    }
    Ok(())
}

// Adds a place, if there is one.
fn push_some(places: &mut Vec<Option<NodeId>>, at: Option<NodeId>) -> Result<(), AllocError>
    ensures { OnOk result ((to : Option NodeId) → Among (λ x. x ≡ to) places.new.items
        ↔ (Among (λ x. x ≡ to) places.old.items ⊎ IsThere at to)) }
{
    if at.is_some() {
        places.push(at)?;
    }
    Ok(())
}

// The children of the nodes at a level of the name, and at `+`.
#[inline(always)]
fn step(
    alloc: Global,
    trie: &Trie,
    nodes: &[Option<NodeId>],
    level: &str,
) -> Result<Vec<Option<NodeId>>, AllocError>
    ensures { IfOk result (λ next. (to : Option NodeId) → Among (λ at. at ≡ to) next.items ↔ Among (Steps (tree trie.now) level.now to) nodes.now) }
{
    let mut next = Vec::new(alloc);
    'nodes: for at in nodes {
        push_some(&mut next, trie.child(*at, "+"))?;
        push_some(&mut next, trie.child(*at, level))?;
    }
    Ok(next)
}

// Adds the clients that the remaining levels of a name find below the nodes.
fn walk_on(
    alloc: Global,
    trie: &Trie,
    from: Vec<Option<NodeId>>,
    name: Option<&str>,
    found: &mut Found,
) -> Result<(), AllocError>
    ensures { OnOk result (Gathers (λ c q. Among (λ at. Finds (tree trie.now) at (levels_left name.entry) c q) from.items) found.old.entries found.new.entries) }
{
    let mut nodes = from;
    let mut left = name;
    'levels: while let Some(text) = left {
        // If no node is reached, no further level reaches one.
        if nodes.is_empty() {
            return Ok(());
        }
        let (level, after) = first_level(text);
        gather_rests(trie, &nodes, found)?;
        nodes = step(alloc, trie, &nodes, level)?;
        left = after;
    }
    gather_rests(trie, &nodes, found)?;
    gather_ends(trie, &nodes, found)
}

// Adds the clients that the remaining levels of a name find below a node. Allocates a list of nodes
// only if a level reaches some.
#[inline(always)]
fn walk(
    alloc: Global,
    trie: &Trie,
    from: Option<NodeId>,
    name: Option<&str>,
    found: &mut Found,
) -> Result<(), AllocError>
    ensures { OnOk result (Gathers (Finds (tree trie.now) from (levels_left name.entry)) found.old.entries found.new.entries) }
{
    gather_rests(trie, &[from], found)?;
    let Some(text) = name else {
        return gather_ends(trie, &[from], found);
    };
    let (level, after) = first_level(text);
    let next = step(alloc, trie, &[from], level)?;
    walk_on(alloc, trie, next, after, found)
}

// Whether a name begins with `$`.
fn begins_with_dollar(name: &str) -> bool
    ensures { result ≡ begins is_dollar name.now }
{
    name.as_bytes().first() == Some(&b'$')
}

/// The clients of the nodes whose filters match a name, each with the greatest QoS. A filter that
/// begins with a wildcard matches no name that begins with `$` (4.7.2).
#[inline(always)]
pub(crate) fn search(alloc: Global, trie: &Trie, name: &str) -> Result<Found, AllocError>
    ensures { IfOk result (λ found. (row : RowMap) → IsTrieOf row (tree trie.now)
        → Gathers (λ c q. (f : List ℕ) × (row c f ≡ Some q) × (is_match f name.now ≡ true)) [] found.entries) }
{
    let mut found = BTreeMap::new(alloc);
    if begins_with_dollar(name) {
        let (level, after) = first_level(name);
        let first = trie.child(None, level);
        if first.is_some() {
            walk(alloc, trie, first, after, &mut found)?;
        }
    } else {
        walk(alloc, trie, None, Some(name), &mut found)?;
    }
    Ok(found)
}
