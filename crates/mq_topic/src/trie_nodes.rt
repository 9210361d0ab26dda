//! The nodes of a trie of levels, in one list, and the steps that change it.

ghost use Rattle.std.specs.Prelude.{◌≡◌, ◌+◌, ℕ, Some, None, IsSome, IfOk, OnOk, OnErr, MatchOption, List};
ghost use Rattle.mq_topic.specs.Prelude.{MatchBool, arc_str_bytes, slab_len, client_in, ChildIs, ClientIs, Cut, Grown, IsBare, IsPlace, IsTrieOf, IsUsed, SameTree, client_from, child_of, client_of, tree};

use crate::children::Children;
use crate::client::ClientKey;
use crate::clients::Clients;
use crate::level_texts::LevelTexts;
use crate::qos::Qos;
use slab::Slab;
use std::alloc::{AllocError, Global};
use std::sync::ArcStr;

/// The number of a node.
#[derive(Clone, Copy)]
pub(crate) struct NodeId(usize);

// A node represents the filters that begin with the same levels. Fields that a look-up reads come
// first. The text of its level is shared with the parent's entry.
#[derive(Drop)]
pub(crate) struct Node {
    children: Children,
    clients: Clients,
    parent: Option<NodeId>,
    level: ArcStr,
}

/// The nodes. The levels of a filter lead from the root, which `None` represents, to the node that
/// stores the filter's clients.
#[derive(Drop)]
pub(crate) struct Trie {
    alloc: Global,
    top: Children,
    nodes: Slab<Node>,
    texts: LevelTexts,
}

impl Trie {
    /// A trie of the root alone, which
    pub(crate) fn new(alloc: Global) -> Trie
        ensures { IsTrieOf (λ c f. None) (tree result) }
    {
        Trie {
            alloc,
            top: Children::new(),
            nodes: Slab::new(alloc),
            texts: LevelTexts::new(alloc),
        }
    }

    /// How many nodes there are below the root.
    pub(crate) fn len(&self) -> usize
        ensures { result ≡ slab_len self.now.nodes }
    {
        self.nodes.len()
    }

    /// The child of a node at a level.
    pub(crate) fn child(&self, at: Option<NodeId>, level: &str) -> Option<NodeId>
        ensures { result ≡ child_of self.now at level.now }
    {
        match at {
            None => self.top.get(level),
            Some(id) => match self.nodes.get(id.0) {
                Some(node) => node.children.get(level),
                None => None,
            },
        }
    }

    // Notes a child of a node.
    fn put_child(
        &mut self,
        at: Option<NodeId>,
        level: ArcStr,
        child: NodeId,
    ) -> Result<(), AllocError>
        requires { IsPlace (tree self.old) at }
        ensures put { OnOk result (ChildIs at (arc_str_bytes level) (Some child) (tree self.old) (tree self.new)) }
        ensures unchanged { OnErr result (SameTree (tree self.old) (tree self.new)) }
    {
        match at {
            None => {
                self.top.put(self.alloc, level, child)?;
            }
            Some(id) => {
                if let Some(node) = self.nodes.get_mut(id.0) {
                    node.children.put(self.alloc, level, child)?;
                }
            }
        }
        Ok(())
    }

    // Forgets the child of a node at a level.
    fn take_child(&mut self, at: Option<NodeId>, level: &str)
        ensures taken { ChildIs at level.now None (tree self.old) (tree self.new) }
        ensures count { slab_len self.new.nodes ≡ slab_len self.old.nodes }
    {
        match at {
            None => {
                self.top.take(level);
            }
            Some(id) => {
                if let Some(node) = self.nodes.get_mut(id.0) {
                    node.children.take(level);
                }
            }
        }
    }

    /// Creates a child at a level that has none.
    pub(crate) fn grow(&mut self, at: Option<NodeId>, level: &str) -> Result<NodeId, AllocError>
        requires { IsPlace (tree self.old) at }
        ensures grown { IfOk result (λ k. Grown at level.now k (tree self.old) (tree self.new)) }
        ensures unchanged { OnErr result (SameTree (tree self.old) (tree self.new)) }
    {
        let level = self.texts.share(level)?;
        let key = level.clone()?;
        let number = self.nodes.insert(Node {
            children: Children::new(),
            clients: Clients::Nobody,
            parent: at,
            level,
        })?;
        let id = NodeId(number);
        match self.put_child(at, key, id) {
            Ok(()) => Ok(id),
            Err(error) => {
                self.nodes.try_remove(number);
                Err(error)
            }
        }
    }

    /// Whether a node has no child and no client.
    pub(crate) fn is_bare(&self, id: NodeId) -> bool
        ensures { MatchBool result (IsBare (tree self.now) id × IsPlace (tree self.now) (Some id))
            (IsPlace (tree self.now) (Some id) → IsUsed (tree self.now) id) }
    {
        match self.nodes.get(id.0) {
            Some(node) => node.children.is_empty() && node.clients.is_empty(),
            None => false,
        }
    }

    /// Takes a node without children and clients away, and gives its parent.
    pub(crate) fn cut(&mut self, id: NodeId) -> Option<NodeId>
        requires bare { IsBare (tree self.old) id }
        requires place { IsPlace (tree self.old) (Some id) }
        ensures cut { (level : List ℕ) × (((tree self.old).link id ≡ Some (result, level))
            × Cut result level id (tree self.old) (tree self.new)) }
        ensures count { slab_len self.new.nodes + 1 ≡ slab_len self.old.nodes }
    {
        match self.nodes.try_remove(id.0) {
            Some(node) => {
                self.take_child(node.parent, node.level.as_str());
                node.parent
            }
            None => None,
        }
    }

    /// Sets the QoS of a client at a node. Never fails if the client is stored there already.
    pub(crate) fn set_client(
        &mut self,
        id: NodeId,
        client: ClientKey,
        qos: Qos,
    ) -> Result<(), AllocError>
        requires { IsPlace (tree self.old) (Some id) }
        ensures set { OnOk result (ClientIs id client (Some qos) (tree self.old) (tree self.new)) }
        ensures unchanged { OnErr result (SameTree (tree self.old) (tree self.new)) }
        ensures refused { OnErr result (client_of self.old id client ≡ None) }
    {
        if let Some(node) = self.nodes.get_mut(id.0) {
            node.clients.set(self.alloc, client, qos)?;
        }
        Ok(())
    }

    /// Takes a client away from a node.
    pub(crate) fn drop_client(&mut self, id: NodeId, client: ClientKey)
        ensures { ClientIs id client None (tree self.old) (tree self.new) }
    {
        if let Some(node) = self.nodes.get_mut(id.0) {
            node.clients.take(client);
        }
    }

    /// The clients of a node, none of the root.
    pub(crate) fn clients(&self, at: Option<NodeId>) -> Option<&Clients>
        ensures { MatchOption result ((c : ℕ) → client_from (tree self.now) at c ≡ None)
            (λ clients. (c : ℕ) → client_in c clients.now ≡ client_from (tree self.now) at c) }
    {
        match self.nodes.get(at?.0) {
            Some(node) => Some(&node.clients),
            None => None,
        }
    }
}
