//! The children of a node of a trie.

ghost use Rattle.std.specs.Prelude.{◌≡◌, ℕ, List, None, Some, IsSome, OnOk, OnErr};
ghost use Rattle.mq_topic.specs.Prelude.{MatchBool, arc_str_bytes, ChildIn, child_beside, child_in, is_own, own_child};

use crate::level_map::{Child, LevelMap};
use crate::trie_nodes::NodeId;
use std::alloc::{AllocError, Global};
use std::sync::ArcStr;

/// The children of a node, by level. The node stores the first child itself, since most nodes have
/// only one; a map stores the others.
#[derive(Drop)]
pub(crate) struct Children {
    first: Option<Child>,
    others: Option<Box<LevelMap>>,
}

impl Children {
    /// No children.
    pub(crate) fn new() -> Children
        ensures { (l : List ℕ) → child_in l result ≡ None }
    {
        Children {
            first: None,
            others: None,
        }
    }

    /// The child at a level.
    pub(crate) fn get(&self, level: &str) -> Option<NodeId>
        ensures { result ≡ child_in level.now self.now }
    {
        if let Some(first) = &self.first {
            if level == first.level.as_str() {
                return Some(first.id);
            }
        }
        match &self.others {
            Some(others) => others.get(level),
            None => None,
        }
    }

    // Whether the node itself stores the child at `level`, or has no child.
    fn is_own(&self, level: &str) -> bool
        ensures { result ≡ is_own level.now self.now.first }
    {
        match &self.first {
            Some(first) => level == first.level.as_str(),
            None => true,
        }
    }

    /// Sets the child at a level.
    pub(crate) fn put(
        &mut self,
        alloc: Global,
        level: ArcStr,
        child: NodeId,
    ) -> Result<(), AllocError>
        ensures put { OnOk result (ChildIn (arc_str_bytes level) (Some child) self.old self.new) }
        ensures unchanged { OnErr result ((l : List ℕ) → child_in l self.new ≡ child_in l self.old) }
    {
        if self.is_own(level.as_str()) {
            self.first = Some(Child { level, id: child });
            return Ok(());
        }
        self.put_beside(alloc, level, child)
    }

    // Sets the child at a level in the map, and creates the map if necessary.
    fn put_beside(&mut self, alloc: Global, level: ArcStr, child: NodeId) -> Result<(), AllocError>
        ensures first { self.new.first ≡ self.old.first }
        ensures same { OnOk result (child_beside (arc_str_bytes level) self.new ≡ Some child) }
        ensures others { OnOk result ((l : List ℕ) → (l ≡ arc_str_bytes level → ⊥) → child_beside l self.new ≡ child_beside l self.old) }
        ensures unchanged { OnErr result ((l : List ℕ) → child_beside l self.new ≡ child_beside l self.old) }
    {
        match &mut self.others {
            Some(others) => others.put(alloc, level, child),
            None => {
                let mut others = LevelMap::new(alloc);
                others.put(alloc, level, child)?;
                self.others = Some(Box::new(alloc, others)?);
                Ok(())
            }
        }
    }

    // Removes the child that the node itself stores, if it is the one at `level`.
    fn take_own(&mut self, level: &str)
        ensures same { own_child level.now self.new.first ≡ None }
        ensures others { (l : List ℕ) → (l ≡ level.now → ⊥) → own_child l self.new.first ≡ own_child l self.old.first }
        ensures beside { self.new.others ≡ self.old.others }
    {
        if self.is_own(level) {
            self.first = None;
        }
    }

    // Removes the child at `level` from the map.
    fn take_beside(&mut self, level: &str)
        ensures first { self.new.first ≡ self.old.first }
        ensures same { child_beside level.now self.new ≡ None }
        ensures others { (l : List ℕ) → (l ≡ level.now → ⊥) → child_beside l self.new ≡ child_beside l self.old }
    {
        if let Some(others) = &mut self.others {
            others.take(level);
        }
    }

    /// Removes the child at a level.
    pub(crate) fn take(&mut self, level: &str)
        ensures { ChildIn level.now None self.old self.new }
    {
        self.take_own(level);
        self.take_beside(level);
    }

    /// Whether there is no child.
    pub(crate) fn is_empty(&self) -> bool
        ensures { MatchBool result ((l : List ℕ) → child_in l self.now ≡ None) ((l : List ℕ) × IsSome (child_in l self.now)) }
    {
        match &self.others {
            Some(others) => self.first.is_none() && others.is_empty(),
            None => self.first.is_none(),
        }
    }
}
