//! A map of children by level.

ghost use Rattle.std.specs.Prelude.{◌≡◌};
ghost use Rattle.mq_topic.specs.LevelNumber.{AreNumbered, level_number};

use crate::trie_nodes::NodeId;
use std::alloc::{AllocError, Global};
use std::collections::{BTreeMap, HashMap};
use std::hash::{FoldHasher, Hasher};
use std::sync::ArcStr;

/// A child and the text of its level.
#[derive(Drop)]
pub(crate) struct Child {
    pub(crate) level: ArcStr,
    pub(crate) id: NodeId,
}

/// A hash of a level.
pub(crate) fn level_number(level: &str) -> u64
    ensures { result ≡ level_number level.now }
{
    let mut hasher = FoldHasher::default();
    hasher.write(level.as_bytes());
    hasher.finish()
}

/// Children by level. The hash of the level finds a child, whose text is then compared. Children
/// whose hash collides are found by binary search over their texts, so levels that are chosen to
/// collide do not make look-ups linear.
#[derive(Drop)]
pub(crate) struct LevelMap {
    numbered: HashMap<u64, Child>,
    collided: BTreeMap<String, NodeId>,
    ghost numbers: { AreNumbered numbered.entries },
}

impl LevelMap {
    ghost use Rattle.std.specs.Prelude.{◌≡◌, ℕ, List, None, Some, IsSome, OnOk, OnErr};
    ghost use Rattle.mq_topic.specs.Prelude.{arc_str_bytes, MatchBool, child_numbered, is_own, mapped_child, own_child};

    /// No children.
    pub(crate) fn new(alloc: Global) -> LevelMap
        ensures { (l : List ℕ) → mapped_child l result ≡ None }
    {
        LevelMap {
            numbered: HashMap::new(alloc),
            collided: BTreeMap::new(alloc),
        }
    }

    /// The child at a level.
    pub(crate) fn get(&self, level: &str) -> Option<NodeId>
        ensures { result ≡ mapped_child level.now self.now }
    {
        if let Some(child) = self.numbered.get(&level_number(level)) {
            if level == child.level.as_str() {
                return Some(child.id);
            }
        }
        self.collided.get(level).copied()
    }

    // Whether the child with this hash is the one at `level`, or does not exist.
    fn is_own(&self, number: u64, level: &str) -> bool
        ensures { result ≡ is_own level.now (child_numbered number self.now) }
    {
        match self.numbered.get(&number) {
            Some(child) => level == child.level.as_str(),
            None => true,
        }
    }

    /// Sets the child at a level.
    pub(crate) fn put(
        &mut self,
        alloc: Global,
        level: ArcStr,
        child: NodeId,
    ) -> Result<(), AllocError>
        ensures same { OnOk result (mapped_child (arc_str_bytes level) self.new ≡ Some child) }
        ensures others { OnOk result ((l : List ℕ) → (l ≡ arc_str_bytes level → ⊥) → mapped_child l self.new ≡ mapped_child l self.old) }
        ensures unchanged { OnErr result ((l : List ℕ) → mapped_child l self.new ≡ mapped_child l self.old) }
    {
        let number = level_number(level.as_str());
        if self.is_own(number, level.as_str()) {
            self.numbered.insert(number, Child { level, id: child })?;
            return Ok(());
        }
        let key = String::from_str(alloc, level.as_str())?;
        self.collided.insert(key, child)?;
        Ok(())
    }

    // Removes the child with this hash, if it is the one at `level`.
    fn take_own(&mut self, level: &str)
        ensures same { own_child level.now (child_numbered (level_number level.now) self.new) ≡ None }
        ensures others { (l : List ℕ) → (l ≡ level.now → ⊥)
            → own_child l (child_numbered (level_number l) self.new) ≡ own_child l (child_numbered (level_number l) self.old) }
        ensures collided { self.new.collided ≡ self.old.collided }
    {
        let number = level_number(level);
        if self.is_own(number, level) {
            self.numbered.remove(&number);
        }
    }

    /// Removes the child at a level.
    pub(crate) fn take(&mut self, level: &str)
        ensures same { mapped_child level.now self.new ≡ None }
        ensures others { (l : List ℕ) → (l ≡ level.now → ⊥) → mapped_child l self.new ≡ mapped_child l self.old }
    {
        self.take_own(level);
        self.collided.remove(level);
    }

    /// Whether there is no child.
    pub(crate) fn is_empty(&self) -> bool
        ensures { MatchBool result ((l : List ℕ) → mapped_child l self.now ≡ None) ((l : List ℕ) × IsSome (mapped_child l self.now)) }
    {
        self.numbered.is_empty() && self.collided.is_empty()
    }
}
