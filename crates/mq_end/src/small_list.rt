//! Lists that are mostly short: one item is stored in place.

ghost use Rattle.std.specs.Prelude.{◌≡◌, ◌<◌, ◌∷◌, ◌++◌, [], length, IsOk, OnOk, OnErr, IfOk};

use std::alloc::{AllocError, Global};
use std::marker::Model;
use std::vec;

/// Collects items: a single one in `first`, several in `more`.
#[derive(Debug, Drop)]
pub(crate) struct SmallListBuilder<T> {
    first: Option<[T; 1]>,
    more: Vec<T>,
}

// The item of an array of one.
fn only<T>(one: [T; 1]) -> T
    ensures { one ≡ result ∷ [] }
{
    let [item] = one;
    item
}

impl<T> Model for SmallListBuilder<T> {
    ghost use Rattle.std.specs.Prelude.{◌≡◌, ◌++◌, true, [], is_some, unwrap_or, vec_len, vec_capacity};
    ghost use Rattle.mq_end.specs.SmallList.{Gathering, room_of};

    ghost Value = { Gathering T };

    ghost view = { λ g. record {
      items = unwrap_or g.first [] ++ g.more.items;
      room = room_of (is_some g.first) (vec_len g.more) (vec_capacity g.more);
    } };

    ghost invariant = { λ g. is_some g.first ≡ true → vec_len g.more ≡ 0 };
}

impl<T: Drop> SmallListBuilder<T> {
    /// No items.
    pub(crate) fn new(alloc: Global) -> SmallListBuilder<T>
        ensures items { result.items ≡ [] }
        ensures room { 0 < result.room }
    {
        SmallListBuilder {
            first: None,
            more: Vec::new(alloc),
        }
    }

    /// Makes room for one more item. The first one is stored in place.
    #[tactic(auto, using(crate::proofs::SmallLists::room_for_one, crate::proofs::SmallLists::room_behind, crate::proofs::SmallLists::moved))]
    pub(crate) fn reserve(&mut self) -> Result<(), AllocError>
        ensures items { self.new.items ≡ self.old.items }
        ensures room { OnOk result (0 < self.new.room) }
        ensures within { 0 < self.old.room → IsOk result }
    {
        if self.first.is_some() {
            self.more.reserve(2)?;
            if let Some(one) = self.first.take() {
                self.more.push_reserved(only(one));
            }
            return Ok(());
        }
        if self.more.is_empty() {
            return Ok(());
        }
        self.more.reserve(1)
    }

    /// Puts an item last, within the room for it.
    #[tactic(auto, using(crate::proofs::SmallLists::is_alone, crate::proofs::SmallLists::is_behind))]
    #[inline(always)]
    pub(crate) fn push(&mut self, item: T)
        requires room { 0 < self.old.room }
        ensures items { self.new.items ≡ self.old.items ++ item ∷ [] }
    {
        if self.more.is_empty() {
            self.first = Some([item]);
        } else {
            self.more.push_reserved(item);
        }
    }

    fn as_slice(&self) -> &[T]
        ensures { result.now ≡ self.now.items }
    {
        match &self.first {
            Some(one) => one.as_slice(),
            None => self.more.as_slice(),
        }
    }

    fn into_vec(self) -> Result<Vec<T>, AllocError>
        ensures items { IfOk result (λ v. v.items ≡ self.items) }
        ensures single { OnErr result (length self.items ≡ 1) }
    {
        let SmallListBuilder { first, more } = self;
        let mut items = more;
        if let Some(one) = first {
            let item = only(one);
            items.reserve(1)?;
            items.push_reserved(item);
        }
        Ok(items)
    }
}

impl<T: Clone> Clone for SmallListBuilder<T> {
    ghost use Rattle.mq_end.specs.Prelude.{AllZip};

    ghost is_clone = { λ g copy. AllZip T.is_clone g.items copy.items };

    /// Clones of the items.
    fn clone(&self) -> Result<SmallListBuilder<T>, AllocError> {
        let first = self.first.clone()?;
        let more = self.more.clone()?;
        Ok(SmallListBuilder { first, more })
    }
}

/// A list, which may be empty; one item is stored in place. Contracts see it as the list of its
/// items.
#[derive(Debug, Drop)]
pub struct SmallList<T> {
    gathered: SmallListBuilder<T>,
}

impl<T> Model for SmallList<T> {
    ghost use Rattle.std.specs.Prelude.{List};

    ghost Value = { List T };

    ghost view = { λ l. l.gathered.items };
}

impl<T: Drop> SmallList<T> {
    /// The list of the collected items.
    pub(crate) fn from_gathered(gathered: SmallListBuilder<T>) -> SmallList<T>
        ensures { result ≡ gathered.items }
    {
        SmallList { gathered }
    }

    /// The items.
    pub fn as_slice(&self) -> &[T]
        ensures { result.now ≡ self.now }
    {
        self.gathered.as_slice()
    }

    /// Returns the items as a vector. Allocates only for a single item.
    pub fn into_vec(self) -> Result<Vec<T>, AllocError>
        ensures items { IfOk result (λ v. v.items ≡ self) }
        ensures single { OnErr result (length self ≡ 1) }
    {
        let SmallList { gathered } = self;
        gathered.into_vec()
    }
}

impl<T: Drop> IntoIterator for SmallList<T> {
    ghost use Rattle.mq_end.specs.Prelude.{YieldsFirst, YieldsInOrder};

    type Item = T;

    type IntoIter = SmallListIntoIter<T>;

    ghost into_iter_gives = { λ list it. (it ≡ list) × YieldsInOrder (YieldsFirst {A = T} (λ rest. rest)) (λ rest. rest) };

    fn into_iter(self) -> SmallListIntoIter<T> {
        let SmallList { gathered } = self;
        let SmallListBuilder { first, more } = gathered;
        SmallListIntoIter {
            first,
            more: more.into_iter(),
        }
    }
}

/// The items of a [`SmallList`] by value, in order. Contracts see the remaining ones.
#[derive(Drop)]
pub struct SmallListIntoIter<T> {
    first: Option<[T; 1]>,
    more: vec::IntoIter<T, Global>,
}

impl<T> Model for SmallListIntoIter<T> {
    ghost use Rattle.std.specs.Prelude.{◌++◌, List, [], unwrap_or};
    ghost use Rattle.std.specs.Vec.Iter.{into_iter_items};

    ghost Value = { List T };

    ghost view = { λ it. unwrap_or it.first [] ++ into_iter_items it.more };
}

impl<T: Drop> Iterator for SmallListIntoIter<T> {
    ghost use Rattle.mq_end.specs.Prelude.{YieldsFirst, item_count};

    type Item = T;

    ghost next_gives = { YieldsFirst (λ rest. rest) };

    ghost remaining = { item_count (λ rest. rest) };

    fn next(&mut self) -> Option<T> {
        match self.first.take() {
            Some(one) => Some(only(one)),
            None => self.more.next(),
        }
    }
}

impl<T: Clone> Clone for SmallList<T> {
    ghost use Rattle.mq_end.specs.Prelude.{AllZip};

    ghost is_clone = { λ list copy. AllZip T.is_clone list copy };

    /// A list of clones of the items.
    fn clone(&self) -> Result<SmallList<T>, AllocError> {
        let gathered = self.gathered.clone()?;
        Ok(SmallList { gathered })
    }
}
