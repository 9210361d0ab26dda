//! Lists with at least one item.

ghost use Rattle.std.specs.Prelude.{◌≡◌, ◌<◌, length};

use std::alloc::AllocError;
use std::marker::Model;

/// A list of at least one item, as in SUBSCRIBE, SUBACK and UNSUBSCRIBE (3.8.3, 3.9.3, 3.10.3).
#[derive(Debug, Drop)]
pub struct NonEmpty<T> {
    items: Vec<T>,
}

impl<T> Model for NonEmpty<T> {
    ghost use Rattle.std.specs.Prelude.{List, ◌<◌, length};

    ghost Value = { List T };

    ghost view = { λ l. l.items.items };

    ghost invariant = { λ l. 0 < length l.items.items };
}

impl<T> NonEmpty<T> {
    /// Wraps a vector, which must not be empty.
    pub fn from_vec(items: Vec<T>) -> NonEmpty<T>
        requires { 0 < length items.items }
        ensures { result ≡ items.items }
    {
        NonEmpty { items }
    }

    /// Consumes the list and returns the vector.
    pub fn into_vec(self) -> Vec<T>
        ensures { result.items ≡ self }
    {
        let NonEmpty { items } = self;
        items
    }

    /// The items.
    pub fn as_slice(&self) -> &[T]
        ensures value { result.now ≡ self.now }
        ensures some { 0 < length self.now }
    {
        self.items.as_slice()
    }
}

impl<T: Clone> Clone for NonEmpty<T> {
    ghost use Rattle.mq_packet.specs.Prelude.{AllZip};

    ghost is_clone = { λ list copy. AllZip T.is_clone list copy };

    /// Clones each item.
    fn clone(&self) -> Result<NonEmpty<T>, AllocError> {
        let items = self.items.clone()?;
        Ok(NonEmpty { items })
    }
}
