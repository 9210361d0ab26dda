//! Lists that contracts see as such.

ghost use Rattle.std.specs.Prelude.{◌≡◌};
ghost use Rattle.mq_end.specs.Prelude.{AllZip};

use std::alloc::AllocError;
use std::marker::Model;

/// A list, which may be empty. Contracts see it as the list of its items.
#[derive(Debug, Drop)]
pub struct BoxedList<T> {
    items: Vec<T>,
}

impl<T> Model for BoxedList<T> {
    ghost use Rattle.std.specs.Prelude.{List};

    ghost Value = { List T };

    ghost view = { λ l. l.items.items };
}

impl<T> BoxedList<T> {
    /// Wraps a vector.
    pub fn from_vec(items: Vec<T>) -> BoxedList<T>
        ensures { result ≡ items.items }
    {
        BoxedList { items }
    }

    /// Consumes the list and returns the vector.
    pub fn into_vec(self) -> Vec<T>
        ensures { result.items ≡ self }
    {
        let BoxedList { items } = self;
        items
    }

    /// The items.
    pub fn as_slice(&self) -> &[T]
        ensures { result.now ≡ self.now }
    {
        self.items.as_slice()
    }
}

impl<T: Clone> Clone for BoxedList<T> {
    ghost is_clone = { λ list copy. AllZip T.is_clone list copy };

    /// A list of clones of the items.
    fn clone(&self) -> Result<BoxedList<T>, AllocError> {
        let items = self.items.clone()?;
        Ok(BoxedList { items })
    }
}
