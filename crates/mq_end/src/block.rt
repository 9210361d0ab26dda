//! A shared block of bytes in a box.

ghost use Rattle.std.specs.Prelude.{◌≡◌, ◌≤◌, length, drop, take, IfOk};

use bytes::Bytes;
use std::alloc::{AllocError, Global};
use std::marker::Model;

/// A shared block of bytes, in a box: `None` of an option takes one word. Clones share the bytes.
#[derive(Debug, Drop)]
pub(crate) struct Block {
    bytes: Box<Bytes>,
}

impl Model for Block {
    ghost use Rattle.std.specs.Prelude.{ℕ, List};

    ghost Value = { List ℕ };

    ghost view = { λ b. b.bytes.value };
}

impl Block {
    pub(crate) fn new(alloc: Global, bytes: Bytes) -> Result<Block, AllocError>
        ensures { IfOk result (λ b. b ≡ bytes) }
    {
        let bytes = Box::new(alloc, bytes)?;
        Ok(Block { bytes })
    }

    pub(crate) fn as_slice(&self) -> &[u8]
        ensures { result.now ≡ self.now }
    {
        self.bytes.as_slice()
    }

    pub(crate) fn len(&self) -> usize
        ensures { result ≡ length self.now }
    {
        self.bytes.len()
    }

    pub(crate) fn into_bytes(self) -> Bytes
        ensures { result ≡ self }
    {
        let Block { bytes } = self;
        Box::into_inner(bytes)
    }

    /// Removes bytes from the front.
    pub(crate) fn advance(&mut self, count: usize)
        requires { count ≤ length self.old }
        ensures { self.new ≡ drop count self.old }
    {
        let bytes = &mut *self.bytes;
        bytes.advance(count);
    }

    /// Keeps only the first `count` bytes.
    pub(crate) fn truncate(&mut self, count: usize)
        ensures { self.new ≡ take count self.old }
    {
        let bytes = &mut *self.bytes;
        bytes.truncate(count);
    }
}

impl Clone for Block {
    ghost is_clone = { λ block copy. copy ≡ block };

    fn clone(&self) -> Result<Block, AllocError> {
        let bytes = self.bytes.clone()?;
        Ok(Block { bytes })
    }
}
