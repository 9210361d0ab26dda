//! A file in memory, for tests.

ghost use Rattle.std.specs.Prelude.{◌≡◌, ◌⊎◌, [], ◌∷◌, ◌++◌, length, drop, OnOk, OnErr};
ghost use Rattle.mq_log.specs.Prelude.{HadBeen, only_bytes};
ghost use Rattle.std.proofs.Common.{inl};

use crate::{Disk, DiskError};
use std::alloc::{AllocError, Global};

/// A file in memory that keeps each of its past contents. Every write is durable at once.
#[derive(Drop)]
pub struct MemoryDisk {
    alloc: Global,
    bytes: Vec<u8>,
    past: Vec<Vec<u8>>,
}

impl MemoryDisk {
    ghost use Rattle.std.specs.Prelude.{[]};
    ghost use Rattle.mq_log.specs.Prelude.{memory_bytes, past_contents};

    /// A file with these bytes, all of them synced.
    pub fn new(alloc: Global, bytes: Vec<u8>) -> Self
        ensures bytes { memory_bytes result ≡ bytes.items }
        ensures past { past_contents result ≡ [] }
    {
        MemoryDisk {
            alloc,
            bytes,
            past: Vec::new(alloc),
        }
    }

    /// The content of the file.
    pub fn bytes(&self) -> &[u8]
        ensures { result.now ≡ memory_bytes self.now }
    {
        &self.bytes
    }

    /// The earlier contents, oldest first.
    pub fn past(&self) -> &[Vec<u8>]
        ensures { result.now ≡ past_contents self.now }
    {
        &self.past
    }
}

// Replaces the content, and keeps the old one among the past contents.
fn replace(
    alloc: Global,
    bytes: &mut Vec<u8>,
    past: &mut Vec<Vec<u8>>,
    next: Vec<u8>,
) -> Result<(), AllocError>
    ensures ok { OnOk result (bytes.new.items ≡ next.items) }
    ensures err { OnErr result (bytes.new.items ≡ bytes.old.items) }
    ensures past { OnOk result ((v : _) × (v.items ≡ bytes.old.items)
        × (past.new.items ≡ past.old.items ++ v ∷ [])) }
    ensures past_err { OnErr result (past.new.items ≡ past.old.items) }
{
    past.push(bytes.to_vec(alloc)?)?;
    *bytes = next;
    Ok(())
}

impl Disk for MemoryDisk {
    ghost seen = { λ m. m.bytes.items };

    ghost may_leave = { λ m c. c ≡ m.bytes.items };

    ghost clock = { λ m. length m.past.items };

    ghost left_since = { λ m t c. (c ≡ m.bytes.items) ⊎ HadBeen (drop t m.past.items) c };

    ghost faults = { λ m. 0 };

    ghost counts_now = { λ m t c le now. inl now };

    ghost only_now = { λ m c left. only_bytes m.past.items m.bytes.items c left };

    fn read(&mut self, alloc: Global) -> Result<Vec<u8>, DiskError> {
        Ok(self.bytes.to_vec(alloc)?)
    }

    fn write_at(&mut self, at: usize, bytes: &[u8]) -> Result<(), DiskError> {
        let mut next = self.bytes[..at].to_vec(self.alloc)?;
        next.extend_from_slice(bytes)?;
        if bytes.len() < self.bytes.len() - at {
            next.extend_from_slice(&self.bytes[at + bytes.len()..])?;
        }
        Ok(replace(self.alloc, &mut self.bytes, &mut self.past, next)?)
    }

    fn sync(&mut self) -> Result<(), DiskError> {
        Ok(())
    }
}
