//! A disk that stops, for tests.

ghost use Rattle.std.specs.Prelude.{◌≡◌, ◌+◌, ◌-◌, ◌↔◌, IsErr};
ghost use Rattle.mq_log.specs.Prelude.{HasCause};

use crate::{Disk, DiskError};
use std::alloc::Global;

/// A disk that passes a number of calls on. Each later call fails and changes nothing, as if the
/// machine had stopped between two calls.
#[derive(Drop)]
pub struct FreezingDisk<D: Disk> {
    disk: D,
    calls_left: u64,
    refused: u64,
}

impl<D: Disk> FreezingDisk<D> {
    ghost use Rattle.mq_log.specs.Prelude.{disk_of, calls_left};

    /// Wraps a disk, which then takes this number of calls.
    pub fn new(disk: D, calls: u64) -> Self
        ensures disk { disk_of result ≡ disk }
        ensures calls { calls_left result ≡ calls }
    {
        FreezingDisk {
            disk,
            calls_left: calls,
            refused: 0,
        }
    }

    /// The wrapped disk.
    pub fn disk(&self) -> &D
        ensures { result.now ≡ disk_of self.now }
    {
        &self.disk
    }

    /// The number of calls that the disk still takes.
    pub fn calls_left(&self) -> u64
        ensures { result ≡ calls_left self.now }
    {
        self.calls_left
    }
}

// Counts one call. Fails with `Memory` if 2^64 calls were refused before.
fn spend(calls_left: &mut u64, refused: &mut u64) -> Result<(), DiskError>
    ensures cause { HasCause refused.old refused.new result }
    ensures frozen { IsErr result ↔ (calls_left.old ≡ 0) }
    ensures spent { calls_left.new ≡ calls_left.old - 1 }
{
    if *calls_left > 0 {
        *calls_left -= 1;
        return Ok(());
    }
    if *refused == u64::MAX {
        return Err(DiskError::Memory);
    }
    *refused += 1;
    Err(DiskError::Failed)
}

impl<D: Disk> Disk for FreezingDisk<D> {
    ghost seen = { λ f. D.Disk.seen f.disk };

    ghost may_leave = { λ f. D.Disk.may_leave f.disk };

    ghost clock = { λ f. D.Disk.clock f.disk };

    ghost left_since = { λ f. D.Disk.left_since f.disk };

    ghost faults = { λ f. D.Disk.faults f.disk + f.refused };

    ghost counts_now = { λ f. D.Disk.counts_now f.disk };

    ghost only_now = { λ f. D.Disk.only_now f.disk };

    fn read(&mut self, alloc: Global) -> Result<Vec<u8>, DiskError> {
        spend(&mut self.calls_left, &mut self.refused)?;
        self.disk.read(alloc)
    }

    fn write_at(&mut self, at: usize, bytes: &[u8]) -> Result<(), DiskError> {
        spend(&mut self.calls_left, &mut self.refused)?;
        self.disk.write_at(at, bytes)
    }

    fn sync(&mut self) -> Result<(), DiskError> {
        spend(&mut self.calls_left, &mut self.refused)?;
        self.disk.sync()
    }
}
