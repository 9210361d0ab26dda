//! Tests of a durable broker and its journal: a stop after each call of the disk, damaged files,
//! and the bytes of events and snapshots.
#![tactic(auto)]

#[cfg(test)]
mod crash;
#[cfg(test)]
mod journal;
#[cfg(test)]
mod record;
#[cfg(test)]
mod snapshot;
