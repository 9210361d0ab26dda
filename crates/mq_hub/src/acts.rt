//! The acts of a step, as they are collected for its reply.

ghost use Rattle.std.specs.Prelude.{◌≡◌, ◌+◌, ◌≤◌, ◌<◌, [], ◌∷◌, ◌++◌, length, OnOk};

use bytes::Bytes;
use mq_end::BoxedList;
use mq_route::{Act, HubReply};
use std::alloc::{AllocError, Global};
use std::marker::Model;

/// The acts of a step up to now, with reserved room for more.
#[derive(Drop)]
pub(crate) struct ActLog {
    acts: Vec<Act>,
    /// The number of further acts for which room was reserved. The list may have more capacity.
    room: usize,
}

impl Model for ActLog {
    ghost use Rattle.std.specs.Prelude.{◌+◌, ◌≤◌, length, vec_capacity};
    ghost use Rattle.mq_hub.specs.Inside.ActLog.{ActList};

    ghost Value = { ActList };

    ghost view = { λ d. record { acts = d.acts.items; room = d.room } };

    ghost invariant = { λ d. length d.acts.items + d.room ≤ vec_capacity d.acts };
}

impl ActLog {
    pub(crate) fn new(alloc: Global) -> ActLog
        ensures { result.acts ≡ [] }
    {
        ActLog {
            acts: Vec::new(alloc),
            room: 0,
        }
    }

    /// Makes room for at least `count` more acts in all.
    pub(crate) fn reserve(&mut self, count: usize) -> Result<(), AllocError>
        ensures ok { OnOk result (count ≤ self.new.room) }
        ensures same { self.new.acts ≡ self.old.acts }
        ensures room { self.old.room ≤ self.new.room }
    {
        self.acts.reserve(count)?;
        self.room = self.room.max(count);
        Ok(())
    }

    /// Makes room for `count` more acts in addition to those for which room is reserved.
    pub(crate) fn reserve_more(&mut self, count: usize) -> Result<(), AllocError>
        ensures ok { OnOk result (self.old.room + count ≤ self.new.room) }
        ensures same { self.new.acts ≡ self.old.acts }
        ensures room { self.old.room ≤ self.new.room }
    {
        let Some(room) = self.room.checked_add(count) else {
            return Err(AllocError);
        };
        self.reserve(room)
    }

    /// Returns the number of acts.
    pub(crate) fn count(&self) -> usize
        ensures value { result ≡ length self.now.acts }
        ensures few { result < 18446744073709551615 }
    {
        self.acts.len()
    }

    /// Appends an act.
    pub(crate) fn push(&mut self, act: Act)
        requires { 0 < self.old.room }
        ensures acts { self.new.acts ≡ self.old.acts ++ act ∷ [] }
        ensures room { self.old.room ≤ self.new.room + 1 }
    {
        self.acts.push_reserved(act);
        self.room -= 1;
    }

    /// Returns the reply of a step with these acts and without output. `alive` says whether the
    /// event's connection is open after the step.
    pub(crate) fn into_reply(self, alive: bool) -> HubReply
        ensures { result ≡ record { acts = self.acts; output = []; alive = alive } }
    {
        let ActLog { acts, .. } = self;
        HubReply {
            acts: BoxedList::from_vec(acts),
            output: Bytes::new(),
            alive,
        }
    }
}
