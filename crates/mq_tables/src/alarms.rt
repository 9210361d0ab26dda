//! The times after which connections may be late (3.1.2.10).

ghost use Rattle.std.specs.Prelude.{◌≡◌, ◌+◌, ◌<◌, ◌≤◌, ℕ, [], length, false, IfOk, IfNone, IfSome, OnErr, OnOk, OnSome};
ghost use Rattle.mq_tables.specs.Prelude.{same_conn, IsQuiet, RingsWith, is_named};
ghost use Rattle.mq_route.specs.declared.conn.Conn.{Conn as ConnSeen};

use mq_route::Conn;
use std::alloc::{AllocError, Global};
use std::cmp::Reverse;
use std::collections::BinaryHeap;
use std::marker::Model;

/// A time up to which a connection is not late.
#[derive(Clone, Copy, PartialEq, Eq, PartialOrd, Ord)]
pub(crate) struct Alarm {
    /// The last time at which it is not late, in milliseconds.
    pub(crate) until: u64,
    pub(crate) conn: Conn,
}

/// Alarms, the earliest first. An alarm stays until it rings, even if its connection has ended or a
/// later packet has arrived.
#[derive(Drop)]
pub(crate) struct Alarms {
    alarms: BinaryHeap<Reverse<Alarm>>,
    // after this time any connection may be late, because an allocation failed
    until: u64,
}

impl Model for Alarms {
    ghost use Rattle.std.specs.BinaryHeap.{heap_items, IsHeap};
    ghost use Rattle.mq_tables.specs.Alarms.{AlarmTable, soonest_first};

    ghost Value = { AlarmTable };

    ghost view = { λ a. record { until = a.until; alarms = heap_items a.alarms } };

    ghost invariant = { λ a. IsHeap soonest_first (heap_items a.alarms) };
}

impl Alarms {
    pub(crate) fn new(alloc: Global) -> Alarms
        ensures { result.alarms ≡ [] }
    {
        Alarms {
            alarms: BinaryHeap::new(alloc),
            until: u64::MAX,
        }
    }

    pub(crate) fn len(&self) -> usize
        ensures { result ≡ length self.now.alarms }
    {
        self.alarms.len()
    }

    /// After this time any connection may be late.
    pub(crate) fn until(&self) -> u64
        ensures { result ≡ self.now.until }
    {
        self.until
    }

    /// Up to this time no alarm rings, so that no connection is late.
    pub(crate) fn quiet_until(&self) -> u64
        ensures { (k : ConnSeen) (now : ℕ) → now ≤ result → IsQuiet self.now k now }
    {
        match self.alarms.peek() {
            Some(Reverse(first)) => first.until.min(self.until),
            None => self.until,
        }
    }

    /// Drops all alarms.
    pub(crate) fn clear(&mut self)
        ensures { self.new.alarms ≡ [] }
    {
        self.alarms.clear();
        self.until = u64::MAX;
    }

    /// Any connection may be late from now on.
    pub(crate) fn forget(&mut self)
        ensures until { self.new.until ≡ 0 }
        ensures same { self.new ≡ record self.old { until = 0 } }
    {
        self.until = 0;
    }

    /// Sets an alarm: the connection is not late up to this time. If the allocation fails, any
    /// connection may be late after it.
    pub(crate) fn set(&mut self, conn: Conn, until: u64)
        ensures few { length self.new.alarms ≤ length self.old.alarms + 1 }
        ensures keeps { RingsWith self.old self.new }
        ensures rings { (now : ℕ) → IsQuiet self.new conn now → now ≤ until }
    {
        match self.alarms.push(Reverse(Alarm { until, conn })) {
            Ok(()) => {}
            Err(_) => self.until = self.until.min(until),
        }
    }

    // Removes the earliest alarm if it rings before this time, and returns the name of its
    // connection.
    fn take(&mut self, now: u64) -> Option<Conn>
        ensures until { self.new.until ≡ self.old.until }
        ensures same { IfNone result (self.new ≡ self.old) }
        ensures quiet { IfNone result ((k : ConnSeen) → now ≤ self.new.until → IsQuiet self.new k now) }
        ensures others { IfSome result (λ conn. (k : ConnSeen) (n : ℕ) → same_conn k conn ≡ false → IsQuiet self.new k n → IsQuiet self.old k n) }
        ensures fewer { OnSome result (length self.new.alarms < length self.old.alarms) }
    {
        let Reverse(first) = self.alarms.peek()?;
        if now <= first.until {
            return None;
        }
        let Reverse(alarm) = self.alarms.pop()?;
        Some(alarm.conn)
    }

    /// Removes the alarms that ring before this time, and returns the names of their connections.
    /// On `Err` any connection may be late.
    pub(crate) fn take_ringing(&mut self, alloc: Global, now: u64) -> Result<Vec<Conn>, AllocError>
        ensures until { OnOk result (self.new.until ≡ self.old.until) }
        ensures quiet { OnOk result ((k : ConnSeen) → now ≤ self.new.until → IsQuiet self.new k now) }
        ensures others { IfOk result (λ names. (k : ConnSeen) (n : ℕ) → is_named k names.items ≡ false → IsQuiet self.new k n → IsQuiet self.old k n) }
        ensures err { OnErr result (self.new.until ≡ 0) }
    {
        let mut names = Vec::new(alloc);
        while let Some(conn) = self.take(now) {
            match names.push(conn) {
                Ok(()) => {}
                Err(_) => {
                    self.forget();
                    return Err(AllocError);
                }
            }
        }
        Ok(names)
    }
}
