//! Clocks.

ghost use Rattle.std.specs.Prelude.{◌≡◌, List, ℕ, Option, None, ◌∷◌, []};
ghost use Rattle.std.specs.Io.KnownBytes.{Appends};

use std::marker::Model;
use std::time;
use std::time::Instant;

/// A clock that counts milliseconds.
pub trait Clock {
    /// The times that it reported, in order, if they are known.
    ghost reported: { Self → Option (List ℕ) } = { λ _. None };

    /// The milliseconds since a fixed instant.
    fn now(&mut self) -> u64
        ensures { Appends (reported self.old) (reported self.new) (result ∷ []) };
}

/// The time since an instant. If the system clock fails, the last known time is reported again.
/// Contracts see that time, in milliseconds.
#[derive(Drop)]
pub struct Elapsed<'a, T: time::Clock> {
    clock: &'a T,
    start: Instant,
    last: u64,
}

impl<'a, T: time::Clock> Model for Elapsed<'a, T> {
    ghost use Rattle.std.specs.Prelude.{ℕ};

    ghost Value = { ℕ };

    ghost view = { λ e. e.last };
}

impl<'a, T: time::Clock> Elapsed<'a, T> {
    /// The time since `start`, by `clock`. Until the first reading it is 0.
    pub fn since(clock: &'a T, start: Instant) -> Elapsed<'a, T>
        ensures { result ≡ 0 }
    {
        Elapsed {
            clock,
            start,
            last: 0,
        }
    }
}

impl<T: time::Clock> Clock for Elapsed<'_, T> {
    fn now(&mut self) -> u64 {
        if let Ok(elapsed) = self.start.elapsed(self.clock) {
            self.last = u64::try_from(elapsed.as_millis()).unwrap_or(u64::MAX);
        }
        self.last
    }
}
