//! Calls of workers at their connections.

ghost use Rattle.std.specs.Prelude.{ℕ, List, Option, None, ◌∷◌, []};
ghost use Rattle.mq_serve.specs.Prelude.{Appends};

use mio::Waker;

/// Calls workers, so that they look at their connections.
pub trait Caller {
    /// The numbers of the workers that were called, in order, if they are known.
    ghost called: { Self → Option (List ℕ) } = { λ _. None };

    /// Calls the worker with this number.
    fn call(&mut self, number: usize)
        ensures { Appends (called self.old) (called self.new) (number ∷ []) };
}

/// Calls workers by their wakers, which are in the order of the workers' numbers.
#[derive(Clone, Copy)]
pub struct WakerCaller<'a>(pub &'a [Waker]);

impl Caller for WakerCaller<'_> {
    fn call(&mut self, number: usize) {
        if let Some(waker) = self.0.get(number) {
            // A worker that can't be woken looks for output when its read times out.
            let _ = waker.wake();
        }
    }
}
