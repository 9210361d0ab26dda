//! Other events than bytes of a connection that end a read.

use std::cell::Cell;

/// The longest wait of a read, in milliseconds.
const LONGEST: i32 = 100;

/// No descriptor.
const NONE: i32 = -1;

/// Other events than bytes that end a read of a connection. A source of messages sets them.
#[derive(Drop)]
pub(crate) struct Watch {
    descriptor: Cell<i32>,
    wait: Cell<i32>,
}

impl Watch {
    /// Waits for the connection alone.
    pub(crate) fn new() -> Watch {
        Watch {
            descriptor: Cell::new(NONE),
            wait: Cell::new(LONGEST),
        }
    }

    /// A read also ends once this descriptor has input.
    pub(crate) fn on(&self, descriptor: i32) {
        self.descriptor.set(descriptor);
    }

    /// A read also ends after this many milliseconds.
    pub(crate) fn within(&self, milliseconds: u64) {
        self.wait.set(i32::try_from(milliseconds).unwrap_or(LONGEST).min(LONGEST));
    }

    /// A read waits for the connection alone again.
    pub(crate) fn off(&self) {
        self.descriptor.set(NONE);
        self.wait.set(LONGEST);
    }

    /// The descriptor, or -1.
    pub(crate) fn descriptor(&self) -> i32 {
        self.descriptor.get()
    }

    /// The milliseconds.
    pub(crate) fn wait(&self) -> i32 {
        self.wait.get()
    }
}
