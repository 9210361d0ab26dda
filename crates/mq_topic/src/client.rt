//! Keys of clients.

ghost use Rattle.std.specs.Prelude.{◌≡◌};

use std::marker::Model;

/// The number that identifies a client in a store of subscriptions.
#[derive(Clone, Copy, Debug, PartialEq, Eq, PartialOrd, Ord, Hash)]
pub struct ClientKey {
    number: u32,
}

impl Model for ClientKey {
    ghost use Rattle.std.specs.Prelude.{ℕ};

    ghost Value = { ℕ };

    ghost view = { λ key. key.number };

    ghost inverse = { λ n. record { number = n } };
}

impl ClientKey {
    /// The key with this number.
    pub fn new(number: u32) -> ClientKey
        ensures { result ≡ number }
    {
        ClientKey { number }
    }

    /// The number.
    pub fn get(self) -> u32
        ensures { result ≡ self }
    {
        self.number
    }
}
