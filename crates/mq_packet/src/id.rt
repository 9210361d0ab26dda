//! Packet identifiers (2.3.1).

ghost use Rattle.std.specs.Prelude.{◌≡◌, ◌<◌, ◌↔◌, ◌^◌, IsSome, IfSome};

use std::marker::Model;

/// A packet identifier (2.3.1): 1 to 65,535.
#[derive(Clone, Copy, Debug, PartialEq, Eq, PartialOrd, Ord, Hash)]
pub struct PacketId {
    number: u16,
}

impl Model for PacketId {
    ghost use Rattle.std.specs.Prelude.{ℕ, ◌<◌};
    ghost use Rattle.mq_packet.specs.Identifier.{IsIdentifier};

    ghost Value = { ℕ };

    ghost view = { λ id. id.number };

    ghost invariant = { λ id. 0 < id.number };

    ghost inverse = { λ n. record { number = n } };
}

impl PacketId {
    ghost use Rattle.mq_packet.specs.Prelude.{IsIdentifier};

    /// The identifier with this number, or `None` for 0.
    pub fn new(number: u16) -> Option<PacketId>
        ensures some { IsSome result ↔ (0 < number) }
        ensures value { IfSome result (λ id. id ≡ number) }
    {
        if number == 0 {
            return None;
        }
        Some(PacketId { number })
    }

    /// The number.
    pub fn get(self) -> u16
        ensures value { result ≡ self }
        ensures identifier { IsIdentifier self }
    {
        self.number
    }
}
