//! Limits on packets that are read.

ghost use Rattle.std.specs.Prelude.{◌≡◌, ◌≤◌, ◌<◌, ◌^◌, ◌↔◌, IsSome, IfSome};
ghost use Rattle.mq_decode.specs.Prelude.{strict, loose};

use std::marker::Model;

/// A bound on the remaining length of packets (2.2.3), 64 to 268,435,455, and whether a length may
/// have more bytes than it needs. Contracts see both.
#[derive(Clone, Copy, Debug, PartialEq, Eq)]
pub struct Limits {
    max_packet: u32,
    lenient: bool,
}

impl Model for Limits {
    ghost use Rattle.std.specs.Prelude.{◌≤◌, ◌<◌, ◌^◌};
    ghost use Rattle.mq_decode.specs.Limits.{Bounds};

    ghost Value = { Bounds };

    ghost view = { λ l. record { most = l.max_packet; lenient = l.lenient } };

    ghost invariant = { λ l. (64 ≤ l.max_packet) × (l.max_packet < 2 ^ 28) };

    ghost inverse = { λ b. record { max_packet = b.most; lenient = b.lenient } };
}

impl Limits {
    /// A limit on the remaining length, in bytes. `None` if it is below 64 or above 268,435,455. A
    /// remaining length with more bytes than necessary is a fault.
    pub fn new(max_packet: u32) -> Option<Limits>
        ensures fits { IsSome result ↔ ((64 ≤ max_packet) × (max_packet < 2 ^ 28)) }
        ensures value { IfSome result (λ l. l ≡ strict max_packet) }
    {
        Limits::of(max_packet, false)
    }

    /// The same bound, under which a length may have more bytes than it needs: two to four, of
    /// which the last is 0.
    pub fn lenient(max_packet: u32) -> Option<Limits>
        ensures fits { IsSome result ↔ ((64 ≤ max_packet) × (max_packet < 2 ^ 28)) }
        ensures value { IfSome result (λ l. l ≡ loose max_packet) }
    {
        Limits::of(max_packet, true)
    }

    fn of(max_packet: u32, lenient: bool) -> Option<Limits>
        ensures fits { IsSome result ↔ ((64 ≤ max_packet) × (max_packet < 2 ^ 28)) }
        ensures value { IfSome result
            (λ l. (l.most ≡ max_packet) × (l.lenient ≡ lenient)) }
    {
        if max_packet < 64 || max_packet > 268_435_455 {
            return None;
        }
        Some(Limits {
            max_packet,
            lenient,
        })
    }

    /// The greatest remaining length.
    pub fn max_packet(self) -> u32
        ensures value { result ≡ self.most }
        ensures least { 64 ≤ self.most }
        ensures most { self.most < 2 ^ 28 }
    {
        self.max_packet
    }

    /// Whether a length may have more bytes than it needs.
    pub fn is_lenient(self) -> bool
        ensures { result ≡ self.lenient }
    {
        self.lenient
    }
}
