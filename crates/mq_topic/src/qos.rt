//! Quality of service (4.3).

ghost use Rattle.std.specs.Prelude.{◌≡◌};
ghost use Rattle.mq_topic.specs.Prelude.{nat_cmp, greater, qos_number, qos_from};
ghost use Rattle.mq_topic.specs.declared.qos.Qos as declared;

/// Quality of service (4.3): how often a message is delivered.
#[derive(Clone, Copy, Debug, PartialEq, Eq, PartialOrd, Ord, Hash)]
pub enum Qos {
    /// At most once.
    Q0,
    /// At least once.
    Q1,
    /// Exactly once.
    Q2,
}

impl Qos {
    /// The number in packets.
    pub fn number(self) -> u8
        ensures { result ≡ qos_number self }
    {
        match self {
            Qos::Q0 => 0,
            Qos::Q1 => 1,
            Qos::Q2 => 2,
        }
    }

    /// The greater of two.
    pub fn greater(self, other: Qos) -> Qos
        ensures { result ≡ greater self other }
    {
        match (self, other) {
            (Qos::Q0, _) => other,
            (Qos::Q1, Qos::Q2) => Qos::Q2,
            _ => self,
        }
    }

    /// The quality of service with this number, or `None` for a number over 2.
    pub fn from_number(number: u8) -> Option<Qos>
        ensures { result ≡ qos_from number }
    {
        match number {
            0 => Some(Qos::Q0),
            1 => Some(Qos::Q1),
            2 => Some(Qos::Q2),
            _ => None,
        }
    }
}

/// The law of the order: it is the order of the numbers.
pub fn qos_order_law()
    ensures { (a b : declared.Qos) → ⟦<Qos as Ord>⟧.cmp a b ≡ nat_cmp (qos_number a) (qos_number b) }
{}
