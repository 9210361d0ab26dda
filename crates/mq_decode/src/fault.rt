//! Why bytes are not a packet.

ghost use Rattle.std.specs.Prelude.{◌≡◌, Some};
ghost use Rattle.mq_decode.specs.Prelude.{fault_code, fault_number};

use std::alloc::{AllocError, AllocFailed};
use std::fmt;
use thiserror::Error;

/// Why bytes are not a packet. Displays as its code, `F1` to `F20`.
#[derive(Clone, Copy, Debug, PartialEq, Eq)]
pub enum FaultKind {
    /// The type is 0 or 15 (2.2.1).
    ForbiddenType,
    /// The low four bits are not those of the type, which is not PUBLISH (2.2.2).
    WrongFlags,
    /// A PUBLISH of quality of service 3 (3.3.1.2).
    ForbiddenQos,
    /// DUP with quality of service 0 (3.3.1.1).
    DupWithoutDelivery,
    /// The fourth byte of the remaining length says that a fifth follows (2.2.3).
    LengthTooLong,
    /// The last byte of the remaining length is 0 and not the only one. Lenient limits take it.
    LengthOverlong,
    /// The remaining length is over the limit.
    OverLimit,
    /// The remaining length is not the fixed one of the type.
    WrongSize,
    /// A field goes past the packet's end.
    PastEnd,
    /// A text is not UTF-8 (1.5.3).
    NotUtf8,
    /// A text has the character U+0000 (1.5.3).
    Nul,
    /// The protocol name is not `MQTT` (3.1.2.1).
    ProtocolName,
    /// The protocol level is not 4 (3.1.2.2).
    ProtocolLevel,
    /// Flags of CONNECT (3.1.2.3) or of CONNACK (3.2.2.1) that are forbidden.
    ForbiddenFlags,
    /// A text is not a topic name (4.7).
    NotTopicName,
    /// A text is not a topic filter (4.7).
    NotTopicFilter,
    /// A packet identifier of 0 (2.3.1).
    ZeroIdentifier,
    /// A quality of service over 2, or a code of no kind (3.2.2.3, 3.8.3, 3.9.3).
    ForbiddenCode,
    /// A list without an item (3.8.3, 3.9.3, 3.10.3).
    EmptyList,
    /// Bytes are left after the last field (3.1.3).
    BytesLeft,
}

impl FaultKind {
    /// The number of its code, from 1 to 20.
    pub fn number(self) -> u8
        ensures { result ≡ fault_number self }
    {
        match self {
            FaultKind::ForbiddenType => 1,
            FaultKind::WrongFlags => 2,
            FaultKind::ForbiddenQos => 3,
            FaultKind::DupWithoutDelivery => 4,
            FaultKind::LengthTooLong => 5,
            FaultKind::LengthOverlong => 6,
            FaultKind::OverLimit => 7,
            FaultKind::WrongSize => 8,
            FaultKind::PastEnd => 9,
            FaultKind::NotUtf8 => 10,
            FaultKind::Nul => 11,
            FaultKind::ProtocolName => 12,
            FaultKind::ProtocolLevel => 13,
            FaultKind::ForbiddenFlags => 14,
            FaultKind::NotTopicName => 15,
            FaultKind::NotTopicFilter => 16,
            FaultKind::ZeroIdentifier => 17,
            FaultKind::ForbiddenCode => 18,
            FaultKind::EmptyList => 19,
            FaultKind::BytesLeft => 20,
        }
    }
}

impl fmt::Display for FaultKind {
    ghost output = { λ kind. Some (fault_code kind) };

    fn fmt<W: fmt::Write>(&self, f: &mut fmt::Formatter<W>) -> fmt::Result {
        write!(f, "F{}", self.number())
    }
}

impl std::error::Error for FaultKind {}

/// The first fault of a packet.
#[derive(Clone, Copy, Debug, PartialEq, Eq, Error)]
#[error("the bytes are not a packet: {kind} at byte {place}")]
pub struct DecodeFault {
    /// The kind of fault.
    pub kind: FaultKind,
    /// The place of the fault, counted from the first byte of the packet. The place of a field is
    /// its first byte; for a text or binary field that is the first byte of its length.
    pub place: usize,
}

/// Why no further packet is read.
#[derive(Clone, Copy, Debug, PartialEq, Eq, Error)]
pub enum DecodeError {
    /// The bytes are not a packet.
    #[error("{0}")]
    Fault(DecodeFault),
    /// Memory ran out.
    #[error("out of memory")]
    Memory,
}

/// The first field that is not of its kind, and how many bytes of the packet there are from it on.
#[derive(Clone, Copy)]
pub(crate) struct BadField {
    pub(crate) kind: FaultKind,
    pub(crate) left: usize,
}

/// Why fields were not read.
#[derive(Clone, Copy)]
pub(crate) enum FieldsError {
    Bad(BadField),
    Memory,
}

impl From<BadField> for FieldsError {
    ghost use Rattle.std.specs.Prelude.{◌≡◌};
    ghost use Rattle.mq_decode.specs.Prelude.{Bad};

    ghost from_gives = { λ bad e. e ≡ Bad bad };

    fn from(bad: BadField) -> FieldsError {
        FieldsError::Bad(bad)
    }
}

impl From<AllocError> for FieldsError {
    ghost use Rattle.std.specs.Prelude.{◌≡◌};
    ghost use Rattle.mq_decode.specs.Prelude.{Memory};

    ghost from_gives = { λ _ e. e ≡ Memory };

    fn from(_e: AllocError) -> FieldsError {
        FieldsError::Memory
    }
}

impl<T: Drop> From<AllocFailed<T>> for FieldsError {
    ghost use Rattle.std.specs.Prelude.{◌≡◌};
    ghost use Rattle.mq_decode.specs.Prelude.{Memory};

    ghost from_gives = { λ _ e. e ≡ Memory };

    fn from(_e: AllocFailed<T>) -> FieldsError {
        FieldsError::Memory
    }
}
