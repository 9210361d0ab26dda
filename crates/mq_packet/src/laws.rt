//! The laws of encodings.

ghost use Rattle.mq_packet.specs.Prelude.{EncodingLaws};

use mq_wire::length_laws;

/// The laws of encodings: each packet, and each list of packets, has exactly one encoding, unless a
/// remaining length would exceed 268,435,455 (2.2.3).
pub fn encoding_laws()
    ensures { EncodingLaws }
{
    length_laws();
}
