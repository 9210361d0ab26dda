//! The encoding of packets into a caller's buffer (chapter 3). Each call returns the number of
//! bytes written; those behind them are unchanged. On `Err` the buffer is unchanged.

ghost use Rattle.std.specs.Prelude.{◌≡◌, ◌+◌, ◌<◌, ◌≤◌, ◌^◌, ◌++◌, length, IfOk};
ghost use Rattle.mq_bytes.specs.Prelude.{number, IsAcknowledgementOf, IsBareOf, EncodesParts, Gives};

use crate::buffer::{begin, put_all};
use crate::fault::EncodeFault;
use mq_wire::length_laws;

/// Writes a packet whose fields are these four pieces.
pub(crate) fn encode(
    out: &mut [u8],
    first: u8,
    a: &[u8],
    b: &[u8],
    c: &[u8],
    d: &[u8],
) -> Result<usize, EncodeFault>
    requires short { length a.now + (length b.now + (length c.now + length d.now)) < 2 ^ 63 }
    ensures most { IfOk result
        (λ n. n ≤ 5 + (length a.now + (length b.now + (length c.now + length d.now)))) }
    ensures parts { EncodesParts first (a.now ++ (b.now ++ (c.now ++ d.now))) out.old out.new result }
{
    let rest = a.len() + (b.len() + (c.len() + d.len()));
    let at = begin(out, first, rest)?;
    put_all(out, at, a, b, c, d);
    Ok(at + rest)
}

/// The two bytes of a number (1.5.2).
pub(crate) fn number(n: u16) -> [u8; 2]
    ensures { result ≡ number n }
{
    n.to_be_bytes()
}

/// Encodes the packet of this type whose only field is a packet identifier (3.4 to 3.7, 3.11):
/// PUBACK (4), PUBREC (5), PUBREL (6), PUBCOMP (7) or UNSUBACK (11).
#[tactic(auto, using(crate::proofs::Encoded::puback, crate::proofs::Encoded::pubrec, crate::proofs::Encoded::pubrel, crate::proofs::Encoded::pubcomp, crate::proofs::Encoded::unsuback, crate::proofs::Encoded::no_acknowledgement, crate::proofs::Encoded::no_identifier))]
pub fn encode_acknowledgement(kind: u8, id: u16, out: &mut [u8]) -> Result<usize, EncodeFault>
    ensures small { IfOk result (λ n. n ≤ 7) }
    ensures gives { Gives (IsAcknowledgementOf kind id) out.old out.new result }
{
    length_laws();
    if id == 0 {
        return Err(EncodeFault::Argument);
    }
    let id = number(id);
    match kind {
        4 => encode(out, 0x40, &id, &[], &[], &[]),
        5 => encode(out, 0x50, &id, &[], &[], &[]),
        6 => encode(out, 0x62, &id, &[], &[], &[]),
        7 => encode(out, 0x70, &id, &[], &[], &[]),
        11 => encode(out, 0xb0, &id, &[], &[], &[]),
        _ => Err(EncodeFault::Argument),
    }
}

/// Encodes the packet of this type without fields (3.12 to 3.14): PINGREQ (12), PINGRESP (13) or
/// DISCONNECT (14).
#[tactic(auto, using(crate::proofs::Encoded::ping_request, crate::proofs::Encoded::ping_response, crate::proofs::Encoded::disconnect, crate::proofs::Encoded::no_bare))]
pub fn encode_bare(kind: u8, out: &mut [u8]) -> Result<usize, EncodeFault>
    ensures small { IfOk result (λ n. n ≤ 7) }
    ensures gives { Gives (IsBareOf kind) out.old out.new result }
{
    length_laws();
    match kind {
        12 => encode(out, 0xc0, &[], &[], &[], &[]),
        13 => encode(out, 0xd0, &[], &[], &[], &[]),
        14 => encode(out, 0xe0, &[], &[], &[], &[]),
        _ => Err(EncodeFault::Argument),
    }
}
