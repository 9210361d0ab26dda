//! The encoding of SUBSCRIBE, SUBACK and UNSUBSCRIBE into a caller's buffer (3.8 to 3.10).

ghost use Rattle.std.specs.Prelude.{◌≡◌, ◌<◌, ◌^◌, IfOk};
ghost use Rattle.mq_bytes.specs.Prelude.{IsListOf, Gives, first_of, kind_number};

use crate::encode::{encode, number};
use crate::fault::EncodeFault;
use crate::items::{ItemKind, are_items};
use mq_wire::length_laws;

// The first byte of the packet with such a list (2.2.1, 2.2.2).
fn first_byte(kind: ItemKind) -> u8
    ensures { result ≡ first_of kind }
{
    match kind {
        ItemKind::Request => 0x82,
        ItemKind::Code => 0x90,
        ItemKind::Filter => 0xa2,
    }
}

// Encodes the packet with this identifier and a list of these encoded items.
#[tactic(auto, using(crate::proofs::Listed::list_gives, crate::proofs::Listed::list_too_large, crate::proofs::Listed::list_identifier, crate::proofs::Listed::list_some, crate::proofs::Listed::list_items))]
fn encode_items(kind: ItemKind, id: u16, items: &[u8], out: &mut [u8]) -> Result<usize, EncodeFault>
    ensures small { IfOk result (λ n. n < 2 ^ 29) }
    ensures gives { Gives (IsListOf (kind_number kind) id items.now) out.old out.new result }
{
    length_laws();
    if id == 0 || items.is_empty() {
        return Err(EncodeFault::Argument);
    }
    if !are_items(kind, items) {
        return Err(EncodeFault::Argument);
    }
    if items.len() > 268_435_455 {
        return Err(EncodeFault::TooLarge);
    }
    encode(out, first_byte(kind), &number(id), items, &[], &[])
}

/// Encodes SUBSCRIBE (8), SUBACK (9) or UNSUBSCRIBE (10) with this identifier and a list of
/// items, as they are encoded (3.8.3, 3.9.3, 3.10.3).
#[tactic(auto, using(crate::proofs::Listed::no_list))]
pub fn encode_list(kind: u8, id: u16, items: &[u8], out: &mut [u8]) -> Result<usize, EncodeFault>
    ensures small { IfOk result (λ n. n < 2 ^ 29) }
    ensures gives { Gives (IsListOf kind id items.now) out.old out.new result }
{
    match kind {
        8 => encode_items(ItemKind::Request, id, items, out),
        9 => encode_items(ItemKind::Code, id, items, out),
        10 => encode_items(ItemKind::Filter, id, items, out),
        _ => Err(EncodeFault::Argument),
    }
}
