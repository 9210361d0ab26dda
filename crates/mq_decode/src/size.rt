//! How many bytes a packet takes, as its header says.

ghost use Rattle.std.specs.Prelude.{◌≡◌, ◌++◌, ℕ, List, Some, IfSome, length};
ghost use Rattle.mq_decode.specs.Prelude.{Packet, header_at, len_told, HasHeader, ReadsWithin};

use crate::header::header_at;
use crate::limits::Limits;
use mq_wire::{length_laws, number_laws, text_laws};

fn len_told(limits: Limits, bytes: &[u8]) -> Option<usize>
    ensures { result ≡ len_told (header_at limits bytes.now) }
{
    match header_at(limits, bytes) {
        Ok(Some(header)) => Some(header.start + header.size),
        _ => None,
    }
}

/// Returns the size of the packet at the front (2.2), or `None` if there is no complete valid
/// header. Ignores the fields.
pub fn packet_len(limits: Limits, bytes: &[u8]) -> Option<usize>
    ensures header { (size : ℕ) → HasHeader limits bytes.now size → result ≡ Some size }
    ensures told { IfSome result (HasHeader limits bytes.now) }
    ensures packet { (packet : Packet) (first rest : List ℕ)
        → ReadsWithin limits packet first → bytes.now ≡ first ++ rest
        → result ≡ Some (length first) }
{
    number_laws();
    text_laws();
    length_laws();
    len_told(limits, bytes)
}
