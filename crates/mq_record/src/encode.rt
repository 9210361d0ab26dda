//! Encoding an event.

ghost use Rattle.std.specs.Prelude.{◌≡◌, ℕ, ◌↔◌, ◌+◌, ◌≤◌, ◌<◌, ◌^◌, ◌++◌, List, length, take, true, OnOk, OnErr, IsErrOf};
ghost use Rattle.mq_route.specs.declared.conn.Conn.{Conn};
ghost use Rattle.mq_route.specs.declared.event.HubEvent.TheVariants.{Bytes};
ghost use Rattle.mq_record.specs.Encoding.{event_bytes, is_recorded, is_too_long};

use crate::fault::EncodeFault;
use crate::numbers::{with_conn, with_conn_and_len, with_time};
use mq_route::{Conn, HubEvent};
use std::alloc::AllocError;

/// Whether the event is recorded. Only `Collect` is not.
pub fn is_recorded(event: &HubEvent) -> bool
    ensures { result ≡ is_recorded event.now }
{
    !matches!(event, HubEvent::Collect(_))
}

/// Appends the encoding of the event. It must be one that is recorded; see [`is_recorded`].
///
/// Errors:
///
/// - `TooLong` if the piece has 2^32 bytes or more.
/// - `Memory` if an allocation failed.
pub fn encode_event(event: &HubEvent, out: &mut Vec<u8>) -> Result<(), EncodeFault>
    requires recorded { is_recorded event.now ≡ true }

    ensures appended { OnOk result (out.new.items ≡ out.old.items ++ event_bytes event.now) }
    ensures unchanged { OnErr result (out.new.items ≡ out.old.items) }
    ensures too_long { IsErrOf result EncodeFault.TooLong ↔ (is_too_long event.now ≡ true) }
{
    match event {
        HubEvent::Opened(conn) => out.extend_from_slice(&with_conn(1, *conn))?,
        HubEvent::Bytes(conn, piece) => {
            if piece.len() >= 1 << 32 {
                return Err(EncodeFault::TooLong);
            }
            encode_piece(*conn, piece.as_slice(), out)?;
        }
        HubEvent::Ended(conn) => out.extend_from_slice(&with_conn(3, *conn))?,
        HubEvent::Tick(now) => out.extend_from_slice(&with_time(4, *now))?,
        HubEvent::Collect(_) => {}
    }
    Ok(())
}

/// Appends the encoding of `Bytes(conn, piece)`. The piece must have fewer than 2^32 bytes.
#[tactic(auto, using(crate::proofs::Digits::front_first))]
pub fn encode_piece(conn: Conn, piece: &[u8], out: &mut Vec<u8>) -> Result<(), AllocError>
    requires { length piece.now < 2 ^ 32 }
    ensures appended { OnOk result (out.new.items
        ≡ out.old.items ++ event_bytes (Bytes conn piece.now)) }
    ensures unchanged { OnErr result (out.new.items ≡ out.old.items) }
{
    let front = with_conn_and_len(2, conn, piece.len() as u32);
    put_both(&front, piece, out)
}

#[tactic(auto, using(std::proofs::Common::append_assoc))]
fn put_both(front: &[u8], back: &[u8], out: &mut Vec<u8>) -> Result<(), AllocError>
    ensures appended { OnOk result (out.new.items ≡ out.old.items ++ (front.now ++ back.now)) }
    ensures unchanged { OnErr result (out.new.items ≡ out.old.items) }
{
    let len = out.len();
    out.extend_from_slice(front)?;
    if let Err(failed) = out.extend_from_slice(back) {
        out.truncate(len);
        return Err(failed);
    }
    Ok(())
}

/// Shortens the piece of an encoding of `Bytes` to its first `taken` bytes. The encoding must begin
/// at `at` and end `out`.
pub fn shorten_piece(out: &mut Vec<u8>, at: usize, taken: usize)
    requires within { at + 11 + taken ≤ length out.old.items }
    requires short { taken < 2 ^ 32 }
    ensures { (conn : Conn) (piece : List ℕ)
        → out.old.items ≡ take at out.old.items ++ event_bytes (Bytes conn piece)
        → taken ≤ length piece
        → out.new.items ≡ take at out.old.items ++ event_bytes (Bytes conn (take taken piece)) }
{
    let len = (taken as u32).to_be_bytes();
    out[at + 7..at + 11].copy_from_slice(&len);
    out.truncate(at + 11 + taken);
}
