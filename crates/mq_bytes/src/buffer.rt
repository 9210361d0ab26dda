//! Writing into a caller's buffer.

ghost use Rattle.std.specs.Prelude.{◌≡◌, ◌+◌, ◌++◌, ◌≤◌, ◌<◌, ◌^◌, ◌∷◌, ℕ, List, length, take, IfOk, OnOk, OnErr, IsErrOf};
ghost use Rattle.mq_bytes.specs.Prelude.{length_bytes, encoded_size, Filled};

use crate::fault::EncodeFault;
use mq_wire::{length_laws, put_varlen};

/// Writes `bytes` at index `at`, and returns the index behind them.
pub fn put(out: &mut [u8], at: usize, bytes: &[u8]) -> usize
    requires { at + length bytes.now ≤ length out.old }
    ensures end { result ≡ at + length bytes.now }
    ensures length { length out.new ≡ length out.old }
    // Bytes that were written before it stay.
    ensures written { (old front : List ℕ) → Filled old front out.old → at ≡ length front
        → Filled old (front ++ bytes.now) out.new }
{
    let end = at + bytes.len();
    out[at..end].copy_from_slice(bytes);
    end
}

/// Writes four pieces one behind the other, from index `at` on.
pub(crate) fn put_all(out: &mut [u8], at: usize, a: &[u8], b: &[u8], c: &[u8], d: &[u8])
    requires { at + length (a.now ++ (b.now ++ (c.now ++ d.now))) ≤ length out.old }
    ensures length { length out.new ≡ length out.old }
    ensures written { (old front : List ℕ) → Filled old front out.old → at ≡ length front
        → Filled old (front ++ (a.now ++ (b.now ++ (c.now ++ d.now)))) out.new }
{
    let at = put(out, at, a);
    let at = put(out, at, b);
    let at = put(out, at, c);
    put(out, at, d);
}

// The encoded remaining length and its number of bytes (2.2.3).
fn length_of(rest: u32) -> ([u8; 4], usize)
    requires { rest < 2 ^ 28 }
    ensures size { result.1 ≡ length (length_bytes rest) }
    ensures bytes { take result.1 result.0 ≡ length_bytes rest }
    ensures most { result.1 ≤ 4 }
{
    length_laws();
    let mut bytes = [0u8; 4];
    let size = put_varlen(rest, &mut bytes).unwrap();
    (bytes, size)
}

/// Writes the first byte and the remaining length (2.2) of a packet whose fields have `rest` bytes.
/// Returns the index of the fields, for which there is room. On `Err` the buffer is unchanged.
pub(crate) fn begin(out: &mut [u8], first: u8, rest: usize) -> Result<usize, EncodeFault>
    ensures within { IfOk result (λ at. at + rest ≤ length out.old) }
    ensures start { IfOk result (λ at. at ≡ 1 + length (length_bytes rest)) }
    ensures most { IfOk result (λ at. at ≤ 5) }
    ensures small { IfOk result (λ at. rest < 2 ^ 28) }
    ensures length { length out.new ≡ length out.old }
    ensures filled { OnOk result (Filled out.old (first ∷ length_bytes rest) out.new) }
    ensures too_large { IsErrOf result EncodeFault.TooLarge → 2 ^ 28 ≤ rest }
    ensures room { IsErrOf result EncodeFault.Room → length out.old < encoded_size rest }
    ensures argument { IsErrOf result EncodeFault.Argument → ⊥ }
    ensures err { OnErr result (out.new ≡ out.old) }
{
    if rest > 268_435_455 {
        return Err(EncodeFault::TooLarge);
    }
    let (length, size) = length_of(rest as u32);
    if out.len() < 1 + size + rest {
        return Err(EncodeFault::Room);
    }
    let at = put(out, 0, &[first]);
    Ok(put(out, at, &length[..size]))
}
