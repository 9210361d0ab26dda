//! Bytes as they are printed in a line.

ghost use Rattle.std.specs.Prelude.{◌≡◌, ◌≢◌, ◌<◌, ◌∷◌, ◌++◌, [], ℕ, List, false, IfOk, IfSome, IfNone};
ghost use Rattle.mq_schedule.specs.Prelude.{digit_glyph, IsBytes, byte_digits, escaped, escaped_byte, hex_of, Finds, FindsBytes, is_plain};

use std::alloc::{AllocError, Global};

// The value of a hexadecimal digit in lower case.
fn digit(glyph: u8) -> Option<u8>
    ensures { Finds (λ n. (n < 16) × (digit_glyph false n ≡ glyph)) result }
{
    match glyph {
        b'0'..=b'9' => Some(glyph - b'0'),
        b'a'..=b'f' => Some(glyph - b'a' + 10),
        _ => None,
    }
}

// The byte of two digits.
fn byte(high: u8, low: u8) -> Option<u8>
    ensures { Finds (λ n. (n < 256) × (byte_digits n ≡ high ∷ low ∷ [])) result }
{
    Some(digit(high)? * 16 + digit(low)?)
}

// The bytes of digits, two each.
pub(crate) fn hex_bytes(alloc: Global, digits: &[u8]) -> Result<Option<Vec<u8>>, AllocError>
    ensures { IfOk result (FindsBytes (λ bytes. IsBytes bytes × (digits.now ≡ hex_of bytes))) }
{
    let mut bytes = Vec::new(alloc);
    let mut left = digits;
    'pairs: while let [high, low, after @ ..] = left {
        let Some(byte) = byte(*high, *low) else {
            return Ok(None);
        };
        bytes.push(byte)?;
        left = after;
    }
    if !left.is_empty() {
        return Ok(None);
    }
    Ok(Some(bytes))
}

// Whether a byte of a text is printed as it is.
fn is_plain(byte: u8) -> bool
    ensures { result ≡ is_plain byte }
{
    byte.is_ascii_graphic() && byte != b'%'
}

// The first byte of a text, and the rest of its printed form.
fn first_byte(printed: &[u8]) -> Option<(u8, &[u8])>
    ensures some { IfSome result
        (λ p. (p.0 < 256) × (printed.now ≡ escaped_byte p.0 ++ p.1.now)) }
    ensures none { IfNone result ((byte : ℕ) (after : List ℕ)
        → byte < 256 → printed.now ≢ escaped_byte byte ++ after) }
{
    let (first, after) = printed.split_first()?;
    if is_plain(*first) {
        return Some((*first, after));
    }
    if *first != b'%' {
        return None;
    }
    let [high, low, after @ ..] = after else {
        return None;
    };
    let byte = byte(*high, *low)?;
    if is_plain(byte) {
        return None;
    }
    Some((byte, after))
}

/// The bytes of a text that is printed so.
pub fn unescaped(alloc: Global, printed: &[u8]) -> Result<Option<Vec<u8>>, AllocError>
    ensures { IfOk result (FindsBytes (λ text. IsBytes text × (printed.now ≡ escaped text))) }
{
    let mut text = Vec::new(alloc);
    let mut left = printed;
    'bytes: while !left.is_empty() {
        let Some((byte, after)) = first_byte(left) else {
            return Ok(None);
        };
        text.push(byte)?;
        left = after;
    }
    Ok(Some(text))
}
