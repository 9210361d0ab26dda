//! Padded texts, numbers and hexadecimal digits, appended to a line.
//!
//! If memory runs out, a line may have a part of the text.

ghost use Rattle.std.specs.Prelude.{◌≡◌, ◌<◌, ◌^◌, ◌++◌, OnOk, decimal, replicate};
ghost use Rattle.mq_format.specs.Prelude.{hexadecimal_digit, hexadecimal_text, padded, with_zeros};

use crate::field::Layout;
use itoa::Buffer;
use std::alloc::AllocError;

// Appends this many copies of a byte.
fn repeat(out: &mut Vec<u8>, byte: u8, count: usize) -> Result<(), AllocError>
    ensures { OnOk result (out.new.items ≡ out.old.items ++ replicate count byte) }
{
    out.resize(out.len().saturating_add(count), byte)
}

/// Appends a text, padded to the width of a layout.
pub(crate) fn put_padded(
    out: &mut Vec<u8>,
    text: &[u8],
    layout: Layout,
    filler: u8,
) -> Result<(), AllocError>
    ensures { OnOk result (out.new.items ≡ out.old.items ++ padded layout filler text.now) }
{
    let missing = layout.width.saturating_sub(text.len());
    if layout.is_left {
        out.extend_from_slice(text)?;
        return repeat(out, b' ', missing);
    }
    repeat(out, filler, missing)?;
    out.extend_from_slice(text)
}

/// Appends a number.
pub(crate) fn put_decimal(out: &mut Vec<u8>, number: u64) -> Result<(), AllocError>
    ensures { OnOk result (out.new.items ≡ out.old.items ++ decimal number) }
{
    out.extend_from_slice(Buffer::new().format(number).as_bytes())
}

/// Appends a number with at least this many digits.
pub(crate) fn put_number(out: &mut Vec<u8>, number: u64, least: usize) -> Result<(), AllocError>
    ensures { OnOk result (out.new.items ≡ out.old.items ++ with_zeros least number) }
{
    let mut buffer = Buffer::new();
    let digits = buffer.format(number).as_bytes();
    repeat(out, b'0', least.saturating_sub(digits.len()))?;
    out.extend_from_slice(digits)
}

// The digit of a number below 16.
fn hexadecimal_digit(number: u8, is_upper: bool) -> u8
    requires { number < 16 }
    ensures { result ≡ hexadecimal_digit is_upper number }
{
    match (number, is_upper) {
        (0..=9, _) => b'0' + number,
        (_, true) => b'A' + (number - 10),
        (_, false) => b'a' + (number - 10),
    }
}

/// Appends bytes as two hexadecimal digits each.
pub(crate) fn put_hexadecimal(
    out: &mut Vec<u8>,
    bytes: &[u8],
    is_upper: bool,
) -> Result<(), AllocError>
    ensures { OnOk result (out.new.items ≡ out.old.items ++ hexadecimal_text is_upper bytes.now) }
{
    for byte in bytes {
        let high = hexadecimal_digit(*byte / 16, is_upper);
        let low = hexadecimal_digit(*byte % 16, is_upper);
        out.extend_from_slice(&[high, low])?;
    }
    Ok(())
}
