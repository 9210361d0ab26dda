//! Reads a remaining length at the front of a buffer (2.2.3).

ghost use Rattle.std.specs.Prelude.{◌≡◌, true, false};
ghost use Rattle.mq_wire.specs.Prelude.{IsSmall, LengthLaws, last_byte, read_length};

/// The result of reading a remaining length at the front of a buffer.
#[derive(Clone, Copy, Debug, PartialEq, Eq)]
pub enum LengthReading {
    /// The length, and the number of bytes that encode it.
    Whole(u32, usize),
    /// The buffer ends inside the length: each of its bytes announces another.
    Unfinished,
    /// The fourth byte announces a fifth.
    TooLong,
    /// The last byte is 0 and is not the only one. Counts the bytes up to and including it.
    Overlong(usize),
}

fn last_byte(lenient: bool, byte: u8, number: u32, size: usize) -> LengthReading
    ensures { result ≡ last_byte lenient byte number size }
{
    if !lenient && byte == 0 {
        return LengthReading::Overlong(size);
    }
    LengthReading::Whole(number, size)
}

#[tactic(auto, unfolding(crate::specs::Reading::read_length))]
fn read_length(lenient: bool, bytes: &[u8]) -> LengthReading
    ensures read { result ≡ read_length lenient bytes.now }
    ensures small { IsSmall result }
{
    match bytes {
        [] => LengthReading::Unfinished,
        [a, ..] if *a < 128 => LengthReading::Whole(u32::from(*a), 1),
        [_] => LengthReading::Unfinished,
        [a, b, ..] if *b < 128 => {
            let number = u32::from(*a - 128) + 128 * u32::from(*b);
            last_byte(lenient, *b, number, 2)
        }
        [_, _] => LengthReading::Unfinished,
        [a, b, c, ..] if *c < 128 => {
            let number = u32::from(*a - 128) + 128 * u32::from(*b - 128) + 16_384 * u32::from(*c);
            last_byte(lenient, *c, number, 3)
        }
        [_, _, _] => LengthReading::Unfinished,
        [a, b, c, d, ..] if *d < 128 => {
            let number = u32::from(*a - 128)
                + 128 * u32::from(*b - 128)
                + 16_384 * u32::from(*c - 128)
                + 2_097_152 * u32::from(*d);
            last_byte(lenient, *d, number, 4)
        }
        [_, _, _, _, ..] => LengthReading::TooLong,
    }
}

/// Reads the remaining length at the front of `bytes` (2.2.3). Ignores the bytes that follow it.
pub fn length_at(bytes: &[u8]) -> LengthReading
    ensures read { result ≡ read_length false bytes.now }
    ensures small { IsSmall result }
{
    read_length(false, bytes)
}

/// Like [`length_at`], but accepts encodings with more bytes than necessary. Never returns
/// `Overlong`.
pub fn loose_length_at(bytes: &[u8]) -> LengthReading
    ensures read { result ≡ read_length true bytes.now }
    ensures small { IsSmall result }
{
    read_length(true, bytes)
}

/// The laws of remaining lengths: each number up to 268,435,455 has exactly one encoding, encodings
/// are read back, and only encodings are read.
pub fn length_laws()
    ensures { LengthLaws }
{}
