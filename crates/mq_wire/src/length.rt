//! The remaining length (2.2.3): one to four bytes that carry seven bits each, least significant
//! first. Bit 7 of a byte says that another byte follows. An encoding with more bytes than
//! necessary is refused, except by a lenient reader.

ghost use Rattle.std.specs.Prelude.{◌≡◌, ℕ, ◌+◌, ◌<◌, ◌≤◌, ◌^◌, ◌↔◌, true, false, List, [], ◌∷◌, ◌++◌, length, take, drop, IsSome, IfSome, IfNone};
ghost use Rattle.mq_wire.specs.Prelude.{Length, value_of};

use std::marker::Model;

/// Why bytes are not a remaining length.
#[derive(Clone, Copy, Debug, PartialEq, Eq)]
pub enum VarFault {
    /// The fourth byte announces a fifth.
    TooLong,
    /// The last byte is 0 and is not the only one, so fewer bytes would do. A lenient reader
    /// accepts it.
    Overlong,
}

/// The result of [`VarlenReader::push`].
#[derive(Clone, Copy, Debug, PartialEq, Eq)]
pub enum VarStep {
    /// Another byte follows.
    More,
    /// The length is complete.
    Done(u32),
    /// No remaining length begins with these bytes.
    Bad(VarFault),
}

/// Reads a remaining length byte by byte (2.2.3).
#[derive(Debug, Drop)]
pub struct VarlenReader {
    bytes: [u8; 4],
    count: usize,
    lenient: bool,
}

impl Model for VarlenReader {
    ghost use Rattle.std.specs.Prelude.{◌≤◌, take};
    ghost use Rattle.mq_wire.specs.Steps.{Coming};

    ghost Value = { Coming };

    ghost view = { λ r. record { bytes = take r.count r.bytes; lenient = r.lenient } };

    ghost invariant = { λ r. r.count ≤ 4 };
}

impl VarlenReader {
    ghost use Rattle.mq_wire.specs.Prelude.{Continue, IsStep};

    /// A reader that has received no byte.
    pub fn new() -> VarlenReader
        ensures bytes { result.bytes ≡ [] }
        ensures lenient { result.lenient ≡ false }
    {
        VarlenReader::of(false)
    }

    /// A reader that has received no byte and accepts encodings with more bytes than necessary. It
    /// never reports `Overlong`.
    pub fn lenient() -> VarlenReader
        ensures bytes { result.bytes ≡ [] }
        ensures lenient { result.lenient ≡ true }
    {
        VarlenReader::of(true)
    }

    fn of(lenient: bool) -> VarlenReader
        ensures bytes { result.bytes ≡ [] }
        ensures lenient { result.lenient ≡ lenient }
    {
        VarlenReader {
            bytes: [0; 4],
            count: 0,
            lenient,
        }
    }

    /// Takes the next byte and reports the state of the bytes so far. Must not be called again
    /// after `Done` or `Bad`.
    pub fn push(&mut self, byte: u8) -> VarStep
        requires short { length self.old.bytes < 4 }
        requires open { Continue self.old.bytes }
        ensures bytes { self.new.bytes ≡ self.old.bytes ++ byte ∷ [] }
        ensures lenient { self.new.lenient ≡ self.old.lenient }
        ensures step { IsStep self.old.lenient self.old.bytes byte result }
    {
        let number = number_of(&self.bytes[..self.count], byte);
        self.bytes[self.count] = byte;
        self.count += 1;
        if byte >= 128 {
            if self.count == 4 {
                return VarStep::Bad(VarFault::TooLong);
            }
            return VarStep::More;
        }
        if byte == 0 && self.count > 1 && !self.lenient {
            return VarStep::Bad(VarFault::Overlong);
        }
        VarStep::Done(number)
    }
}

fn number_of(before: &[u8], last: u8) -> u32
    ensures { result ≡ value_of before.now last }
{
    let last = u32::from(last);
    match before {
        [] => last,
        [a] => u32::from(*a % 128) + 128 * last,
        [a, b] => u32::from(*a % 128) + 128 * u32::from(*b % 128) + 16_384 * last,
        [a, b, c, ..] => {
            u32::from(*a % 128)
                + 128 * u32::from(*b % 128)
                + 16_384 * u32::from(*c % 128)
                + 2_097_152 * last
        }
    }
}

/// Returns the number of bytes that encode the remaining length `n` (2.2.3), or `None` if `n` is
/// over 268,435,455, the largest remaining length.
pub fn varlen_len(n: u32) -> Option<usize>
    ensures fits { IsSome result ↔ (n < 2 ^ 28) }
    ensures size { IfSome result (λ k. (bytes : List ℕ) → Length n bytes → length bytes ≡ k) }
    ensures most { IfSome result (λ k. k ≤ 4) }
{
    match n {
        0..=127 => Some(1),
        128..=16_383 => Some(2),
        16_384..=2_097_151 => Some(3),
        2_097_152..=268_435_455 => Some(4),
        _ => None,
    }
}

/// Writes the remaining length `n` to the front of `out` (2.2.3) and returns the number of bytes
/// written. The bytes behind them are unchanged. Returns `None` if `n` is over 268,435,455; then
/// `out` is unchanged.
pub fn put_varlen(n: u32, out: &mut [u8; 4]) -> Option<usize>
    ensures fits { IsSome result ↔ (n < 2 ^ 28) }
    ensures size { IfSome result (λ k. k ≤ 4) }
    ensures form { IfSome result (λ k. Length n (take k out.new)) }
    ensures rest { IfSome result (λ k. drop k out.new ≡ drop k out.old) }
    ensures none { IfNone result (out.new ≡ out.old) }
{
    let low = (n % 128) as u8;
    let second = (n / 128 % 128) as u8;
    let third = (n / 16_384 % 128) as u8;
    let [_, b, c, d] = *out;
    match n {
        0..=127 => {
            *out = [low, b, c, d];
            Some(1)
        }
        128..=16_383 => {
            *out = [low + 128, second, c, d];
            Some(2)
        }
        16_384..=2_097_151 => {
            *out = [low + 128, second + 128, third, d];
            Some(3)
        }
        2_097_152..=268_435_455 => {
            let fourth = (n / 2_097_152) as u8;
            *out = [low + 128, second + 128, third + 128, fourth];
            Some(4)
        }
        _ => None,
    }
}
