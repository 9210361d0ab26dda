//! Formats, and how they are read.

ghost use Rattle.std.specs.Prelude.{◌≡◌, ◌⊎◌, ◌≤◌, [], length, IfErr, IfOk, MatchResult, Ok, Err};
ghost use Rattle.mq_format.specs.Prelude.{FailsWith, Reads, after_layout, entry_of, escape_letters, field_letters, layout_at, named, number_at, piece_at, shown, time_letters};
ghost use Rattle.mq_format.specs.declared.fault.FormatFault.TheVariants as faults;
ghost use Rattle.mq_format.specs.declared.piece.Piece.TheVariants as pieces;

use crate::fault::FormatFault;
use crate::field::{Field, Layout};
use crate::moment::TimeField;
use crate::piece::Piece;
use std::alloc::Global;

/// A format of `-F`.
#[derive(Debug, Drop)]
pub struct Format {
    /// The pieces, in the order in which they are printed.
    pub pieces: Vec<Piece>,
}

// A byte as a character, for an error.
fn shown(byte: u8) -> char
    ensures { result ≡ shown byte }
{
    if byte.is_ascii_graphic() {
        return char::from(byte);
    }
    '?'
}

// The field of this letter.
fn field_of(letter: u8) -> Option<Field>
    ensures { result ≡ entry_of letter field_letters }
{
    Some(match letter {
        b'%' => Field::Percent,
        b't' => Field::Topic,
        b'p' => Field::Payload,
        b'x' => Field::Hexadecimal(false),
        b'X' => Field::Hexadecimal(true),
        b'q' => Field::Qos,
        b'r' => Field::Retain,
        b'l' => Field::Length,
        b'm' => Field::Id,
        b'I' => Field::Time,
        b'U' => Field::Unix,
        b'j' => Field::Json,
        b'A' | b'C' | b'D' | b'E' | b'F' | b'P' | b'R' | b'S' => Field::Nothing,
        _ => return None,
    })
}

// The field of a time of this letter.
fn time_field_of(letter: u8) -> Option<TimeField>
    ensures { result ≡ entry_of letter time_letters }
{
    Some(match letter {
        b'@' => TimeField::At,
        b'Y' => TimeField::Year,
        b'm' => TimeField::Month,
        b'd' => TimeField::Day,
        b'H' => TimeField::Hour,
        b'M' => TimeField::Minute,
        b'S' => TimeField::Second,
        b'F' => TimeField::Date,
        b'T' => TimeField::Clock,
        b's' => TimeField::Seconds,
        b'N' => TimeField::Nanoseconds,
        b'z' => TimeField::Zone,
        _ => return None,
    })
}

// The byte of an escape, behind a backslash.
fn escape_of(letter: u8) -> Option<u8>
    ensures { result ≡ entry_of letter escape_letters }
{
    Some(match letter {
        b'\\' => b'\\',
        b'0' => 0,
        b'a' => 7,
        b'e' => 27,
        b'n' => b'\n',
        b'r' => b'\r',
        b't' => b'\t',
        b'v' => 11,
        _ => return None,
    })
}

// The number at the front, at most 65535, and the rest.
fn number_at(text: &[u8]) -> (usize, &[u8])
    ensures read { number_at 0 text.now ≡ (result.0, result.1.now) }
    ensures shorter { length result.1.now ≤ length text.now }
{
    let (mut number, mut rest) = (0usize, text);
    while let [digit @ b'0'..=b'9', more @ ..] = rest {
        number = (number * 10 + (*digit - b'0') as usize).min(65_535);
        rest = more;
    }
    (number, rest)
}

// The layout at the front, and the rest.
fn layout_at(text: &[u8]) -> (Layout, &[u8])
    ensures layout { result.0 ≡ layout_at text.now }
    ensures rest { result.1.now ≡ after_layout text.now }
    ensures shorter { length result.1.now ≤ length text.now }
{
    let (flag, rest) = match text {
        [flag @ (b'-' | b'0'), rest @ ..] => (Some(*flag), rest),
        _ => (None, text),
    };
    let (width, rest) = number_at(rest);
    let (precision, rest) = match rest {
        [b'.', rest @ ..] => {
            let (precision, rest) = number_at(rest);
            (Some(precision), rest)
        }
        _ => (None, rest),
    };
    let layout = Layout {
        width,
        is_left: flag == Some(b'-'),
        is_zero: flag == Some(b'0'),
        precision,
    };
    (layout, rest)
}

// The field behind a `%`, and the rest.
fn field_at(text: &[u8]) -> Result<(Piece, &[u8]), FormatFault>
    ensures read { let read = named field_letters (λ field. pieces.Field field (layout_at text.now))
        faults.NoField (after_layout text.now) in
        MatchResult result (λ r. read ≡ Ok (r.0, r.1.now)) (λ fault. read ≡ Err fault) }
    ensures shorter { IfOk result (λ r. length r.1.now ≤ length text.now) }
{
    let (layout, rest) = layout_at(text);
    match rest {
        [letter, rest @ ..] => match field_of(*letter) {
            Some(field) => Ok((Piece::Field(field, layout), rest)),
            None => Err(FormatFault::NoField(shown(*letter))),
        },
        [] => Err(FormatFault::Incomplete),
    }
}

// The field of a time behind an `@`, and the rest.
fn time_at(text: &[u8]) -> Result<(Piece, &[u8]), FormatFault>
    ensures read { let read = named time_letters pieces.Time faults.NoTimeField text.now in
        MatchResult result (λ r. read ≡ Ok (r.0, r.1.now)) (λ fault. read ≡ Err fault) }
    ensures shorter { IfOk result (λ r. length r.1.now ≤ length text.now) }
{
    match text {
        [letter, rest @ ..] => match time_field_of(*letter) {
            Some(field) => Ok((Piece::Time(field), rest)),
            None => Err(FormatFault::NoTimeField(shown(*letter))),
        },
        [] => Err(FormatFault::Incomplete),
    }
}

// The byte of the escape behind a backslash, and the rest.
fn escape_at(text: &[u8]) -> Result<(Piece, &[u8]), FormatFault>
    ensures read { let read = named escape_letters pieces.Byte faults.NoEscape text.now in
        MatchResult result (λ r. read ≡ Ok (r.0, r.1.now)) (λ fault. read ≡ Err fault) }
    ensures shorter { IfOk result (λ r. length r.1.now ≤ length text.now) }
{
    match text {
        [letter, rest @ ..] => match escape_of(*letter) {
            Some(byte) => Ok((Piece::Byte(byte), rest)),
            None => Err(FormatFault::NoEscape(shown(*letter))),
        },
        [] => Err(FormatFault::Incomplete),
    }
}

// The piece at the front, and the rest.
fn piece_at(first: u8, rest: &[u8]) -> Result<(Piece, &[u8]), FormatFault>
    ensures read { MatchResult result (λ r. piece_at first rest.now ≡ Ok (r.0, r.1.now))
        (λ fault. piece_at first rest.now ≡ Err fault) }
    ensures shorter { IfOk result (λ r. length r.1.now ≤ length rest.now) }
{
    match first {
        b'%' => field_at(rest),
        b'@' => time_at(rest),
        b'\\' => escape_at(rest),
        _ => Ok((Piece::Byte(first), rest)),
    }
}

impl Format {
    /// Reads a format.
    pub fn parse(alloc: Global, text: &str) -> Result<Format, FormatFault>
        ensures ok { IfOk result (λ format. Reads format.pieces.items text.now []) }
        ensures err { IfErr result
            (λ fault. (fault ≡ faults.Memory) ⊎ FailsWith text.now fault) }
    {
        let mut pieces = Vec::new(alloc);
        let mut rest = text.as_bytes();
        while let [first, more @ ..] = rest {
            let (piece, more) = piece_at(*first, more)?;
            if pieces.push(piece).is_err() {
                return Err(FormatFault::Memory);
            }
            rest = more;
        }
        Ok(Format { pieces })
    }
}
