//! The line of a message.

ghost use Rattle.std.specs.Prelude.{◌≡◌, ◌++◌, IfOk, OnOk};
ghost use Rattle.mq_format.specs.Prelude.{flat_map, line_end, line_text, payload_line, piece_text, verbose_line};

use crate::fields::put_field;
use crate::instant::put_time;
use crate::piece::Piece;
use crate::style::{Envelope, Style};
use mq_packet::Message;
use std::alloc::{AllocError, Global};

// Appends the line end, if there is one.
fn put_end(out: &mut Vec<u8>, has_end: bool) -> Result<(), AllocError>
    ensures { OnOk result (out.new.items ≡ out.old.items ++ line_end has_end) }
{
    if has_end {
        return out.extend_from_slice(b"\n");
    }
    Ok(())
}

// Appends a line of a payload.
fn put_payload(out: &mut Vec<u8>, message: &Message, has_end: bool) -> Result<(), AllocError>
    ensures { OnOk result
        (out.new.items ≡ out.old.items ++ payload_line has_end message.now.payload) }
{
    let payload = message.payload.as_slice();
    if payload.is_empty() {
        return Ok(());
    }
    out.extend_from_slice(payload)?;
    put_end(out, has_end)
}

// Appends a line of a topic and a payload.
fn put_verbose(out: &mut Vec<u8>, message: &Message, has_end: bool) -> Result<(), AllocError>
    ensures { OnOk result (out.new.items
        ≡ out.old.items ++ verbose_line has_end message.now.topic message.now.payload) }
{
    let payload = message.payload.as_slice();
    if payload.is_empty() && !has_end {
        return Ok(());
    }
    out.extend_from_slice(message.topic.as_str().as_bytes())?;
    if payload.is_empty() {
        out.extend_from_slice(b" (null)")?;
    } else {
        out.extend_from_slice(b" ")?;
        out.extend_from_slice(payload)?;
    }
    put_end(out, has_end)
}

// Appends a piece of a format.
#[tactic(auto, unfolding(crate::specs::Format::piece_text))]
fn put_piece(
    alloc: Global,
    out: &mut Vec<u8>,
    piece: Piece,
    envelope: &Envelope<'_>,
) -> Result<(), AllocError>
    ensures { OnOk result (out.new.items ≡ out.old.items ++ piece_text envelope.now piece) }
{
    match piece {
        Piece::Byte(byte) => out.extend_from_slice(&[byte]),
        Piece::Field(field, layout) => put_field(alloc, out, field, layout, envelope),
        Piece::Time(field) => put_time(out, field, &envelope.moment),
    }
}

// Appends the pieces of a format.
fn put_pieces(
    alloc: Global,
    out: &mut Vec<u8>,
    pieces: &[Piece],
    envelope: &Envelope<'_>,
) -> Result<(), AllocError>
    ensures { OnOk result
        (out.new.items ≡ out.old.items ++ flat_map (piece_text envelope.now) pieces.now) }
{
    for piece in pieces {
        put_piece(alloc, out, *piece, envelope)?;
    }
    Ok(())
}

impl Style {
    /// The bytes that are printed for a message, with a line end or without.
    pub fn line(
        &self,
        alloc: Global,
        envelope: &Envelope<'_>,
        has_end: bool,
    ) -> Result<Vec<u8>, AllocError>
        ensures { IfOk result (λ line. line.items ≡ line_text self.now has_end envelope.now) }
    {
        let mut out = Vec::new(alloc);
        match self {
            Style::Payload => put_payload(&mut out, envelope.message, has_end)?,
            Style::Verbose => put_verbose(&mut out, envelope.message, has_end)?,
            Style::Format(format) => {
                put_pieces(alloc, &mut out, format.pieces.as_slice(), envelope)?;
                put_end(&mut out, has_end)?;
            }
        }
        Ok(out)
    }
}
