//! The image of a diagram.

ghost use Rattle.std.specs.Prelude.{◌≡◌, OnOk, codes};
ghost use Rattle.mq_picture.specs.Prelude.{Appends, Prints, IsHead, IsImage, arrow_label, arrow_line, arrow_lines, arrow_place, body_lines, first_text, line_class, lines_text, note_lines, note_look, row_lines, reaches};

use crate::entry::Note;
use crate::rows::{Arrow, Fate, Row};
use crate::texts::{ArrowText, NoteText};
use mq_world::Side;
use std::io;
use std::io::Write;

// The start of the image: its title and its colors.
const STYLE: &str = "<title>Packets between a client and a server</title>
<style>
.back { fill: #ffffff; }
text { font: 36px sans-serif; fill: #24292f; stroke: #ffffff; stroke-width: 10px; paint-order: stroke; }
.head { font-weight: bold; text-anchor: middle; }
.left { text-anchor: end; }
.good { fill: #1a7f37; font-weight: bold; }
.bad { fill: #cf222e; }
path { fill: none; stroke: #8c959f; stroke-width: 5px; }
.whole { stroke: #0969da; marker-end: url(#tip); }
.cut { stroke: #cf222e; marker-end: url(#cut); }
.flying { stroke-dasharray: 16 12; }
.tip { fill: #0969da; stroke: none; }
.cross { stroke: #cf222e; }
circle { fill: #57606a; }
@media (prefers-color-scheme: dark) {
  .back { fill: #0d1117; }
  text { fill: #e6edf3; stroke: #0d1117; }
  .good { fill: #3fb950; }
  .bad { fill: #ff7b72; }
  path { stroke: #6e7681; }
  .whole { stroke: #58a6ff; }
  .cut, .cross { stroke: #ff7b72; }
  .tip { fill: #58a6ff; }
  circle { fill: #afb8c1; }
}
</style>
<marker id=\"tip\" viewBox=\"-30 -15 30 30\" markerUnits=\"userSpaceOnUse\" markerWidth=\"30\" markerHeight=\"30\" orient=\"auto\"><path class=\"tip\" d=\"M0 0L-30 -15V15z\"/></marker>
<marker id=\"cut\" viewBox=\"-20 -20 40 40\" markerUnits=\"userSpaceOnUse\" markerWidth=\"40\" markerHeight=\"40\"><path class=\"cross\" d=\"M-16 -16L16 16M-16 16L16 -16\"/></marker>
";

// Writes the colors.
fn write_style<W: Write>(output: &mut W) -> io::Result<()>
    ensures { OnOk result (Appends (W.contents output.old) (W.contents output.new) STYLE.now) }
{
    output.write_all(STYLE.as_bytes())
}

// Writes the background and the lines of the client, at 850, and of the server, at 1950.
fn write_lines<W: Write>(output: &mut W, rows: usize, height: usize) -> io::Result<()>
    ensures { OnOk result
        (Appends (W.contents output.old) (W.contents output.new) (lines_text rows height)) }
{
    writeln!(
        output,
        "<rect class=\"back\" y=\"-200\" width=\"2800\" height=\"{height}00\"/>
<text class=\"head\" x=\"850\" y=\"-100\">client</text>
<text class=\"head\" x=\"1950\" y=\"-100\">server</text>
<path d=\"M850 -60V{rows}50M1950 -60V{rows}50\"/>"
    )
}

// Writes the first line of the image.
fn write_first<W: Write>(output: &mut W, height: usize) -> io::Result<()>
    ensures { OnOk result
        (Appends (W.contents output.old) (W.contents output.new) (first_text height)) }
{
    writeln!(
        output,
        "<svg xmlns=\"http://www.w3.org/2000/svg\" width=\"880\" viewBox=\"0 -200 2800 {height}00\" role=\"img\">"
    )
}

// Writes the image up to its first row. A row is 100 units high.
fn write_head<W: Write>(output: &mut W, rows: usize) -> io::Result<()>
    ensures { OnOk result (Prints (W.contents output.old) (W.contents output.new) (IsHead STYLE.now rows)) }
{
    let height = rows.saturating_add(3);
    write_first(output, height)?;
    write_style(output)?;
    write_lines(output, rows, height)?;
    Ok(())
}

// The class of the line of an arrow.
fn class_of(fate: Fate) -> &'static str
    ensures { result.now ≡ line_class fate }
{
    match fate {
        Fate::Arrived => "whole",
        Fate::Discarded | Fate::Cut => "cut",
        Fate::InFlight => "flying",
    }
}

// Whether the way of a packet ends at the other side.
fn reaches(fate: Fate) -> bool
    ensures { result ≡ reaches fate }
{
    match fate {
        Fate::Arrived | Fate::Discarded => true,
        Fate::Cut | Fate::InFlight => false,
    }
}

// Writes the line of an arrow, up to the height of its end.
fn write_line<W: Write>(output: &mut W, to: Side, fate: Fate, sent: usize) -> io::Result<()>
    ensures { OnOk result
        (Appends (W.contents output.old) (W.contents output.new) (arrow_line to fate sent)) }
{
    let class = class_of(fate);
    match (to, reaches(fate)) {
        (Side::Server, true) => {
            write!(output, "<path class=\"{class}\" d=\"M860 {sent}00L1940 ")
        }
        (Side::Server, false) => {
            write!(output, "<path class=\"{class}\" d=\"M860 {sent}00L1330 ")
        }
        (Side::Client, true) => {
            write!(output, "<path class=\"{class}\" d=\"M1940 {sent}00L860 ")
        }
        (Side::Client, false) => {
            write!(output, "<path class=\"{class}\" d=\"M1940 {sent}00L1470 ")
        }
    }
}

// Writes the height of an arrow's end, and the place of its text.
fn write_place<W: Write>(output: &mut W, to: Side, fate: Fate, row: usize) -> io::Result<()>
    ensures { OnOk result
        (Appends (W.contents output.old) (W.contents output.new) (arrow_place to fate row)) }
{
    match (to, reaches(fate)) {
        (Side::Server, true) => {
            write!(
                output,
                "{row}50\"/>\n<text class=\"left\" x=\"1890\" y=\"{row}20\">"
            )
        }
        (Side::Server, false) => { write!(output, "{row}50\"/>\n<text x=\"1370\" y=\"{row}62\">") }
        (Side::Client, true) => { write!(output, "{row}50\"/>\n<text x=\"910\" y=\"{row}20\">") }
        (Side::Client, false) => {
            write!(
                output,
                "{row}50\"/>\n<text class=\"left\" x=\"1430\" y=\"{row}62\">"
            )
        }
    }
}

// Writes the text of an arrow.
fn write_label<W: Write>(output: &mut W, arrow: Arrow) -> io::Result<()>
    ensures { OnOk result
        (Appends (W.contents output.old) (W.contents output.new) (arrow_label arrow)) }
{
    writeln!(output, "{}</text>", ArrowText(arrow))
}

// Writes an arrow: from the height at which the packet was sent to the arrow's row.
fn write_arrow<W: Write>(output: &mut W, row: usize, arrow: Arrow) -> io::Result<()>
    ensures { OnOk result
        (Appends (W.contents output.old) (W.contents output.new) (arrow_lines row arrow)) }
{
    write_line(output, arrow.to, arrow.fate, arrow.sent)?;
    write_place(output, arrow.to, arrow.fate, row)?;
    write_label(output, arrow)
}

// The class of the text of a note.
fn look_of(note: &Note) -> &'static str
    ensures { result.now ≡ note_look note.now }
{
    match note {
        Note::Delivered(_) => "good",
        Note::Refused(_) | Note::Closed(_) | Note::Dropped => "bad",
        Note::Up(_) | Note::Accepted(_) | Note::Restarted | Note::Pong => "note",
    }
}

// Writes a note next to the line of its side.
fn write_note<W: Write>(output: &mut W, row: usize, side: Side, note: &Note) -> io::Result<()>
    ensures { OnOk result
        (Appends (W.contents output.old) (W.contents output.new) (note_lines row side note.now)) }
{
    let (look, text) = (look_of(note), NoteText(note));
    match side {
        Side::Client => writeln!(
            output,
            "<circle cx=\"850\" cy=\"{row}50\" r=\"12\"/>
<text class=\"left {look}\" x=\"800\" y=\"{row}62\">{text}</text>"
        ),
        Side::Server => writeln!(
            output,
            "<circle cx=\"1950\" cy=\"{row}50\" r=\"12\"/>
<text class=\"{look}\" x=\"2000\" y=\"{row}62\">{text}</text>"
        ),
    }
}

// Writes a row.
fn write_row<W: Write>(output: &mut W, number: usize, row: &Row) -> io::Result<()>
    ensures { OnOk result
        (Appends (W.contents output.old) (W.contents output.new) (row_lines number row.now)) }
{
    match row {
        Row::Arrow(arrow) => write_arrow(output, number, *arrow),
        Row::Note(side, note) => write_note(output, number, *side, note),
    }
}

// Writes rows from the first.
fn write_body<W: Write>(output: &mut W, rows: &[Row]) -> io::Result<()>
    ensures { OnOk result
        (Appends (W.contents output.old) (W.contents output.new) (body_lines rows.now)) }
{
    for (number, row) in rows.iter().enumerate() {
        write_row(output, number, row)?;
    }
    Ok(())
}

// Writes the last line.
fn write_end<W: Write>(output: &mut W) -> io::Result<()>
    ensures { OnOk result
        (Appends (W.contents output.old) (W.contents output.new) (codes "</svg>\n")) }
{
    writeln!(output, "</svg>")
}

/// Writes the rows of a diagram as an SVG image with colors for light and for dark mode. The lines
/// of client and server run from the top, and each row is at its height.
pub fn write_rows<W: Write>(rows: &[Row], output: &mut W) -> io::Result<()>
    ensures { OnOk result
        (Prints (W.contents output.old) (W.contents output.new) (IsImage rows.now)) }
{
    write_head(output, rows.len())?;
    write_body(output, rows)?;
    write_end(output)
}
