//! Text in HTML.

ghost use Rattle.std.specs.Prelude.{Some};
ghost use Rattle.mq_status.specs.Prelude.{DisplaysOnOk, escaped_byte, HtmlLaws, html_byte, html_escaped};

use std::fmt;

/// Displays a text for the content or a quoted attribute of an element of HTML. `<`, `>`, `&`, `"`
/// and `'` become entities. Other bytes are displayed as by [`mq_packet::Escaped`].
#[derive(Clone, Copy)]
pub struct HtmlEscaped<'a>(pub &'a str);

// Writes a byte as `mq_packet::Escaped` does.
fn write_escaped<W: fmt::Write>(f: &mut fmt::Formatter<W>, byte: u8) -> fmt::Result
    ensures { DisplaysOnOk W.write_str_gives f.old result (Some (escaped_byte byte)) f.new }
{
    if byte.is_ascii_graphic() && byte != b'%' {
        return f.write_char(char::from(byte));
    }
    let (high, low) = (byte / 16, byte % 16);
    write!(f, "%{high:x}{low:x}")
}

// Writes a byte, or its entity.
fn write_byte<W: fmt::Write>(f: &mut fmt::Formatter<W>, byte: u8) -> fmt::Result
    ensures { DisplaysOnOk W.write_str_gives f.old result (Some (html_byte byte)) f.new }
{
    match byte {
        b'<' => f.write_str("&lt;"),
        b'>' => f.write_str("&gt;"),
        b'&' => f.write_str("&amp;"),
        b'"' => f.write_str("&quot;"),
        b'\'' => f.write_str("&#39;"),
        _ => write_escaped(f, byte),
    }
}

impl fmt::Display for HtmlEscaped<'_> {
    ghost output = { λ text. Some (html_escaped text.0.now) };

    fn fmt<W: fmt::Write>(&self, f: &mut fmt::Formatter<W>) -> fmt::Result {
        for byte in self.0.as_bytes() {
            write_byte(f, *byte)?;
        }
        Ok(())
    }
}

/// The law of escaped text: HTML reads it as text, whatever it is made from.
pub fn html_laws()
    ensures { HtmlLaws }
{}
