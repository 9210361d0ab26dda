//! Text in the language of manual pages.

ghost use Rattle.std.specs.Prelude.{◌≡◌, ◌++◌, OnOk, codes, option_map, string_bytes};
ghost use Rattle.std.specs.List.{flat_map};
ghost use Rattle.std.specs.Str.Lines.{lines};
ghost use Rattle.mq_manual.specs.Roff.{block, bold, escape_of, italic, plain, plain_line, request};

use std::alloc::AllocError;

// The form of a character that the formatter does not print as it is.
fn escape_of(character: char) -> Option<&'static str>
    ensures { option_map (λ escape. escape.now) result ≡ escape_of character }
{
    match character {
        '\\' => Some("\\e"),
        '-' => Some("\\-"),
        '\'' => Some("\\(aq"),
        '`' => Some("\\(ga"),
        '"' => Some("\\(dq"),
        '^' => Some("\\(ha"),
        '~' => Some("\\(ti"),
        _ => None,
    }
}

/// Appends a text that is printed as it is.
pub(crate) fn push_plain(page: &mut String, text: &str) -> Result<(), AllocError>
    ensures { OnOk result (string_bytes page.new ≡ string_bytes page.old ++ plain text.now) }
{
    for character in text.chars() {
        match escape_of(character) {
            Some(escape) => page.push_str(escape)?,
            None => page.push(character)?,
        }
    }
    Ok(())
}

/// Appends a text in bold.
pub(crate) fn push_bold(page: &mut String, text: &str) -> Result<(), AllocError>
    ensures { OnOk result (string_bytes page.new ≡ string_bytes page.old ++ bold text.now) }
{
    page.push_str("\\fB")?;
    push_plain(page, text)?;
    page.push_str("\\fR")
}

/// Appends a text in italics.
pub(crate) fn push_italic(page: &mut String, text: &str) -> Result<(), AllocError>
    ensures { OnOk result (string_bytes page.new ≡ string_bytes page.old ++ italic text.now) }
{
    page.push_str("\\fI")?;
    push_plain(page, text)?;
    page.push_str("\\fR")
}

/// Appends a line of text, which is no request even if it begins with a point.
pub(crate) fn push_line(page: &mut String, line: &str) -> Result<(), AllocError>
    ensures { OnOk result (string_bytes page.new ≡ string_bytes page.old ++ plain_line line.now) }
{
    page.push_str("\\&")?;
    push_plain(page, line)?;
    page.push_str("\n")
}

/// Appends a request with a text as its argument.
pub(crate) fn push_request(page: &mut String, name: &str, text: &str) -> Result<(), AllocError>
    ensures { OnOk result (string_bytes page.new ≡ string_bytes page.old ++ request name.now text.now) }
{
    write!(page, ".{name} \"")?;
    push_plain(page, text)?;
    page.push_str("\"\n")
}

// Appends the lines of a text.
fn push_lines(page: &mut String, text: &str) -> Result<(), AllocError>
    ensures { OnOk result (string_bytes page.new ≡ string_bytes page.old
        ++ flat_map plain_line (lines text.now)) }
{
    for line in text.lines() {
        push_line(page, line)?;
    }
    Ok(())
}

/// Appends a paragraph whose lines stay as they are.
pub(crate) fn push_block(page: &mut String, text: &str) -> Result<(), AllocError>
    ensures { OnOk result (string_bytes page.new ≡ string_bytes page.old ++ block text.now) }
{
    page.push_str(".PP\n.nf\n")?;
    push_lines(page, text)?;
    page.push_str(".fi\n")
}
