//! Texts in JSON.

ghost use Rattle.std.specs.Prelude.{◌≡◌, ◌++◌, OnOk};
ghost use Rattle.mq_format.specs.Prelude.{escaped_byte, quoted};

use crate::pad::put_hexadecimal;
use std::alloc::AllocError;

// Appends a byte of a text, escaped if JSON asks for it.
fn put_escaped(out: &mut Vec<u8>, byte: u8) -> Result<(), AllocError>
    ensures { OnOk result (out.new.items ≡ out.old.items ++ escaped_byte byte) }
{
    match byte {
        b'"' => out.extend_from_slice(b"\\\""),
        b'\\' => out.extend_from_slice(b"\\\\"),
        8 => out.extend_from_slice(b"\\b"),
        12 => out.extend_from_slice(b"\\f"),
        b'\n' => out.extend_from_slice(b"\\n"),
        b'\r' => out.extend_from_slice(b"\\r"),
        b'\t' => out.extend_from_slice(b"\\t"),
        0..=31 => {
            out.extend_from_slice(b"\\u00")?;
            put_hexadecimal(out, &[byte], false)
        }
        _ => out.extend_from_slice(&[byte]),
    }
}

/// Appends a text in quotation marks.
pub(crate) fn put_quoted(out: &mut Vec<u8>, text: &[u8]) -> Result<(), AllocError>
    ensures { OnOk result (out.new.items ≡ out.old.items ++ quoted text.now) }
{
    out.extend_from_slice(b"\"")?;
    for byte in text {
        put_escaped(out, *byte)?;
    }
    out.extend_from_slice(b"\"")
}
