//! Printed bytes as text.

use std::alloc::Global;
use std::test::Fail;

/// The text of printed bytes.
pub(crate) fn text_of(alloc: Global, printed: &[u8]) -> Result<String, Fail> {
    let text = std::str::from_utf8(printed).ok().ok_or("not UTF-8")?;
    Ok(text.to_string(alloc)?)
}
