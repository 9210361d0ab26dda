//! The sections of a text.

/// A section: its first line, and those behind it.
#[derive(Clone, Copy)]
pub(crate) struct Section<'a> {
    pub(crate) kind: &'a str,
    pub(crate) text: &'a str,
}

pub(crate) fn next_section(text: &str) -> Option<(Section<'_>, &str)> {
    let (section, rest) = text.split_once("\n\n").unwrap_or((text, ""));
    let (kind, text) = section.split_once('\n')?;
    Some((Section { kind, text }, rest))
}
