//! A row, as its line says it.

use crate::words::Words;
use crate::wrong::Wrong;

/// A row: an act, its result, and the state afterwards.
#[derive(Clone, Copy)]
pub(crate) struct Row<'a> {
    pub(crate) act: &'a str,
    pub(crate) told: &'a str,
    pub(crate) seen: &'a str,
}

fn parts<'a>(text: &'a str, mark: &str) -> (&'a str, &'a str) {
    text.split_once(mark).unwrap_or((text, ""))
}

/// The row of a line.
pub(crate) fn row_of(line: &str) -> Row<'_> {
    let (front, seen) = parts(line, " | ");
    let (act, told) = parts(front, " = ");
    Row { act, told, seen }
}

/// The act: its words, its time and repetitions, and the number of output bytes to write, if not
/// all.
#[derive(Clone, Copy)]
pub(crate) struct RowAct<'a> {
    pub(crate) words: Words<'a>,
    pub(crate) moment: u64,
    pub(crate) times: u64,
    pub(crate) written: Option<usize>,
}

/// The act of a row.
pub(crate) fn act_of(text: &str) -> Result<RowAct<'_>, Wrong> {
    let mut words = Words::new(text);
    let moment = words.after("at")?.unwrap_or(0);
    let times = words.after("times")?.unwrap_or(1);
    let written = words.after("writing")?.map(|bytes| bytes as usize);
    Ok(RowAct {
        words,
        moment,
        times,
        written,
    })
}
