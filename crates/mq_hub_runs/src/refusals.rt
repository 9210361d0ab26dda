//! Runs each section of a text twice, and compares the results. If one of all allocations is
//! refused, that happens in one of the two runs or in neither; the other one is the reference.
//!
//! Sections are separated by empty lines. `broker` is followed by events as in `rows.rt`; `form` by
//! saved forms of a session in hexadecimal digits; `store` by calls of a store: `set 0 a/+ 1`,
//! `match a/b`, `remove 0 a/+`, `leave 0`. A first line `spend 12` makes this many allocations
//! before the sections.
//!
//! Prints for each section `the same`; `out of memory` if a form was not saved and its previous
//! results are the same; `asked again` if a call was refused, changed nothing, and was repeated;
//! `goes on` if the first different result names the refusal; or `another answer`, which is a
//! failure.

mod brokers;
mod forms;
mod outcome;
mod ran;
mod section;
mod stores;

use crate::rows::wrong::Wrong;
use outcome::Outcome;
use section::{Section, next_section};
use std::alloc::{AllocError, Global};

fn spend(alloc: Global, count: usize) -> Result<usize, AllocError> {
    let mut spent = Vec::with_capacity(alloc, count)?;
    for _ in 0..count {
        spent.push(Vec::<u8>::with_capacity(alloc, 1)?)?;
    }
    Ok(spent.len())
}

fn spent(alloc: Global, text: &str) -> Result<&str, Wrong> {
    let Some(rest) = text.strip_prefix("spend ") else {
        return Ok(text);
    };
    let (count, rest) = rest.split_once('\n').ok_or(Wrong::Words)?;
    spend(alloc, count.parse().ok().ok_or(Wrong::Words)?)?;
    Ok(rest)
}

fn judge(alloc: Global, section: Section<'_>) -> Result<Outcome, Wrong> {
    match section.kind {
        "broker" => brokers::judge(alloc, section.text),
        "store" => stores::judge(alloc, section.text),
        "form" => forms::judge(alloc, section.text),
        _ => Err(Wrong::Words),
    }
}

/// Judges each section. Returns whether each outcome is allowed.
pub(crate) fn judge_all(rt: &impl Print, alloc: Global, text: &str) -> Result<bool, Wrong> {
    let mut rest = spent(alloc, text)?;
    let mut fine = true;
    for _ in 0..text.len() {
        let Some((section, after)) = next_section(rest) else {
            break;
        };
        let outcome = judge(alloc, section)?;
        fine &= outcome.may_come();
        println!(rt; "{}: {outcome}", section.kind)?;
        rest = after;
    }
    Ok(fine)
}
