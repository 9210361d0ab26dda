//! The walk over the lines.

use crate::row::{Row, act_of, row_of};
use crate::subject::{Subject, new_subject};
use crate::words::Words;
use crate::wrong::Wrong;
use std::alloc::Global;
use std::io;

/// The state of a walk: the subject of the list, the last comment, and the last row's result and
/// state.
#[derive(Drop)]
struct Walk<'a> {
    subject: Subject,
    remark: &'a str,
    told: String,
    seen: String,
    counts: Counts,
}

/// How many lines, lists and rows there were, and how many differ.
#[derive(Clone, Copy)]
struct Counts {
    lines: u64,
    lists: u64,
    rows: u64,
    differ: u64,
}

// Adds one.
fn count(counter: &mut u64) {
    *counter = counter.saturating_add(1);
}

impl<'a> Walk<'a> {
    // No line was read.
    fn new(alloc: Global) -> Walk<'a> {
        Walk {
            subject: Subject::Nothing,
            remark: "",
            told: String::new(alloc),
            seen: String::new(alloc),
            counts: Counts {
                lines: 0,
                lists: 0,
                rows: 0,
                differ: 0,
            },
        }
    }

    // Begins a list.
    fn begin(&mut self, alloc: Global, text: &str) -> Result<(), Wrong> {
        count(&mut self.counts.lists);
        let mut words = Words::new(text);
        self.subject = new_subject(alloc, &mut words)?;
        if words.is_empty() {
            Ok(())
        } else {
            Err(Wrong::Words)
        }
    }

    fn come(&mut self, alloc: Global, row: Row<'_>) -> Result<bool, Wrong> {
        count(&mut self.counts.rows);
        self.told.clear();
        self.seen.clear();
        let act = act_of(row.act)?;
        for _ in 0..act.times {
            self.told.clear();
            self.subject.tell(alloc, act, &mut self.told)?;
        }
        self.subject.see(act.written, &mut self.seen)?;
        if row.seen.contains(" next ") {
            self.subject.see_next(&mut self.seen)?;
        }
        Ok(self.told.as_str() == row.told && self.seen.as_str() == row.seen)
    }

    fn take(&mut self, alloc: Global, line: &str) -> Result<bool, Wrong> {
        match line.strip_prefix("new ") {
            Some(text) => {
                self.begin(alloc, text)?;
                Ok(true)
            }
            None => self.come(alloc, row_of(line)),
        }
    }

    fn tell_row(&self, rt: &impl Print, line: &str) -> io::Result<()> {
        let (number, remark) = (self.counts.lines, self.remark);
        println!(rt; "line {number}: {remark}\n  {line}")?;
        println!(rt; "  came: {} | {}", self.told.as_str(), self.seen.as_str())
    }

    fn tell_wrong(&self, rt: &impl Print, line: &str, wrong: Wrong) -> io::Result<()> {
        let (number, remark) = (self.counts.lines, self.remark);
        println!(rt; "line {number}: {remark}\n  {line}\n  wrong: {wrong}")
    }

    fn walk_line(&mut self, rt: &impl Print, alloc: Global, line: &'a str) -> io::Result<()> {
        count(&mut self.counts.lines);
        if line.is_empty() {
            return Ok(());
        }
        if let Some(remark) = line.strip_prefix("# ") {
            self.remark = remark;
            return Ok(());
        }
        match self.take(alloc, line) {
            Ok(true) => return Ok(()),
            Ok(false) => self.tell_row(rt, line)?,
            Err(wrong) => self.tell_wrong(rt, line, wrong)?,
        }
        count(&mut self.counts.differ);
        Ok(())
    }

    // Takes each line of a text.
    fn walk_lines(&mut self, rt: &impl Print, alloc: Global, text: &'a str) -> io::Result<()> {
        for line in text.lines() {
            self.walk_line(rt, alloc, line)?;
        }
        Ok(())
    }
}

pub(crate) fn walk_text(rt: &impl Print, alloc: Global, text: &str) -> io::Result<bool> {
    let mut walk = Walk::new(alloc);
    walk.walk_lines(rt, alloc, text)?;
    let counts = walk.counts;
    println!(rt;
        "{} lists, {} rows, {} differ",
        counts.lists, counts.rows, counts.differ
    )?;
    Ok(counts.differ == 0)
}
