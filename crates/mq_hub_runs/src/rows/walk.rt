//! The walk over the lines.

use crate::rows::brokers::Brokers;
use crate::rows::wrong::Wrong;
use std::alloc::Global;
use std::io;

// The state of a walk: the brokers of the list, the last comment, and the last row's result.
#[derive(Drop)]
struct Walk<'a> {
    brokers: Option<Box<Brokers>>,
    remark: &'a str,
    told: String,
    counts: Counts,
}

// How many lines, lists and rows there were, and how many differ.
#[derive(Clone, Copy)]
struct Counts {
    lines: u64,
    lists: u64,
    rows: u64,
    differ: u64,
}

// Adds one.
fn count(counter: &mut u64) {
    *counter = counter.saturating_add(1);
}

impl<'a> Walk<'a> {
    // No line was read.
    fn new(alloc: Global) -> Walk<'a> {
        Walk {
            brokers: None,
            remark: "",
            told: String::new(alloc),
            counts: Counts {
                lines: 0,
                lists: 0,
                rows: 0,
                differ: 0,
            },
        }
    }

    // Begins a list.
    fn begin(&mut self, alloc: Global, words: &str) -> Result<(), Wrong> {
        count(&mut self.counts.lists);
        let brokers = Brokers::new(alloc, words)?;
        self.brokers = Some(Box::new(alloc, brokers)?);
        Ok(())
    }

    // Performs the act of a row. Returns whether it has the row's result.
    fn come(&mut self, line: &str) -> Result<bool, Wrong> {
        count(&mut self.counts.rows);
        self.told.clear();
        let (act, wanted) = line.split_once(" = ").unwrap_or((line, ""));
        match &mut self.brokers {
            Some(brokers) => brokers.tell(act, &mut self.told)?,
            None => return Err(Wrong::Words),
        }
        Ok(self.told.as_str() == wanted)
    }

    fn take(&mut self, alloc: Global, line: &str) -> Result<bool, Wrong> {
        match line.strip_prefix("new broker") {
            Some(words) => {
                self.begin(alloc, words)?;
                Ok(true)
            }
            None => self.come(line),
        }
    }

    fn tell_row(&self, rt: &impl Print, line: &str) -> io::Result<()> {
        let (number, remark) = (self.counts.lines, self.remark);
        println!(rt; "line {number}: {remark}\n  {line}")?;
        println!(rt; "  came: {}", self.told.as_str())
    }

    fn tell_wrong(&self, rt: &impl Print, line: &str, wrong: Wrong) -> io::Result<()> {
        let (number, remark) = (self.counts.lines, self.remark);
        println!(rt; "line {number}: {remark}\n  {line}\n  wrong: {wrong}")
    }

    fn walk_line(&mut self, rt: &impl Print, alloc: Global, line: &'a str) -> io::Result<()> {
        count(&mut self.counts.lines);
        if line.is_empty() {
            return Ok(());
        }
        if let Some(remark) = line.strip_prefix("# ") {
            self.remark = remark;
            return Ok(());
        }
        match self.take(alloc, line) {
            Ok(true) => return Ok(()),
            Ok(false) => self.tell_row(rt, line)?,
            Err(wrong) => self.tell_wrong(rt, line, wrong)?,
        }
        count(&mut self.counts.differ);
        Ok(())
    }

    // Takes each line of a text.
    fn walk_lines(&mut self, rt: &impl Print, alloc: Global, text: &'a str) -> io::Result<()> {
        for line in text.lines() {
            self.walk_line(rt, alloc, line)?;
        }
        Ok(())
    }
}

/// Whether no row of a text differs. Prints those that do, and the counts.
pub(crate) fn walk_text(rt: &impl Print, alloc: Global, text: &str) -> io::Result<bool> {
    let mut walk = Walk::new(alloc);
    walk.walk_lines(rt, alloc, text)?;
    let counts = walk.counts;
    println!(rt;
        "{} lists, {} rows, {} differ",
        counts.lists, counts.rows, counts.differ
    )?;
    Ok(counts.differ == 0)
}
