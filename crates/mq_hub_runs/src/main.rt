//! Runs brokers in memory.
//!
//! - `rows` reads rows of events from the standard input, as `rows.rt` describes them, and prints
//!   each row whose result differs.
//! - `refusals` reads sections, as `refusals.rt` describes them, which `.ci/refusals` runs with an
//!   allocation that fails.
//! - `bench` measures a broker. Packets and a client are measured through the library for C, and
//!   brokers over sockets, in `bench/`.
//!
//! The status is 1 if a row or an outcome is wrong, 2 if the arguments or a section can't be read,
//! and 3 if an allocation of the program itself fails.
#![tactic(auto)]

mod bench;
mod clients;
mod refusals;
mod rows;

use rows::wrong::Wrong;
use std::process::ExitCode;
use std::rt::Clock;
use std::{env, io};

fn run_rows(rt: &HostRuntime) -> Result<bool, Wrong> {
    let text = io::read_to_string(rt.alloc(), rt.reader())?;
    Ok(rows::walk_text(rt, rt.alloc(), text.as_str())?)
}

fn run_refusals(rt: &HostRuntime) -> Result<bool, Wrong> {
    let text = io::read_to_string(rt.alloc(), rt.reader())?;
    refusals::judge_all(rt, rt.alloc(), text.as_str())
}

fn run_bench<R: AllocGlobal + Print + Eprint + Clock>(rt: &R) -> Result<bool, Wrong> {
    match bench::measure(rt, rt.alloc()) {
        Ok(()) => Ok(true),
        Err(error) => {
            eprintln!(rt; "{error:#}")?;
            Ok(false)
        }
    }
}

fn refuse(rt: &impl Eprint) -> Result<bool, Wrong> {
    eprintln!(rt; "usage: mq_hub_runs rows|refusals|bench")?;
    Err(Wrong::Words)
}

fn perform(rt: &HostRuntime) -> Result<bool, Wrong> {
    let words: Vec<String> = env::args(rt)?.skip(1).collect(rt.alloc())?;
    let [word] = words.as_slice() else {
        return refuse(rt);
    };
    match word.as_str() {
        "rows" => run_rows(rt),
        "refusals" => run_refusals(rt),
        "bench" => run_bench(rt),
        _ => refuse(rt),
    }
}

fn main(rt: HostRuntime) -> ExitCode {
    match perform(&rt) {
        Ok(true) => ExitCode::SUCCESS,
        Ok(false) => ExitCode::from(1),
        Err(Wrong::Memory) => ExitCode::from(3),
        Err(_) => ExitCode::from(2),
    }
}
