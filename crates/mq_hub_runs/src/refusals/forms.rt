//! Saved forms that are loaded and saved again.

ghost use Rattle.std.specs.Prelude.{◌<◌, IfOk, IfSome};

use crate::refusals::outcome::Outcome;
use crate::refusals::ran::{Ran, outcome};
use crate::rows::events::bytes_of;
use crate::rows::told::add_digits;
use crate::rows::wrong::Wrong;
use mq_decode::Limits;
use mq_end::{ClientConfig, ClientEnd};
use mq_flow::{LoadError, Saved, Session};
use mq_wire::{Text, TextFault};
use std::alloc::Global;

fn config(alloc: Global) -> Result<ClientConfig, Wrong>
    ensures { IfOk result (λ c. IfSome c.window (λ window. 0 < window)) }
{
    let id = match Text::new(alloc, "w") {
        Ok(id) => id,
        Err(TextFault::Memory) => return Err(Wrong::Memory),
        Err(_) => return Err(Wrong::Words),
    };
    Ok(ClientConfig {
        id,
        keep_alive: 0,
        will: None,
        login: None,
        limits: Limits::new(1_048_576).ok_or(Wrong::Words)?,
        capacity: 4,
        window: None,
    })
}

fn load(alloc: Global, bytes: &[u8], ran: &mut Ran) -> Result<Saved, LoadError> {
    match Saved::load(alloc, bytes) {
        Err(LoadError::Memory) => {
            ran.ask_again();
            Saved::load(alloc, bytes)
        }
        loaded => loaded,
    }
}

fn load_session(alloc: Global, bytes: &[u8], ran: &mut Ran) -> Result<Session, LoadError> {
    match Session::load(alloc, bytes) {
        Err(LoadError::Memory) => {
            ran.ask_again();
            Session::load(alloc, bytes)
        }
        loaded => loaded,
    }
}

fn save(end: &ClientEnd, out: &mut Vec<u8>, ran: &mut Ran) -> Result<(), Wrong> {
    let before = out.len();
    if end.save(out).is_err() {
        ran.ask_again();
        if out.len() != before {
            ran.whole = false;
        }
        end.save(out)?;
    }
    Ok(())
}

fn save_session(session: &Session, out: &mut Vec<u8>, ran: &mut Ran) -> Result<(), Wrong> {
    let before = out.len();
    if session.save(out).is_err() {
        ran.ask_again();
        if out.len() != before {
            ran.whole = false;
        }
        session.save(out)?;
    }
    Ok(())
}

fn go_on(alloc: Global, saved: Saved, ran: &mut Ran) -> Result<(), Wrong> {
    let config = config(alloc)?;
    let mut out = vec![in alloc; 7]?;
    match ClientEnd::with_saved(alloc, config, saved) {
        Ok(end) => {
            save(&end, &mut out, ran)?;
            add_digits(&mut ran.lines, out.as_slice())?;
        }
        Err(why) => ran.lines.push_str(why.code())?,
    }
    Ok(ran.lines.push('\n')?)
}

/// A form is loaded as a client's, and saved by an end.
fn of_client(alloc: Global, bytes: &[u8], ran: &mut Ran) -> Result<(), Wrong> {
    match load(alloc, bytes, ran) {
        Ok(saved) => go_on(alloc, saved, ran),
        Err(why) => Ok(writeln!(ran.lines, "{why:?}")?),
    }
}

/// A form is loaded as a session's, and saved.
fn of_session(alloc: Global, bytes: &[u8], ran: &mut Ran) -> Result<(), Wrong> {
    let mut out = vec![in alloc; 7]?;
    match load_session(alloc, bytes, ran) {
        Ok(session) => {
            save_session(&session, &mut out, ran)?;
            add_digits(&mut ran.lines, out.as_slice())?;
        }
        Err(why) => write!(ran.lines, "{why:?}")?,
    }
    Ok(ran.lines.push('\n')?)
}

fn run(alloc: Global, text: &str) -> Result<Ran, Wrong> {
    let mut ran = Ran::new(alloc)?;
    for line in text.lines() {
        let bytes = bytes_of(alloc, line)?;
        of_client(alloc, bytes.as_slice(), &mut ran)?;
        of_session(alloc, bytes.as_slice(), &mut ran)?;
    }
    Ok(ran)
}

/// Forms are loaded, and saved again, twice.
pub(crate) fn judge(alloc: Global, text: &str) -> Result<Outcome, Wrong> {
    let first = run(alloc, text)?;
    let second = run(alloc, text)?;
    Ok(outcome(&first, &second))
}
