//! Saved forms of sessions, and loading them.

use crate::clients::go_on_with;
use crate::fields::bytes_of;
use crate::words::Words;
use crate::wrong::Wrong;
use mq_flow::{LoadError, Saved, Session};
use std::alloc::Global;

fn add_same(told: &mut String, saved: &[u8], bytes: &[u8]) -> Result<(), Wrong> {
    told.push_str(if saved == bytes {
        "the same"
    } else {
        "another"
    })?;
    Ok(())
}

fn add_session(
    alloc: Global,
    told: &mut String,
    session: &Session,
    bytes: &[u8],
) -> Result<(), Wrong> {
    let mut out = Vec::new(alloc);
    session.save(&mut out)?;
    add_same(told, out.as_slice(), bytes)
}

fn load(alloc: Global, told: &mut String, bytes: &[u8]) -> Result<(), Wrong> {
    match Session::load(alloc, bytes) {
        Ok(session) => add_session(alloc, told, &session, bytes),
        Err(why) => Ok(write!(told, "{why:?}")?),
    }
}

// Adds whose session was loaded.
fn add_whose(told: &mut String, saved: &Saved) -> Result<(), Wrong> {
    match &saved.client {
        Some(client) => write!(told, "client {}, ", client.as_str())?,
        None => told.push_str("no client, ")?,
    }
    if saved.established {
        told.push_str("established, ")?;
    }
    Ok(())
}

fn again(saved: &Saved, out: &mut Vec<u8>) -> Result<(), Wrong> {
    match &saved.client {
        Some(client) => saved
            .session
            .save_with_client(client, saved.established, out)?,
        None => saved.session.save(out)?,
    }
    Ok(())
}

fn add_saved(alloc: Global, told: &mut String, saved: &Saved, bytes: &[u8]) -> Result<(), Wrong> {
    let mut out = Vec::new(alloc);
    again(saved, &mut out)?;
    add_whose(told, saved)?;
    add_same(told, out.as_slice(), bytes)
}

fn load_saved(alloc: Global, told: &mut String, bytes: &[u8]) -> Result<(), Wrong> {
    match Saved::load(alloc, bytes) {
        Ok(saved) => add_saved(alloc, told, &saved, bytes),
        Err(why) => Ok(write!(told, "{why:?}")?),
    }
}

// Puts bytes in the place of those from a place on.
fn put(bytes: &mut Vec<u8>, form: &[u8], place: usize, others: &[u8]) -> Result<(), Wrong> {
    bytes.extend_from_slice(form.get(..place).ok_or(Wrong::Words)?)?;
    bytes.extend_from_slice(others)?;
    if let Some(rest) = form.get(bytes.len()..) {
        bytes.extend_from_slice(rest)?;
    }
    Ok(())
}

fn load_with(
    alloc: Global,
    form: &[u8],
    words: &mut Words<'_>,
    told: &mut String,
) -> Result<(), Wrong> {
    let place: usize = words.number()?;
    let others = bytes_of(alloc, words)?;
    let mut bytes = Vec::new(alloc);
    put(&mut bytes, form, place, others.as_slice())?;
    load(alloc, told, bytes.as_slice())
}

fn load_behind(
    alloc: Global,
    form: &[u8],
    words: &mut Words<'_>,
    told: &mut String,
) -> Result<(), Wrong> {
    let mut bytes = bytes_of(alloc, words)?;
    bytes.extend_from_slice(form)?;
    load_saved(alloc, told, bytes.as_slice())
}

// Whether a front of a form is not loaded, and its bad field is not behind its end.
fn is_short(alloc: Global, front: &[u8]) -> bool {
    match Saved::load(alloc, front) {
        Ok(_) => false,
        Err(LoadError::Malformed { place }) => 4 <= place && place <= front.len(),
        Err(why) => why == LoadError::Version && front.len() < 4,
    }
}

// `first COUNT`: loads this many bytes. `fronts`: the sizes of the prefixes of the form that load,
// or whose invalid field is behind their end.
fn add_fronts(alloc: Global, form: &[u8], told: &mut String) -> Result<(), Wrong> {
    for length in 0..form.len() {
        let (front, _) = form.split_at(length);
        if !is_short(alloc, front) {
            write!(told, "{length} ")?;
        }
    }
    Ok(())
}

pub(crate) fn tell(
    alloc: Global,
    form: &[u8],
    words: &mut Words<'_>,
    told: &mut String,
) -> Result<(), Wrong> {
    match words.word()? {
        "with" => load_with(alloc, form, words, told),
        "first" => {
            let length: usize = words.number()?;
            load(alloc, told, form.get(..length).ok_or(Wrong::Words)?)
        }
        "behind" => load_behind(alloc, form, words, told),
        "client" => go_on_with(alloc, form, words, told),
        "fronts" => add_fronts(alloc, form, told),
        _ => Err(Wrong::Words),
    }
}
