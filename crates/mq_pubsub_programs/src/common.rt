//! Steps of both commands before their runs.

use crate::explain::unread_file;
use crate::fault::Fault;
use bytes::Bytes;
use mq_packet::{Binary, Login, Will};
use mq_pubsub::Setup;
use mq_pubsub_options::{Common, Defaults, WillOptions};
use mq_wire::{Text, TextFault};
use std::alloc::Global;
use std::fs::File;
use std::io::{ErrorKind, Read};
use std::random::RandomSource;
use std::rt::{Env, Files};
use std::{env, io};

/// The bytes of a made-up identifier.
const RANDOM: usize = 8;

// A variable of the environment, if it is there and not empty.
fn variable<R: Env + AllocGlobal>(rt: &R, name: &str) -> Option<String> {
    match env::var(rt, name) {
        Ok(text) if !text.is_empty() => Some(text),
        _ => None,
    }
}

/// The defaults of the environment.
pub(crate) fn defaults_of<R: Env + AllocGlobal>(rt: &R) -> Defaults {
    Defaults {
        host: variable(rt, "MQTT_HOST"),
        port: variable(rt, "MQTT_PORT"),
        user: variable(rt, "MQTT_USER"),
        password: variable(rt, "MQTT_PASSWORD"),
    }
}

/// Reads a whole file.
pub(crate) fn read_file<R: Files<File = File>>(
    rt: &R,
    alloc: Global,
    name: &str,
) -> io::Result<Vec<u8>> {
    let mut bytes = Vec::new(alloc);
    let mut file = File::open(rt, name)?;
    file.read_to_end(&mut bytes)?;
    Ok(bytes)
}

/// The error of a file that cannot be read.
pub(crate) fn unread(alloc: Global, what: &str, name: &str, kind: ErrorKind) -> Fault {
    if kind == ErrorKind::OutOfMemory {
        return Fault::Memory;
    }
    let why = unread_file(kind);
    match format!(in alloc; "{what} '{name}' cannot be read: {why}; check the name") {
        Ok(said) => Fault::Said(said),
        Err(_) => Fault::Memory,
    }
}

/// A sentence as an error.
pub(crate) fn said(alloc: Global, sentence: &str) -> Fault {
    match String::from_str(alloc, sentence) {
        Ok(sentence) => Fault::Said(sentence),
        Err(_) => Fault::Memory,
    }
}

// The first line of a file.
fn first_line(bytes: &[u8]) -> &[u8] {
    let line = match bytes.iter().position(|byte| *byte == b'\n') {
        Some(place) => &bytes[..place.min(bytes.len())],
        None => bytes,
    };
    match line {
        [line @ .., b'\r'] => line,
        line => line,
    }
}

// Bytes for a field of a packet, at most 65,535.
fn binary_of(alloc: Global, bytes: &[u8], option: &str) -> Result<Binary, Fault> {
    match Binary::new(Bytes::copy_from_slice(alloc, bytes)?) {
        Some(binary) => Ok(binary),
        None => Err(Fault::Said(format!(in alloc;
            "the value of {option} has more than 65,535 bytes: give a shorter one"
        )?)),
    }
}

// A text for a field of a packet.
fn text_of(alloc: Global, text: &str, option: &str) -> Result<Text, Fault> {
    match Text::new(alloc, text) {
        Ok(text) => Ok(text),
        Err(TextFault::Memory) => Err(Fault::Memory),
        Err(TextFault::TooLong | TextFault::Nul) => Err(Fault::Said(format!(in alloc;
            "the value of {option} has more than 65,535 bytes or the character U+0000: give another one"
        )?)),
    }
}

// The password in the options, in a file or in the environment.
fn password_of<R: Files<File = File>>(
    rt: &R,
    alloc: Global,
    common: &Common,
) -> Result<Option<Binary>, Fault> {
    if let Some(name) = &common.password_file {
        return match read_file(rt, alloc, name.as_str()) {
            Ok(bytes) => Ok(Some(binary_of(
                alloc,
                first_line(bytes.as_slice()),
                "--password-file",
            )?)),
            Err(error) => Err(unread(alloc, "the password file", name.as_str(), error.kind())),
        };
    }
    match &common.address.password {
        Some(password) => Ok(Some(binary_of(alloc, password.as_str().as_bytes(), "-P")?)),
        None => Ok(None),
    }
}

// The user name and the password.
fn login_of<R: Files<File = File>>(
    rt: &R,
    alloc: Global,
    common: &Common,
) -> Result<Option<Login>, Fault> {
    let password = password_of(rt, alloc, common)?;
    match &common.address.user {
        Some(user) => Ok(Some(Login {
            name: text_of(alloc, user.as_str(), "-u")?,
            password,
        })),
        None => {
            if password.is_some() {
                return Err(said(alloc, "a password needs a user name: give -u USER"));
            }
            Ok(None)
        }
    }
}

// The will in the options.
fn will_of(alloc: Global, will: &Option<WillOptions>) -> Result<Option<Will>, Fault> {
    match will {
        Some(will) => Ok(Some(Will {
            topic: will.topic.clone()?,
            message: binary_of(alloc, will.payload.as_str().as_bytes(), "--will-payload")?,
            qos: will.qos,
            retain: will.retain,
        })),
        None => Ok(None),
    }
}

// A client identifier that no other client has, as far as chance goes.
fn made_up<R: RandomSource>(rt: &R, alloc: Global, command: &str) -> Result<Text, Fault> {
    let mut random = [0u8; RANDOM];
    if rt.fill_bytes(&mut random).is_err() {
        return Err(said(
            alloc,
            "no client identifier can be made up: give one with -i ID",
        ));
    }
    let number = u64::from_be_bytes(random);
    let id = format!(in alloc; "mqtt-{command}-{number:016x}")?;
    text_of(alloc, id.as_str(), "-i")
}

/// The identifier of the client: that of `-i`, that of a saved session, or a made-up one.
pub(crate) fn identifier<R: RandomSource>(
    rt: &R,
    alloc: Global,
    command: &str,
    common: &Common,
    saved: Option<&Text>,
) -> Result<Text, Fault> {
    if let Some(id) = &common.id {
        return text_of(alloc, id.as_str(), "-i");
    }
    match saved {
        Some(id) => Ok(id.clone()?),
        None => made_up(rt, alloc, command),
    }
}

/// The configuration of a client with this identifier.
pub(crate) fn setup_of<R: Files<File = File>>(
    rt: &R,
    alloc: Global,
    common: &Common,
    id: Text,
) -> Result<Setup, Fault> {
    Ok(Setup {
        id,
        keep_alive: common.keep_alive,
        will: will_of(alloc, &common.will)?,
        login: login_of(rt, alloc, common)?,
    })
}

/// After how many milliseconds without a byte a connection counts as lost: one and a half times the
/// keep-alive.
pub(crate) fn patience_of(keep_alive: u16) -> Option<u64> {
    match keep_alive {
        0 => None,
        seconds => Some(u64::from(seconds) * 1_500),
    }
}
