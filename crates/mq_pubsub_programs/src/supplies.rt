//! The payloads of the arguments of `mqtt pub`.

ghost use Rattle.std.specs.Prelude.{◌≡◌, ◌≢◌, ◌++◌, ◌∷◌, [], map, IfOk, OnOk};
ghost use Rattle.mq_pubsub_programs.specs.Prelude.{AreWanted, IsSupply};

use crate::common::{read_file, said, unread};
use crate::fault::Fault;
use crate::feed::Supply;
use crate::known::Known;
use crate::supply::{InputLines, payload_of};
use mq_packet::Payload;
use mq_pubsub::RunError;
use mq_pubsub_options::{Payloads, PublishWords};
use std::alloc::Global;
use std::fs::File;
use std::io::{Input, Read};
use std::rt::Files;

// The payload of bytes.
fn payload_from(alloc: Global, bytes: &[u8]) -> Result<Payload, Fault>
    ensures { IfOk result (λ payload. payload ≡ bytes.now) }
{
    match payload_of(alloc, bytes) {
        Ok(payload) => Ok(payload),
        Err(RunError::TooLarge) => Err(Fault::Said(String::from_str(
            alloc,
            "the message is too large for MQTT: publish less than 256 MB at once",
        )?)),
        Err(_) => Err(Fault::Memory),
    }
}

// Adds the payload of bytes to a list.
fn add(alloc: Global, payloads: &mut Vec<Payload>, bytes: &[u8]) -> Result<(), Fault>
    ensures { OnOk result (payloads.new.items ≡ payloads.old.items ++ bytes.now ∷ []) }
{
    match payloads.push(payload_from(alloc, bytes)?) {
        Ok(()) => Ok(()),
        Err(_) => Err(Fault::Memory),
    }
}

// The payload of bytes alone.
fn one(alloc: Global, bytes: &[u8]) -> Result<Vec<Payload>, Fault>
    ensures { IfOk result (λ payloads. payloads.items ≡ bytes.now ∷ []) }
{
    let mut payloads = Vec::new(alloc);
    add(alloc, &mut payloads, bytes)?;
    Ok(payloads)
}

// The payloads of texts.
fn all(alloc: Global, texts: &[&str]) -> Result<Vec<Payload>, Fault>
    ensures { IfOk result (λ payloads. payloads.items ≡ map (λ text. text.now) texts.now) }
{
    let mut payloads = Vec::new(alloc);
    for text in texts {
        add(alloc, &mut payloads, text.as_bytes())?;
    }
    Ok(payloads)
}

// The bytes of a file.
fn file_bytes<R: Files<File = File>>(rt: &R, alloc: Global, name: &str) -> Result<Vec<u8>, Fault> {
    match read_file(rt, alloc, name) {
        Ok(bytes) => Ok(bytes),
        Err(error) => Err(unread(alloc, "the file", name, error.kind())),
    }
}

// The standard input. An empty one is an error, as for mosquitto_pub.
fn whole_input<R: Input>(rt: &R, alloc: Global) -> Result<Vec<u8>, Fault>
    ensures { IfOk result (λ bytes. bytes.items ≢ []) }
{
    let mut bytes = Vec::new(alloc);
    if let Err(error) = rt.reader().read_to_end(&mut bytes) {
        return Err(unread(alloc, "standard input", "-", error.kind()));
    }
    if bytes.is_empty() {
        return Err(said(
            alloc,
            "standard input is empty: give -n to publish an empty message",
        ));
    }
    Ok(bytes)
}

// The payloads of one round. Those of lines are not known before.
fn round_of<R: Files<File = File> + Input>(
    rt: &R,
    alloc: Global,
    kind: &Payloads<'_>,
) -> Result<Vec<Payload>, Fault>
    ensures { IfOk result (λ payloads. AreWanted kind.now payloads.items) }
{
    match kind {
        Payloads::Texts(texts) => all(alloc, texts.as_slice()),
        Payloads::Empty => one(alloc, b""),
        Payloads::File(name) => {
            let bytes = file_bytes(rt, alloc, name)?;
            one(alloc, bytes.as_slice())
        }
        Payloads::Whole => {
            let bytes = whole_input(rt, alloc)?;
            one(alloc, bytes.as_slice())
        }
        Payloads::Lines => Ok(Vec::new(alloc)),
    }
}

/// The payloads that are known at the start, or the lines of standard input.
pub(crate) fn supply_of<R: Files<File = File> + Input>(
    rt: &R,
    alloc: Global,
    words: &PublishWords<'_>,
) -> Result<Supply, Fault>
    ensures { IfOk result (IsSupply words.now) }
{
    if let Payloads::Lines = &words.payloads {
        return match InputLines::new(alloc) {
            Ok(lines) => Ok(Supply::Lines(lines)),
            Err(_) => Err(Fault::Memory),
        };
    }
    let payloads = round_of(rt, alloc, &words.payloads)?;
    Ok(Supply::Known(Known::new(payloads, u64::from(words.repeat))))
}
