//! The file `snapshot`.

ghost use Rattle.std.specs.Prelude.{◌≡◌, ◌++◌, IfOk};
ghost use Rattle.mq_store.specs.Prelude.{IsKeptWhole, snapshot, config_bytes, text_bytes, file_signature, parts_of, saved_file, with_digest};

use crate::configuration::put_text;
use crate::fault::StoreError;
use crate::saved_config::{read_config, read_sized, split};
use mq_hub::Hub;
use mq_snapshot::{put_eight, read_eight};
use sha2::{Digest, Sha256};
use std::alloc::{AllocError, Global};

// `MQD`, and the version.
const SIGNATURE: [u8; 4] = [0x4d, 0x51, 0x44, 1];

// The number of bytes of a digest.
const DIGEST_LEN: u64 = 32;

// The parts of the file, without the digest.
#[tactic(auto, using(std::proofs::Common::append_assoc))]
fn parts_bytes(alloc: Global, nth: u64, config: &[u8], hub: &[u8]) -> Result<Vec<u8>, AllocError>
    ensures { IfOk result (λ bytes. bytes.items ≡ parts_of nth config.now hub.now) }
{
    let mut out = Vec::new(alloc);
    out.extend_from_slice(&SIGNATURE)?;
    put_eight(&mut out, nth)?;
    put_text(&mut out, config)?;
    put_text(&mut out, hub)?;
    Ok(out)
}

/// The file of a broker with this configuration. The events after it are in the journal of this
/// number.
pub(crate) fn snapshot_bytes(
    alloc: Global,
    nth: u64,
    config: &[u8],
    hub: &Hub,
) -> Result<Vec<u8>, AllocError>
    ensures { IfOk result (λ bytes. bytes.items ≡ saved_file nth config.now hub.now) }
{
    let saved = hub.save()?;
    let mut out = parts_bytes(alloc, nth, config, saved.as_slice())?;
    let digest = Sha256::digest(out.as_slice());
    out.extend_from_slice(&digest)?;
    Ok(out)
}

/// The parts of a file, of which each is a part of its bytes.
#[derive(Clone, Copy)]
pub(crate) struct Parts<'a> {
    /// The number of the journal.
    pub(crate) nth: u64,
    /// The configuration.
    pub(crate) config: &'a [u8],
    /// The broker.
    pub(crate) hub: &'a [u8],
}

// The bytes in front of the digest, which must be that of these bytes.
#[tactic(auto, using(crate::proofs::Splits::in_front))]
fn checked(bytes: &[u8]) -> Result<&[u8], StoreError>
    ensures { IfOk result (λ front. bytes.now ≡ with_digest front.now) }
{
    let size = (bytes.len() as u64).saturating_sub(DIGEST_LEN);
    let (front, digest) = split(bytes, size)?;
    let found = Sha256::digest(front);
    if found.as_slice() == digest {
        Ok(front)
    } else {
        Err(StoreError::Snapshot)
    }
}

// The bytes behind the signature.
fn behind_signature(bytes: &[u8]) -> Result<&[u8], StoreError>
    ensures { IfOk result (λ rest. bytes.now ≡ file_signature ++ rest.now) }
{
    match bytes {
        [0x4d, 0x51, 0x44, 1, rest @ ..] => Ok(rest),
        [0x4d, 0x51, 0x44, _, ..] => Err(StoreError::Version),
        _ => Err(StoreError::Snapshot),
    }
}

// The two texts of a file.
#[tactic(auto, using(crate::proofs::Splits::last_text))]
fn two_texts(bytes: &[u8]) -> Result<(&[u8], &[u8]), StoreError>
    ensures { IfOk result (λ r. bytes.now ≡ text_bytes r.0.now ++ text_bytes r.1.now) }
{
    let (config, rest) = read_sized(bytes)?;
    let (hub, rest) = read_sized(rest)?;
    match rest {
        [] => Ok((config, hub)),
        _ => Err(StoreError::Snapshot),
    }
}

/// Splits a file into its parts.
///
/// Errors: `Version` if it has another version, `Snapshot` if it is damaged.
#[tactic(auto, using(crate::proofs::Splits::whole_file))]
pub(crate) fn read_parts(bytes: &[u8]) -> Result<Parts<'_>, StoreError>
    ensures { IfOk result (λ p. bytes.now ≡ with_digest (parts_of p.nth p.config.now p.hub.now)) }
{
    let _ = behind_signature(bytes)?;
    let front = checked(bytes)?;
    let rest = behind_signature(front)?;
    let (nth, rest) = read_eight(rest)?;
    let (config, hub) = two_texts(rest)?;
    Ok(Parts { nth, config, hub })
}

impl Parts<'_> {
    /// The broker of these parts, which has no pending output.
    ///
    /// Errors: `Snapshot` if they are no configuration and no broker, `Memory`.
    pub(crate) fn load(&self, alloc: Global) -> Result<Hub, StoreError>
        ensures config { IfOk result (λ hub. config_bytes hub.config ≡ self.now.config.now) }
        ensures hub { IfOk result (λ hub. snapshot hub ≡ self.now.hub.now) }
        ensures whole { IfOk result IsKeptWhole }
    {
        let config = read_config(alloc, self.config)?;
        let hub = Hub::load(alloc, config, self.hub)?;
        Ok(hub)
    }
}
