//! Sessions as they are saved, with the client that they belong to (3.1.2.4, 3.1.3.1, 4.1).

ghost use Rattle.std.specs.Prelude.{◌≡◌, ◌↔◌, ◌++◌, ℕ, false, length, Result, take, IfOk, OnOk, OnErr, IsErrOf, MatchResult};
ghost use Rattle.mq_flow.specs.Prelude.{AreWithin, IsSession, without_claims, Gives, Loads, has_version, placed, IsSavedAs, first_at, has_version_two, read_saved, saved_form_two, second_at, text_at};
ghost use Rattle.mq_flow.specs.declared.saved.Saved as value;

use crate::load::{BadField, LoadError, Unread, flag, session};
use crate::save::{SIGNATURE, put_state, put_text};
use crate::session::Session;
use mq_wire::{Text, text_at, text_laws};
use std::alloc::{AllocError, Global};

/// `MQS`, and version 2 of the form.
pub(crate) const SIGNATURE_TWO: [u8; 4] = [0x4d, 0x51, 0x53, 2];

/// A session as it was saved (4.1).
#[derive(Debug, Drop)]
pub struct Saved {
    /// The identifier of the client that it belongs to (3.1.3.1). Version 1 of the form names none.
    pub client: Option<Text>,
    /// Whether a CONNACK that accepts was read for it. Version 1 of the form doesn't say so of any.
    pub established: bool,
    /// The session.
    pub session: Session,
}

impl Saved {
    /// Reads the saved form of a session, version 1 or 2 (4.1). Errors: `Version` if the bytes
    /// begin with neither, `Malformed` with the place of the first invalid field, `Memory` if an
    /// allocation fails.
    pub fn load(alloc: Global, bytes: &[u8]) -> Result<Saved, LoadError>
        ensures loads { IfOk result (λ v. IsSavedAs v bytes.now × IsSession v.session) }
        ensures saved { (saved : Saved) → IsSession saved.session → IsSavedAs saved bytes.now → MatchResult result (λ loaded. loaded ≡ saved) (λ why. why ≡ LoadError.Memory) }
        ensures version { IsErrOf result LoadError.Version ↔ ((has_version bytes.now ≡ false) × (has_version_two bytes.now ≡ false)) }
        ensures place { Loads result (read_saved bytes.now) }
    {
        text_laws();
        read(alloc, bytes)
    }
}

impl Session {
    /// Appends the saved form, version 2, of a client's session (4.1): the client identifier,
    /// whether a CONNACK accepted the session, and the contents of version 1. On `Err`, `out` is
    /// unchanged.
    pub fn save_with_client(
        &self,
        client: &Text,
        established: bool,
        out: &mut Vec<u8>,
    ) -> Result<(), AllocError>
        ensures ok { OnOk result (out.new.items ≡ out.old.items ++ saved_form_two client.now established (without_claims self.now)) }
        ensures session { OnOk result (AreWithin 268435455 self.now.sender.book.entries → IsSession (without_claims self.now)) }
        ensures err { OnErr result (out.new.items ≡ out.old.items) }
    {
        let before = out.len();
        let put = put_saved(out, client, established, self);
        if put.is_err() {
            out.truncate(before);
        }
        put
    }
}

// Appends the saved form, version 2, or a prefix of it if an allocation fails.
fn put_saved(
    out: &mut Vec<u8>,
    client: &Text,
    established: bool,
    session: &Session,
) -> Result<(), AllocError>
    ensures ok { OnOk result (out.new.items ≡ out.old.items ++ saved_form_two client.now established session.now) }
    ensures session { OnOk result (AreWithin 268435455 session.now.sender.book.entries → IsSession (without_claims session.now)) }
    ensures err { OnErr result (take (length out.old.items) out.new.items ≡ out.old.items) }
{
    out.extend_from_slice(&SIGNATURE_TWO)?;
    put_text(out, client.as_str())?;
    out.push(u8::from(established))?;
    put_state(out, session)
}

#[tactic(auto, unfolding(crate::specs::SavedTwo::read_saved))]
fn read(alloc: Global, bytes: &[u8]) -> Result<Saved, LoadError>
    ensures version { IsErrOf result LoadError.Version ↔ ((has_version bytes.now ≡ false) × (has_version_two bytes.now ≡ false)) }
    ensures reads { Loads result (read_saved bytes.now) }
{
    if bytes.starts_with(&SIGNATURE) {
        return placed(bytes, first(alloc, &bytes[4..]));
    }
    if bytes.starts_with(&SIGNATURE_TWO) {
        return placed(bytes, second(alloc, &bytes[4..]));
    }
    Err(LoadError::Version)
}

// Counts the place of an invalid field from the first byte of the whole form.
fn placed(bytes: &[u8], read: Result<Saved, Unread>) -> Result<Saved, LoadError>
    ensures reads { (told : Result value.Saved ℕ) → Gives (λ s. s) read told → Loads result (placed (length bytes.now) told) }
    ensures version { IsErrOf result LoadError.Version → ⊥ }
{
    match read {
        Ok(saved) => Ok(saved),
        Err(Unread::Bad(bad)) => Err(LoadError::Malformed {
            place: bytes.len().saturating_sub(bad.left),
        }),
        Err(Unread::Memory) => Err(LoadError::Memory),
    }
}

// Reads the rest of version 1.
#[tactic(auto, unfolding(crate::specs::SavedTwo::first_at))]
fn first(alloc: Global, bytes: &[u8]) -> Result<Saved, Unread>
    ensures { Gives (λ s. s) result (first_at 268435455 bytes.now) }
{
    let session = session(alloc, bytes)?;
    Ok(Saved {
        client: None,
        established: false,
        session,
    })
}

// Reads the rest of version 2.
#[tactic(auto, unfolding(crate::specs::SavedTwo::second_at))]
fn second(alloc: Global, bytes: &[u8]) -> Result<Saved, Unread>
    ensures { Gives (λ s. s) result (second_at 268435455 bytes.now) }
{
    let (client, rest) = text(alloc, bytes)?;
    let (established, rest) = flag(rest)?;
    let session = session(alloc, rest)?;
    Ok(Saved {
        client: Some(client),
        established,
        session,
    })
}

// Reads a text, behind a count of two bytes.
#[tactic(auto, unfolding(crate::specs::SavedTwo::text_at))]
fn text(alloc: Global, bytes: &[u8]) -> Result<(Text, &[u8]), Unread>
    ensures { Gives (λ x. (x.0, x.1.now)) result (text_at bytes.now) }
{
    let Ok((text, place)) = text_at(bytes, 0) else {
        return Err(Unread::Bad(BadField { left: bytes.len() }));
    };
    let text = text.to_text(alloc)?;
    Ok((text, &bytes[place..]))
}
