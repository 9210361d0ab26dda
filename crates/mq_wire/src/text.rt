//! UTF-8 encoded strings (1.5.3): at most 65,535 bytes, without surrogates and without U+0000. A
//! packet stores the number of bytes in two bytes before them.

ghost use Rattle.std.specs.Prelude.{◌≡◌, ◌+◌, ◌<◌, ◌↔◌, ◌≤◌, true, length, slice_range, IfOk, IfErr, IsErrOf};
ghost use Rattle.mq_wire.specs.Prelude.{list_any, IsText, has_nul, is_special, TextLaws, checked_text, read_text};

use crate::number::number_at;
use bytes::{ByteStr, Bytes};
use std::alloc::{AllocError, Global};
use std::marker::Model;
use thiserror::Error;

/// Why a `&str` is not a valid MQTT string.
#[derive(Clone, Copy, Debug, PartialEq, Eq, Error)]
pub enum TextFault {
    /// It is longer than 65,535 bytes.
    #[error("the text has over 65,535 bytes")]
    TooLong,
    /// It contains the character U+0000.
    #[error("the text has the character U+0000")]
    Nul,
    /// An allocation failed.
    #[error("out of memory")]
    Memory,
}

/// Why the bytes of a field are not a valid MQTT string.
#[derive(Clone, Copy, Debug, PartialEq, Eq, Error)]
pub enum FieldFault {
    /// The length or the string extends past the end of the buffer.
    #[error("the text goes past the end")]
    Past,
    /// The bytes are not UTF-8.
    #[error("the text is not UTF-8")]
    NotUtf8,
    /// The string contains the character U+0000.
    #[error("the text has the character U+0000")]
    Nul,
}

/// An owned MQTT string (1.5.3). Clones share its bytes.
#[derive(Debug, Drop)]
pub struct Text {
    text: ByteStr,
}

impl Model for Text {
    ghost use Rattle.std.specs.Prelude.{ℕ, List};
    ghost use Rattle.mq_wire.specs.Text.{IsText};

    ghost Value = { List ℕ };

    ghost view = { λ t. t.text };

    ghost invariant = { λ t. IsText t.text };
}

impl Text {
    /// Copies a `&str`. Errors: `TooLong` if it has more than 65,535 bytes, `Nul` if it contains
    /// U+0000, `Memory` if the allocation fails.
    pub fn new(alloc: Global, text: &str) -> Result<Text, TextFault>
        ensures value { IfOk result (λ t. t ≡ text.now) }
        ensures too_long { IsErrOf result TextFault.TooLong ↔ (65535 < length text.now) }
        ensures nul { IsErrOf result TextFault.Nul
            ↔ ((length text.now ≤ 65535) × (has_nul text.now ≡ true)) }
    {
        if text.len() > 65_535 {
            return Err(TextFault::TooLong);
        }
        if text.as_bytes().contains(&0) {
            return Err(TextFault::Nul);
        }
        match ByteStr::copy_from_str(alloc, text) {
            Ok(text) => Ok(Text { text }),
            Err(_) => Err(TextFault::Memory),
        }
    }

    /// Returns the string slice.
    pub fn as_str(&self) -> &str
        ensures value { result.now ≡ self.now }
        ensures text { IsText self.now }
    {
        self.text.as_str()
    }

    /// Borrows the text.
    pub fn as_ref(&self) -> TextRef<'_>
        ensures { result ≡ self.now }
    {
        TextRef {
            text: self.text.as_str(),
        }
    }
}

impl Clone for Text {
    ghost is_clone = { λ text copy. copy ≡ text };

    /// Returns another owner of the same bytes.
    fn clone(&self) -> Result<Text, AllocError> {
        let text = self.text.clone()?;
        Ok(Text { text })
    }
}

/// A borrowed MQTT string (1.5.3).
#[derive(Debug, Drop)]
pub struct TextRef<'a> {
    text: &'a str,
}

impl<'a> Model for TextRef<'a> {
    ghost use Rattle.std.specs.Prelude.{ℕ, List};
    ghost use Rattle.mq_wire.specs.Text.{IsText};

    ghost Value = { List ℕ };

    ghost view = { λ t. t.text.now };

    ghost invariant = { λ t. IsText t.text.now };
}

impl<'a> TextRef<'a> {
    /// Returns the string slice.
    pub fn as_str(&self) -> &'a str
        ensures value { result.now ≡ self.now }
        ensures text { IsText self.now }
    {
        self.text
    }

    /// Copies the text.
    pub fn to_text(&self, alloc: Global) -> Result<Text, AllocError>
        ensures { IfOk result (λ t. t ≡ self.now) }
    {
        let text = ByteStr::copy_from_str(alloc, self.text)?;
        Ok(Text { text })
    }

    /// Returns an owned text that shares `bytes`, which must equal this text.
    pub fn shared(&self, bytes: Bytes) -> Text
        requires { bytes ≡ self.now }
        ensures { result ≡ self.now }
    {
        let _ = self.text.as_bytes();
        Text {
            text: ByteStr::from_known_utf8(bytes),
        }
    }
}

// Reads every byte before it returns, so that the compiler can test many at once.
#[tactic(auto, using(std::proofs::lemmas::List::Folds::list_any_more))]
fn has_special(bytes: &[u8]) -> bool
    ensures { result ≡ list_any is_special bytes.now }
{
    let mut special = false;
    for byte in bytes {
        special |= (*byte == 0) | (*byte > 127);
    }
    special
}

fn checked_text(bytes: &[u8]) -> Result<TextRef<'_>, FieldFault>
    requires { length bytes.now < 65536 }
    ensures { result ≡ checked_text bytes.now }
{
    if !has_special(bytes) {
        // SAFETY: ASCII is UTF-8.
        let text = unsafe { str::from_utf8_unchecked(bytes) };
        return Ok(TextRef { text });
    }
    let Ok(text) = simdutf8::compat::from_utf8(bytes) else {
        return Err(FieldFault::NotUtf8);
    };
    if bytes.contains(&0) {
        return Err(FieldFault::Nul);
    }
    Ok(TextRef { text })
}

/// Reads the text whose length is at index `at`, and returns it with the index after it (1.5.3).
/// Errors, in the order in which they are tested: `Past`, `NotUtf8`, `Nul`.
#[tactic(auto, unfolding(crate::specs::TextReading::read_text))]
pub fn text_at(bytes: &[u8], at: usize) -> Result<(TextRef<'_>, usize), FieldFault>
    ensures reads { result ≡ read_text bytes.now at }
    ensures place { IfOk result (λ x. (at + 2 ≤ x.1) × (x.1 ≤ length bytes.now)) }
    ensures stands { IfOk result (λ x. slice_range bytes.now (at + 2) x.1 ≡ x.0) }
{
    if at > bytes.len() || bytes.len() - at < 2 {
        return Err(FieldFault::Past);
    }
    let count = number_at(bytes, at) as usize;
    let rest = &bytes[at + 2..];
    if rest.len() < count {
        return Err(FieldFault::Past);
    }
    match checked_text(&rest[..count]) {
        Ok(text) => Ok((text, at + 2 + count)),
        Err(fault) => Err(fault),
    }
}

/// The laws of texts: each encoded text is read back, and only texts are read.
pub fn text_laws()
    ensures { TextLaws }
{}
