//! Binary fields and payloads.

ghost use Rattle.std.specs.Prelude.{◌≡◌, ◌<◌, ◌^◌, ◌↔◌, length, IsSome, IfSome, IfOk};

use bytes::Bytes;
use std::alloc::AllocError;
use std::marker::Model;

/// A binary field of at most 65,535 bytes (1.5.3). Clones share the bytes.
#[derive(Debug, Drop)]
pub struct Binary {
    bytes: Bytes,
}

impl Model for Binary {
    ghost use Rattle.std.specs.Prelude.{ℕ, List, ◌<◌, length};

    ghost Value = { List ℕ };

    ghost view = { λ b. b.bytes };

    ghost invariant = { λ b. length b.bytes < 65536 };
}

impl Binary {
    /// Wraps `bytes`. Returns `None` if there are more than 65,535.
    pub fn new(bytes: Bytes) -> Option<Binary>
        ensures fits { IsSome result ↔ (length bytes < 65536) }
        ensures value { IfSome result (λ b. b ≡ bytes) }
    {
        if bytes.len() > 65_535 {
            return None;
        }
        Some(Binary { bytes })
    }

    /// The bytes.
    pub fn as_slice(&self) -> &[u8]
        ensures value { result.now ≡ self.now }
        ensures short { length self.now < 65536 }
    {
        self.bytes.as_slice()
    }

    /// The shared bytes. Cloning or slicing them copies nothing.
    pub fn as_bytes(&self) -> &Bytes
        ensures value { result.now ≡ self.now }
        ensures short { length self.now < 65536 }
    {
        &self.bytes
    }

    /// Consumes the field and returns the shared bytes.
    pub fn into_bytes(self) -> Bytes
        ensures { result ≡ self }
    {
        let Binary { bytes } = self;
        bytes
    }
}

impl Clone for Binary {
    ghost is_clone = { λ binary copy. copy ≡ binary };

    /// Returns another owner of the same bytes.
    fn clone(&self) -> Result<Binary, AllocError> {
        let bytes = self.bytes.clone()?;
        Ok(Binary { bytes })
    }
}

/// The payload of a message: at most 268,435,455 bytes (2.2.3). Clones share the bytes.
#[derive(Debug, Drop)]
pub struct Payload {
    bytes: Bytes,
}

impl Model for Payload {
    ghost use Rattle.std.specs.Prelude.{ℕ, List, ◌<◌, ◌^◌, length};

    ghost Value = { List ℕ };

    ghost view = { λ p. p.bytes };

    ghost invariant = { λ p. length p.bytes < 2 ^ 28 };
}

impl Payload {
    /// Wraps `bytes`. Returns `None` if there are more than 268,435,455.
    pub fn new(bytes: Bytes) -> Option<Payload>
        ensures fits { IsSome result ↔ (length bytes < 2 ^ 28) }
        ensures value { IfSome result (λ p. p ≡ bytes) }
    {
        if bytes.len() > 268_435_455 {
            return None;
        }
        Some(Payload { bytes })
    }

    /// The bytes.
    pub fn as_slice(&self) -> &[u8]
        ensures value { result.now ≡ self.now }
        ensures short { length self.now < 2 ^ 28 }
    {
        self.bytes.as_slice()
    }

    /// The shared bytes. Cloning or slicing them copies nothing.
    pub fn as_bytes(&self) -> &Bytes
        ensures value { result.now ≡ self.now }
        ensures short { length self.now < 2 ^ 28 }
    {
        &self.bytes
    }

    /// Consumes the payload and returns the shared bytes.
    pub fn into_bytes(self) -> Bytes
        ensures { result ≡ self }
    {
        let Payload { bytes } = self;
        bytes
    }
}

impl Clone for Payload {
    ghost is_clone = { λ payload copy. copy ≡ payload };

    /// Returns another owner of the same bytes.
    fn clone(&self) -> Result<Payload, AllocError> {
        let bytes = self.bytes.clone()?;
        Ok(Payload { bytes })
    }
}
