//! Two-byte integers in big-endian order (1.5.2).

ghost use Rattle.std.specs.Prelude.{◌≡◌, ◌+◌, ◌≤◌, ◌++◌, [], ◌∷◌, length, OnOk, OnErr};
ghost use Rattle.mq_wire.specs.Prelude.{NumberLaws, number, number_in};

use byteorder::{BigEndian, ByteOrder};
use std::alloc::AllocError;

/// Reads the number at index `at`.
pub fn number_at(bytes: &[u8], at: usize) -> u16
    requires { at + 2 ≤ length bytes.now }
    ensures { result ≡ number_in bytes.now at }
{
    BigEndian::read_u16(&bytes[at..])
}

/// Appends a number.
pub fn put_number(out: &mut Vec<u8>, n: u16) -> Result<(), AllocError>
    ensures ok { OnOk result (out.new.items ≡ out.old.items ++ number n) }
    ensures err { OnErr result (out.new.items ≡ out.old.items) }
{
    let mut bytes = [0u8; 2];
    BigEndian::write_u16(&mut bytes, n);
    out.extend_from_slice(&bytes)
}

/// The laws of numbers: writing and reading are inverse to each other.
pub fn number_laws()
    ensures { NumberLaws }
{}
