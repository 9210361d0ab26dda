//! The command `password`.

ghost use Rattle.std.specs.Prelude.{◌≡◌, IfOk};
ghost use Rattle.mq_programs.specs.Prelude.{Prints, IsPasswordDone, IsPasswordRun, without_line_end};

use mq_cli::Failure;
use mq_status::{PasswordLineError, password_line};
use std::alloc::Global;
use std::io::{ErrorKind, Read, Write};
use std::random::RandomSource;

/// The number of random bytes of a salt, which has two hexadecimal digits for each.
const SALT: usize = 16;

// The bytes without a line end at their end.
fn without_line_end(bytes: &[u8]) -> &[u8]
    ensures { result.now ≡ without_line_end bytes.now }
{
    match bytes {
        [start @ .., b'\r', b'\n'] | [start @ .., b'\n'] => start,
        _ => bytes,
    }
}

// Prints the line of a password, or why a file of passwords can't have it. Returns the status.
#[tactic(auto, using(crate::proofs::Passwords::no_line))]
fn print_line<E: Write, W: Write>(
    alloc: Global,
    name: &str,
    salt: &str,
    password: &[u8],
    errors: &mut E,
    output: &mut W,
) -> Result<u8, Failure>
    ensures { IfOk result (λ status. Prints (W.contents output.old) (W.contents output.new)
        (IsPasswordDone name.now salt.now password.now status)) }
{
    match password_line(alloc, name, salt, password) {
        Ok(line) => {
            writeln!(output, "{line}")?;
            output.flush()?;
            Ok(0)
        }
        Err(PasswordLineError::Memory) => Err(Failure::Memory),
        Err(error) => {
            let _ = writeln!(errors, "mqtt: {error}");
            Ok(2)
        }
    }
}

/// Reads a password from `input`, and prints a line with its digest for a file of passwords. A line
/// end at the end of the input is not part of the password.
///
/// Returns the status: 2 if the name or the password can't be in such a file, 1 if the input can't
/// be read or the system gives no random bytes. `errors` gets the reason, without the password.
#[tactic(auto, using(crate::proofs::Passwords::ran))]
pub fn run_password<R: RandomSource, I: Read, E: Write, W: Write>(
    rt: &R,
    alloc: Global,
    name: &str,
    input: &mut I,
    errors: &mut E,
    output: &mut W,
) -> Result<u8, Failure>
    ensures { IfOk result (λ status. Prints (W.contents output.old) (W.contents output.new)
        (IsPasswordRun name.now (I.remaining input.old) status)) }
{
    let mut seed = [0u8; SALT];
    if rt.fill_bytes(&mut seed).is_err() {
        let _ = writeln!(errors, "mqtt: the system gives no random bytes");
        return Ok(1);
    }
    let mut password = Vec::new(alloc);
    if let Err(error) = input.read_to_end(&mut password) {
        if error.kind() == ErrorKind::OutOfMemory {
            return Err(Failure::Memory);
        }
        let _ = writeln!(errors, "mqtt: the password cannot be read");
        return Ok(1);
    }
    let salt = hex::encode(alloc, seed.as_slice())?;
    let password = without_line_end(password.as_slice());
    print_line(alloc, name, salt.as_str(), password, errors, output)
}
