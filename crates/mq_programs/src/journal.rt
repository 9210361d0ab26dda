//! The command `journal`.

ghost use Rattle.std.specs.Prelude.{◌≡◌, ◌⊎◌, ◌↔◌, true, IfOk};
ghost use Rattle.mq_programs.specs.Prelude.{IsBegun};

use mq_cli::Failure;
use mq_store::list_journal;
use std::alloc::Global;
use std::fs::File;
use std::io;
use std::io::{ErrorKind, Read, Write};
use std::rt::Files;

// Whether a broker may have begun a file with these bytes.
fn is_begun(bytes: &[u8]) -> bool
    ensures { (result ≡ true) ↔ IsBegun bytes.now }
{
    bytes.is_empty() || bytes[0] <= 1
}

fn read_file<R: Files<File = File>>(rt: &R, alloc: Global, name: &str) -> io::Result<Vec<u8>> {
    let mut bytes = Vec::new(alloc);
    let mut file = File::open(rt, name)?;
    file.read_to_end(&mut bytes)?;
    Ok(bytes)
}

/// Prints the entries of a journal, and how its file ends.
///
/// Returns the status: 0 if a crash may leave the file, otherwise 1, also if it can't be read or is
/// no journal. `errors` gets the reason.
pub fn run_journal<R: Files<File = File>, E: Write, W: Write>(
    rt: &R,
    alloc: Global,
    name: &str,
    errors: &mut E,
    output: &mut W,
) -> Result<u8, Failure>
    ensures { IfOk result (λ status. (status ≡ 0) ⊎ (status ≡ 1)) }
{
    let bytes = match read_file(rt, alloc, name) {
        Ok(bytes) => bytes,
        Err(error) if error.kind() == ErrorKind::OutOfMemory => return Err(Failure::Memory),
        Err(error) => {
            let kind = error.kind();
            let _ = writeln!(errors, "mqtt: the journal '{name}' cannot be read: {kind}");
            return Ok(1);
        }
    };
    if !is_begun(bytes.as_slice()) {
        let _ = writeln!(errors, "mqtt: '{name}' is not the journal of a broker");
        return Ok(1);
    }
    let may_be_left = list_journal(alloc, bytes.as_slice(), output)?;
    Ok(if may_be_left { 0 } else { 1 })
}
