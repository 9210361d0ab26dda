//! The lines of the client programs.

ghost use Rattle.std.specs.Prelude.{◌≡◌, ◌++◌, Some, IfOk, OnErr, OnOk, codes};
ghost use Rattle.mq_client.specs.Prelude.{flat_map, Appends, AppendsFront, Grows, halt_status, unloaded_status, halt_line, message_line, payload_word, told_line, unloaded_line};

use crate::client::LoadFailure;
use crate::error::ClientError;
use mq_end::Happening;
use mq_packet::{Escaped, Hex, Message};
use std::alloc::Global;
use std::io::{ErrorKind, Write};
use std::{fmt, io};

/// A payload in hexadecimal, or `-` for an empty one.
#[derive(Clone, Copy)]
struct PayloadWord<'a>(&'a [u8]);

impl fmt::Display for PayloadWord<'_> {
    ghost output = { λ word. Some (payload_word word.0.now) };

    fn fmt<W: fmt::Write>(&self, f: &mut fmt::Formatter<W>) -> fmt::Result {
        if self.0.is_empty() {
            return f.write_str("-");
        }
        write!(f, "{}", Hex(self.0))
    }
}

// Writes bytes. Other than `write_all`, its contract says what an error leaves.
pub(crate) fn write_bytes<W: Write>(output: &mut W, bytes: &[u8]) -> io::Result<()>
    ensures ok { OnOk result (Appends (W.contents output.old) (W.contents output.new) bytes.now) }
    ensures err { OnErr result
        (AppendsFront (W.contents output.old) (W.contents output.new) bytes.now) }
{
    let mut rest = bytes;
    for _ in 0..u64::MAX {
        if rest.is_empty() {
            return Ok(());
        }
        match output.write(rest) {
            Ok(0) => return Err(io::Error::from(ErrorKind::WriteZero)),
            Ok(count) => rest = &rest[count..],
            Err(error) if error.kind() != ErrorKind::Interrupted => return Err(error),
            Err(_) => {}
        }
    }
    Err(io::Error::from(ErrorKind::WriteZero))
}

// Writes a line of a word and a code.
fn write_code<W: Write>(output: &mut W, word: &[u8], code: &str) -> io::Result<()>
    ensures ok { OnOk result
        (Appends (W.contents output.old) (W.contents output.new) (word.now ++ (code.now ++ codes "\n"))) }
    ensures err { OnErr result (Grows (W.contents output.old) (W.contents output.new)) }
{
    write_bytes(output, word)?;
    write_bytes(output, code.as_bytes())?;
    write_bytes(output, b"\n")
}

// Writes the line of an error.
fn write_error<W: Write>(output: &mut W, halt: ClientError) -> io::Result<()>
    ensures ok { OnOk result
        (Appends (W.contents output.old) (W.contents output.new) (halt_line halt)) }
    ensures err { OnErr result (Grows (W.contents output.old) (W.contents output.new)) }
{
    match halt {
        ClientError::Closed(reason) => write_code(output, b"closed ", reason.code()),
        ClientError::Lost => write_code(output, b"connection failed", ""),
        ClientError::Refused(why) => write_code(output, b"refused ", why.code()),
        ClientError::NotSubscribed => write_code(output, b"not subscribed", ""),
        ClientError::SaveError(_) => write_code(output, b"session not written", ""),
        ClientError::Memory => write_code(output, b"out of memory", ""),
    }
}

/// Writes why a program stops, and returns its status.
pub fn write_halt<W: Write>(output: &mut W, halt: ClientError) -> io::Result<u8>
    ensures printed { OnOk result
        (Appends (W.contents output.old) (W.contents output.new) (halt_line halt)) }
    ensures status { IfOk result (λ status. status ≡ halt_status halt) }
    ensures err { OnErr result (Grows (W.contents output.old) (W.contents output.new)) }
{
    write_error(output, halt)?;
    Ok(halt.status())
}

// Writes why a file has no session to load, and returns the status of the program.
pub(crate) fn write_unloaded<W: Write>(output: &mut W, why: LoadFailure) -> io::Result<u8>
    ensures printed { OnOk result
        (Appends (W.contents output.old) (W.contents output.new) (unloaded_line why)) }
    ensures status { IfOk result (λ status. status ≡ unloaded_status why) }
{
    match why {
        LoadFailure::Unread(_) => writeln!(output, "file not read")?,
        LoadFailure::Session(why) => writeln!(output, "session {}", why.code())?,
        LoadFailure::Memory => writeln!(output, "out of memory")?,
    }
    Ok(why.status())
}

// Writes a message.
fn write_message<W: Write>(output: &mut W, message: &Message) -> io::Result<()>
    ensures { OnOk result
        (Appends (W.contents output.old) (W.contents output.new) (message_line message.now)) }
{
    let topic = Escaped(message.topic.as_str());
    let qos = message.qos.number();
    let payload = PayloadWord(message.payload.as_slice());
    writeln!(output, "{topic} {qos} {payload}")
}

// Writes a happening: the message, if one is delivered.
fn write_told_one<W: Write>(output: &mut W, happening: &Happening) -> io::Result<()>
    ensures { OnOk result
        (Appends (W.contents output.old) (W.contents output.new) (told_line happening.now)) }
{
    match happening {
        Happening::Handed(message) => write_message(output, message),
        Happening::Up { .. }
        | Happening::Subscribe { .. }
        | Happening::Unsubscribe { .. }
        | Happening::SubAck { .. }
        | Happening::UnsubAck(_)
        | Happening::Pong => Ok(()),
    }
}

// Writes happenings in order.
fn write_told<W: Write>(output: &mut W, happenings: &[Happening]) -> io::Result<()>
    ensures { OnOk result
        (Appends (W.contents output.old) (W.contents output.new) (flat_map told_line happenings.now)) }
{
    for happening in happenings {
        write_told_one(output, happening)?;
    }
    Ok(())
}

// The lines of happenings.
fn lines_of(alloc: Global, happenings: &[Happening]) -> io::Result<Vec<u8>>
    ensures { IfOk result (λ lines. lines.items ≡ flat_map told_line happenings.now) }
{
    let mut lines = Vec::new(alloc);
    write_told(&mut lines, happenings)?;
    Ok(lines)
}

// Prints happenings in order, and flushes.
pub(crate) fn print_told<W: Write>(
    alloc: Global,
    output: &mut W,
    happenings: &[Happening],
) -> io::Result<()>
    ensures ok { OnOk result
        (Appends (W.contents output.old) (W.contents output.new) (flat_map told_line happenings.now)) }
    ensures err { OnErr result (Grows (W.contents output.old) (W.contents output.new)) }
{
    let lines = lines_of(alloc, happenings)?;
    write_bytes(output, lines.as_slice())?;
    output.flush()
}
