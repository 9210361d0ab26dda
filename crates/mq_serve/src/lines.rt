//! The lines that `serve` prints.

ghost use Rattle.std.specs.Prelude.{◌≡◌, IfOk, OnOk};
ghost use Rattle.mq_serve.specs.Prelude.{flat_map, Appends, end_status, end_line, end_lines, session_line};

use crate::serve_end::ServeEnd;
use mq_packet::Escaped;
use mq_wire::Text;
use std::io;
use std::io::Write;

/// Writes the reason for an early end. Returns the status of the program.
pub fn write_end<W: Write>(output: &mut W, end: ServeEnd) -> io::Result<u8>
    ensures printed { OnOk result (Appends (W.contents output.old) (W.contents output.new) (end_line end)) }
    ensures status { IfOk result (λ status. status ≡ end_status end) }
{
    match end {
        ServeEnd::Listen(_) | ServeEnd::Net(_) => writeln!(output, "connection failed")?,
        ServeEnd::JournalFull => writeln!(output, "journal full")?,
        ServeEnd::Refused => writeln!(output, "broker refused")?,
        ServeEnd::Memory => writeln!(output, "out of memory")?,
    }
    Ok(end.status())
}

fn write_session<W: Write>(output: &mut W, name: &Text) -> io::Result<()>
    ensures { OnOk result (Appends (W.contents output.old) (W.contents output.new) (session_line name.now)) }
{
    let name = Escaped(name.as_str());
    writeln!(output, "session {name}")
}

fn write_sessions<W: Write>(output: &mut W, names: &[Text]) -> io::Result<()>
    ensures { OnOk result (Appends (W.contents output.old) (W.contents output.new) (flat_map session_line names.now)) }
{
    for name in names {
        write_session(output, name)?;
    }
    Ok(())
}

/// Writes the remaining sessions in order, and the number of connections that were served.
pub(crate) fn write_served<W: Write>(output: &mut W, names: &[Text], count: u32) -> io::Result<()>
    ensures { OnOk result (Appends (W.contents output.old) (W.contents output.new) (end_lines names.now count)) }
{
    write_sessions(output, names)?;
    writeln!(output, "served {count}")
}
