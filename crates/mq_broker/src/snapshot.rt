//! The lines of the log about snapshots.

ghost use Rattle.std.specs.Prelude.{◌≡◌, OnOk, flat_map};
ghost use Rattle.mq_broker.specs.Prelude.{Appends, snapshot_line};

use mq_loop::SnapshotNote;
use std::io;
use std::io::Write;

// Appends the line about a snapshot.
#[tactic(auto, unfolding(crate::specs::Inside::Snapshots::snapshot_line))]
fn write_snapshot<W: Write>(output: &mut W, note: SnapshotNote) -> io::Result<()>
    ensures { OnOk result (Appends (W.contents output.old) (W.contents output.new) (snapshot_line note)) }
{
    let SnapshotNote {
        bytes,
        sessions,
        milliseconds,
    } = note;
    writeln!(
        output,
        "snapshot bytes={bytes} sessions={sessions} milliseconds={milliseconds}"
    )
}

/// Appends the lines about these snapshots.
pub(crate) fn write_snapshots<W: Write>(output: &mut W, notes: &[SnapshotNote]) -> io::Result<()>
    ensures { OnOk result (Appends (W.contents output.old) (W.contents output.new)
        (flat_map snapshot_line notes.now)) }
{
    for note in notes {
        write_snapshot(output, *note)?;
    }
    Ok(())
}
