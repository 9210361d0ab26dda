//! Schedules as pictures.

ghost use Rattle.std.specs.Prelude.{◌≡◌, IfErr, OnOk};
ghost use Rattle.mq_picture.specs.Prelude.{Prints, OnMemory, IsPicture};

use crate::record::record_of;
use crate::rows::rows_of;
use crate::svg::write_rows;
use mq_schedule::Schedule;
use std::alloc::{AllocError, Global};
use std::io;
use std::io::Write;
use thiserror::Error;

/// Why a picture is not written to its end.
#[derive(Debug, Drop, Error)]
pub enum PictureFault {
    /// A write failed.
    #[error("the output failed: {0}")]
    Io(io::Error),
    /// Memory ran out.
    #[error("out of memory")]
    Memory,
}

impl From<io::Error> for PictureFault {
    ghost use Rattle.std.specs.Prelude.{◌≡◌};
    ghost use Rattle.mq_picture.specs.Prelude.{Io};

    ghost from_gives = { λ error fault. fault ≡ Io error };

    fn from(error: io::Error) -> PictureFault {
        PictureFault::Io(error)
    }
}

impl From<AllocError> for PictureFault {
    ghost use Rattle.std.specs.Prelude.{◌≡◌};
    ghost use Rattle.mq_picture.specs.Prelude.{Memory};

    ghost from_gives = { λ _ fault. fault ≡ Memory };

    fn from(_e: AllocError) -> PictureFault {
        PictureFault::Memory
    }
}

/// Runs a schedule in a new world and writes the sequence diagram of its packets as an SVG image.
/// Errors: `Io` if a write fails; `Memory` if an allocation fails, before anything is written.
pub fn write_picture<W: Write>(
    alloc: Global,
    schedule: &Schedule,
    output: &mut W,
) -> Result<(), PictureFault>
    ensures printed { OnOk result
        (Prints (W.contents output.old) (W.contents output.new) (IsPicture schedule.now)) }
    ensures memory { IfErr result (λ fault. OnMemory fault (output.new ≡ output.old)) }
{
    let entries = record_of(alloc, schedule)?;
    let rows = rows_of(alloc, entries)?;
    write_rows(rows.as_slice(), output)?;
    Ok(())
}
