//! Times as they are printed.

ghost use Rattle.std.specs.Prelude.{◌≡◌, ◌++◌, OnOk};
ghost use Rattle.mq_format.specs.Prelude.{clock_text, date_text, instant_text, time_text, unix_text, year_text};

use crate::moment::{Moment, TimeField};
use crate::pad::{put_decimal, put_number};
use std::alloc::AllocError;

// Appends the year.
fn put_year(out: &mut Vec<u8>, moment: &Moment) -> Result<(), AllocError>
    ensures { OnOk result (out.new.items ≡ out.old.items ++ year_text moment.now) }
{
    put_number(out, u64::from(moment.day.year.unsigned_abs()), 4)
}

// Appends the date, as 2026-11-28.
fn put_date(out: &mut Vec<u8>, moment: &Moment) -> Result<(), AllocError>
    ensures { OnOk result (out.new.items ≡ out.old.items ++ date_text moment.now) }
{
    put_year(out, moment)?;
    out.extend_from_slice(b"-")?;
    put_number(out, u64::from(moment.day.month), 2)?;
    out.extend_from_slice(b"-")?;
    put_number(out, u64::from(moment.day.day), 2)
}

// Appends the time of day, as 08:00:47.
fn put_clock(out: &mut Vec<u8>, moment: &Moment) -> Result<(), AllocError>
    ensures { OnOk result (out.new.items ≡ out.old.items ++ clock_text moment.now) }
{
    put_number(out, moment.seconds / 3_600 % 24, 2)?;
    out.extend_from_slice(b":")?;
    put_number(out, moment.seconds / 60 % 60, 2)?;
    out.extend_from_slice(b":")?;
    put_number(out, moment.seconds % 60, 2)
}

/// Appends the date and the time of day, as 2026-11-28T08:00:47.
pub(crate) fn put_instant(out: &mut Vec<u8>, moment: &Moment) -> Result<(), AllocError>
    ensures { OnOk result (out.new.items ≡ out.old.items ++ instant_text moment.now) }
{
    put_date(out, moment)?;
    out.extend_from_slice(b"T")?;
    put_clock(out, moment)
}

/// Appends the seconds since 1970, with nine decimals.
pub(crate) fn put_unix(out: &mut Vec<u8>, moment: &Moment) -> Result<(), AllocError>
    ensures { OnOk result (out.new.items ≡ out.old.items ++ unix_text moment.now) }
{
    put_decimal(out, moment.seconds)?;
    out.extend_from_slice(b".")?;
    put_number(out, u64::from(moment.nanoseconds), 9)
}

/// Appends a field of a time.
pub(crate) fn put_time(
    out: &mut Vec<u8>,
    field: TimeField,
    moment: &Moment,
) -> Result<(), AllocError>
    ensures { OnOk result (out.new.items ≡ out.old.items ++ time_text moment.now field) }
{
    match field {
        TimeField::At => out.extend_from_slice(b"@"),
        TimeField::Year => put_year(out, moment),
        TimeField::Month => put_number(out, u64::from(moment.day.month), 2),
        TimeField::Day => put_number(out, u64::from(moment.day.day), 2),
        TimeField::Hour => put_number(out, moment.seconds / 3_600 % 24, 2),
        TimeField::Minute => put_number(out, moment.seconds / 60 % 60, 2),
        TimeField::Second => put_number(out, moment.seconds % 60, 2),
        TimeField::Date => put_date(out, moment),
        TimeField::Clock => put_clock(out, moment),
        TimeField::Seconds => put_decimal(out, moment.seconds),
        TimeField::Nanoseconds => put_number(out, u64::from(moment.nanoseconds), 9),
        TimeField::Zone => out.extend_from_slice(b"+0000"),
    }
}
