//! Times in UTC.

ghost use Rattle.std.specs.Prelude.{◌≡◌, ◌/◌, ◌<◌, pos};
ghost use Rattle.jiff_core.specs.Date.{epoch_day};

use jiff_core::civil::Date;

/// Seconds of a day.
const DAY: u64 = 86_400;

/// A time from 1970 to 9999, in UTC.
#[derive(Clone, Copy, Debug)]
pub struct Moment {
    /// The seconds since 1970-01-01.
    pub seconds: u64,
    /// The nanoseconds since that second.
    pub nanoseconds: u32,
    /// The day.
    pub day: Date,
    pub ghost is_day: { epoch_day day ≡ pos (seconds / 86_400) },
}

/// A field of a time, behind `@`.
#[derive(Clone, Copy, Debug, PartialEq, Eq)]
pub enum TimeField {
    /// `@@`
    At,
    /// `@Y`: the year
    Year,
    /// `@m`: the month
    Month,
    /// `@d`: the day of the month
    Day,
    /// `@H`: the hour
    Hour,
    /// `@M`: the minute
    Minute,
    /// `@S`: the second
    Second,
    /// `@F`: the date
    Date,
    /// `@T`: the time of day
    Clock,
    /// `@s`: the seconds since 1970
    Seconds,
    /// `@N`: the nanoseconds of the second
    Nanoseconds,
    /// `@z`: the zone
    Zone,
}

impl Moment {
    /// A time before the year 10000.
    pub fn new(seconds: u64, nanoseconds: u32) -> Moment
        requires { seconds < 253_402_300_800 }
        ensures seconds { result.seconds ≡ seconds }
        ensures nanoseconds { result.nanoseconds ≡ nanoseconds }
    {
        let day = Date::from_unix_epoch_day((seconds / DAY) as i64).unwrap();
        Moment {
            seconds,
            nanoseconds,
            day,
        }
    }
}
