//! Durations in seconds.

ghost use Rattle.std.specs.Prelude.{◌<◌, ◌≤◌, IfSome};
ghost use Rattle.mq_pubsub_options.specs.Prelude.{IsDuration, IsFraction, IsWhole};

/// The most seconds of a duration: ten years.
const MOST_SECONDS: u64 = 315_360_000;

// The milliseconds of the digits before a point.
fn whole_of(digits: &str) -> Option<u64>
    ensures value { IfSome result (IsWhole digits.now) }
    ensures bound { IfSome result (λ milliseconds. milliseconds < 315360001000) }
{
    if digits.starts_with('+') {
        return None;
    }
    let seconds = digits.parse::<u64>().ok()?;
    if seconds > MOST_SECONDS {
        return None;
    }
    Some(seconds * 1_000)
}

// The milliseconds of the digits behind a point. Digits behind the third are ignored.
#[tactic(auto, using(crate::proofs::Durations::few_units))]
fn fraction_of(digits: &str) -> Option<u64>
    ensures value { IfSome result (IsFraction digits.now) }
    ensures bound { IfSome result (λ milliseconds. milliseconds ≤ 1000) }
{
    if digits.is_empty() {
        return None;
    }
    let (mut total, mut unit) = (0u64, 1_000u64);
    for byte in digits.as_bytes() {
        if !byte.is_ascii_digit() {
            return None;
        }
        unit /= 10;
        total += u64::from(*byte - b'0') * unit;
    }
    Some(total)
}

/// The milliseconds of a duration in seconds, as `2` or `0.25`. `None` if it is not a number, or
/// over ten years.
pub fn milliseconds_of(text: &str) -> Option<u64>
    ensures { IfSome result (IsDuration text.now) }
{
    let Some((whole, fraction)) = text.split_once('.') else {
        return whole_of(text);
    };
    Some(whole_of(whole)? + fraction_of(fraction)?)
}
