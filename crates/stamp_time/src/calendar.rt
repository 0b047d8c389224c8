//! Converts days of the calendar, with `jiff`, and computes the moments on them.
ghost use Rattle.std.specs.Prelude.{◌≡◌, ◌≤◌, ◌<◌, ◌^◌, pos, Some, None, if◌then◌else◌, IfSome};
ghost use Rattle.jiff_core.specs.Calendar.{days_from_civil, IsWithin};
ghost use Rattle.text_spec.specs.Stamp.{moment};
ghost use Rattle.text_spec.specs.StampReader.{is_day};
ghost use Rattle.stamp_time.specs.Range.{IsStampDay, IsStampMoment};

use jiff::civil::Date;

/// The days since 1970-01-01, or None if the calendar has no such day in the years 1 to 9900.
pub fn day_number(year: u16, month: u8, day: u8) -> Option<i32>
    requires month { month < 100 }
    requires day { day < 100 }
    ensures value { result
        ≡ (if is_day year month day then Some (days_from_civil (pos year) month day) else None) }
    ensures range { IfSome result IsStampDay }
{
    if year < 1 || year > 9900 {
        return None;
    }
    match Date::new(year as i16, month as i8, day as i8) {
        Ok(date) => Some(date.to_plain().to_unix_epoch_day()),
        Err(_) => None,
    }
}

/// The moment, in nanoseconds since 1970-01-01T00:00:00Z, at which a clock `offset` seconds ahead of UTC shows this day, second
/// of the day and nanosecond.
pub fn nanos_at(day: i32, second: u32, nanos: u32, offset: i32) -> i128
    requires day { IsStampDay day }
    requires second { second < 86_400 }
    requires nanos { nanos < 10 ^ 9 }
    requires offset { IsWithin 86_340 offset }
    ensures value { result ≡ moment day second nanos offset }
    ensures range { IsStampMoment result }
{
    let seconds = day as i64 * 86_400 + second as i64 - offset as i64;
    seconds as i128 * 1_000_000_000 + nanos as i128
}
