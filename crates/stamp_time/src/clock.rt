//! Computes what a UTC clock shows at a moment, with `jiff`.
ghost use Rattle.stamp_time.specs.Range.{IsPrintable};
ghost use Rattle.stamp_time.specs.Shown.{IsShownAt};

use crate::moment::Moment;
use jiff::Timestamp;
use jiff::tz::Offset;

/// A date and a time of day.
#[derive(Clone, Copy)]
pub struct Shown {
    pub year: u16,
    pub month: u8,
    pub day: u8,
    pub hour: u8,
    pub minute: u8,
    pub second: u8,
    pub nanos: u32,
}

/// What a UTC clock shows at the moment.
pub fn shown_at(m: Moment) -> Shown
    requires { IsPrintable m }
    ensures { IsShownAt m result }
{
    match Timestamp::from_nanosecond(m.as_nanosecond()) {
        Ok(at) => {
            let clock = Offset::UTC.to_datetime(at).to_plain();
            Shown {
                year: clock.date.year as u16,
                month: clock.date.month,
                day: clock.date.day,
                hour: clock.time.hour,
                minute: clock.time.minute,
                second: clock.time.second,
                nanos: clock.time.subsec_nanosecond,
            }
        }
        Err(_) => unreachable!(),
    }
}
