//! Stamps (a profile of RFC 3339) and the moments that they name.
//!
//! A [`Moment`] is a number of nanoseconds since 1970-01-01T00:00:00Z, and contracts see that integer. [`read_stamp`] gives the
//! moment of a stamp, and None for every other text. [`write_stamp`] and [`write_full`] print a moment in UTC, with three or nine
//! digits of the fraction. No call allocates.
//!
//! A stamp is `YYYY-MM-DD`, `T` or `t`, `HH:MM:SS`, optionally `.` and 1 to 9 digits, then `Z`, `z`, `+HH:MM` or `-HH:MM`. Its
//! year is 0001 to 9900, and it has no leap second. `text_spec` defines stamps and the printed texts. Every moment that has a
//! stamp can be printed, and so can the moments up to 3,650 days later.
//!
//! The shape of a stamp is read by hand, since `jiff`'s own reader accepts more, such as second 60. The calendar is `jiff`'s
//! proleptic Gregorian one.
#![tactic(auto)]

mod calendar;
mod clock;
mod fields;
mod fraction;
mod limits;
mod moment;
mod read;
mod write;

pub use limits::MOST_DAYS;
pub use moment::Moment;
pub use read::read_stamp;
pub use write::{write_full, write_stamp};
