//! Stamps from outside, and what is printed at the ends of the range.
use crate::wrong::{Wrong, holds};
use json_read::stamp_time::{Moment, read_stamp, write_full, write_stamp};

const TEN: Option<i128> = Some(1_714_557_600_500_000_000);

static READ: [(&str, Option<i128>); 9] = [
    ("2024-05-01T10:00:00.5Z", TEN),
    ("2024-05-01t10:00:00.500000000z", TEN),
    ("2024-05-01T10:00:00.5-00:00", TEN),
    ("2024-05-01T12:00:00.5+02:00", TEN),
    ("2024-02-30T00:00:00Z", None),
    ("2024-05-01T10:00:60Z", None),
    ("2024-05-01T10:00:00.1234567890Z", None),
    ("2024-05-01T10:00:00", None),
    ("2024-05-01T10:00:00Z ", None),
];

fn nanosecond(text: &str) -> Option<i128> {
    match read_stamp(text) {
        Some(moment) => Some(moment.as_nanosecond()),
        None => None,
    }
}

fn has_stamp(nanosecond: i128) -> bool {
    Moment::from_nanosecond(nanosecond).has_stamp()
}

fn are_read() -> Result<(), Wrong> {
    for (at, (text, moment)) in READ.iter().enumerate() {
        holds(nanosecond(text) == *moment, at)?;
    }
    Ok(())
}

#[test]
fn stamps_are_read_as_their_moments() -> Result<(), Wrong> {
    are_read()?;
    holds(has_stamp(-62_135_683_140_000_000_000), 9)?;
    holds(!has_stamp(-62_135_683_140_000_000_001), 10)
}

// The millisecond and the nanosecond that are printed of a moment some 2 ms behind the stamp.
fn two_behind(text: &str) -> Option<([u8; 24], [u8; 30])> {
    let moment = read_stamp(text)?;
    let later = Moment::from_nanosecond(moment.as_nanosecond() + 1_999_999);
    (moment < later).then_some((write_stamp(later), write_full(later)))
}

#[test]
fn what_is_past_the_milliseconds_is_cut_off() -> Result<(), Wrong> {
    let wanted = (
        *b"2024-05-01T10:00:00.001Z",
        *b"2024-05-01T10:00:00.001999999Z",
    );
    holds(two_behind("2024-05-01T10:00:00Z") == Some(wanted), 0)
}

fn stamp(text: &str) -> Option<[u8; 24]> {
    Some(write_stamp(read_stamp(text)?))
}

fn full_stamp(text: &str) -> Option<[u8; 30]> {
    Some(write_full(read_stamp(text)?))
}

// What is printed of the moment ten years of 365 days behind the stamp.
fn ten_years_behind(text: &str) -> Option<[u8; 24]> {
    let moment = read_stamp(text)?;
    let past = Moment::from_nanosecond(moment.as_nanosecond() + 3650 * 86_400_000_000_000);
    Some(write_stamp(past))
}

#[test]
fn the_ends_of_the_range_are_printed_in_utc() -> Result<(), Wrong> {
    let first = stamp("0001-01-01T00:00:00+23:59");
    holds(first == Some(*b"0000-12-31T00:01:00.000Z"), 0)?;
    let last = "9900-12-31T23:59:59.999999999-23:59";
    holds(
        full_stamp(last) == Some(*b"9901-01-01T23:58:59.999999999Z"),
        1,
    )?;
    holds(
        ten_years_behind(last) == Some(*b"9910-12-30T23:58:59.999Z"),
        2,
    )
}
