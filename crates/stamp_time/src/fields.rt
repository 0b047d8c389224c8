//! Reads the fields of a stamp. Each function reads from the left and returns the bytes that follow.
ghost use Rattle.std.specs.Prelude.{◌≡◌, ◌≤◌, ◌<◌, option_map, IfSome};
ghost use Rattle.jiff_core.specs.Calendar.{IsWithin};
ghost use Rattle.text_spec.specs.StampReader.{two_digits, one_of, date_at, time_at, distance_at, offset_at};
ghost use Rattle.stamp_time.specs.Range.{IsStampDay};

use crate::calendar::day_number;

// Two digits, as a number.
#[tactic(auto, unfolding(text_spec::specs::StampReader::two_digits))]
fn read_two(text: &[u8]) -> Option<(u8, &[u8])>
    ensures value { option_map (λ p. (p.0, p.1.now)) result ≡ two_digits text.now }
    ensures bound { IfSome result (λ p. p.0 < 100) }
{
    match text {
        [high, low, rest @ ..] if high.is_ascii_digit() && low.is_ascii_digit() => {
            Some(((*high - b'0') * 10 + (*low - b'0'), rest))
        }
        _ => None,
    }
}

/// The bytes after the byte `x` or the byte `y`; None if the text begins with neither.
#[tactic(auto, unfolding(text_spec::specs::StampReader::one_of))]
pub fn read_one(x: u8, y: u8, text: &[u8]) -> Option<&[u8]>
    ensures { option_map (λ p. p.now) result ≡ one_of x y text.now }
{
    match text {
        [first, rest @ ..] if *first == x || *first == y => Some(rest),
        _ => None,
    }
}

/// `YYYY-MM-DD`, as days since 1970-01-01.
#[tactic(auto, unfolding(text_spec::specs::StampReader::date_at))]
pub fn read_date(text: &[u8]) -> Option<(i32, &[u8])>
    ensures value { option_map (λ p. (p.0, p.1.now)) result ≡ date_at text.now }
    ensures range { IfSome result (λ p. IsStampDay p.0) }
{
    let (century, rest) = read_two(text)?;
    let (year, rest) = read_two(rest)?;
    let rest = read_one(b'-', b'-', rest)?;
    let (month, rest) = read_two(rest)?;
    let rest = read_one(b'-', b'-', rest)?;
    let (day, rest) = read_two(rest)?;
    let date = day_number(century as u16 * 100 + year as u16, month, day)?;
    Some((date, rest))
}

/// `HH:MM:SS`, as seconds since midnight.
#[tactic(auto, unfolding(text_spec::specs::StampReader::time_at))]
pub fn read_time(text: &[u8]) -> Option<(u32, &[u8])>
    ensures value { option_map (λ p. (p.0, p.1.now)) result ≡ time_at text.now }
    ensures bound { IfSome result (λ p. p.0 < 86_400) }
{
    let (hour, rest) = read_two(text)?;
    let rest = read_one(b':', b':', rest)?;
    let (minute, rest) = read_two(rest)?;
    let rest = read_one(b':', b':', rest)?;
    let (second, rest) = read_two(rest)?;
    if hour <= 23 && minute <= 59 && second <= 59 {
        Some((
            hour as u32 * 3600 + minute as u32 * 60 + second as u32,
            rest,
        ))
    } else {
        None
    }
}

// `HH:MM`, as seconds.
#[tactic(auto, unfolding(text_spec::specs::StampReader::distance_at))]
fn read_distance(text: &[u8]) -> Option<(u32, &[u8])>
    ensures value { option_map (λ p. (p.0, p.1.now)) result ≡ distance_at text.now }
    ensures bound { IfSome result (λ p. p.0 ≤ 86_340) }
{
    let (hour, rest) = read_two(text)?;
    let rest = read_one(b':', b':', rest)?;
    let (minute, rest) = read_two(rest)?;
    if hour <= 23 && minute <= 59 {
        Some((hour as u32 * 3600 + minute as u32 * 60, rest))
    } else {
        None
    }
}

/// `Z`, `z`, or a sign and `HH:MM`, as the seconds by which the local clock is ahead of UTC.
#[tactic(auto, unfolding(text_spec::specs::StampReader::offset_at))]
pub fn read_offset(text: &[u8]) -> Option<(i32, &[u8])>
    ensures value { option_map (λ p. (p.0, p.1.now)) result ≡ offset_at text.now }
    ensures bound { IfSome result (λ p. IsWithin 86_340 p.0) }
{
    match text {
        [b'Z' | b'z', rest @ ..] => Some((0, rest)),
        [b'+', rest @ ..] => {
            let (distance, rest) = read_distance(rest)?;
            Some((distance as i32, rest))
        }
        [b'-', rest @ ..] => {
            let (distance, rest) = read_distance(rest)?;
            Some((-(distance as i32), rest))
        }
        _ => None,
    }
}
