//! Writes the stamp of a moment.
ghost use Rattle.std.specs.Prelude.{◌≡◌, ◌++◌, ◌∷◌, ◌≤◌, ◌+ℤ◌, [], length, take, slice_range, OnOk};
ghost use Rattle.jiff_core.specs.Calendar.{IsWithin};
ghost use Rattle.dump_laws.specs.dump_spec.history_spec.Lawful.{HasStamp};
ghost use Rattle.dump_laws.specs.dump_spec.stamp_time.Range.{IsStampMoment};
ghost use Rattle.dump_laws.specs.dump_spec.text_spec.Stamp.{fraction_text};
ghost use Rattle.dump_laws.specs.dump_spec.Stamps.{if_some, short_text, without_zeros};

use fleet_rows::stamp_time::{Moment, write_full};
use std::alloc::AllocError;

/// The greatest offset of a stamp, in nanoseconds: 23 hours and 59 minutes.
const GREATEST_OFFSET: i128 = 86_340_000_000_000;

/// 0001-01-01T00:00:00Z, in nanoseconds since the epoch.
const FIRST_YEAR: i128 = -62_135_596_800_000_000_000;

/// 9901-01-01T00:00:00Z, in nanoseconds since the epoch.
const AFTER_LAST_YEAR: i128 = 250_278_163_200_000_000_000;

/// Appends the stamp of the moment.
pub(crate) fn put_stamp(out: &mut Vec<u8>, moment: Moment) -> Result<(), AllocError>
    requires { HasStamp moment }
    ensures { OnOk result (out.new.items ≡ out.old.items ++ short_text moment) }
{
    let nanos = moment.as_nanosecond();
    if nanos < FIRST_YEAR {
        put_shown(out, &write_full(later(moment, GREATEST_OFFSET)), b"+23:59")
    } else if nanos >= AFTER_LAST_YEAR {
        put_shown(out, &write_full(later(moment, -GREATEST_OFFSET)), b"-23:59")
    } else {
        put_shown(out, &write_full(moment), b"Z")
    }
}

// The moment that is so many nanoseconds later, within a day.
fn later(moment: Moment, nanos: i128) -> Moment
    requires stamp { IsStampMoment moment }
    requires within { IsWithin 86_340_000_000_000 nanos }
    ensures { result ≡ moment +ℤ nanos }
{
    Moment::from_nanosecond(moment.as_nanosecond() + nanos)
}

// Appends what a clock shows, without the zeros at the end of its fraction, and then the zone.
fn put_shown(out: &mut Vec<u8>, shown: &[u8; 30], zone: &[u8]) -> Result<(), AllocError>
    ensures { OnOk result (out.new.items
        ≡ out.old.items ++ (take 19 shown.now ++ (fraction_text (if_some (without_zeros (slice_range shown.now 20 29))) ++ zone.now))) }
{
    out.extend_from_slice(&shown[..19])?;
    put_fraction(out, &shown[20..29])?;
    out.extend_from_slice(zone)
}

// Appends the digits without the zeros at their end, after a point; nothing if all are zeros.
#[tactic(auto, using(crate::proofs::Fractions::nothing_left, crate::proofs::Fractions::something_left))]
fn put_fraction(out: &mut Vec<u8>, digits: &[u8]) -> Result<(), AllocError>
    ensures { OnOk result (out.new.items ≡ out.old.items ++ fraction_text (if_some (without_zeros digits.now))) }
{
    let end = end_of(digits);
    if end == 0 {
        return Ok(());
    }
    out.push(b'.')?;
    out.extend_from_slice(&digits[..end])
}

// How many digits are left without the zeros at the end.
fn end_of(digits: &[u8]) -> usize
    ensures within { result ≤ length digits.now }
    ensures left { take result digits.now ≡ without_zeros digits.now }
{
    let mut end = digits.len();
    'zeros: while end > 0 && digits[end - 1] == b'0' {
        end -= 1;
    }
    end
}
