//! Encodes and decodes moments: sixteen bytes of two's complement, the low half first.
ghost use Rattle.std.specs.Prelude.{◌≡◌, ◌++◌, OnOk};
ghost use Rattle.record_spec.specs.Parts.{moment_text};
ghost use Rattle.record_fields.specs.Reading.{Shows, moment_at};

use crate::behind::put_u64;
use crate::front::take_u64;
use record_spec::stamp_time::Moment;
use std::alloc::AllocError;

/// Reads a moment that has a stamp. Also returns the bytes after it.
#[tactic(auto, unfolding(crate::specs::Reading::moment_at))]
pub fn take_moment(bytes: &[u8]) -> Option<(Moment, &[u8])>
    ensures { Shows (λ x. (x.0, x.1.now)) result (moment_at bytes.now) }
{
    let (low, rest) = take_u64(bytes)?;
    let (high, rest) = take_u64(rest)?;
    let number = u128::from(high) * 18446744073709551616 + u128::from(low);
    let moment = Moment::from_nanosecond(number.cast_signed());
    if moment.has_stamp() {
        Some((moment, rest))
    } else {
        None
    }
}

#[tactic(auto, unfolding(record_spec::specs::Parts::moment_text))]
pub fn put_moment(out: &mut Vec<u8>, moment: Moment) -> Result<(), AllocError>
    ensures { OnOk result (out.new.items ≡ out.old.items ++ moment_text moment) }
{
    let number = moment.as_nanosecond().cast_unsigned();
    put_u64(out, (number % 18446744073709551616) as u64)?;
    put_u64(out, (number / 18446744073709551616) as u64)?;
    Ok(())
}
