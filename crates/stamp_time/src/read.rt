//! Reads a stamp.
ghost use Rattle.std.specs.Prelude.{◌≡◌, IfSome};
ghost use Rattle.text_spec.specs.StampReader.{stamp_of};
ghost use Rattle.stamp_time.specs.Range.{IsStampMoment};

use crate::calendar::nanos_at;
use crate::fields::{read_date, read_offset, read_one, read_time};
use crate::fraction::read_fraction;
use crate::moment::Moment;

/// The moment that a stamp names; None exactly if the text is no stamp (a profile of RFC 3339).
#[tactic(auto, unfolding(text_spec::specs::StampReader::stamp_of))]
pub fn read_stamp(text: &str) -> Option<Moment>
    ensures value { result ≡ stamp_of text.now }
    ensures range { IfSome result IsStampMoment }
{
    let (date, rest) = read_date(text.as_bytes())?;
    let rest = read_one(b'T', b't', rest)?;
    let (time, rest) = read_time(rest)?;
    let (nanos, rest) = read_fraction(rest)?;
    let (offset, rest) = read_offset(rest)?;
    if rest.is_empty() {
        Some(Moment::from_nanosecond(nanos_at(date, time, nanos, offset)))
    } else {
        None
    }
}
