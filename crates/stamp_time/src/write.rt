//! Prints a moment.
ghost use Rattle.std.specs.Prelude.{◌≡◌, length};
ghost use Rattle.text_spec.specs.Stamp.{digits_text, IsPrintedStamp};
ghost use Rattle.stamp_time.specs.Range.{IsPrintable};

use crate::clock::shown_at;
use crate::moment::Moment;

/// `YYYY-MM-DDTHH:MM:SS.fffZ` in UTC; further digits of the fraction are cut off. The year always has four digits. It may be 0000
/// or 9901 to 9910, which stamps can't have.
pub fn write_stamp(m: Moment) -> [u8; 24]
    requires { IsPrintable m }
    ensures { IsPrintedStamp 3 result m }
{
    let full = write_full(m);
    let mut text = *b"0000-00-00T00:00:00.000Z";
    text[..23].copy_from_slice(&full[..23]);
    text
}

/// `YYYY-MM-DDTHH:MM:SS.fffffffffZ` in UTC. The year always has four digits. It may be 0000 or 9901 to 9910, which stamps can't
/// have.
pub fn write_full(m: Moment) -> [u8; 30]
    requires { IsPrintable m }
    ensures { IsPrintedStamp 9 result m }
{
    let shown = shown_at(m);
    let mut text = *b"0000-00-00T00:00:00.000000000Z";
    put_digits(&mut text[..4], shown.year as u32);
    put_digits(&mut text[5..7], shown.month as u32);
    put_digits(&mut text[8..10], shown.day as u32);
    put_digits(&mut text[11..13], shown.hour as u32);
    put_digits(&mut text[14..16], shown.minute as u32);
    put_digits(&mut text[17..19], shown.second as u32);
    put_digits(&mut text[20..29], shown.nanos);
    text
}

// Fills `place` with the last digits of the number.
fn put_digits(place: &mut [u8], n: u32)
    ensures { place.new ≡ digits_text (length place.old) n }
{
    if !place.is_empty() {
        let last = place.len() - 1;
        place[last] = b'0' + (n % 10) as u8;
        put_digits(&mut place[..last], n / 10);
    }
}
