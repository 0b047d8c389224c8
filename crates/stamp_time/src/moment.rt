//! Moments: points in time with a resolution of a nanosecond.
ghost use Rattle.std.specs.Prelude.{◌≡◌, ◌↔◌, ℕ, ℤ, List, IsTrue};
ghost use Rattle.text_spec.specs.Stamp.{IsStampOf};
ghost use Rattle.stamp_time.specs.Range.{IsStampMoment};

use std::marker::Model;

/// Nanoseconds since 1970-01-01T00:00:00Z; negative before that.
#[derive(Clone, Copy, PartialEq, Eq, PartialOrd, Ord, Debug)]
pub struct Moment {
    nanos: i128,
}

impl Model for Moment {
    ghost Value = { ℤ };

    ghost view = { λ a. a.nanos };

    ghost inverse = { λ z. record { nanos = z } };
}

impl Moment {
    /// The moment this many nanoseconds after 1970-01-01T00:00:00Z.
    pub fn from_nanosecond(nanos: i128) -> Moment
        ensures { result ≡ nanos }
    {
        Moment { nanos }
    }

    /// The nanoseconds since 1970-01-01T00:00:00Z.
    pub fn as_nanosecond(self) -> i128
        ensures { result ≡ self }
    {
        self.nanos
    }

    /// Whether the moment has a stamp. The first such moment is 0001-01-01T00:00:00+23:59, the last is
    /// 9900-12-31T23:59:59.999999999-23:59.
    pub fn has_stamp(self) -> bool
        ensures range { IsTrue result ↔ IsStampMoment self }
        ensures named { IsTrue result ↔ ((text : List ℕ) × IsStampOf text self) }
    {
        is_in_range(self.nanos)
    }
}

// Whether the moment this many nanoseconds after 1970-01-01T00:00:00Z has a stamp.
fn is_in_range(nanos: i128) -> bool
    ensures { IsTrue result ↔ IsStampMoment nanos }
{
    nanos >= -62_135_683_140_000_000_000 && nanos <= 250_278_249_539_999_999_999
}
