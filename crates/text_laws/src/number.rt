//! Laws of numbers: a spelling has one set of parts and at most one value, and two spellings compare by value.
ghost use Rattle.text_laws.specs.NumberLaws.{NumberTextsTellTheirParts, NumberTextsHaveOneReading, NumbersHaveAtMostOneValue};
ghost use Rattle.text_laws.specs.NumberLaws.{ScaledIsTheValue, NumbersCompareByValue};

/// The text of a number determines its parts.
pub fn a_number_text_has_one_reading()
    ensures parts { NumberTextsTellTheirParts }
    ensures reading { NumberTextsHaveOneReading }
{}

/// The value computed from a number's spelling is the value that the definition gives it.
pub fn scaled_is_the_value()
    ensures { ScaledIsTheValue }
{}

/// A number's text has at most one value.
pub fn a_number_has_at_most_one_value()
    ensures { NumbersHaveAtMostOneValue }
{}

/// Two scaled numbers compare by value. An unscaled number equals only its own spelling.
#[tactic(auto, using(crate::proofs::NumberLaws::numbers_compare_by_value))]
pub fn numbers_compare_by_value()
    ensures { NumbersCompareByValue }
{}
