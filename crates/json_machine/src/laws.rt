//! The laws of JSON texts (RFC 8259). Each law is the contract of a function that does nothing.
ghost use Rattle.json_machine.specs.Laws.{SpellsOneValue, SpellsInUtf8, SpellsValues, CompactSpells, CompactTellsApart, HasOneVerdict, MachineTells};

/// A text spells at most one value.
pub fn a_text_spells_one_value()
    ensures { SpellsOneValue }
{}

/// A text that spells a value is UTF-8 (RFC 8259, section 8.1).
pub fn a_text_is_utf8()
    ensures { SpellsInUtf8 }
{}

/// Every spelled value has numbers in the spelling of numbers, texts and keys in UTF-8, distinct keys, and at most 127 levels.
pub fn a_text_spells_a_value_of_127_levels()
    ensures { SpellsValues }
{}

/// The compact text of such a value spells that value.
#[tactic(auto, using(crate::proofs::Spelled::compact_spells))]
pub fn the_compact_text_spells_its_value()
    ensures { CompactSpells }
{}

/// Two such values have the same compact text only if they are equal.
#[tactic(auto, using(crate::proofs::Spelled::compact_tells_apart))]
pub fn compact_texts_tell_values_apart()
    ensures { CompactTellsApart }
{}

/// Each text does exactly one of three things: it spells a value, goes wrong at one offset, or opens level 128 at one offset.
#[tactic(auto, using(crate::proofs::OneVerdict::one_verdict))]
pub fn a_text_has_one_verdict()
    ensures { HasOneVerdict }
{}

/// The machine tells which of the three holds, with the value or the offset.
#[tactic(auto, using(crate::proofs::Law::verdict_means))]
pub fn the_machine_tells_the_verdict()
    ensures { MachineTells }
{}
