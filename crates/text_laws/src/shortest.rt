//! The law of lengths: no text that spells a value is shorter than its compact text.
ghost use Rattle.text_laws.specs.LengthLaws.{CompactIsShortest};

/// The compact text of a value is at most as long as any text that spells the value (RFC 8259). White space, other escapes and
/// members that a later key replaces only make a text longer.
#[tactic(auto, using(crate::proofs::LengthLaws::compact_is_shortest))]
pub fn the_compact_text_is_a_shortest()
    ensures { CompactIsShortest }
{}
