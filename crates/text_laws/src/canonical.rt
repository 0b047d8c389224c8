//! Laws of the canonical text: it ignores the order of members and nothing else.
ghost use Rattle.text_laws.specs.CanonicalLaws.{ArrangedStays, ArrangedMembersAscend, CanonicalTextForgetsMoves};
ghost use Rattle.text_laws.specs.CanonicalLaws.{CanonicalTextForgetsOrder, ArrangedIsReordered};
ghost use Rattle.text_laws.specs.ValueLaws.{CanonicalTextSpells, CanonicalTextsTellApart, EqualInOrderIsOneCanonicalText, OneCanonicalTextIsSame};

/// Sorting the members of an arranged value changes nothing.
#[tactic(auto, using(crate::proofs::CanonicalLaws::arranged_stays))]
pub fn an_arranged_value_stays()
    ensures { ArrangedStays }
{}

/// If the keys of an object are distinct, they strictly ascend after its members are sorted.
#[tactic(auto, using(crate::proofs::CanonicalLaws::arranged_members_ascend))]
pub fn arranged_members_ascend()
    ensures { ArrangedMembersAscend }
{}

/// The order of members makes no difference to the canonical text, in one object or in all.
#[tactic(auto, using(crate::proofs::CanonicalLaws::canonical_moved, crate::proofs::CanonicalLaws::canonical_reordered))]
pub fn the_canonical_text_forgets_the_order_of_members()
    ensures one_object { CanonicalTextForgetsMoves }
    ensures all_objects { CanonicalTextForgetsOrder }
{}

/// Arranging a value only reorders the members of its objects.
#[tactic(auto, using(crate::proofs::ReorderedLaws::arranged_is_reordered))]
pub fn an_arranged_value_is_reordered()
    ensures { ArrangedIsReordered }
{}

/// The canonical text of a value with at most 127 levels is JSON (RFC 8259), and spells the arranged value.
#[tactic(auto, using(crate::proofs::ValueLaws::canonical_text_spells))]
pub fn the_canonical_text_spells_the_arranged_value()
    ensures { CanonicalTextSpells }
{}

/// Two values have the same canonical text exactly if both are reorderings of some third value.
#[tactic(auto, using(crate::proofs::ValueLaws::canonical_texts_tell_apart))]
pub fn the_canonical_text_forgets_no_more()
    ensures { CanonicalTextsTellApart }
{}

/// Two values are equal in the order exactly if they have the same canonical text.
#[tactic(auto, using(crate::proofs::ValueLaws::equal_is_one_canonical_text))]
pub fn equal_in_order_is_one_canonical_text()
    ensures { EqualInOrderIsOneCanonicalText }
{}

/// Two values with the same canonical text are the same.
#[tactic(auto, using(crate::proofs::ValueLaws::one_canonical_text_is_same))]
pub fn one_canonical_text_is_same()
    ensures { OneCanonicalTextIsSame }
{}
