//! Laws of `same`: it is an equivalence on values with distinct keys, and coarser than equality after sorting members.
ghost use Rattle.text_laws.specs.SameLaws.{SameIsAnEquivalence, AlikeArrangedIsSame, SameMayDiffer};

/// On values with distinct keys, `same` is reflexive, symmetric and transitive.
#[tactic(auto, using(crate::proofs::SameLaws::same_is_an_equivalence))]
pub fn same_is_an_equivalence()
    ensures { SameIsAnEquivalence }
{}

/// Values that are equal after their members are sorted are the same.
#[tactic(auto, using(crate::proofs::SameLaws::alike_arranged_is_same))]
pub fn alike_arranged_is_same()
    ensures { AlikeArrangedIsSame }
{}

/// Two values that are the same may have different canonical texts, as 1 and 1.0 do.
#[tactic(auto, using(crate::proofs::SameLaws::same_may_differ))]
pub fn same_values_may_differ()
    ensures { SameMayDiffer }
{}
