//! Laws of leaves and of the derived rows.
ghost use Rattle.fact_paths.specs.Laws.{PathsLeadBack, NoLeafIsMissing, PathsRise, ContentsShowTheirFact, InventoryShowsItsFactset};

/// A path of a leaf leads to the leaf, in a value whose objects have distinct keys.
#[tactic(auto, using(crate::proofs::LeafLaws::paths_lead_back))]
pub fn paths_lead_back()
    ensures { PathsLeadBack }
{}

/// Whatever goes no deeper is among the leaves, with its path.
#[tactic(auto, using(crate::proofs::LeafLaws::no_leaf_is_missing))]
pub fn no_leaf_is_missing()
    ensures { NoLeafIsMissing }
{}

/// The paths of a value's leaves rise, so that each leaf has one path.
#[tactic(auto, using(crate::proofs::RisingLaws::paths_rise))]
pub fn paths_rise()
    ensures { PathsRise }
{}

/// Derived rows show under their columns what the rows that they come from show under theirs.
#[tactic(auto, using(crate::proofs::RowLaws::contents_show, crate::proofs::RowLaws::inventory_shows))]
pub fn derived_rows_show_their_base()
    ensures contents { ContentsShowTheirFact }
    ensures inventory { InventoryShowsItsFactset }
{}
