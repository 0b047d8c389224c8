//! The laws of reach.
ghost use Rattle.query_reach.specs.Laws.{ChosenRowsAreFound, PlansReadTheBound, ReachIsLeast, CommonQueriesReadFew};

/// A stage chooses only rows in reach, and the stages of a plan read what the bound of the query says.
pub fn plans_stay_in_reach()
    ensures found { ChosenRowsAreFound }
    ensures bound { PlansReadTheBound }
{}

/// A conjunct leaves no more rows in reach than show what it says, and of several the least number counts.
pub fn reach_is_least()
    ensures { ReachIsLeast }
{}

/// Common queries may read few rows: the facts of a node, one fact, nodes with a resource.
pub fn bounds_are_small()
    ensures { CommonQueriesReadFew }
{}
