//! The laws of queries.
ghost use Rattle.query_laws.specs.Laws.{TextsHaveSomeAnswer, TextsHaveOneAnswer, EntitiesHaveNames, OnlyNamesNameEntities, QueriesAreSpelt};
ghost use Rattle.query_laws.specs.Laws.{QueriesAreShallow, SpeltQueriesAreRead, RoutesAreSpelt, SpeltRoutesAreRead, FaultsStandInTheValue};
ghost use Rattle.query_laws.specs.Laws.{FaultsOfRoutesStandInTheValue, FirstFaultsAreTold, FirstFaultsOfRoutesAreTold};
ghost use Rattle.query_laws.specs.Laws.{FirstRefusalsAreTold, FirstRefusalsOfRoutesAreTold};

/// A text has exactly one answer: a query, or one refusal with its position. This holds for every way of reading the JSON value.
pub fn a_text_has_one_answer()
    ensures some { TextsHaveSomeAnswer }
    ensures one { TextsHaveOneAnswer }
{}

/// An entity that a query may name is named by its name and by no other text.
pub fn each_entity_has_its_name()
    ensures found { EntitiesHaveNames }
    ensures only { OnlyNamesNameEntities }
{}

/// The JSON values that are queries are exactly those that the grammar spells, with the same meaning. Their filters nest at most
/// 100 levels.
pub fn queries_are_what_the_grammar_spells()
    ensures read { QueriesAreSpelt }
    ensures shallow { QueriesAreShallow }
    ensures spelt { SpeltQueriesAreRead }
{}

/// The same holds for the filter or extract that an entity's route takes.
pub fn routes_are_asked_what_the_grammar_spells()
    ensures read { RoutesAreSpelt }
    ensures spelt { SpeltRoutesAreRead }
{}

/// The place of a fault is a place in the value.
pub fn faults_stand_in_the_value()
    ensures query { FaultsStandInTheValue }
    ensures route { FaultsOfRoutesStandInTheValue }
{}

/// Of each kind the fault that is told is the first in preorder: an unknown entity, an unknown field, a bad operand.
pub fn the_first_fault_is_told()
    ensures query { FirstFaultsAreTold }
    ensures route { FirstFaultsOfRoutesAreTold }
{}

/// The place of a fault in the form is the first in preorder at which no form allows the value.
pub fn the_first_value_without_a_form_is_told()
    ensures query { FirstRefusalsAreTold }
    ensures route { FirstRefusalsOfRoutesAreTold }
{}
