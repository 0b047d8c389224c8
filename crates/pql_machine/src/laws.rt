//! The laws of PQL's grammar.
ghost use Rattle.pql_machine.specs.Laws.{TextsHaveOneAnswer, TextsHaveSomeAnswer};
ghost use Rattle.pql_machine.specs.Verdict.{MachineTells, SpellsOneQuery};

/// A list of tokens spells at most one query.
pub fn tokens_spell_one_query()
    ensures { SpellsOneQuery }
{}

/// The machine finds the query that the tokens spell, or how many of them begin a query.
pub fn the_machine_tells_the_verdict()
    ensures { MachineTells }
{}

/// A text has exactly one answer: the checked query that it spells, or one fault at one position.
pub fn a_text_has_one_answer()
    ensures some { TextsHaveSomeAnswer }
    ensures one { TextsHaveOneAnswer }
{}
