//! Laws on PQL's tokens. Each law is the contract of a function with an empty body.
ghost use Rattle.pql_spec.specs.Laws.{TextsHaveOneList};

/// A text has at most one list of tokens.
pub fn a_text_has_one_list_of_tokens()
    ensures { TextsHaveOneList }
{}
