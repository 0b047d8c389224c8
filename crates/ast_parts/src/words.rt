//! Finds the meaning of the head words of the AST's lists.
ghost use Rattle.std.specs.Prelude.{◌≡◌, option_map};
ghost use Rattle.query_spec.specs.Words as spec;
ghost use Rattle.ast_parts.specs.FilterWords as part;

use query_spec::{FieldWord, FilterWord, Function, InnerWord, Op, PartWord};

/// The filter that begins with this word.
#[tactic(auto, unfolding(query_spec::specs::Words::filter_word))]
pub fn filter_word(text: &str) -> FilterWord
    ensures { result ≡ spec.filter_word text.now }
{
    if text == "and" {
        FilterWord::And
    } else if text == "or" {
        FilterWord::Or
    } else if text == "not" {
        FilterWord::Not
    } else {
        compare_word(text)
    }
}

// The comparison operator, or a filter that isn't a connective.
fn compare_word(text: &str) -> FilterWord
    ensures { result ≡ part.compare_word text.now }
{
    if text == "=" {
        FilterWord::Compare(Op::Equal)
    } else if text == "<" {
        FilterWord::Compare(Op::Less)
    } else if text == "<=" {
        FilterWord::Compare(Op::AtMost)
    } else if text == ">" {
        FilterWord::Compare(Op::More)
    } else if text == ">=" {
        FilterWord::Compare(Op::AtLeast)
    } else {
        test_word(text)
    }
}

fn test_word(text: &str) -> FilterWord
    ensures { result ≡ part.test_word text.now }
{
    if text == "~" {
        FilterWord::Matches
    } else if text == "null?" {
        FilterWord::IsNull
    } else if text == "in" {
        FilterWord::In
    } else if text == "subquery" {
        FilterWord::Subquery
    } else {
        FilterWord::Other
    }
}

/// The field that begins with this word.
#[tactic(auto, unfolding(query_spec::specs::Words::field_word))]
pub(crate) fn field_word(text: &str) -> FieldWord
    ensures { result ≡ spec.field_word text.now }
{
    if text == "parameter" {
        FieldWord::Parameter
    } else if text == "fact" {
        FieldWord::Fact
    } else {
        FieldWord::Other
    }
}

/// The right side of `in` that begins with this word.
#[tactic(auto, unfolding(query_spec::specs::Words::inner_word))]
pub fn inner_word(text: &str) -> InnerWord
    ensures { result ≡ spec.inner_word text.now }
{
    if text == "array" {
        InnerWord::Array
    } else if text == "extract" {
        InnerWord::Extract
    } else if text == "from" {
        InnerWord::From
    } else {
        InnerWord::Other
    }
}

/// The part of a query that begins with this word.
#[tactic(auto, unfolding(query_spec::specs::Words::part_word))]
pub fn part_word(text: &str) -> PartWord
    ensures { result ≡ spec.part_word text.now }
{
    if text == "extract" {
        PartWord::Extract
    } else if text == "limit" {
        PartWord::Limit
    } else if text == "offset" {
        PartWord::Offset
    } else if text == "order_by" {
        PartWord::OrderBy
    } else {
        PartWord::Other
    }
}

/// The function with this name.
#[tactic(auto, unfolding(query_spec::specs::Words::function_named))]
pub fn function_named(text: &str) -> Option<Function>
    ensures { result ≡ spec.function_named text.now }
{
    if text == "count" {
        Some(Function::Count)
    } else if text == "sum" {
        Some(Function::Sum)
    } else if text == "min" {
        Some(Function::Min)
    } else if text == "max" {
        Some(Function::Max)
    } else {
        None
    }
}

/// The name of the entity in `select_E`.
pub fn behind_select(text: &str) -> Option<&str>
    ensures { option_map (λ s. s.now) result ≡ spec.behind_select text.now }
{
    text.strip_prefix("select_")
}
