//! Defines the tokens of PQL.
ghost use Rattle.std.specs.Prelude.{◌≡◌, [], ◌∷◌};
ghost use Rattle.query_spec.specs.Parts.{name};
ghost use Rattle.pql_spec.specs.Tokens as spec;

use query_spec::json_tree::Text;
use query_spec::{Literal, Name, Op, Place, Scalar};

/// A token. A token that a fault may name carries its place: its number, counted from 0.
#[derive(Drop)]
pub enum Token {
    /// A word other than the keywords below: the name of an entity, a column or a function.
    Word(Name),
    /// A number, a text, `true` or `false`.
    Literal(Literal),
    OpenBracket(Place),
    CloseBracket,
    OpenBrace,
    CloseBrace,
    OpenParen,
    CloseParen,
    Comma,
    /// `!`
    Bang,
    /// `~`
    Tilde,
    /// `=`, `<`, `<=`, `>`, `>=`
    Comparison(Op),
    /// `!=`
    Differs,
    And,
    Or,
    In,
    Is,
    Not,
    Null,
    Group,
    Order,
    By,
    Asc,
    Desc,
    Limit,
    Offset,
}

fn bool_token(value: bool, place: Place) -> Token
    ensures { result ≡ spec.bool_token value place }
{
    Token::Literal(Literal {
        value: Scalar::Bool(value),
        place,
    })
}

/// The token of the word at this place.
#[tactic(auto, unfolding(crate::specs::Tokens::word_token))]
pub fn word_token(text: Text, place: Place) -> Token
    ensures { result ≡ spec.word_token text place }
{
    let word = text.as_str();
    if word == "and" {
        Token::And
    } else if word == "or" {
        Token::Or
    } else if word == "in" {
        Token::In
    } else if word == "is" {
        Token::Is
    } else if word == "not" {
        Token::Not
    } else if word == "null" {
        Token::Null
    } else if word == "true" {
        bool_token(true, place)
    } else if word == "false" {
        bool_token(false, place)
    } else if word == "group" {
        Token::Group
    } else if word == "order" {
        Token::Order
    } else if word == "by" {
        Token::By
    } else if word == "asc" {
        Token::Asc
    } else if word == "desc" {
        Token::Desc
    } else if word == "limit" {
        Token::Limit
    } else if word == "offset" {
        Token::Offset
    } else {
        Token::Word(Name { text, place })
    }
}
