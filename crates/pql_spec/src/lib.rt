//! Defines PQL, a profile of the Puppet query language of PuppetDB's query API v4: its tokens, its grammar, and the answer to a
//! text.
//!
//! - `specs/Tokens.antt`: the bytes that spell each token.
//! - `specs/Grammar.antt`: the grammar as syntax trees. Each has its tokens and its meaning, a tree of `query_spec`.
//! - `specs/Texts.antt`: how a text splits into tokens by longest match, which query a text spells, and where any other text goes
//!   wrong.
//!
//! A token that a fault may name carries its number, counted from 0. These are names, literals, and opening brackets, which may
//! begin the right side of `in`. The grammar alone defines precedence: `!` precedes an operand, `and` joins operands to a group,
//! and `or` joins groups to a region.
//!
//! A law: a text is at most one list of tokens ([`a_text_has_one_list_of_tokens`]).
#![tactic(auto)]

mod laws;
mod token;

pub use laws::a_text_has_one_list_of_tokens;
pub use token::{Token, word_token};

// Re-exports for the crates above.
pub use query_spec;
pub use query_spec::json_tree;
