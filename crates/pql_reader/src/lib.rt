//! Reads PQL from bytes and checks it: a profile of the Puppet query language of PuppetDB's query API v4.
//!
//! [`read_pql`] is the only call. It returns a checked [`Query`] or a [`PqlFault`] with its exact position.
//!
//! Its contract promises the answer that `AnswerOf` of `pql_spec` relates to the text. A text has exactly one such answer (a law
//! of `pql_machine`), so the call can't return another query or another fault. The only other result is missing memory.
//!
//! Tokens come from `pql_lexer`, one at a time. The reader follows the machine of `pql_machine` state by state: `pql_parts` has its
//! states and what is open around a filter, and each file here has a part of its steps. Nothing recurses over parentheses or
//! braces.
//!
//! A new form of filter needs a token in `pql_spec`, a mode in `Mode` of `pql_parts` and in `pql_machine`, and a function in
//! `operand.rt`.
//!
//! A fault is the first of these: too long, bad PQL, unknown entity, unknown field, bad operand. Texts have at most 1,048,576
//! bytes. Bad PQL has the position of the first token with which no query continues. Reading takes one pass and a few steps for
//! each token. Only the final check recurses, at most 100 levels deep.
#![tactic(auto)]

mod operand;
mod page;
mod read;
mod region;
mod step;

pub use read::{PqlFault, read_pql};
