//! Answers the texts of queries from the tables, after PuppetDB's query API v4.
//!
//! - [`answer_text`] answers a query in either language. [`is_ast`] tells which one a text is in.
//! - [`answer_ast`] and [`answer_pql`] answer a whole query in one language.
//! - [`answer_filter`] answers the filter or extract of an entity's route.
//! - [`answer_query`] answers a query that was read already.
//!
//! The answer is the text of the rows (RFC 8259) or a [`QueryRefusal`], which [`QueryRefusal::text`] prints.
//!
//! The main guarantee: for tables that stand for a history, the answer is exactly the text of the rows that the definitions select.
//! The text spells the query by `query_spec` or `pql_spec`, and `means_spec` defines its rows. Each refusal is returned exactly
//! if the definitions refuse the text for this reason, or if the pattern reader refuses a pattern. The only other result is
//! missing memory.
//!
//! The clauses: `answer` for the tables as they are, `stands` for each history. BadPattern has the first refused pattern, and
//! the reader counts it (`cause`). A text whose first byte after white space is `[` is an AST, any other is PQL.
#![tactic(auto)]

mod answer;
mod language;
mod pql;
mod refusal;

pub use answer::{AnswerFault, answer_ast, answer_filter, answer_query};
pub use language::is_ast;
pub use pql::{answer_pql, answer_text};
pub use refusal::QueryRefusal;
