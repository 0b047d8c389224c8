//! Tests of the languages of queries, and of what they are answered from tables: `ast_reader`, `pql_reader`, `query_answer`,
//! `query_engine`, `query_plain`, `paging_text` and `pattern_regex` over `fleet_tables`. There is nothing here but tests.
//!
//! Most cases are lines of text (`play.rt`): commands by their payloads, queries, and the rows or the refusal that each is told. Each
//! query is also answered by reading all rows, and its answer has to be the same.
#![tactic(auto)]

#[cfg(test)]
mod alike;
#[cfg(test)]
mod answered;
#[cfg(test)]
mod ast;
#[cfg(test)]
mod deep;
#[cfg(test)]
mod documented;
#[cfg(test)]
mod play;
#[cfg(test)]
mod pql;
#[cfg(test)]
mod reach;
#[cfg(test)]
mod short_texts;
