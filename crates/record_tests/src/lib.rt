//! Tests of the records of the logs, of spools and of arguments. There is nothing here but tests. Most cases are lines of text, which
//! `trials.rt` hands to the functions that try them.
//!
//! - Records of the two logs (`queue_records`, `store_records`): each is read from its bytes and written as them, and other bytes are
//!   no record. Each byte of each record is changed or cut off, or one is added: no record has a second spelling. The longest
//!   payload goes both ways.
//! - Spools (`spool_text`, `spool_maker`): in pieces of one byte and more, their items and faults come in order. Items that are
//!   cut, and bytes that don't have the form of an item. A large payload, followed by the next item. Generated spools: the items
//!   of a seed, a sink that fails, and that the text can be read as a spool.
//! - Arguments (`program_words`): which spell a request, which spell none, and which spell the same. Options may stand anywhere.
#![tactic(auto)]

#[cfg(test)]
mod arguments;
#[cfg(test)]
mod made_spools;
#[cfg(test)]
mod record_queue;
#[cfg(test)]
mod record_queue_texts;
#[cfg(test)]
mod record_spellings;
#[cfg(test)]
mod record_store;
#[cfg(test)]
mod record_store_texts;
#[cfg(test)]
mod spools;
#[cfg(test)]
mod trials;
#[cfg(test)]
mod wrong;
