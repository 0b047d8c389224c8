//! Reads the arguments of a command line.
ghost use Rattle.std.specs.Prelude.{◌≡◌, ◌↔◌, ◌∷◌, [], ℕ, List, IfOk, IfSome, IsTrue, Some, codes, option_and_then};
ghost use Rattle.std.specs.Option.{option_map};
ghost use Rattle.program_words.specs.Words.{alone, Asks, IsRequest, AsksQuery, HasMoment, MayWait};
ghost use Rattle.program_words.specs.Reading.{waits_at};
ghost use Rattle.program_words.specs.Splitting.{split_of, value_word};
ghost use Rattle.program_words.specs.declared.request.Request.{Request};

use crate::asked::request_of;
use crate::memory::Memory;
use crate::request::{Asked, Request};
use crate::split::split_words;
use crate::told::{Plain, Told, alone};
use crate::verb::verb_of;
use spool_spec::json_tree::Text;
use std::alloc::Global;

/// The request that the arguments spell and the text of a query, in one pass. None if they spell no request.
pub fn asked_by<'a>(alloc: Global, words: &'a [Text]) -> Result<Option<Asked<'a>>, Memory>
    ensures some { IfOk result (λ r. IfSome r (λ asked. IsRequest words.entry.now asked.request)) }
    ensures every { IfOk result (λ r. (request : Request) → IsRequest words.entry.now request → option_map (λ asked. asked.request) r ≡ Some request) }
    ensures query { IfOk result (λ r. IfSome r (λ asked. IfSome asked.query (λ text. AsksQuery words.entry.now text.now))) }
    ensures every_query { IfOk result (λ r. (text : List ℕ) → AsksQuery words.entry.now text
        → option_and_then (λ asked. value_word asked.query) r ≡ Some text) }
    ensures moment { IfOk result (λ r. IfSome r (λ asked. HasMoment asked.request)) }
{
    let split = split_words(alloc, words)?;
    match split {
        Some((command, told)) => Ok(asked_with(command, told)),
        None => Ok(None),
    }
}

/// The request that the arguments spell, or None if they spell none. The moment of a request has a stamp.
pub fn read_words(alloc: Global, words: &[Text]) -> Result<Option<Request>, Memory>
    ensures some { IfOk result (λ r. IfSome r (IsRequest words.now)) }
    ensures every { IfOk result (λ r. (request : Request) → IsRequest words.now request → r ≡ Some request) }
    ensures moment { IfOk result (λ r. IfSome r HasMoment) }
{
    match asked_by(alloc, words) {
        Ok(found) => match found {
            Some(asked) => Ok(Some(asked.request)),
            None => Ok(None),
        },
        Err(memory) => Err(memory),
    }
}

/// The text of the query that the arguments ask for, or None if they ask for no query.
pub fn query_of<'a>(alloc: Global, words: &'a [Text]) -> Result<Option<&'a str>, Memory>
    ensures some { IfOk result (λ r. IfSome r (λ text. AsksQuery words.entry.now text.now)) }
    ensures every { IfOk result (λ r. (text : List ℕ) → AsksQuery words.entry.now text → value_word r ≡ Some text) }
{
    match asked_by(alloc, words) {
        Ok(found) => match found {
            Some(asked) => Ok(asked.query),
            None => Ok(None),
        },
        Err(memory) => Err(memory),
    }
}

/// Arguments spell at most one request.
pub fn spells_one()
    ensures { (words : List (List ℕ)) (a b : Request) → IsRequest words a → IsRequest words b → a ≡ b }
{}

// What the command asks for with these options and plain arguments.
fn asked_with<'a>(command: &str, told: Told<'a>) -> Option<Asked<'a>>
    ensures some { IfSome result (λ asked. Asks command.now (split_of told.entry) asked.request) }
    ensures every { (request : Request) → Asks command.now (split_of told.entry) request → option_map (λ asked. asked.request) result ≡ Some request }
    ensures query { IfSome result (λ asked. IfSome asked.query (λ text. (command.now ≡ codes "query") × (split_of told.entry ≡ alone (text.now ∷ [])))) }
    ensures every_query { (text : List ℕ) → command.now ≡ codes "query" → split_of told.entry ≡ alone (text ∷ [])
        → option_and_then (λ asked. value_word asked.query) result ≡ Some text }
{
    let verb = verb_of(command)?;
    let request = request_of(verb, told)?;
    Some(Asked {
        request,
        query: text_with(command, told),
    })
}

// The text of a query.
fn text_with<'a>(command: &str, told: Told<'a>) -> Option<&'a str>
    ensures some { IfSome result (λ text. (command.now ≡ codes "query") × (split_of told.entry ≡ alone (text.now ∷ []))) }
    ensures every { (text : List ℕ) → command.now ≡ codes "query" → split_of told.entry ≡ alone (text ∷ []) → value_word result ≡ Some text }
{
    if command == "query" {
        text_of(told)
    } else {
        None
    }
}

// The single plain argument.
fn text_of<'a>(told: Told<'a>) -> Option<&'a str>
    ensures some { IfSome result (λ text. split_of told.entry ≡ alone (text.now ∷ [])) }
    ensures every { (text : List ℕ) → split_of told.entry ≡ alone (text ∷ []) → value_word result ≡ Some text }
{
    match alone(told)? {
        Plain::One(text) => Some(text),
        _ => None,
    }
}

/// Whether the command may wait: its first argument is `run` or `serve`, whatever follows. It takes no memory.
pub fn needs_wait(words: &[Text]) -> bool
    ensures { IsTrue result ↔ MayWait words.now }
{
    match words {
        [word, ..] => waits(word.as_str()),
        [] => false,
    }
}

fn waits(word: &str) -> bool
    ensures { result ≡ waits_at word.now }
{
    word == "run" || word == "serve"
}
