//! Makes the request of a command from its options and plain arguments.
ghost use Rattle.std.specs.Prelude.{◌≡◌, ◌∷◌, [], false, IfSome, Some};
ghost use Rattle.program_words.specs.Words.{alone, Asks, ArePlain, HasOptions};
ghost use Rattle.program_words.specs.Reading.{verb_word, takes_options};
ghost use Rattle.program_words.specs.Splitting.{split_of, plain_words, value_word};
ghost use Rattle.program_words.specs.declared.request.Request.{Request};

use crate::kinds::kinds_of;
use crate::lifetimes::{lifetimes_of, number_in, number_up_to, whole_in};
use crate::request::Request;
use crate::serving::{served_at, serving_of};
use crate::told::{Plain, Told, alone};
use crate::verb::Verb;
use spool_spec::fleet_rows::MOST_WORKERS;
use spool_spec::stamp_time::read_stamp;

/// The request of this command with these options and plain arguments, or None if they spell no request.
pub(crate) fn request_of<'a>(verb: Verb, told: Told<'a>) -> Option<Request>
    ensures some { IfSome result (Asks (verb_word verb) (split_of told.entry)) }
    ensures every { (request : Request) → Asks (verb_word verb) (split_of told.entry) request → result ≡ Some request }
{
    match verb {
        Verb::Run => run_of(told),
        Verb::Serve => serve_of(told),
        Verb::Show
        | Verb::Init
        | Verb::Sweep
        | Verb::Compact
        | Verb::Discards
        | Verb::Payload
        | Verb::Query
        | Verb::Make => without_options(verb, told),
    }
}

fn without_options<'a>(verb: Verb, told: Told<'a>) -> Option<Request>
    ensures some { IfSome result (Asks (verb_word verb) (split_of told.entry)) }
    ensures every { (request : Request) → takes_options verb ≡ false → Asks (verb_word verb) (split_of told.entry) request → result ≡ Some request }
{
    plainly(verb, alone(told)?)
}

// The request of a command that takes no options.
fn plainly<'a>(verb: Verb, plain: Plain<'a>) -> Option<Request>
    ensures some { IfSome result (Asks (verb_word verb) (alone (plain_words plain.entry))) }
    ensures every { (request : Request) → takes_options verb ≡ false → Asks (verb_word verb) (alone (plain_words plain.entry)) request → result ≡ Some request }
{
    match verb {
        Verb::Show => show_of(plain),
        Verb::Init => init_of(plain),
        Verb::Sweep => sweep_of(plain),
        Verb::Compact => compact_of(plain),
        Verb::Discards => discards_of(plain),
        Verb::Payload => payload_of(plain),
        Verb::Query => query_with(plain),
        Verb::Make => make_of(plain),
        Verb::Run | Verb::Serve => None,
    }
}

fn show_of<'a>(plain: Plain<'a>) -> Option<Request>
    ensures some { IfSome result (Asks (verb_word Verb.Show) (alone (plain_words plain.entry))) }
    ensures every { (request : Request) → Asks (verb_word Verb.Show) (alone (plain_words plain.entry)) request → result ≡ Some request }
{
    match plain {
        Plain::Zero => Some(Request::Show),
        _ => None,
    }
}

fn compact_of<'a>(plain: Plain<'a>) -> Option<Request>
    ensures some { IfSome result (Asks (verb_word Verb.Compact) (alone (plain_words plain.entry))) }
    ensures every { (request : Request) → Asks (verb_word Verb.Compact) (alone (plain_words plain.entry)) request → result ≡ Some request }
{
    match plain {
        Plain::Zero => Some(Request::Compact),
        _ => None,
    }
}

fn discards_of<'a>(plain: Plain<'a>) -> Option<Request>
    ensures some { IfSome result (Asks (verb_word Verb.Discards) (alone (plain_words plain.entry))) }
    ensures every { (request : Request) → Asks (verb_word Verb.Discards) (alone (plain_words plain.entry)) request → result ≡ Some request }
{
    match plain {
        Plain::Zero => Some(Request::Discards),
        _ => None,
    }
}

fn query_with<'a>(plain: Plain<'a>) -> Option<Request>
    ensures some { IfSome result (Asks (verb_word Verb.Query) (alone (plain_words plain.entry))) }
    ensures every { (request : Request) → Asks (verb_word Verb.Query) (alone (plain_words plain.entry)) request → result ≡ Some request }
{
    match plain {
        Plain::One(_text) => Some(Request::Query),
        _ => None,
    }
}

fn init_of<'a>(plain: Plain<'a>) -> Option<Request>
    ensures some { IfSome result (Asks (verb_word Verb.Init) (alone (plain_words plain.entry))) }
    ensures every { (request : Request) → Asks (verb_word Verb.Init) (alone (plain_words plain.entry)) request → result ≡ Some request }
{
    match lifetimes_of(plain) {
        Some(ttls) => Some(Request::Init { ttls }),
        None => None,
    }
}

fn sweep_of<'a>(plain: Plain<'a>) -> Option<Request>
    ensures some { IfSome result (Asks (verb_word Verb.Sweep) (alone (plain_words plain.entry))) }
    ensures every { (request : Request) → Asks (verb_word Verb.Sweep) (alone (plain_words plain.entry)) request → result ≡ Some request }
{
    match plain {
        Plain::Two(kinds, stamp) => sweep_with(kinds, stamp),
        _ => None,
    }
}

fn payload_of<'a>(plain: Plain<'a>) -> Option<Request>
    ensures some { IfSome result (Asks (verb_word Verb.Payload) (alone (plain_words plain.entry))) }
    ensures every { (request : Request) → Asks (verb_word Verb.Payload) (alone (plain_words plain.entry)) request → result ≡ Some request }
{
    match plain {
        Plain::One(number) => payload_with(number),
        _ => None,
    }
}

fn make_of<'a>(plain: Plain<'a>) -> Option<Request>
    ensures some { IfSome result (Asks (verb_word Verb.Make) (alone (plain_words plain.entry))) }
    ensures every { (request : Request) → Asks (verb_word Verb.Make) (alone (plain_words plain.entry)) request → result ≡ Some request }
{
    match plain {
        Plain::Two(number, items) => make_with(number, items),
        _ => None,
    }
}

fn sweep_with(kinds: &str, stamp: &str) -> Option<Request>
    ensures some { IfSome result (Asks (verb_word Verb.Sweep) (alone (kinds.now ∷ stamp.now ∷ []))) }
    ensures every { (request : Request) → Asks (verb_word Verb.Sweep) (alone (kinds.now ∷ stamp.now ∷ [])) request → result ≡ Some request }
{
    let kinds = kinds_of(kinds)?;
    let now = read_stamp(stamp)?;
    Some(Request::Sweep { kinds, now })
}

fn payload_with(number: &str) -> Option<Request>
    ensures some { IfSome result (Asks (verb_word Verb.Payload) (alone (number.now ∷ []))) }
    ensures every { (request : Request) → Asks (verb_word Verb.Payload) (alone (number.now ∷ [])) request → result ≡ Some request }
{
    let receipt = whole_in(number)?;
    Some(Request::Payload { receipt })
}

fn make_with(number: &str, items: &str) -> Option<Request>
    ensures some { IfSome result (Asks (verb_word Verb.Make) (alone (number.now ∷ items.now ∷ []))) }
    ensures every { (request : Request) → Asks (verb_word Verb.Make) (alone (number.now ∷ items.now ∷ [])) request → result ≡ Some request }
{
    let seed = whole_in(number)?;
    let count = number_up_to(items, 1_000_000)?;
    Some(Request::Make { seed, count })
}

fn run_of<'a>(told: Told<'a>) -> Option<Request>
    ensures some { IfSome result (Asks (verb_word Verb.Run) (split_of told.entry)) }
    ensures every { (request : Request) → Asks (verb_word Verb.Run) (split_of told.entry) request → result ≡ Some request }
{
    match told.plain {
        Plain::Two(number, stamp) => run_with(number, stamp, told.serve, told.links),
        _ => None,
    }
}

fn serve_of<'a>(told: Told<'a>) -> Option<Request>
    ensures some { IfSome result (Asks (verb_word Verb.Serve) (split_of told.entry)) }
    ensures every { (request : Request) → Asks (verb_word Verb.Serve) (split_of told.entry) request → result ≡ Some request }
{
    match told.plain {
        Plain::Two(port, stamp) => serve_with(port, stamp, told.serve, told.links),
        _ => None,
    }
}

fn run_with<'a>(
    number: &str,
    stamp: &str,
    serve: Option<&'a str>,
    links: Option<&'a str>,
) -> Option<Request>
    ensures some { IfSome result (Asks (verb_word Verb.Run)
        (record { serve = value_word serve.entry; links = value_word links.entry; plain = number.now ∷ stamp.now ∷ [] })) }
    ensures every { (request : Request) → Asks (verb_word Verb.Run)
        (record { serve = value_word serve.entry; links = value_word links.entry; plain = number.now ∷ stamp.now ∷ [] }) request → result ≡ Some request }
{
    let workers = number_in(number, MOST_WORKERS)?;
    let now = read_stamp(stamp)?;
    let serving = serving_of(serve, links)?;
    Some(Request::Run {
        workers,
        now,
        serving,
    })
}

fn serve_with<'a>(
    port: &str,
    stamp: &str,
    serve: Option<&'a str>,
    links: Option<&'a str>,
) -> Option<Request>
    ensures some { IfSome result (Asks (verb_word Verb.Serve)
        (record { serve = value_word serve.entry; links = value_word links.entry; plain = port.now ∷ stamp.now ∷ [] })) }
    ensures every { (request : Request) → Asks (verb_word Verb.Serve)
        (record { serve = value_word serve.entry; links = value_word links.entry; plain = port.now ∷ stamp.now ∷ [] }) request → result ≡ Some request }
{
    let serving = served_at(port, serve, links)?;
    let now = read_stamp(stamp)?;
    Some(Request::Serve { serving, now })
}
