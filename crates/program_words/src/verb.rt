//! The names of the commands.
ghost use Rattle.std.specs.Prelude.{◌≡◌, IfSome};
ghost use Rattle.program_words.specs.Reading.{verb_word, verb_at};

/// The commands of the command line.
#[derive(Clone, Copy, PartialEq, Eq, Debug)]
pub enum Verb {
    Show,
    Init,
    Run,
    Serve,
    Sweep,
    Compact,
    Discards,
    Payload,
    Query,
    Make,
}

/// The command with that name.
#[tactic(auto, unfolding(crate::specs::Reading::verb_at))]
pub(crate) fn verb_of(word: &str) -> Option<Verb>
    ensures value { result ≡ verb_at word.now }
    ensures some { IfSome result (λ v. word.now ≡ verb_word v) }
{
    if word == "show" {
        Some(Verb::Show)
    } else if word == "init" {
        Some(Verb::Init)
    } else if word == "run" {
        Some(Verb::Run)
    } else if word == "serve" {
        Some(Verb::Serve)
    } else if word == "sweep" {
        Some(Verb::Sweep)
    } else if word == "compact" {
        Some(Verb::Compact)
    } else if word == "discards" {
        Some(Verb::Discards)
    } else if word == "payload" {
        Some(Verb::Payload)
    } else if word == "query" {
        Some(Verb::Query)
    } else if word == "make" {
        Some(Verb::Make)
    } else {
        None
    }
}
