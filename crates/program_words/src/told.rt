//! The options and the plain arguments of a command.
ghost use Rattle.std.specs.Prelude.{◌≡◌, List, ℕ, IfSome, IsSome, map, option_map};
ghost use Rattle.clap.specs.Words.{found_of};
ghost use Rattle.program_words.specs.Words.{Split, alone};
ghost use Rattle.program_words.specs.Splitting.{split_of, plain_words, few_words, few, HasTold};

use clap::ArgMatches;

/// The plain arguments of a command. No command has more than four.
#[derive(Clone, Copy)]
pub(crate) enum Plain<'a> {
    Zero,
    One(&'a str),
    Two(&'a str, &'a str),
    Three(&'a str, &'a str, &'a str),
    Four(&'a str, &'a str, &'a str, &'a str),
}

/// The arguments after the command: the values of its options, and the plain arguments.
#[derive(Clone, Copy)]
pub(crate) struct Told<'a> {
    pub serve: Option<&'a str>,
    pub links: Option<&'a str>,
    pub plain: Plain<'a>,
}

/// The plain arguments, or None if an option is given.
pub(crate) fn alone<'a>(told: Told<'a>) -> Option<Plain<'a>>
    ensures some { IfSome result (λ plain. split_of told.entry ≡ alone (plain_words plain)) }
    ensures every { (plain : List (List ℕ)) → split_of told.entry ≡ alone plain → IsSome result }
{
    match told.serve {
        Some(_) => None,
        None => match told.links {
            Some(_) => None,
            None => Some(told.plain),
        },
    }
}

/// What clap found of a command. None if more than four arguments are plain.
pub(crate) fn told_of<'a>(matches: &ArgMatches<'a>) -> Option<Told<'a>>
    ensures { (split : Split) → HasTold (found_of matches.now) split → option_map split_of result ≡ few split }
{
    let serve = matches.get_str("serve");
    let links = matches.get_str("links");
    let plain = match matches.get_strs("plain") {
        Some(words) => plain_of(words)?,
        None => Plain::Zero,
    };
    Some(Told {
        serve,
        links,
        plain,
    })
}

fn plain_of<'a>(words: &[&'a str]) -> Option<Plain<'a>>
    ensures { option_map plain_words result ≡ few_words (map (λ w. w.now) words.now) }
{
    match words {
        [] => Some(Plain::Zero),
        [a] => Some(Plain::One(*a)),
        [a, b] => Some(Plain::Two(*a, *b)),
        [a, b, c] => Some(Plain::Three(*a, *b, *c)),
        [a, b, c, d] => Some(Plain::Four(*a, *b, *c, *d)),
        _ => None,
    }
}
