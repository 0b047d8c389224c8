//! Reads the options that say what to serve.
ghost use Rattle.std.specs.Prelude.{◌≡◌, ℕ, Option, IfSome, None, Some};
ghost use Rattle.std.specs.Option.{option_map};
ghost use Rattle.program_words.specs.Words.{IsServing, AreLinks, IsPort};
ghost use Rattle.program_words.specs.Splitting.{value_word};
ghost use Rattle.program_words.specs.declared.request.Serving.{Serving};

use crate::lifetimes::number_in;
use crate::request::Serving;

/// What these option values ask a run to serve afterwards: `Some(None)` is nothing. None if they aren't allowed together.
pub(crate) fn serving_of<'a>(
    serve: Option<&'a str>,
    links: Option<&'a str>,
) -> Option<Option<Serving>>
    ensures some { IfSome result (IsServing (value_word serve.entry) (value_word links.entry)) }
    ensures every { (serving : Option Serving) → IsServing (value_word serve.entry) (value_word links.entry) serving → result ≡ Some serving }
{
    match serve {
        Some(word) => {
            let port = port_in(word)?;
            let links = links_of(links)?;
            Some(Some(Serving { port, links }))
        }
        None => match links {
            Some(_) => None,
            None => Some(None),
        },
    }
}

/// What a command serves that takes its port as a plain argument. None if `--serve` is given too.
pub(crate) fn served_at<'a>(
    port: &str,
    serve: Option<&'a str>,
    links: Option<&'a str>,
) -> Option<Serving>
    ensures some { IfSome result (λ serving. (value_word serve.entry ≡ None) × IsPort port.now serving.port × AreLinks (value_word links.entry) serving.links) }
    ensures every { (serving : Serving) → value_word serve.entry ≡ None → IsPort port.now serving.port
        → AreLinks (value_word links.entry) serving.links → result ≡ Some serving }
{
    match serve {
        Some(_) => None,
        None => {
            let port = port_in(port)?;
            let links = links_of(links)?;
            Some(Serving { port, links })
        }
    }
}

/// The TCP port that the argument gives.
pub(crate) fn port_in(word: &str) -> Option<u16>
    ensures some { IfSome result (IsPort word.now) }
    ensures every { (port : ℕ) → IsPort word.now port → result ≡ Some port }
{
    let port = number_in(word, 65_535)?;
    Some(port as u16)
}

/// The number of connections to serve: the value of `--links`, or 2^32 - 1 if it isn't given.
pub(crate) fn links_of<'a>(links: Option<&'a str>) -> Option<u32>
    ensures some { IfSome result (AreLinks (value_word links.entry)) }
    ensures every { (count : ℕ) → AreLinks (value_word links.entry) count → result ≡ Some count }
{
    match links {
        Some(word) => number_in(word, 4_294_967_295),
        None => Some(4_294_967_295),
    }
}
