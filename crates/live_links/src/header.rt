//! Reads the field X-Fleet-Seen of a request.
ghost use Rattle.std.specs.Prelude.{◌≡◌, ◌≢◌, ◌<◌, ◌^◌, ℕ, Some, IfSome, IfNone, decimal};
ghost use Rattle.live_links.specs.Headers.{HeaderAsks, seen_field, lacks};

use http_spec::Request;
use itoa::Buffer;

/// How many events of the live trace a query's tables must have.
#[derive(Clone, Copy, PartialEq, Eq, Debug)]
pub enum Least {
    /// The request doesn't say: any number.
    Any,
    /// So many, or more.
    AtLeast(u64),
    /// The field's value is no such number.
    Bad,
}

// The number below 2^64 that the bytes write in decimal, without a sign or a leading zero.
fn number_of(bytes: &[u8]) -> Least
    ensures { HeaderAsks (Some bytes.now) result }
{
    match str::from_utf8(bytes) {
        Ok(text) => number_in(text),
        Err(_) => Least::Bad,
    }
}

fn number_in(text: &str) -> Least
    ensures { HeaderAsks (Some text.now) result }
{
    match text.parse::<u64>() {
        Ok(number) => {
            let mut digits = Buffer::new();
            if digits.format(number) == text {
                Least::AtLeast(number)
            } else {
                Least::Bad
            }
        }
        Err(_) => Least::Bad,
    }
}

/// How many events the request asks for.
pub(crate) fn least_of(request: &Request) -> Least
    ensures { HeaderAsks (seen_field request.now) result }
{
    match request.header("X-Fleet-Seen") {
        Some(bytes) => number_of(bytes),
        None => Least::Any,
    }
}

/// Whether tables of the first `seen` events are too few.
pub(crate) fn lacks(least: Least, seen: u64) -> bool
    ensures { result ≡ lacks least seen }
{
    match least {
        Least::AtLeast(number) => seen < number,
        Least::Any | Least::Bad => false,
    }
}
