//! Reads the counts of limits and offsets.
ghost use Rattle.std.specs.Prelude.{◌≡◌, Some, None, if◌then◌else◌};
ghost use Rattle.std.specs.Char.{is_ascii_digit};
ghost use Rattle.std.specs.List.{list_all};
ghost use Rattle.std.specs.Str.Parse.{digits_value};
ghost use Rattle.query_spec.specs.Parts as part;
ghost use Rattle.pql_spec.specs.Grammar as grammar;

use query_spec::json_tree::Number;

// Counts are below 2^63.
const LIMIT: u64 = 9223372036854775808;

fn all_digits(bytes: &[u8]) -> bool
    ensures { result ≡ list_all is_ascii_digit bytes.now }
{
    for byte in bytes {
        if !byte.is_ascii_digit() {
            return false;
        }
    }
    true
}

fn are_digits(spelling: &str) -> bool
    ensures { result ≡ part.are_digits spelling.now }
{
    let bytes = spelling.as_bytes();
    1 <= bytes.len() && bytes.len() <= 19 && all_digits(bytes)
}

fn number_of(spelling: &str) -> Option<u64>
    ensures { result ≡ (if part.are_digits spelling.now then Some (digits_value 10 spelling.now) else None) }
{
    if are_digits(spelling) {
        spelling.parse::<u64>().ok()
    } else {
        None
    }
}

/// The number, if it consists of digits and is below 2^63.
#[tactic(auto, unfolding(pql_spec::specs::Grammar::is_count))]
pub fn count_of(number: &Number) -> Option<u64>
    ensures { result ≡ (if grammar.is_count number.now then Some (grammar.number_of number.now) else None) }
{
    match number_of(number.spelling().as_str()) {
        None => None,
        Some(count) => { if count < LIMIT { Some(count) } else { None } }
    }
}
