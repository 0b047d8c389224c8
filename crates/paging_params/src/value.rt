//! Reads numbers and booleans from parameters.
ghost use Rattle.std.specs.Prelude.{◌≡◌, true};
ghost use Rattle.std.specs.Char.{is_ascii_digit};
ghost use Rattle.std.specs.List.{list_all};
ghost use Rattle.std.specs.Option.{option_map};
ghost use Rattle.std.specs.Str.Parse.{digits_value};
ghost use Rattle.paging_params.specs.Params.{value_of, are_digits, below_limit, count_of, count_in, truth_of, truth_in};
ghost use Rattle.paging_params.specs.Paging.{read_as};

use crate::params::Param;
use json_read::json_tree::Json;

// Counts are below 2^63.
const LIMIT: u128 = 9_223_372_036_854_775_808;

fn all_digits(bytes: &[u8]) -> bool
    ensures { result ≡ list_all is_ascii_digit bytes.now }
{
    for byte in bytes {
        if !byte.is_ascii_digit() {
            return false;
        }
    }
    true
}

fn are_digits(bytes: &[u8]) -> bool
    ensures { result ≡ are_digits bytes.now }
{
    !bytes.is_empty() && all_digits(bytes)
}

// The number that the digits write, if it is below the limit.
fn number_of(digits: &[u8]) -> Option<u64>
    requires { are_digits digits.now ≡ true }
    ensures { result ≡ below_limit (digits_value 10 digits.now) }
{
    let mut number: u128 = 0;
    for digit in digits {
        number = (number * 10 + u128::from(*digit - b'0')).min(LIMIT);
    }
    if number < LIMIT {
        Some(number as u64)
    } else {
        None
    }
}

fn count_of(text: &str) -> Option<u64>
    ensures { result ≡ count_of text.now }
{
    let bytes = text.as_bytes();
    if are_digits(bytes) {
        number_of(bytes)
    } else {
        None
    }
}

fn count_in(value: &Param) -> Option<u64>
    ensures { result ≡ count_in (value_of value.now) }
{
    match value {
        Param::Url(text) => count_of(text.as_str()),
        Param::Body(Json::Num(number)) => count_of(number.spelling().as_str()),
        Param::Body(_) => None,
    }
}

fn truth_of(text: &str) -> Option<bool>
    ensures { result ≡ truth_of text.now }
{
    if text == "true" {
        Some(true)
    } else if text == "false" {
        Some(false)
    } else {
        None
    }
}

fn truth_in(value: &Param) -> Option<bool>
    ensures { result ≡ truth_in (value_of value.now) }
{
    match value {
        Param::Url(text) => truth_of(text.as_str()),
        Param::Body(Json::Bool(truth)) => Some(*truth),
        Param::Body(_) => None,
    }
}

/// The number in the parameter: `Some(None)` if the parameter is missing, None if its value is bad.
pub(crate) fn read_count(value: Option<&Param>) -> Option<Option<u64>>
    ensures { result ≡ read_as count_in (option_map (λ p. value_of p.now) value.entry) }
{
    match value {
        None => Some(None),
        Some(value) => match count_in(value) {
            Some(count) => Some(Some(count)),
            None => None,
        },
    }
}

/// The boolean in the parameter: `Some(None)` if the parameter is missing, None if its value is bad.
pub(crate) fn read_truth(value: Option<&Param>) -> Option<Option<bool>>
    ensures { result ≡ read_as truth_in (option_map (λ p. value_of p.now) value.entry) }
{
    match value {
        None => Some(None),
        Some(value) => match truth_in(value) {
            Some(truth) => Some(Some(truth)),
            None => None,
        },
    }
}
