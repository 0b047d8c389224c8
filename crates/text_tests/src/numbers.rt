//! Numbers: what is one, the value of each in units of 10^-18, and how two compare.
use crate::wrong::{Wrong, holds};
use json_read::json_tree::{Number, Text};
use std::alloc::{AllocError, Global};
use std::cmp::Ordering;

fn number(alloc: Global, spelling: &str) -> Result<Option<Number>, AllocError> {
    Ok(Number::from_text(Text::from_str(alloc, spelling)?))
}

static NO_NUMBERS: [&str; 14] = [
    "", "-", "+1", "00", "-01", "1.", ".5", "1.e5", "1e", "1e+", "1e1.0", " 1", "1 ", "0x1",
];

fn is_number(alloc: Global, spelling: &str) -> Result<bool, AllocError> {
    Ok(number(alloc, spelling)?.is_some())
}

fn no_numbers(alloc: Global) -> Result<(), Wrong> {
    for (at, spelling) in NO_NUMBERS.iter().enumerate() {
        holds(!is_number(alloc, spelling)?, at)?;
    }
    Ok(())
}

#[test]
fn numbers_are_those_of_the_grammar(rt: HostRuntime) -> Result<(), Wrong> {
    no_numbers(rt.alloc())
}

static SCALED: [(&str, Option<i128>); 22] = [
    ("0.10", Some(100_000_000_000_000_000)),
    ("0e999", Some(0)),
    ("1e400", None),
    ("-0", Some(0)),
    ("0e-99999999999999999999999999999999999999999", Some(0)),
    ("1", Some(1_000_000_000_000_000_000)),
    ("-1.5", Some(-1_500_000_000_000_000_000)),
    ("-12.50E1", Some(-125_000_000_000_000_000_000)),
    ("1E+2", Some(100_000_000_000_000_000_000)),
    ("1e-18", Some(1)),
    ("10e-19", Some(1)),
    ("1e-19", None),
    ("0.0000000000000000001", None),
    ("0.00000000000000000010", None),
    ("0.00000000000000000001e2", Some(1)),
    ("100000000000000000000000000000000000000000e-59", Some(1)),
    (
        "9999999999999999999",
        Some(9_999_999_999_999_999_999_000_000_000_000_000_000),
    ),
    (
        "-9999999999999999999.999999999999999999",
        Some(-9_999_999_999_999_999_999_999_999_999_999_999_999),
    ),
    ("10000000000000000000", None),
    ("1e19", None),
    ("1e99999999999999999999999999999999999999999999", None),
    ("1e-99999999999999999999999999999999999999999999", None),
];

fn is_scaled(alloc: Global, spelling: &str, value: Option<i128>) -> Result<bool, AllocError> {
    match number(alloc, spelling)? {
        Some(number) => Ok(number.scaled() == value),
        None => Ok(false),
    }
}

fn are_scaled(alloc: Global) -> Result<(), Wrong> {
    for (at, (spelling, value)) in SCALED.iter().enumerate() {
        holds(is_scaled(alloc, spelling, *value)?, at)?;
    }
    Ok(())
}

#[test]
fn numbers_have_their_scaled_value(rt: HostRuntime) -> Result<(), Wrong> {
    are_scaled(rt.alloc())
}

static COMPARED: [(&str, &str, Option<Ordering>); 8] = [
    ("1", "1.0", Some(Ordering::Equal)),
    ("1", "2", Some(Ordering::Less)),
    ("10", "9.99", Some(Ordering::Greater)),
    ("-1", "-0.5", Some(Ordering::Less)),
    ("1e400", "1e400", Some(Ordering::Equal)),
    ("1e400", "1e401", None),
    ("1", "1e400", None),
    ("1e400", "1", None),
];

fn is_so(first: &Option<Number>, second: &Option<Number>, answer: Option<Ordering>) -> bool {
    match (first, second) {
        (Some(first), Some(second)) => first.compare(second) == answer,
        _ => false,
    }
}

fn compare_so(
    alloc: Global,
    one: &str,
    other: &str,
    answer: Option<Ordering>,
) -> Result<bool, AllocError> {
    let first = number(alloc, one)?;
    let second = number(alloc, other)?;
    Ok(is_so(&first, &second, answer))
}

fn are_compared(alloc: Global) -> Result<(), Wrong> {
    for (at, (one, other, answer)) in COMPARED.iter().enumerate() {
        holds(compare_so(alloc, one, other, *answer)?, at)?;
    }
    Ok(())
}

#[test]
fn scaled_numbers_compare_by_value_and_others_by_spelling(rt: HostRuntime) -> Result<(), Wrong> {
    are_compared(rt.alloc())
}
