//! Computes the value of a number in units of 10^-18 from its spelling, without memory.
//!
//! The digits before and after the point form one whole number. Its zeros at the end count as powers of ten, and what is left is
//! no multiple of ten. So the value is whole in these units exactly if the powers of ten suffice. Neither a long spelling nor a
//! large exponent is ever written out.
ghost use Rattle.std.specs.Prelude.{◌≡◌, ◌⊎◌, ◌+◌, ◌-◌, ◌*◌, ◌%◌, ◌^◌, ◌<◌, ◌≤◌, ◌++◌, ℕ, length, take, MatchOption, IfSome, option_map, if◌then◌else◌};
ghost use Rattle.std.specs.Str.Parse.{digits_value, digits_value_after, AllDigits};
ghost use Rattle.text_spec.specs.Number.{scaled, compare, signed, IsNumber, digits_front, behind_digits, begins_with_minus};
ghost use Rattle.text_spec.specs.Number.{behind_minus, fraction_front, fraction_digits, behind_fraction, exponent_front};
ghost use Rattle.text_spec.specs.StampReader.{digit_run};
ghost use Rattle.json_tree.specs.Scaled.{if_small, scaled_size, exponent_digits, is_lowered, IsCut};

use crate::number::Number;
use std::cmp::Ordering;

impl Number {
    /// The m of the value m / 10^18, if it exists and |m| is below 10^37.
    pub fn scaled(&self) -> Option<i128>
        ensures { result ≡ scaled self.now }
    {
        scaled_text(self.spelling().as_str().as_bytes())
    }

    /// Compares two numbers that have a scaled value by that value. Any other number equals its own spelling, and has no order
    /// with another one.
    pub fn compare(&self, other: &Number) -> Option<Ordering>
        ensures { result ≡ compare self.now other.now }
    {
        if let Some(m) = self.scaled() {
            if let Some(n) = other.scaled() {
                return Some(m.cmp(&n));
            }
        }
        (self.spelling().as_str() == other.spelling().as_str()).then_some(Ordering::Equal)
    }
}

// 10^37, the bound that every scaled value stays below.
const LIMIT: u128 = 10_000_000_000_000_000_000_000_000_000_000_000_000;

fn scaled_text(text: &[u8]) -> Option<i128>
    requires { IsNumber text.now }
    ensures { result ≡ scaled text.now }
{
    let (minus, unsigned) = split_minus(text);
    let (whole, behind_whole) = split_digits(unsigned);
    let (fraction, behind) = split_fraction(behind_whole);
    let (lowered, exponent) = split_exponent(behind);
    with_sign(minus, size_of(whole, fraction, lowered, exponent))
}

fn with_sign(minus: bool, size: Option<u128>) -> Option<i128>
    requires { IfSome size (λ n. n < 10 ^ 37) }
    ensures { result ≡ option_map (signed minus) size }
{
    match size {
        Some(n) => {
            let value = n as i128;
            Some(if minus { -value } else { value })
        }
        None => None,
    }
}

// ---- the parts of the spelling

fn split_minus(text: &[u8]) -> (bool, &[u8])
    ensures minus { result.0 ≡ begins_with_minus text.now }
    ensures rest { result.1.now ≡ behind_minus text.now }
{
    match text {
        [b'-', rest @ ..] => (true, rest),
        _ => (false, text),
    }
}

fn split_digits(text: &[u8]) -> (&[u8], &[u8])
    ensures digits { result.0.now ≡ digits_front text.now }
    ensures rest { result.1.now ≡ behind_digits text.now }
{
    let count = count_digits(text);
    (&text[..count], &text[count..])
}

fn count_digits(text: &[u8]) -> usize
    ensures value { result ≡ digit_run text.now }
    ensures bound { result ≤ length text.now }
{
    let mut count = 0;
    for byte in text {
        if !byte.is_ascii_digit() {
            break;
        }
        count += 1;
    }
    count
}

fn split_fraction(text: &[u8]) -> (&[u8], &[u8])
    ensures digits { result.0.now ≡ fraction_digits (fraction_front text.now) }
    ensures rest { result.1.now ≡ behind_fraction text.now }
{
    match text {
        [b'.', rest @ ..] => split_digits(rest),
        _ => (&[], text),
    }
}

// Whether the exponent is negative, and its digits.
fn split_exponent(text: &[u8]) -> (bool, &[u8])
    ensures lowered { result.0 ≡ is_lowered (exponent_front text.now) }
    ensures digits { result.1.now ≡ exponent_digits (exponent_front text.now) }
{
    match text {
        [_, b'-', rest @ ..] => (true, rest),
        [_, b'+', rest @ ..] => (false, rest),
        [_, rest @ ..] => (false, rest),
        [] => (false, text),
    }
}

// ---- the absolute value

fn size_of(whole: &[u8], fraction: &[u8], lowered: bool, exponent: &[u8]) -> Option<u128>
    requires whole { AllDigits 10 whole.now }
    requires fraction { AllDigits 10 fraction.now }
    requires exponent { AllDigits 10 exponent.now }
    ensures size { result ≡ scaled_size (digits_value 10 (whole.now ++ fraction.now))
        (if lowered then 0 else digits_value 10 exponent.now)
        ((if lowered then digits_value 10 exponent.now else 0) + length fraction.now) }
    ensures small { IfSome result (λ n. n < 10 ^ 37) }
{
    let (value, zeros) = without_zeros(whole, fraction);
    match value {
        Some(n) => size_left(n, zeros, lowered, exponent, fraction.len()),
        None => None,
    }
}

// The absolute value of n followed by `zeros` zeros, of whose digits `behind` stand after the point.
fn size_left(n: u128, zeros: u128, lowered: bool, exponent: &[u8], behind: usize) -> Option<u128>
    requires odd { (n ≡ 0) ⊎ ¬ (n % 10 ≡ 0) }
    requires small { n < 10 ^ 37 }
    requires zeros { zeros < 2 ^ 66 }
    requires exponent { AllDigits 10 exponent.now }
    ensures size { result ≡ scaled_size (n * 10 ^ zeros) (if lowered then 0 else digits_value 10 exponent.now)
        ((if lowered then digits_value 10 exponent.now else 0) + behind) }
    ensures small { IfSome result (λ m. m < 10 ^ 37) }
{
    if n == 0 {
        return Some(0);
    }
    match value_after(0, exponent) {
        Some(power) => {
            if lowered {
                placed(n, zeros, 0, power + behind as u128)
            } else {
                placed(n, zeros, power, behind as u128)
            }
        }
        None => None,
    }
}

fn placed(n: u128, zeros: u128, up: u128, down: u128) -> Option<u128>
    requires some { 0 < n }
    requires odd { ¬ (n % 10 ≡ 0) }
    requires small { n < 10 ^ 37 }
    requires zeros { zeros < 2 ^ 66 }
    requires up { up < 10 ^ 37 }
    ensures size { result ≡ scaled_size (n * 10 ^ zeros) up down }
    ensures small { IfSome result (λ m. m < 10 ^ 37) }
{
    let tens = zeros + up + 18;
    if tens < down {
        None
    } else {
        raised(n, tens - down)
    }
}

// The digits as one number without the zeros at its end, if below the limit, and the number of those zeros.
fn without_zeros(whole: &[u8], fraction: &[u8]) -> (Option<u128>, u128)
    requires whole { AllDigits 10 whole.now }
    requires fraction { AllDigits 10 fraction.now }
    ensures cut { IsCut (digits_value 10 (whole.now ++ fraction.now)) result.0 result.1 }
    ensures zeros { result.1 < 2 ^ 66 }
{
    let kept = trimmed(fraction);
    if kept > 0 {
        return (
            joined(whole, &fraction[..kept]),
            (fraction.len() - kept) as u128,
        );
    }
    let front = trimmed(whole);
    (
        value_after(0, &whole[..front]),
        (whole.len() - front) as u128 + fraction.len() as u128,
    )
}

// How many digits remain without the zeros at the end.
fn trimmed(digits: &[u8]) -> usize
    requires { AllDigits 10 digits.now }
    ensures within { result ≤ length digits.now }
    ensures zeros { (n : ℕ) → digits_value_after 10 n digits.now
        ≡ digits_value_after 10 n (take result digits.now) * 10 ^ (length digits.now - result) }
    ensures last { (n : ℕ) → 0 < result → ¬ (digits_value_after 10 n (take result digits.now) % 10 ≡ 0) }
{
    let mut end = digits.len();
    while end > 0 && digits[end - 1] == b'0' {
        end -= 1;
    }
    end
}

fn joined(whole: &[u8], fraction: &[u8]) -> Option<u128>
    requires whole { AllDigits 10 whole.now }
    requires fraction { AllDigits 10 fraction.now }
    ensures { MatchOption result (10 ^ 37 ≤ digits_value 10 (whole.now ++ fraction.now))
        (λ v. (v ≡ digits_value 10 (whole.now ++ fraction.now)) × (v < 10 ^ 37)) }
{
    match value_after(0, whole) {
        Some(front) => value_after(front, fraction),
        None => None,
    }
}

// The number that `digits` write after those of `front`, if below the limit.
fn value_after(front: u128, digits: &[u8]) -> Option<u128>
    requires front { front < 10 ^ 37 }
    requires digits { AllDigits 10 digits.now }
    ensures { MatchOption result (10 ^ 37 ≤ digits_value_after 10 front digits.now)
        (λ v. (v ≡ digits_value_after 10 front digits.now) × (v < 10 ^ 37)) }
{
    let mut value = front;
    for digit in digits {
        value = value * 10 + (*digit - b'0') as u128;
        if value >= LIMIT {
            return None;
        }
    }
    Some(value)
}

// n * 10^tens, if below the limit.
fn raised(n: u128, tens: u128) -> Option<u128>
    requires some { 0 < n }
    requires small { n < 10 ^ 37 }
    ensures size { result ≡ if_small (n * 10 ^ tens) }
    ensures small { IfSome result (λ m. m < 10 ^ 37) }
{
    let mut value = n;
    let mut left = tens;
    while left > 0 {
        value *= 10;
        if value >= LIMIT {
            return None;
        }
        left -= 1;
    }
    Some(value)
}
