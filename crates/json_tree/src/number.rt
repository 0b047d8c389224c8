//! Numbers, which keep their spelling (RFC 8259 section 6), and the machine that checks the bytes of a spelling.
ghost use Rattle.std.specs.Prelude.{◌≡◌, MatchOption};
ghost use Rattle.text_spec.specs.Number.{IsNumber};
ghost use Rattle.json_tree.specs.Numbers.{to_digits, to_whole, to_exponent, to_point, number_step, may_end, completes};
ghost use Rattle.json_tree.specs.declared.number.NumberState.TheVariants.{Start};

use crate::text::Text;
use std::marker::Model;

/// A number, by its spelling: `1` and `1.0` are two different numbers.
#[derive(Drop)]
pub struct Number {
    spelling: Text,
}

impl Model for Number {
    ghost use Rattle.std.specs.Prelude.{ℕ, List};

    ghost Value = { List ℕ };

    ghost view = { λ a. a.spelling };

    ghost use Rattle.text_spec.specs.Number.{IsNumber};

    ghost invariant = { λ a. IsNumber a.spelling };
}

impl Number {
    /// The number with this spelling, or None if the spelling is no number.
    pub fn from_text(spelling: Text) -> Option<Number>
        ensures { MatchOption result (¬ IsNumber spelling) (λ n. (n ≡ spelling) × IsNumber spelling) }
    {
        if is_number(spelling.as_str()) {
            Some(Number { spelling })
        } else {
            None
        }
    }

    /// The number with a spelling that is known to be one.
    #[inline]
    pub fn of(spelling: Text) -> Number
        requires { IsNumber spelling }
        ensures { result ≡ spelling }
    {
        Number { spelling }
    }

    pub fn spelling(&self) -> &Text
        ensures text { result.now ≡ self.now }
        ensures number { IsNumber self.now }
    {
        &self.spelling
    }
}

/// A position in the grammar of numbers: what was read last.
#[derive(Clone, Copy)]
pub enum NumberState {
    Start,
    AfterMinus,
    AfterZero,
    InWhole,
    AfterPoint,
    InFraction,
    AfterE,
    AfterSign,
    InExponent,
}

impl NumberState {
    /// The state after one more byte; None if no number continues with it.
    #[inline]
    pub fn step(self, byte: u8) -> Option<NumberState>
        ensures { result ≡ number_step self byte }
    {
        match self {
            NumberState::Start => {
                if byte == b'-' {
                    Some(NumberState::AfterMinus)
                } else {
                    to_whole(byte)
                }
            }
            NumberState::AfterMinus => to_whole(byte),
            NumberState::AfterZero => to_point(byte),
            NumberState::InWhole => to_digits(byte, NumberState::InWhole, to_point(byte)),
            NumberState::AfterPoint => to_digits(byte, NumberState::InFraction, None),
            NumberState::InFraction => to_digits(byte, NumberState::InFraction, to_exponent(byte)),
            NumberState::AfterE => {
                if byte == b'+' || byte == b'-' {
                    Some(NumberState::AfterSign)
                } else {
                    to_digits(byte, NumberState::InExponent, None)
                }
            }
            NumberState::AfterSign | NumberState::InExponent => {
                to_digits(byte, NumberState::InExponent, None)
            }
        }
    }

    /// Whether a number may end in this state.
    #[inline]
    pub fn may_end(self) -> bool
        ensures { result ≡ may_end self }
    {
        match self {
            NumberState::AfterZero | NumberState::InWhole => true,
            NumberState::InFraction | NumberState::InExponent => true,
            _ => false,
        }
    }
}

#[inline]
fn to_digits(byte: u8, digits: NumberState, other: Option<NumberState>) -> Option<NumberState>
    ensures { result ≡ to_digits byte digits other }
{
    if byte >= b'0' && byte <= b'9' {
        Some(digits)
    } else {
        other
    }
}

#[inline]
fn to_whole(byte: u8) -> Option<NumberState>
    ensures { result ≡ to_whole byte }
{
    if byte == b'0' {
        Some(NumberState::AfterZero)
    } else {
        to_digits(byte, NumberState::InWhole, None)
    }
}

#[inline]
fn to_exponent(byte: u8) -> Option<NumberState>
    ensures { result ≡ to_exponent byte }
{
    if byte == b'e' || byte == b'E' {
        Some(NumberState::AfterE)
    } else {
        None
    }
}

#[inline]
fn to_point(byte: u8) -> Option<NumberState>
    ensures { result ≡ to_point byte }
{
    if byte == b'.' {
        Some(NumberState::AfterPoint)
    } else {
        to_exponent(byte)
    }
}

fn is_number(text: &str) -> bool
    ensures { result ≡ completes Start text.now }
{
    let mut state = NumberState::Start;
    for byte in text.as_bytes() {
        match state.step(*byte) {
            Some(next) => state = next,
            None => return false,
        }
    }
    state.may_end()
}
