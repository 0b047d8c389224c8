//! Reads the fraction of a second.
ghost use Rattle.std.specs.Prelude.{◌≡◌, ◌≤◌, ◌<◌, ◌^◌, option_map, IfSome, length};
ghost use Rattle.std.specs.Str.Parse.{AllDigits};
ghost use Rattle.text_spec.specs.StampReader.{digit_run, nanos_of_digits, fraction_at};

/// Nothing, or a dot and 1 to 9 digits, in nanoseconds.
#[tactic(auto, using(text_spec::proofs::DigitRuns::digit_run_digits), unfolding(text_spec::specs::StampReader::fraction_at))]
pub fn read_fraction(text: &[u8]) -> Option<(u32, &[u8])>
    ensures value { option_map (λ p. (p.0, p.1.now)) result ≡ fraction_at text.now }
    ensures bound { IfSome result (λ p. p.0 < 10 ^ 9) }
{
    match text {
        [b'.', rest @ ..] => {
            let count = count_digits(rest);
            if count < 1 || count > 9 {
                return None;
            }
            Some((nanos_of(&rest[..count]), &rest[count..]))
        }
        _ => Some((0, text)),
    }
}

// How many digits the text begins with.
fn count_digits(text: &[u8]) -> usize
    ensures value { result ≡ digit_run text.now }
    ensures bound { result ≤ length text.now }
{
    let mut count = 0;
    for byte in text {
        if !byte.is_ascii_digit() {
            break;
        }
        count += 1;
    }
    count
}

// The digits after the dot, in nanoseconds.
fn nanos_of(digits: &[u8]) -> u32
    requires len { length digits.now ≤ 9 }
    requires all { AllDigits 10 digits.now }
    ensures value { result ≡ nanos_of_digits digits.now }
    ensures bound { result < 10 ^ 9 }
{
    let mut value = 0;
    for digit in digits {
        value = value * 10 + (*digit - b'0') as u32;
    }
    value * 10u32.pow(9 - digits.len() as u32)
}
