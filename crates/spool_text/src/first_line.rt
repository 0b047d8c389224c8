//! Parses the first line of an item in place.
ghost use Rattle.std.specs.Prelude.{◌≡◌, [], ◌∷◌, ◌++◌, ◌<◌, ◌^◌, ◌≤◌, option_map, IfSome, length};
ghost use Rattle.std.specs.Str.Parse.{digits_value, AllDigits};
ghost use Rattle.text_spec.specs.StampReader.{one_of, digit_run, stamp_of};
ghost use Rattle.history_laws.specs.Reading.{after_word, number_at, kind_at, kinds_at, word_if, comma_if};

use spool_maker::fleet_rows::{Kind, Kinds};
use spool_maker::json_tree::MOST_PAYLOAD;
use spool_maker::stamp_time::{Moment, read_stamp};

/// The content of an item's first line.
#[derive(Drop)]
pub(crate) enum FirstLine {
    /// A command of this kind and version. The size is its payload's length in bytes.
    Command {
        kind: Kind,
        version: u32,
        size: usize,
    },
    /// A sweep of these kinds. The moment is in nanoseconds since 1970-01-01T00:00:00Z.
    Sweep {
        kinds: Kinds,
        nanos: i128,
    },
}

// The text after this byte, or None if it begins otherwise.
fn after_byte(byte: u8, text: &[u8]) -> Option<&[u8]>
    ensures { option_map (λ r. r.now) result ≡ after_word (byte ∷ []) text.now }
{
    match text {
        [first, rest @ ..] if *first == byte => Some(rest),
        _ => None,
    }
}

// The text after this word, or None if it begins otherwise.
fn after<'a>(word: &[u8], text: &'a [u8]) -> Option<&'a [u8]>
    ensures { option_map (λ r. r.now) result ≡ after_word word.now text.now }
{
    let mut rest = text;
    for byte in word {
        match after_byte(*byte, rest) {
            Some(more) => rest = more,
            None => return None,
        }
    }
    Some(rest)
}

// The text after this word, which a comma precedes if `later` is true.
fn after_comma<'a>(later: bool, word: &[u8], text: &'a [u8]) -> Option<&'a [u8]>
    ensures { option_map (λ r. r.now) result ≡ after_word (comma_if later ++ word.now) text.now }
{
    if !later {
        return after(word, text);
    }
    match text {
        [b',', rest @ ..] => after(word, rest),
        _ => None,
    }
}

// Whether the text begins with the word, and the text after it.
fn read_word<'a>(later: bool, word: &[u8], text: &'a [u8]) -> (bool, &'a [u8])
    ensures { (result.0, result.1.now) ≡ word_if later word.now text.now }
{
    match after_comma(later, word, text) {
        Some(rest) => (true, rest),
        None => (false, text),
    }
}

// The text after a space, or None if it begins otherwise.
#[tactic(auto, unfolding(text_spec::specs::StampReader::one_of))]
fn read_space(text: &[u8]) -> Option<&[u8]>
    ensures { option_map (λ r. r.now) result ≡ one_of 32 32 text.now }
{
    match text {
        [b' ', rest @ ..] => Some(rest),
        _ => None,
    }
}

// The number of digits that the text begins with.
fn count_digits(text: &[u8]) -> usize
    ensures value { result ≡ digit_run text.now }
    ensures bound { result ≤ length text.now }
{
    let mut count = 0;
    for byte in text {
        if !byte.is_ascii_digit() {
            break;
        }
        count += 1;
    }
    count
}

// The number that the decimal digits write.
fn value_of(digits: &[u8]) -> u64
    requires few { length digits.now ≤ 10 }
    requires all { AllDigits 10 digits.now }
    ensures value { result ≡ digits_value 10 digits.now }
    ensures bound { result < 10 ^ 10 }
{
    let mut value = 0;
    for digit in digits {
        value = value * 10 + (*digit - b'0') as u64;
    }
    value
}

// A decimal number of at most 10 digits without a leading zero, and the text after it.
#[tactic(auto, using(text_spec::proofs::DigitRuns::digit_run_digits))]
fn read_number(text: &[u8]) -> Option<(u64, &[u8])>
    ensures value { option_map (λ p. (p.0, p.1.now)) result ≡ number_at text.now }
    ensures bound { IfSome result (λ p. p.0 < 10 ^ 10) }
{
    let count = count_digits(text);
    if count < 1 || count > 10 || (text[0] == b'0' && count > 1) {
        return None;
    }
    Some((value_of(&text[..count]), &text[count..]))
}

// The kind whose word and space the text begins with, and the text after them.
#[tactic(auto, unfolding(history_laws::specs::Reading::kind_at))]
fn read_kind(text: &[u8]) -> Option<(Kind, &[u8])>
    ensures { option_map (λ p. (p.0, p.1.now)) result ≡ kind_at text.now }
{
    if let Some(rest) = after(b"replace_facts ", text) {
        return Some((Kind::Facts, rest));
    }
    if let Some(rest) = after(b"replace_catalog ", text) {
        return Some((Kind::Catalog, rest));
    }
    if let Some(rest) = after(b"store_report ", text) {
        return Some((Kind::Report, rest));
    }
    if let Some(rest) = after(b"deactivate_node ", text) {
        return Some((Kind::Deactivate, rest));
    }
    match after(b"configure_expiration ", text) {
        Some(rest) => Some((Kind::Expiration, rest)),
        None => None,
    }
}

// The kinds of a sweep (in the order expire, purge, reports) with the space after them, and the text after it.
#[tactic(auto, unfolding(history_laws::specs::Reading::kinds_at))]
fn read_kinds(text: &[u8]) -> Option<(Kinds, &[u8])>
    ensures { option_map (λ p. (p.0, p.1.now)) result ≡ kinds_at text.now }
{
    let (expire, rest) = read_word(false, b"expire", text);
    let (purge, rest) = read_word(expire, b"purge", rest);
    let (reports, rest) = read_word(expire || purge, b"reports", rest);
    if !(expire || purge || reports) {
        return None;
    }
    match read_space(rest) {
        Some(rest) => Some((
            Kinds {
                expire,
                purge,
                reports,
            },
            rest,
        )),
        None => None,
    }
}

// The moment of the stamp that these bytes are.
fn read_moment(text: &[u8]) -> Option<Moment>
    ensures { result ≡ stamp_of text.now }
{
    match str::from_utf8(text) {
        Ok(text) => read_stamp(text),
        Err(_) => None,
    }
}

impl FirstLine {
    ghost use Rattle.spool_text.specs.FirstLine.{command_line_at, sweep_line_at, first_line_at, IsSmall};

    #[tactic(auto, unfolding(crate::specs::FirstLine::command_line_at))]
    fn read_command(line: &[u8]) -> Option<FirstLine>
        ensures value { result ≡ command_line_at line.now }
        ensures small { IfSome result IsSmall }
    {
        let (kind, rest) = read_kind(line)?;
        let (version, rest) = read_number(rest)?;
        let rest = read_space(rest)?;
        let (size, rest) = read_number(rest)?;
        if rest.is_empty() && version < 1 << 32 && size <= MOST_PAYLOAD as u64 {
            Some(FirstLine::Command {
                kind,
                version: version as u32,
                size: size as usize,
            })
        } else {
            None
        }
    }

    #[tactic(auto, unfolding(crate::specs::FirstLine::sweep_line_at))]
    fn read_sweep(line: &[u8]) -> Option<FirstLine>
        ensures value { result ≡ sweep_line_at line.now }
        ensures small { IfSome result IsSmall }
    {
        let rest = after(b"sweep ", line)?;
        let (kinds, rest) = read_kinds(rest)?;
        let moment = read_moment(rest)?;
        Some(FirstLine::Sweep {
            kinds,
            nanos: moment.as_nanosecond(),
        })
    }

    /// The content of the line, or None if no item has this first line.
    pub(crate) fn read(line: &[u8]) -> Option<FirstLine>
        ensures value { result ≡ first_line_at line.now }
        ensures small { IfSome result IsSmall }
    {
        match FirstLine::read_command(line) {
            Some(first) => Some(first),
            None => FirstLine::read_sweep(line),
        }
    }
}
