//! Derives the body's length and the end of the connection from the fields of a head.
ghost use Rattle.std.specs.Prelude.{◌≡◌, ◌<◌, [], ◌∷◌, true, length, bytes_eq, codes, IfSome};
ghost use Rattle.std.specs.List.{list_all, list_any, slice_split};
ghost use Rattle.std.specs.Option.{option_map_or};
ghost use Rattle.std.specs.Char.{is_ascii_digit};
ghost use Rattle.std.specs.Str.{str_eq_ignore_ascii_case};
ghost use Rattle.std.specs.Str.Parse.{digits_value};
ghost use Rattle.http_spec.specs.Framing.{framing, by_lengths, within_limit, values_of, is_length, is_between, says_close, ends_link};
ghost use Rattle.http_front.specs.Fields.{framing_of};

use http_spec::json_tree::MOST_PAYLOAD;
use http_spec::{Head, HttpFault, first_value};

/// The length of a body, or why it is unknown.
pub(crate) enum Framing {
    /// The length in bytes.
    Sized(usize),
    /// The length is unknown.
    Refused(HttpFault),
}

// Whether the bytes are equal.
fn is_equal(bytes: &[u8], other: &[u8]) -> bool
    ensures { result ≡ bytes_eq bytes.now other.now }
{
    bytes == other
}

// Whether the bytes are equal, ignoring ASCII case.
fn is_alike(bytes: &[u8], other: &[u8]) -> bool
    ensures { result ≡ str_eq_ignore_ascii_case bytes.now other.now }
{
    bytes.eq_ignore_ascii_case(other)
}

// Whether each field with this name has the value.
fn all_equal(heads: &[Head], name: &[u8], value: &[u8]) -> bool
    ensures { result ≡ list_all (λ other. bytes_eq other value.now) (values_of name.now heads.now) }
{
    for head in heads {
        if head.is_named(name) {
            if !is_equal(head.value.as_slice(), value) {
                return false;
            }
        }
    }
    true
}

// Whether each byte is a digit.
fn all_digits(value: &[u8]) -> bool
    ensures { result ≡ list_all is_ascii_digit value.now }
{
    for byte in value {
        if !byte.is_ascii_digit() {
            return false;
        }
    }
    true
}

// Whether the value consists of one or more digits.
fn is_length(value: &[u8]) -> bool
    ensures { result ≡ is_length value.now }
{
    !value.is_empty() && all_digits(value)
}

// The number that the digits write, unless it exceeds the limit of a body.
fn size_of(digits: &[u8]) -> Framing
    requires { is_length digits.now ≡ true }
    ensures { framing_of result ≡ within_limit (digits_value 10 digits.now) }
{
    let mut size: u32 = 0;
    for digit in digits {
        size = (size * 10 + u32::from(*digit - b'0')).min(MOST_PAYLOAD + 1);
    }
    if size <= MOST_PAYLOAD {
        Framing::Sized(size as usize)
    } else {
        Framing::Refused(HttpFault::BodyTooLarge)
    }
}

// The length of a request's body, by its `Content-Length` fields.
fn size_by_lengths(method: &[u8], heads: &[Head]) -> Framing
    ensures { framing_of result ≡ by_lengths method.now (values_of (codes "content-length") heads.now) }
{
    match first_value(heads, b"content-length") {
        None => if is_equal(method, b"POST") {
            Framing::Refused(HttpFault::NoLength)
        } else {
            Framing::Sized(0)
        },
        Some(value) => if is_length(value) && all_equal(heads, b"content-length", value) {
            size_of(value)
        } else {
            Framing::Refused(HttpFault::BadLength)
        },
    }
}

/// The length of a request's body.
pub(crate) fn body_size(method: &[u8], heads: &[Head]) -> Framing
    ensures { framing_of result ≡ framing method.now heads.now }
{
    match first_value(heads, b"transfer-encoding") {
        Some(_) => Framing::Refused(HttpFault::NoLength),
        None => size_by_lengths(method, heads),
    }
}

// Whether the byte separates options.
fn is_between(byte: u8) -> bool
    ensures { result ≡ is_between byte }
{
    byte == b',' || byte == b' ' || byte == b'\t'
}

// The first option of a value, and the rest after its separator, if there is one.
fn first_option(value: &[u8]) -> (&[u8], Option<&[u8]>)
    ensures split { slice_split is_between value.now
        ≡ result.0.now ∷ option_map_or (λ rest. slice_split is_between rest.now) result.1 [] }
    ensures shorter { IfSome result.1 (λ rest. length rest.now < length value.now) }
{
    for at in 0..value.len() {
        if is_between(value[at]) {
            return (&value[..at], Some(&value[at + 1..]));
        }
    }
    (value, None)
}

// Whether a value has the option `close`.
fn says_close(value: &[u8]) -> bool
    ensures { result ≡ says_close value.now }
{
    let mut rest = value;
    'options: loop {
        let (option, behind) = first_option(rest);
        if is_alike(option, b"close") {
            return true;
        }
        match behind {
            Some(more) => rest = more,
            None => return false,
        }
    }
}

// Whether a `Connection` has the option `close`.
fn any_says_close(heads: &[Head]) -> bool
    ensures { result ≡ list_any says_close (values_of (codes "connection") heads.now) }
{
    for head in heads {
        if head.is_named(b"connection") && says_close(head.value.as_slice()) {
            return true;
        }
    }
    false
}

/// Whether a request closes its connection.
pub(crate) fn ends_link(minor: u8, heads: &[Head]) -> bool
    ensures { result ≡ ends_link minor heads.now }
{
    minor == 0 || any_says_close(heads)
}
