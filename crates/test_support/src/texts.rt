//! Words, numbers and bytes in the lines of cases.
use std::alloc::{AllocError, Global};

/// The text before the mark, and the text behind it; all and nothing where there is no such mark.
pub fn parted<'a>(text: &'a str, mark: &str) -> (&'a str, &'a str) {
    text.split_once(mark).unwrap_or((text, ""))
}

/// The number that a word spells, or the greatest one for any other word.
pub fn number_of(word: &str) -> u64 {
    word.parse::<u64>().unwrap_or(u64::MAX)
}

fn digit(letter: u8) -> u8 {
    match letter {
        b'0'..=b'9' => letter.wrapping_sub(b'0'),
        _ => letter.wrapping_sub(b'a').wrapping_add(10),
    }
}

// The byte that stands behind a backslash, and what stands behind that.
fn escaped(text: &[u8]) -> (u8, &[u8]) {
    match text {
        [b'n', rest @ ..] => (b'\n', rest),
        [b'r', rest @ ..] => (b'\r', rest),
        [b't', rest @ ..] => (b'\t', rest),
        [b'x', high, low, rest @ ..] => {
            let byte = digit(*high).wrapping_mul(16).wrapping_add(digit(*low));
            (byte, rest)
        }
        [_, rest @ ..] => (0, rest),
        [] => (0, text),
    }
}

/// Appends the bytes of the text, in which `\n`, `\r`, `\t`, `\0` and `\x` with two digits each stand for a byte.
pub fn add_bytes(bytes: &mut Vec<u8>, text: &str) -> Result<(), AllocError> {
    for (place, part) in text.split('\\').enumerate() {
        if place == 0 {
            bytes.extend_from_slice(part.as_bytes())?;
        } else {
            let (byte, rest) = escaped(part.as_bytes());
            bytes.push(byte)?;
            bytes.extend_from_slice(rest)?;
        }
    }
    Ok(())
}

/// These bytes in a list of their own.
pub fn bytes_of(alloc: Global, text: &str) -> Result<Vec<u8>, AllocError> {
    let mut bytes = Vec::new(alloc);
    add_bytes(&mut bytes, text)?;
    Ok(bytes)
}

/// Appends the texts, one behind the other.
pub fn add_words(bytes: &mut Vec<u8>, words: &[&str]) -> Result<(), AllocError> {
    for word in words {
        bytes.extend_from_slice(word.as_bytes())?;
    }
    Ok(())
}

/// Appends the text and a line end.
pub fn add_line(bytes: &mut Vec<u8>, text: &str) -> Result<(), AllocError> {
    bytes.extend_from_slice(text.as_bytes())?;
    bytes.push(b'\n')?;
    Ok(())
}

/// What stands behind this name and a bar in its row; nothing where no row has that name. Rows are parted by the mark.
pub(crate) fn row_of(rows: &'static str, mark: &str, name: &str) -> &'static str {
    let mut rest = rows;
    'rows: for _ in 0..rows.len() {
        let (row, more) = parted(rest, mark);
        let (word, text) = parted(row, "|");
        if word == name {
            return text;
        }
        rest = more;
    }
    ""
}

/// The text with another one in the places of the mark.
pub(crate) fn replaced(
    alloc: Global,
    text: &str,
    mark: &str,
    by: &str,
) -> Result<String, AllocError> {
    text.replace(alloc, mark, by)
}
