//! The words of a command.
use crate::texts::bytes_of;
use port_memory::json_tree::Text;
use std::alloc::{AllocError, Global};
use std::str;

fn add_word(alloc: Global, words: &mut Vec<Text>, bytes: &[u8]) -> Result<(), AllocError> {
    let word = str::from_utf8(bytes).unwrap_or("no text");
    words.push(Text::from_str(alloc, word)?)?;
    Ok(())
}

fn add_escaped(alloc: Global, words: &mut Vec<Text>, text: &str) -> Result<(), AllocError> {
    let bytes = bytes_of(alloc, text)?;
    add_word(alloc, words, bytes.as_slice())
}

/// The words that blanks part.
pub fn words_of(alloc: Global, text: &str) -> Result<Vec<Text>, AllocError> {
    let mut words = Vec::new(alloc);
    let mut rest = text;
    'words: for _ in 0..text.len() {
        match rest.split_once(' ') {
            Some((word, more)) => {
                add_escaped(alloc, &mut words, word)?;
                rest = more;
            }
            None => break,
        }
    }
    if !text.is_empty() {
        add_escaped(alloc, &mut words, rest)?;
    }
    Ok(words)
}

// The bytes of the text, filled up with blanks to the least length.
fn filled(alloc: Global, text: &str, least: u64) -> Result<Vec<u8>, AllocError> {
    let mut bytes = bytes_of(alloc, text)?;
    let len = bytes.len().max(least as usize);
    bytes.resize(len, b' ')?;
    Ok(bytes)
}

/// The words that ask this query, whose text is filled up to the least length.
pub fn query_of(alloc: Global, text: &str, least: u64) -> Result<Vec<Text>, AllocError> {
    let text = filled(alloc, text, least)?;
    let mut words = Vec::new(alloc);
    add_word(alloc, &mut words, b"query")?;
    add_word(alloc, &mut words, text.as_slice())?;
    Ok(words)
}
