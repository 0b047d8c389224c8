//! Parts of a case, and notes of the answers that are others than a case has them.
use crate::texts::parted;
use itoa::Buffer;
use std::alloc::{AllocError, Global};
use std::fmt::Debug;

/// The number that a word spells, or 0.
pub fn count_of(word: &str) -> u64 {
    word.parse::<u64>().unwrap_or(0)
}

/// The numbers that four words spell, with blanks between them; 0 for each that lacks.
pub fn numbers_of(text: &str) -> [u64; 4] {
    let (first, rest) = parted(text, " ");
    let (second, rest) = parted(rest, " ");
    let (third, fourth) = parted(rest, " ");
    [
        count_of(first),
        count_of(second),
        count_of(third),
        count_of(fourth),
    ]
}

/// The first three parts of a text, and what stands behind them.
pub fn parts_of<'a>(text: &'a str, mark: &str) -> ([&'a str; 3], &'a str) {
    let (first, rest) = parted(text, mark);
    let (second, rest) = parted(rest, mark);
    let (third, rest) = parted(rest, mark);
    ([first, second, third], rest)
}

/// What the answers so far lack, and which trial of which case goes on. A trial goes on where memory lacks, and that is noted: so what
/// tries a case has no result.
#[derive(Drop)]
pub struct Notes {
    pub alloc: Global,
    pub text: String,
    /// Whether memory lacked.
    pub is_starved: bool,
    pub case: usize,
    pub call: u64,
    pub variant: u64,
}

// Appends a word and a number.
fn put(text: &mut String, word: &str, number: u64) -> Result<(), AllocError> {
    text.push_str(word)?;
    text.push_str(Buffer::new().format(number))
}

fn put_answer(text: &mut String, said: &str, wanted: &str) -> Result<(), AllocError> {
    text.push_str(": ")?;
    text.push_str(said)?;
    text.push_str(" for ")?;
    text.push_str(wanted)?;
    text.push('\n')
}

impl Notes {
    pub fn new(alloc: Global) -> Notes {
        Notes {
            alloc,
            text: String::new(alloc),
            is_starved: false,
            case: 0,
            call: 0,
            variant: 0,
        }
    }

    // Appends a line for an answer.
    fn tell(&mut self, said: &str, wanted: &str) -> Result<(), AllocError> {
        put(&mut self.text, "case ", self.case as u64)?;
        put(&mut self.text, ", call ", self.call)?;
        put(&mut self.text, ", variant ", self.variant)?;
        put_answer(&mut self.text, said, wanted)
    }

    /// Compares an answer with the text of the case. An empty text takes each.
    pub fn compare(&mut self, said: &str, wanted: &str) {
        if !wanted.is_empty() && said != wanted && self.tell(said, wanted).is_err() {
            self.is_starved = true;
        }
    }
}

/// Compares an answer, as it is printed, with the text of the case.
pub fn says<T: Debug + Drop>(notes: &mut Notes, answer: T, wanted: &str) {
    let alloc = notes.alloc;
    match format!(in alloc; "{answer:?}") {
        Ok(said) => notes.compare(said.as_str(), wanted),
        Err(_) => notes.is_starved = true,
    }
}

/// Compares the answer of a call that found memory.
pub fn gives<T: Debug + Drop>(notes: &mut Notes, answer: Result<T, AllocError>, wanted: &str) {
    match answer {
        Ok(answer) => says(notes, answer, wanted),
        Err(_) => notes.is_starved = true,
    }
}

/// What was made, or the other value where memory lacked.
pub fn made<T: Drop>(notes: &mut Notes, made: Result<T, AllocError>, other: T) -> T {
    match made {
        Ok(value) => {
            drop(other);
            value
        }
        Err(_) => {
            notes.is_starved = true;
            other
        }
    }
}
