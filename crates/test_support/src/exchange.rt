//! What comes in on a link, and the answers that have to follow.
use crate::given::Given;
use crate::pieces::Pieces;
use crate::texts::{add_bytes, number_of, parted};
use std::alloc::{AllocError, Global};
use std::mem;

#[derive(Drop)]
pub struct Exchange {
    /// The numbers that `with` gave.
    pub given: Given,
    /// What comes in.
    pub bytes: Vec<u8>,
    /// What is to come of it.
    pub wanted: Vec<u8>,
}

// Appends a byte so many times.
fn add_often(bytes: &mut Vec<u8>, text: &str) -> Result<(), AllocError> {
    let (count, byte) = parted(text, " ");
    let len = bytes.len();
    add_bytes(bytes, byte)?;
    let byte = bytes.as_slice().last().copied().unwrap_or(0);
    bytes.resize(len.saturating_add(number_of(count) as usize), byte)
}

// Has the bytes so many times.
fn repeat(alloc: Global, bytes: &mut Vec<u8>, times: u64) -> Result<(), AllocError> {
    let once = Vec::from_slice(alloc, bytes.as_slice())?;
    for _ in 1..times {
        bytes.extend_from_slice(once.as_slice())?;
    }
    Ok(())
}

impl Exchange {
    pub fn new(alloc: Global) -> Exchange {
        Exchange {
            given: Given::new(alloc),
            bytes: Vec::new(alloc),
            wanted: Vec::new(alloc),
        }
    }

    /// What comes in, in pieces of `piece` bytes; the call `fails` is a fault. Nothing is left.
    pub fn take_source(&mut self, alloc: Global) -> Pieces {
        let piece = self.given.number(" piece=", 65_536) as usize;
        let fails_at = self.given.number(" fails=", 0);
        Pieces::new(
            mem::replace(&mut self.bytes, Vec::new(alloc)),
            piece,
            fails_at,
        )
    }

    /// Does what a line says, and tells whether it says something of an exchange. `send` and `more` append to what comes in, `read` and
    /// `reads` to what is to come of it: bytes, or one byte so many times. `often` has both so many times.
    pub fn step(&mut self, alloc: Global, word: &str, text: &str) -> Result<bool, AllocError> {
        match word {
            "with" => self.given.set(text)?,
            "send" => add_bytes(&mut self.bytes, text)?,
            "more" => add_often(&mut self.bytes, text)?,
            "read" => add_bytes(&mut self.wanted, text)?,
            "reads" => add_often(&mut self.wanted, text)?,
            "often" => {
                repeat(alloc, &mut self.bytes, number_of(text))?;
                repeat(alloc, &mut self.wanted, number_of(text))?;
            }
            _ => return Ok(word.is_empty() || word == "for"),
        }
        Ok(true)
    }
}
