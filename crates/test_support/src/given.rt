//! What the next command gets: its numbers, its spool and its links.
use crate::files::numbers;
use crate::items::Spool;
use crate::pieces::Pieces;
use crate::texts::{bytes_of, number_of, parted};
use port_memory::MemorySink;
use port_memory::json_tree::Bytes;
use std::alloc::{AllocError, Global};
use std::collections::VecDeque;
use std::mem;

#[derive(Drop)]
pub struct Given {
    // The numbers, as `spool=1 out=2`.
    settings: String,
    pub(crate) spool: Spool,
    links: VecDeque<Bytes>,
}

impl Given {
    pub(crate) fn new(alloc: Global) -> Given {
        Given {
            settings: String::new(alloc),
            spool: Spool::new(alloc),
            links: VecDeque::new(alloc),
        }
    }

    /// The number that `with` gave this name, or the other one. A name has a blank in front and `=` behind.
    pub fn number(&self, name: &str, other: u64) -> u64 {
        match self.settings.as_str().split_once(name) {
            Some((_, rest)) => number_of(parted(rest, " ").0),
            None => other,
        }
    }

    /// The spool. The next command has none.
    pub fn take_spool(&mut self, alloc: Global) -> Pieces {
        let piece = self.number(" piece=", u64::MAX) as usize;
        let fails_at = self.number(" spool=", 0);
        let bytes = mem::replace(&mut self.spool.bytes, Vec::new(alloc));
        Pieces::new(bytes, piece, fails_at)
    }

    /// A sink of which the call fails that this name has.
    pub fn sink(&self, alloc: Global, name: &str) -> MemorySink {
        MemorySink::new(alloc, numbers(alloc, self.number(name, 0), 1))
    }

    /// What comes on each link. The next command has none.
    pub fn take_links(&mut self, alloc: Global) -> VecDeque<Bytes> {
        mem::replace(&mut self.links, VecDeque::new(alloc))
    }

    /// Leaves no numbers and no spool.
    pub(crate) fn clear(&mut self) {
        self.settings.clear();
        self.spool.bytes.clear();
    }

    /// Appends bytes to the spool.
    pub(crate) fn add_to_spool(&mut self, bytes: &[u8]) -> Result<bool, AllocError> {
        self.spool.bytes.extend_from_slice(bytes)?;
        Ok(true)
    }

    // Gives numbers, as `spool=1 out=2`.
    pub(crate) fn set(&mut self, text: &str) -> Result<(), AllocError> {
        self.settings.push(' ')?;
        self.settings.push_str(text)
    }

    /// Does what a line says, and tells whether it says something of the next command.
    pub(crate) fn step(
        &mut self,
        alloc: Global,
        word: &str,
        text: &str,
    ) -> Result<bool, AllocError> {
        match word {
            "with" => self.set(text)?,
            "link" => {
                let bytes = Bytes::from_vec(bytes_of(alloc, text)?);
                self.links.push_back(bytes)?;
            }
            _ => return self.spool.step(alloc, word, text),
        }
        Ok(true)
    }
}
