//! The lines of a script that run no command.
use crate::files::Stored;
use crate::given::Given;
use crate::told::Told;
use std::alloc::{AllocError, Global};

/// The words of lines that do nothing.
const QUIET: [&str; 4] = ["", "each", "outcome", "case"];

/// How far a script is.
#[derive(Drop)]
pub struct Script {
    /// The files and the disks.
    pub stored: Stored,
    /// What the next command gets.
    pub given: Given,
    /// What the last one came to.
    pub told: Told,
}

impl Script {
    pub fn new(alloc: Global) -> Script {
        Script {
            stored: Stored::new(alloc),
            given: Given::new(alloc),
            told: Told::new(alloc),
        }
    }

    /// Does what a line says that runs no command, and tells whether it is as the line says.
    pub fn note(&mut self, alloc: Global, word: &str, text: &str) -> Result<bool, AllocError> {
        if QUIET.contains(&word) {
            return Ok(true);
        }
        if word == "piped" {
            return self.given.add_to_spool(self.told.printed.as_slice());
        }
        let has_failed = self.stored.have_failed();
        if let Some(is_so) = self.told.step(has_failed, word, text)? {
            return Ok(is_so);
        }
        if let Some(is_so) = self.stored.step(alloc, word, text)? {
            return Ok(is_so);
        }
        self.given.step(alloc, word, text)
    }

    /// Goes on behind a command of this word, and tells whether it is as its line says: words that are no command have that status, and
    /// print nothing.
    pub fn is_over(&mut self, word: &str) -> bool {
        self.given.clear();
        word != "usage" || self.told.has_ended("2 usage")
    }
}
