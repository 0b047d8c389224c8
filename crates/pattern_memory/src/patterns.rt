//! `Patterns` in memory.
ghost use Rattle.std.specs.Prelude.{◌≡◌, [], map};
ghost use Rattle.pattern_memory.specs.Notes.{act_of};

use crate::course::Course;
use crate::note::Note;
use pattern_port::{PatternFault, Patterns};
use std::alloc::{AllocError, Global};

/// A compiled pattern.
#[derive(Drop)]
pub struct Compiled {
    text: String,
}

/// A reader of patterns in memory, which records its course.
#[derive(Drop)]
pub struct MemoryPatterns {
    alloc: Global,
    refused: u64,
    course: Course,
}

impl MemoryPatterns {
    ghost use Rattle.pattern_memory.specs.Readers.{course_of, lost_of, refusals_of};

    /// A reader that has received no call yet. It allocates nothing.
    pub fn new(alloc: Global) -> MemoryPatterns
        ensures course { course_of result ≡ [] }
        ensures lost { lost_of result ≡ 0 }
        ensures refusals { refusals_of result ≡ 0 }
    {
        MemoryPatterns {
            alloc,
            refused: 0,
            course: Course::new(alloc),
        }
    }

    /// The acts in order, if none was lost.
    pub fn notes(&self) -> &[Note]
        ensures { lost_of self.now ≡ 0 → map act_of result.now ≡ course_of self.now }
    {
        self.course.notes()
    }

    /// The number of acts that couldn't be noted, for lack of memory.
    pub fn lost(&self) -> u64
        ensures { result ≡ lost_of self.now }
    {
        self.course.lost()
    }
}

impl Patterns for MemoryPatterns {
    ghost use Rattle.std.specs.Prelude.{Some, refl};
    ghost use Rattle.pattern_port.specs.Course.{readings};
    ghost use Rattle.pattern_memory.specs.Readers.{course_of, refusals_of, begins_with, pattern_of};

    type Compiled = Compiled;

    ghost says = { λ _ p t. begins_with p t };

    ghost made_from = { λ c. pattern_of c };

    ghost refusals = { λ reader. refusals_of reader };

    ghost asked = { λ reader. Some (readings (course_of reader)) };

    ghost course = { λ reader. Some (course_of reader) };

    ghost asked_is = { λ _. refl };

    fn compile(&mut self, pattern: &str) -> Result<Compiled, PatternFault> {
        if pattern.as_bytes().starts_with(b"(") {
            self.course.read(pattern, true);
            self.refused = self.refused.saturating_add(1);
            return Err(PatternFault::Refused);
        }
        self.course.read(pattern, false);
        match String::from_str(self.alloc, pattern) {
            Ok(text) => Ok(Compiled { text }),
            Err(_) => Err(PatternFault::Memory),
        }
    }

    fn matches(&mut self, compiled: &Compiled, text: &str) -> Result<bool, AllocError> {
        let pattern = compiled.text.as_str();
        self.course.tried(pattern, text);
        Ok(text.as_bytes().starts_with(pattern.as_bytes()))
    }
}
