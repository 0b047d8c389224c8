//! The course of a reader: all calls that it received. Proofs see all of it, and tests what memory could hold.
ghost use Rattle.std.specs.Prelude.{◌≡◌, ◌++◌, ◌∷◌, [], map, OnOk};
ghost use Rattle.pattern_port.specs.Course.{read, tried};
ghost use Rattle.pattern_memory.specs.Marks.{acts_of, reading_of, step, with_pattern, with_text};
ghost use Rattle.pattern_memory.specs.Notes.{act_of};
ghost use Rattle.pattern_memory.specs.declared.mark.Mark.TheVariants.{Begin, Read, Tried};

use crate::mark::Mark;
use crate::note::Note;
use http_server::Log;
use std::alloc::{AllocError, Global};

/// The acts so far.
#[derive(Drop)]
pub(crate) struct Course {
    alloc: Global,
    marks: Log<Mark, u8>,
    notes: Vec<Note>,
    lost: u64,
    ghost kept: { lost ≡ 0 → map act_of notes.items ≡ acts_of marks.items },
}

// Appends a mark.
fn mark(marks: &mut Log<Mark, u8>, more: Mark)
    ensures { reading_of marks.new.items ≡ step (reading_of marks.old.items) more }
{
    *marks = marks.and(&more, &0);
}

#[tactic(auto, using(crate::proofs::Walks::pattern_on))]
fn mark_pattern(marks: &mut Log<Mark, u8>, text: &str)
    ensures { reading_of marks.new.items ≡ with_pattern (reading_of marks.old.items) text.now }
{
    'bytes: for byte in text.as_bytes() {
        mark(marks, Mark::Pattern(*byte));
    }
}

#[tactic(auto, using(crate::proofs::Walks::text_on))]
fn mark_text(marks: &mut Log<Mark, u8>, text: &str)
    ensures { reading_of marks.new.items ≡ with_text (reading_of marks.old.items) text.now }
{
    'bytes: for byte in text.as_bytes() {
        mark(marks, Mark::Text(*byte));
    }
}

// Records that a text was read as a pattern.
fn mark_read(marks: &mut Log<Mark, u8>, text: &str, refused: bool)
    ensures { acts_of marks.new.items ≡ acts_of marks.old.items ++ read text.now refused ∷ [] }
{
    mark(marks, Mark::Begin);
    mark_pattern(marks, text);
    mark(marks, Mark::Read(refused));
}

// Records that a text was tried on a pattern.
fn mark_tried(marks: &mut Log<Mark, u8>, pattern: &str, text: &str)
    ensures { acts_of marks.new.items ≡ acts_of marks.old.items ++ tried pattern.now text.now ∷ [] }
{
    mark(marks, Mark::Begin);
    mark_pattern(marks, pattern);
    mark_text(marks, text);
    mark(marks, Mark::Tried);
}

fn note_read(
    alloc: Global,
    notes: &mut Vec<Note>,
    text: &str,
    refused: bool,
) -> Result<(), AllocError>
    ensures { OnOk result (map act_of notes.new.items ≡ map act_of notes.old.items ++ read text.now refused ∷ []) }
{
    let text = String::from_str(alloc, text)?;
    notes.push(Note::Read(text, refused))?;
    Ok(())
}

fn note_tried(
    alloc: Global,
    notes: &mut Vec<Note>,
    pattern: &str,
    text: &str,
) -> Result<(), AllocError>
    ensures { OnOk result (map act_of notes.new.items ≡ map act_of notes.old.items ++ tried pattern.now text.now ∷ []) }
{
    let pattern = String::from_str(alloc, pattern)?;
    let text = String::from_str(alloc, text)?;
    notes.push(Note::Tried(pattern, text))?;
    Ok(())
}

impl Course {
    ghost use Rattle.pattern_memory.specs.Courses.{acts_in, lost_in};

    /// An empty course. It allocates nothing.
    pub(crate) fn new(alloc: Global) -> Course
        ensures acts { acts_in result ≡ [] }
        ensures lost { lost_in result ≡ 0 }
    {
        Course {
            alloc,
            marks: Log::new(),
            notes: Vec::new(alloc),
            lost: 0,
        }
    }

    /// Records that a text was read as a pattern, and whether it was refused.
    pub(crate) fn read(&mut self, text: &str, refused: bool)
        ensures { acts_in self.new ≡ acts_in self.old ++ read text.now refused ∷ [] }
    {
        mark_read(&mut self.marks, text, refused);
        if note_read(self.alloc, &mut self.notes, text, refused).is_err() {
            self.lost = self.lost.saturating_add(1);
        }
    }

    /// Records that the second text was tried on the pattern of the first.
    pub(crate) fn tried(&mut self, pattern: &str, text: &str)
        ensures { acts_in self.new ≡ acts_in self.old ++ tried pattern.now text.now ∷ [] }
    {
        mark_tried(&mut self.marks, pattern, text);
        if note_tried(self.alloc, &mut self.notes, pattern, text).is_err() {
            self.lost = self.lost.saturating_add(1);
        }
    }

    /// The acts in order, if none was lost.
    pub(crate) fn notes(&self) -> &[Note]
        ensures { lost_in self.now ≡ 0 → map act_of result.now ≡ acts_in self.now }
    {
        self.notes.as_slice()
    }

    /// The number of acts that couldn't be noted, for lack of memory.
    pub(crate) fn lost(&self) -> u64
        ensures { result ≡ lost_in self.now }
    {
        self.lost
    }
}
