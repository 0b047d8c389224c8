//! Tries each kind of case by its own player.
use crate::arguments::{query_text, spell_the_same, told_numbers, told_request};
use crate::made_spools::{try_fault, try_made, try_read};
use crate::record_queue::{longest_told, try_number, try_short};
use crate::spools::{try_again, try_cuts, try_large, try_spool};
use std::alloc::{AllocError, Global};
use std::process::Abort;
use test_support::{Fault, Notes, Trial, gives, parted, tried};

#[derive(Drop)]
struct Records;

fn try_case(notes: &mut Notes, kind: &str, script: &str) {
    let alloc = notes.alloc;
    let (words, wanted) = parted(script, "|");
    match kind {
        "same" => gives(notes, spell_the_same(alloc, words, wanted), "true"),
        "usage" => gives(notes, told_request(alloc, script), "None"),
        "query" => gives(notes, query_text(alloc, words), wanted),
        "numbers" => gives(notes, told_numbers(alloc, words), wanted),
        "spool" => try_spool(notes, script),
        "cuts" => try_cuts(notes, script),
        "large" => try_large(notes, words, wanted),
        "again" => try_again(notes, script),
        "made" => try_made(notes, words, wanted),
        "fault" => try_fault(notes, words, wanted),
        "read" => try_read(notes, words, wanted),
        "longest" => gives(notes, longest_told(alloc, words), wanted),
        "number" => try_number(notes, script),
        _ => try_short(notes, script),
    }
}

impl Trial for Records {
    fn try_one(&self, notes: &mut Notes, kind: &str, script: &str, _fault: Fault) -> u64 {
        try_case(notes, kind, script);
        0
    }
}

/// Tries the cases of this kind, one a line, and aborts where an answer is another than a case has it.
pub(crate) fn try_all<R: Abort>(
    rt: &R,
    alloc: Global,
    kind: &str,
    cases: &str,
) -> Result<(), AllocError> {
    let wrong = tried(&Records, alloc, kind, "\n", cases)?;
    assert!(rt; wrong.is_empty(), "{wrong}");
    Ok(())
}
