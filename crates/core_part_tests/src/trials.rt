//! Tries each kind of case by its own player.
use crate::keepers::{try_keeper, try_memory};
use crate::waiting::try_queue;
use std::alloc::{AllocError, Global};
use std::process::Abort;
use test_support::{Fault, Notes, Trial, tried};

#[derive(Drop)]
struct Parts;

impl Trial for Parts {
    fn try_one(&self, notes: &mut Notes, kind: &str, script: &str, fault: Fault) -> u64 {
        match kind {
            "queue" => try_queue(notes, script),
            "memory" => try_memory(notes, script),
            _ => return try_keeper(notes, script, fault),
        }
        0
    }
}

/// Tries the cases of this kind, which the mark parts, and aborts where an answer is another than a case has it.
pub(crate) fn try_all<R: Abort>(
    rt: &R,
    alloc: Global,
    kind: &str,
    mark: &str,
    cases: &str,
) -> Result<(), AllocError> {
    let wrong = tried(&Parts, alloc, kind, mark, cases)?;
    assert!(rt; wrong.is_empty(), "{wrong}");
    Ok(())
}
