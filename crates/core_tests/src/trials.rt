//! Tries each kind of case by its own player.
use crate::cores::try_core;
use crate::openings::try_opening;
use std::alloc::{AllocError, Global};
use std::process::Abort;
use test_support::{Fault, Notes, Trial, tried};

#[derive(Drop)]
struct Cores;

impl Trial for Cores {
    fn try_one(&self, notes: &mut Notes, kind: &str, script: &str, fault: Fault) -> u64 {
        match kind {
            "opening" => try_opening(notes, script, fault),
            _ => try_core(notes, script, fault),
        }
    }
}

/// Tries the cases of this kind, which the mark parts, and aborts where an answer is another than a case has it.
pub(crate) fn try_all<R: Abort>(
    rt: &R,
    alloc: Global,
    kind: &str,
    mark: &str,
    cases: &str,
) -> Result<(), AllocError> {
    let wrong = tried(&Cores, alloc, kind, mark, cases)?;
    assert!(rt; wrong.is_empty(), "{wrong}");
    Ok(())
}
