//! Compares the answers of a hub, printed as text.
use std::alloc::{AllocError, Global};
use std::fmt::Debug;
use std::process::Abort;

/// Aborts unless the answer is printed so.
pub(crate) fn says<R: Abort, T: Debug + Drop>(
    rt: &R,
    alloc: Global,
    answer: T,
    wanted: &str,
) -> Result<(), AllocError> {
    let said = format!(in alloc; "{answer:?}")?;
    assert!(rt; said.as_str() == wanted, "{said} for {wanted}");
    Ok(())
}

/// The value behind a call that found memory.
pub(crate) fn behind<T: Drop>(played: Result<(), AllocError>, value: T) -> Result<T, AllocError> {
    match played {
        Ok(()) => Ok(value),
        Err(fault) => Err(fault),
    }
}

/// The number that a word spells, or 0.
pub(crate) fn number_of(word: &str) -> u64 {
    word.parse::<u64>().unwrap_or(0)
}

/// The text before the mark, and behind it.
pub(crate) fn parted<'a>(text: &'a str, mark: &str) -> (&'a str, &'a str) {
    text.split_once(mark).unwrap_or((text, ""))
}
