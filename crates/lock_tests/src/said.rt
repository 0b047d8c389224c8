//! Answers as text.
use std::alloc::{AllocError, Global};
use std::fmt::Debug;
use std::process::Abort;

/// Aborts unless the answer is printed so.
pub(crate) fn says<R: Abort, T: Debug + Drop>(
    rt: &R,
    alloc: Global,
    answer: T,
    wanted: &str,
) -> Result<(), AllocError> {
    let said = format!(in alloc; "{answer:?}")?;
    assert!(rt; said.as_str() == wanted, "{said} for {wanted}");
    Ok(())
}
