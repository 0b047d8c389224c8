//! Tells which arguments need the files, and which commands don't wait.
ghost use Rattle.std.specs.Prelude.{◌≡◌, ◌↔◌, IfOk, IsTrue};
ghost use Rattle.fleet_app.specs.Words.{IsCalm, NeedDisks};

use json_tree::Text;
use program_words::{Memory, Request, read_words};
use std::alloc::Global;

/// Whether the arguments name a command that uses the four files.
pub fn needs_disks(alloc: Global, words: &[Text]) -> Result<bool, Memory>
    ensures { IfOk result (λ needs. IsTrue needs ↔ NeedDisks words.now) }
{
    let found = read_words(alloc, words)?;
    match found {
        Some(request) => Ok(request.uses_disks()),
        None => Ok(false),
    }
}

// Whether the command is one that doesn't wait.
pub(crate) fn is_calm(request: &Request) -> bool
    ensures { IsTrue result ↔ IsCalm request.now }
{
    match request {
        Request::Run { .. } => false,
        Request::Serve { .. } => false,
        _ => true,
    }
}
