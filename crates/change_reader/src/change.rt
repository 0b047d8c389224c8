//! Decodes a change: its kind and its fields.
ghost use Rattle.std.specs.Prelude.{◌≡◌, IfOk};
ghost use Rattle.record_fields.specs.Reading.{Shows};
ghost use Rattle.change_reader.specs.Changes.{change_at};

use crate::catalog::take_catalog;
use crate::report::take_report;
use crate::short::{take_deactivate, take_expiration, take_facts};
use std::alloc::{AllocError, Global};
use wire_catalog::fleet_rows::Change;

/// Reads the change at the front of the bytes. Also returns the bytes after it.
#[tactic(auto, unfolding(crate::specs::Changes::change_at))]
pub fn take_change(alloc: Global, bytes: &[u8]) -> Result<Option<(Change, &[u8])>, AllocError>
    ensures { IfOk result (λ o. Shows (λ x. (x.0, x.1.now)) o (change_at bytes.now)) }
{
    match bytes {
        [0, rest @ ..] => match take_facts(alloc, rest)? {
            None => Ok(None),
            Some((change, rest)) => Ok(Some((Change::Facts(change), rest))),
        },
        [1, rest @ ..] => match take_catalog(alloc, rest)? {
            None => Ok(None),
            Some((change, rest)) => Ok(Some((Change::Catalog(change), rest))),
        },
        [2, rest @ ..] => match take_report(alloc, rest)? {
            None => Ok(None),
            Some((change, rest)) => Ok(Some((Change::Report(change), rest))),
        },
        [3, rest @ ..] => match take_deactivate(alloc, rest)? {
            None => Ok(None),
            Some((change, rest)) => Ok(Some((Change::Deactivate(change), rest))),
        },
        [4, rest @ ..] => match take_expiration(alloc, rest)? {
            None => Ok(None),
            Some((change, rest)) => Ok(Some((Change::Expiration(change), rest))),
        },
        _ => Ok(None),
    }
}
