//! Decides what a claim does next.
ghost use Rattle.std.specs.Prelude.{◌≡◌};
ghost use Rattle.core_state.specs.fleet_rows.declared.rank.Rank.{Rank};
ghost use Rattle.core_state.specs.core_spec.Legal.{rank_at};
ghost use Rattle.core_state.specs.core_machine.Claims.{first_candidate};
ghost use Rattle.core_claims.specs.Choice.{newer, newer_in, newer_than, ChoiceOf, ChoiceIn, IsQueuedChoice};

use crate::job::Job;
use core_spec::Entry;
use core_state::Tables;
use fleet_rows::{Group, Rank};
use stamp_time::Moment;
use supersede_core::Pending;

/// The next step of a claim.
#[derive(Drop)]
pub(crate) enum Choice {
    /// There is no candidate.
    Nothing,
    /// The first candidate (first receipt) is superseded by the command of the second receipt.
    Older(u64, u64),
    /// The first candidate is claimed.
    Free(Job),
    Memory,
}

/// The receipt of the newest applied command, if its rank is greater.
fn newer(newest: Option<Rank>, rank: &Rank) -> Option<u64>
    ensures { result ≡ newer rank.now newest }
{
    match newest {
        Some(newest) if rank.order(&newest).is_lt() => Some(newest.receipt),
        _ => None,
    }
}

/// The receipt of the group's newest applied command, if its rank is greater.
fn newer_in(tables: &Tables, group: &Group, stamp: Moment, receipt: u64) -> Option<u64>
    ensures { result ≡ newer_in tables.now group.now (rank_at stamp receipt) }
{
    let newest = tables.newest(&group.certname, group.kind);
    newer(newest, &Rank { stamp, receipt })
}

/// The receipt of the command that supersedes this one, if any does.
fn newer_than(tables: &Tables, entry: &Entry) -> Option<u64>
    ensures { result ≡ newer_than tables.now entry.now.receipt entry.now.group }
{
    match &entry.group {
        None => None,
        Some((group, stamp)) => newer_in(tables, group, *stamp, entry.receipt),
    }
}

/// The next step, given the first candidate.
fn choose_of(tables: &Tables, entry: &Entry) -> Choice
    ensures { ChoiceOf result tables.now entry.now }
{
    match newer_than(tables, entry) {
        Some(newer) => Choice::Older(entry.receipt, newer),
        None => match entry.command.share() {
            Ok(command) => Choice::Free(Job {
                receipt: entry.receipt,
                command,
            }),
            Err(_) => Choice::Memory,
        },
    }
}

/// The next step, given all pending commands.
pub(crate) fn choose(pending: &Pending, tables: &Tables) -> Choice
    ensures choice { ChoiceIn result tables.now (first_candidate pending.now pending.now) }
    ensures queued { IsQueuedChoice result pending.now }
{
    match pending.least() {
        None => Choice::Nothing,
        Some(receipt) => match pending.entry(receipt) {
            None => Choice::Nothing,
            Some(entry) => choose_of(tables, entry),
        },
    }
}
