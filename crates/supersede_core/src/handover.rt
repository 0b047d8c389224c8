//! Finds the candidate of a group before and after one of its commands changes.
ghost use Rattle.std.specs.Prelude.{◌≡◌, ◌<◌, ◌≤◌, ◌-◌, ◌^◌, ⊤, IfOk, OnErr, MatchOption, is_some, true};
ghost use Rattle.std.specs.String.{string_bytes};
ghost use Rattle.supersede_core.specs.Turns.{members_at, claims};
ghost use Rattle.supersede_core.specs.Handover.{Enters, Claims, Releases, Leaves, AreSame, flagged};

use crate::turns::Turns;
use entry_tree::{Change, EntryTree, Waiting};
use std::alloc::{AllocError, Global};

/// The receipts of the group's candidates. A command without a group counts as a group of its own.
#[derive(Clone, Copy)]
pub(crate) struct Handover {
    pub before: Option<u64>,
    pub after: Option<u64>,
}

/// Adds a command to its group.
pub(crate) fn enter(
    turns: &mut Turns,
    alloc: Global,
    waiting: &Waiting,
) -> Result<Handover, AllocError>
    ensures ok { IfOk result (Enters waiting.now turns.old turns.new) }
    ensures err { OnErr result (AreSame turns.old turns.new) }
{
    let Some(key) = &waiting.key else {
        return Ok(Handover {
            before: None,
            after: Some(waiting.entry.receipt),
        });
    };
    turns.enter(alloc, key.text.as_str(), key.stamp, waiting.entry.receipt)
}

/// Claims a command of its group.
pub(crate) fn claim(turns: &mut Turns, waiting: &Waiting) -> Handover
    requires there { MatchOption waiting.now.key ⊤ (λ k. is_some (members_at turns.old (string_bytes k.text)) ≡ true) }
    requires few { MatchOption waiting.now.key ⊤ (λ k. claims (members_at turns.old (string_bytes k.text)) < 2 ^ 32 - 1) }
    ensures { Claims waiting.now turns.old turns.new result }
{
    let Some(key) = &waiting.key else {
        return Handover {
            before: Some(waiting.entry.receipt),
            after: None,
        };
    };
    turns.claim(key.text.as_str())
}

/// Ends the claim of a command of its group.
pub(crate) fn release(turns: &mut Turns, waiting: &Waiting) -> Handover
    requires { MatchOption waiting.now.key ⊤ (λ k. 1 ≤ claims (members_at turns.old (string_bytes k.text))) }
    ensures { Releases waiting.now turns.old turns.new result }
{
    let Some(key) = &waiting.key else {
        return Handover {
            before: None,
            after: Some(waiting.entry.receipt),
        };
    };
    turns.release(key.text.as_str())
}

/// Takes a command out of its group.
pub(crate) fn leave(turns: &mut Turns, waiting: &Waiting) -> Handover
    requires there { MatchOption waiting.now.key ⊤ (λ k. is_some (members_at turns.old (string_bytes k.text)) ≡ true) }
    requires claimed { MatchOption waiting.now.key ⊤ (λ k. waiting.now.entry.claimed ≡ true → 1 ≤ claims (members_at turns.old (string_bytes k.text))) }
    ensures { Leaves waiting.now turns.old turns.new result }
{
    let Some(key) = &waiting.key else {
        return Handover {
            before: None,
            after: None,
        };
    };
    turns.leave(
        key.text.as_str(),
        key.stamp,
        waiting.entry.receipt,
        waiting.entry.claimed,
    )
}

/// Sets whether the command of the receipt is a candidate.
pub(crate) fn flag(tree: &mut EntryTree, receipt: Option<u64>, candidate: bool)
    ensures { tree.new ≡ flagged receipt candidate tree.old }
{
    if let Some(receipt) = receipt {
        tree.change(receipt, Change::Candidate(candidate));
    }
}
