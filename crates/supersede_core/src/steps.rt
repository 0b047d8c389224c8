//! What the calls do to the tree and to the groups.
ghost use Rattle.std.specs.Prelude.{◌≡◌, ◌<◌, suc, Some, [], ◌∷◌, ◌++◌, length, true, false, IfSome, IsTrue, OnOk, OnErr, option_map};
ghost use Rattle.std.specs.Option.{option_and_then};
ghost use Rattle.std.specs.List.{flat_map};
ghost use Rattle.entry_tree.specs.core_machine.Claims.{first_candidate, is_claimed, attempts_of};
ghost use Rattle.entry_tree.specs.core_machine.Steps.{marked, at_receipt};
ghost use Rattle.supersede_core.specs.Waiting.{AreBelow, counted, entry_of, stands, is_queued};
ghost use Rattle.supersede_core.specs.Index.{IsIndex, IsKey, entries};
ghost use Rattle.supersede_core.specs.Handover.{handed};
ghost use Rattle.supersede_core.specs.declared.turns.Turns.{Turns};
ghost use Rattle.entry_tree.specs.fleet_rows.Limits.{most_pending};

use crate::handover::{Handover, claim, enter, flag, leave, release};
use crate::turns::Turns;
use entry_tree::core_spec::Entry;
use entry_tree::{Change, EntryTree, Spot, Waiting};
use std::alloc::{AllocError, Global};

// Moves the candidate's mark from one entry to another.
fn hand(tree: &mut EntryTree, handover: Handover)
    ensures { tree.new ≡ handed handover tree.old }
{
    flag(tree, handover.before, false);
    flag(tree, handover.after, true);
}

pub(crate) fn add_to(
    tree: &mut EntryTree,
    turns: &mut Turns,
    alloc: Global,
    waiting: Waiting,
) -> Result<(), AllocError>
    requires index { IsIndex tree.old turns.old }
    requires key { IsKey waiting.key waiting.entry.group }
    requires queued { waiting.entry.claimed ≡ false }
    requires unmarked { waiting.candidate ≡ false }
    requires above { AreBelow waiting.entry.receipt (entries tree.old) }
    requires room { length tree.old < most_pending }
    ensures ok { OnOk result (entries tree.new ≡ entries tree.old ++ waiting.entry ∷ []) }
    ensures err { OnErr result (entries tree.new ≡ entries tree.old) }
    ensures index { IsIndex tree.new turns.new }
{
    let _ = tree.count();
    let spot = Spot::new(alloc, waiting)?;
    let handover = enter(turns, alloc, spot.waiting())?;
    tree.put(spot);
    hand(tree, handover);
    Ok(())
}

pub(crate) fn mark_in(tree: &mut EntryTree, turns: &mut Turns, receipt: u64)
    requires index { IsIndex tree.old turns.old }
    requires queued { IsTrue (is_queued receipt (entries tree.old)) }
    ensures marked { entries tree.new ≡ flat_map (at_receipt receipt (λ e. marked true e ∷ [])) (entries tree.old) }
    ensures index { IsIndex tree.new turns.new }
{
    let _ = tree.count();
    let Some(waiting) = tree.get(receipt) else {
        unreachable!()
    };
    let handover = claim(turns, waiting);
    tree.change(receipt, Change::Claimed(true));
    hand(tree, handover);
}

pub(crate) fn unmark_in(tree: &mut EntryTree, turns: &mut Turns, receipt: u64)
    requires index { IsIndex tree.old turns.old }
    requires claimed { IsTrue (is_claimed receipt (entries tree.old)) }
    ensures unmarked { entries tree.new ≡ flat_map (at_receipt receipt (λ e. marked false e ∷ [])) (entries tree.old) }
    ensures index { IsIndex tree.new turns.new }
{
    let _ = tree.count();
    let Some(waiting) = tree.get(receipt) else {
        unreachable!()
    };
    let handover = release(turns, waiting);
    tree.change(receipt, Change::Claimed(false));
    hand(tree, handover);
}

pub(crate) fn take_from(tree: &mut EntryTree, turns: &mut Turns, receipt: u64) -> Entry
    requires index { IsIndex tree.old turns.old }
    requires there { IsTrue (stands receipt (entries tree.old)) }
    ensures taken { entries tree.new ≡ flat_map (at_receipt receipt (λ e. [])) (entries tree.old) }
    ensures entry { entry_of receipt (entries tree.old) ≡ Some result }
    ensures index { IsIndex tree.new turns.new }
{
    let _ = tree.count();
    let Some(waiting) = tree.take(receipt) else {
        unreachable!()
    };
    let handover = leave(turns, &waiting);
    hand(tree, handover);
    let Waiting { entry, .. } = waiting;
    entry
}

pub(crate) fn count_failure_in(tree: &mut EntryTree, receipt: u64) -> u32
    requires there { IsTrue (stands receipt (entries tree.old)) }
    requires few { attempts_of receipt (entries tree.old) < 16 }
    ensures counted { entries tree.new ≡ flat_map (at_receipt receipt (λ e. counted e ∷ [])) (entries tree.old) }
    ensures attempts { result ≡ suc (attempts_of receipt (entries tree.old)) }
    ensures index { (turns : Turns) → IsIndex tree.old turns → IsIndex tree.new turns }
{
    let _ = tree.count();
    let Some(waiting) = tree.get(receipt) else {
        unreachable!()
    };
    let attempts = waiting.entry.attempts + 1;
    tree.change(receipt, Change::Failed);
    attempts
}

/// The receipt of the first candidate.
pub(crate) fn least_in(tree: &EntryTree, turns: &Turns) -> Option<u64>
    requires { IsIndex tree.now turns.now }
    ensures least { result ≡ option_map (λ e. e.receipt) (first_candidate (entries tree.now) (entries tree.now)) }
    ensures entry { option_and_then (λ r. entry_of r (entries tree.now)) result ≡ first_candidate (entries tree.now) (entries tree.now) }
    ensures queued { IfSome result (λ r. IsTrue (is_queued r (entries tree.now))) }
{
    let _ = turns;
    let _ = tree.count();
    tree.first()
}

/// The entry of the receipt, if there is one.
pub(crate) fn entry_in(tree: &EntryTree, receipt: u64) -> Option<&Entry>
    ensures { option_map (λ e. e.now) result ≡ entry_of receipt (entries tree.now) }
{
    match tree.get(receipt) {
        Some(waiting) => Some(&waiting.entry),
        None => None,
    }
}
