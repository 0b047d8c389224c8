//! The pending commands, sorted by receipt.
ghost use Rattle.std.specs.Prelude.{◌≡◌, ◌<◌, ◌≤◌, ◌-◌, ◌^◌, ℕ, suc, min, [], ◌∷◌, ◌++◌, length, slice_get, Some, true, false};
ghost use Rattle.std.specs.Prelude.{not, is_some, MatchOption, IfSome, IsTrue, OnOk, OnErr, option_map};
ghost use Rattle.std.specs.Option.{option_and_then};
ghost use Rattle.std.specs.List.{flat_map};
ghost use Rattle.entry_tree.specs.core_spec.declared.entry.Entry.{Entry};
ghost use Rattle.entry_tree.specs.core_machine.Claims.{first_candidate, is_claimed, attempts_of};
ghost use Rattle.entry_tree.specs.core_machine.Steps.{marked, at_receipt};
ghost use Rattle.entry_tree.specs.core_spec.Pending.{NoneIsWornOut};
ghost use Rattle.supersede_core.specs.Waiting.{entry_of, stands, is_queued, queued_number, payload_bytes, AreBelow, queued_entry, counted};
ghost use Rattle.entry_tree.specs.fleet_rows.Limits.{most_pending};

use crate::keys::key_of;
use crate::steps::{add_to, count_failure_in, entry_in, least_in, mark_in, take_from, unmark_in};
use crate::turns::Turns;
use entry_tree::core_spec::Entry;
use entry_tree::fleet_rows::{Group, Shared};
use entry_tree::stamp_time::Moment;
use entry_tree::{EntryTree, Waiting};
use std::alloc::{AllocError, Global};
use std::marker::Model;

/// The queued and the claimed commands, sorted by receipt. Contracts see the list of entries.
#[derive(Drop)]
pub struct Pending {
    alloc: Global,
    tree: EntryTree,
    turns: Turns,
}

impl Model for Pending {
    ghost use Rattle.std.specs.Prelude.{List};
    ghost use Rattle.entry_tree.specs.core_spec.declared.entry.Entry.{Entry};
    ghost use Rattle.supersede_core.specs.Index.{entries, IsIndex};

    ghost Value = { List Entry };

    ghost view = { λ a. entries a.tree };

    ghost invariant = { λ a. IsIndex a.tree a.turns };
}

impl Pending {
    /// An empty list.
    pub fn new(alloc: Global) -> Pending
        ensures { result ≡ [] }
    {
        Pending {
            alloc,
            tree: EntryTree::new(),
            turns: Turns::new(alloc),
        }
    }

    /// Adds a command, which is queued. The receipt must be above all others. On failure the command is dropped and the list
    /// stays.
    pub fn add(
        &mut self,
        receipt: u64,
        command: Shared,
        group: Option<(Group, Moment)>,
        attempts: u32,
    ) -> Result<(), AllocError>
        requires above { AreBelow receipt self.old }
        requires attempts { attempts < 16 }
        requires room { length self.old < most_pending }
        ensures ok { OnOk result (self.new ≡ self.old ++ queued_entry receipt command group attempts ∷ []) }
        ensures err { OnErr result (self.new ≡ self.old) }
        ensures few { NoneIsWornOut self.old → NoneIsWornOut self.new }
        ensures below { (n : ℕ) → receipt < n → AreBelow n self.old → AreBelow n self.new }
    {
        let key = key_of(self.alloc, &group)?;
        let entry = Entry {
            receipt,
            command,
            group,
            attempts,
            claimed: false,
        };
        let waiting = Waiting {
            entry,
            key,
            candidate: false,
        };
        add_to(&mut self.tree, &mut self.turns, self.alloc, waiting)
    }

    /// The least receipt of all candidates: queued commands that nothing of their group holds back.
    pub fn least(&self) -> Option<u64>
        ensures least { result ≡ option_map (λ e. e.receipt) (first_candidate self.now self.now) }
        ensures entry { option_and_then (λ r. entry_of r self.now) result ≡ first_candidate self.now self.now }
        ensures queued { IfSome result (λ r. IsTrue (is_queued r self.now)) }
    {
        least_in(&self.tree, &self.turns)
    }

    /// Marks the queued command as claimed.
    pub fn mark(&mut self, receipt: u64)
        requires { IsTrue (is_queued receipt self.old) }
        ensures marked { self.new ≡ flat_map (at_receipt receipt (λ e. marked true e ∷ [])) self.old }
        ensures few { NoneIsWornOut self.old → NoneIsWornOut self.new }
        ensures below { (n : ℕ) → AreBelow n self.old → AreBelow n self.new }
    {
        mark_in(&mut self.tree, &mut self.turns, receipt);
    }

    /// Marks the claimed command as queued.
    pub fn unmark(&mut self, receipt: u64)
        requires { IsTrue (is_claimed receipt self.old) }
        ensures unmarked { self.new ≡ flat_map (at_receipt receipt (λ e. marked false e ∷ [])) self.old }
        ensures few { NoneIsWornOut self.old → NoneIsWornOut self.new }
        ensures below { (n : ℕ) → AreBelow n self.old → AreBelow n self.new }
    {
        unmark_in(&mut self.tree, &mut self.turns, receipt);
    }

    /// Takes the entry out of the list, queued or claimed.
    pub fn take(&mut self, receipt: u64) -> Entry
        requires { IsTrue (stands receipt self.old) }
        ensures taken { self.new ≡ flat_map (at_receipt receipt (λ e. [])) self.old }
        ensures entry { entry_of receipt self.old ≡ Some result }
        ensures few { NoneIsWornOut self.old → NoneIsWornOut self.new }
        ensures below { (n : ℕ) → AreBelow n self.old → AreBelow n self.new }
    {
        take_from(&mut self.tree, &mut self.turns, receipt)
    }

    /// Counts one more failure of the store at the command, which stays claimed or queued. Answers the new number of failures.
    pub fn count_failure(&mut self, receipt: u64) -> u32
        requires there { IsTrue (stands receipt self.old) }
        requires attempts { attempts_of receipt self.old < 16 }
        ensures counted { self.new ≡ flat_map (at_receipt receipt (λ e. counted e ∷ [])) self.old }
        ensures attempts { result ≡ suc (attempts_of receipt self.old) }
        ensures few { NoneIsWornOut self.old → result < 16 → NoneIsWornOut self.new }
        ensures below { (n : ℕ) → AreBelow n self.old → AreBelow n self.new }
    {
        count_failure_in(&mut self.tree, receipt)
    }

    /// The entry of this receipt, if it is pending.
    pub fn entry(&self, receipt: u64) -> Option<&Entry>
        ensures entry { option_map (λ e. e.now) result ≡ entry_of receipt self.now }
        ensures stands { stands receipt self.now ≡ is_some result }
        ensures queued { MatchOption result (is_queued receipt self.now ≡ false) (λ e. is_queued receipt self.now ≡ not e.now.claimed) }
        ensures claimed { MatchOption result (is_claimed receipt self.now ≡ false) (λ e. is_claimed receipt self.now ≡ e.now.claimed) }
        ensures attempts { IfSome result (λ e. attempts_of receipt self.now ≡ e.now.attempts) }
        ensures few { NoneIsWornOut self.now → IfSome result (λ e. e.now.attempts < 16) }
    {
        entry_in(&self.tree, receipt)
    }

    /// The entry at this index, by receipt.
    pub fn at(&self, i: usize) -> &Entry
        requires { i < length self.now }
        ensures { slice_get self.now i ≡ Some result.now }
    {
        &self.tree.at(i).entry
    }

    /// The number of pending commands.
    pub fn count(&self) -> u32
        ensures count { result ≡ length self.now }
        ensures most { result ≤ most_pending }
    {
        self.tree.count()
    }

    /// The bytes of their payloads, at most 2^64 - 1.
    pub fn size(&self) -> u64
        ensures { result ≡ min (payload_bytes self.now) (2 ^ 64 - 1) }
    {
        self.tree.size()
    }

    /// The number of queued commands.
    pub fn queued(&self) -> u32
        ensures { result ≡ queued_number self.now }
    {
        self.tree.queued()
    }
}
