//! The pending commands of one group.
ghost use Rattle.std.specs.Prelude.{◌≡◌, ◌<◌, ◌≤◌, ◌-◌, ◌^◌, ℕ, ℤ, suc, cond, true, false, Some, IsTrue, IfOk, OnOk, OnErr, if◌then◌else◌};
ghost use Rattle.std.specs.Ordering.{is_eq};
ghost use Rattle.supersede_core.specs.Turns.{rank_order, has, claims, IsTurn, IsHandover};

use crate::handover::Handover;
use std::alloc::{AllocError, Global};
use std::collections::BTreeSet;

/// The ranks of all commands of the group, and the number of claimed ones.
#[derive(Drop)]
pub(crate) struct Members {
    pub claimed: u32,
    pub ranks: BTreeSet<(i128, u64)>,
}

impl Members {
    pub(crate) fn new(alloc: Global) -> Members
        ensures ranks { (q : ℤ × ℕ) → has (Some result) q ≡ false }
        ensures claims { claims (Some result) ≡ 0 }
    {
        Members {
            claimed: 0,
            ranks: BTreeSet::new(alloc),
        }
    }

    /// The receipt of the greatest rank. None if a command of the group is claimed, or none is pending.
    fn first(&self) -> Option<u64>
        ensures { IsTurn (Some self.now) result }
    {
        if self.claimed > 0 {
            return None;
        }
        match self.ranks.last() {
            Some(rank) => Some(rank.1),
            None => None,
        }
    }

    /// Adds a command.
    pub(crate) fn enter(&mut self, stamp: i128, receipt: u64) -> Result<Handover, AllocError>
        ensures ok { OnOk result ((q : ℤ × ℕ) → has (Some self.new) q ≡ cond (is_eq (rank_order (stamp, receipt) q)) true (has (Some self.old) q)) }
        ensures err { OnErr result ((q : ℤ × ℕ) → has (Some self.new) q ≡ has (Some self.old) q) }
        ensures claims { claims (Some self.new) ≡ claims (Some self.old) }
        ensures turn { IfOk result (IsHandover (Some self.old) (Some self.new)) }
    {
        let before = self.first();
        self.ranks.insert((stamp, receipt))?;
        let after = self.first();
        Ok(Handover { before, after })
    }

    /// Counts one more claim.
    pub(crate) fn claim(&mut self) -> Handover
        requires { claims (Some self.old) < 2 ^ 32 - 1 }
        ensures ranks { (q : ℤ × ℕ) → has (Some self.new) q ≡ has (Some self.old) q }
        ensures claims { claims (Some self.new) ≡ suc (claims (Some self.old)) }
        ensures turn { IsHandover (Some self.old) (Some self.new) result }
    {
        let before = self.first();
        self.claimed += 1;
        let after = self.first();
        Handover { before, after }
    }

    /// Counts one claim less.
    pub(crate) fn release(&mut self) -> Handover
        requires { 1 ≤ claims (Some self.old) }
        ensures ranks { (q : ℤ × ℕ) → has (Some self.new) q ≡ has (Some self.old) q }
        ensures claims { claims (Some self.new) ≡ claims (Some self.old) - 1 }
        ensures turn { IsHandover (Some self.old) (Some self.new) result }
    {
        let before = self.first();
        self.claimed -= 1;
        let after = self.first();
        Handover { before, after }
    }

    /// Takes a command out, claimed or not.
    pub(crate) fn leave(&mut self, stamp: i128, receipt: u64, claimed: bool) -> Handover
        requires { claimed ≡ true → 1 ≤ claims (Some self.old) }
        ensures ranks { (q : ℤ × ℕ) → has (Some self.new) q ≡ cond (is_eq (rank_order (stamp, receipt) q)) false (has (Some self.old) q) }
        ensures claims { claims (Some self.new) ≡ (if claimed then claims (Some self.old) - 1 else claims (Some self.old)) }
        ensures turn { IsHandover (Some self.old) (Some self.new) result }
    {
        let before = self.first();
        self.ranks.remove(&(stamp, receipt));
        self.release_if(claimed);
        let after = self.first();
        Handover { before, after }
    }

    fn release_if(&mut self, claimed: bool)
        requires { claimed ≡ true → 1 ≤ claims (Some self.old) }
        ensures ranks { (q : ℤ × ℕ) → has (Some self.new) q ≡ has (Some self.old) q }
        ensures claims { claims (Some self.new) ≡ (if claimed then claims (Some self.old) - 1 else claims (Some self.old)) }
    {
        if claimed {
            self.claimed -= 1;
        }
    }

    /// Whether the group has neither pending nor claimed commands.
    pub(crate) fn is_empty(&self) -> bool
        ensures none { IsTrue result → (q : ℤ × ℕ) → has (Some self.now) q ≡ false }
        ensures unclaimed { IsTrue result → claims (Some self.now) ≡ 0 }
    {
        self.ranks.is_empty() && self.claimed == 0
    }
}
