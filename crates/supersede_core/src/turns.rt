//! The groups, indexed by their texts.
ghost use Rattle.std.specs.Prelude.{◌≡◌, ◌<◌, ◌≤◌, ◌-◌, ◌^◌, ℕ, ℤ, List, true, false, is_some, IsTrue, IfOk, OnErr};
ghost use Rattle.supersede_core.specs.Turns.{has, claims, members_at};
ghost use Rattle.supersede_core.specs.Handover.{AreSame, EntersGroup, ClaimsGroup, ReleasesGroup, LeavesGroup};

use crate::handover::Handover;
use crate::members::Members;
use std::alloc::{AllocError, Global};
use std::collections::BTreeMap;

/// For each group, the ranks of its commands and the number of claimed ones.
#[derive(Drop)]
pub(crate) struct Turns {
    groups: BTreeMap<String, Members>,
}

impl Turns {
    /// No group has a command.
    pub(crate) fn new(alloc: Global) -> Turns
        ensures ranks { (k : List ℕ) → (q : ℤ × ℕ) → has (members_at result k) q ≡ false }
        ensures claims { (k : List ℕ) → claims (members_at result k) ≡ 0 }
    {
        Turns {
            groups: BTreeMap::new(alloc),
        }
    }

    /// Adds a command to the group.
    pub(crate) fn enter(
        &mut self,
        alloc: Global,
        key: &str,
        stamp: i128,
        receipt: u64,
    ) -> Result<Handover, AllocError>
        ensures ok { IfOk result (EntersGroup (key.now, stamp) receipt self.old self.new) }
        ensures err { OnErr result (AreSame self.old self.new) }
    {
        if self.groups.contains_key(key) {
            self.enter_more(key, stamp, receipt)
        } else {
            self.enter_first(alloc, key, stamp, receipt)
        }
    }

    fn enter_more(&mut self, key: &str, stamp: i128, receipt: u64) -> Result<Handover, AllocError>
        requires { is_some (members_at self.old key.now) ≡ true }
        ensures ok { IfOk result (EntersGroup (key.now, stamp) receipt self.old self.new) }
        ensures err { OnErr result (AreSame self.old self.new) }
    {
        match self.groups.get_mut(key) {
            Some(members) => members.enter(stamp, receipt),
            None => unreachable!(),
        }
    }

    fn enter_first(
        &mut self,
        alloc: Global,
        key: &str,
        stamp: i128,
        receipt: u64,
    ) -> Result<Handover, AllocError>
        requires { is_some (members_at self.old key.now) ≡ false }
        ensures ok { IfOk result (EntersGroup (key.now, stamp) receipt self.old self.new) }
        ensures err { OnErr result (AreSame self.old self.new) }
    {
        let mut members = Members::new(alloc);
        let handover = members.enter(stamp, receipt)?;
        let name = String::from_str(alloc, key)?;
        self.groups.insert(name, members)?;
        Ok(handover)
    }

    /// Counts one more claim in the group.
    pub(crate) fn claim(&mut self, key: &str) -> Handover
        requires there { is_some (members_at self.old key.now) ≡ true }
        requires few { claims (members_at self.old key.now) < 2 ^ 32 - 1 }
        ensures { ClaimsGroup key.now self.old self.new result }
    {
        match self.groups.get_mut(key) {
            Some(members) => members.claim(),
            None => unreachable!(),
        }
    }

    /// Counts one claim less in the group.
    pub(crate) fn release(&mut self, key: &str) -> Handover
        requires { 1 ≤ claims (members_at self.old key.now) }
        ensures { ReleasesGroup key.now self.old self.new result }
    {
        match self.groups.get_mut(key) {
            Some(members) => members.release(),
            None => unreachable!(),
        }
    }

    /// Takes a command out of the group, claimed or not.
    pub(crate) fn leave(&mut self, key: &str, stamp: i128, receipt: u64, claimed: bool) -> Handover
        requires there { is_some (members_at self.old key.now) ≡ true }
        requires claimed { claimed ≡ true → 1 ≤ claims (members_at self.old key.now) }
        ensures { LeavesGroup (key.now, stamp) receipt claimed self.old self.new result }
    {
        let (handover, gone) = self.leave_group(key, stamp, receipt, claimed);
        if gone {
            let _ = self.groups.remove(key);
        }
        handover
    }

    // The handover, and whether the group has no command left.
    fn leave_group(
        &mut self,
        key: &str,
        stamp: i128,
        receipt: u64,
        claimed: bool,
    ) -> (Handover, bool)
        requires there { is_some (members_at self.old key.now) ≡ true }
        requires claimed { claimed ≡ true → 1 ≤ claims (members_at self.old key.now) }
        ensures left { LeavesGroup (key.now, stamp) receipt claimed self.old self.new result.0 }
        ensures none { IsTrue result.1 → (q : ℤ × ℕ) → has (members_at self.new key.now) q ≡ false }
        ensures unclaimed { IsTrue result.1 → claims (members_at self.new key.now) ≡ 0 }
    {
        match self.groups.get_mut(key) {
            Some(members) => {
                let handover = members.leave(stamp, receipt, claimed);
                (handover, members.is_empty())
            }
            None => unreachable!(),
        }
    }
}
