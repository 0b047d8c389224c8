//! The search tree by receipt. Each fork keeps the sums of its entries: how many, how many candidates, how many queued, and the
//! bytes of their payloads.
ghost use Rattle.std.specs.Prelude.{◌≡◌, ◌≤◌, ◌<◌, ◌+◌, ◌-◌, ◌^◌, [], length, min, MatchOption, ⊤, if◌then◌else◌};
ghost use Rattle.entry_tree.specs.Waits.{Rises, candidate_number, unclaimed_number, bytes_in};
ghost use Rattle.entry_tree.specs.Tree.{of_fork, IsFork, sums_of};
ghost use Rattle.core_machine.specs.fleet_rows.Limits.{most_pending};

use crate::waiting::Waiting;
use std::marker::Model;

/// Entries sorted by receipt. Contracts see the list.
#[cycle(tree)]
#[derive(Drop)]
pub struct EntryTree {
    root: Branch,
}

#[cycle(tree)]
#[derive(Drop)]
enum Branch {
    End,
    Top(Box<Fork>),
}

#[cycle(tree)]
#[derive(Drop)]
pub(crate) struct Fork {
    pub left: EntryTree,
    pub waiting: Waiting,
    pub sums: Sums,
    pub right: EntryTree,
}

/// The sums over some entries.
#[derive(Clone, Copy)]
pub(crate) struct Sums {
    pub count: u32,
    pub candidates: u32,
    /// The number of entries that aren't claimed.
    pub queued: u32,
    /// The bytes of the payloads, at most 2^64 - 1.
    pub size: u64,
}

impl Model for EntryTree {
    ghost use Rattle.std.specs.Prelude.{List, length};
    ghost use Rattle.entry_tree.specs.declared.waiting.Waiting.{Waiting};

    ghost Value = { List Waiting };

    ghost use Rattle.entry_tree.specs.Tree.{all, IsTree};

    ghost view = { λ a. all a.root };

    ghost invariant = { λ a. IsTree a.root };

    ghost size = { length };

    ghost use Rattle.std.proofs.Common.{arith, length-append};

    ghost size_decreases = { λ a h. Prim.grind (arith, length-append) };
}

impl EntryTree {
    /// An empty tree.
    pub fn new() -> EntryTree
        ensures { result ≡ [] }
    {
        EntryTree { root: Branch::End }
    }

    pub(crate) fn sums(&self) -> Sums
        ensures sums { result ≡ sums_of self.now }
        ensures few { result.count ≤ most_pending }
        ensures candidates { result.candidates ≤ result.count }
        ensures queued { result.queued ≤ result.count }
    {
        let Some(fork) = self.top() else {
            return Sums {
                count: 0,
                candidates: 0,
                queued: 0,
                size: 0,
            };
        };
        fork.sums
    }

    /// The number of entries.
    pub fn count(&self) -> u32
        ensures count { result ≡ length self.now }
        ensures few { result ≤ most_pending }
        ensures rises { Rises self.now }
    {
        let Some(fork) = self.top() else {
            return 0;
        };
        fork.sums.count
    }

    /// The number of candidates.
    pub fn candidates(&self) -> u32
        ensures { result ≡ candidate_number self.now }
    {
        self.sums().candidates
    }

    /// The number of entries that aren't claimed.
    pub fn queued(&self) -> u32
        ensures { result ≡ unclaimed_number self.now }
    {
        self.sums().queued
    }

    /// The bytes of the payloads, at most 2^64 - 1.
    pub fn size(&self) -> u64
        ensures { result ≡ min (bytes_in self.now) (2 ^ 64 - 1) }
    {
        self.sums().size
    }

    /// The fork at the top, if there is one.
    pub(crate) fn top(&self) -> Option<&Fork>
        ensures fork { MatchOption result (self.now ≡ []) (λ f. (self.now ≡ of_fork f.now) × IsFork f.now) }
        ensures shorter { MatchOption result ⊤ (λ f. (length f.now.left < length self.now) × (length f.now.right < length self.now)) }
    {
        match &self.root {
            Branch::End => None,
            Branch::Top(fork) => Some(&**fork),
        }
    }

    /// The fork at the top, taken out of the tree.
    pub(crate) fn opened(self) -> Option<Box<Fork>>
        ensures fork { MatchOption result (self ≡ []) (λ f. (self ≡ of_fork f.value) × IsFork f.value) }
        ensures shorter { MatchOption result ⊤ (λ f. (length f.value.left < length self) × (length f.value.right < length self)) }
    {
        match self.root {
            Branch::End => None,
            Branch::Top(fork) => Some(fork),
        }
    }
}

/// The tree of a fork whose sums are right.
pub(crate) fn kept(fork: Box<Fork>) -> EntryTree
    requires { IsFork fork.value }
    ensures { result ≡ of_fork fork.value }
{
    EntryTree {
        root: Branch::Top(fork),
    }
}

fn one_if(holds: bool) -> u32
    ensures { result ≡ (if holds then 1 else 0) }
{
    if holds { 1 } else { 0 }
}

fn one_unless(holds: bool) -> u32
    ensures { result ≡ (if holds then 0 else 1) }
{
    if holds { 0 } else { 1 }
}

// Adds the sums of two sides and of the entry between them.
fn added(left: Sums, one: Sums, right: Sums) -> Sums
    requires left { left.candidates ≤ left.count × left.queued ≤ left.count }
    requires one { one.candidates ≤ 1 × one.queued ≤ 1 }
    requires right { right.candidates ≤ right.count × right.queued ≤ right.count }
    requires few { left.count + one.count + right.count ≤ most_pending }
    requires own { one.count ≡ 1 }
    ensures count { result.count ≡ left.count + 1 + right.count }
    ensures candidates { result.candidates ≡ left.candidates + one.candidates + right.candidates }
    ensures queued { result.queued ≡ left.queued + one.queued + right.queued }
    ensures size { result.size ≡ min (min (left.size + one.size) (2 ^ 64 - 1) + right.size) (2 ^ 64 - 1) }
{
    Sums {
        count: left.count + 1 + right.count,
        candidates: left.candidates + one.candidates + right.candidates,
        queued: left.queued + one.queued + right.queued,
        size: left
            .size
            .saturating_add(one.size)
            .saturating_add(right.size),
    }
}

fn own_sums(waiting: &Waiting) -> Sums
    ensures count { result.count ≡ 1 }
    ensures candidates { result.candidates ≡ (if waiting.now.candidate then 1 else 0) }
    ensures queued { result.queued ≡ (if waiting.now.entry.claimed then 0 else 1) }
    ensures size { result.size ≡ length waiting.now.entry.command.payload }
    ensures few { result.candidates ≤ 1 × result.queued ≤ 1 }
{
    let payload = waiting.entry.command.command().payload.as_slice();
    Sums {
        count: 1,
        candidates: one_if(waiting.candidate),
        queued: one_unless(waiting.entry.claimed),
        size: payload.len() as u64,
    }
}

// The sums over all entries of the fork.
fn sums_of(fork: &Fork) -> Sums
    requires { length (of_fork fork.now) ≤ most_pending }
    ensures { result ≡ sums_of (of_fork fork.now) }
{
    added(fork.left.sums(), own_sums(&fork.waiting), fork.right.sums())
}

/// The tree of a fork, after its sums are computed.
pub(crate) fn closed(mut fork: Box<Fork>) -> EntryTree
    requires rises { Rises (of_fork fork.value) }
    requires few { length (of_fork fork.value) ≤ most_pending }
    ensures { result ≡ of_fork fork.value }
{
    fork.sums = sums_of(&*fork);
    kept(fork)
}
