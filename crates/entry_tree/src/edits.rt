//! Changes an entry, or takes it out.
ghost use Rattle.std.specs.Prelude.{◌≡◌, [], ◌∷◌, IfSome};
ghost use Rattle.entry_tree.specs.Waits.{edited, found, MayChange, changed_by};

use crate::joins::joined;
use crate::sides::{parts, take_left, take_right, with_change, with_left, with_right};
use crate::tree::EntryTree;
use crate::waiting::{Change, Waiting};
use std::mem;

impl EntryTree {
    /// Changes the entry of the receipt, if there is one.
    pub fn change(&mut self, receipt: u64, change: Change)
        requires { IfSome (found receipt self.old) (MayChange change) }
        ensures { self.new ≡ edited receipt (λ w. changed_by change w ∷ []) self.old }
    {
        let tree = mem::replace(self, EntryTree::new());
        *self = changed(tree, receipt, change);
    }

    /// Takes the entry of the receipt out, if there is one.
    pub fn take(&mut self, receipt: u64) -> Option<Waiting>
        ensures taken { self.new ≡ edited receipt (λ w. []) self.old }
        ensures entry { result ≡ found receipt self.old }
    {
        let tree = mem::replace(self, EntryTree::new());
        let (left, taken) = without(tree, receipt);
        *self = left;
        taken
    }
}

fn changed(tree: EntryTree, receipt: u64, change: Change) -> EntryTree
    requires { IfSome (found receipt tree) (MayChange change) }
    ensures { result ≡ edited receipt (λ w. changed_by change w ∷ []) tree }
{
    let Some(fork) = tree.opened() else {
        return EntryTree::new();
    };
    let here = fork.waiting.entry.receipt;
    if receipt < here {
        let (fork, left) = take_left(fork);
        let left = changed(left, receipt, change);
        return with_left(fork, left);
    }
    if here < receipt {
        let (fork, right) = take_right(fork);
        let right = changed(right, receipt, change);
        return with_right(fork, right);
    }
    with_change(fork, change)
}

fn without(tree: EntryTree, receipt: u64) -> (EntryTree, Option<Waiting>)
    ensures left { result.0 ≡ edited receipt (λ w. []) tree }
    ensures taken { result.1 ≡ found receipt tree }
{
    let Some(fork) = tree.opened() else {
        return (EntryTree::new(), None);
    };
    let here = fork.waiting.entry.receipt;
    if receipt < here {
        let (fork, left) = take_left(fork);
        let (left, taken) = without(left, receipt);
        return (with_left(fork, left), taken);
    }
    if here < receipt {
        let (fork, right) = take_right(fork);
        let (right, taken) = without(right, receipt);
        return (with_right(fork, right), taken);
    }
    let (left, waiting, right) = parts(fork);
    (joined(left, right), Some(waiting))
}
