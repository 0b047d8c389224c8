//! Takes a side out of a fork, or puts one in.
ghost use Rattle.std.specs.Prelude.{◌≡◌, ◌≤◌, ◌∷◌, ◌++◌, length};
ghost use Rattle.entry_tree.specs.Waits.{Rises, MayChange, changed_by};
ghost use Rattle.core_machine.specs.fleet_rows.Limits.{most_pending};

use crate::tree::{EntryTree, Fork, closed};
use crate::waiting::{Change, Waiting};
use std::mem;

pub(crate) fn take_left(mut fork: Box<Fork>) -> (Box<Fork>, EntryTree)
    ensures left { result.1 ≡ fork.value.left }
    ensures waiting { result.0.value.waiting ≡ fork.value.waiting }
    ensures right { result.0.value.right ≡ fork.value.right }
{
    let left = mem::replace(&mut fork.left, EntryTree::new());
    (fork, left)
}

pub(crate) fn take_right(mut fork: Box<Fork>) -> (Box<Fork>, EntryTree)
    ensures left { result.0.value.left ≡ fork.value.left }
    ensures waiting { result.0.value.waiting ≡ fork.value.waiting }
    ensures right { result.1 ≡ fork.value.right }
{
    let right = mem::replace(&mut fork.right, EntryTree::new());
    (fork, right)
}

pub(crate) fn parts(fork: Box<Fork>) -> (EntryTree, Waiting, EntryTree)
    ensures left { result.0 ≡ fork.value.left }
    ensures waiting { result.1 ≡ fork.value.waiting }
    ensures right { result.2 ≡ fork.value.right }
{
    let Fork {
        left,
        waiting,
        right,
        ..
    } = Box::into_inner(fork);
    (left, waiting, right)
}

pub(crate) fn with_left(mut fork: Box<Fork>, left: EntryTree) -> EntryTree
    requires rises { Rises (left ++ fork.value.waiting ∷ fork.value.right) }
    requires few { length (left ++ fork.value.waiting ∷ fork.value.right) ≤ most_pending }
    ensures { result ≡ left ++ fork.value.waiting ∷ fork.value.right }
{
    fork.left = left;
    closed(fork)
}

pub(crate) fn with_right(mut fork: Box<Fork>, right: EntryTree) -> EntryTree
    requires rises { Rises (fork.value.left ++ fork.value.waiting ∷ right) }
    requires few { length (fork.value.left ++ fork.value.waiting ∷ right) ≤ most_pending }
    ensures { result ≡ fork.value.left ++ fork.value.waiting ∷ right }
{
    fork.right = right;
    closed(fork)
}

pub(crate) fn with_change(mut fork: Box<Fork>, change: Change) -> EntryTree
    requires may { MayChange change fork.value.waiting }
    requires rises { Rises (fork.value.left ++ changed_by change fork.value.waiting ∷ fork.value.right) }
    requires few { length (fork.value.left ++ changed_by change fork.value.waiting ∷ fork.value.right) ≤ most_pending }
    ensures { result ≡ fork.value.left ++ changed_by change fork.value.waiting ∷ fork.value.right }
{
    fork.waiting.change(change);
    closed(fork)
}
