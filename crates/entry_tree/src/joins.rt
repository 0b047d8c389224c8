//! Joins trees.
ghost use Rattle.std.specs.Prelude.{◌≡◌, ◌≤◌, ◌<◌, [], ◌∷◌, ◌++◌, length};
ghost use Rattle.entry_tree.specs.Waits.{Rises};
ghost use Rattle.entry_tree.specs.Tree.{of_fork};
ghost use Rattle.core_machine.specs.fleet_rows.Limits.{most_pending};

use crate::tree::{EntryTree, Fork, closed, kept};
use std::mem;

/// The weight of a fork; the greater weight stands above. It hashes the receipt, so the tree is low on average.
fn weight(fork: &Fork) -> u64 {
    let mixed = fork
        .waiting
        .entry
        .receipt
        .wrapping_mul(0x9e37_79b9_7f4a_7c15);
    (mixed ^ (mixed >> 29)).wrapping_mul(0xbf58_476d_1ce4_e5b9)
}

/// Appends an entry whose receipt is above all others.
pub(crate) fn appended(tree: EntryTree, mut last: Box<Fork>) -> EntryTree
    requires left { last.value.left ≡ [] }
    requires right { last.value.right ≡ [] }
    requires rises { Rises (tree ++ last.value.waiting ∷ []) }
    requires few { length tree < most_pending }
    ensures { result ≡ tree ++ last.value.waiting ∷ [] }
{
    let Some(mut top) = tree.opened() else {
        return closed(last);
    };
    if weight(&*top) >= weight(&*last) {
        let right = mem::replace(&mut top.right, EntryTree::new());
        top.right = appended(right, last);
        closed(top)
    } else {
        last.left = kept(top);
        closed(last)
    }
}

/// The entries of `low`, followed by those of `high`.
pub(crate) fn joined(low: EntryTree, high: EntryTree) -> EntryTree
    requires rises { Rises (low ++ high) }
    requires few { length (low ++ high) ≤ most_pending }
    ensures { result ≡ low ++ high }
{
    let Some(mut left) = low.opened() else {
        return high;
    };
    let Some(mut right) = high.opened() else {
        return kept(left);
    };
    if weight(&*left) >= weight(&*right) {
        let rest = mem::replace(&mut left.right, EntryTree::new());
        left.right = joined(rest, kept(right));
        closed(left)
    } else {
        let rest = mem::replace(&mut right.left, EntryTree::new());
        right.left = joined(kept(left), rest);
        closed(right)
    }
}
