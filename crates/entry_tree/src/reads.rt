//! Reads entries, from the top of the tree down.
ghost use Rattle.std.specs.Prelude.{◌≡◌, ◌<◌, length, slice_get, Some, option_map};
ghost use Rattle.entry_tree.specs.Waits.{found, first_marked};

use crate::tree::EntryTree;
use crate::waiting::Waiting;

impl EntryTree {
    /// The entry of the receipt, if there is one.
    pub fn get(&self, receipt: u64) -> Option<&Waiting>
        ensures { option_map (λ w. w.now) result ≡ found receipt self.now }
    {
        let Some(fork) = self.top() else {
            return None;
        };
        let here = fork.waiting.entry.receipt;
        if receipt < here {
            fork.left.get(receipt)
        } else if here < receipt {
            fork.right.get(receipt)
        } else {
            Some(&fork.waiting)
        }
    }

    /// The receipt of the first candidate, if there is one.
    pub fn first(&self) -> Option<u64>
        ensures { result ≡ first_marked self.now }
    {
        let Some(fork) = self.top() else {
            return None;
        };
        if fork.left.candidates() > 0 {
            fork.left.first()
        } else if fork.waiting.candidate {
            Some(fork.waiting.entry.receipt)
        } else {
            fork.right.first()
        }
    }

    /// The entry at this index.
    pub fn at(&self, i: usize) -> &Waiting
        requires { i < length self.now }
        ensures { slice_get self.now i ≡ Some result.now }
    {
        let Some(fork) = self.top() else {
            unreachable!()
        };
        let before = fork.left.count() as usize;
        if i < before {
            fork.left.at(i)
        } else if i == before {
            &fork.waiting
        } else {
            fork.right.at(i - before - 1)
        }
    }
}
