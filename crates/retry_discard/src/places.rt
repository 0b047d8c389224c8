//! Finds receipts in the sorted list.
ghost use Rattle.std.specs.Prelude.{◌≡◌, ◌≤◌, ◌<◌, ◌-◌, ◌+◌, length, option_map};
ghost use Rattle.std.specs.Vec.{vec_len, vec_capacity};
ghost use Rattle.core_spec.specs.Discards.{put_dead};
ghost use Rattle.retry_discard.specs.Kept.{dead_at, AreInOrder, place_behind, IsFirstFrom};

use core_spec::Dead;

/// The first index whose receipt is above this one, or the length.
#[tactic(auto, using(crate::proofs::DeadPlaces::in_front, crate::proofs::DeadPlaces::behind, crate::proofs::DeadPlaces::place_within))]
fn place_behind(list: &[Dead], receipt: u64) -> usize
    requires { AreInOrder list.now }
    ensures place { result ≡ place_behind receipt list.now }
    ensures within { result ≤ length list.now }
{
    let mut low = 0;
    let mut high = list.len();
    'halves: while low < high {
        let middle = low + (high - low) / 2;
        if list[middle].receipt <= receipt {
            low = middle + 1;
        } else {
            high = middle;
        }
    }
    low
}

// The first index whose receipt is at least this one, or the length.
#[tactic(auto, using(crate::proofs::DeadPlaces::first_behind, crate::proofs::DeadPlaces::first_from_zero))]
fn place_of(list: &[Dead], receipt: u64) -> usize
    requires { AreInOrder list.now }
    ensures first { IsFirstFrom receipt list.now result }
    ensures within { result ≤ length list.now }
{
    if receipt == 0 {
        return 0;
    }
    place_behind(list, receipt - 1)
}

/// The command of the receipt, if it was discarded.
pub(crate) fn dead_in(list: &[Dead], receipt: u64) -> Option<&Dead>
    requires { AreInOrder list.now }
    ensures { option_map (λ d. d.now) result ≡ dead_at receipt list.now }
{
    let at = place_of(list, receipt);
    if at == list.len() {
        return None;
    }
    let dead = &list[at];
    if dead.receipt == receipt {
        return Some(dead);
    }
    None
}

/// Inserts a command by receipt.
pub(crate) fn put_in(list: &mut Vec<Dead>, dead: Dead)
    requires order { AreInOrder list.old.items }
    requires room { vec_len list.old < vec_capacity list.old }
    ensures put { list.new.items ≡ put_dead dead list.old.items }
    ensures order { AreInOrder list.new.items }
    ensures room { vec_capacity list.old - vec_len list.old ≤ vec_capacity list.new - vec_len list.new + 1 }
{
    let at = place_behind(list.as_slice(), dead.receipt);
    let _ = list.insert(at, dead);
}
