//! Finds the greatest receipt of an opening.
ghost use Rattle.std.specs.Prelude.{◌≡◌};
ghost use Rattle.core_opening.specs.Opened.{IsGreatest, greatest_of};

use supersede_core::Pending;

/// The greater of the last receipt and those of the pending commands.
pub(crate) fn greatest(pending: &Pending, last: u64) -> u64
    ensures value { result ≡ greatest_of last pending.now }
    ensures greatest { IsGreatest last pending.now result }
{
    let mut most = last;
    'passing: for at in 0..pending.count() as usize {
        most = most.max(pending.at(at).receipt);
    }
    most
}
