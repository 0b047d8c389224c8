//! Turns the answers of a pair into answers of a keeper, and counts their faults.
ghost use Rattle.std.specs.Prelude.{◌≡◌, ◌+◌, ◌≤◌};
ghost use Rattle.port_memory.specs.fleet_ports.Counts.{Counts, RoseBy};
ghost use Rattle.fleet_keeper.specs.Answers.{of_append, of_checkpoint, faults_in};
ghost use Rattle.fleet_keeper.specs.Kept.{IsFaulty};

use crate::kept::Kept;
use log_pair::Checked;
use log_pair::record_log::Appended;

/// Counts the faults of an answer: one for a failed call, and two if its repair failed too.
fn count(faults: &mut u64, answer: Kept)
    ensures cause { Counts faults.old faults.new (IsFaulty answer) }
    ensures twice { answer ≡ Kept.Down → RoseBy 2 faults.old faults.new }
    ensures most { faults.new ≤ faults.old + faults_in answer }
{
    match answer {
        Kept::Failed => *faults = faults.saturating_add(1),
        Kept::Down => *faults = faults.saturating_add(2),
        Kept::Ok => {}
        Kept::Memory => {}
        Kept::Spent => {}
    }
}

/// The answer of an append.
pub(crate) fn appended(faults: &mut u64, answer: Appended) -> Kept
    ensures answer { result ≡ of_append answer }
    ensures cause { Counts faults.old faults.new (IsFaulty result) }
    ensures twice { result ≡ Kept.Down → RoseBy 2 faults.old faults.new }
    ensures most { faults.new ≤ faults.old + faults_in result }
{
    let kept = match answer {
        Appended::Ok => Kept::Ok,
        Appended::Failed => Kept::Failed,
        Appended::Down => Kept::Down,
        Appended::Memory => Kept::Memory,
        Appended::TooLong => Kept::Spent,
    };
    count(faults, kept);
    kept
}

/// The answer of a checkpoint.
pub(crate) fn checked(faults: &mut u64, answer: Checked) -> Kept
    ensures answer { result ≡ of_checkpoint answer }
    ensures cause { Counts faults.old faults.new (IsFaulty result) }
    ensures twice { result ≡ Kept.Down → RoseBy 2 faults.old faults.new }
    ensures most { faults.new ≤ faults.old + faults_in result }
{
    let kept = match answer {
        Checked::Ok => Kept::Ok,
        Checked::Failed => Kept::Failed,
        Checked::Down => Kept::Down,
        Checked::Spent => Kept::Spent,
        Checked::TooLong => Kept::Spent,
    };
    count(faults, kept);
    kept
}
