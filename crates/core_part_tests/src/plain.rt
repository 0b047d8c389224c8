//! What the definitions say of pending commands, as a plain and slow program.

/// A pending command: its group, by the numbers of a node and a kind, and the producer's timestamp.
#[derive(Clone, Copy)]
pub(crate) struct Waiting {
    pub receipt: u64,
    pub group: Option<(usize, usize)>,
    pub stamp: i64,
    pub attempts: u32,
    pub claimed: bool,
    pub size: u64,
}

// Whether the second is of the first one's group and keeps it from being claimed.
fn holds_back(waiting: &Waiting, other: &Waiting) -> bool {
    let above = other.stamp > waiting.stamp
        || other.stamp == waiting.stamp && other.receipt > waiting.receipt;
    waiting.group == other.group && (other.claimed || above)
}

fn is_candidate(all: &[Waiting], waiting: &Waiting) -> bool {
    if waiting.claimed || waiting.group.is_none() {
        return !waiting.claimed;
    }
    for other in all {
        if holds_back(waiting, other) {
            return false;
        }
    }
    true
}

/// The least receipt of a command that may be claimed, how many aren't claimed, and the bytes of the payloads.
pub(crate) fn told_of(all: &[Waiting]) -> (Option<u64>, u32, u64) {
    let mut least = u64::MAX;
    let mut queued: u32 = 0;
    let mut size: u64 = 0;
    for waiting in all {
        if is_candidate(all, waiting) {
            least = least.min(waiting.receipt);
        }
        queued = queued.saturating_add(u32::from(!waiting.claimed));
        size = size.saturating_add(waiting.size);
    }
    ((least != u64::MAX).then_some(least), queued, size)
}
