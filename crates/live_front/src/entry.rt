//! The entries of the list that a shared front stands for, and what a call of `take` answers.

/// An entry of the list that a shared front stands for. Only contracts keep entries.
#[derive(Drop)]
pub enum Passing<F, L> {
    /// The front as it came under the lock, and how many links it hands out at most. It is the first entry.
    Opened(F, u32),
    /// This link was handed out.
    Out(L),
    /// This link was given back.
    Back(L),
    /// The front said that no link is left.
    Ended,
    /// The front failed.
    Failed,
}

/// What a thread gets that asks for a link.
#[derive(Drop)]
pub enum Taken<L> {
    /// A link.
    Link(L),
    /// None: the front was asked, and said that no link is left.
    Ended,
    /// None: the front was asked, and failed.
    Failed,
    /// None: the front wasn't asked. The limit was reached, or the front has told its end before.
    Over,
}

/// Why a front isn't asked for a link any more, beside the limit.
#[derive(Clone, Copy, PartialEq, Eq, Debug)]
pub enum End {
    /// It said that no link is left.
    Ended,
    /// It failed.
    Failed,
}
