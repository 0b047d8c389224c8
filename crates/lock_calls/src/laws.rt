//! The laws, as contracts of functions that do nothing.
ghost use Rattle.std.specs.Prelude.{List};
ghost use Rattle.lock_calls.specs.Calls.{FreshPassKnows, CallIsKnown, JoinedPassKnows, EachEntryIsOfOneCall};

/// The calls that are made under a lock. Only contracts use it.
pub trait Calling {
    /// The type of the list's entries.
    type Entry;

    /// The type of the calls.
    type Call;

    /// The entries that a call appends.
    ghost adds: { Self.Call → List Self.Entry };

    /// What a call does at the list that it finds.
    ghost does: { Self.Call → List Self.Entry → Type 0 };
}

/// A pass knows its calls from its split on: it starts with none, a hold adds one, and a join adds those of the other pass.
pub fn passes_know_their_calls<X: Calling>()
    ensures fresh { FreshPassKnows X.adds X.does }
    ensures hold { CallIsKnown X.adds X.does }
    ensures join { JoinedPassKnows X.adds X.does }
{}

/// The calls of a pass that has all holds appended each entry since the opening, each exactly once.
pub fn all_calls_append_all<X: Calling>()
    ensures { EachEntryIsOfOneCall X.adds X.does }
{}
