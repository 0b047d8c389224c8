//! Defines what a sweep can answer.

/// The result of a sweep.
#[derive(Clone, Copy, PartialEq, Eq, Debug)]
pub enum Swept {
    /// The store has the sweep, and the tables are swept.
    Ok,
    /// The store counted a fault. The store's records and the tables are unchanged.
    StoreFault,
    /// The store went down. It may or may not have the sweep. The tables aren't swept.
    StoreDown,
    /// The store's log has no room for the record. Nothing changed.
    Spent,
    /// The core was down. Nothing changed.
    Down,
    /// There was no memory. Nothing changed.
    Memory,
}
