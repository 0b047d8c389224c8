//! How the list of discarded commands follows the events.
ghost use Rattle.core_laws.specs.Discards.{DiscardsArePut, OthersDiscardNothing};

/// A discard inserts its command by receipt. No other event changes the list of discarded commands.
pub fn discards_are_followed()
    ensures put { DiscardsArePut }
    ensures others { OthersDiscardNothing }
{}
