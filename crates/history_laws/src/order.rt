//! Laws on the order of events.
ghost use Rattle.history_laws.specs.OrderLaws.{TheOrderBetweenPurgesSaysNothing, PermutationsReorder};

/// Two histories with distinct receipts that differ only in the order of events between purges lead to the same state. They have
/// the same newest commands, the same deactivated, expired and inactive nodes, the same rows of facts and the same reports.
pub fn the_order_between_purges_says_nothing()
    ensures { TheOrderBetweenPurgesSaysNothing }
{}

/// Permuting adjacent events, none of which is a purge, is such a reordering.
pub fn permutations_reorder()
    ensures { PermutationsReorder }
{}
