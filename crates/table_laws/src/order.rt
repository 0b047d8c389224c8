//! Laws on the order of rows and of events.
ghost use Rattle.table_laws.specs.SortLaws.{RowsAreStrictlySorted};
ghost use Rattle.table_laws.specs.OrderLaws.{TheOrderBetweenPurgesLeavesTheRows, TheOrderBetweenPurgesLeavesTheTable, ReorderedTracesAreTraces};

/// The rows of each entity are strictly sorted by their key, so no two have the same key.
pub fn rows_are_strictly_sorted()
    ensures { RowsAreStrictlySorted }
{}

/// Traces that differ only in the order of events between purges have the same rows of each entity, in the same order. They have
/// the same table, so further events have the same effect.
pub fn the_order_between_purges_leaves_the_rows()
    ensures rows { TheOrderBetweenPurgesLeavesTheRows }
    ensures table { TheOrderBetweenPurgesLeavesTheTable }
    ensures trace { ReorderedTracesAreTraces }
{}
