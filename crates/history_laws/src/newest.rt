//! Laws on ranks, and on the newest command of a kind of a node.
ghost use Rattle.history_laws.specs.NewestLaws.{RanksAreByStampAndReceipt, RanksAreInOrder, RanksGoOn, TheNewestIsNotOutranked};
ghost use Rattle.history_laws.specs.NewestLaws.{NoneIsNewestWhereNoneIsOfTheKind};

/// Ranks are compared by producer timestamp, then by receipt. The order is strict and transitive.
pub fn ranks_are_by_stamp_and_receipt()
    ensures by { RanksAreByStampAndReceipt }
    ensures order { RanksAreInOrder }
    ensures on { RanksGoOn }
{}

/// The newest command of a kind has that kind, and no command of that kind has a greater rank.
pub fn the_newest_is_not_outranked()
    ensures { TheNewestIsNotOutranked }
{}

/// A newest command of a kind exists exactly if some command has that kind.
pub fn none_is_newest_where_none_is_of_the_kind()
    ensures { NoneIsNewestWhereNoneIsOfTheKind }
{}
