//! Laws on which reports of a node are kept.
ghost use Rattle.history_laws.specs.ReportLaws.{WithoutALimitTheFirstAreKept, WithoutALimitEachTextIsKept, OnlyTheFirstAreKept, TheLimitIsKept};
ghost use Rattle.history_laws.specs.ReportLaws.{WhatIsNotKeptIsOutranked};

/// Without a limit a report is kept exactly if it isn't too old and has the greatest rank of its canonical text. So one report of
/// each such text is kept.
pub fn without_a_limit_each_text_is_kept()
    ensures first { WithoutALimitTheFirstAreKept }
    ensures each { WithoutALimitEachTextIsKept }
{}

/// With a limit, only such reports are kept and at most `limit` of them. Each report that the limit drops has a lesser rank than
/// `limit` kept ones.
pub fn a_limit_keeps_the_greatest_ranks()
    ensures only { OnlyTheFirstAreKept }
    ensures most { TheLimitIsKept }
    ensures greatest { WhatIsNotKeptIsOutranked }
{}
