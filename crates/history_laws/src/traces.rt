//! Laws on the traces of histories and on their nodes.
ghost use Rattle.history_laws.specs.LifeLaws.{LivesFollowTheLastPurge};
ghost use Rattle.history_laws.specs.TraceLaws.{TracesHaveDistinctReceipts, TracesHaveDistinctNames, NodesAreStrictlySorted, NodesHaveALife};

/// In a trace all receipts are distinct, and all facts have distinct names.
pub fn a_trace_has_distinct_receipts_and_names()
    ensures receipts { TracesHaveDistinctReceipts }
    ensures names { TracesHaveDistinctNames }
{}

/// The nodes are those whose life has a command, strictly sorted by their bytes.
pub fn nodes_are_those_with_a_life()
    ensures sorted { NodesAreStrictlySorted }
    ensures which { NodesHaveALife }
{}

/// A node's life is its commands since the last purge that removed it, or all of them if no purge did.
pub fn a_life_follows_the_last_purge()
    ensures { LivesFollowTheLastPurge }
{}
