//! The edges of lifetimes: 7 days until a node expires, 14 until it is purged, 14 for a report. Of the nodes of the last two fleets
//! one of four is purged, one expired, and of one the older report is gone; the hash is what Python's hashlib gives for the canonical
//! text, which was written out by hand.
use crate::play::play;
use std::alloc::AllocError;

const FLEETS: &str = r#"fleet activity at the moment of a deactivation does not undo it
deactivate 1 {"certname":"a","producer_timestamp":"2024-05-01T10:00:00Z"}
facts 2 {"certname":"a","producer_timestamp":"2024-05-01T10:00:00Z","values":{"n":1}}
inactive a
rows nodes
| null null "a" 2024-05-01T10:00:00.000000000Z null null 2024-05-01T10:00:00.000000000Z null null null null null
facts 3 {"certname":"a","producer_timestamp":"2024-05-01T10:00:00.000000001Z","values":{"n":2}}
active a
rows nodes
| null null "a" null null null 2024-05-01T10:00:00.000000001Z null null null null null
fleet a node of deactivations alone is there
deactivate 1 {"certname":"a","producer_timestamp":"2024-05-01T10:00:00Z"}
expire 2024-05-22T10:00:00Z
rows nodes
| null null "a" 2024-05-01T10:00:00.000000000Z null null null null null null null null
fleet a node expires once its lifetime is over
facts 1 {"certname":"a","producer_timestamp":"2024-05-01T10:00:00Z","values":{"n":1}}
expire 2024-05-08T10:00:00Z
active a
expire 2024-05-08T10:00:00.000000001Z
inactive a
expire 2024-05-01T10:00:00Z
rows nodes
| null null "a" null 2024-05-08T10:00:00.000000000Z null 2024-05-01T10:00:00.000000000Z null null null null null
facts 2 {"certname":"a","producer_timestamp":"2024-05-01T10:00:00.000000001Z","values":{"n":1}}
active a
fleet a node that may not expire does not
facts 1 {"certname":"a","producer_timestamp":"2024-05-01T10:00:00Z","values":{"n":1}}
expiration 2 {"certname":"a","producer_timestamp":"2024-05-01T10:00:00Z","expire":{"facts":false}}
expire 2024-05-22T10:00:00Z
active a
expiration 3 {"certname":"a","producer_timestamp":"2024-05-01T10:00:00Z","expire":{"facts":true}}
inactive a
fleet a purge takes what was deactivated for longer than its lifetime
facts 1 {"certname":"a","producer_timestamp":"2024-05-01T10:00:00Z","values":{"n":1}}
catalog 2 {"certname":"a","producer_timestamp":"2024-05-01T10:00:00Z","version":"1","resources":[{"type":"File","title":"x"}],"edges":[{"source":{"type":"File","title":"x"},"target":{"type":"File","title":"y"},"relationship":"notifies"}]}
report 3 {"certname":"a","producer_timestamp":"2024-05-01T10:00:00Z"}
deactivate 4 {"certname":"a","producer_timestamp":"2024-05-01T10:00:00Z"}
purge 2024-05-15T10:00:00Z
count nodes 1
count factsets 1
count facts 1
count catalogs 1
count resources 1
count edges 1
count reports 1
purge 2024-05-15T10:00:00.000000001Z
count nodes 0
count factsets 0
count facts 0
count catalogs 0
count resources 0
count edges 0
count reports 0
fleet a purge takes what expired longer ago than its lifetime
facts 1 {"certname":"a","producer_timestamp":"2024-05-01T10:00:00Z","values":{"n":1}}
catalog 2 {"certname":"a","producer_timestamp":"2024-05-01T10:00:00Z","version":"1","resources":[{"type":"File","title":"x"}],"edges":[{"source":{"type":"File","title":"x"},"target":{"type":"File","title":"y"},"relationship":"notifies"}]}
report 3 {"certname":"a","producer_timestamp":"2024-05-01T10:00:00Z"}
facts 4 {"certname":"b","producer_timestamp":"2024-05-01T10:00:00.000000001Z","values":{"n":1}}
catalog 5 {"certname":"b","producer_timestamp":"2024-05-01T10:00:00.000000001Z","version":"1","resources":[{"type":"File","title":"x"}],"edges":[{"source":{"type":"File","title":"x"},"target":{"type":"File","title":"y"},"relationship":"notifies"}]}
report 6 {"certname":"b","producer_timestamp":"2024-05-01T10:00:00.000000001Z"}
purge 2024-05-22T10:00:00.000000001Z
expire 2024-05-15T10:00:00Z
purge 2024-05-22T10:00:00Z
count nodes 2
count factsets 2
count facts 2
count catalogs 2
count resources 2
count edges 2
count reports 2
purge 2024-05-22T10:00:00.000000001Z
count nodes 1
count factsets 1
count facts 1
count catalogs 1
count resources 1
count edges 1
count reports 1
rows facts
| "b" null "n" 1
fleet a new life remembers nothing
facts 1 {"certname":"a","producer_timestamp":"2024-05-01T10:00:00Z","values":{"n":1}}
catalog 2 {"certname":"a","producer_timestamp":"2024-05-01T10:00:00Z","version":"1","resources":[{"type":"File","title":"x"}],"edges":[{"source":{"type":"File","title":"x"},"target":{"type":"File","title":"y"},"relationship":"notifies"}]}
report 3 {"certname":"a","producer_timestamp":"2024-05-01T10:00:00Z"}
deactivate 4 {"certname":"a","producer_timestamp":"2024-05-01T10:00:00Z"}
expiration 5 {"certname":"a","producer_timestamp":"2024-05-01T10:00:00Z","expire":{"facts":false}}
purge 2024-05-22T10:00:00Z
newest deactivate a
| none
facts 6 {"certname":"a","producer_timestamp":"2024-04-01T00:00:00Z","values":{"n":2}}
active a
rows facts
| "a" null "n" 2
count reports 0
expire 2024-05-01T10:00:00Z
inactive a
fleet a report stays until its lifetime is over
report 1 {"certname":"a","producer_timestamp":"2024-05-01T10:00:00Z"}
retain 2024-05-15T10:00:00Z
count reports 1
retain 2024-05-15T10:00:00.000000001Z
count reports 0
fleet a report that comes too late is not kept
retain 2024-05-15T10:00:00.000000001Z
retain 2024-05-01T10:00:00Z
report 1 {"certname":"a","producer_timestamp":"2024-05-01T10:00:00Z"}
report 2 {"certname":"a","producer_timestamp":"2024-05-01T10:00:00.000000001Z"}
report 3 {"certname":"b","producer_timestamp":"2024-05-01T10:00:00Z"}
count reports 1
count nodes 2
fleet a report that was swept away still shows activity
report 1 {"certname":"a","producer_timestamp":"2024-05-01T10:00:00.000000001Z"}
retain 2024-05-22T10:00:00Z
count reports 0
deactivate 2 {"certname":"a","producer_timestamp":"2024-05-01T10:00:00Z"}
active a
expire 2024-05-08T10:00:00.000000001Z
active a
expire 2024-05-15T10:00:00Z
inactive a
fleet a sweep of all kinds
facts 1 {"certname":"a","producer_timestamp":"2024-05-01T10:00:00Z","values":{"n":1}}
catalog 2 {"certname":"a","producer_timestamp":"2024-05-01T10:00:00Z","version":"1","resources":[{"type":"File","title":"x"}],"edges":[{"source":{"type":"File","title":"x"},"target":{"type":"File","title":"y"},"relationship":"notifies"}]}
report 3 {"certname":"a","producer_timestamp":"2024-05-01T10:00:00Z"}
facts 4 {"certname":"b","producer_timestamp":"2024-05-08T10:00:00Z","values":{"n":1}}
catalog 5 {"certname":"b","producer_timestamp":"2024-05-08T10:00:00Z","version":"1","resources":[{"type":"File","title":"x"}],"edges":[{"source":{"type":"File","title":"x"},"target":{"type":"File","title":"y"},"relationship":"notifies"}]}
report 6 {"certname":"b","producer_timestamp":"2024-05-08T10:00:00Z"}
facts 7 {"certname":"c","producer_timestamp":"2024-05-22T10:00:00Z","values":{"n":1}}
catalog 8 {"certname":"c","producer_timestamp":"2024-05-22T10:00:00Z","version":"1","resources":[{"type":"File","title":"x"}],"edges":[{"source":{"type":"File","title":"x"},"target":{"type":"File","title":"y"},"relationship":"notifies"}]}
report 9 {"certname":"c","producer_timestamp":"2024-05-22T10:00:00Z"}
report 10 {"certname":"c","producer_timestamp":"2024-05-01T10:00:00Z"}
deactivate 11 {"certname":"d","producer_timestamp":"2024-05-22T10:00:00Z"}
sweep 2024-05-23T00:00:00Z
rows nodes
| null 2024-05-08T10:00:00.000000000Z "b" null 2024-05-15T10:00:00.000000000Z null 2024-05-08T10:00:00.000000000Z null null null null null
| null 2024-05-22T10:00:00.000000000Z "c" null null null 2024-05-22T10:00:00.000000000Z "498c1c2938304f9e6421b489a24c32fedc976236" null null null 2024-05-22T10:00:00.000000000Z
| null null "d" 2024-05-22T10:00:00.000000000Z null null null null null null null null
inactive b
count facts 2
count reports 1
fleet is the three alone
facts 1 {"certname":"a","producer_timestamp":"2024-05-01T10:00:00Z","values":{"n":1}}
catalog 2 {"certname":"a","producer_timestamp":"2024-05-01T10:00:00Z","version":"1","resources":[{"type":"File","title":"x"}],"edges":[{"source":{"type":"File","title":"x"},"target":{"type":"File","title":"y"},"relationship":"notifies"}]}
report 3 {"certname":"a","producer_timestamp":"2024-05-01T10:00:00Z"}
facts 4 {"certname":"b","producer_timestamp":"2024-05-08T10:00:00Z","values":{"n":1}}
catalog 5 {"certname":"b","producer_timestamp":"2024-05-08T10:00:00Z","version":"1","resources":[{"type":"File","title":"x"}],"edges":[{"source":{"type":"File","title":"x"},"target":{"type":"File","title":"y"},"relationship":"notifies"}]}
report 6 {"certname":"b","producer_timestamp":"2024-05-08T10:00:00Z"}
facts 7 {"certname":"c","producer_timestamp":"2024-05-22T10:00:00Z","values":{"n":1}}
catalog 8 {"certname":"c","producer_timestamp":"2024-05-22T10:00:00Z","version":"1","resources":[{"type":"File","title":"x"}],"edges":[{"source":{"type":"File","title":"x"},"target":{"type":"File","title":"y"},"relationship":"notifies"}]}
report 9 {"certname":"c","producer_timestamp":"2024-05-22T10:00:00Z"}
report 10 {"certname":"c","producer_timestamp":"2024-05-01T10:00:00Z"}
deactivate 11 {"certname":"d","producer_timestamp":"2024-05-22T10:00:00Z"}
expire 2024-05-23T00:00:00Z
purge 2024-05-23T00:00:00Z
retain 2024-05-23T00:00:00Z
rows nodes
| null 2024-05-08T10:00:00.000000000Z "b" null 2024-05-15T10:00:00.000000000Z null 2024-05-08T10:00:00.000000000Z null null null null null
| null 2024-05-22T10:00:00.000000000Z "c" null null null 2024-05-22T10:00:00.000000000Z "498c1c2938304f9e6421b489a24c32fedc976236" null null null 2024-05-22T10:00:00.000000000Z
| null null "d" 2024-05-22T10:00:00.000000000Z null null null null null null null null
inactive b
count facts 2
count reports 1
end"#;

#[test]
fn lifetimes_hold_at_their_edges(rt: HostRuntime) -> Result<(), AllocError> {
    play(&rt, rt.alloc(), FLEETS)
}
