//! Reports that are one, their order, when they were received, and how many are kept. Each hash is what Python's hashlib gives for
//! the canonical text, which was written out by hand.
use crate::play::play;
use std::alloc::AllocError;

const FLEETS: &str = r#"fleet of equal reports one stays with the later receipt
report 1 {"certname":"a","producer_timestamp":"2024-05-01T10:00:00Z","status":"changed"}
report 2 {"certname":"a","producer_timestamp":"2024-05-01T10:00:00Z","status":"failed"}
rows nodes
| null null "a" null null null null "dda775da20a4cd26124fe5647270f19ffe9791a6" null "failed" null 2024-05-01T10:00:00.000000000Z
report 3 {"certname":"a","producer_timestamp":"2024-05-01T08:00:00-02:00","status":"changed"}
count reports 2
count events 0
count event_counts 0
rows nodes
| null null "a" null null null null "0ab27b3ce9a5d8fd43f5647f2d8e47782bb648c5" null "changed" null 2024-05-01T10:00:00.000000000Z
fleet members in another order make no other report
report 1 {"certname":"a","producer_timestamp":"2024-05-01T10:00:00Z","logs":[{"a":1,"b":2}]}
report 2 {"certname":"a","producer_timestamp":"2024-05-01T10:00:00Z","logs":[{"b":2,"a":1}],"status":null}
rows reports
| "a" null null null "3764061f33224d9328458467ed269994fc80d589" [{"b":2,"a":1}] [] null null 2024-05-01T10:00:00.000000000Z null null null [] null null null
fleet reports stand by their stamps and then by their texts
report 1 {"certname":"a","producer_timestamp":"2024-05-01T10:00:00Z","status":"failed"}
report 2 {"certname":"a","producer_timestamp":"2024-05-01T10:00:00Z","status":"changed"}
report 3 {"certname":"a","producer_timestamp":"2024-05-01T09:59:59.999999999Z","status":"failed"}
rows reports
| "a" null null null "8131ea7c5b2a74ad4a8dc47e4b60600a75fb1a68" [] [] null null 2024-05-01T09:59:59.999999999Z null null null [] null "failed" null
| "a" null null null "0ab27b3ce9a5d8fd43f5647f2d8e47782bb648c5" [] [] null null 2024-05-01T10:00:00.000000000Z null null null [] null "changed" null
| "a" null null null "dda775da20a4cd26124fe5647270f19ffe9791a6" [] [] null null 2024-05-01T10:00:00.000000000Z null null null [] null "failed" null
rows nodes
| null null "a" null null null null "0ab27b3ce9a5d8fd43f5647f2d8e47782bb648c5" null "changed" null 2024-05-01T10:00:00.000000000Z
reports 2 of more reports than two those of the least ranks leave
report 1 {"certname":"a","producer_timestamp":"2024-05-01T12:00:00Z"}
report 2 {"certname":"a","producer_timestamp":"2024-05-01T10:00:00Z"}
report 3 {"certname":"a","producer_timestamp":"2024-05-01T11:00:00Z"}
rows reports
| "a" null null null "133f0d71064da24f5655975e87ceec48424c8658" [] [] null null 2024-05-01T11:00:00.000000000Z null null null [] null null null
| "a" null null null "6b7dd400cc2d68d09d7c7b01649478648dc55a55" [] [] null null 2024-05-01T12:00:00.000000000Z null null null [] null null null
report 4 {"certname":"b","producer_timestamp":"2024-05-01T10:00:00Z"}
count reports 3
reports 1 of one stamp the earlier receipt leaves
report 2 {"certname":"a","producer_timestamp":"2024-05-01T10:00:00Z","status":"changed"}
report 3 {"certname":"a","producer_timestamp":"2024-05-01T10:00:00Z","status":"failed"}
rows nodes
| null null "a" null null null null "dda775da20a4cd26124fe5647270f19ffe9791a6" null "failed" null 2024-05-01T10:00:00.000000000Z
report 1 {"certname":"a","producer_timestamp":"2024-05-01T10:00:00Z","status":"changed"}
rows nodes
| null null "a" null null null null "dda775da20a4cd26124fe5647270f19ffe9791a6" null "failed" null 2024-05-01T10:00:00.000000000Z
count reports 1
reports 2 a report that comes again counts once
report 1 {"certname":"a","producer_timestamp":"2024-05-01T10:00:00Z","status":"changed"}
report 2 {"certname":"a","producer_timestamp":"2024-05-01T09:59:59.999999999Z","status":"failed"}
report 3 {"certname":"a","producer_timestamp":"2024-05-01T08:00:00-02:00","status":"changed"}
count reports 2
fleet a report shows when it was received
received 2024-05-02T00:00:00.5Z 1 {"certname":"a","producer_timestamp":"2024-05-01T10:00:00Z"}
report 2 {"certname":"a","producer_timestamp":"2024-05-01T11:00:00Z"}
rows reports
| "a" null null null "4b10e7db083b682113db87be8f944b00a9a3c69f" [] [] null null 2024-05-01T10:00:00.000000000Z null 2024-05-02T00:00:00.500000000Z null [] null null null
| "a" null null null "133f0d71064da24f5655975e87ceec48424c8658" [] [] null null 2024-05-01T11:00:00.000000000Z null null null [] null null null
fleet of equal reports the one of the greatest rank tells when it was received
received 2024-05-02T00:00:00.5Z 1 {"certname":"a","producer_timestamp":"2024-05-01T10:00:00Z"}
received 2024-05-01T00:00:00Z 2 {"certname":"a","producer_timestamp":"2024-05-01T08:00:00-02:00"}
report 1 {"certname":"a","producer_timestamp":"2024-05-01T10:00:00Z"}
rows reports
| "a" null null null "4b10e7db083b682113db87be8f944b00a9a3c69f" [] [] null null 2024-05-01T10:00:00.000000000Z null 2024-05-01T00:00:00.000000000Z null [] null null null
end"#;

#[test]
fn reports_that_are_one_stand_once_and_in_order(rt: HostRuntime) -> Result<(), AllocError> {
    play(&rt, rt.alloc(), FLEETS)
}
