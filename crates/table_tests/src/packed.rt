//! Reports whose lists are packed: the same rows in whatever order reports of one moment come, lists as they came, and reports that
//! a sweep drops at once. Each hash is what Python's hashlib gives for the canonical text, which was written out by hand.
use crate::play::play;
use std::alloc::AllocError;

// Three reports of one moment stand in the order of their canonical texts, whichever of them comes first.
const FLEETS: &str = r#"fleet first, second, third
report 1 {"certname":"a","producer_timestamp":"2024-05-01T10:00:00Z","logs":[{"message":"a"}]}
report 2 {"certname":"a","producer_timestamp":"2024-05-01T10:00:00Z","metrics":[{"value":1}],"logs":[{"message":"a"}]}
report 3 {"certname":"a","producer_timestamp":"2024-05-01T10:00:00Z","logs":[{"message":"b"}]}
rows reports
| "a" null null null "b6d62558245626ff15a5c3c6e57ca414917ea034" [{"message":"a"}] [] null null 2024-05-01T10:00:00.000000000Z null null null [] null null null
| "a" null null null "d2c829b48841762fad13868b9b31495326c16fff" [{"message":"a"}] [{"value":1}] null null 2024-05-01T10:00:00.000000000Z null null null [] null null null
| "a" null null null "465abed748b48c9499cbe2ca818047facec2d153" [{"message":"b"}] [] null null 2024-05-01T10:00:00.000000000Z null null null [] null null null
fleet first, third, second
report 1 {"certname":"a","producer_timestamp":"2024-05-01T10:00:00Z","logs":[{"message":"a"}]}
report 2 {"certname":"a","producer_timestamp":"2024-05-01T10:00:00Z","logs":[{"message":"b"}]}
report 3 {"certname":"a","producer_timestamp":"2024-05-01T10:00:00Z","metrics":[{"value":1}],"logs":[{"message":"a"}]}
rows reports
| "a" null null null "b6d62558245626ff15a5c3c6e57ca414917ea034" [{"message":"a"}] [] null null 2024-05-01T10:00:00.000000000Z null null null [] null null null
| "a" null null null "d2c829b48841762fad13868b9b31495326c16fff" [{"message":"a"}] [{"value":1}] null null 2024-05-01T10:00:00.000000000Z null null null [] null null null
| "a" null null null "465abed748b48c9499cbe2ca818047facec2d153" [{"message":"b"}] [] null null 2024-05-01T10:00:00.000000000Z null null null [] null null null
fleet second, first, third
report 1 {"certname":"a","producer_timestamp":"2024-05-01T10:00:00Z","metrics":[{"value":1}],"logs":[{"message":"a"}]}
report 2 {"certname":"a","producer_timestamp":"2024-05-01T10:00:00Z","logs":[{"message":"a"}]}
report 3 {"certname":"a","producer_timestamp":"2024-05-01T10:00:00Z","logs":[{"message":"b"}]}
rows reports
| "a" null null null "b6d62558245626ff15a5c3c6e57ca414917ea034" [{"message":"a"}] [] null null 2024-05-01T10:00:00.000000000Z null null null [] null null null
| "a" null null null "d2c829b48841762fad13868b9b31495326c16fff" [{"message":"a"}] [{"value":1}] null null 2024-05-01T10:00:00.000000000Z null null null [] null null null
| "a" null null null "465abed748b48c9499cbe2ca818047facec2d153" [{"message":"b"}] [] null null 2024-05-01T10:00:00.000000000Z null null null [] null null null
fleet second, third, first
report 1 {"certname":"a","producer_timestamp":"2024-05-01T10:00:00Z","metrics":[{"value":1}],"logs":[{"message":"a"}]}
report 2 {"certname":"a","producer_timestamp":"2024-05-01T10:00:00Z","logs":[{"message":"b"}]}
report 3 {"certname":"a","producer_timestamp":"2024-05-01T10:00:00Z","logs":[{"message":"a"}]}
rows reports
| "a" null null null "b6d62558245626ff15a5c3c6e57ca414917ea034" [{"message":"a"}] [] null null 2024-05-01T10:00:00.000000000Z null null null [] null null null
| "a" null null null "d2c829b48841762fad13868b9b31495326c16fff" [{"message":"a"}] [{"value":1}] null null 2024-05-01T10:00:00.000000000Z null null null [] null null null
| "a" null null null "465abed748b48c9499cbe2ca818047facec2d153" [{"message":"b"}] [] null null 2024-05-01T10:00:00.000000000Z null null null [] null null null
fleet third, first, second
report 1 {"certname":"a","producer_timestamp":"2024-05-01T10:00:00Z","logs":[{"message":"b"}]}
report 2 {"certname":"a","producer_timestamp":"2024-05-01T10:00:00Z","logs":[{"message":"a"}]}
report 3 {"certname":"a","producer_timestamp":"2024-05-01T10:00:00Z","metrics":[{"value":1}],"logs":[{"message":"a"}]}
rows reports
| "a" null null null "b6d62558245626ff15a5c3c6e57ca414917ea034" [{"message":"a"}] [] null null 2024-05-01T10:00:00.000000000Z null null null [] null null null
| "a" null null null "d2c829b48841762fad13868b9b31495326c16fff" [{"message":"a"}] [{"value":1}] null null 2024-05-01T10:00:00.000000000Z null null null [] null null null
| "a" null null null "465abed748b48c9499cbe2ca818047facec2d153" [{"message":"b"}] [] null null 2024-05-01T10:00:00.000000000Z null null null [] null null null
fleet third, second, first, and each once more
report 1 {"certname":"a","producer_timestamp":"2024-05-01T10:00:00Z","logs":[{"message":"b"}]}
report 2 {"certname":"a","producer_timestamp":"2024-05-01T10:00:00Z","metrics":[{"value":1}],"logs":[{"message":"a"}]}
report 3 {"certname":"a","producer_timestamp":"2024-05-01T10:00:00Z","logs":[{"message":"a"}]}
report 4 {"certname":"a","producer_timestamp":"2024-05-01T10:00:00Z","metrics":[{"value":1}],"logs":[{"message":"a"}]}
report 5 {"certname":"a","producer_timestamp":"2024-05-01T10:00:00Z","logs":[{"message":"b"}]}
report 6 {"certname":"a","producer_timestamp":"2024-05-01T10:00:00Z","logs":[{"message":"a"}]}
rows reports
| "a" null null null "b6d62558245626ff15a5c3c6e57ca414917ea034" [{"message":"a"}] [] null null 2024-05-01T10:00:00.000000000Z null null null [] null null null
| "a" null null null "d2c829b48841762fad13868b9b31495326c16fff" [{"message":"a"}] [{"value":1}] null null 2024-05-01T10:00:00.000000000Z null null null [] null null null
| "a" null null null "465abed748b48c9499cbe2ca818047facec2d153" [{"message":"b"}] [] null null 2024-05-01T10:00:00.000000000Z null null null [] null null null
fleet lists are shown as they came
report 1 {"certname":"a","producer_timestamp":"2024-05-01T10:00:00Z","logs":[{"message":"a\"\\\u0001é","n":[1.50,{},[]],"z":-0}]}
rows reports
| "a" null null null "72dfa0b8af3e0cf4a01fda388e4f976894ae5ec5" [{"message":"a\"\\\u0001é","n":[1.50,{},[]],"z":-0}] [] null null 2024-05-01T10:00:00.000000000Z null null null [] null null null
fleet a report that is too old is dropped at once
retain 2024-05-20T00:00:00Z
report 1 {"certname":"a","producer_timestamp":"2024-05-01T10:00:00Z","logs":[{"message":"a"}]}
count reports 0
count nodes 1
report 2 {"certname":"a","producer_timestamp":"2024-05-20T00:00:00Z","logs":[{"message":"a"}]}
report 3 {"certname":"a","producer_timestamp":"2024-05-01T10:00:00Z","logs":[{"message":"b"}]}
count reports 1
reports 2 of one moment the report of the least rank leaves
report 3 {"certname":"a","producer_timestamp":"2024-05-01T10:00:00Z","logs":[{"message":"b"}]}
report 2 {"certname":"a","producer_timestamp":"2024-05-01T10:00:00Z","metrics":[{"value":1}],"logs":[{"message":"a"}]}
report 1 {"certname":"a","producer_timestamp":"2024-05-01T10:00:00Z","logs":[{"message":"a"}]}
rows reports
| "a" null null null "d2c829b48841762fad13868b9b31495326c16fff" [{"message":"a"}] [{"value":1}] null null 2024-05-01T10:00:00.000000000Z null null null [] null null null
| "a" null null null "465abed748b48c9499cbe2ca818047facec2d153" [{"message":"b"}] [] null null 2024-05-01T10:00:00.000000000Z null null null [] null null null
end"#;

#[test]
fn packed_reports_stand_by_stamps_and_texts(rt: HostRuntime) -> Result<(), AllocError> {
    play(&rt, rt.alloc(), FLEETS)
}
