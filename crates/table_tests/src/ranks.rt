//! Which of two commands counts. 10:00 is 2024-05-01T10:00:00Z.
use crate::play::play;
use std::alloc::AllocError;

const FLEETS: &str = r#"fleet facts that are older change nothing
facts 1 {"certname":"a","producer_timestamp":"2024-05-01T10:00:00Z","values":{"n":1}}
facts 2 {"certname":"a","producer_timestamp":"2024-05-01T09:59:59.999999999Z","values":{"n":2}}
newest facts a
| 2024-05-01T10:00:00.000000000Z 1
rows facts
| "a" null "n" 1
fleet of equal stamps the later receipt counts
facts 1 {"certname":"a","producer_timestamp":"2024-05-01T10:00:00Z","values":{"n":1}}
facts 2 {"certname":"a","producer_timestamp":"2024-05-01T12:00:00+02:00","values":{"n":2}}
newest facts a
| 2024-05-01T10:00:00.000000000Z 2
rows facts
| "a" null "n" 2
fleet a receipt that comes late stays behind
facts 5 {"certname":"a","producer_timestamp":"2024-05-01T12:00:00+02:00","values":{"n":2}}
facts 4 {"certname":"a","producer_timestamp":"2024-05-01T10:00:00Z","values":{"n":1}}
newest facts a
| 2024-05-01T10:00:00.000000000Z 5
rows facts
| "a" null "n" 2
fleet a nanosecond counts more than receipts
facts 1 {"certname":"a","producer_timestamp":"2024-05-01T10:00:00.000000001Z","values":{"n":1}}
facts 2 {"certname":"a","producer_timestamp":"2024-05-01T10:00:00Z","values":{"n":2}}
newest facts a
| 2024-05-01T10:00:00.000000001Z 1
rows facts
| "a" null "n" 1
fleet facts go and come with their names
facts 1 {"certname":"b","producer_timestamp":"2024-05-01T10:00:00Z","values":{"z":1,"m":2,"a":3}}
facts 2 {"certname":"a","producer_timestamp":"2024-05-01T10:00:00Z","values":{}}
facts 3 {"certname":"b","producer_timestamp":"2024-05-01T10:00:00.000000001Z","values":{"y":1,"m":[]}}
rows facts
| "b" null "m" []
| "b" null "y" 1
count factsets 2
count fact_contents 0
count inventory 0
fleet commands of a kind or node that is not there have no newest
report 1 {"certname":"a","producer_timestamp":"2024-05-01T10:00:00Z"}
newest facts a
| none
newest report a
| none
newest facts b
| none
active b
end"#;

#[test]
fn of_two_commands_the_one_of_the_greater_rank_counts(rt: HostRuntime) -> Result<(), AllocError> {
    play(&rt, rt.alloc(), FLEETS)
}
