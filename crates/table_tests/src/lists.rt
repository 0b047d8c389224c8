//! What tables list of what they hold, and the tables that a list leads to.
ghost use Rattle.std.specs.Prelude.{OnOk, IfOk};
ghost use Rattle.ttl_sweeps.specs.fleet_tables.Listed.{IsLawfulList};

use crate::play::{Fleet, change_of, play};
use command_decode::fleet_rows::{Applied, Kepts, Kind, Mark, Marks, StoreList, Ttls};
use command_decode::json_tree::Text;
use stamp_time::read_stamp;
use std::alloc::{AllocError, Global};
use std::test::Fail;
use ttl_sweeps::fleet_tables::Tables;

const FLEETS: &str = r#"fleet the newest command of each kind is listed, and the reports by rank
report 1 {"certname":"b","producer_timestamp":"2024-05-01T10:00:00Z","status":"failed"}
report 2 {"certname":"b","producer_timestamp":"2024-05-01T10:00:00Z","status":"changed"}
report 3 {"certname":"b","producer_timestamp":"2024-05-01T09:59:59.999999999Z","status":"failed"}
facts 4 {"certname":"b","producer_timestamp":"2024-05-01T10:00:00Z","values":{"n":1}}
facts 5 {"certname":"b","producer_timestamp":"2024-05-01T09:59:59.999999999Z","values":{"n":2}}
deactivate 6 {"certname":"b","producer_timestamp":"2024-05-01T09:59:59.999999999Z"}
list
| null null
| b 2024-05-01T10:00:00.000000000Z 2024-05-01T09:59:59.999999999Z
| receipts 4 6 3 1 2
fleet nodes are listed by certname, also one of which no command is left
deactivate 1 {"certname":"c","producer_timestamp":"2024-05-01T10:00:00Z"}
report 2 {"certname":"a","producer_timestamp":"2024-05-01T10:00:00Z"}
retain 2024-05-20T00:00:00Z
list
| null 2024-05-20T00:00:00.000000000Z
| a 2024-05-01T10:00:00.000000000Z null
| c null 2024-05-01T10:00:00.000000000Z
| receipts 1
end"#;

#[test]
fn tables_list_what_they_hold(rt: HostRuntime) -> Result<(), AllocError> {
    play(&rt, rt.alloc(), FLEETS)
}

// A list of no node, with the lifetimes of all tests, a sweep of expiry and one of reports.
fn swept(alloc: Global) -> StoreList
    ensures { IsLawfulList result }
{
    StoreList {
        ttls: Ttls::default_lifetimes(),
        expire: read_stamp("2024-05-09T00:00:00Z"),
        retain: read_stamp("2024-05-20T00:00:00Z"),
        marks: Marks::new(alloc),
        applied: Kepts::new(alloc),
    }
}

// The list gets a node with that activity.
fn mark(list: &mut StoreList, alloc: Global, certname: &str, active: &str) -> Result<(), AllocError>
    requires { IsLawfulList list.old }
    ensures { OnOk result (IsLawfulList list.new) }
{
    let certname = Text::from_str(alloc, certname)?;
    let active = read_stamp(active);
    list.marks.push(Mark {
        certname,
        active,
        deactivated: None,
    })?;
    Ok(())
}

// The list goes on with a command.
fn put(
    list: &mut StoreList,
    alloc: Global,
    receipt: u64,
    kind: Kind,
    payload: &str,
) -> Result<(), Fail>
    requires { IsLawfulList list.old }
    ensures { OnOk result (IsLawfulList list.new) }
{
    let Some(change) = change_of(alloc, kind, payload.as_bytes()) else {
        return Err("refused".into());
    };
    list.applied.push(Applied {
        receipt,
        received: None,
        change,
    })?;
    Ok(())
}

const FACTS_OF_A: &str =
    r#"{"certname":"a","producer_timestamp":"2024-05-01T10:00:00Z","values":{"n":1}}"#;

const FACTS_OF_B: &str =
    r#"{"certname":"b","producer_timestamp":"2024-05-01T10:00:00Z","values":{"n":1}}"#;

const REPORT_OF_A: &str = r#"{"certname":"a","producer_timestamp":"2024-05-01T10:00:00Z"}"#;

fn of_list(alloc: Global) -> Result<Tables, Fail> {
    let mut list = swept(alloc);
    mark(&mut list, alloc, "a", "2024-05-03T00:00:00Z")?;
    mark(&mut list, alloc, "b", "2024-05-01T10:00:00Z")?;
    put(&mut list, alloc, 3, Kind::Facts, FACTS_OF_A)?;
    put(&mut list, alloc, 1, Kind::Facts, FACTS_OF_B)?;
    put(&mut list, alloc, 5, Kind::Report, REPORT_OF_A)?;
    Ok(Tables::from_list(alloc, &list)?)
}

const SHOWN: &str = r#"active a
inactive b
count factsets 2
count reports 0
newest facts a
| 2024-05-01T10:00:00.000000000Z 3
end"#;

// A node whose mark is later than all of its commands isn't expired, and a report that is older than its lifetime isn't kept.
#[test]
fn a_list_leads_to_its_tables(rt: HostRuntime) -> Result<(), Fail> {
    let mut fleet = Fleet::over(rt.alloc(), of_list(rt.alloc())?);
    Ok(fleet.play(&rt, SHOWN)?)
}
