//! Generated histories: the rows of the tables are those of a plain and slow program.
ghost use Rattle.std.specs.Prelude.{◌<◌, IfSome};
ghost use Rattle.command_decode.specs.fleet_rows.Lifetime.{IsReportCount};

use crate::play::Fleet;
use command_decode::fleet_rows::Entity;
use plain_tables::{Event, Turns, payload_of, plain_rows};
use stamp_time::Moment;
use std::alloc::{AllocError, Global};
use std::process::Abort;

fn take(alloc: Global, fleet: &mut Fleet, event: &Event) -> Result<bool, AllocError> {
    match event {
        Event::Applied(x) => {
            let received = Some(Moment::from_nanosecond(x.received as i128));
            let payload = payload_of(alloc, x)?;
            Ok(fleet.send(x.kind, x.receipt, received, payload.as_slice()))
        }
        Event::Swept(kinds, m) => Ok(fleet.sweep_at(*kinds, Moment::from_nanosecond(*m as i128))),
    }
}

fn agrees(
    alloc: Global,
    fleet: &Fleet,
    events: &[Event],
    limit: Option<u32>,
) -> Result<bool, AllocError> {
    for entity in [
        Entity::Nodes,
        Entity::Factsets,
        Entity::Facts,
        Entity::Catalogs,
        Entity::Reports,
    ] {
        let wanted = plain_rows(alloc, entity, events, limit)?;
        if fleet.rows(entity, 0, usize::MAX)?.as_slice() != wanted.as_slice() {
            return Ok(false);
        }
    }
    Ok(true)
}

fn run(rt: &impl Abort, alloc: Global, seed: u64, limit: Option<u32>) -> Result<(), AllocError>
    requires { IfSome limit IsReportCount }
{
    let mut fleet = Fleet::new(alloc, limit);
    let mut events = Vec::new(alloc);
    let mut turns = Turns::new(seed);
    for turn in 0..300 {
        let event = turns.event(turn);
        let mut is_so = take(alloc, &mut fleet, &event)?;
        events.push(event)?;
        if turn % 20 == 9 {
            fleet.tables.prepare_all()?;
        }
        if turn % 10 == 9 {
            is_so = is_so && agrees(alloc, &fleet, events.as_slice(), limit)?;
        }
        assert!(rt; is_so, "history {seed}, turn {turn}");
    }
    Ok(())
}

#[test]
fn the_tables_have_the_rows_of_the_plain_program(rt: HostRuntime) -> Result<(), AllocError> {
    run(&rt, rt.alloc(), 1, None)?;
    run(&rt, rt.alloc(), 2, Some(1))?;
    run(&rt, rt.alloc(), 3, Some(2))
}
