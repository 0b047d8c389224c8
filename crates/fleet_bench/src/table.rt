//! Applies the commands of a spool to tables, so that a script can time it.
//!
//! `fleet_bench table decode|apply` takes a spool from standard input, and decodes each command. With `apply` it also applies the
//! commands to tables with the default lifetimes. It prints the number of decoded commands, and at the end the numbers of rows of
//! nodes, facts, resources and reports.
ghost use Rattle.std.specs.Prelude.{IfOk};
ghost use Rattle.supersede_core.specs.history_spec.Lawful.{IsChange};

use anyhow::{Result, bail};
use command_decode::decode;
use fleet_tables::Tables;
use port_real::StdSource;
use port_real::fleet_ports::Source;
use spool_text::{NextItem, SpoolReader};
use std::alloc::Global;
use std::env::Args;
use supersede_core::fleet_rows::{Change, Command, Entity, Ttls};
use supersede_core::stamp_time::Moment;

/// The greatest payload, in bytes, as in a spool.
const MOST: usize = 16_777_216;

/// The change that the command asks for.
fn change_of(alloc: Global, command: &Command) -> Result<Change>
    ensures { IfOk result IsChange }
{
    if command.payload.as_slice().len() > MOST {
        bail!("more than 16 MiB");
    }
    match decode(alloc, command) {
        Ok(change) => Ok(change),
        Err(_) => bail!("a payload is refused"),
    }
}

/// Applies the change.
fn apply(tables: &mut Tables, receipt: u64, change: Change) -> Result<()>
    requires { IsChange change }
{
    let room = tables.reserve(&change)?;
    tables.apply(room, receipt, None, change);
    Ok(())
}

/// Decodes the commands of the spool, and applies them if asked to. Answers the number of commands.
fn follow<S: Source + Drop>(
    alloc: Global,
    source: &mut S,
    tables: &mut Tables,
    applies: bool,
) -> Result<u64> {
    let mut spool = SpoolReader::new(alloc);
    let mut receipt: u64 = 0;
    'items: loop {
        match spool.next_item(source, Moment::from_nanosecond(0)) {
            NextItem::Command(command) => {
                receipt = receipt.saturating_add(1);
                let change = change_of(alloc, &command)?;
                if applies {
                    apply(tables, receipt, change)?;
                }
            }
            NextItem::End => return Ok(receipt),
            _ => bail!("not a spool of commands alone"),
        }
    }
}

pub(crate) fn run(rt: &HostRuntime, mut words: Args) -> Result<()> {
    let alloc = rt.alloc();
    let Some(mode) = words.next() else {
        bail!("fleet_bench table decode|apply");
    };
    let ttls = Ttls {
        node_days: 7,
        purge_days: 14,
        report_days: 14,
        report_count: None,
    };
    let mut source = StdSource::new(rt);
    let mut tables = Tables::new(alloc, ttls);
    let commands = follow(alloc, &mut source, &mut tables, mode.as_str() == "apply")?;
    let nodes = tables.count(Entity::Nodes);
    let facts = tables.count(Entity::Facts);
    let resources = tables.count(Entity::Resources);
    let reports = tables.count(Entity::Reports);
    println!(rt; "{commands} {nodes} {facts} {resources} {reports}")?;
    Ok(())
}
