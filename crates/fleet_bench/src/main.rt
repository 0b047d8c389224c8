//! A program of small tasks that scripts time, chosen by the first argument. It has no contract on what it prints, and no tests.
#![tactic(auto)]

mod decode;
mod json;
mod log;
mod queue;
mod record;
mod table;

use anyhow::{Result, bail};
use std::env;

fn main(rt: HostRuntime) -> Result<()> {
    let mut words = env::args(&rt)?;
    let _ = words.next();
    let Some(which) = words.next() else {
        bail!("fleet_bench decode|json|log|queue|record|table ..");
    };
    match which.as_str() {
        "decode" => decode::run(&rt, words),
        "json" => json::run(&rt, words),
        "log" => log::run(&rt, words),
        "queue" => queue::run(&rt, words),
        "record" => record::run(&rt, words),
        "table" => table::run(&rt, words),
        _ => bail!("fleet_bench decode|json|log|queue|record|table ..")
    }
}
