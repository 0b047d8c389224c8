//! A stage of the live server over new files of the working folder: how long its looks take, and threads at it. Scripts time it. It has no
//! contract on what it prints.
#![tactic(auto)]

mod looks;
mod stages;
mod threads;

use crate::looks::rounds_over;
use crate::stages::{new_core, number};
use crate::threads::run_over;
use anyhow::{Result, bail};
use std::env;

fn main(rt: HostRuntime) -> Result<()> {
    let mut words = env::args(&rt)?;
    let _ = words.next();
    let Some(which) = words.next() else {
        bail!("stage_bench look STEPS ROUNDS|lanes COMMANDS LANES|wakes COMMANDS LANES");
    };
    let first = number(words.next())?;
    let second = number(words.next())?;
    let core = new_core(&rt)?;
    if which.as_str() == "look" {
        let spent = rounds_over(&rt, rt.alloc(), core, first, second)?;
        println!(&rt; "{spent}")?;
    } else if which.as_str() == "lanes" {
        let [took, looks, _] = run_over(&rt, rt.alloc(), core, second, first, 0)?;
        println!(&rt; "{took} {looks}")?;
    } else {
        let [_, _, seen] = run_over(&rt, rt.alloc(), core, second, 0, first)?;
        if seen != first {
            bail!("not all commands came to the tables");
        }
        println!(&rt; "{seen}")?;
    }
    Ok(())
}
