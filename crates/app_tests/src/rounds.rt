//! Scripts: their scenarios, and the rounds of each.
use crate::play;
use std::alloc::{AllocError, Global};
use std::process::Abort;
use std::sync::Wait;
use std::thread::Threads;
use test_support::{Rounds, Script, rounds_of, scenarios_of};

// Plays the scenario once.
fn play_once<R: Threads + Wait + Sync>(
    rt: &R,
    alloc: Global,
    scenario: &str,
    rounds: &mut Rounds,
) -> Result<(), AllocError> {
    let mut script = Script::new(alloc);
    let played = play::play(rt, alloc, &mut script, scenario, &mut rounds.wrong);
    let noted = rounds.add_outcome(script.told.log.as_str());
    drop(script);
    played?;
    noted
}

// Plays all rounds of the scenario.
fn play_scenario<R: Threads + Wait + Sync>(
    rt: &R,
    alloc: Global,
    scenario: &str,
    rounds: &mut Rounds,
) -> Result<(), AllocError> {
    let texts = rounds_of(alloc, scenario)?;
    for text in texts.as_slice() {
        play_once(rt, alloc, text.as_str(), rounds)?;
    }
    rounds.end(scenario)
}

// Plays the scenarios. What is not as they say.
fn play_all<R: Threads + Wait + Sync>(
    rt: &R,
    alloc: Global,
    heads: &str,
    scenarios: &str,
) -> Result<String, AllocError> {
    let all = scenarios_of(alloc, heads, scenarios)?;
    let mut rounds = Rounds::new(alloc);
    for scenario in all.as_slice() {
        play_scenario(rt, alloc, scenario.as_str(), &mut rounds)?;
    }
    Ok(rounds.wrong)
}

/// Plays the scenarios, each with each of the heads in front, as [`scenarios_of`] and [`rounds_of`] of `test_support` say. `play.rt` says
/// what the lines do.
pub(crate) fn play<R: Abort + Threads + Wait + Sync>(
    rt: &R,
    alloc: Global,
    heads: &str,
    scenarios: &str,
) -> Result<(), AllocError> {
    let wrong = play_all(rt, alloc, heads, scenarios)?;
    assert!(rt; wrong.is_empty(), "{wrong}");
    Ok(())
}
