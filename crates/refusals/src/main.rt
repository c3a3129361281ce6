// Bad input to the public calls: each refusal alone and in pairs, so that the first in order answers, with the table and the storage compared afterwards.
#![tactic(auto)]

mod fault;
mod same;
mod step_one;
mod step_three;
mod step_two;
mod tables;

use parts::TrackerConfig;
use same::Same;
use std::io;
use table::Answer;
use tables::{good, zeros};
use tracker::Refusal;

fn main(rt: HostRuntime) -> io::Result<()> {
    makings(&rt)?;
    step_one::alone(&rt)?;
    step_one::in_pairs(&rt)?;
    step_one::lists(&rt)?;
    step_two::faults(&rt)?;
    step_two::accepted(&rt)?;
    step_three::faults(&rt)?;
    step_three::lengths(&rt)?;
    step_three::altered(&rt)
}

// The number of the refusal, 0 where there is none.
fn number_of(a: &Answer) -> u32 {
    a.refusal.map_or(0, Refusal::number)
}

fn told(kept: bool) -> &'static str {
    if kept { "nothing changed" } else { "changed" }
}

// What a making answers, and whether a refused one returned zeros.
fn making(rt: &impl Print, name: &str, config: TrackerConfig, storage: &[f64]) -> io::Result<()> {
    let a = tracker::new(config, storage);
    print!(rt; "making, {name}: {}", number_of(&a))?;
    if a.refusal.is_none() {
        return println!(rt);
    }
    let kind = if a.table.same(&zeros()) {
        "zeros"
    } else {
        "not zeros"
    };
    println!(rt; ", {kind}")
}

fn makings(rt: &impl Print) -> io::Result<()> {
    let long = [0.0; 31];
    let fit = &long[..30];
    let short = &long[..29];
    for (name, delay, maximum, points, storage) in [
        ("good", 7, 15, 1, fit),
        ("one float too long", 7, 15, 1, &long),
        ("one float short", 7, 15, 1, short),
        ("delay 14 of 15", 14, 15, 1, &long),
        ("delay 15 of 15", 15, 15, 1, &long),
        ("delay 15 of 15, storage short", 15, 15, 1, short),
        ("delay -2", -2, 15, 1, &long),
        ("delay -2, storage short", -2, 15, 1, short),
        ("delay -2 of -4", -2, -4, 1, &long),
        ("delay -2, 17 points", -2, 15, 17, &long),
        ("delay 15 of 15, 17 points", 15, 15, 17, &long),
        ("17 points", 7, 15, 17, &long),
        ("17 points, storage short", 7, 15, 17, short),
    ] {
        let config = TrackerConfig {
            initialization_delay: delay,
            hit_counter_max: maximum,
            points,
            ..good()
        };
        making(rt, name, config, storage)?;
    }
    Ok(())
}
