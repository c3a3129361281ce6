// The oracle's answers held against the public calls: reads traces (FORMAT.md), runs each through the calls and prints a line for it, with the first difference.
#![tactic(auto)]

mod frames;
mod holding;
mod lent;
mod pace;
mod reading;

use holding::{Trace, told};
use reading::Reader;
use std::io;
use std::io::Read;

fn main(rt: HostRuntime) -> io::Result<()> {
    let mut reader = Reader::new(rt.alloc(), rt.reader());
    let traces = reader.few(1000000)?;
    if traces == 0 {
        return pace::run(&rt, &mut reader);
    }
    let mut trace = Trace::new(&rt, reader);
    hold_traces(&rt, &mut trace, traces)
}

// Each trace, and a line for all.
fn hold_traces<P: Print>(
    rt: &P,
    trace: &mut Trace<'_, impl Read, P>,
    traces: usize,
) -> io::Result<()> {
    // room for 64 records of 16 points of 3 coordinates with 8 past detections
    let mut storage = [0.0; 55296];
    let mut frames = 0u64;
    let mut differences = 0u64;
    for n in 1..=traces {
        hold_trace(rt, n, trace, &mut storage)?;
        frames = frames.wrapping_add(trace.frame as u64);
        differences = differences.wrapping_add(trace.differences);
    }
    println!(rt; "{traces} traces, {frames} frames, {differences} differences")
}

// A trace, and its line.
fn hold_trace<P: Print>(
    rt: &P,
    n: usize,
    trace: &mut Trace<'_, impl Read, P>,
    storage: &mut [f64],
) -> io::Result<()> {
    print!(rt; "trace {n}: ")?;
    trace.begin();
    let config = trace.reader.settings()?;
    let made = tracker::new(config, storage);
    trace.hold("making", told(made.refusal))?;
    frames::run(trace, made.table, storage)?;
    let frames = trace.frame;
    if trace.differences == 0 {
        println!(rt; "{frames} frames, same")
    } else {
        println!(rt; "{frames} frames")
    }
}
