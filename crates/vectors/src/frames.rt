// A trace's frames: what the host lends goes to the three steps, and what they answer is held to the trace.
use crate::holding::{Trace, told};
use crate::lent::{Detections, Shape};
use std::io;
use std::io::Read;
use tracker::{Pair, Table};

// The frames of a trace.
pub(crate) fn run(
    trace: &mut Trace<'_, impl Read, impl Print>,
    mut table: Table,
    storage: &mut [f64],
) -> io::Result<()> {
    let frames = trace.reader.few(1000000)?;
    for i in 1..=frames {
        trace.frame = i;
        table = frame(trace, table, storage)?;
    }
    Ok(())
}

fn frame(
    trace: &mut Trace<'_, impl Read, impl Print>,
    table: Table,
    storage: &mut [f64],
) -> io::Result<Table> {
    let first = tracker::predict(table, storage);
    trace.meet("step 1", 0, told(first.refusal))?;
    let second = step_2(trace, first.table, storage)?;
    let third = step_3(trace, second, storage)?;
    trace.hold_table(&third, storage)?;
    Ok(third)
}

fn step_2(
    trace: &mut Trace<'_, impl Read, impl Print>,
    table: Table,
    storage: &mut [f64],
) -> io::Result<Table> {
    let detections = Detections::read(&mut trace.reader, Shape::of(&table.config), 100000, 64)?;
    let mut pairs = [Pair::default(); 32];
    let answer = detections.match_table(table, storage, &mut pairs);
    trace.meet("step 2", 0, told(answer.refusal))?;
    trace.hold_pairs(&pairs, answer.count)?;
    Ok(answer.table)
}

fn step_3(
    trace: &mut Trace<'_, impl Read, impl Print>,
    table: Table,
    storage: &mut [f64],
) -> io::Result<Table> {
    let distances = trace.reader.matrix()?;
    let mut active = [0; 64];
    let answer = tracker::reid(table, storage, distances.as_slice(), &mut active);
    trace.meet("step 3", 0, told(answer.refusal))?;
    trace.hold_active(&active, answer.count)?;
    Ok(answer.table)
}
