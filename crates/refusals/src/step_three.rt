// Bad input to step 3: each refusal alone and in pairs, lengths and declarations, and tables altered between the steps in ways that stay whole.
ghost use Rattle.std.specs.Prelude.{◌≤◌};

use crate::fault::{Faults, each_two};
use crate::same::Same;
use crate::tables::{MOST_FRAMES, good, holding, places};
use crate::{number_of, told};
use matching::Numbers;
use parts::TrackerConfig;
use std::fmt::Display;
use std::io;
use table::{Counts, Phase, Table};
use tracker::Refusal;

// The front of a list, as candidates.
fn front(list: Numbers<64>) -> Numbers<32> {
    let mut at = [0; 32];
    at.copy_from_slice(&list.at[..32]);
    Numbers {
        at,
        count: list.count,
    }
}

// A table of two active records in step 3, with a ReID distance declared or not, and these lists.
fn meeting(has_reid_distance: bool, candidates: Numbers<64>, old: Numbers<64>) -> Table {
    let config = TrackerConfig {
        has_reid_distance,
        ..good()
    };
    let mut t = holding(config, 2, Phase::Reid);
    t.lists.candidates = front(candidates);
    t.lists.old = old;
    t
}

// What step 3 answers with so many floats, distances of 0.5 and places lent, and whether anything changed.
fn run(
    rt: &impl Print,
    name: impl Display + Drop,
    t: Table,
    floats: usize,
    entries: usize,
    room: usize,
) -> io::Result<()>
    requires floats_are_there { floats ≤ 30 }
    requires entries_are_there { entries ≤ 4 }
    requires room_is_there { room ≤ 4 }
{
    let before = [0.25; 30];
    let mut storage = before;
    let mut active = [77; 4];
    let a = tracker::reid(
        t,
        &mut storage[..floats],
        &[0.5; 4][..entries],
        &mut active[..room],
    );
    let kept = a.table.same(&t) && storage.same(&before) && active == [77; 4];
    println!(rt; "step 3, {name}: {}, {}", number_of(&a), told(kept))
}

// With two faults, which may be one.
fn run_with(rt: &impl Print, both: Faults) -> io::Result<()> {
    let mut t = meeting(true, places(0, 1, 1), places(1, 0, 1));
    if both.has(Refusal::TableNotWhole) {
        t.counts.frames = MOST_FRAMES + 1;
    }
    if both.has(Refusal::OutOfStep) {
        t.phase = Phase::Match;
    }
    let floats = if both.has(Refusal::StorageShort) {
        14
    } else {
        30
    };
    let entries = if both.has(Refusal::Lengths) { 2 } else { 1 };
    let room = if both.has(Refusal::OutputShort) { 1 } else { 2 };
    run(rt, both, t, floats, entries, room)
}

// Each refusal alone, and each two of them, in the order in which step 3 asks: the first answers.
pub(crate) fn faults(rt: &impl Print) -> io::Result<()> {
    let in_order = [
        Refusal::TableNotWhole,
        Refusal::StorageShort,
        Refusal::OutOfStep,
        Refusal::Lengths,
        Refusal::OutputShort,
    ];
    each_two(&in_order, |both| run_with(rt, both))
}

// Matrix lengths 0, one short, as asked and one long; declared and not; an active list one place short.
pub(crate) fn lengths(rt: &impl Print) -> io::Result<()> {
    let met = |declared, candidates, old| {
        meeting(declared, places(0, 1, candidates), places(1, 0, old))
    };
    let both = met(true, 1, 2);
    let no_candidates = met(true, 0, 2);
    let no_old = met(true, 1, 0);
    let undeclared = met(false, 1, 2);
    run(rt, "declared, 2 asked, 0 lent", both, 30, 0, 2)?;
    run(rt, "declared, 2 asked, 1 lent", both, 30, 1, 2)?;
    run(rt, "declared, 2 asked, 2 lent", both, 30, 2, 2)?;
    run(rt, "declared, 2 asked, 3 lent", both, 30, 3, 2)?;
    run(
        rt,
        "declared, no candidates, 0 lent",
        no_candidates,
        30,
        0,
        2,
    )?;
    run(rt, "declared, no old ones, 1 lent", no_old, 30, 1, 2)?;
    run(rt, "not declared, 0 lent", undeclared, 30, 0, 2)?;
    run(rt, "not declared, 2 lent", undeclared, 30, 2, 2)?;
    run(rt, "an active list one place short", undeclared, 30, 0, 1)?;
    run(rt, "an active list longer than asked", undeclared, 30, 0, 4)
}

// What step 3 makes of these lists and this matrix: the records left and the active ones.
fn merged(
    rt: &impl Print,
    name: &str,
    candidates: Numbers<64>,
    old: Numbers<64>,
    distances: &[f64],
) -> io::Result<()> {
    let mut active = [0; 2];
    let t = meeting(true, candidates, old);
    let a = tracker::reid(t, &mut [0.25; 30], distances, &mut active);
    print!(rt;
        "step 3, {name}: {}, records {}, active",
        number_of(&a),
        a.table.counts.records
    )?;
    for id in active.iter().take(a.count) {
        print!(rt; " {id}")?;
    }
    println!(rt)
}

// Lists that overlap or are unsorted: neither traps nor loops.
pub(crate) fn altered(rt: &impl Print) -> io::Result<()> {
    let first = places(0, 1, 1);
    let second = places(1, 0, 1);
    let sorted = places(0, 1, 2);
    let unsorted = places(1, 0, 2);
    let twice = places(0, 0, 2);
    for (name, candidates, old, distances) in [
        ("one record absorbed", first, second, &[0.5][..]),
        ("a record that is its own old one", first, first, &[0.5]),
        (
            "two records that absorb each other",
            sorted,
            unsorted,
            &[0.5, 2.0, 2.0, 0.5],
        ),
        ("unsorted lists", unsorted, unsorted, &[2.0, 0.5, 2.0, 2.0]),
        ("nothing close enough", first, second, &[1.0]),
        (
            "a list that names a record twice",
            twice,
            second,
            &[0.5, 0.5],
        ),
    ] {
        merged(rt, name, candidates, old, distances)?;
    }
    many(rt)
}

// A table of 33 records, of which so many are counted as candidates.
fn crowd(candidates: usize) -> Table {
    let config = TrackerConfig {
        capacity: 64,
        has_reid_distance: true,
        ..good()
    };
    let mut t = holding(config, 2, Phase::Reid);
    t.counts = Counts {
        records: 33,
        opened: 33,
        global: 34,
        initializing: 34,
        ..t.counts
    };
    t.records = [t.records[1]; 64];
    t.lists.candidates = front(places(0, 1, candidates));
    t.lists.old = places(0, 1, 1);
    t
}

// A count of 33 is above the candidates' 32 places; of 32 the last is close.
fn many(rt: &impl Print) -> io::Result<()> {
    let mut distances = [2.0; 33];
    distances[31] = 0.5;
    of_candidates(rt, &distances)?;
    of_candidates(rt, &distances[..32])
}

// As many candidates as distances to the one old record.
fn of_candidates(rt: &impl Print, distances: &[f64]) -> io::Result<()> {
    let t = crowd(distances.len());
    let before = [0.25; 960];
    let mut storage = before;
    let mut active = [77; 64];
    let a = tracker::reid(t, &mut storage, distances, &mut active);
    let kept = a.table.same(&t) && storage.same(&before) && active == [77; 64];
    println!(rt;
        "step 3, candidates {}: {}, records {}, {}",
        distances.len(),
        number_of(&a),
        a.table.counts.records,
        told(kept)
    )
}
