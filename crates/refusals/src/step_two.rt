// Bad input to step 2: each refusal alone and in pairs, with table, storage and pair list compared afterwards; then what it accepts at its ends.
ghost use Rattle.std.specs.Prelude.{◌<◌, ◌≤◌};

use crate::fault::{Faults, each_two};
use crate::same::Same;
use crate::tables::{MOST_FRAMES, good, holding};
use crate::{number_of, told};
use pairs::Pair;
use parts::TrackerConfig;
use std::fmt::Display;
use std::io;
use table::{Answer, Counts, Phase, Table};
use tracker::{LentFrame, Refusal};

// A table in step 2, and how it is called: the floats and the pair places that are lent, the coordinates that are left out, and one that is given.
#[derive(Clone, Copy)]
struct Case {
    table: Table,
    floats: usize,
    period: u32,
    detections: usize,
    short: usize,
    places: usize,
    coordinate: f64,
    ghost floats_are_there: { floats ≤ 30 },
    ghost some_detections: { 0 < detections },
    ghost detections_are_there: { detections ≤ 33 },
    ghost at_most_one_short: { short ≤ 1 },
    ghost places_are_there: { places ≤ 40 },
}

const UNTOUCHED: Pair = Pair {
    detection: 77,
    global_id: 78,
    pass: 79,
    distance: 0.75,
};

// The order in which step 2 asks.
const IN_ORDER: [Refusal; 10] = [
    Refusal::TableNotWhole,
    Refusal::StorageShort,
    Refusal::OutOfStep,
    Refusal::Period,
    Refusal::TooManyDetections,
    Refusal::Lengths,
    Refusal::OutputShort,
    Refusal::NotFinite,
    Refusal::TableFull,
    Refusal::IdsUsedUp,
];

fn good_case() -> Case {
    Case {
        table: holding(good(), 1, Phase::Match),
        floats: 30,
        period: 1,
        detections: 2,
        short: 0,
        places: 32,
        coordinate: 1.0,
    }
}

// The case with one fault.
fn with_fault(mut c: Case, fault: Refusal) -> Case {
    match fault {
        Refusal::TableNotWhole => c.table.counts.frames = MOST_FRAMES + 1,
        Refusal::StorageShort => c.floats = 14,
        Refusal::OutOfStep => c.table.phase = Phase::Predict,
        Refusal::Period => c.period = 1001,
        Refusal::TooManyDetections => c.detections = 33,
        Refusal::Lengths => c.short = 1,
        Refusal::OutputShort => c.places = 31,
        Refusal::NotFinite => c.coordinate = f64::NAN,
        Refusal::TableFull => c.table.config.capacity = 1,
        Refusal::IdsUsedUp => {
            c.table.counts = Counts {
                opened: 2_000_000_000,
                global: 2_000_000_001,
                initializing: 2_000_000_001,
                ..c.table.counts
            };
        }
        // the refusals of making and of step 1
        Refusal::DelayNegative
        | Refusal::DelayTooLong
        | Refusal::SettingOutOfRange
        | Refusal::FramesUsedUp => {}
    }
    c
}

// What step 2 answers to a case, and whether anything changed.
fn run(rt: &impl Print, name: impl Display + Drop, c: Case) -> io::Result<()> {
    let before = [0.25; 30];
    let mut storage = before;
    let mut pairs = [UNTOUCHED; 40];
    let mut points = [1.0; 66];
    points[1] = c.coordinate;
    let lent = LentFrame {
        period: c.period,
        points: &points[..2 * c.detections - c.short],
        scores: &[1.0; 33][..c.detections],
        has_scores: &[1; 33][..c.detections],
        distances: &[0.5; 33][..c.detections],
    };
    let a = tracker::match_detections(
        c.table,
        &mut storage[..c.floats],
        c.detections,
        lent,
        &mut pairs[..c.places],
    );
    let kept = a.table.same(&c.table) && storage.same(&before) && pairs.same(&[UNTOUCHED; 40]);
    println!(rt; "step 2, {name}: {}, {}", number_of(&a), told(kept))
}

// Each refusal alone, and each two of them: the first in order answers.
pub(crate) fn faults(rt: &impl Print) -> io::Result<()> {
    run(rt, "good", good_case())?;
    each_two(&IN_ORDER, |both| {
        let Faults(first, second) = both;
        run(rt, both, with_fault(with_fault(good_case(), second), first))
    })
}

// What step 2 answered: refusal, records in the table, records opened, and the pairs listed.
fn show(rt: &impl Print, name: &str, a: Answer, pairs: &[Pair]) -> io::Result<()> {
    print!(rt;
        "step 2, {name}: {}, records {}, opened {}, pairs",
        number_of(&a),
        a.table.counts.records,
        a.table.counts.opened
    )?;
    for pair in pairs.iter().take(a.count) {
        print!(rt; " ({},{},{})", pair.detection, pair.global_id, pair.pass)?;
    }
    println!(rt)
}

// Two detections, with this matrix and so many places for pairs.
fn two_detections(
    rt: &impl Print,
    name: &str,
    t: Table,
    storage: &mut [f64],
    distances: &[f64],
    places: usize,
) -> io::Result<()>
    requires { places ≤ 40 }
{
    let mut pairs = [UNTOUCHED; 40];
    let lent = LentFrame {
        period: 1,
        points: &[1.0; 4],
        scores: &[1.0; 2],
        has_scores: &[0; 2],
        distances,
    };
    let a = tracker::match_detections(t, storage, 2, lent, &mut pairs[..places]);
    show(rt, name, a, &pairs)
}

// Two detections and n records of a table with room for so many, with this threshold and this matrix.
fn two_by(
    rt: &impl Print,
    name: &str,
    capacity: usize,
    n: usize,
    distance_threshold: f64,
    distances: &[f64],
) -> io::Result<()> {
    let config = TrackerConfig {
        capacity,
        distance_threshold,
        ..good()
    };
    let t = holding(config, n, Phase::Match);
    two_detections(rt, name, t, &mut [0.25; 60], distances, 40)
}

// So many detections, and an empty table with room for 64 records.
fn so_many(rt: &impl Print, name: &str, n: usize) -> io::Result<()>
    requires { n ≤ 32 }
{
    let config = TrackerConfig {
        capacity: 64,
        ..good()
    };
    let lent = LentFrame {
        period: 1,
        points: &[1.0; 64][..2 * n],
        scores: &[1.0; 32][..n],
        has_scores: &[1; 32][..n],
        distances: &[],
    };
    let t = holding(config, 0, Phase::Match);
    let mut pairs = [UNTOUCHED; 40];
    let a = tracker::match_detections(t, &mut [0.25; 960], n, lent, &mut pairs[..32]);
    show(rt, name, a, &pairs)
}

// A full table from which step 1 drops one record, which has run out of hits, has room for one at once.
fn freed_by_a_drop(rt: &impl Print) -> io::Result<()> {
    let mut full = holding(good(), 2, Phase::Predict);
    full.records[0].life.hit_counter = -1;
    let mut storage = [0.25; 30];
    let t = tracker::predict(full, &mut storage).table;
    two_detections(
        rt,
        "room freed by a drop",
        t,
        &mut storage,
        &[0.5, 0.25],
        32,
    )
}

pub(crate) fn accepted(rt: &impl Print) -> io::Result<()> {
    so_many(rt, "0 detections", 0)?;
    so_many(rt, "32 detections", 32)?;
    full_tables(rt)?;
    freed_by_a_drop(rt)?;
    matrices(rt)?;
    thresholds(rt)
}

fn full_tables(rt: &impl Print) -> io::Result<()> {
    let one = [0.5, 0.25];
    let both = [0.5, 0.25, 0.125, 0.75];
    let left_over = [0.5, 0.25, 2.0, 2.0];
    two_by(rt, "the table just full afterwards", 2, 1, 1.0, &one)?;
    two_by(rt, "a full table, both hit", 2, 2, 1.0, &both)?;
    two_by(rt, "a full table, one left over", 2, 2, 1.0, &left_over)
}

fn matrices(rt: &impl Print) -> io::Result<()> {
    let nan = [f64::NAN; 4];
    two_by(rt, "a matrix of NaN", 4, 2, 1.0, &nan)?;
    two_by(rt, "a matrix of NaN, a full table", 2, 2, 1.0, &nan)?;
    two_by(rt, "all entries equal", 4, 2, 1.0, &[0.5; 4])
}

fn thresholds(rt: &impl Print) -> io::Result<()> {
    let nan = f64::NAN;
    let infinity = f64::INFINITY;
    for (name, threshold, distances) in [
        ("threshold NaN", nan, [0.5, 0.25, 0.5, 0.25]),
        (
            "threshold infinite",
            infinity,
            [0.5, infinity, nan, 1.0e300],
        ),
        (
            "threshold minus infinite",
            -infinity,
            [-1.0e300, -infinity, 0.0, nan],
        ),
        ("threshold negative", -1.0, [-1.0, -1.5, -0.5, -1.25]),
    ] {
        two_by(rt, name, 4, 2, threshold, &distances)?;
    }
    Ok(())
}
