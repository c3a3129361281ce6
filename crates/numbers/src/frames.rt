// Rule 80: frames run through the public calls: a fish hit each frame, and a coarse run beside a fine one on the same fish.
ghost use Rattle.std.specs.Prelude.{◌≡◌, ◌<◌};

use std::alloc::{AllocError, Global};
use std::io;
use tracker::{FilterSettings, LentFrame, Refusal, Table, TrackerConfig};

// One point of one coordinate, 8 records, no history: 8 blocks of 8 floats. Maximum 15, delay 7.
pub(crate) fn settings() -> TrackerConfig
    ensures { (result.points ≡ 1) × (result.dims ≡ 1) × (result.pointwise_hit_counter_max ≡ 4) }
{
    TrackerConfig {
        points: 1,
        dims: 1,
        capacity: 8,
        past_detections_length: 0,
        hit_counter_max: 15,
        initialization_delay: 7,
        pointwise_hit_counter_max: 4,
        reid_hit_counter_max: None,
        distance_threshold: 1.0,
        detection_threshold: 0.0,
        reid_distance_threshold: 1.0,
        has_reid_distance: false,
        filter: FilterSettings::default(),
    }
}

// The distances of these fish to the first records: a record stands at the first float of its block of 8.
fn measured(
    alloc: Global,
    fish: &[f64],
    storage: &[f64],
    records: usize,
) -> Result<Vec<f64>, AllocError> {
    let mut distances = Vec::new(alloc);
    for x in fish {
        for at in storage.iter().step_by(8).take(records) {
            distances.push((x - at).abs())?;
        }
    }
    Ok(distances)
}

// A frame in which these fish are seen: predict, measure, match, and step 3 with no ReID distance declared.
fn frame(
    alloc: Global,
    table: Table,
    storage: &mut [f64],
    period: u32,
    fish: &[f64],
) -> Result<Table, AllocError> {
    let before = tracker::predict(table, storage).table;
    let seen = fish.len();
    let distances = measured(alloc, fish, storage, before.counts.records)?;
    let scores = vec![in alloc; 1.0; seen]?;
    let has_scores = vec![in alloc; 0; seen]?;
    let lent = LentFrame {
        period,
        points: fish,
        scores: &scores,
        has_scores: &has_scores,
        distances: &distances,
    };
    let pairs = by_value::no_pairs();
    let after = by_value::match_detections(before, storage, seen, lent, pairs, 40).answer;
    Ok(tracker::reid(after.table, storage, &[], &mut [0; 8]).table)
}

// The total; 0 for a table that is not whole.
fn total(table: Table) -> usize {
    tracker::total_object_count(table).unwrap_or(0)
}

// How many are active; 0 for a table that is not whole.
fn current(table: Table) -> usize {
    tracker::current_object_count(table).unwrap_or(0)
}

// Delay 7, maximum 15, period 1, hit each frame: permanent ID on the seventh hit.
pub(crate) fn seventh_hit(rt: &(impl Print + AllocGlobal)) -> io::Result<()> {
    let mut storage = [0.0; 64];
    let mut table = tracker::new(settings(), &storage).table;
    print!(rt; "delay 7, maximum 15, period 1, hit each frame: total")?;
    for hits in 0..9 {
        table = frame(rt.alloc(), table, &mut storage, 1, &[0.0])?;
        print!(rt; " {} after {hits}", total(table))?;
    }
    println!(rt; " hits")
}

// The fish in sight at a tick: three, seen at ticks 0 to 11, 3 to 6 and 6 to 11.
fn in_sight(alloc: Global, tick: u32) -> Result<Vec<f64>, AllocError> {
    let fish = [(0.0, 0..=11), (10.0, 3..=6), (20.0, 6..=11)];
    let seen = fish.iter().filter(|(_, ticks)| ticks.contains(&tick));
    seen.map(|(x, _)| *x).collect(alloc)
}

// Twelve ticks with a frame each period.
fn run(rt: &(impl Print + AllocGlobal), period: u32) -> io::Result<()>
    requires { 0 < period }
{
    let mut storage = [0.0; 64];
    let mut table = tracker::new(settings(), &storage).table;
    for tick in (0..12).step_by(period as usize) {
        let fish = in_sight(rt.alloc(), tick)?;
        table = frame(rt.alloc(), table, &mut storage, period, &fish)?;
    }
    println!(rt;
        "three fish, period {period}: total {}, current {}",
        total(table),
        current(table)
    )
}

// A coarse run beside a fine one on the same fish: the delay is counted in hits, so that the counts part.
pub(crate) fn coarse_and_fine(rt: &(impl Print + AllocGlobal)) -> io::Result<()> {
    run(rt, 1)?;
    run(rt, 3)
}

// ReID maximum 2, maximum 15, delay 0, period 1; opened in frame 1, missed in 2, hit in 3 to 6: dropped in frame 7 with hit counter 4.
pub(crate) fn dropped_while_hit(rt: &(impl Print + AllocGlobal)) -> io::Result<()> {
    let mut storage = [0.0; 64];
    let config = TrackerConfig {
        initialization_delay: 0,
        reid_hit_counter_max: Some(2),
        ..settings()
    };
    let mut table = tracker::new(config, &storage).table;
    print!(rt; "ReID maximum 2, delay 0, missed in frame 2: hit counters of frames 1 to 6")?;
    for n in 1..=6 {
        let fish: &[f64] = if n == 2 { &[] } else { &[0.0] };
        table = frame(rt.alloc(), table, &mut storage, 1, fish)?;
        print!(rt; " {}", table.records[0].life.hit_counter)?;
    }
    let last = tracker::predict(table, &mut storage).table;
    println!(rt; "; records in frame 7: {}", last.counts.records)
}

// What making answers at this delay: 0, or its refusal.
fn refusal_at(delay: i32) -> u32 {
    let config = TrackerConfig {
        initialization_delay: delay,
        ..settings()
    };
    tracker::new(config, &[0.0; 64])
        .refusal
        .map_or(0, Refusal::number)
}

// Delay 14 of 15 is accepted, 15 is refused by 2.
pub(crate) fn delays(rt: &impl Print) -> io::Result<()> {
    println!(rt;
        "maximum 15: delay 14 answers {}, delay 15 answers {}",
        refusal_at(14),
        refusal_at(15)
    )
}
