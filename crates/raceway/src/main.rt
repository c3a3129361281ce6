// The main job: a raceway of made-up fish, frame by frame through the public calls, in the order in which a host makes them.
#![tactic(auto)]

mod measuring;
mod story;
mod telling;

use std::io;
use tracker::{FilterSettings, LentFrame, Pair, Table, TrackerConfig};

// One point of two coordinates, 8 records, no history: 8 blocks of 15 floats. A fish counts at its third sighting, and its record is dead after four misses.
fn settings() -> TrackerConfig {
    TrackerConfig {
        points: 1,
        dims: 2,
        capacity: 8,
        past_detections_length: 0,
        hit_counter_max: 3,
        initialization_delay: 2,
        pointwise_hit_counter_max: 4,
        reid_hit_counter_max: Some(10),
        distance_threshold: 6.0,
        detection_threshold: 0.0,
        reid_distance_threshold: 20.0,
        has_reid_distance: true,
        filter: FilterSettings::default(),
    }
}

// A frame in which fish are seen at these points, two coordinates each. The host keeps the table that comes back for the next frame.
fn frame(
    rt: &(impl Print + AllocGlobal),
    table: Table,
    storage: &mut [f64],
    points: &[f64],
) -> io::Result<Table> {
    let alloc = rt.alloc();
    // step 1
    let stepped = tracker::predict(table, storage).table;
    // the host measures: detections by records
    let distances = measuring::detections_by_records(alloc, points, &stepped, storage)?;
    // step 2: period 1, every score 1, room for 32 pairs
    let seen = points.len() / 2;
    let scores = vec![in alloc; 1.0; seen]?;
    let has_scores = vec![in alloc; 1; seen]?;
    let lent = LentFrame {
        period: 1,
        points,
        scores: &scores,
        has_scores: &has_scores,
        distances: &distances,
    };
    let mut pairs = [Pair::default(); 32];
    let matched = tracker::match_detections(stepped, storage, seen, lent, &mut pairs);
    // the host measures: candidates by old ones, at the places that step 2 listed
    let reid_distances = measuring::candidates_by_old_ones(alloc, &matched.table, storage)?;
    // step 3
    let mut active = [0; 8];
    let last = tracker::reid(matched.table, storage, &reid_distances, &mut active);
    // what became known
    telling::hits(rt, &pairs[..matched.count])?;
    telling::active(rt, &active[..last.count])?;
    telling::refusal(rt, last.refusal)?;
    print!(rt; ", total {}", telling::total(&last.table))?;
    telling::merges(rt, &matched.table, &last.table)?;
    Ok(last.table)
}

fn main(rt: HostRuntime) -> io::Result<()> {
    let mut storage = [0.0; 120];
    let mut table = tracker::new(settings(), &storage).table;
    println!(rt; "a pair is detection-record/pass")?;
    for n in 1..=12 {
        print!(rt; "frame {n}")?;
        let total = telling::total(&table);
        let points = story::camera(rt.alloc(), n)?;
        table = frame(&rt, table, &mut storage, &points)?;
        telling::news(&rt, &table, total)?;
        println!(rt;)?;
    }
    Ok(())
}
