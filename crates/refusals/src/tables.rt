// The tables that the calls are given.
use filter::FilterSettings;
use matching::Numbers;
use parts::{Origin, TrackedObject, TrackerConfig};
use std::array;
use table::{Counts, Phase, Table};

// As many frames as may begin.
pub(crate) const MOST_FRAMES: u32 = 200_000_000;

// One point of two coordinates, two records, no history: 2 blocks of 15 floats.
pub(crate) fn good() -> TrackerConfig {
    TrackerConfig {
        points: 1,
        dims: 2,
        capacity: 2,
        past_detections_length: 0,
        hit_counter_max: 15,
        initialization_delay: 7,
        pointwise_hit_counter_max: 4,
        reid_hit_counter_max: None,
        distance_threshold: 1.0,
        detection_threshold: 0.0,
        reid_distance_threshold: 1.0,
        has_reid_distance: false,
        filter: FilterSettings::default(),
    }
}

// The table of a making with floats for 64 records.
pub(crate) fn made(config: TrackerConfig) -> Table {
    tracker::new(config, &[0.0; 960]).table
}

// What a refused making returns.
pub(crate) fn zeros() -> Table {
    made(TrackerConfig {
        points: 0,
        initialization_delay: -2,
        ..good()
    })
}

// A list of so many places: the first two are given, each other is its own number.
pub(crate) fn places(first: usize, second: usize, count: usize) -> Numbers<64> {
    let mut at = array::from_fn(|i| i);
    at[0] = first;
    at[1] = second;
    Numbers { at, count }
}

fn opened(o: TrackedObject, id: u32) -> TrackedObject {
    let origin = Origin {
        global_id: id,
        initializing_id: id,
        initial_period: 1,
    };
    TrackedObject { origin, ..o }
}

// A table with these settings and n records, all of them alive, in this phase.
pub(crate) fn holding(config: TrackerConfig, n: usize, phase: Phase) -> Table {
    let mut t = made(config);
    let blank = t.records[0];
    t.records[0] = opened(blank, 1);
    t.records[1] = opened(blank, 2);
    t.counts = Counts {
        records: n,
        opened: 2,
        global: 3,
        initializing: 3,
        ..t.counts
    };
    t.phase = phase;
    t.lists.alive = places(0, 1, n);
    t
}

pub(crate) fn framed(mut t: Table, frames: u32) -> Table {
    t.counts.frames = frames;
    t
}
