// The parts of the object record of tracked_object.rs: its types, the layout of its block, its counters, its points and its history: docs/RULES.md, rules 4, 32, 45, 46, 61 and 62.
#![tactic(auto)]

pub mod block;
pub mod counters;
pub mod past;
pub mod points;
pub mod settings;

use filter::FilterSettings;

// The settings of a tracker. A host may pass any number of its type in any field. A ReID threshold stands beside its flag: `made` gives back what a host set, and an `Option` would lose the threshold where the flag is off.
#[derive(Clone, Copy)]
pub struct TrackerConfig {
    pub points: usize,
    pub dims: usize,
    pub capacity: usize,
    pub past_detections_length: usize,
    pub hit_counter_max: i32,
    pub initialization_delay: i32,
    pub pointwise_hit_counter_max: u32,
    pub reid_hit_counter_max: Option<i32>,
    pub distance_threshold: f64,
    pub detection_threshold: f64,
    pub reid_distance_threshold: f64,
    pub has_reid_distance: bool,
    pub filter: FilterSettings,
}

// What a record's history keeps of a past detection beside its floats: its age, if it has one, and whether it has scores.
#[derive(Clone, Copy, PartialEq, Eq)]
pub struct PastDetection {
    pub age: Option<i32>,
    pub has_scores: bool,
}

// Who a record is: given at opening, and never changed.
#[derive(Clone, Copy, PartialEq, Eq)]
pub struct Origin {
    pub global_id: u32,
    pub initializing_id: u32,
    pub initial_period: u32,
}

// How a record fares: its counters (the ReID counter may be absent), whether it is initializing, and its permanent ID, once it has one.
#[derive(Clone, Copy, PartialEq, Eq)]
pub struct Life {
    pub age: u32,
    pub hit_counter: i32,
    pub reid_hit_counter: Option<i32>,
    pub is_initializing: bool,
    pub id: Option<u32>,
}

// The last detection, beside its floats: the last distance is absent before the first hit.
#[derive(Clone, Copy)]
pub struct Last {
    pub distance: Option<f64>,
    pub has_scores: bool,
}

// A record of the table. Memory is fixed, so its lists are arrays, and a count of the past; its floats are a block of the lent storage.
#[derive(Clone, Copy)]
pub struct TrackedObject {
    pub past: [PastDetection; 8],
    pub past_count: usize,
    pub point_hit_counter: [u32; 16],
    pub detected_at_least_once_points: u16,
    pub last: Last,
    pub life: Life,
    pub origin: Origin,
}

// A record after a hit or an opening, and whether it took the next permanent ID.
#[derive(Clone, Copy)]
pub struct Changed {
    pub object: TrackedObject,
    pub issued: bool,
}
