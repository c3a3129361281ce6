// The table of records and the counts kept beside it, the refusal numbers, and when a table is whole: docs/RULES.md, rules 3, 10 to 14, 20 and 21.
#![tactic(auto)]

pub mod listed;
pub mod making;
pub mod ranges;
pub mod refusals;
pub mod staying;
pub mod wholeness;

use matching::Numbers;
use parts::{TrackedObject, TrackerConfig};
use refusals::Refusal;

// Which step is next.
#[derive(Clone, Copy, PartialEq, Eq)]
pub enum Phase {
    Predict,
    Match,
    Reid,
}

// How many records are in the table, frames begun and records opened; and the next permanent, global and initializing ID.
#[derive(Clone, Copy, Default, PartialEq, Eq)]
pub struct Counts {
    pub records: usize,
    pub frames: u32,
    pub opened: u32,
    pub permanent: u32,
    pub global: u32,
    pub initializing: u32,
}

// The lists kept between steps, of places in the table: from step 1 the alive, the initializing and the dead; from step 2 the old ones and the candidates, those hit in pass 2 in hit order: at most one for each of 32 detections.
#[derive(Clone, Copy, PartialEq, Eq)]
pub struct Lists {
    pub alive: Numbers<64>,
    pub initializing: Numbers<64>,
    pub dead: Numbers<64>,
    pub old: Numbers<64>,
    pub candidates: Numbers<32>,
}

#[derive(Clone, Copy)]
pub struct Table {
    pub records: [TrackedObject; 64],
    pub config: TrackerConfig,
    pub counts: Counts,
    pub phase: Phase,
    pub lists: Lists,
}

// The records at hand of a table, and how many: as a step finds them, and after some left. No heap: an array and a count.
#[derive(Clone, Copy)]
pub struct Kept {
    pub records: [TrackedObject; 64],
    pub count: usize,
}

// What a call answers: the refusal, if one is due, how many entries of an output it wrote, and the table. No Result: a refused call gives the table back too, and a refused making the table of zeros (rule 12).
#[derive(Clone, Copy)]
pub struct Answer {
    pub refusal: Option<Refusal>,
    pub count: usize,
    pub table: Table,
}
