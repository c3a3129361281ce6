// Step 2: match, hit, open: docs/RULES.md, rules 40 to 48. It decides by crate passes and then writes.
#![tactic(auto)]

pub mod changing;
pub mod listing;
pub mod stepping;

use matching::{Numbers, Picks};
use pairs::Pair;
use parts::TrackedObject;
use table::refusals::Refusal;
use table::{Counts, Table};

// Both passes' picks, and the detections to open.
#[derive(Clone, Copy)]
pub struct Decided {
    pub first: Picks,
    pub second: Picks,
    pub left: Numbers<64>,
}

// The records and the counts as hits and openings leave them.
#[derive(Clone, Copy)]
pub struct Stepped {
    pub records: [TrackedObject; 64],
    pub counts: Counts,
}

// What step 2 answers, its pairs by value: those up to the count, and nothing behind. No Result: a refused call gives the table back too (rule 12).
#[derive(Clone, Copy)]
pub struct Matched {
    pub pairs: [Pair; 32],
    pub count: usize,
    pub refusal: Option<Refusal>,
    pub table: Table,
}
