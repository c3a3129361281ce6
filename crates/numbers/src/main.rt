// Rule 80: the unmarked numbers, run. Each line says what was run and what came out; the file stdout has what the page says.
#![tactic(auto)]

ghost use Rattle.std.specs.Prelude.{◌≡◌, ◌≤◌};
ghost use Rattle.parts.specs.Ranges.{AgeInRange};

mod frames;

use matching::matrix::LentMatrix;
use parts::PastDetection;
use parts::settings::Settings;
use std::{fmt, io};
use tracked_object::merging::{self, Marks};
use tracker::TrackerConfig;

// An age, or none.
#[derive(Clone, Copy)]
struct Age(Option<i32>);

impl fmt::Display for Age {
    fn fmt<W: fmt::Write>(&self, f: &mut fmt::Formatter<W>) -> fmt::Result {
        match self.0 {
            Some(age) => write!(f, "{age}"),
            None => f.write_str("none"),
        }
    }
}

fn main(rt: HostRuntime) -> io::Result<()> {
    frames::delays(&rt)?;
    row_of_zeros(&rt)?;
    frames::seventh_hit(&rt)?;
    frames::dropped_while_hit(&rt)?;
    full_history(&rt, Some(3), 12)?;
    full_history(&rt, Some(3), 11)?;
    full_history(&rt, None, 12)?;
    frames::coarse_and_fine(&rt)
}

// Row (0, -0), threshold 1: the two tie, and the first is picked.
fn row_of_zeros(rt: &impl Print) -> io::Result<()> {
    let row = [0.0, -0.0];
    let lent = LentMatrix {
        entries: &row,
        rows: 1,
        cols: 2,
        threshold: 1.0,
    };
    let picks = matching::match_detections_and_objects(lent, [false; 32], [false; 64]);
    print!(rt; "row (0, -0), threshold 1:")?;
    for (row, col) in picks.rows.iter().zip(&picks.cols).take(picks.count) {
        print!(rt; " ({row},{col})")?;
    }
    println!(rt;)
}

// One point of one coordinate and a history of 4: a block of 16 floats.
fn small_config() -> TrackerConfig
    ensures { (result.points ≡ 1) × (result.dims ≡ 1) × (result.past_detections_length ≡ 4) × (result.pointwise_hit_counter_max ≡ 4) }
{
    TrackerConfig {
        capacity: 1,
        past_detections_length: 4,
        has_reid_distance: true,
        ..frames::settings()
    }
}

// A history of 4, full, whose oldest entry has this age, and one entry more at the record's age.
fn full_history(rt: &impl Print, oldest: Option<i32>, age: u32) -> io::Result<()>
    requires { AgeInRange oldest × (age ≤ 1000) }
{
    let entry = |age: Option<i32>| PastDetection {
        age,
        has_scores: false,
    };
    let mut past = [entry(Some(5)); 8];
    past[0] = entry(oldest);
    let marks = Marks { past, count: 4 };
    let after = merging::conditionally_add_to_past_detections(
        Settings {
            config: small_config(),
        },
        marks,
        age,
        &mut [0.0; 16],
        &[1.0, 1.0],
        false,
    );
    println!(rt;
        "L 4, full, oldest age {}, at age {age}: the oldest is now {}, the newest {}",
        Age(oldest),
        Age(after.past[0].age),
        Age(after.past[3].age)
    )
}
