// Step 3: ReID and the active list: docs/RULES.md, rules 60 to 65. A core on a table that passed its checks, with its floats.
#![tactic(auto)]

pub mod active;
pub mod checks;
pub mod merging;

ghost use Rattle.std.specs.Prelude.{◌≡◌, ◌≤◌, length};
ghost use Rattle.matching.specs.Lent.{picks_of};
ghost use Rattle.reid.specs.Step.{merges, reid_table, reid_floats, Meets, Ready};

use matching::Picks;
use matching::matrix::LentMatrix;
use parts::settings::Settings;
use table::{Counts, Kept, Phase, Table, making};

// The picks of step 3, by places in the table.
fn decide(t: &Table, distances: &[f64]) -> Picks
    requires { Meets t.now (length distances.now) × (t.now.counts.records ≤ 64) }
    ensures { result ≡ picks_of (merges t.now distances.now) }
{
    let m = LentMatrix {
        entries: distances,
        rows: checks::candidates_met(t.config, t.lists.candidates.count),
        cols: t.lists.old.count,
        threshold: t.config.reid_distance_threshold,
    };
    let picks = matching::match_detections_and_objects(m, [false; 32], [false; 64]);
    merging::places_of(&t.lists.candidates, &t.lists.old, &picks)
}

// Step 3 on a table that passed its checks.
pub fn reid_table(t: Table, s: &mut [f64], distances: &[f64]) -> Table
    requires { Ready t (length s.old) (length distances.now) }
    ensures value { result ≡ reid_table t s.old distances.now }
    ensures s_after { s.new ≡ reid_floats t s.old distances.now }
{
    let settings = Settings { config: t.config };
    let n = t.counts.records;
    let places = decide(&t, distances);
    let records = merging::merge_each(settings, t.records, n, s, &places);
    let mut kept = Kept { records, count: n };
    merging::drop_absorbed(settings, &mut kept, s, &places);
    let records = kept.records;
    Table {
        records,
        counts: Counts {
            records: kept.count,
            ..t.counts
        },
        phase: Phase::Predict,
        lists: making::no_lists(),
        ..t
    }
}
