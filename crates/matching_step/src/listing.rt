// Rule 47: the pairs of a pass, in hit order.
ghost use Rattle.std.specs.Prelude.{◌≡◌, ◌++◌, map, ◌+◌, ◌*◌, ◌≤◌, length, take};
ghost use Rattle.laws.specs.Lists.{EachBelow, filled};
ghost use Rattle.passes.specs.Checks.{lent_frame};
ghost use Rattle.matching.specs.Lent.{picked};
ghost use Rattle.matching_step.specs.Step.{pair_of, no_pair};

use matching::Picks;
use pairs::Pair;
use parts::TrackedObject;
use passes::frame::LentFrame;

// The pairs of a pass behind those that stand in front already. Rows and columns are two plain arrays of the matcher (docs/DECISIONS.md, 9 and 41).
pub fn add_pairs(
    mut pairs: [Pair; 32],
    start: usize,
    records: &[TrackedObject; 64],
    n: usize,
    f: LentFrame<'_>,
    detections: usize,
    picks: &Picks,
    pass: u32,
) -> [Pair; 32]
    requires { (start + picks.now.count ≤ 32) × (detections ≤ 32) × (n ≤ 64) × (length f.distances.now ≡ detections * n) × EachBelow detections picks.now.count picks.now.rows × EachBelow n picks.now.count picks.now.cols × (pairs ≡ filled 32 no_pair (take start pairs)) }
    ensures { result ≡ filled 32 no_pair (take start pairs ++ map (pair_of records.now (lent_frame f.entry) n pass) (picked picks.now)) }
{
    for i in 0..picks.count {
        let d = picks.rows[i];
        let k = picks.cols[i];
        pairs[start + i] = Pair {
            detection: d,
            global_id: records[k].origin.global_id,
            pass,
            distance: f.distances[d * n + k],
        };
    }
    pairs
}
