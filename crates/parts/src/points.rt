// Rules 32, 45 and 46: the point counters and the seen flags of a record.
ghost use Rattle.std.specs.Prelude.{◌≡◌, ◌≤◌, ◌<◌, length};
ghost use Rattle.parts.specs.Points.{above, with_flag, has_flag, points_fallen, points_hit, flags_set};
ghost use Rattle.parts.specs.Ranges.{PointsInRange};

use filter::detection::LentDetection;

// Whether a point counts as seen: by its score, or without scores as the caller says.
fn is_above(has_scores: bool, threshold: f64, without: bool, score: f64) -> bool
    ensures { result ≡ above has_scores threshold without score }
{
    if has_scores {
        score > threshold
    } else {
        without
    }
}

// Point i's flag set: bit i by shift and or.
fn set_flag(flags: u16, i: usize) -> u16
    requires { i < 16 }
    ensures { result ≡ with_flag i flags }
{
    flags | (1u16 << i)
}

// Point i's flag, read by mask.
pub fn seen(flags: u16, i: usize) -> bool
    requires { i < 16 }
    ensures { result ≡ has_flag i flags }
{
    (flags >> i) & 1 == 1
}

// The counters of the first n points, each one less but not below 0.
#[tactic(auto, using(laws::proofs::Turns::turns_next), unfolding(crate::specs::Points::points_fallen, laws::specs::Turns::turns))]
pub fn fall_points(mut counters: [u32; 16], n: usize) -> [u32; 16]
    requires { n ≤ 16 }
    ensures { result ≡ points_fallen n counters }
{
    for counter in &mut counters[..n] {
        *counter = counter.saturating_sub(1);
    }
    counters
}

// The counters of the points that a hit saw.
#[tactic(auto, using(laws::proofs::Turns::turns_next, crate::proofs::PointLaws::hit_in_range), unfolding(crate::specs::Points::points_hit, laws::specs::Turns::turns))]
pub fn hit_points(
    mut counters: [u32; 16],
    n: usize,
    threshold: f64,
    d: LentDetection<'_>,
    period: u32,
    maximum: u32,
) -> [u32; 16]
    requires { (n ≤ 16) × (n ≤ length d.scores.now) × (period ≤ 1000) × (maximum ≤ 10000) × PointsInRange n counters }
    ensures { result ≡ points_hit n d.entry.has_scores threshold d.entry.scores.now period maximum counters }
{
    for i in 0..n {
        if is_above(d.has_scores, threshold, 1.0 > threshold, d.scores[i]) {
            counters[i] = (counters[i] + period).min(maximum);
        }
    }
    counters
}

// The flags of the first n points that are above the threshold, set; without scores all or none, as the caller says.
#[tactic(auto, using(laws::proofs::Turns::turns_next), unfolding(crate::specs::Points::flags_set, laws::specs::Turns::turns))]
pub fn set_flags(
    mut flags: u16,
    n: usize,
    threshold: f64,
    without: bool,
    d: LentDetection<'_>,
) -> u16
    requires { (n ≤ 16) × (n ≤ length d.scores.now) }
    ensures { result ≡ flags_set n d.entry.has_scores threshold without d.entry.scores.now flags }
{
    for (i, score) in d.scores[..n].iter().enumerate() {
        if is_above(d.has_scores, threshold, without, *score) {
            flags = set_flag(flags, i);
        }
    }
    flags
}
