// The optimized filter of filter/optimized.rs, on a record's block of the lent storage: docs/RULES.md, rules 4 and 50 to 55.
#![tactic(auto)]

pub mod detection;

ghost use Rattle.std.specs.Prelude.{◌≡◌, ℕ, ◌*◌, ◌<◌, ◌≤◌, length};
ghost use Rattle.filter.specs.declared.Coordinate.{Coordinate};
ghost use Rattle.filter.specs.Settings.{defaults};
ghost use Rattle.filter.specs.Coordinate.{started, predicted, updated};
ghost use Rattle.filter.specs.Mask.{some_at_most, mask_exists, observed};
ghost use Rattle.filter.specs.Block.{coordinate_at, with_coordinate, each, made_block, predicted_block, updated_block};

use detection::LentDetection;

// The five filter settings. Each may be any float.
#[derive(Clone, Copy)]
pub struct FilterSettings {
    pub r: f64,
    pub q: f64,
    pub pos_variance: f64,
    pub pos_vel_covariance: f64,
    pub vel_variance: f64,
}

impl FilterSettings {
    pub const R: f64 = 4.0;

    pub const Q: f64 = 0.1;

    pub const POS_VARIANCE: f64 = 10.0;

    pub const POS_VEL_COVARIANCE: f64 = 0.0;

    pub const VEL_VARIANCE: f64 = 1.0;
}

impl Default for FilterSettings {
    ghost is_default = { λ x. x ≡ defaults };

    fn default() -> Self
        ensures { result ≡ defaults }
    {
        FilterSettings {
            r: Self::R,
            q: Self::Q,
            pos_variance: Self::POS_VARIANCE,
            pos_vel_covariance: Self::POS_VEL_COVARIANCE,
            vel_variance: Self::VEL_VARIANCE,
        }
    }
}

// The numbers kept of one coordinate: the filter's five, and the shown velocity.
#[derive(Clone, Copy)]
pub struct Coordinate {
    pub x: f64,
    pub velocity: f64,
    pub pos: f64,
    pub cov: f64,
    pub vel: f64,
    pub shown: f64,
}

impl Coordinate {
    // A new record's coordinate at z.
    fn start(f: FilterSettings, z: f64) -> Self
        ensures { result ≡ started f z }
    {
        Coordinate {
            x: z,
            velocity: 0.0,
            pos: f.pos_variance,
            cov: f.pos_vel_covariance,
            vel: f.vel_variance,
            shown: 0.0,
        }
    }

    fn predict(self) -> Self
        ensures { result ≡ predicted self }
    {
        Coordinate {
            x: self.x + self.velocity,
            shown: self.velocity,
            ..self
        }
    }

    // The update by z; d is 1, or 0 where the coordinate's point is masked.
    fn update(self, f: FilterSettings, z: f64, d: f64) -> Self
        ensures { result ≡ updated f z d self }
    {
        let s = self.cov + self.vel;
        let a = self.pos + self.cov + s + f.q + f.r;
        let k = f.r / a;
        let g = s / a;
        let m = a * (1.0 - d) + f.r * d;
        let e = (z - self.x) * d;
        Coordinate {
            x: self.x + d * (1.0 - k) * e,
            velocity: self.velocity + d * g * e,
            pos: (1.0 - k) * m,
            cov: g * m,
            vel: self.vel + (f.q - d * g * g * a),
            ..self
        }
    }

    // Coordinate j of a block of n. The block stays a lent slice beside a number: a struct of both, with a ghost field on its length, is no plainer.
    fn read(block: &[f64], n: usize, j: usize) -> Self
        requires { (j < n) × (6 * n ≤ length block.now) }
        ensures { result ≡ coordinate_at n j block.now }
    {
        Coordinate {
            x: block[j],
            velocity: block[n + j],
            pos: block[2 * n + j],
            cov: block[3 * n + j],
            vel: block[4 * n + j],
            shown: block[5 * n + j],
        }
    }

    // Stores it as coordinate j of a block of n.
    #[tactic(auto, unfolding(crate::specs::Block::with_coordinate))]
    fn put(self, block: &mut [f64], n: usize, j: usize)
        requires { (j < n) × (6 * n ≤ length block.old) }
        ensures { block.new ≡ with_coordinate n j self block.old }
    {
        block[j] = self.x;
        block[n + j] = self.velocity;
        block[2 * n + j] = self.pos;
        block[3 * n + j] = self.cov;
        block[4 * n + j] = self.vel;
        block[5 * n + j] = self.shown;
    }
}

// Whether some score is at most the threshold; a NaN never is.
fn some_at_most(threshold: f64, scores: &[f64]) -> bool
    ensures { result ≡ some_at_most threshold scores.now }
{
    scores.iter().any(|score| *score <= threshold)
}

// Whether a mask exists: scores are present and one is at most the threshold.
#[tactic(auto, unfolding(crate::specs::Mask::mask_exists))]
fn needs_mask(d: LentDetection<'_>, threshold: f64) -> bool
    ensures { result ≡ mask_exists d.entry.has_scores threshold d.entry.scores.now }
{
    d.has_scores && some_at_most(threshold, d.scores)
}

// The d of a coordinate whose point has this score.
fn diagonal(mask: bool, threshold: f64, score: f64) -> f64
    ensures { result ≡ observed mask threshold score }
{
    if !mask || score > threshold { 1.0 } else { 0.0 }
}

// Makes each coordinate of a block of n anew by `step`, from its number and what it was.
fn change_each<F: Fn(usize, Coordinate) -> Coordinate>(block: &mut [f64], n: usize, step: F)
    requires room { 6 * n ≤ length block.old }
    requires callable { (j : ℕ) (c : Coordinate) → j < n → F.pre step j c }
    ensures { (g : ℕ → Coordinate → Coordinate)
        → ((j : ℕ) (c r : Coordinate) → j < n → F.post step j c r → r ≡ g j c)
        → block.new ≡ each g n block.old }
{
    for j in 0..n {
        step(j, Coordinate::read(block, n, j)).put(block, n, j);
    }
}

// The filter of a new record: n positions from a detection's points, all else from the settings.
pub fn make(block: &mut [f64], n: usize, f: FilterSettings, points: &[f64])
    requires { (6 * n ≤ length block.old) × (n ≤ length points.now) }
    ensures { block.new ≡ made_block f points.now n block.old }
{
    change_each(block, n, |j, _| Coordinate::start(f, points[j]));
}

// Each position gains its velocity, and the shown velocity is copied.
pub fn predict(block: &mut [f64], n: usize)
    requires { 6 * n ≤ length block.old }
    ensures { block.new ≡ predicted_block n block.old }
{
    change_each(block, n, |_, c| c.predict());
}

// The update of a record's filter by a detection of points of k coordinates each.
pub fn update(
    block: &mut [f64],
    n: usize,
    f: FilterSettings,
    k: usize,
    threshold: f64,
    d: LentDetection<'_>,
)
    requires { (0 < k) × (6 * n ≤ length block.old) × (n ≤ length d.points.now) × (n ≤ length d.scores.now * k) }
    ensures { block.new ≡ updated_block f k d.entry.points.now d.entry.has_scores threshold d.entry.scores.now n block.old }
{
    let mask = needs_mask(d, threshold);
    change_each(block, n, |j, c| {
        let seen = diagonal(mask, threshold, d.scores[j / k]);
        c.update(f, d.points[j], seen)
    });
}
