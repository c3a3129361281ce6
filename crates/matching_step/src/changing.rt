// Rules 45 and 46 on a table's records and floats: the hits of a pass in pick order, and the openings by ascending number.
// What fits a frame and what holds of picks stays in the clauses: it ties them to the settings and to the table at hand, so that a struct for it would hold all of these. Records are lent as `Stepped`, the table's own array and its counts: fixed memory is a rule of the project, and the array is not copied for each pass.
ghost use Rattle.std.specs.Prelude.{◌≡◌, ◌+◌, ◌*◌, ◌<◌, ◌≤◌, length, take, drop};
ghost use Rattle.std.proofs.Math.Seq.{paste};
ghost use Rattle.laws.specs.Turns.{through};
ghost use Rattle.parts.specs.Layout.{coords, block_size};
ghost use Rattle.parts.specs.Ranges.{ObjectInRange};
ghost use Rattle.tracked_object.specs.Object.{detection_of, changed_by_hit, block_hit, changed_by_opening, block_opened};
ghost use Rattle.table.specs.Slots.{slots, floats_back};
ghost use Rattle.passes.specs.Checks.{lent_frame};
ghost use Rattle.passes.specs.Passes.{numbers};
ghost use Rattle.matching.specs.Lent.{picked};
ghost use Rattle.laws.specs.Lists.{EachBelow};
ghost use Rattle.matching_step.specs.Step.{State, lent_detection, hit_one, open_one, issuing, opening, Fits, Holds, stepped_of};

use crate::Stepped;
use filter::detection::LentDetection;
use matching::{Numbers, Picks};
use parts::settings::Settings;
use parts::{Changed, Origin, TrackedObject, block};
use passes::frame::LentFrame;
use table::Counts;

// The i-th of the parts of one size that floats are lent in.
fn part_of(s: &[f64], i: usize, size: usize) -> &[f64]
    requires { i * size + size ≤ length s.now }
    ensures { result.now ≡ take size (drop (i * size) s.now) }
{
    &s[i * size..i * size + size]
}

// Detection d of the frame.
fn detection_at<'a>(settings: Settings, f: LentFrame<'a>, d: usize) -> LentDetection<'a>
    requires { Fits settings.config (lent_frame f) × (d < length f.has_scores.now) }
    ensures value { detection_of result ≡ lent_detection settings.config (lent_frame f.entry) d }
    ensures points { length result.points.now ≡ coords settings.config }
    ensures scores { length result.scores.now ≡ settings.config.points }
{
    LentDetection {
        points: part_of(f.points, d, block::layout_of(settings).coords),
        scores: part_of(f.scores, d, settings.config.points),
        has_scores: f.has_scores[d] != 0,
    }
}

// Record o, whose block is the k-th, hit by detection d.
fn hit_at(
    settings: Settings,
    o: TrackedObject,
    s: &mut [f64],
    k: usize,
    f: LentFrame<'_>,
    d: usize,
    distance: f64,
    next_id: u32,
) -> Changed
    requires { Fits settings.config (lent_frame f) × (d < length f.has_scores.now) × ObjectInRange settings.config o × (k * block_size settings.config + block_size settings.config ≤ length s.old) }
    ensures value { result ≡ changed_by_hit settings.config (lent_detection settings.config (lent_frame f.entry) d) f.entry.period distance next_id o }
    ensures s_after { s.new ≡ paste s.old (k * block_size settings.config) (block_hit settings.config (lent_detection settings.config (lent_frame f.entry) d) o.past_count (take (block_size settings.config) (drop (k * block_size settings.config) s.old))) (block_size settings.config) }
{
    let detection = detection_at(settings, f, d);
    let size = block::layout_of(settings).size;
    let start = k * size;
    tracked_object::hit(
        settings,
        o,
        &mut s[start..start + size],
        detection,
        f.period,
        distance,
        next_id,
    )
}

// A record opened by detection d in the k-th block.
fn open_at(
    settings: Settings,
    s: &mut [f64],
    k: usize,
    f: LentFrame<'_>,
    d: usize,
    counts: Counts,
) -> Changed
    requires { Fits settings.config (lent_frame f) × (d < length f.has_scores.now) × (k * block_size settings.config + block_size settings.config ≤ length s.old) }
    ensures value { result ≡ changed_by_opening settings.config (lent_detection settings.config (lent_frame f.entry) d) f.entry.period counts.global counts.initializing counts.permanent }
    ensures s_after { s.new ≡ paste s.old (k * block_size settings.config) (block_opened settings.config (lent_detection settings.config (lent_frame f.entry) d) (take (block_size settings.config) (drop (k * block_size settings.config) s.old))) (block_size settings.config) }
{
    let detection = detection_at(settings, f, d);
    let size = block::layout_of(settings).size;
    let start = k * size;
    let origin = Origin {
        global_id: counts.global,
        initializing_id: counts.initializing,
        initial_period: f.period,
    };
    tracked_object::open(
        settings,
        &mut s[start..start + size],
        detection,
        origin,
        counts.permanent,
    )
}

// The next permanent ID was taken, or not.
fn issue(mut counts: Counts, took: bool) -> Counts
    requires { counts.permanent ≤ 4000000000 }
    ensures { result ≡ issuing took counts }
{
    if took {
        counts.permanent += 1;
    }
    counts
}

// One record more, with its IDs.
fn count_opening(counts: Counts, took: bool) -> Counts
    requires { (counts.records ≤ 63) × (counts.opened ≤ 4000000000) × (counts.permanent ≤ 4000000000) × (counts.global ≤ 4000000000) × (counts.initializing ≤ 4000000000) }
    ensures { result ≡ opening took counts }
{
    let more = Counts {
        records: counts.records + 1,
        opened: counts.opened + 1,
        global: counts.global + 1,
        initializing: counts.initializing + 1,
        ..counts
    };
    issue(more, took)
}

// The hits of a pass, in pick order.
pub fn hit_each(
    settings: Settings,
    stepped: &mut Stepped,
    s: &mut [f64],
    f: LentFrame<'_>,
    picks: &Picks,
)
    requires { Fits settings.config (lent_frame f) × Holds settings.config stepped.old.counts.records stepped.old.records (length s.old) × (length f.distances.now ≡ length f.has_scores.now * stepped.old.counts.records) × (picks.now.count ≤ 32) × EachBelow (length f.has_scores.now) picks.now.count picks.now.rows × EachBelow stepped.old.counts.records picks.now.count picks.now.cols × (stepped.old.counts.permanent ≤ 3000000000) }
    ensures value { stepped.new ≡ stepped_of (through (hit_one settings.config (lent_frame f.entry) stepped.old.counts.records) (picked picks.now) (record { slots = slots (block_size settings.config) stepped.old.records s.old stepped.old.counts.records; counts = stepped.old.counts })) stepped.old.records }
    ensures s_after { s.new ≡ floats_back (block_size settings.config) (through (hit_one settings.config (lent_frame f.entry) stepped.old.counts.records) (picked picks.now) (record { slots = slots (block_size settings.config) stepped.old.records s.old stepped.old.counts.records; counts = stepped.old.counts })).slots s.old }
{
    let n = stepped.counts.records;
    for i in 0..picks.count {
        let d = picks.rows[i];
        let k = picks.cols[i];
        let distance = f.distances[d * n + k];
        let next_id = stepped.counts.permanent;
        let record = &mut stepped.records[k];
        let changed = hit_at(settings, *record, s, k, f, d, distance, next_id);
        *record = changed.object;
        stepped.counts = issue(stepped.counts, changed.issued);
    }
}

// The leftover detections open records at the table's end, by ascending number.
pub fn open_each(
    settings: Settings,
    stepped: &mut Stepped,
    s: &mut [f64],
    f: LentFrame<'_>,
    left: &Numbers<64>,
)
    requires { Fits settings.config (lent_frame f) × (stepped.old.counts.records + left.now.count ≤ 64) × ((stepped.old.counts.records + left.now.count) * block_size settings.config ≤ length s.old) × EachBelow (length f.has_scores.now) left.now.count left.now.at × (stepped.old.counts.opened ≤ 3000000000) × (stepped.old.counts.permanent ≤ 3000000000) × (stepped.old.counts.global ≤ 3000000000) × (stepped.old.counts.initializing ≤ 3000000000) }
    ensures value { stepped.new ≡ stepped_of (through (open_one settings.config (lent_frame f.entry) s.old) (numbers left.now) (record { slots = slots (block_size settings.config) stepped.old.records s.old stepped.old.counts.records; counts = stepped.old.counts })) stepped.old.records }
    ensures s_after { s.new ≡ floats_back (block_size settings.config) (through (open_one settings.config (lent_frame f.entry) s.old) (numbers left.now) (record { slots = slots (block_size settings.config) stepped.old.records s.old stepped.old.counts.records; counts = stepped.old.counts })).slots s.old }
{
    for d in &left.at[..left.count] {
        let k = stepped.counts.records;
        let changed = open_at(settings, s, k, f, *d, stepped.counts);
        stepped.records[k] = changed.object;
        stepped.counts = count_opening(stepped.counts, changed.issued);
    }
}
