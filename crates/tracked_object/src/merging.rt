// Rules 61 and 62: an old record takes over what a candidate has.
ghost use Rattle.std.specs.Prelude.{◌≡◌, ◌≤◌, length};
ghost use Rattle.parts.specs.Layout.{width, block_size};
ghost use Rattle.parts.specs.Ranges.{ObjectInRange, AgesInRange};
ghost use Rattle.tracked_object.specs.Object.{history, takes, conditionally_added, history_merged, taken, object_merged, block_merged};

use parts::settings::Settings;
use parts::{PastDetection, TrackedObject, block, counters, past};

// The marks of a history, and how many: a part of the record's own array, which has no heap.
#[derive(Clone, Copy)]
pub struct Marks {
    pub past: [PastDetection; 8],
    pub count: usize,
}

// Whether a history takes one entry more at this age.
fn takes_entry(settings: Settings, marks: Marks, age: u32) -> bool
    requires { AgesInRange marks.count marks.past }
    ensures { result ≡ takes settings.config age marks.past marks.count }
{
    let most = settings.config.past_detections_length;
    0 < most && (marks.count < most || past::is_due(marks.past[0].age, age, most))
}

// One entry joins the history with this age, if it takes one.
#[tactic(auto, using(parts::proofs::Bounds::place_inside), unfolding(crate::specs::Object::conditionally_added))]
pub fn conditionally_add_to_past_detections(
    settings: Settings,
    marks: Marks,
    age: u32,
    s: &mut [f64],
    entry: &[f64],
    has_scores: bool,
) -> Marks
    requires { (marks.count ≤ settings.config.past_detections_length) × AgesInRange marks.count marks.past × (age ≤ 200000000) × (length entry.now ≡ width settings.config) × (length s.old ≡ block_size settings.config) }
    ensures { history result.past result.count s.new ≡ conditionally_added settings.config age has_scores entry.now (history marks.past marks.count s.old) }
{
    if !takes_entry(settings, marks, age) {
        return marks;
    }
    let at = block::layout_of(settings);
    let most = settings.config.past_detections_length;
    past::make_room(s, at.past_at, at.width, most, marks.count);
    let place = past::place_of(at.past_at, at.width, most, marks.count);
    past::write_at(s, place, entry);
    let mark = PastDetection {
        age: Some(age as i32),
        has_scores,
    };
    Marks {
        past: past::push_mark(marks.past, most, marks.count, mark),
        count: (marks.count + 1).min(most),
    }
}

// Each entry of the candidate's history in turn, oldest first.
#[tactic(auto, unfolding(laws::specs::Turns::turns))]
fn merge_past(
    settings: Settings,
    mut marks: Marks,
    age: u32,
    s: &mut [f64],
    candidate: TrackedObject,
    from: &[f64],
) -> Marks
    requires { (marks.count ≤ settings.config.past_detections_length) × AgesInRange marks.count marks.past × (age ≤ 200000000) × (candidate.past_count ≤ settings.config.past_detections_length) × (length from.now ≡ block_size settings.config) × (length s.old ≡ block_size settings.config) }
    ensures { history result.past result.count s.new ≡ history_merged settings.config age candidate from.now (history marks.past marks.count s.old) }
{
    let at = block::layout_of(settings);
    let entries = from[at.past_at..].chunks_exact(at.width);
    for (mark, entry) in candidate.past[..candidate.past_count].iter().zip(entries) {
        marks = conditionally_add_to_past_detections(
            settings,
            marks,
            age,
            s,
            entry,
            mark.has_scores,
        );
    }
    marks
}

// The filter's five numbers and the last detection as the candidate has them. The shown velocity stays.
fn take_over(settings: Settings, s: &mut [f64], from: &[f64])
    requires { (length from.now ≡ block_size settings.config) × (length s.old ≡ block_size settings.config) }
    ensures { s.new ≡ taken settings.config from.now s.old }
{
    let at = block::layout_of(settings);
    past::write_at(s, 0, &from[..5 * at.coords]);
    past::write_at(s, at.last_at, &from[at.last_at..at.past_at]);
}

#[tactic(auto, unfolding(crate::specs::Object::object_merged))]
pub fn merge(
    settings: Settings,
    o: TrackedObject,
    s: &mut [f64],
    candidate: TrackedObject,
    from: &[f64],
) -> TrackedObject
    requires { ObjectInRange settings.config o × ObjectInRange settings.config candidate × (length from.now ≡ block_size settings.config) × (length s.old ≡ block_size settings.config) }
    ensures value { result ≡ object_merged settings.config candidate from.now o s.old }
    ensures s_after { s.new ≡ block_merged settings.config candidate from.now o s.old }
{
    take_over(settings, s, from);
    let past = o.past;
    let old = Marks {
        past,
        count: o.past_count,
    };
    let Marks { past, count } = merge_past(settings, old, o.life.age, s, candidate, from);
    TrackedObject {
        past,
        past_count: count,
        life: counters::merge_life(o.life, o.origin.initial_period),
        origin: o.origin,
        ..candidate
    }
}
