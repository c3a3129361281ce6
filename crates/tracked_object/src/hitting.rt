// Rule 45: a record and its block, hit by a detection.
ghost use Rattle.std.specs.Prelude.{◌≡◌, ◌≤◌, length};
ghost use Rattle.parts.specs.Layout.{coords, block_size};
ghost use Rattle.parts.specs.Ranges.{ObjectInRange};
ghost use Rattle.tracked_object.specs.Object.{detection_of, marks_hit, object_hit, changed_by_hit, block_hit};

use filter::detection::LentDetection;
use parts::settings::Settings;
use parts::{Changed, Last, PastDetection, TrackedObject, block, counters, past, points};

// The marks of the history: with L above 0 the detection joins without an age.
fn hit_marks(
    settings: Settings,
    marks: [PastDetection; 8],
    count: usize,
    has_scores: bool,
) -> [PastDetection; 8]
    requires { count ≤ settings.config.past_detections_length }
    ensures { result ≡ marks_hit settings.config has_scores count marks }
{
    let most = settings.config.past_detections_length;
    if most == 0 {
        return marks;
    }
    let entry = PastDetection {
        age: None,
        has_scores,
    };
    past::push_mark(marks, most, count, entry)
}

// The record's own part of a hit.
#[tactic(auto, unfolding(crate::specs::Object::object_hit))]
fn hit_record(
    settings: Settings,
    o: TrackedObject,
    d: LentDetection<'_>,
    period: u32,
    distance: f64,
    next_id: u32,
) -> TrackedObject
    requires { ObjectInRange settings.config o × (length d.scores.now ≡ settings.config.points) × (period ≤ 1000) }
    ensures { result ≡ object_hit settings.config (detection_of d.entry) period distance next_id o }
{
    let config = settings.config;
    let n = config.points;
    let threshold = config.detection_threshold;
    TrackedObject {
        past: hit_marks(settings, o.past, o.past_count, d.has_scores),
        past_count: (o.past_count + 1).min(config.past_detections_length),
        point_hit_counter: points::hit_points(
            o.point_hit_counter,
            n,
            threshold,
            d,
            period,
            config.pointwise_hit_counter_max,
        ),
        detected_at_least_once_points: points::set_flags(
            o.detected_at_least_once_points,
            n,
            threshold,
            1.0 > threshold,
            d,
        ),
        last: Last {
            distance: Some(distance),
            has_scores: d.has_scores,
        },
        life: counters::hit_life(o.life, config, period, next_id),
        ..o
    }
}

// The block's part of a hit: the filter, the last detection, the history.
#[tactic(auto, using(parts::proofs::Bounds::place_inside), unfolding(crate::specs::Object::block_hit))]
fn hit_block(settings: Settings, s: &mut [f64], d: LentDetection<'_>, count: usize)
    requires { (length d.points.now ≡ coords settings.config) × (length d.scores.now ≡ settings.config.points) × (count ≤ settings.config.past_detections_length) × (length s.old ≡ block_size settings.config) }
    ensures { s.new ≡ block_hit settings.config (detection_of d.entry) count s.old }
{
    let config = settings.config;
    let at = block::layout_of(settings);
    let most = config.past_detections_length;
    filter::update(
        s,
        at.coords,
        config.filter,
        config.dims,
        config.detection_threshold,
        d,
    );
    past::write_detection(s, at.last_at, d);
    if 0 < most {
        past::make_room(s, at.past_at, at.width, most, count);
        let place = past::place_of(at.past_at, at.width, most, count);
        past::write_detection(s, place, d);
    }
}

pub fn hit(
    settings: Settings,
    o: TrackedObject,
    s: &mut [f64],
    d: LentDetection<'_>,
    period: u32,
    distance: f64,
    next_id: u32,
) -> Changed
    requires { ObjectInRange settings.config o × (length d.points.now ≡ coords settings.config) × (length d.scores.now ≡ settings.config.points) × (period ≤ 1000) × (length s.old ≡ block_size settings.config) }
    ensures value { result ≡ changed_by_hit settings.config (detection_of d.entry) period distance next_id o }
    ensures s_after { s.new ≡ block_hit settings.config (detection_of d.entry) o.past_count s.old }
{
    let object = hit_record(settings, o, d, period, distance, next_id);
    hit_block(settings, s, d, o.past_count);
    Changed {
        object,
        issued: o.life.is_initializing && !object.life.is_initializing,
    }
}
