// Rule 46: a leftover detection opens a record.
ghost use Rattle.std.specs.Prelude.{◌≡◌, ◌≤◌, length};
ghost use Rattle.parts.specs.Layout.{coords, block_size};
ghost use Rattle.tracked_object.specs.Object.{detection_of, changed_by_opening, block_opened};

use filter::detection::LentDetection;
use parts::settings::Settings;
use parts::{Changed, Last, Origin, PastDetection, TrackedObject, block, counters, past, points};

#[tactic(auto, using(parts::proofs::LifeLaws::issued_opened), unfolding(crate::specs::Object::object_opened, crate::specs::Object::block_opened))]
pub fn open(
    settings: Settings,
    s: &mut [f64],
    d: LentDetection<'_>,
    origin: Origin,
    next_id: u32,
) -> Changed
    requires { (length d.points.now ≡ coords settings.config) × (length d.scores.now ≡ settings.config.points) × (origin.initial_period ≤ 1000) × (length s.old ≡ block_size settings.config) }
    ensures value { result ≡ changed_by_opening settings.config (detection_of d.entry) origin.initial_period origin.global_id origin.initializing_id next_id }
    ensures s_after { s.new ≡ block_opened settings.config (detection_of d.entry) s.old }
{
    let config = settings.config;
    let at = block::layout_of(settings);
    filter::make(s, at.coords, config.filter, d.points);
    past::write_detection(s, at.last_at, d);
    let period = origin.initial_period;
    let no_entry = PastDetection {
        age: None,
        has_scores: false,
    };
    let life = counters::open_life(period, config.initialization_delay, next_id);
    let object = TrackedObject {
        past: [no_entry; 8],
        past_count: 0,
        point_hit_counter: [period.min(config.pointwise_hit_counter_max); 16],
        detected_at_least_once_points: points::set_flags(
            0,
            config.points,
            config.detection_threshold,
            true,
            d,
        ),
        last: Last {
            distance: None,
            has_scores: d.has_scores,
        },
        life,
        origin,
    };
    Changed {
        object,
        issued: !life.is_initializing,
    }
}
