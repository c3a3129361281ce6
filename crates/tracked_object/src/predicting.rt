// Rule 32: a record and its block, predicted.
ghost use Rattle.std.specs.Prelude.{◌≡◌, length};
ghost use Rattle.parts.specs.Layout.{block_size};
ghost use Rattle.parts.specs.Ranges.{ObjectInRange};
ghost use Rattle.tracked_object.specs.Object.{object_predicted, block_predicted};

use parts::settings::Settings;
use parts::{TrackedObject, block, counters, points};

#[tactic(auto, unfolding(crate::specs::Object::object_predicted))]
pub fn predict(settings: Settings, o: TrackedObject, s: &mut [f64]) -> TrackedObject
    requires { ObjectInRange settings.config o × (length s.old ≡ block_size settings.config) }
    ensures value { result ≡ object_predicted settings.config o }
    ensures s_after { s.new ≡ block_predicted settings.config s.old }
{
    let config = settings.config;
    filter::predict(s, block::layout_of(settings).coords);
    TrackedObject {
        point_hit_counter: points::fall_points(o.point_hit_counter, config.points),
        life: counters::predict_life(o.life, config.reid_hit_counter_max),
        ..o
    }
}
