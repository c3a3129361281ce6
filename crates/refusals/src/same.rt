// Whether two values are the same: every field, floats by their bits, NaN as one value. What holds no float has an `==` of its own.
use filter::FilterSettings;
use pairs::Pair;
use parts::{Last, TrackedObject, TrackerConfig};
use table::Table;

pub(crate) trait Same {
    fn same(&self, other: &Self) -> bool;
}

impl Same for f64 {
    fn same(&self, other: &Self) -> bool {
        words::word_of(*self) == words::word_of(*other)
    }
}

impl<T: Same, const N: usize> Same for [T; N] {
    fn same(&self, other: &Self) -> bool {
        self.iter().zip(other).all(|(a, b)| a.same(b))
    }
}

impl<T: Same> Same for Option<T> {
    fn same(&self, other: &Self) -> bool {
        match (self, other) {
            (None, None) => true,
            (Some(a), Some(b)) => a.same(b),
            _ => false,
        }
    }
}

impl Same for Last {
    fn same(&self, other: &Self) -> bool {
        self.distance.same(&other.distance) && self.has_scores == other.has_scores
    }
}

impl Same for TrackedObject {
    fn same(&self, other: &Self) -> bool {
        self.past == other.past
            && self.past_count == other.past_count
            && self.point_hit_counter == other.point_hit_counter
            && self.detected_at_least_once_points == other.detected_at_least_once_points
            && self.last.same(&other.last)
            && self.life == other.life
            && self.origin == other.origin
    }
}

impl Same for FilterSettings {
    fn same(&self, other: &Self) -> bool {
        self.r.same(&other.r)
            && self.q.same(&other.q)
            && self.pos_variance.same(&other.pos_variance)
            && self.pos_vel_covariance.same(&other.pos_vel_covariance)
            && self.vel_variance.same(&other.vel_variance)
    }
}

impl Same for TrackerConfig {
    fn same(&self, other: &Self) -> bool {
        self.points == other.points
            && self.dims == other.dims
            && self.capacity == other.capacity
            && self.past_detections_length == other.past_detections_length
            && self.hit_counter_max == other.hit_counter_max
            && self.initialization_delay == other.initialization_delay
            && self.pointwise_hit_counter_max == other.pointwise_hit_counter_max
            && self.reid_hit_counter_max == other.reid_hit_counter_max
            && self.distance_threshold.same(&other.distance_threshold)
            && self.detection_threshold.same(&other.detection_threshold)
            && self
                .reid_distance_threshold
                .same(&other.reid_distance_threshold)
            && self.has_reid_distance == other.has_reid_distance
            && self.filter.same(&other.filter)
    }
}

impl Same for Table {
    fn same(&self, other: &Self) -> bool {
        self.records.same(&other.records)
            && self.config.same(&other.config)
            && self.counts == other.counts
            && self.phase == other.phase
            && self.lists == other.lists
    }
}

impl Same for Pair {
    fn same(&self, other: &Self) -> bool {
        self.detection == other.detection
            && self.global_id == other.global_id
            && self.pass == other.pass
            && self.distance.same(&other.distance)
    }
}
