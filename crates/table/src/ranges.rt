// Rules 3 and 14: whether a setting lies in its range.
ghost use Rattle.std.specs.Prelude.{◌≡◌};
ghost use Rattle.table.specs.Ranges.{optional_between, settings_in_range, delay_negative, delay_too_long};

use parts::TrackerConfig;

// Absent, or in the range.
#[tactic(auto, unfolding(crate::specs::Ranges::optional_between))]
pub fn is_optional_between(low: i32, counter: Option<i32>, high: i32) -> bool
    ensures { result ≡ optional_between low counter high }
{
    counter.is_none_or(|z| (low..=high).contains(&z))
}

// Refusal 1: the delay is below 0.
pub fn is_delay_negative(config: TrackerConfig) -> bool
    ensures { result ≡ delay_negative config }
{
    config.initialization_delay < 0
}

// Refusal 2: the delay is at least the hit counter maximum.
pub fn is_delay_too_long(config: TrackerConfig) -> bool
    ensures { result ≡ delay_too_long config }
{
    config.hit_counter_max <= config.initialization_delay
}

// Every other size of rule 3: none is broken.
#[tactic(auto, unfolding(crate::specs::Ranges::settings_in_range))]
pub fn are_settings_in_range(config: TrackerConfig) -> bool
    ensures { result ≡ settings_in_range config }
{
    (1..=16).contains(&config.points)
        && (1..=3).contains(&config.dims)
        && (1..=64).contains(&config.capacity)
        && config.past_detections_length <= 8
        && config.hit_counter_max <= 10000
        && config.pointwise_hit_counter_max <= 10000
        && is_optional_between(0, config.reid_hit_counter_max, 10000)
}
