// Rules 11, 12, 20 and 21: the delay's rule, the table of zeros, a fresh table, and the refusals in their order.
ghost use Rattle.std.specs.Prelude.{◌≡◌, true};
ghost use Rattle.table.specs.Ranges.{settings_in_range};
ghost use Rattle.table.specs.Refusals.{first_due, checked, storage_need, making_checks, step_checks, predict_checks};
ghost use Rattle.table.specs.Making.{settled_delay, settled, nothing, no_lists, zero_object, empty_table, zero_table, fresh_table, made};

use crate::refusals::Refusal;
use crate::{Answer, Counts, Lists, Phase, Table, ranges, wholeness};
use filter::FilterSettings;
use matching::Numbers;
use parts::settings::Settings;
use parts::{Last, Life, Origin, PastDetection, TrackedObject, TrackerConfig, block};

// A delay of -1 becomes half the maximum, toward zero.
fn settled_delay(maximum: i32, delay: i32) -> i32
    ensures { result ≡ settled_delay maximum delay }
{
    if delay == -1 { maximum / 2 } else { delay }
}

fn settle(config: TrackerConfig) -> TrackerConfig
    ensures { result ≡ settled config }
{
    TrackerConfig {
        initialization_delay: settled_delay(config.hit_counter_max, config.initialization_delay),
        ..config
    }
}

// The floats that the settings ask for.
#[tactic(auto, using(crate::proofs::Facts::sizes_of, crate::proofs::Facts::need_most), unfolding(crate::specs::Refusals::storage_need))]
pub fn storage_need(config: TrackerConfig) -> usize
    requires { settings_in_range config ≡ true }
    ensures { result ≡ storage_need config }
{
    config.capacity * block::layout_of(Settings { config }).size
}

// The first refusal of a making, of settled settings.
#[tactic(auto, unfolding(crate::specs::Refusals::first_due))]
fn making_refusal(config: TrackerConfig, floats: usize) -> Result<(), Refusal>
    ensures { result ≡ checked (first_due (making_checks config floats)) }
{
    if ranges::is_delay_negative(config) {
        return Err(Refusal::DelayNegative);
    }
    if ranges::is_delay_too_long(config) {
        return Err(Refusal::DelayTooLong);
    }
    if !ranges::are_settings_in_range(config) {
        return Err(Refusal::SettingOutOfRange);
    }
    if floats < storage_need(config) {
        return Err(Refusal::StorageShort);
    }
    Ok(())
}

// The first of the refusals that every step begins with.
#[tactic(auto, unfolding(crate::specs::Refusals::first_due))]
pub fn step_refusal(t: &Table, floats: usize, step: Phase) -> Result<(), Refusal>
    ensures { result ≡ checked (first_due (step_checks step t.now floats)) }
{
    if !wholeness::is_whole(t) {
        return Err(Refusal::TableNotWhole);
    }
    if floats < storage_need(t.config) {
        return Err(Refusal::StorageShort);
    }
    if t.phase != step {
        return Err(Refusal::OutOfStep);
    }
    Ok(())
}

// The first refusal of step 1.
#[tactic(auto, using(crate::proofs::Due::after_step), unfolding(crate::specs::Refusals::first_due))]
pub fn predict_refusal(t: &Table, floats: usize) -> Result<(), Refusal>
    ensures { result ≡ checked (first_due (predict_checks t.now floats)) }
{
    step_refusal(t, floats, Phase::Predict)?;
    if 200000000 <= t.counts.frames {
        return Err(Refusal::FramesUsedUp);
    }
    Ok(())
}

// No number, in N places.
pub fn no_numbers<const N: usize>() -> Numbers<N>
    ensures { result ≡ nothing N }
{
    Numbers {
        at: [0; N],
        count: 0,
    }
}

// No list is kept.
pub fn no_lists() -> Lists
    ensures { result ≡ no_lists }
{
    let none = no_numbers();
    Lists {
        alive: none,
        initializing: none,
        dead: none,
        old: none,
        candidates: no_numbers(),
    }
}

fn zero_object() -> TrackedObject
    ensures { result ≡ zero_object }
{
    let entry = PastDetection {
        age: Some(0),
        has_scores: false,
    };
    TrackedObject {
        past: [entry; 8],
        past_count: 0,
        point_hit_counter: [0; 16],
        detected_at_least_once_points: 0,
        last: Last {
            distance: None,
            has_scores: false,
        },
        life: Life {
            age: 0,
            hit_counter: 0,
            reid_hit_counter: None,
            is_initializing: false,
            id: None,
        },
        origin: Origin {
            global_id: 0,
            initializing_id: 0,
            initial_period: 0,
        },
    }
}

// A table without a record.
fn empty_table(config: TrackerConfig, counts: Counts) -> Table
    ensures { result ≡ empty_table config counts }
{
    Table {
        records: [zero_object(); 64],
        config,
        counts,
        phase: Phase::Predict,
        lists: no_lists(),
    }
}

fn zero_table() -> Table
    ensures { result ≡ zero_table }
{
    let config = TrackerConfig {
        points: 0,
        dims: 0,
        capacity: 0,
        past_detections_length: 0,
        hit_counter_max: 0,
        initialization_delay: 0,
        pointwise_hit_counter_max: 0,
        reid_hit_counter_max: None,
        distance_threshold: 0.0,
        detection_threshold: 0.0,
        reid_distance_threshold: 0.0,
        has_reid_distance: false,
        filter: FilterSettings {
            r: 0.0,
            q: 0.0,
            pos_variance: 0.0,
            pos_vel_covariance: 0.0,
            vel_variance: 0.0,
        },
    };
    empty_table(config, Counts::default())
}

// Of settled settings that pass.
fn fresh_table(config: TrackerConfig) -> Table
    ensures { result ≡ fresh_table config }
{
    let counts = Counts {
        permanent: 1,
        global: 1,
        initializing: 1,
        ..Counts::default()
    };
    empty_table(config, counts)
}

// A fresh table, or the refusal and the table of zeros.
#[tactic(auto, unfolding(crate::specs::Making::made))]
pub fn make(config: TrackerConfig, floats: usize) -> Answer
    ensures { result ≡ made config floats }
{
    let config = settle(config);
    let refusal = making_refusal(config, floats).err();
    let table = match refusal {
        None => fresh_table(config),
        Some(_) => zero_table(),
    };
    Answer {
        refusal,
        count: 0,
        table,
    }
}
