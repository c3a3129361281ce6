// Rule 14: whether a table is whole.
ghost use Rattle.std.specs.Prelude.{◌≡◌, ◌≤◌, length};
ghost use Rattle.table.specs.Wholeness.{points_whole, ages_whole, record_whole, records_whole, counts_whole, lists_whole, settings_whole, whole_table};

use crate::listed::is_list_whole;
use crate::ranges::{self, is_optional_between};
use crate::{Counts, Lists, Table};
use parts::{PastDetection, TrackedObject, TrackerConfig};

// The point counters are at most 10,000.
fn are_points_whole(counters: &[u32]) -> bool
    ensures { result ≡ points_whole (length counters.now) counters.now }
{
    counters.iter().all(|c| *c <= 10000)
}

// The stored ages are absent, or from 0 to the frames begun.
fn are_ages_whole(past: &[PastDetection], frames: i32) -> bool
    ensures { result ≡ ages_whole (length past.now) frames past.now }
{
    past.iter()
        .all(|entry| is_optional_between(0, entry.age, frames))
}

// One record.
fn is_record_whole(config: TrackerConfig, frames: u32, o: &TrackedObject) -> bool
    requires { (config.points ≤ 16) × (config.past_detections_length ≤ 8) × (frames ≤ 200000000) }
    ensures { result ≡ record_whole config frames o.now }
{
    o.life.age <= frames
        && (-20000..=20000).contains(&o.life.hit_counter)
        && are_points_whole(&o.point_hit_counter[..config.points])
        && is_optional_between(-1, o.life.reid_hit_counter, 10000)
        && (1..=1000).contains(&o.origin.initial_period)
        && o.past_count <= config.past_detections_length
        && are_ages_whole(&o.past[..o.past_count], frames as i32)
}

// Every record.
fn are_records_whole(config: TrackerConfig, frames: u32, records: &[TrackedObject]) -> bool
    requires { (config.points ≤ 16) × (config.past_detections_length ≤ 8) × (frames ≤ 200000000) }
    ensures { result ≡ records_whole config frames (length records.now) records.now }
{
    records.iter().all(|o| is_record_whole(config, frames, o))
}

// The counts.
#[tactic(auto, unfolding(crate::specs::Wholeness::counts_whole))]
fn are_counts_whole(config: TrackerConfig, n: Counts) -> bool
    ensures { result ≡ counts_whole config n }
{
    if 2000000000 < n.opened {
        return false;
    }
    let next = n.opened + 1;
    n.records <= config.capacity
        && n.frames <= 200000000
        && (1..=next).contains(&n.permanent)
        && n.global == next
        && n.initializing == next
}

// The lists.
#[tactic(auto, unfolding(crate::specs::Wholeness::lists_whole))]
fn are_lists_whole(lists: &Lists, records: usize) -> bool
    ensures { result ≡ lists_whole records lists.now }
{
    is_list_whole(&lists.alive, records)
        && is_list_whole(&lists.initializing, records)
        && is_list_whole(&lists.dead, records)
        && is_list_whole(&lists.old, records)
        && is_list_whole(&lists.candidates, records)
}

fn are_settings_whole(config: TrackerConfig) -> bool
    ensures { result ≡ settings_whole config }
{
    ranges::are_settings_in_range(config)
        && !ranges::is_delay_negative(config)
        && !ranges::is_delay_too_long(config)
}

// The parts in an order in which each is safe to ask.
#[tactic(auto, using(crate::proofs::Facts::records_room, crate::proofs::Passing::records_front), unfolding(crate::specs::Wholeness::whole_table))]
pub fn is_whole(t: &Table) -> bool
    ensures { result ≡ whole_table t.now }
{
    are_settings_whole(t.config)
        && are_counts_whole(t.config, t.counts)
        && are_records_whole(t.config, t.counts.frames, &t.records[..t.counts.records])
        && are_lists_whole(&t.lists, t.counts.records)
}
