// Rules 32, 45, 46 and 61: the counters and the permanent ID of a record.
ghost use Rattle.std.specs.Prelude.{◌≡◌, ◌≤◌};
ghost use Rattle.parts.specs.Ranges.{LifeInRange};
ghost use Rattle.parts.specs.Life.{reid_started, reid_cleared, life_predicted, raised, life_hit, life_opened, life_merged};

use crate::{Life, TrackerConfig};

// An absent ReID counter: the maximum once the hit counter is at most 0.
fn started(hit_counter: i32, maximum: Option<i32>) -> Option<i32>
    ensures { result ≡ reid_started hit_counter maximum }
{
    if hit_counter <= 0 { maximum } else { None }
}

// The ReID counter of a record that gets its permanent ID: absent if a maximum is set.
fn cleared(counter: Option<i32>, maximum: Option<i32>) -> Option<i32>
    ensures { result ≡ reid_cleared counter maximum }
{
    match maximum {
        None => counter,
        Some(_) => None,
    }
}

// A frame older. The optional ReID counter is taken apart, the absent case first: it starts by the hit counter before its fall.
#[tactic(auto, unfolding(crate::specs::Life::life_predicted))]
pub fn predict_life(l: Life, maximum: Option<i32>) -> Life
    requires { LifeInRange l }
    ensures { result ≡ life_predicted maximum l }
{
    let older = Life {
        age: l.age + 1,
        hit_counter: l.hit_counter - 1,
        ..l
    };
    let Some(counter) = l.reid_hit_counter else {
        return Life {
            reid_hit_counter: started(l.hit_counter, maximum),
            ..older
        };
    };
    Life {
        reid_hit_counter: Some(counter - 1),
        ..older
    }
}

// The hit counter after a hit: twice the period more, and the maximum at most.
fn raised(l: Life, period: u32, maximum: i32) -> i32
    requires { LifeInRange l × (period ≤ 1000) }
    ensures { result ≡ raised period maximum l }
{
    (l.hit_counter + 2 * period as i32).min(maximum)
}

// A hit's counter, and the next permanent ID if it is due.
#[tactic(auto, unfolding(crate::specs::Life::life_hit))]
pub fn hit_life(l: Life, config: TrackerConfig, period: u32, next_id: u32) -> Life
    requires { LifeInRange l × (period ≤ 1000) }
    ensures { result ≡ life_hit period config.hit_counter_max config.initialization_delay config.reid_hit_counter_max next_id l }
{
    let counter = raised(l, period, config.hit_counter_max);
    if l.is_initializing && config.initialization_delay < counter {
        return Life {
            hit_counter: counter,
            reid_hit_counter: cleared(l.reid_hit_counter, config.reid_hit_counter_max),
            is_initializing: false,
            id: Some(next_id),
            ..l
        };
    }
    Life {
        hit_counter: counter,
        ..l
    }
}

// A new record's counters: with delay 0 it takes a permanent ID at once.
#[tactic(auto, unfolding(crate::specs::Life::life_opened))]
pub fn open_life(period: u32, delay: i32, next_id: u32) -> Life
    requires { period ≤ 1000 }
    ensures { result ≡ life_opened period delay next_id }
{
    let at_once = delay == 0;
    Life {
        age: 0,
        hit_counter: period as i32,
        reid_hit_counter: None,
        is_initializing: !at_once,
        id: at_once.then_some(next_id),
    }
}

// An old record back to life: twice its own initial period, uncapped.
pub fn merge_life(l: Life, initial_period: u32) -> Life
    requires { initial_period ≤ 1000 }
    ensures { result ≡ life_merged initial_period l }
{
    Life {
        hit_counter: 2 * initial_period as i32,
        reid_hit_counter: None,
        ..l
    }
}
