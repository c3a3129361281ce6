// Step 1: drop, sort out, predict: docs/RULES.md, rules 30 to 33.
// Where records change, the table's own array is lent with its count: fixed memory is a rule of the project, and the definitions put them back into that array.
#![tactic(auto)]

ghost use Rattle.std.specs.Prelude.{◌≡◌, ◌*◌, ◌≤◌, length};
ghost use Rattle.parts.specs.Layout.{block_size};
ghost use Rattle.table.specs.Slots.{slots, records_back, floats_back, AllInRange};
ghost use Rattle.predict.specs.Step.{gone, below_zero, belongs, kept_records, kept_floats, places_of, each_predicted, predict_table, predict_floats, Ready};

use matching::Numbers;
use parts::settings::Settings;
use parts::{TrackedObject, TrackerConfig, block};
use table::{Counts, Kept, Lists, Phase, Table, making, staying};

// The lists of step 1. The definitions name the three by it; a closure in its place would say less.
#[derive(Clone, Copy)]
pub enum Sort {
    Alive,
    Initializing,
    Dead,
}

// Whether a counter is present and below 0.
fn is_below_zero(counter: Option<i32>) -> bool
    ensures { result ≡ below_zero counter }
{
    match counter {
        None => false,
        Some(c) => c < 0,
    }
}

// Whether a record leaves.
pub fn is_gone(config: TrackerConfig, o: &TrackedObject) -> bool
    ensures { result ≡ gone config o.now }
{
    match config.reid_hit_counter_max {
        None => o.life.hit_counter < 0,
        Some(_) => is_below_zero(o.life.reid_hit_counter),
    }
}

// Whether a record stands in a list.
fn stands_in(config: TrackerConfig, sort: Sort, o: &TrackedObject) -> bool
    ensures { result ≡ belongs config sort o.now }
{
    match sort {
        Sort::Alive => 0 <= o.life.hit_counter && !o.life.is_initializing,
        Sort::Initializing => o.life.is_initializing,
        Sort::Dead => o.life.hit_counter < 0 && config.reid_hit_counter_max.is_some(),
    }
}

// The records that stay move down in order, and their blocks with them.
fn drop_gone(settings: Settings, kept: &mut Kept, s: &mut [f64])
    requires { (kept.old.count ≤ 64) × (kept.old.count * block_size settings.config ≤ length s.old) }
    ensures value { kept.new ≡ kept_records settings.config kept.old.count kept.old.records s.old }
    ensures s_after { s.new ≡ kept_floats settings.config kept.old.count kept.old.records s.old }
{
    let mut stays = [false; 64];
    for i in 0..kept.count {
        stays[i] = !is_gone(settings.config, &kept.records[i]);
    }
    staying::move_staying(settings, kept, s, stays);
}

// The places of the records that stand in a list, ascending.
fn sort_out(config: TrackerConfig, sort: Sort, records: &[TrackedObject]) -> Numbers<64>
    requires { length records.now ≤ 64 }
    ensures { result ≡ places_of config sort (length records.now) records.now }
{
    let mut places = making::no_numbers::<64>();
    for (i, o) in records.iter().enumerate() {
        if stands_in(config, sort, o) {
            places.at[places.count] = i;
            places.count += 1;
        }
    }
    places
}

// Each of the first n records and its block, predicted.
fn predict_each(settings: Settings, records: &mut [TrackedObject; 64], n: usize, s: &mut [f64])
    requires { (n ≤ 64) × (n * block_size settings.config ≤ length s.old) × AllInRange settings.config n records.old }
    ensures records_after { records.new ≡ records_back (each_predicted settings.config (slots (block_size settings.config) records.old s.old n)) records.old }
    ensures s_after { s.new ≡ floats_back (block_size settings.config) (each_predicted settings.config (slots (block_size settings.config) records.old s.old n)) s.old }
{
    let size = block::layout_of(settings).size;
    for i in 0..n {
        let start = i * size;
        records[i] = tracked_object::predict(settings, records[i], &mut s[start..start + size]);
    }
}

// Step 1 on a table that passed its checks.
pub fn predict_table(t: Table, s: &mut [f64]) -> Table
    requires { Ready t (length s.old) }
    ensures value { result ≡ predict_table t s.old }
    ensures s_after { s.new ≡ predict_floats t s.old }
{
    let config = t.config;
    let settings = Settings { config };
    let records = t.records;
    let mut kept = Kept {
        records,
        count: t.counts.records,
    };
    drop_gone(settings, &mut kept, s);
    let n = kept.count;
    let in_table = &kept.records[..n];
    let lists = Lists {
        alive: sort_out(config, Sort::Alive, in_table),
        initializing: sort_out(config, Sort::Initializing, in_table),
        dead: sort_out(config, Sort::Dead, in_table),
        ..making::no_lists()
    };
    predict_each(settings, &mut kept.records, n, s);
    Table {
        records: kept.records,
        counts: Counts {
            records: n,
            frames: t.counts.frames + 1,
            ..t.counts
        },
        phase: Phase::Match,
        lists,
        ..t
    }
}
