// Rules 61 and 63 on a table's records and floats: the merges in pick order, and the candidates picked leaving.
// Records stand in the table's own array with a count: fixed memory is a rule of the project. `drop_absorbed` is lent them; `merge_each` takes them by value, since the proof needs that each history has 8 places, which is known of a value and not of what is lent. That they are in range stays in the clauses: a host may put any record into a table.
ghost use Rattle.std.specs.Prelude.{◌≡◌, map, ◌+◌, ◌*◌, ◌≤◌, length, take, drop};
ghost use Rattle.std.proofs.Math.Seq.{paste};
ghost use Rattle.laws.specs.Float64.{f0};
ghost use Rattle.laws.specs.Lists.{EachBelow, filled};
ghost use Rattle.matching.specs.Lent.{picks_of, picked};
ghost use Rattle.parts.specs.Layout.{block_size};
ghost use Rattle.parts.specs.Ranges.{ObjectInRange};
ghost use Rattle.tracked_object.specs.Object.{object_merged, block_merged};
ghost use Rattle.table.specs.Slots.{slots, records_back, floats_back, kept_back, AllInRange};
ghost use Rattle.reid.specs.Step.{placed, merge_all, staying_at};

use matching::{Numbers, Picks};
use parts::settings::Settings;
use parts::{TrackedObject, block};
use table::{Kept, staying};

// The picks by places in the table: the candidate's and the old one's.
#[tactic(auto, using(crate::proofs::Places::places_next, crate::proofs::Places::all_placed), unfolding(laws::specs::Lists::below))]
pub fn places_of(candidates: &Numbers<32>, old: &Numbers<64>, picks: &Picks) -> Picks
    requires { (picks.now.count ≤ 32) × EachBelow 32 picks.now.count picks.now.rows × EachBelow 64 picks.now.count picks.now.cols }
    ensures { result ≡ picks_of (map (placed candidates.now old.now) (picked picks.now)) }
{
    let mut places = Picks {
        rows: [0; 32],
        cols: [0; 32],
        count: picks.count,
    };
    for i in 0..picks.count {
        places.rows[i] = candidates.at[picks.rows[i]];
        places.cols[i] = old.at[picks.cols[i]];
    }
    places
}

// A block copied out, so that a record may be its own candidate.
fn copy_out(s: &[f64], start: usize, size: usize) -> [f64; 864]
    requires { (size ≤ 864) × (start + size ≤ length s.now) }
    ensures { result ≡ filled 864 f0 (take size (drop start s.now)) }
{
    let mut block = [0.0; 864];
    block[..size].copy_from_slice(&s[start..start + size]);
    block
}

// The old record o, whose block is the b-th, takes over the candidate, whose block is the a-th.
fn merge_at(
    settings: Settings,
    candidate: TrackedObject,
    o: TrackedObject,
    s: &mut [f64],
    a: usize,
    b: usize,
) -> TrackedObject
    requires { ObjectInRange settings.config candidate × ObjectInRange settings.config o × (a * block_size settings.config + block_size settings.config ≤ length s.old) × (b * block_size settings.config + block_size settings.config ≤ length s.old) }
    ensures value { result ≡ object_merged settings.config candidate (take (block_size settings.config) (drop (a * block_size settings.config) s.old)) o (take (block_size settings.config) (drop (b * block_size settings.config) s.old)) }
    ensures s_after { s.new ≡ paste s.old (b * block_size settings.config) (block_merged settings.config candidate (take (block_size settings.config) (drop (a * block_size settings.config) s.old)) o (take (block_size settings.config) (drop (b * block_size settings.config) s.old))) (block_size settings.config) }
{
    let size = block::layout_of(settings).size;
    let from = copy_out(s, a * size, size);
    let start = b * size;
    tracked_object::merge(
        settings,
        o,
        &mut s[start..start + size],
        candidate,
        &from[..size],
    )
}

// The merges in pick order, each on the table as those before left it.
pub fn merge_each(
    settings: Settings,
    mut records: [TrackedObject; 64],
    n: usize,
    s: &mut [f64],
    places: &Picks,
) -> [TrackedObject; 64]
    requires { (n ≤ 64) × (n * block_size settings.config ≤ length s.old) × AllInRange settings.config n records × (places.now.count ≤ 32) × EachBelow n places.now.count places.now.rows × EachBelow n places.now.count places.now.cols }
    ensures value { result ≡ records_back (merge_all settings.config (picked places.now) (slots (block_size settings.config) records s.old n)) records }
    ensures s_after { s.new ≡ floats_back (block_size settings.config) (merge_all settings.config (picked places.now) (slots (block_size settings.config) records s.old n)) s.old }
{
    for i in 0..places.count {
        let a = places.rows[i];
        let b = places.cols[i];
        let o = records[b];
        let next = merge_at(settings, records[a], o, s, a, b);
        records[b] = next;
    }
    records
}

// The records that stay move down in order, and their blocks with them: all but the candidates picked, even where one is an old one too.
pub fn drop_absorbed(settings: Settings, kept: &mut Kept, s: &mut [f64], places: &Picks)
    requires { (kept.old.count ≤ 64) × (kept.old.count * block_size settings.config ≤ length s.old) × (places.now.count ≤ 32) }
    ensures value { kept.new ≡ kept_back (staying_at (take places.now.count places.now.rows) (slots (block_size settings.config) kept.old.records s.old kept.old.count)) kept.old.records }
    ensures s_after { s.new ≡ floats_back (block_size settings.config) (staying_at (take places.now.count places.now.rows) (slots (block_size settings.config) kept.old.records s.old kept.old.count)) s.old }
{
    let leaving = &places.rows[..places.count];
    let mut stays = [false; 64];
    for i in 0..kept.count {
        stays[i] = !leaving.contains(&i);
    }
    staying::move_staying(settings, kept, s, stays);
}
