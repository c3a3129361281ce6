// Step 2 whole, with its refusals: decide, then refuse or write. Rules 11, 12 and 43 to 48.
ghost use Rattle.std.specs.Prelude.{◌≡◌, [], ◌++◌, map, ◌+◌, ◌*◌, ◌≤◌, length};
ghost use Rattle.laws.specs.Lists.{EachBelow, filled};
ghost use Rattle.matching.specs.Lent.{picks_of, picked};
ghost use Rattle.passes.specs.Checks.{lent_frame};
ghost use Rattle.passes.specs.Passes.{numbers, NamesOnce};
ghost use Rattle.matching_step.specs.Step.{match_table, match_floats, lists_after, decided_of, pair_of, no_pair, refused_with, matched, matched_floats, Decidable, Ready};

use crate::{Decided, Matched, Stepped, changing, listing};
use matching::Picks;
use matching::matrix::LentMatrix;
use pairs::Pair;
use parts::TrackedObject;
use parts::settings::Settings;
use passes::frame::LentFrame;
use passes::{checks, lists};
use table::refusals::Refusal;
use table::{Lists, Phase, Table, making};

// Both passes, and who is left over.
fn decide(t: &Table, detections: usize, f: LentFrame<'_>) -> Decided
    requires { Decidable t.now detections (length f.distances.now) }
    ensures { result ≡ decided_of t.now detections (lent_frame f.entry) }
{
    let m = LentMatrix {
        entries: f.distances,
        rows: detections,
        cols: t.counts.records,
        threshold: t.config.distance_threshold,
    };
    let first = passes::first_pass(m, &t.lists.alive);
    let second = passes::second_pass(m, &t.lists.initializing, &first);
    let left = lists::left_over(detections, &first, &second);
    Decided {
        first,
        second,
        left,
    }
}

// The lists that step 3 reads.
fn lists_after(t: &Table, first: &Picks, second: &Picks) -> Lists
    requires { (t.now.counts.records ≤ 64) × (t.now.lists.alive.count ≤ 64) × (t.now.lists.dead.count ≤ 64) × (first.now.count ≤ 32) × NamesOnce t.now.counts.records (numbers t.now.lists.dead) × (second.now ≡ picks_of (picked second.now)) }
    ensures { result ≡ lists_after t.now first.now second.now }
{
    Lists {
        old: lists::old_ones(t.counts.records, &t.lists.alive, &t.lists.dead, first),
        candidates: lists::candidates(second),
        ..making::no_lists()
    }
}

// Hits of pass 1, hits of pass 2, openings, on a table that passed its checks.
fn match_step(t: &Table, s: &mut [f64], f: LentFrame<'_>, decided: &Decided) -> Table
    requires { Ready t.now (length s.old) (length f.has_scores.now) (lent_frame f) × (decided.now ≡ decided_of t.now (length f.has_scores.now) (lent_frame f)) }
    ensures value { result ≡ match_table t.now s.old (length f.entry.has_scores.now) (lent_frame f.entry) }
    ensures s_after { s.new ≡ match_floats t.now s.old (length f.entry.has_scores.now) (lent_frame f.entry) }
{
    let config = t.config;
    let settings = Settings { config };
    let records = t.records;
    let mut stepped = Stepped {
        records,
        counts: t.counts,
    };
    changing::hit_each(settings, &mut stepped, s, f, &decided.first);
    changing::hit_each(settings, &mut stepped, s, f, &decided.second);
    changing::open_each(settings, &mut stepped, s, f, &decided.left);
    let Stepped { records, counts } = stepped;
    let lists = lists_after(t, &decided.first, &decided.second);
    Table {
        records,
        config,
        counts,
        phase: Phase::Reid,
        lists,
    }
}

// No pair.
fn no_pairs() -> [Pair; 32]
    ensures { result ≡ filled 32 no_pair [] }
{
    [Pair::default(); 32]
}

// The pairs of both passes.
fn pairs_of(
    records: &[TrackedObject; 64],
    n: usize,
    f: LentFrame<'_>,
    detections: usize,
    first: &Picks,
    second: &Picks,
) -> [Pair; 32]
    requires { (first.now.count + second.now.count ≤ 32) × (detections ≤ 32) × (n ≤ 64) × (length f.distances.now ≡ detections * n) × EachBelow detections first.now.count first.now.rows × EachBelow n first.now.count first.now.cols × EachBelow detections second.now.count second.now.rows × EachBelow n second.now.count second.now.cols }
    ensures { result ≡ filled 32 no_pair (map (pair_of records.now (lent_frame f.entry) n 1) (picked first.now) ++ map (pair_of records.now (lent_frame f.entry) n 2) (picked second.now)) }
{
    let front = listing::add_pairs(no_pairs(), 0, records, n, f, detections, first, 1);
    listing::add_pairs(front, first.count, records, n, f, detections, second, 2)
}

// A refusal: no pair, and the table as it was.
fn refused(t: Table, refusal: Refusal) -> Matched
    ensures { result ≡ refused_with (Some refusal) t }
{
    Matched {
        pairs: no_pairs(),
        count: 0,
        refusal: Some(refusal),
        table: t,
    }
}

// Step 2; or refusal 5, 4, 6, 8, 9, 10, 11, 12, 13 or 14 and nothing changed.
pub fn match_table(
    t: Table,
    s: &mut [f64],
    detections: usize,
    f: LentFrame<'_>,
    places: usize,
) -> Matched
    ensures value { result ≡ matched t s.old detections (lent_frame f.entry) places }
    ensures count_bound { (result.count ≤ 32) × (result.count ≤ places) }
    ensures s_after { s.new ≡ matched_floats t s.old detections (lent_frame f.entry) places }
{
    let lengths = f.lengths(places);
    if let Err(refusal) = checks::given_refusal(&t, s.len(), f.period, detections, lengths) {
        return refused(t, refusal);
    }
    let decided = decide(&t, detections, f);
    if let Err(refusal) = checks::decided_refusal(
        t.config,
        t.counts,
        f.points,
        decided.left.count,
    ) {
        return refused(t, refusal);
    }
    let pairs = pairs_of(
        &t.records,
        t.counts.records,
        f,
        detections,
        &decided.first,
        &decided.second,
    );
    let table = match_step(&t, s, f, &decided);
    Matched {
        pairs,
        count: decided.first.count + decided.second.count,
        refusal: None,
        table,
    }
}
