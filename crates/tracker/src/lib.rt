// The public calls of the tracker, the only crate that a host names: docs/RULES.md. None has a requires.
#![tactic(auto)]

ghost use Rattle.std.specs.Prelude.{◌≡◌, length};
ghost use Rattle.table.specs.Making.{made};
ghost use Rattle.passes.specs.Checks.{lent_frame};
ghost use Rattle.matching_step.specs.Step.{matched_floats};
ghost use Rattle.tracker.specs.Calls.{answer_from, predict_answer, predict_storage, match_answer, match_pairs, reid_answer, reid_storage, reid_active, total_answer, current_answer};

pub use filter::FilterSettings;
pub use pairs::Pair;
pub use parts::TrackerConfig;
pub use passes::frame::LentFrame;
pub use table::refusals::Refusal;
pub use table::{Answer, Table};

// Making: a fresh table, or refusal 1, 2, 3 or 4 and the table of zeros. It writes no float.
pub fn new(config: TrackerConfig, storage: &[f64]) -> Answer
    ensures { result ≡ made config (length storage.now) }
{
    table::making::make(config, storage.len())
}

// Step 1: drop, sort out, predict; or refusal 5, 4, 6 or 7 and nothing changed.
#[tactic(auto, using(crate::proofs::Readiness::ready, table::proofs::Due::checked_refused, table::proofs::Due::checked_passed), unfolding(crate::specs::Calls::predict_answer, crate::specs::Calls::predict_storage))]
pub fn predict(mut t: Table, storage: &mut [f64]) -> Answer
    ensures value { result ≡ predict_answer t storage.old }
    ensures storage_after { storage.new ≡ predict_storage t storage.old }
{
    let refusal = table::making::predict_refusal(&t, storage.len()).err();
    if refusal.is_none() {
        t = predict::predict_table(t, storage);
    }
    Answer {
        refusal,
        count: 0,
        table: t,
    }
}

// Step 2: match, hit, open; or refusal 5, 4, 6, 8, 9, 10, 11, 12, 13 or 14 and nothing changed.
pub fn match_detections(
    t: Table,
    storage: &mut [f64],
    detections: usize,
    f: LentFrame<'_>,
    pairs: &mut [Pair],
) -> Answer
    ensures value { result ≡ match_answer t storage.old detections (lent_frame f.entry) (length pairs.old) }
    ensures storage_after { storage.new ≡ matched_floats t storage.old detections (lent_frame f.entry) (length pairs.old) }
    ensures pairs_after { pairs.new ≡ match_pairs t storage.old detections (lent_frame f.entry) pairs.old }
{
    let m = matching_step::stepping::match_table(t, storage, detections, f, pairs.len());
    pairs::put_pairs(pairs, &m.pairs[..m.count]);
    answer_of(m)
}

// Step 3: ReID and the active list; or refusal 5, 4, 6, 10 or 11 and nothing changed.
#[tactic(auto, using(crate::proofs::Readiness::reid_ready, crate::proofs::Listing::listed_front, reid::proofs::StepLaws::records_fall, table::proofs::Due::checked_refused, table::proofs::Due::checked_passed), unfolding(crate::specs::Calls::reid_answer, crate::specs::Calls::reid_storage, crate::specs::Calls::reid_active))]
pub fn reid(mut t: Table, storage: &mut [f64], distances: &[f64], active: &mut [u32]) -> Answer
    ensures value { result ≡ reid_answer t storage.old distances.now (length active.old) }
    ensures storage_after { storage.new ≡ reid_storage t storage.old distances.now (length active.old) }
    ensures active_after { active.new ≡ reid_active t storage.old distances.now active.old }
{
    let due = reid::checks::reid_refusal(&t, storage.len(), distances.len(), active.len()).err();
    let mut count = 0;
    if due.is_none() {
        t = reid::reid_table(t, storage, distances);
        count = reid::active::list_active(&t.records[..t.counts.records], active);
    }
    Answer {
        refusal: due,
        count,
        table: t,
    }
}

// The answer without the pairs.
fn answer_of(m: matching_step::Matched) -> Answer
    ensures { result ≡ answer_from m }
{
    Answer {
        refusal: m.refusal,
        count: m.count,
        table: m.table,
    }
}

// How many permanent IDs were issued; or refusal 5.
pub fn total_object_count(t: Table) -> Result<usize, Refusal>
    ensures { result ≡ total_answer t }
{
    if !table::wholeness::is_whole(&t) {
        return Err(Refusal::TableNotWhole);
    }
    Ok((t.counts.permanent - 1) as usize)
}

// How many records are active now; or refusal 5.
pub fn current_object_count(t: Table) -> Result<usize, Refusal>
    ensures { result ≡ current_answer t }
{
    if !table::wholeness::is_whole(&t) {
        return Err(Refusal::TableNotWhole);
    }
    let active = reid::active::active_count(&t.records[..t.counts.records]);
    Ok(active)
}
