// Rules 10, 11 and 60: the refusals of step 3 in their order, and who meets whom.
ghost use Rattle.std.specs.Prelude.{◌≡◌, cond};
ghost use Rattle.table.specs.Refusals.{first_due, checked};
ghost use Rattle.reid.specs.Step.{reid_checks};

use parts::TrackerConfig;
use table::refusals::Refusal;
use table::{Phase, Table, making};

// The candidates that meet the old ones: none if no ReID distance is declared.
pub fn candidates_met(config: TrackerConfig, candidates: usize) -> usize
    ensures { result ≡ cond config.has_reid_distance candidates 0 }
{
    if config.has_reid_distance {
        candidates
    } else {
        0
    }
}

// The first refusal of step 3.
#[tactic(auto, using(table::proofs::Due::after_step), unfolding(table::specs::Refusals::first_due))]
pub fn reid_refusal(
    t: &Table,
    floats: usize,
    distances: usize,
    places: usize,
) -> Result<(), Refusal>
    ensures { result ≡ checked (first_due (reid_checks t.now floats distances places)) }
{
    making::step_refusal(t, floats, Phase::Reid)?;
    if distances != candidates_met(t.config, t.lists.candidates.count) * t.lists.old.count {
        return Err(Refusal::Lengths);
    }
    if places < t.config.capacity {
        return Err(Refusal::OutputShort);
    }
    Ok(())
}
