// Rules 10 and 11: the refusals of step 2 in their order.
ghost use Rattle.std.specs.Prelude.{◌≡◌, not, ◌≤◌};
ghost use Rattle.laws.specs.Lists.{any};
ghost use Rattle.laws.specs.Float64.{finite};
ghost use Rattle.table.specs.Refusals.{first_due, checked};
ghost use Rattle.passes.specs.Checks.{lengths_fit, given_checks, decided_checks};

use crate::frame::LentLengths;
use parts::settings::Settings;
use parts::{TrackerConfig, block};
use table::refusals::Refusal;
use table::{Counts, Phase, Table, making};

// Whether every coordinate is finite.
fn are_finite(points: &[f64]) -> bool
    ensures { result ≡ not (any (λ x. not (finite x)) points.now) }
{
    points.iter().all(|x| x.is_finite())
}

// Each input has exactly the length that the counts ask.
fn do_lengths_fit(
    settings: Settings,
    records: usize,
    detections: usize,
    lengths: LentLengths,
) -> bool
    requires { (records ≤ 64) × (detections ≤ 32) }
    ensures { result ≡ lengths_fit settings.config records detections lengths }
{
    let coords = block::layout_of(settings).coords;
    lengths.points == detections * coords
        && lengths.scores == detections * settings.config.points
        && lengths.has_scores == detections
        && lengths.distances == detections * records
}

// The first refusal that can be told before the picks.
#[tactic(auto, using(table::proofs::Due::after_step), unfolding(table::specs::Refusals::first_due))]
pub fn given_refusal(
    t: &Table,
    floats: usize,
    period: u32,
    detections: usize,
    lengths: LentLengths,
) -> Result<(), Refusal>
    ensures { result ≡ checked (first_due (given_checks t.now floats period detections lengths)) }
{
    making::step_refusal(t, floats, Phase::Match)?;
    if !(1..=1000).contains(&period) {
        return Err(Refusal::Period);
    }
    if 32 < detections {
        return Err(Refusal::TooManyDetections);
    }
    let settings = Settings { config: t.config };
    if !do_lengths_fit(settings, t.counts.records, detections, lengths) {
        return Err(Refusal::Lengths);
    }
    if lengths.pairs < 32 {
        return Err(Refusal::OutputShort);
    }
    Ok(())
}

// The first refusal once the picks are known: of the coordinates, and of the records to open.
#[tactic(auto, unfolding(table::specs::Refusals::first_due))]
pub fn decided_refusal(
    config: TrackerConfig,
    counts: Counts,
    points: &[f64],
    more: usize,
) -> Result<(), Refusal>
    requires { (counts.records ≤ 64) × (counts.opened ≤ 2000000000) × (more ≤ 64) }
    ensures { result ≡ checked (first_due (decided_checks config counts points.now more)) }
{
    if !are_finite(points) {
        return Err(Refusal::NotFinite);
    }
    if config.capacity < counts.records + more {
        return Err(Refusal::TableFull);
    }
    if 2000000000 < counts.opened + more as u32 {
        return Err(Refusal::IdsUsedUp);
    }
    Ok(())
}
