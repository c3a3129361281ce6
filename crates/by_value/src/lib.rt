// Step 2 by value, for programs: the pair list is an array of the caller's, handed in and handed back.
#![tactic(auto)]

ghost use Rattle.std.specs.Prelude.{◌≡◌, ◌++◌, ◌≤◌, take, drop, replicate};
ghost use Rattle.passes.specs.Checks.{lent_frame};
ghost use Rattle.matching_step.specs.Step.{matched_floats, no_pair};
ghost use Rattle.tracker.specs.Calls.{match_answer, match_pairs};

use tracker::{Answer, LentFrame, Pair, Table};

// What step 2 answers, and the pair list.
#[derive(Clone, Copy)]
pub struct Listed {
    pub pairs: [Pair; 40],
    pub answer: Answer,
}

// Room for 40 pairs, with none in it.
pub fn no_pairs() -> [Pair; 40]
    ensures { result ≡ replicate 40 no_pair }
{
    [Pair::default(); 40]
}

// Step 2, with the first places of the array lent as the pair list.
pub fn match_detections(
    t: Table,
    storage: &mut [f64],
    detections: usize,
    f: LentFrame<'_>,
    mut pairs: [Pair; 40],
    places: usize,
) -> Listed
    requires { places ≤ 40 }
    ensures answer_value { result.answer ≡ match_answer t storage.old detections (lent_frame f.entry) places }
    ensures pairs_value { result.pairs ≡ match_pairs t storage.old detections (lent_frame f.entry) (take places pairs) ++ drop places pairs }
    ensures storage_after { storage.new ≡ matched_floats t storage.old detections (lent_frame f.entry) places }
{
    let answer = tracker::match_detections(t, storage, detections, f, &mut pairs[..places]);
    Listed { pairs, answer }
}
