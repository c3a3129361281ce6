// What step 2 decides before it writes: both passes, who is left over, the lists for step 3, and its refusals. docs/RULES.md, rules 11, 40, 43, 44 and 48.
#![tactic(auto)]

pub mod checks;
pub mod frame;
pub mod lists;

ghost use Rattle.std.specs.Prelude.{◌≡◌, ◌≤◌};
ghost use Rattle.laws.specs.Lists.{EachBelow};
ghost use Rattle.matching.specs.Lent.{lent_matrix, picks_of};
ghost use Rattle.passes.specs.Passes.{numbers, first_pass, second_pass, rows_picked, flagged, AllBelow};

use matching::matrix::LentMatrix;
use matching::{Numbers, Picks};

// N flags: those at the places are as said, the others not.
#[tactic(auto, using(laws::proofs::Through::through_next), unfolding(laws::specs::Turns::through))]
fn flags_at<const N: usize>(places: &[usize], flag: bool) -> [bool; N]
    requires { AllBelow N places.now }
    ensures { result ≡ flagged N flag places.now }
{
    let mut flags = [!flag; N];
    for place in places {
        flags[*place] = flag;
    }
    flags
}

// Pass 1: all rows, the alive columns. Columns that take no part are marked used.
#[tactic(auto, unfolding(crate::specs::Passes::first_pass))]
pub fn first_pass(m: LentMatrix<'_>, alive: &Numbers<64>) -> Picks
    requires { (alive.now.count ≤ 64) × EachBelow 64 alive.now.count alive.now.at }
    ensures { result ≡ picks_of (first_pass (lent_matrix m.entry) (numbers alive.now)) }
{
    let used_cols = flags_at(&alive.at[..alive.count], false);
    matching::match_detections_and_objects(m, [false; 32], used_cols)
}

// Pass 2: the rows that pass 1 left, the initializing columns.
#[tactic(auto, unfolding(crate::specs::Passes::second_pass))]
pub fn second_pass(m: LentMatrix<'_>, initializing: &Numbers<64>, first: &Picks) -> Picks
    requires { (initializing.now.count ≤ 64) × EachBelow 64 initializing.now.count initializing.now.at × (first.now.count ≤ 32) × EachBelow 32 first.now.count first.now.rows }
    ensures { result ≡ picks_of (second_pass (lent_matrix m.entry) (numbers initializing.now) (rows_picked first.now)) }
{
    let used_rows = flags_at(&first.rows[..first.count], true);
    let used_cols = flags_at(&initializing.at[..initializing.count], false);
    matching::match_detections_and_objects(m, used_rows, used_cols)
}
