// Rules 44 and 48: who is left over, the old ones and the candidates.
ghost use Rattle.std.specs.Prelude.{◌≡◌, ◌++◌, ◌≤◌, ◌+◌, length};
ghost use Rattle.laws.specs.Lists.{keep};
ghost use Rattle.matching.specs.Lent.{picked, picks_of};
ghost use Rattle.matching.specs.Unmatched.{numbers_of};
ghost use Rattle.table.specs.Making.{candidates_of};
ghost use Rattle.passes.specs.Passes.{numbers, rows_picked, cols_picked, among, left_over, old_ones, NamesOnce};

use matching::{Numbers, Picks};

// Those of some numbers that are, or are not, in a list; order kept.
#[tactic(auto, using(crate::proofs::Filling::at_most_looked_at, crate::proofs::Filling::looked_joins, crate::proofs::Filling::looked_stays), unfolding(laws::specs::Lists::keep))]
fn keep_among(of: &[usize], list: &[usize], wanted: bool) -> Numbers<64>
    requires { length of.now ≤ 64 }
    ensures { result ≡ numbers_of (keep (among wanted list.now) of.now) }
{
    let mut kept = Numbers {
        at: [0; 64],
        count: 0,
    };
    for x in of {
        if list.contains(x) == wanted {
            kept.at[kept.count] = *x;
            kept.count += 1;
        }
    }
    kept
}

// Numbers, then a list.
#[tactic(auto, using(crate::proofs::Filling::appended_next))]
fn append(mut front: Numbers<64>, list: &[usize]) -> Numbers<64>
    requires { (front.count + length list.now ≤ 64) × (front ≡ numbers_of (numbers front)) }
    ensures { result ≡ numbers_of (numbers front ++ list.now) }
{
    for x in list {
        front.at[front.count] = *x;
        front.count += 1;
    }
    front
}

// The detections that neither pass took, ascending.
pub fn left_over(total: usize, first: &Picks, second: &Picks) -> Numbers<64>
    requires { (total ≤ 32) × (first.now.count ≤ 32) × (second.now.count ≤ 32) }
    ensures { result ≡ numbers_of (left_over total (rows_picked first.now) (rows_picked second.now)) }
{
    let left = matching::get_unmatched(total, &first.rows[..first.count]);
    keep_among(&left.at[..left.count], &second.rows[..second.count], false)
}

// The alive that pass 1 left, ascending, then each dead one, in the order in which it is listed, that is not already named.
pub fn old_ones(
    records: usize,
    alive: &Numbers<64>,
    dead: &Numbers<64>,
    first: &Picks,
) -> Numbers<64>
    requires { (records ≤ 64) × (alive.now.count ≤ 64) × (dead.now.count ≤ 64) × (first.now.count ≤ 32) × NamesOnce records (numbers dead.now) }
    ensures { result ≡ numbers_of (old_ones records (numbers alive.now) (numbers dead.now) (cols_picked first.now)) }
{
    let unmatched = matching::get_unmatched(records, &first.cols[..first.count]);
    let left = keep_among(
        &unmatched.at[..unmatched.count],
        &alive.at[..alive.count],
        true,
    );
    let unnamed = keep_among(&dead.at[..dead.count], &left.at[..left.count], false);
    append(left, &unnamed.at[..unnamed.count])
}

// The records that pass 2 hit, in hit order: its columns, 0 behind the last.
pub fn candidates(second: &Picks) -> Numbers<32>
    requires { second.now ≡ picks_of (picked second.now) }
    ensures { result ≡ candidates_of (cols_picked second.now) }
{
    Numbers {
        at: second.cols,
        count: second.count,
    }
}
