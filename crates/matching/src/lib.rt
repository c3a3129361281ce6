// Greedy matching of matching.rs on a lent matrix: docs/RULES.md, rules 40 to 44.
#![tactic(auto)]

pub mod matrix;

ghost use Rattle.std.specs.Prelude.{◌≡◌, ◌≤◌};
ghost use Rattle.matching.specs.Greedy.{smaller, next_pick, picks};
ghost use Rattle.matching.specs.Lent.{counts_below, lent_matrix, picks_of};
ghost use Rattle.matching.specs.Unmatched.{unmatched, numbers_of};

use matrix::LentMatrix;

// Picks in order: their rows and columns, 0 behind the last. The matcher works on plain number arrays.
#[derive(Clone, Copy, Debug, PartialEq, Eq)]
pub struct Picks {
    pub rows: [usize; 32],
    pub cols: [usize; 32],
    pub count: usize,
}

// Up to N numbers in order, 0 behind the last: a host may hand in any count. No heap.
#[derive(Clone, Copy, Debug, PartialEq, Eq)]
pub struct Numbers<const N: usize> {
    pub at: [usize; N],
    pub count: usize,
}

// Whether an entry counts.
#[tactic(auto, using(laws::proofs::Finite::finite_is))]
fn counts(threshold: f64, x: f64) -> bool
    ensures { result ≡ counts_below threshold x }
{
    x.is_finite() && x < threshold
}

// Whether x beats the best entry found, which is at the place.
#[tactic(auto, unfolding(crate::specs::Greedy::smaller))]
fn beats(x: f64, place: Option<(usize, usize)>, best: f64) -> bool
    ensures { result ≡ smaller (λ a b. best) x place }
{
    match place {
        Some(_) => x < best,
        None => true,
    }
}

// The smallest counting entry whose row and column are free, the first in row-major order.
#[tactic(auto, unfolding(crate::specs::Greedy::scan_row, crate::specs::Greedy::scan_rows))]
fn next_pick(
    m: LentMatrix<'_>,
    used_rows: [bool; 32],
    used_cols: [bool; 64],
) -> Option<(usize, usize)>
    ensures { result ≡ next_pick (lent_matrix m.entry) used_rows used_cols }
{
    // a form that is asked for by name (docs/DECISIONS.md): the scans stand in a loop that breaks with its place
    loop {
        let mut place = None;
        let mut best = 0.0;
        for i in 0..m.rows {
            for j in 0..m.cols {
                let x = m.entries[i * m.cols + j];
                // `&` leaves no branch an entry: with `&&` a scan took 2.9 times as long where half of the entries count
                let free = !used_rows[i] & !used_cols[j];
                if counts(m.threshold, x) & free & beats(x, place, best) {
                    place = Some((i, j));
                    best = x;
                }
            }
        }
        break place;
    }
}

// The picks of a lent matrix in order. Rows and columns that take no part are marked used at entry.
pub fn match_detections_and_objects(
    m: LentMatrix<'_>,
    mut used_rows: [bool; 32],
    mut used_cols: [bool; 64],
) -> Picks
    ensures { result ≡ picks_of (picks (lent_matrix m.entry) used_rows used_cols) }
{
    let mut picks = Picks {
        rows: [0; 32],
        cols: [0; 32],
        count: 0,
    };
    for n in 0..m.rows {
        let Some((i, j)) = next_pick(m, used_rows, used_cols) else {
            break;
        };
        used_rows[i] = true;
        used_cols[j] = true;
        picks.rows[n] = i;
        picks.cols[n] = j;
        picks.count = n + 1;
    }
    picks
}

// The numbers below a total that none of the matched ones is, ascending.
#[tactic(auto, using(crate::proofs::Left::at_most_looked_at, crate::proofs::Left::unmatched_joins, crate::proofs::Left::matched_stays), unfolding(laws::specs::Lists::below, laws::specs::Lists::keep))]
pub fn get_unmatched(total: usize, matched: &[usize]) -> Numbers<64>
    requires { total ≤ 64 }
    ensures { result ≡ numbers_of (unmatched total matched.now) }
{
    let mut left = Numbers {
        at: [0; 64],
        count: 0,
    };
    for i in 0..total {
        if !matched.contains(&i) {
            left.at[left.count] = i;
            left.count += 1;
        }
    }
    left
}
