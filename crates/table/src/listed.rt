// Rule 14: whether a list names records in the table, none twice.
ghost use Rattle.std.specs.Prelude.{◌≡◌, length};
ghost use Rattle.table.specs.Wholeness.{names_below, numbers_whole};

use matching::Numbers;

// Whether each number is below the limit, and differs from those before it.
#[tactic(auto, using(crate::proofs::Names::new_name, laws::proofs::Search::any_is_list_any), unfolding(crate::specs::Wholeness::names_below))]
fn are_names(at: &[usize], limit: usize) -> bool
    ensures { result ≡ names_below limit (length at.now) at.now }
{
    for (i, x) in at.iter().enumerate() {
        if limit <= *x || at[..i].contains(x) {
            return false;
        }
    }
    true
}

// A list has as many places as its type says; its count may be any number.
#[tactic(auto, using(crate::proofs::Names::named_front))]
pub fn is_list_whole<const N: usize>(list: &Numbers<N>, records: usize) -> bool
    ensures { result ≡ numbers_whole N records list.now }
{
    list.at
        .get(..list.count)
        .is_some_and(|at| are_names(at, records))
}
