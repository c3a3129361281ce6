// Rule 47: the pair list, which the host lends.
#![tactic(auto)]

ghost use Rattle.std.specs.Prelude.{◌≡◌, ◌++◌, ◌<◌, ◌≤◌, length, set, drop};

// A hit: the detection's number, the record's global ID, the pass, 1 or 2, and the distance.
// The pass is a number and no enum, which would be narrower: a lent list may hold any number there before it is written (`refusals` lends 79), and `put_pairs` leaves the rest as it was.
#[derive(Clone, Copy, Default)]
pub struct Pair {
    pub detection: usize,
    pub global_id: u32,
    pub pass: u32,
    pub distance: f64,
}

// Writes one pair into a lent list.
fn put_pair(list: &mut [Pair], i: usize, pair: Pair)
    requires { i < length list.old }
    ensures { list.new ≡ set list.old i pair }
{
    list[i] = pair;
}

// Writes the pairs over the front of a lent list.
#[tactic(auto, using(crate::proofs::Front::front_turn))]
pub fn put_pairs(list: &mut [Pair], from: &[Pair])
    requires { length from.now ≤ length list.old }
    ensures { list.new ≡ from.now ++ drop (length from.now) list.old }
{
    for (i, pair) in from.iter().enumerate() {
        put_pair(list, i, *pair);
    }
}
