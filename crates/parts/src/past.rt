// Rules 45 and 62: the history of a record, its marks in the record and its floats in the block.
ghost use Rattle.std.specs.Prelude.{◌≡◌, [], ◌∷◌, ◌++◌, ◌≤◌, ◌<◌, ◌+◌, ◌-◌, ◌*◌, length, drop};
ghost use Rattle.std.proofs.Math.Seq.{paste};
ghost use Rattle.parts.specs.Ranges.{AgeInRange};
ghost use Rattle.parts.specs.Past.{room_made, place_of, pushed, is_due};

use crate::PastDetection;
use filter::detection::LentDetection;

// Floats into s, from a place on.
pub fn write_at(s: &mut [f64], at: usize, from: &[f64])
    requires { at + length from.now ≤ length s.old }
    ensures { s.new ≡ paste s.old at from.now (length from.now) }
{
    s[at..at + from.len()].copy_from_slice(from);
}

// n floats of s moved down, from place `from` to place at.
pub fn move_down(s: &mut [f64], at: usize, from: usize, n: usize)
    requires { (at ≤ from) × (from + n ≤ length s.old) }
    ensures { s.new ≡ paste s.old at (drop from s.old) n }
{
    s.copy_within(from..from + n, at);
}

// A detection's coordinates and scores, one behind the other.
pub fn write_detection(s: &mut [f64], at: usize, d: LentDetection<'_>)
    requires { at + (length d.points.now + length d.scores.now) ≤ length s.old }
    ensures { s.new ≡ paste s.old at (d.entry.points.now ++ d.entry.scores.now) (length d.entry.points.now + length d.entry.scores.now) }
{
    write_at(s, at, d.points);
    write_at(s, at + d.points.len(), d.scores);
}

// The place of the next entry of width floats, in a history of at most `most` entries that starts at `at`.
pub fn place_of(at: usize, width: usize, most: usize, count: usize) -> usize
    requires { (at + most * width < 65536) × (0 < most) × (count ≤ most) }
    ensures { result ≡ place_of most width at count }
{
    at + count.min(most - 1) * width
}

// Room for one entry more: where the history is full, the oldest leaves.
pub fn make_room(s: &mut [f64], at: usize, width: usize, most: usize, count: usize)
    requires { (at + most * width ≤ length s.old) × (0 < most) }
    ensures { s.new ≡ room_made most width at count s.old }
{
    if most <= count {
        move_down(s, at, at + width, (most - 1) * width);
    }
}

// The marks with one entry more, the oldest leaving beyond the length.
#[tactic(auto, using(crate::proofs::PastLaws::one_pushed))]
pub fn push_mark(
    mut past: [PastDetection; 8],
    most: usize,
    count: usize,
    entry: PastDetection,
) -> [PastDetection; 8]
    requires { (0 < most) × (most ≤ 8) × (count ≤ most) }
    ensures { result ≡ pushed most 1 0 count (entry ∷ []) past }
{
    if most <= count {
        past.copy_within(1..most, 0);
    }
    past[count.min(most - 1)] = entry;
    past
}

// Whether a full history takes an entry at this age: the oldest has an age, and the record's is at least that times the length.
pub fn is_due(oldest: Option<i32>, age: u32, most: usize) -> bool
    requires { AgeInRange oldest × (most ≤ 8) }
    ensures { result ≡ is_due oldest age most }
{
    match oldest {
        Some(oldest) if 0 <= oldest => (oldest as u64) * (most as u64) <= age as u64,
        _ => false,
    }
}
