// Bad input to step 1: its refusals, and lists that are not whole. Both counts are asked of each table.
ghost use Rattle.std.specs.Prelude.{◌≤◌};

use crate::same::Same;
use crate::tables::{MOST_FRAMES, framed, good, holding, made, places, zeros};
use crate::{number_of, told};
use std::{fmt, io};
use table::{Phase, Table};
use tracker::Refusal;

// What step 1 answers, and whether it changed the table or the storage, of which so many floats are lent.
fn step(rt: &impl Print, name: &str, t: Table, floats: usize) -> io::Result<()>
    requires { floats ≤ 31 }
{
    let before = [0.25; 31];
    let mut storage = before;
    let a = tracker::predict(t, &mut storage[..floats]);
    let kept = a.table.same(&t) && storage.same(&before);
    println!(rt; "step 1, {name}: {}, {}", number_of(&a), told(kept))?;
    counts(rt, t)
}

fn counts(rt: &impl Print, t: Table) -> io::Result<()> {
    let total = tracker::total_object_count(t);
    let current = tracker::current_object_count(t);
    println!(rt; "  counts: {}, {}", Told(total), Told(current))
}

// The refusal, 0 where there is none, and the count, 0 where there is none.
#[derive(Clone, Copy)]
struct Told(Result<usize, Refusal>);

impl fmt::Display for Told {
    fn fmt<W: fmt::Write>(&self, f: &mut fmt::Formatter<W>) -> fmt::Result {
        match self.0 {
            Ok(count) => write!(f, "0 {count}"),
            Err(refusal) => write!(f, "{refusal} 0"),
        }
    }
}

fn out_of_step(t: Table) -> Table {
    Table {
        phase: Phase::Match,
        ..t
    }
}

pub(crate) fn alone(rt: &impl Print) -> io::Result<()> {
    let fresh = made(good());
    step(rt, "fresh", fresh, 30)?;
    step(rt, "fresh, one float too long", fresh, 31)?;
    step(rt, "zeros", zeros(), 30)?;
    step(rt, "one float short", fresh, 29)?;
    step(rt, "out of step", out_of_step(fresh), 30)?;
    step(rt, "frames used up", framed(fresh, MOST_FRAMES), 30)?;
    step(rt, "too many frames", framed(fresh, MOST_FRAMES + 1), 30)
}

// Two refusals are due: the first in order answers.
pub(crate) fn in_pairs(rt: &impl Print) -> io::Result<()> {
    let fresh = made(good());
    let used_up = framed(fresh, MOST_FRAMES);
    let too_many = framed(fresh, MOST_FRAMES + 1);
    step(rt, "zeros, storage short", zeros(), 0)?;
    step(rt, "zeros, out of step", out_of_step(zeros()), 30)?;
    step(rt, "too many frames, storage short", too_many, 29)?;
    step(rt, "storage short, out of step", out_of_step(fresh), 29)?;
    step(rt, "storage short, frames used up", used_up, 29)?;
    step(rt, "out of step, frames used up", out_of_step(used_up), 30)
}

// Two records, and a list of alive ones.
pub(crate) fn lists(rt: &impl Print) -> io::Result<()> {
    let mut fresh = holding(good(), 2, Phase::Predict);
    // step 1 reads no ID
    for o in &mut fresh.records[..2] {
        o.origin.global_id = 0;
        o.origin.initializing_id = 0;
    }
    let twice = places(1, 1, 2);
    let past = places(0, 2, 2);
    for (name, alive, frames) in [
        ("a list of both records", places(1, 0, 2), 0),
        ("a list that names a record twice", twice, 0),
        ("a list that names a record past the count", past, 0),
        ("a list longer than its array", places(0, 1, 65), 0),
        (
            "a list that names a record twice, frames used up",
            twice,
            MOST_FRAMES,
        ),
    ] {
        let mut t = framed(fresh, frames);
        t.lists.alive = alive;
        step(rt, name, t, 30)?;
    }
    Ok(())
}
