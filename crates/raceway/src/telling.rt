// What the program writes of a frame: the pairs, who is active, the total; and who was opened, merged away, lives again or got a permanent ID.
use parts::TrackedObject;
use std::io;
use tracker::{Pair, Refusal, Table};

// What stands behind a list's name: that it is empty, or nothing.
fn none_if_empty<T>(list: &[T]) -> &'static str {
    if list.is_empty() { " none" } else { "" }
}

// A pair: detection, global ID, pass.
pub(crate) fn hits(rt: &impl Print, pairs: &[Pair]) -> io::Result<()> {
    print!(rt; ": pairs{}", none_if_empty(pairs))?;
    for pair in pairs {
        print!(rt; " {}-{}/{}", pair.detection, pair.global_id, pair.pass)?;
    }
    Ok(())
}

pub(crate) fn active(rt: &impl Print, ids: &[u32]) -> io::Result<()> {
    print!(rt; ", active{}", none_if_empty(ids))?;
    for id in ids {
        print!(rt; " {id}")?;
    }
    Ok(())
}

// Step 3's refusal, which tells of every step: a refused one leaves the next out of step.
pub(crate) fn refusal(rt: &impl Print, refusal: Option<Refusal>) -> io::Result<()> {
    if let Some(refusal) = refusal {
        print!(rt; ", refused by {refusal}")?;
    }
    Ok(())
}

// The total; 0 for a table that is not whole.
pub(crate) fn total(table: &Table) -> usize {
    tracker::total_object_count(*table).unwrap_or(0)
}

// The records in the table.
fn records(table: &Table) -> &[TrackedObject] {
    &table.records[..table.counts.records.min(64)]
}

// The record in the table that has this global ID.
fn record(table: &Table, id: u32) -> Option<&TrackedObject> {
    records(table).iter().find(|o| o.origin.global_id == id)
}

fn is_dead(o: &TrackedObject) -> bool {
    o.life.hit_counter < 0
}

// What step 3 merged: a record leaves the table, and one that was dead lives again.
pub(crate) fn merges(rt: &impl Print, before: &Table, after: &Table) -> io::Result<()> {
    for o in records(before) {
        let id = o.origin.global_id;
        if record(after, id).is_none() {
            print!(rt; "\n  merged away: record {id}")?;
        }
    }
    for o in records(before).iter().filter(|o| is_dead(o)) {
        let id = o.origin.global_id;
        if record(after, id).is_some_and(|now| !is_dead(now)) {
            print!(rt; "\n  lives again: record {id}")?;
        }
    }
    Ok(())
}

// The records opened in this frame, and the permanent IDs issued in it: those above the total before.
pub(crate) fn news(rt: &impl Print, table: &Table, total: usize) -> io::Result<()> {
    for o in records(table) {
        let id = o.origin.global_id;
        if o.life.age == 0 {
            print!(rt; "\n  opened: record {id}")?;
        }
        if let Some(n) = o.life.id
            && total < n as usize
        {
            print!(rt; "\n  permanent ID {n} to record {id}")?;
        }
    }
    Ok(())
}
