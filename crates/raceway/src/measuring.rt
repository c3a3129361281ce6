// The host's distances: |dx| + |dy| between positions, of detections and of records. A record's position is the first two floats of its block.
ghost use Rattle.std.specs.Prelude.{◌≤◌, ◌<◌, IfOk, vec_len};

use std::alloc::{AllocError, Global};
use tracker::Table;

// The floats of a record's block.
const BLOCK: usize = 15;

// The most rows and columns of a matrix: there is room for 8 records, and no more detections are measured.
const MOST: usize = 8;

// The i-th of the parts of one size; empty past the end.
fn part(s: &[f64], size: usize, i: usize) -> &[f64]
    requires { 0 < size }
{
    s.chunks(size).nth(i).unwrap_or(&[])
}

// The block of the record at the i-th of these places; empty past the places and past the storage.
fn block<'a>(storage: &'a [f64], places: &[usize], i: usize) -> &'a [f64] {
    match places.get(i) {
        Some(place) => part(storage, BLOCK, *place),
        None => &[],
    }
}

// |dx| + |dy| between two positions.
fn apart(one: &[f64], other: &[f64]) -> f64 {
    let both = one.iter().zip(other).take(2);
    both.map(|(a, b)| (a - b).abs()).sum()
}

// For step 2: a row for each detection, a column for each record.
pub(crate) fn detections_by_records(
    alloc: Global,
    points: &[f64],
    table: &Table,
    storage: &[f64],
) -> Result<Vec<f64>, AllocError>
    ensures { IfOk result (λ distances. vec_len distances ≤ 64) }
{
    let rows = (points.len() / 2).min(MOST);
    let columns = table.counts.records.min(MOST);
    if columns == 0 {
        return Ok(Vec::new(alloc));
    }
    (0..rows * columns)
        .map(|k| apart(
            part(points, 2, k / columns),
            part(storage, BLOCK, k % columns),
        ))
        .collect(alloc)
}

// For step 3: a row for each candidate, a column for each old one, at the places that step 2 listed.
pub(crate) fn candidates_by_old_ones(
    alloc: Global,
    table: &Table,
    storage: &[f64],
) -> Result<Vec<f64>, AllocError>
    ensures { IfOk result (λ distances. vec_len distances ≤ 64) }
{
    let candidates = &table.lists.candidates;
    let old = &table.lists.old;
    let rows = candidates.count.min(MOST);
    let columns = old.count.min(MOST);
    if columns == 0 {
        return Ok(Vec::new(alloc));
    }
    (0..rows * columns)
        .map(|k| {
            let candidate = block(storage, &candidates.at, k / columns);
            apart(candidate, block(storage, &old.at, k % columns))
        })
        .collect(alloc)
}
