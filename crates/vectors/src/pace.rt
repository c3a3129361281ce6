// The speed comparison's half: frames are read first, then replayed many times through the public calls, and checksums are printed (FORMAT.md).
use crate::lent::{Detections, Shape};
use crate::reading::Reader;
use std::io;
use std::io::Read;
use tracker::{Pair, Table, TrackerConfig};

// What the host lends in a frame.
#[derive(Drop)]
struct Frame {
    detections: Detections,
    reid_distances: Vec<f64>,
}

// What is printed: sums over all frames of all rounds, and the exclusive or of the bits of the pairs' distances.
#[derive(Clone, Copy, Default)]
struct Sums {
    frames: u64,
    pairs: u64,
    active: u64,
    total: u64,
    distances: u64,
}

// The whole job; at the input's end every word is 0, so that it ends at once.
pub(crate) fn run(
    rt: &(impl Print + AllocGlobal),
    reader: &mut Reader<impl Read>,
) -> io::Result<()> {
    let rounds = reader.few(1000000000)?;
    let config = reader.settings()?;
    // the refusal, which is 0
    reader.word()?;
    let shape = Shape::of(&config);
    let frames: Vec<Frame> = (0..reader.few(16)?)
        .map(|_| read_frame(reader, shape))
        .try_collect(rt.alloc())?;
    let sums = replay(rounds, config, frames.as_slice());
    println!(rt;
        "frames {} pairs {} active {} total {} distances {:x}",
        sums.frames, sums.pairs, sums.active, sums.total, sums.distances
    )
}

fn read_frame(reader: &mut Reader<impl Read>, shape: Shape) -> io::Result<Frame> {
    let mut detections = Detections::read(reader, shape, 1000, 32)?;
    // the frames of a pace have one point of 2 coordinates in a detection (FORMAT.md)
    detections.cut(64, 32);
    Ok(Frame {
        detections,
        reid_distances: reader.matrix()?,
    })
}

// What is timed: from here on nothing is read, and nothing allocated.
fn replay(rounds: usize, config: TrackerConfig, frames: &[Frame]) -> Sums {
    let mut sums = Sums::default();
    for _ in 0..rounds {
        replay_round(config, frames, &mut sums);
    }
    sums
}

// All frames, from a fresh tracker.
fn replay_round(config: TrackerConfig, frames: &[Frame], sums: &mut Sums) {
    // room for 64 records of one point of 2 coordinates with 8 past detections
    let mut storage = [0.0; 2496];
    let mut table = tracker::new(config, &storage).table;
    for lent in frames {
        table = replay_frame(table, &mut storage, lent, sums);
    }
}

fn replay_frame(table: Table, storage: &mut [f64], lent: &Frame, sums: &mut Sums) -> Table {
    let first = tracker::predict(table, storage);
    let second = step_2(first.table, storage, &lent.detections, sums);
    step_3(second, storage, lent.reid_distances.as_slice(), sums)
}

fn step_2(table: Table, storage: &mut [f64], lent: &Detections, sums: &mut Sums) -> Table {
    let mut pairs = [Pair::default(); 32];
    let answer = lent.match_table(table, storage, &mut pairs);
    sums.pairs = sums.pairs.wrapping_add(answer.count as u64);
    for pair in pairs.iter().take(answer.count) {
        sums.distances ^= words::word_of(pair.distance);
    }
    answer.table
}

fn step_3(table: Table, storage: &mut [f64], distances: &[f64], sums: &mut Sums) -> Table {
    let mut active = [0; 64];
    let answer = tracker::reid(table, storage, distances, &mut active);
    let total = tracker::total_object_count(answer.table);
    sums.frames = sums.frames.wrapping_add(1);
    sums.active = sums.active.wrapping_add(answer.count as u64);
    sums.total = sums.total.wrapping_add(total.unwrap_or(0) as u64);
    answer.table
}
