// What the host lends to a frame's steps, and how many floats that and a record's block have.
ghost use Rattle.std.specs.Prelude.{◌≤◌};

use crate::reading::Reader;
use std::io;
use std::io::Read;
use table::Answer;
use tracker::{LentFrame, Pair, Table, TrackerConfig};

// The sizes of a tracker's lists, as its settings have them: no tracker is made with more.
#[derive(Clone, Copy)]
pub(crate) struct Shape {
    pub(crate) points: usize,
    dims: usize,
    past: usize,
    ghost few_points: { points ≤ 16 },
    ghost few_dims: { dims ≤ 3 },
    ghost short_past: { past ≤ 8 },
}

impl Shape {
    pub(crate) fn of(config: &TrackerConfig) -> Self {
        Shape {
            points: config.points.min(16),
            dims: config.dims.min(3),
            past: config.past_detections_length.min(8),
        }
    }

    // How many coordinates a detection has.
    fn coordinates(self) -> usize
        ensures { result ≤ 48 }
    {
        self.points * self.dims
    }

    // How many floats are used of a record's block with so many past detections.
    pub(crate) fn used_floats(self, past: usize) -> usize {
        let coordinates = self.coordinates();
        6 * coordinates + (1 + past.min(8)) * (coordinates + self.points)
    }

    // How many floats a record's block has.
    pub(crate) fn block_floats(self) -> usize {
        self.used_floats(self.past)
    }
}

// What the host lends to step 2.
#[derive(Drop)]
pub(crate) struct Detections {
    period: u32,
    points: Vec<f64>,
    scores: Vec<f64>,
    has_scores: Vec<u8>,
    distances: Vec<f64>,
}

impl Detections {
    // The period and the number of detections are cut down to the most that can be meant.
    pub(crate) fn read(
        reader: &mut Reader<impl Read>,
        shape: Shape,
        longest: usize,
        most: usize,
    ) -> io::Result<Self>
        requires { (longest ≤ 100000) × (most ≤ 64) }
    {
        let period = reader.few(longest)? as u32;
        let detections = reader.few(most)?;
        let records = reader.few(64)?;
        Ok(Detections {
            period,
            points: reader.floats(detections * shape.coordinates())?,
            scores: reader.floats(detections * shape.points)?,
            has_scores: reader.bits(detections)?,
            distances: reader.floats(detections * records)?,
        })
    }

    // Of the coordinates and of the scores so many are lent, and no more.
    pub(crate) fn cut(&mut self, coordinates: usize, scores: usize) {
        self.points.truncate(coordinates);
        self.scores.truncate(scores);
    }

    // Step 2.
    pub(crate) fn match_table(
        &self,
        table: Table,
        storage: &mut [f64],
        pairs: &mut [Pair],
    ) -> Answer {
        let lent = LentFrame {
            period: self.period,
            points: self.points.as_slice(),
            scores: self.scores.as_slice(),
            has_scores: self.has_scores.as_slice(),
            distances: self.distances.as_slice(),
        };
        tracker::match_detections(table, storage, self.has_scores.len(), lent, pairs)
    }
}
