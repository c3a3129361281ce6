// Rule 40: what the host lends of a frame to step 2.
ghost use Rattle.std.specs.Prelude.{◌≡◌};
ghost use Rattle.passes.specs.Checks.{lent_frame, lengths_of};

// The period; for each detection its coordinates, its scores and a has-scores byte (0 is none); the matrix, detections by records in the table, row by row. The bytes are the host's, as C has them.
#[derive(Clone, Copy)]
pub struct LentFrame<'a> {
    pub period: u32,
    pub points: &'a [f64],
    pub scores: &'a [f64],
    pub has_scores: &'a [u8],
    pub distances: &'a [f64],
}

// The lengths of what is lent. The pair list is an output: only its places matter.
#[derive(Clone, Copy)]
pub struct LentLengths {
    pub points: usize,
    pub scores: usize,
    pub has_scores: usize,
    pub distances: usize,
    pub pairs: usize,
}

impl LentFrame<'_> {
    pub fn lengths(self, places: usize) -> LentLengths
        ensures { result ≡ lengths_of (lent_frame self.entry) places }
    {
        LentLengths {
            points: self.points.len(),
            scores: self.scores.len(),
            has_scores: self.has_scores.len(),
            distances: self.distances.len(),
            pairs: places,
        }
    }
}
