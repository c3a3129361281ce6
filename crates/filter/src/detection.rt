// Rule 40: one detection as the host lends it.

// The scores are lent and stored in any case; the flag says whether they are used.
#[derive(Clone, Copy)]
pub struct LentDetection<'a> {
    pub points: &'a [f64],
    pub scores: &'a [f64],
    pub has_scores: bool,
}
