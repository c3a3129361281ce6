// Rule 41: a lent matrix of distances, row by row.
ghost use Rattle.std.specs.Prelude.{◌*◌, ◌≤◌, length};

// At most 32 rows and 64 columns; an entry counts if finite and strictly below the threshold.
#[derive(Clone, Copy)]
pub struct LentMatrix<'a> {
    pub entries: &'a [f64],
    pub rows: usize,
    pub cols: usize,
    pub threshold: f64,
    ghost few_rows: { rows ≤ 32 },
    ghost few_cols: { cols ≤ 64 },
    ghost lent: { rows * cols ≤ length entries.now },
}
