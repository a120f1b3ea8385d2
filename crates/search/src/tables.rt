// The tables of a problem.
ghost use Rattle.search.specs.Tables.{FineTables};

use crate::Size;

// What each variable costs; for each clause the sets of its positive and of its negative variables, side by side; and for each
// literal the row of the clauses that have it, 64 to a number. The pairs and the rows lie in flat arrays, as `positives`, `negatives`
// and `in_row` of specs/Tables.antt read them.
#[derive(Drop)]
pub struct Tables {
    pub size: Size,
    pub costs: [u32; 64],
    pub masks: [u64; 8192],
    pub rows: [u64; 8192],
    ghost fine: { FineTables size costs masks rows },
}
