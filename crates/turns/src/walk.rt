// Turns: one variable the other way, and the counts of the clauses that its list in the index names.
ghost use Rattle.std.specs.Prelude.{◌≡◌, true, false, ◌+◌, ◌*◌, ◌%◌, ◌≤◌, ◌<◌, length, eqb};
ghost use Rattle.judgement.specs.Number.{number_at};
ghost use Rattle.judgement.specs.Sheet.{variables, clauses};
ghost use Rattle.judgement.specs.Record.{assignment_size};
ghost use Rattle.judgement.specs.Buffer.{Kept};
ghost use Rattle.judgement.specs.Facts.{Among, ValidSheet};
ghost use Rattle.turns.specs.Turning.{value_in, turn, turned};
ghost use Rattle.turns.specs.Promises.{AllTurns};
ghost use Rattle.turns.specs.Index.{FilledTo};
ghost use Rattle.std.proofs.Props.{props};
ghost use Rattle.turns.specs.Counts.{agrees, stepped, CountedFor, Steps, Touched};

use crate::{counts, place};

// The literal of entry x is true where its variable has this value.
fn is_up(x: usize, value: bool) -> bool
    ensures { result ≡ agrees (eqb (x % 2) 0) value }
{
    value == (x % 2 == 0)
}

// One more or one less.
fn step_of(up: bool, x: u16) -> u16
    requires { (up ≡ true → x + 1 < 65536) × (up ≡ false → 1 ≤ x) }
    ensures { result ≡ stepped up x }
{
    if up {
        return x + 1;
    }
    x - 1
}

// The count at `at` stepped; answers the total.
// Counts and total stay apart: after a call with a struct of both, the caller's proof has no more than the length of the counts (tried).
fn touch(up: bool, counts: &mut [u8], at: usize, total: usize) -> usize
    requires { (at + 2 ≤ length counts.old) × Steps up (number_at counts.old at 2) total }
    ensures { Touched up at total result counts.old counts.new }
{
    let x = place::u16_at(counts, at);
    let y = step_of(up, x);
    place::put_u16(counts, at, y);
    total + usize::from(y == 0) - usize::from(x == 0)
}

// A valid sheet, and its index with the signs.
#[derive(Clone, Copy)]
pub(crate) struct Indexed<'a> {
    pub(crate) sheet: &'a [u8],
    pub(crate) index: &'a [u8],
    ghost valid: { ValidSheet sheet.now } by { Prim.hlevel props },
    ghost filled: { FilledTo sheet.now (clauses sheet.now) index.now } by { Prim.hlevel props },
}

// That the assignment has its bytes stays in three contracts, and the counts go with their total: of what is lent on by `&mut` a ghost
// field's fact does not come back (tried).

// The counts of the clauses that mention v, which has been turned in the assignment a; answers the total.
fn walk(x: Indexed, a: &[u8], v: usize, counts: &mut [u8], total: usize) -> usize
    requires { Among (variables x.sheet.now) v × (assignment_size (variables x.sheet.now) ≤ length a.now)
        × CountedFor x.sheet.now (value_in (turn a.now v)) total counts.old }
    ensures { CountedFor x.entry.sheet.now (value_in a.now) result counts.new
        × Kept (2 * clauses x.entry.sheet.now) counts.old counts.new }
{
    let value = counts::is_true(a, v);
    let at = 8 * (v - 1);
    let start = place::u32_at(x.index, at);
    let q = place::u32_at(x.index, at + 4) / 4;
    let mut sum = total;
    for j in 0..q {
        let entry = place::u32_at(x.index, start + 4 * j);
        sum = touch(is_up(entry, value), counts, 2 * (entry / 2 - 1), sum);
    }
    sum
}

// One turn.
fn turn_one(x: Indexed, a: &mut [u8], v: usize, counts: &mut [u8], total: usize) -> usize
    requires { Among (variables x.sheet.now) v × (assignment_size (variables x.sheet.now) ≤ length a.old)
        × CountedFor x.sheet.now (value_in a.old) total counts.old }
    ensures { (a.new ≡ turn a.old v) × CountedFor x.entry.sheet.now (value_in a.new) result counts.new
        × Kept (2 * clauses x.entry.sheet.now) counts.old counts.new }
{
    counts::flip(a, v);
    walk(x, a, v, counts, total)
}

// Each turn, in the list's order; answers how many counts are 0 then.
pub(crate) fn turn_all(
    x: Indexed,
    a: &mut [u8],
    turns: &[u16],
    counts: &mut [u8],
    total: usize,
) -> usize
    requires { AllTurns (variables x.sheet.now) turns.now × (assignment_size (variables x.sheet.now) ≤ length a.old)
        × CountedFor x.sheet.now (value_in a.old) total counts.old }
    ensures { (a.new ≡ turned a.old turns.now)
        × CountedFor x.entry.sheet.now (value_in a.new) result counts.new
        × Kept (2 * clauses x.entry.sheet.now) counts.old counts.new }
{
    let mut sum = total;
    for v in turns {
        sum = turn_one(x, a, *v as usize, counts, sum);
    }
    sum
}
