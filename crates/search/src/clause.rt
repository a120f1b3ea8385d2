// One clause at a node, held as two sets: its positive variables a and its negative ones b.
ghost use Rattle.std.specs.Prelude.{◌≡◌, not, ◌&&◌, ◌||◌, ℕ, ◌≤◌};
ghost use Rattle.judgement.specs.Facts.{Among};
ghost use Rattle.search.specs.Node.{has};
ghost use Rattle.search.specs.Tables.{clause_of, FineClause};
ghost use Rattle.search.specs.Work.{Looked};

use crate::Work;

// The variables of its literals that are not false.
#[tactic(auto, using(crate::proofs::Masks::not_false_law))]
fn not_false(a: u64, b: u64, w: Work) -> u64
    ensures { (v : ℕ) → Among 64 v → has result v ≡ (has a v && not (has w.falses v)) || (has b v && not (has w.trues v)) }
{
    (a & !w.falses) | (b & !w.trues)
}

// Where the clause is false, nothing goes on; where one literal alone is not false, and is not settled, it is settled.
pub(crate) fn look(a: u64, b: u64, w: Work) -> Option<Work>
    ensures { (n : ℕ) → n ≤ 64 → FineClause n a b → Looked n (clause_of a b) w result }
{
    let rest = not_false(a, b, w);
    if rest == 0 {
        return None;
    }
    // Without its lowest variable something is left: it has two.
    if rest & (rest - 1) != 0 {
        return Some(w);
    }
    if rest & (w.trues | w.falses) != 0 {
        return Some(w);
    }
    let mut trues = w.trues;
    let mut falses = w.falses;
    if rest & a != 0 {
        trues |= rest;
    } else {
        falses |= rest;
    }
    Some(Work {
        trues,
        falses,
        todo: w.todo | rest,
    })
}
