// The assignment, and the counts taken afresh from it. `ValidSheet` stays in the contracts, as in index.
ghost use Rattle.std.specs.Prelude.{◌≡◌, cond, ◌-◌, ◌*◌, ◌/◌, ◌≤◌, ◌<◌, length};
ghost use Rattle.judgement.specs.Scan.{one};
ghost use Rattle.judgement.specs.Meaning.{literal_true};
ghost use Rattle.judgement.specs.Sheet.{variables, clauses, clause};
ghost use Rattle.judgement.specs.Record.{assignment_size};
ghost use Rattle.judgement.specs.Buffer.{Kept};
ghost use Rattle.judgement.specs.Facts.{Among, ValidSheet};
ghost use Rattle.turns.specs.Turning.{value_in, true_in, turn};
ghost use Rattle.turns.specs.Counts.{at_zero, CountedFor};

use crate::place;

#[tactic(auto, using(crate::proofs::Coding::bit_read))]
pub(crate) fn is_true(a: &[u8], v: usize) -> bool
    requires { (1 ≤ v) × ((v - 1) / 8 < length a.now) }
    ensures { result ≡ value_in a.now v }
{
    let i = v - 1;
    let byte = a[i / 8];
    (byte >> (i % 8)) & 1 == 1
}

// Variable v the other way.
#[tactic(auto, using(crate::proofs::Coding::bit_turned))]
pub(crate) fn flip(a: &mut [u8], v: usize)
    requires { (1 ≤ v) × ((v - 1) / 8 < length a.old) }
    ensures { a.new ≡ turn a.old v }
{
    let i = v - 1;
    let at = i / 8;
    let byte = a[at];
    a[at] = byte ^ (1 << (i % 8));
}

#[tactic(auto, unfolding(judgement::specs::Meaning::literal_true))]
fn is_literal_true(a: &[u8], c: u16) -> bool
    requires { (1 ≤ c / 2) × ((c / 2 - 1) / 8 < length a.now) }
    ensures { result ≡ literal_true (value_in a.now) c }
{
    is_true(a, (c / 2) as usize) == (c % 2 == 0)
}

// How many literals of clause k are true.
fn true_in(s: &[u8], a: &[u8], k: u32) -> u16
    requires { ValidSheet s.now × Among (clauses s.now) k × (assignment_size (variables s.now) ≤ length a.now) }
    ensures { result ≡ true_in (value_in a.now) (clause s.now k) }
{
    let part = sheet::clause_of(s, k);
    let q = part.len() / 2;
    let mut sum: u16 = 0;
    for i in 0..q {
        sum += u16::from(is_literal_true(a, place::u16_at(part, 2 * i)));
    }
    sum
}

// The counts of the assignment; answers how many are 0.
pub(crate) fn count_afresh(s: &[u8], a: &[u8], counts: &mut [u8]) -> usize
    requires { ValidSheet s.now × (assignment_size (variables s.now) ≤ length a.now) × (2 * clauses s.now ≤ length counts.old) }
    ensures { CountedFor s.now (value_in a.now) result counts.new
        × Kept (2 * clauses s.now) counts.old counts.new }
{
    let m = sheet::clause_count(s);
    let mut total: usize = 0;
    for k in 0..m {
        let x = true_in(s, a, k + 1);
        place::put_u16(counts, 2 * (k as usize), x);
        total += usize::from(x == 0);
    }
    total
}
