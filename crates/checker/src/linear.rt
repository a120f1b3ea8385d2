// Kind 5: weighted clauses, refusals 23 and 24. Each variable has a number that a literal of a cited clause moves: its remainder, or,
// where the step settles it, a number far from 0 that is moved alike. The total follows by how far the number is below 0 before and
// after. A mark tells whether the step has set the number, so that none has to be cleared, and a variable that neither the step nor a
// cited clause names costs no time: it adds nothing.
ghost use Rattle.std.specs.Prelude.{◌≡◌, ℕ, ◌+◌, ◌-◌, ◌*◌, ◌/◌, ◌^◌, ◌<◌, ◌≤◌, List, length, pos, ◌+ℤ◌, ◌-ℤ◌, slice_set, unsigned_abs};
ghost use Rattle.judgement.specs.Finding.{◌then◌};
ghost use Rattle.judgement.specs.Integers.{below_zero, rounded_up};
ghost use Rattle.judgement.specs.Meaning.{with_loss};
ghost use Rattle.judgement.specs.Literals.{count};
ghost use Rattle.judgement.specs.Kinds.{negative_cost};
ghost use Rattle.judgement.specs.Sheet.{variables, clause_pairs_at, problem_of};
ghost use Rattle.judgement.specs.declared.Kind.TheVariants.{WeightedSet};
ghost use Rattle.judgement.specs.Step.{kind_of, literals, tail, divisor, entry_count};
ghost use Rattle.judgement.specs.Linear.{remainder, total_of, is_weighted, weights_finding, linear_bound};
ghost use Rattle.judgement.specs.Facts.{Among, LiteralList};
ghost use Rattle.checker.specs.Known.{form_then};
ghost use Rattle.checker.specs.Marks.{Stale};
ghost use Rattle.checker.specs.Weighing.{Weighable, Entered, shift, negative_weight, kept_of, Settling, Weighing, full_of};

use crate::cost::PricedSheet;
use crate::step::Body;
use crate::{form, independent, read, signed};
use judgement::{Finding, Kind, Reason};

// What kinds 3 and 5 keep of the variables from step to step: the mark of variable v is at v - 1, and so is its number.
// Two arrays, and none of pairs: kind 3 borrows the marks alone, and the facts are about lists of marks.
#[derive(Drop)]
pub(crate) struct Scratch {
    pub(crate) marks: [u64; 1024],
    pub(crate) rest: [i64; 1024],
    // What the type says of `rest`, for the proofs of methods that have lent it on.
    ghost whole: { length rest ≡ 1024 },
}

impl Scratch {
    // Marks the variables that falsifying the list settles, sets their numbers far from 0, and sums what the list costs.
    fn settle(&mut self, priced: &PricedSheet<'_>, part: &[u8], t: u64) -> u64
        requires { Stale 1024 self.old.marks t × LiteralList (variables priced.now.sheet.now) part.now }
        ensures settled { Settling part.now (count part.now) t self.new.marks self.new.rest }
        ensures cost { (result ≡ negative_cost priced.now.sheet.now part.now) × (result ≤ 2 ^ 42) }
    {
        let q = part.len() / 2;
        let mut sum = 0;
        for i in 0..q {
            let c = read::code_in_form(part, i);
            let begin = signed::far(c);
            self.marks[c / 2 - 1] = t;
            self.rest[c / 2 - 1] = begin;
            sum += priced.falsified[c];
        }
        sum
    }

    // Meets a literal of a clause of weight y: what it adds to the total. `full` is what the number of its variable begins at, where
    // the step has not set it yet. No mark is above t, so that a mark less t, in 64 bits, is below 0 exactly there.
    fn meet(&mut self, full: u64, c: usize, y: u64, t: u64) -> i64
        requires { Stale 1024 self.old.marks (t + 1) × (t < 2 ^ 62) × Among 1024 (c / 2) × (full ≤ 2 ^ 48) × (y < 2 ^ 16) × (unsigned_abs (kept_of self.old.marks self.old.rest t full (c / 2)) < 2 ^ 60) }
        ensures marked { self.new.marks ≡ slice_set self.old.marks (c / 2 - 1) t }
        ensures kept { self.new.rest ≡ slice_set self.old.rest (c / 2 - 1) (kept_of self.old.marks self.old.rest t full (c / 2) +ℤ shift c y) }
        ensures told { result ≡ below_zero (kept_of self.old.marks self.old.rest t full (c / 2) +ℤ shift c y) -ℤ below_zero (kept_of self.old.marks self.old.rest t full (c / 2)) -ℤ pos (negative_weight c y) }
    {
        let v = c / 2;
        let kept = self.rest[v - 1];
        let stale = self.marks[v - 1].wrapping_sub(t) / independent::HALF;
        let old = signed::one_of(stale as usize, kept, signed::natural(full));
        let w = (c % 2) as u64 * y;
        let new = signed::shifted(old, w, y);
        self.marks[v - 1] = t;
        self.rest[v - 1] = new;
        signed::gained(old, new, w)
    }

    // Weighs entry j + 1 of the tail, whose divisor is d: what it adds to the total. Nothing else takes tail, d and t together.
    fn add_entry(&mut self, priced: &PricedSheet<'_>, tail: &[u8], d: u64, j: usize, t: u64) -> i64
        requires { Entered priced.now.sheet.now priced.now.falsified.now tail.now priced.now.pairs d j × (t < 2 ^ 62) × ((D : List ℕ) × Weighing (variables priced.now.sheet.now) D (full_of priced.now.sheet.now tail.now) (remainder priced.now.sheet.now tail.now j) t self.old.marks self.old.rest) }
        ensures size { unsigned_abs result ≤ 2 ^ 28 }
        ensures adds { (D : List ℕ) → Weighing (variables priced.now.sheet.now) D (full_of priced.now.sheet.now tail.now) (remainder priced.now.sheet.now tail.now j) t self.old.marks self.old.rest → Weighing (variables priced.now.sheet.now) D (full_of priced.now.sheet.now tail.now) (remainder priced.now.sheet.now tail.now (j + 1)) t self.new.marks self.new.rest × (total_of priced.now.sheet.now D tail.now j +ℤ result ≡ total_of priced.now.sheet.now D tail.now (j + 1)) }
    {
        let at = 2 + 6 * j;
        let clause = priced.clause(read::u32_at(tail, at) as u32);
        let y = read::u16_at(tail, at + 4) as u64;
        let q = clause.len() / 2;
        let mut sum = signed::natural(y);
        for i in 0..q {
            let c = read::code_in_form(clause, i);
            let full = d * priced.falsified[2 * (c / 2) + 1];
            let gain = self.meet(full, c, y, t);
            sum = signed::plus(sum, gain);
        }
        sum
    }

    // The bound of a step with these literals and this tail.
    fn bound_by(&mut self, priced: &PricedSheet<'_>, list: &[u8], tail: &[u8], t: u64) -> u64
        requires { Weighable priced.now.sheet.now list.now tail.now × (1 ≤ divisor tail.now) × Stale 1024 self.old.marks t × (t < 2 ^ 62) }
        ensures kept { Stale 1024 self.new.marks (t + 1) }
        ensures bound { result ≡ with_loss (problem_of priced.now.sheet.now) (rounded_up (total_of priced.now.sheet.now list.now tail.now (entry_count tail.now)) (divisor tail.now)) }
    {
        let d = read::u16_at(tail, 0) as u64;
        let count = (tail.len() - 2) / 6;
        let mut sum = signed::natural(d * self.settle(priced, list, t));
        for j in 0..count {
            let gain = self.add_entry(priced, tail, d, j, t);
            sum = signed::plus(sum, gain);
        }
        priced.with_loss(signed::rounded_up(sum, d))
    }

    // Refusals 23 and 24.
    fn weighted_finding(&mut self, priced: &PricedSheet<'_>, b: Body<'_>, k: u32) -> Finding
        requires { Weighable priced.now.sheet.now (literals b.bytes.now) (tail b.bytes.now) × Stale 1024 self.old.marks (4096 * k) }
        ensures stale { Stale 1024 self.new.marks (4096 * k + 1) }
        ensures finding { result ≡ (weights_finding b.entry.bytes.now k then linear_bound priced.now.sheet.now b.entry.bytes.now k) }
    {
        let tail = b.tail();
        if !is_weighted(tail) {
            return Err(Reason::Weights.at(k));
        }
        let list = b.literals();
        let t = independent::APART * (k as u64);
        if b.bound() != self.bound_by(priced, list, tail, t) {
            return Err(Reason::LinearBound.at(k));
        }
        Ok(())
    }

    // Refusals 8, 9, 23 and 24 of a step of kind 5.
    pub(crate) fn linear_finding(&mut self, priced: &PricedSheet<'_>, b: &[u8], k: u32) -> Finding
        requires { (kind_of b.now ≡ WeightedSet) × Stale 1024 self.old.marks (4096 * k) }
        ensures stale { Stale 1024 self.new.marks (4096 * k + 1) }
        ensures finding { result ≡ form_then priced.now.sheet.now b.now k (weights_finding b.now k then linear_bound priced.now.sheet.now b.now k) }
    {
        form::form_finding(priced.sheet, b, Kind::WeightedSet, k)?;
        self.weighted_finding(priced, Body { bytes: b }, k)
    }
}

// Neither the divisor nor a weight is 0.
fn is_weighted(tail: &[u8]) -> bool
    requires { length tail.now ≡ 2 + 6 * entry_count tail.now }
    ensures { result ≡ is_weighted tail.now }
{
    if read::u16_at(tail, 0) == 0 {
        return false;
    }
    let q = (tail.len() - 2) / 6;
    for j in 0..q {
        if read::u16_at(tail, 2 + 6 * j + 4) == 0 {
            return false;
        }
    }
    true
}
