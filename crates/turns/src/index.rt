// The index: its lists sized, placed and filled. The length of each pair is its list's own cursor: counted first, read and cleared when
// the lists are placed, raised again while they are filled, so that nothing beside the index is needed.
//
// While variables are turned, an entry is twice the clause's number, and one more where the clause has the variable's negative literal:
// so no turn has to look into a clause. In the end the entries are halved, and the index is the sheet's.
//
// `ValidSheet s.now` stays in the contracts, and that k is a clause's number: a function here has no other fact of the sheet, so that a
// struct as in walk would take one out and make each `s.now` of an `ensures` an `s.entry.sheet.now`.
// The facts of the index stay: where a struct holds a `&mut`, a caller's proof has no more than the lengths of what is behind it (tried).
ghost use Rattle.std.specs.Prelude.{◌≡◌, ◌-◌, ◌*◌, ◌≤◌, length};
ghost use Rattle.judgement.specs.Sheet.{variables, clauses};
ghost use Rattle.judgement.specs.Buffer.{over, Kept};
ghost use Rattle.judgement.specs.Facts.{Among, ValidSheet};
ghost use Rattle.turns.specs.Turning.{index_of};
ghost use Rattle.turns.specs.Index.{filed, Takes, Sizes, raised, Raises, SizedTo, FilledTo, index_end};

use crate::place;

// The length of the pair of v, raised by one entry.
#[tactic(auto, using(crate::proofs::Sizing::raised_by))]
fn raise(index: &mut [u8], v: usize)
    requires { Raises v index.old }
    ensures { index.new ≡ raised v index.old }
{
    let at = 8 * (v - 1) + 4;
    let size = place::u32_at(index, at);
    place::put_u32(index, at, (size + 4) as u32);
}

// Clause k counted for each variable that it mentions.
fn count_clause(s: &[u8], k: u32, index: &mut [u8])
    requires { ValidSheet s.now × Among (clauses s.now) k × SizedTo s.now (k - 1) index.old }
    ensures { SizedTo s.now k index.new
        × Kept (8 * variables s.now) index.old index.new }
{
    let part = sheet::clause_of(s, k);
    let q = part.len() / 2;
    for i in 0..q {
        let v = place::u16_at(part, 2 * i) / 2;
        raise(index, v as usize);
    }
}

// The lengths of n pairs at 0.
fn clear_sizes(n: usize, index: &mut [u8])
    requires { (n ≤ 1024) × (8 * n ≤ length index.old) }
    ensures { Sizes n (λ v. 0) index.new × Kept (8 * n) index.old index.new }
{
    for v in 0..n {
        place::put_u32(index, 8 * v + 4, 0);
    }
}

// The lengths of all lists.
fn count_sizes(s: &[u8], index: &mut [u8])
    requires { ValidSheet s.now × (8 * variables s.now ≤ length index.old) }
    ensures { SizedTo s.now (clauses s.now) index.new
        × Kept (8 * variables s.now) index.old index.new }
{
    clear_sizes(sheet::variable_count(s) as usize, index);
    let m = sheet::clause_count(s);
    for k in 0..m {
        count_clause(s, k + 1, index);
    }
}

// Each list begins where the one before it will end; as yet all are empty.
fn place_lists(s: &[u8], index: &mut [u8])
    requires { ValidSheet s.now × SizedTo s.now (clauses s.now) index.old × (index_end s.now ≤ length index.old) }
    ensures { FilledTo s.now 0 index.new
        × Kept (8 * variables s.now) index.old index.new }
{
    let n = sheet::variable_count(s) as usize;
    let mut next = 8 * n;
    for v in 0..n {
        let at = 8 * v;
        let size = place::u32_at(index, at + 4);
        place::put_u32(index, at, next as u32);
        place::put_u32(index, at + 4, 0);
        next += size;
    }
}

// The entry x behind list v, and its length raised.
#[tactic(auto, using(crate::proofs::Filling::filed_by))]
fn file(index: &mut [u8], v: usize, x: u32)
    requires { Takes v index.old }
    ensures { index.new ≡ filed v x index.old }
{
    let at = 8 * (v - 1);
    let start = place::u32_at(index, at);
    let size = place::u32_at(index, at + 4);
    place::put_u32(index, start + size, x);
    place::put_u32(index, at + 4, (size + 4) as u32);
}

// Clause k behind the list of each variable that it mentions, with the literal's sign.
fn fill_clause(s: &[u8], k: u32, index: &mut [u8])
    requires { ValidSheet s.now × Among (clauses s.now) k × FilledTo s.now (k - 1) index.old }
    ensures { FilledTo s.now k index.new
        × Kept (index_end s.now) index.old index.new }
{
    let part = sheet::clause_of(s, k);
    let q = part.len() / 2;
    for i in 0..q {
        let c = place::u16_at(part, 2 * i);
        file(index, (c / 2) as usize, 2 * k + (c % 2) as u32);
    }
}

// The lists that the pairs have room for.
fn fill(s: &[u8], index: &mut [u8])
    requires { ValidSheet s.now × FilledTo s.now 0 index.old }
    ensures { FilledTo s.now (clauses s.now) index.new
        × Kept (index_end s.now) index.old index.new }
{
    let m = sheet::clause_count(s);
    for k in 0..m {
        fill_clause(s, k + 1, index);
    }
}

// The index of s, its entries with their signs.
pub(crate) fn build(s: &[u8], index: &mut [u8])
    requires { ValidSheet s.now × (index_end s.now ≤ length index.old) }
    ensures { FilledTo s.now (clauses s.now) index.new
        × Kept (index_end s.now) index.old index.new }
{
    count_sizes(s, index);
    place_lists(s, index);
    fill(s, index);
}

// The signs taken from the entries, of which the last ends at `end`.
pub(crate) fn clear_signs(s: &[u8], end: usize, index: &mut [u8])
    requires { ValidSheet s.now × (end ≡ index_end s.now) × FilledTo s.now (clauses s.now) index.old }
    ensures { index.new ≡ over (index_of s.now) index.old }
{
    let start = 8 * (sheet::variable_count(s) as usize);
    for at in (start..end).step_by(4) {
        let x = place::u32_at(index, at);
        place::put_u32(index, at, (x / 2) as u32);
    }
}
