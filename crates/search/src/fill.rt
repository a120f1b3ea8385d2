// The tables of a sheet.
ghost use Rattle.std.specs.Prelude.{◌≡◌, ◌||◌, ◌&&◌, ℕ, ◌+◌, ◌*◌, ◌/◌, ◌≤◌, ◌<◌, eqb, get_or};
ghost use Rattle.judgement.specs.Literals.{holds};
ghost use Rattle.judgement.specs.Sheet.{variables, clauses, problem_of};
ghost use Rattle.judgement.specs.Facts.{Among, LiteralList, ValidSheet};
ghost use Rattle.search.specs.Node.{has};
ghost use Rattle.search.specs.Search.{searched};
ghost use Rattle.search.specs.Tables.{in_row, Small, Costed, Masked, Rowed};

use crate::tables::Tables;
use crate::{Progress, Size, choose};

// What each variable costs.
fn fill_costs(s: &[u8], costs: &mut [u32; 64])
    requires { Small costs.old × (variables s.now ≤ 64) }
    ensures small { Small costs.new }
    ensures each { Costed s.now costs.new (variables s.now) }
{
    let n = sheet::variable_count(s);
    for v in 0..n {
        costs[v as usize] = sheet::cost_of(s, v + 1) as u32;
    }
}

// The variables of its positive literals, and of its negative ones: those of an even code, and of an odd one.
fn sets_of(part: &[u8]) -> [u64; 2]
    requires { LiteralList 64 part.now }
    ensures { (odd v : ℕ) → odd ≤ 1 → has (get_or result odd 0) v ≡ holds part.now (2 * v + odd) }
{
    let q = part.len() / 2;
    let mut sets = [0u64; 2];
    for i in 0..q {
        let c = layout::read_u16(part, 2 * i);
        sets[c % 2] |= 1u64 << (c / 2 - 1);
    }
    sets
}

// The two sets of each clause.
// `ValidSheet` and the 64 stay in the three and four contracts that need them: a type for the sheet would be of these functions alone.
fn fill_masks(s: &[u8], masks: &mut [u64; 8192])
    requires { ValidSheet s.now × (variables s.now ≤ 64) }
    ensures { Masked s.now masks.new (clauses s.now) }
{
    let m = sheet::clause_count(s);
    for k in 0..m {
        let [positives, negatives] = sets_of(sheet::clause_of(s, k + 1));
        masks[2 * k as usize] = positives;
        masks[2 * k as usize + 1] = negatives;
    }
}

// Clause k + 1, with these literals, enters their rows.
fn enter(part: &[u8], k: usize, rows: &mut [u64; 8192])
    requires { LiteralList 64 part.now × (k < 4096) }
    ensures { (c j : ℕ) → Among 64 (c / 2) → Among 4096 j
        → in_row rows.new c j ≡ in_row rows.old c j || (eqb j (k + 1) && holds part.now c) }
{
    let q = part.len() / 2;
    let word = k / 64;
    let one = 1u64 << (k % 64);
    for i in 0..q {
        rows[64 * (layout::read_u16(part, 2 * i) - 2) + word] |= one;
    }
}

// The row of each literal.
fn fill_rows(s: &[u8], rows: &mut [u64; 8192])
    requires { ((i : ℕ) → get_or rows.old i 0 ≡ 0) × ValidSheet s.now × (variables s.now ≤ 64) }
    ensures { Rowed s.now rows.new (clauses s.now) }
{
    let m = sheet::clause_count(s);
    for k in 0..m {
        enter(sheet::clause_of(s, k + 1), k as usize, rows);
    }
}

// The search of a valid sheet.
pub(crate) fn search_valid(s: &[u8], budget: u64) -> Progress
    requires { ValidSheet s.now × (variables s.now ≤ 64) }
    ensures { result ≡ searched (problem_of s.now) budget }
{
    let mut tables = Tables {
        size: Size {
            variables: sheet::variable_count(s),
            clauses: sheet::clause_count(s),
            loss: sheet::loss(s) as u32,
        },
        costs: [0; 64],
        masks: [0; 8192],
        rows: [0; 8192],
    };
    fill_costs(s, &mut tables.costs);
    fill_masks(s, &mut tables.masks);
    fill_rows(s, &mut tables.rows);
    choose::search_tables(&tables, budget)
}
