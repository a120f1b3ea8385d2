// Forcing at a node. A literal that becomes false can make only its own clauses false or forcing, so that after the first look at
// all clauses only those of such a literal are looked at.
ghost use Rattle.std.specs.Prelude.{◌≡◌, Bool, true, cond, ◌||◌, List, ℕ, ◌+◌, ◌-◌, ◌*◌, ◌^◌, ◌≤◌, ◌<◌, get_or};
ghost use Rattle.judgement.specs.Facts.{Among};
ghost use Rattle.search.specs.declared.Node.{Node};
ghost use Rattle.search.specs.declared.Settled.{Settled};
ghost use Rattle.search.specs.Node.{has, node_cost};
ghost use Rattle.search.specs.Stated.{stated};
ghost use Rattle.search.specs.Tables.{table_problem};
ghost use Rattle.search.specs.Work.{node_of, at_node, Under, Ready, Reached, Keeps, Leads, nothing, in_word, counted_cost, false_literal, looked_at, AllQuiet, Outcome};
ghost use Rattle.search.specs.Counts.{plane, Counts, Outside, LowInside};

use crate::level::Level;
use crate::tables::Tables;
use crate::{Node, Settled, Work, clause, count};

// Looks at those of clauses 64 i + 1 to 64 i + 64 whose bits are set, up to one that is false.
fn look_word(tables: &Tables, bits: u64, i: usize, w: Work) -> Option<Work>
    requires { (i < 64) × ((j : ℕ) → Among 64 j → has bits j ≡ true → 64 * i + j ≤ tables.now.size.clauses) }
    ensures onto { Leads w result }
    ensures keeps { (costs : List ℕ) (R : ℕ → Bool)
        → Keeps (table_problem tables.now.size costs tables.now.masks) w (λ k. in_word i bits k || R k) result R }
{
    let mut out = w;
    let mut x = bits;
    while x != 0 {
        let k = 64 * i + u64::trailing_zeros(x) as usize;
        out = clause::look(tables.masks[2 * k], tables.masks[2 * k + 1], out)?;
        x = x & (x - 1);
    }
    Some(out)
}

// The first number from i on that is not 0 in a plane of so many, or their end: `look_low`'s loop tests against the end anyway.
fn next_word(table: &[u64; 20800], start: usize, i: usize, words: usize) -> usize
    requires { (start + words ≤ 20800) × (i ≤ words) }
    ensures { (i ≤ result) × (result ≤ words) × ((j : ℕ) → i ≤ j → j < result → get_or table.now (start + j) 0 ≡ 0) }
{
    for j in i..words {
        if table[start + j] != 0 {
            return j;
        }
    }
    words
}

// Looks at the clauses of the last plane of the level, up to one that is false.
// A `for` over all words, without `next_word`, takes 11% more instructions on 4,096 clauses.
fn look_low(tables: &Tables, table: &[u64; 20800], level: Level, w: Work) -> Option<Work>
    requires { LowInside tables.now.size.clauses table.now level.at }
    ensures onto { Leads w result }
    ensures keeps { (costs : List ℕ)
        → Keeps (table_problem tables.now.size costs tables.now.masks) w (plane table.now level.at 4) result nothing }
{
    let words = tables.size.words();
    let start = level.at + 256;
    let mut out = w;
    let mut i = next_word(table, start, 0, words);
    while i < words {
        out = look_word(tables, table[start + i], i, out)?;
        i = next_word(table, start, i + 1, words);
    }
    Some(out)
}

// Looks at every clause, up to one that is false.
pub(crate) fn look_all(tables: &Tables, w: Work) -> Option<Work>
    ensures onto { Leads w result }
    ensures keeps { (costs : List ℕ)
        → Keeps (table_problem tables.now.size costs tables.now.masks) w (λ k. true) result nothing }
{
    let m = tables.size.clauses as usize;
    let mut out = w;
    for k in 0..m {
        out = clause::look(tables.masks[2 * k], tables.masks[2 * k + 1], out)?;
    }
    Some(out)
}

// The literal of the settled variable v that is false.
#[tactic(auto, using(crate::proofs::Pricing::false_one))]
fn false_literal(w: Work, v: u32) -> u32
    requires { Among 64 v }
    ensures { result ≡ false_literal w v }
{
    2 * v + ((w.trues >> (v - 1)) & 1) as u32
}

// What the variable v adds to the cost of the node.
#[tactic(auto, using(crate::proofs::Pricing::share_none, crate::proofs::Pricing::share_some))]
fn share(costs: &[u32; 64], w: Work, v: u32) -> u64
    requires { Among 64 v × ((u : ℕ) → get_or costs.now u 0 < 2 ^ 32) }
    ensures { (result ≡ cond (has w.trues v) (get_or costs.now (v - 1) 0) 0) × (result < 2 ^ 32) }
{
    if (w.trues >> (v - 1)) & 1 == 0 {
        return 0;
    }
    u64::from(costs[v as usize - 1])
}

// The lowest variable to be looked at is taken out.
fn looked_at(w: Work) -> Work
    requires { 1 ≤ w.todo }
    ensures { result ≡ looked_at w }
{
    Work {
        todo: w.todo & (w.todo - 1),
        ..w
    }
}

// Forces until every clause of a variable that was settled has been looked at, one is false, or the node costs no less than `best`.
pub(crate) fn force_all(
    tables: &Tables,
    table: &mut [u64; 20800],
    level: Level,
    w: Work,
    price: u64,
    best: u64,
) -> Option<Settled>
    requires { Counts (stated tables.now) table.old level.at w × Ready (stated tables.now) w nothing
        × (price ≡ counted_cost (stated tables.now) w) × (price < best) }
    ensures outside { Outside level.at table.old table.new }
    ensures counts { (f : Settled) → result ≡ Some f → Counts (stated tables.now) table.new level.at (at_node f.node) }
    ensures under { (f : Settled) → result ≡ Some f → Under (node_of w) f.node }
    ensures quiet { (f : Settled) → result ≡ Some f
        → AllQuiet (stated tables.now) f.node × (f.price ≡ node_cost (stated tables.now) f.node) × (f.price < best) }
    ensures same { (p : Node) → Reached (stated tables.now) p (node_of w) → Outcome (stated tables.now) best p result }
{
    let mut out = w;
    let mut paid = price;
    while out.todo != 0 {
        let v = u64::trailing_zeros(out.todo) + 1;
        paid += share(&tables.costs, out, v);
        if best <= paid {
            return None;
        }
        count::count_down(tables, false_literal(out, v), table, level);
        out = look_low(tables, table, level, looked_at(out))?;
    }
    Some(Settled {
        node: Node {
            trues: out.trues,
            falses: out.falses,
        },
        price: paid,
    })
}
