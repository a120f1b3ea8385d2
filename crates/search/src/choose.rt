// Choosing and forcing, which call each other: each choice settles a variable.
ghost use Rattle.std.specs.Prelude.{◌≡◌, ℕ, ◌+◌, ◌*◌, ◌/◌, ◌≤◌, ◌<◌};
ghost use Rattle.judgement.specs.Facts.{Among};
ghost use Rattle.search.specs.declared.Node.{Node};
ghost use Rattle.search.specs.First.{lowest};
ghost use Rattle.search.specs.Node.{unsettled, node_cost};
ghost use Rattle.search.specs.Search.{spend, stop, visit, explore, searched};
ghost use Rattle.search.specs.Stated.{stated};
ghost use Rattle.search.specs.Work.{node_of, Ready, Reached, nothing, counted_cost, AllQuiet, at_node, settle_work, unsettled_count};
ghost use Rattle.search.specs.Counts.{Counts, Below};

use crate::level::Level;
use crate::tables::Tables;
use crate::{Node, Progress, Work, count, propagate};
use judgement::NONE;

// The first variable that is not settled.
fn next_variable(n: u32, p: Node) -> Option<u32>
    requires { n ≤ 64 }
    ensures none { result ≡ None → lowest (unsettled p) n ≡ 0 }
    ensures some { (v : ℕ) → result ≡ Some v → (v ≡ lowest (unsettled p) n) × Among n v }
{
    let v = u64::trailing_zeros(!(p.trues | p.falses)) + 1;
    if n < v {
        return None;
    }
    Some(v)
}

// ---- steps of the search

#[tactic(auto, unfolding(crate::specs::Search::spend))]
fn spent(mut s: Progress) -> Progress
    requires { 1 ≤ s.left }
    ensures { result ≡ spend s }
{
    s.left -= 1;
    s
}

#[tactic(auto, unfolding(crate::specs::Search::stop))]
fn halted(mut s: Progress, price: u64) -> Progress
    ensures { result ≡ stop price s }
{
    s.floor = s.floor.min(price);
    s.stopped = true;
    s
}

fn improved(p: Node, price: u64, mut s: Progress) -> Progress
    ensures { result ≡ record { cost = price; plan = p.trues; floor = s.floor; left = s.left; stopped = s.stopped } }
{
    s.cost = price;
    s.plan = p.trues;
    s
}

// The node with the literal c made true, and its variable to be looked at.
#[tactic(auto, using(crate::proofs::Choosing::chosen_positive, crate::proofs::Choosing::chosen_negative))]
fn chosen(p: Node, c: u32) -> Work
    requires { Among 64 (c / 2) }
    ensures { result ≡ settle_work (at_node p) c }
{
    let one = 1u64 << (c / 2 - 1);
    if c % 2 == 0 {
        return Work {
            trues: p.trues | one,
            falses: p.falses,
            todo: one,
        };
    }
    Work {
        trues: p.trues,
        falses: p.falses | one,
        todo: one,
    }
}

// ---- the cycle

// The tables and the level's table are two: those are read and this one is written. Node, price and progress change at each call.

// A node where nothing is forced and that is not left: it is a plan, or it has two branches.
#[cycle(choose_force)]
fn choose(
    tables: &Tables,
    table: &mut [u64; 20800],
    level: Level,
    p: Node,
    price: u64,
    s: Progress,
) -> Progress
    requires { (level.at + 320 * unsettled_count tables.now.size.variables p + 320 ≤ 20800)
        × Counts (stated tables.now) table.old level.at (at_node p) × AllQuiet (stated tables.now) p
        × (price ≡ node_cost (stated tables.now) p) × (price < s.cost) }
    ensures below { Below level.at table.old table.new }
    ensures visits { (deep : ℕ) → unsettled_count tables.now.size.variables p ≤ deep
        → result ≡ visit (stated tables.now) (explore (stated tables.now) deep) p s }
{
    let Some(v) = next_variable(tables.size.variables, p) else {
        return improved(p, price, s);
    };
    if s.left == 0 {
        return halted(s, price);
    }
    count::copy_level(tables, table, level);
    let first = chosen(p, 2 * v + 1);
    let t = force(tables, table, level.next(), first, price, spent(s));
    if t.left == 0 {
        return halted(t, price);
    }
    let u = spent(t);
    // Forcing would only add to this.
    if u.cost <= price + u64::from(tables.costs[v as usize - 1]) {
        return u;
    }
    // The node is not needed any more: its second branch is tried in its place.
    force(tables, table, level, chosen(p, 2 * v), price, u)
}

// All that lies below a node: literals are forced, and the node that this comes to is left or visited.
#[cycle(choose_force)]
fn force(
    tables: &Tables,
    table: &mut [u64; 20800],
    level: Level,
    w: Work,
    price: u64,
    s: Progress,
) -> Progress
    requires { (level.at + 320 * unsettled_count tables.now.size.variables (node_of w) + 320 ≤ 20800)
        × Counts (stated tables.now) table.old level.at w × Ready (stated tables.now) w nothing
        × (price ≡ counted_cost (stated tables.now) w) }
    ensures below { Below level.at table.old table.new }
    ensures explores { (p : Node) (deep : ℕ) → Reached (stated tables.now) p (node_of w)
        → unsettled_count tables.now.size.variables p < deep → result ≡ explore (stated tables.now) deep p s }
{
    if s.cost <= price {
        return s;
    }
    let Some(f) = propagate::force_all(tables, table, level, w, price, s.cost) else {
        return s;
    };
    choose(tables, table, level, f.node, f.price, s)
}

// The whole search of a problem in tables.
pub(crate) fn search_tables(tables: &Tables, budget: u64) -> Progress
    ensures { result ≡ searched (stated tables.now) budget }
{
    let s = Progress {
        cost: NONE,
        plan: 0,
        floor: NONE,
        left: budget,
        stopped: false,
    };
    let root = Work {
        trues: 0,
        falses: 0,
        todo: 0,
    };
    let Some(w) = propagate::look_all(tables, root) else {
        return s;
    };
    let mut table = [0u64; 20800];
    count::count_all(tables, &mut table);
    force(
        tables,
        &mut table,
        Level::FIRST,
        w,
        u64::from(tables.size.loss),
        s,
    )
}
