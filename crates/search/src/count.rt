// The numbers of literals that stand, for 64 clauses at a time. That the number of a word is below 64, and a literal one of 64 variables, is
// asked for by three functions of the crate each: a type for such a number would be made and taken apart at every step.
ghost use Rattle.std.specs.Prelude.{◌≡◌, ℕ, ◌+◌, ◌*◌, ◌/◌, ◌%◌, ◌≤◌, ◌<◌, ◌&&◌, leb, get_or};
ghost use Rattle.judgement.specs.Scan.{one, count_of};
ghost use Rattle.judgement.specs.Facts.{Among};
ghost use Rattle.search.specs.Tables.{in_row};
ghost use Rattle.search.specs.Counts.{words_for, held, Outside, Wrote, CountedDown};

use crate::level::Level;
use crate::tables::Tables;

// Word i of the level's first four planes.
fn planes(table: &[u64; 20800], level: Level, i: usize) -> [u64; 4]
    requires { i < 64 }
    ensures { (p : ℕ) → p < 4 → get_or result p 0 ≡ get_or table.now (level.at + 64 * p + i) 0 }
{
    let at = level.at;
    [
        table[at + i],
        table[at + 64 + i],
        table[at + 128 + i],
        table[at + 192 + i],
    ]
}

// These four are put there.
fn put_planes(table: &mut [u64; 20800], level: Level, i: usize, words: [u64; 4])
    requires { i < 64 }
    ensures { Wrote level.at i table.old table.new (get_or words 0 0) (get_or words 1 0) (get_or words 2 0) (get_or words 3 0)
        (get_or table.old (level.at + 256 + i) 0) }
{
    let at = level.at;
    table[at + i] = words[0];
    table[at + 64 + i] = words[1];
    table[at + 128 + i] = words[2];
    table[at + 192 + i] = words[3];
}

// Takes one off the number of each clause of the row of c, and marks those of the row that are at 1 or 0 then.
pub(crate) fn count_down(tables: &Tables, c: u32, table: &mut [u64; 20800], level: Level)
    requires { Among 64 (c / 2) }
    ensures { CountedDown tables.now.rows c (64 * words_for tables.now.size.clauses) level.at table.old table.new }
{
    let start = 64 * (c as usize - 2);
    for i in 0..tables.size.words() {
        let row = tables.rows[start + i];
        let [p0, p1, p2, p3] = planes(table, level, i);
        let q0 = p0 ^ row;
        let b1 = row & q0;
        let q1 = p1 ^ b1;
        let b2 = b1 & q1;
        let q2 = p2 ^ b2;
        let q3 = p3 ^ (b2 & q2);
        put_planes(table, level, i, [q0, q1, q2, q3]);
        table[level.at + 256 + i] = row ^ (row & (q1 | q2 | q3));
    }
}

// Adds one to the number of each clause of the row of c, at the first level.
fn count_up(tables: &Tables, c: u32, table: &mut [u64; 20800])
    requires { Among 64 (c / 2) }
    ensures { (k : ℕ) → Among (64 * words_for tables.now.size.clauses) k
        → held table.new 0 k ≡ (held table.old 0 k + one (in_row tables.now.rows c k)) % 16 }
{
    let start = 64 * (c as usize - 2);
    for i in 0..tables.size.words() {
        let row = tables.rows[start + i];
        let [p0, p1, p2, p3] = planes(table, Level::FIRST, i);
        let c1 = row & p0;
        let c2 = c1 & p1;
        let c3 = c2 & p2;
        put_planes(
            table,
            Level::FIRST,
            i,
            [p0 ^ row, p1 ^ c1, p2 ^ c2, p3 ^ c3],
        );
    }
}

// How many literals each clause has, at the first level.
pub(crate) fn count_all(tables: &Tables, table: &mut [u64; 20800])
    requires { (i : ℕ) → get_or table.old i 0 ≡ 0 }
    ensures { (k : ℕ) → Among (64 * words_for tables.now.size.clauses) k
        → held table.new 0 k ≡ count_of (λ c. leb 2 c && in_row tables.now.rows c k) (2 * tables.now.size.variables + 1) % 16 }
{
    for c in 0..2 * tables.size.variables {
        count_up(tables, c + 2, table);
    }
}

// The level is the start of the next one.
pub(crate) fn copy_level(tables: &Tables, table: &mut [u64; 20800], level: Level)
    requires { level.at + 640 ≤ 20800 }
    ensures same { (k : ℕ) → Among (64 * words_for tables.now.size.clauses) k → held table.new (level.at + 320) k ≡ held table.old level.at k }
    ensures outside { Outside (level.at + 320) table.old table.new }
{
    for i in 0..tables.size.words() {
        let words = planes(table, level, i);
        put_planes(table, level.next(), i, words);
    }
}
