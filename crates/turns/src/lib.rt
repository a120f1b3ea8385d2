// Turning variables: a keeper tries paddles one by one, and sees how many clauses are broken.
#![tactic(auto)]

mod counts;
mod index;
mod place;
mod walk;

ghost use Rattle.std.specs.Prelude.{◌≡◌, ◌^◌, ◌<◌, length, Err};
ghost use Rattle.judgement.specs.Finding.{over_all};
ghost use Rattle.judgement.specs.Sheet.{variables};
ghost use Rattle.judgement.specs.Facts.{ValidSheet};
ghost use Rattle.turns.specs.Turning.{value_in, turned, broken_total, index_size, has_room, wrong_turn, lent, left_in, turning, left};
ghost use Rattle.turns.specs.Promises.{Enough, AllTurns, TurnedWhen, WhenDone, TurnLaws};
ghost use Rattle.turns.specs.Counts.{wrong_at, answer_by};

use crate::walk::Indexed;
use judgement::{Reason, Refusal};

// The answer: `total` is how many clauses are broken. A refusal has total 0. With 30 the place is in the list of turns, which may be
// longer than any other thing that has places.
#[derive(Clone, Copy)]
pub struct Turned {
    pub number: u32,
    pub place: usize,
    pub total: usize,
}

// Why nothing is turned: a refusal as elsewhere, but the place of 30 may be past 32 bits.
#[derive(Clone, Copy)]
struct Refused {
    number: u32,
    place: usize,
}

impl From<Refusal> for Refused {
    ghost from_gives = { λ x y. y ≡ record { number = x.number; place = x.place } };

    fn from(refusal: Refusal) -> Refused {
        Refused {
            number: refusal.number,
            place: refusal.place as usize,
        }
    }
}

impl From<Refused> for Turned {
    ghost from_gives = { λ x t. t ≡ answer_by (Err x) };

    fn from(refused: Refused) -> Turned {
        Turned {
            number: refused.number,
            place: refused.place,
            total: 0,
        }
    }
}

// How many bytes the index has. `ValidSheet` stays here and below, as in index.
fn index_size(s: &[u8]) -> usize
    requires { ValidSheet s.now }
    ensures { (result ≡ index_size s.now) × (result < 2 ^ 32) }
{
    let n = sheet::variable_count(s) as usize;
    let m = sheet::clause_count(s);
    let mut size = 8 * n;
    for k in 0..m {
        size += 4 * (sheet::clause_of(s, k + 1).len() / 2);
    }
    size
}

// Buffers of these sizes are long enough, where the index has `size` bytes.
#[tactic(auto, using(crate::proofs::Answers::short_assignment, crate::proofs::Answers::short_index))]
fn has_room(s: &[u8], size: usize, a: usize, i: usize, c: usize) -> bool
    requires { ValidSheet s.now × (size ≡ index_size s.now) }
    ensures { result ≡ has_room s.now a i c }
{
    let n = sheet::variable_count(s) as usize;
    let m = sheet::clause_count(s) as usize;
    if a < n.div_ceil(8) {
        return false;
    }
    if i < size {
        return false;
    }
    2 * m <= c
}

// The place of the first turn that is not of a variable from 1 to n.
fn first_wrong(turns: &[u16], n: usize) -> Option<usize>
    ensures { over_all (wrong_turn n turns.now) (length turns.now) ≡ wrong_at result }
{
    for (i, turn) in turns.iter().enumerate() {
        let v = *turn as usize;
        if v < 1 || n < v {
            return Some(i + 1);
        }
    }
    None
}

// Index and counts built, the turns done, and the signs taken from the index again; answers the broken total.
fn run(
    s: &[u8],
    end: usize,
    a: &mut [u8],
    turns: &[u16],
    index: &mut [u8],
    counts: &mut [u8],
) -> usize
    requires { ValidSheet s.now × (end ≡ index_size s.now) × AllTurns (variables s.now) turns.now
        × Enough s.now (lent a.old index.old counts.old) }
    ensures { (result ≡ broken_total s.now (value_in (turned a.old turns.now)))
        × (lent a.new index.new counts.new ≡ left_in (Ok tt) s.now turns.now (lent a.old index.old counts.old)) }
{
    index::build(s, index);
    let afresh = counts::count_afresh(s, a, counts);
    let total = walk::turn_all(Indexed { sheet: s, index }, a, turns, counts, afresh);
    index::clear_signs(s, end, index);
    total
}

// The refusals in their order, then the turns; answers the broken total.
// The three buffers stay apart: of a struct of them that goes on to `run`, the proof has no more than the lengths at the refusals (tried).
fn turn_lent(
    s: &[u8],
    a: &mut [u8],
    turns: &[u16],
    index: &mut [u8],
    counts: &mut [u8],
) -> Result<usize, Refused>
    ensures { (answer_by result ≡ turning s.now turns.now (lent a.old index.old counts.old))
        × (lent a.new index.new counts.new ≡ left s.now turns.now (lent a.old index.old counts.old)) }
{
    sheet::alone_finding(s)?;
    let end = index_size(s);
    if !has_room(s, end, a.len(), index.len(), counts.len()) {
        return Err(Reason::NoRoom.at(0).into());
    }
    let n = sheet::variable_count(s) as usize;
    if let Some(place) = first_wrong(turns, n) {
        return Err(Refused {
            number: Reason::WrongTurn.number(),
            place,
        });
    }
    Ok(run(s, end, a, turns, index, counts))
}

// Turns each of the listed variables, in their order, in the assignment that is lent; builds the sheet's index and the counts of the true
// literals at the beginning of their buffers, and answers how many clauses are broken. Refusals 1 to 4 of the sheet, 29 of a short buffer
// and 30 of a turn that is of no variable alter nothing. The answer and all that the buffers hold afterwards are the definitions'
// (answer, buffers), which come to the facts of `when` and, where the turns are done, to those of `done`; the order of the turns does not
// matter, and a variable turned twice stays as it was (laws).
#[tactic(auto, using(crate::proofs::Laws::turn_laws))]
pub fn turn(
    sheet: &[u8],
    assignment: &mut [u8],
    turns: &[u16],
    index: &mut [u8],
    counts: &mut [u8],
) -> Turned
    ensures answer { result ≡ turning sheet.now turns.now (lent assignment.old index.old counts.old) }
    ensures buffers { lent assignment.new index.new counts.new
        ≡ left sheet.now turns.now (lent assignment.old index.old counts.old) }
    ensures when { TurnedWhen sheet.now turns.now (lent assignment.old index.old counts.old) result
        (lent assignment.new index.new counts.new) }
    ensures done { WhenDone sheet.now turns.now (lent assignment.old index.old counts.old) result
        (lent assignment.new index.new counts.new) }
    ensures laws { TurnLaws sheet.now }
{
    match turn_lent(sheet, assignment, turns, index, counts) {
        Ok(total) => Turned {
            number: 0,
            place: 0,
            total,
        },
        Err(refused) => refused.into(),
    }
}
