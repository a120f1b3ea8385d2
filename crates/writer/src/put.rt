// Writing the sheet with its clauses in a given order.
ghost use Rattle.std.specs.Prelude.{◌≡◌, map, ◌+◌, ◌*◌, ◌^◌, ◌≤◌, ◌<◌, length};
ghost use Rattle.std.specs.Result.{result_and};
ghost use Rattle.judgement.specs.Sheet.{variables, clauses, loss};
ghost use Rattle.judgement.specs.Writer.{pairs_of, joined, mark_of};
ghost use Rattle.judgement.specs.Buffer.{over, left_by};
ghost use Rattle.writer.specs.Canonical.{ordered, canonical, shortage};
ghost use Rattle.writer.specs.Words.{codes_of, body_of, EachWord, SortedRange, head_end, head_bytes};

use crate::read::Clauses;
use judgement::{MARK, Reason, Refusal};

// The mark of a sheet with this loss.
fn mark_of(lost: u64) -> u32
    ensures { (result ≡ mark_of lost) × (result ≤ 2 ^ 15) }
{
    if lost == 0 { 0 } else { MARK }
}

// n, with the mark that is due.
fn due_field(s: &[u8]) -> u16
    ensures { result ≡ mark_of (loss s.now) + variables s.now }
{
    (mark_of(sheet::loss(s)) + sheet::variable_count(s)) as u16
}

// Where the pairs of the written sheet begin: behind the costs, and the four bytes of its loss where the mark is due.
fn head_end(s: &[u8]) -> usize
    ensures { (result ≡ head_end s.now) × (result < 2 ^ 19) }
{
    let lost = u32::from(mark_of(sheet::loss(s)) != 0);
    (sheet::loss_at(s) + 4 * lost) as usize
}

// What stands before these pairs, for so many clauses.
fn write_head(s: &[u8], end: usize, count: u16, out: &mut [u8])
    requires { (4 ≤ end) × (end ≤ length s.now) × (end ≤ length out.old) × (end ≡ head_end s.now) }
    ensures { out.new ≡ over (head_bytes s.now count) out.old }
{
    layout::put_u16(out, due_field(s));
    layout::put_u16(&mut out[2..], count);
    layout::put_bytes(&mut out[4..], &s[4..end]);
}

// The clauses of a valid sheet in the one order, each once, by their words.
#[derive(Clone, Copy)]
pub(crate) struct Order<'a> {
    clauses: Clauses<'a>,
    words: &'a [u64],
    ghost inside: { EachWord clauses.sheet.now words.now },
    ghost sorted: { map (codes_of clauses.sheet.now) words.now ≡ ordered clauses.sheet.now },
    ghost few: { length words.now ≤ 4096 },
}

impl<'a> Order<'a> {
    pub(crate) fn new(all: Clauses<'a>, words: &'a [u64]) -> Self
        requires sorted { SortedRange all.sheet.now 0 (clauses all.sheet.now) words.now }
        requires few { length words.now ≤ 4096 }
        ensures { result.clauses.sheet.now ≡ all.entry.sheet.now }
    {
        Order {
            clauses: all,
            words,
        }
    }

    // How many bytes the bodies have.
    fn bodies_size(&self) -> usize
        ensures { result ≡ length (joined (map (body_of self.now.clauses.sheet.now) self.now.words.now)) }
    {
        let mut sum = 0;
        for w in self.words {
            sum += self.clauses.body_of(*w).len();
        }
        sum
    }

    // The pairs, the first body at `start`.
    #[tactic(auto, using(judgement::proofs::Laws::Table::size_room))]
    fn write_pairs(&self, start: usize, out: &mut [u8])
        requires room { 8 * length self.now.words.now ≤ length out.old }
        requires ends { start + length (joined (map (body_of self.now.clauses.sheet.now) self.now.words.now)) ≤ 4294967295 }
        ensures { out.new ≡ over (pairs_of start (map (body_of self.now.clauses.sheet.now) self.now.words.now)) out.old }
    {
        let mut next = start;
        for (i, w) in self.words.iter().enumerate() {
            let size = self.clauses.body_of(*w).len();
            layout::put_pair(&mut out[8 * i..], next as u32, size as u32);
            next += size;
        }
    }

    // The bodies, one after the other.
    fn write_bodies(&self, out: &mut [u8])
        requires { length (joined (map (body_of self.now.clauses.sheet.now) self.now.words.now)) ≤ length out.old }
        ensures { out.new ≡ over (joined (map (body_of self.now.clauses.sheet.now) self.now.words.now)) out.old }
    {
        let mut at = 0;
        for w in self.words {
            let body = self.clauses.body_of(*w);
            layout::put_bytes(&mut out[at..], body);
            at += body.len();
        }
    }

    // The sheet with the clauses in this order.
    fn write_all(&self, end: usize, out: &mut [u8])
        requires room { length (canonical self.now.clauses.sheet.now) ≤ length out.old }
        requires end { end ≡ head_end self.now.clauses.sheet.now }
        ensures { out.new ≡ over (canonical self.now.clauses.sheet.now) out.old }
    {
        let q = self.words.len();
        write_head(self.clauses.sheet, end, q as u16, out);
        let start = end + 8 * q;
        self.write_pairs(start, &mut out[end..]);
        self.write_bodies(&mut out[start..]);
    }

    // The same where the buffer is long enough, which is known before the first byte is written. Answers how many bytes it is.
    #[tactic(auto, using(crate::proofs::Answers::short_room, crate::proofs::Answers::room_enough, crate::proofs::Raw::counted_size, crate::proofs::Canonical::counted_room))]
    pub(crate) fn write_if_room(&self, out: &mut [u8]) -> Result<usize, Refusal>
        ensures answer { let s = self.now.clauses.sheet.now in
            result ≡ result_and (shortage s (length out.old)) (Ok (length (canonical s))) }
        ensures buffer { let s = self.now.clauses.sheet.now in
            out.new ≡ left_by (shortage s (length out.old)) (canonical s) out.old }
    {
        let end = head_end(self.clauses.sheet);
        let size = end + 8 * self.words.len() + self.bodies_size();
        if out.len() < size {
            return Err(Reason::ShortBuffer.at(0));
        }
        self.write_all(end, out);
        Ok(size)
    }
}
