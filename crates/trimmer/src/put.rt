// Writing the trimmed record: counts where the pairs will stand, the bodies behind them, then the pairs over the counts, and what
// stands before them.
ghost use Rattle.std.specs.Prelude.{◌≡◌, ◌+◌, ◌*◌, ◌^◌, ◌≤◌, ◌<◌, length};
ghost use Rattle.std.proofs.Props.{props};
ghost use Rattle.judgement.specs.Scan.{count_of};
ghost use Rattle.judgement.specs.Record.{steps};
ghost use Rattle.judgement.specs.Step.{kind_of, literal_count};
ghost use Rattle.judgement.specs.Buffer.{over, told_by, written_by, left_by};
ghost use Rattle.judgement.specs.Facts.{Among};
ghost use Rattle.trimmer.specs.Trim.{kept, citing, renumbered, marks_of, trimmed, short_output};
ghost use Rattle.trimmer.specs.Work.{Citing, marked, Sampled, kept_body, bodies_to, pair_if, pairs_to, head_bytes};

use crate::source::Source;
use crate::{number, read};
use judgement::{Reason, Refusal};

// A record that has passed, and the marks of its steps.
#[derive(Clone, Copy)]
pub(crate) struct Selection<'a> {
    pub(crate) source: Source<'a>,
    pub(crate) marks: &'a [u8],
    ghost marks_are: { marks.now ≡ marks_of source.sheet.now source.«record».now },
}

impl Selection<'_> {
    // How many bytes step k adds to the bodies. The pair is read before the mark is looked at, so that no branch is needed: which
    // steps are kept cannot be guessed.
    fn kept_size(&self, k: usize) -> usize
        requires { Among (length self.now.marks.now) k }
        ensures { (result ≡ length (kept_body self.now.source.sheet.now self.now.source.«record».now k)) × (result < 2 ^ 32) }
    {
        let size = self.source.body_size(k);
        if self.marks[k - 1] != 1 {
            return 0;
        }
        size
    }

    // How many bytes the kept bodies have.
    fn bodies_size(&self) -> usize
        ensures { result ≡ length (bodies_to self.now.source.sheet.now self.now.source.«record».now (length self.now.marks.now)) }
    {
        let mut n = 0;
        for k in 0..self.marks.len() {
            n += self.kept_size(k + 1);
        }
        n
    }

    // The pairs of the kept bodies, the first of which begins at `start`.
    fn write_pairs(&self, start: usize, out: &mut [u8])
        requires { (start + length (bodies_to self.now.source.sheet.now self.now.source.«record».now (length self.now.marks.now)) < 2 ^ 32)
            × (length (pairs_to self.now.source.sheet.now self.now.source.«record».now start (length self.now.marks.now)) ≤ length out.old) }
        ensures { out.new ≡ over (pairs_to self.now.source.sheet.now self.now.source.«record».now start (length self.now.marks.now)) out.old }
    {
        let mut next = start;
        let mut at = 0;
        for k in 0..self.marks.len() {
            let size = self.kept_size(k + 1);
            let mark = self.marks[k];
            put_pair_if(mark, next as u32, size as u32, &mut out[at..]);
            next += size;
            at += 8 * usize::from(mark == 1);
        }
    }

    // The record of the steps that have marks, `count` of them. There is room for two counts where a pair will stand.
    #[tactic(auto, using(crate::proofs::Whole::count_fits, crate::proofs::Whole::marks_fit))]
    fn write_all(&self, count: usize, out: &mut [u8])
        requires { (count ≡ count_of (kept self.now.source.sheet.now self.now.source.«record».now) (steps self.now.source.«record».now))
            × (length (trimmed self.now.source.sheet.now self.now.source.«record».now) ≤ length out.old) }
        ensures { out.new ≡ over (trimmed self.now.source.sheet.now self.now.source.«record».now) out.old }
    {
        let table = self.source.table;
        let start = table + 8 * count;
        // Rounded up: the proof that the samples suffice goes by this form.
        let w = (self.marks.len() - 1) / (2 * count) + 1;
        let (front, bodies) = out.split_at_mut(start);
        number::write_samples(self.marks, w, 2 * count, &mut front[table..]);
        let numbering = Numbering {
            selection: *self,
            counts: &front[table..],
            w,
        };
        numbering.write_bodies(bodies);
        self.write_pairs(start, &mut front[table..]);
        write_head(&self.source, count as u32, front);
    }

    // The same where the buffer is long enough, which is known before the first byte is written; answers how many bytes it takes.
    pub(crate) fn write_if_room(&self, out: &mut [u8]) -> Result<usize, Refusal>
        ensures answer { told_by result ≡ written_by
            (short_output self.now.source.sheet.now self.now.source.«record».now (length out.old))
            (trimmed self.now.source.sheet.now self.now.source.«record».now) }
        ensures buffer { out.new ≡ left_by
            (short_output self.now.source.sheet.now self.now.source.«record».now (length out.old))
            (trimmed self.now.source.sheet.now self.now.source.«record».now) out.old }
    {
        let count = number::count_marks(self.marks, 0, self.marks.len());
        let size = self.source.table + 8 * count + self.bodies_size();
        if out.len() < size {
            return Err(Reason::ShortOutput.at(0));
        }
        self.write_all(count, out);
        Ok(size)
    }
}

// A selection with sampled counts, by which its steps get new numbers.
#[derive(Clone, Copy)]
struct Numbering<'a> {
    selection: Selection<'a>,
    counts: &'a [u8],
    w: usize,
    ghost sampled: { Sampled counts.now selection.marks.now w } by { Prim.hlevel props },
}

impl Numbering<'_> {
    // The new number of step x: the last count that was sampled before it, and the marks from there on.
    fn new_number(&self, x: usize) -> u32
        requires { Among (length self.now.selection.marks.now) x }
        ensures { result ≡ count_of (marked self.now.selection.marks.now) x }
    {
        let i = number::sample_of(self.w, x);
        (read::u32_at(self.counts, 4 * i)
            + number::count_marks(self.selection.marks, i * self.w, x)) as u32
    }

    // The body b, renumbered.
    fn put_body(&self, b: &[u8], out: &mut [u8])
        requires { Citing b.now (length self.now.selection.marks.now) × (length b.now ≤ length out.old) }
        ensures { out.new ≡ over (renumbered (kind_of b.now) (count_of (marked self.now.selection.marks.now)) b.now) out.old }
    {
        // As in marks: the byte of `Kind::Resolvent`.
        if b[0] != 4 {
            layout::put_bytes(out, b);
            return;
        }
        let x = self.new_number(read::cited_at(b, 0));
        let y = self.new_number(read::cited_at(b, 1));
        put_citing(b, x, y, out);
    }

    // The body of step k, where it is kept; answers how many bytes it has.
    fn write_body(&self, k: usize, out: &mut [u8]) -> usize
        requires { Among (length self.now.selection.marks.now) k
            × (length (kept_body self.now.selection.source.sheet.now self.now.selection.source.«record».now k) ≤ length out.old) }
        ensures { (result ≡ length (kept_body self.now.selection.source.sheet.now self.now.selection.source.«record».now k))
            × (out.new ≡ over (kept_body self.now.selection.source.sheet.now self.now.selection.source.«record».now k) out.old) }
    {
        if self.selection.marks[k - 1] != 1 {
            return 0;
        }
        let b = self.selection.source.body(k);
        self.put_body(b, out);
        b.len()
    }

    // The kept bodies, one behind the other.
    fn write_bodies(&self, out: &mut [u8])
        requires { length (bodies_to self.now.selection.source.sheet.now self.now.selection.source.«record».now (length self.now.selection.marks.now))
            ≤ length out.old }
        ensures { out.new ≡ over
            (bodies_to self.now.selection.source.sheet.now self.now.selection.source.«record».now (length self.now.selection.marks.now))
            out.old }
    {
        let mut pos = 0;
        for k in 0..self.selection.marks.len() {
            pos += self.write_body(k + 1, &mut out[pos..]);
        }
    }
}

// The body b of kind 4, citing steps x and y: all of it, and then the two numbers over those that it has.
fn put_citing(b: &[u8], x: u32, y: u32, out: &mut [u8])
    requires { (12 + 2 * literal_count b.now + 10 ≡ length b.now) × (length b.now ≤ length out.old) }
    ensures { out.new ≡ over (citing b.now x y) out.old }
{
    layout::put_bytes(out, b);
    let e = read::tail_at(b);
    layout::put_pair(&mut out[e..], x, y);
}

// A pair, where there is a mark.
fn put_pair_if(mark: u8, offset: u32, size: u32, out: &mut [u8])
    requires { length (pair_if mark offset size) ≤ length out.old }
    ensures { out.new ≡ over (pair_if mark offset size) out.old }
{
    if mark != 1 {
        return;
    }
    layout::put_pair(out, offset, size);
}

// What stands before the pairs: claim, number of steps, assignment.
fn write_head(source: &Source, count: u32, out: &mut [u8])
    requires { source.now.table ≤ length out.old }
    ensures { out.new ≡ over (head_bytes source.now.«record».now source.now.table count) out.old }
{
    layout::put_bytes(out, &source.record[0..8]);
    layout::put_u32(&mut out[8..], count);
    layout::put_bytes(&mut out[12..], &source.record[12..source.table]);
}
