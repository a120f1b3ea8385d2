// Which steps are kept: marks that go back from the last step to what it cites, and from there on.
ghost use Rattle.std.specs.Prelude.{◌≡◌, ◌≤◌, length, eqb};
ghost use Rattle.judgement.specs.Record.{steps, step};
ghost use Rattle.judgement.specs.Step.{kind_of};
ghost use Rattle.judgement.specs.Facts.{Among};
ghost use Rattle.trimmer.specs.Work.{Marked, Citing, marks_to, with_cited, passed_on};

use crate::read;
use crate::source::Source;

// No mark but that of the last step.
fn mark_last(marks: &mut [u8])
    requires { 1 ≤ length marks.old }
    ensures { marks.new ≡ marks_to (λ k. eqb k (length marks.old)) (length marks.old) }
{
    marks.fill(0);
    marks[marks.len() - 1] = 1;
}

// The steps that a body b cites get marks: two of kind 4, none of another kind.
#[tactic(auto, using(crate::proofs::Marking::is_four, crate::proofs::Marking::two_cited, std::proofs::lemmas::Grind::common_steps))]
fn mark_cited(b: &[u8], marks: &mut [u8])
    requires { Citing b.now (length marks.old) }
    ensures { marks.new ≡ with_cited (kind_of b.now) b.now marks.old }
{
    // 4 is the byte of `Kind::Resolvent`, the only kind that cites steps; checker's `kind_of` is private to it.
    if b[0] != 4 {
        return;
    }
    let x = read::cited_at(b, 0);
    let y = read::cited_at(b, 1);
    marks[x - 1] = 1;
    marks[y - 1] = 1;
}

// Step k passes its mark on, if it has one.
fn pass_on(source: &Source, k: usize, marks: &mut [u8])
    requires { Among (steps source.now.«record».now) k × (steps source.now.«record».now ≤ length marks.old) }
    ensures { marks.new ≡ passed_on (step source.now.sheet.now source.now.«record».now k) k marks.old }
{
    if marks[k - 1] != 1 {
        return;
    }
    mark_cited(source.body(k), marks);
}

// A mark for each step: 1 for a kept one, 0 for another. A step cites earlier ones only, so that its own mark is settled when its
// turn comes. What is known then is `Marked`: that the record has passed, and which marks these are.
pub(crate) fn mark_kept(source: &Source, marks: &mut [u8])
    requires { length marks.old ≡ steps source.now.«record».now }
    ensures { Marked source.now.sheet.now source.now.«record».now source.now.table marks.new }
{
    mark_last(marks);
    for k in (0..marks.len()).rev() {
        pass_on(source, k + 1, marks);
    }
}
