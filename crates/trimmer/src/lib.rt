// Trimming a record: its last step, and each step that a kept one cites, written as a record of their own into a lent buffer.
#![tactic(auto)]

mod marks;
mod number;
mod put;
mod read;
mod source;

ghost use Rattle.std.specs.Prelude.{◌≡◌, true, length};
ghost use Rattle.judgement.specs.Buffer.{told_by};
ghost use Rattle.judgement.specs.Judgement.{judgement, passes};
ghost use Rattle.trimmer.specs.Trim.{trimming, marks_left, output_left};
ghost use Rattle.trimmer.specs.Promises.{TrimmedWhen, Trimming};

use judgement::{Reason, Refusal, Written};
use put::Selection;
use source::Source;

// The refusals in their order, and then the marks and the record; answers how many bytes this has.
fn trim_into(
    sheet: &[u8],
    record: &[u8],
    marks: &mut [u8],
    out: &mut [u8],
) -> Result<usize, Refusal>
    ensures answer { told_by result ≡ trimming sheet.now «record».now (length marks.old) (length out.old) }
    ensures marked { marks.new ≡ marks_left sheet.now «record».now marks.old }
    ensures buffer { out.new ≡ output_left sheet.now «record».now (length marks.old) out.old }
{
    let answer = checker::judge(sheet, record);
    // A call's answer is numbers, and becomes a refusal again.
    if answer.number != 0 {
        return Err(Refusal {
            number: answer.number,
            place: answer.place,
        });
    }
    let t = answer.step_count as usize;
    if marks.len() < t {
        return Err(Reason::FewMarks.at(0));
    }
    let source = Source {
        sheet,
        record,
        table: claims::step_pairs_at(sheet) as usize,
    };
    marks::mark_kept(&source, &mut marks[..t]);
    let selection = Selection {
        source,
        marks: &marks[..t],
    };
    selection.write_if_room(out)
}

// Trims a record: a mark for each of its steps at the beginning of `marks`, 1 where it is kept, and the kept ones as a record at
// the beginning of `out`. A refused record and refusal 27, of too few marks, leave both; refusal 28, of a short output, comes when
// the marks are written. The answer and all that the buffers hold afterwards are the definitions' (answer, marked, buffer), which
// come to the facts of `when`; and of a record that is not refused, the trimmed one is what is promised: the least set of steps
// that leads to the last, the same judgement but for the step count, and what trimming leaves as it is (promised).
pub fn trim(sheet: &[u8], record: &[u8], marks: &mut [u8], out: &mut [u8]) -> Written
    ensures answer { result ≡ trimming sheet.now «record».now (length marks.old) (length out.old) }
    ensures marked { marks.new ≡ marks_left sheet.now «record».now marks.old }
    ensures buffer { out.new ≡ output_left sheet.now «record».now (length marks.old) out.old }
    ensures when { TrimmedWhen sheet.now «record».now marks.old out.old result marks.new out.new }
    ensures promised { passes (judgement sheet.now «record».now) ≡ true → Trimming sheet.now «record».now }
{
    trim_into(sheet, record, marks, out).into()
}
